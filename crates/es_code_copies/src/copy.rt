// Copies of codes.

ghost use Rattle.std.specs.Prelude.{◌≡◌, IfOk, map, option_map};
ghost use Rattle.es_codes.specs.CodeView.{callee_of, code_of, codes_of, field_form_of, form_of, opened_of, string_of, target_of};
ghost use Rattle.es_codes.specs.View.{details_of, home_of, kind_of, operation_of};
ghost use Rattle.es_steps.specs.Code as of;

use crate::parts::{copy_kind, copy_names, copy_opened, copy_string, copy_strings};
use es_base::ledger::GeneratedKind;
use es_base::list::List;
use es_base::name::Name;
use es_codes::boxed::Boxed;
use es_codes::code::{Callee, Code, FieldForm, FunctionForm, Opened, Target, TemplateString};
use es_codes::event::{Detail, Home, Operation, clone_details};
use es_codes::name::NameKind;
use es_codes::value::Value;
use std::alloc::{AllocError, Global};

/// A copy of a code. Fails on allocation failure alone.
#[cycle(copy)]
#[tactic(auto, using(es_codes::proofs::Forms::nothing_is, es_codes::proofs::Forms::no_rule_is, es_codes::proofs::Forms::value_is, es_codes::proofs::Forms::spelled_is, es_codes::proofs::Forms::private_name_is, es_codes::proofs::Forms::binding_is, es_codes::proofs::Forms::rest_is, es_codes::proofs::Forms::name_is, es_codes::proofs::Forms::super_is, es_codes::proofs::Forms::member_is, es_codes::proofs::Forms::private_member_is, es_codes::proofs::Forms::super_member_is, es_codes::proofs::Forms::private_in_is, es_codes::proofs::Forms::assign_is, es_codes::proofs::Forms::compound_is, es_codes::proofs::Forms::logical_is, es_codes::proofs::Forms::logical_assign_is, es_codes::proofs::Forms::update_is, es_codes::proofs::Forms::call_is, es_codes::proofs::Forms::tag_is, es_codes::proofs::Forms::construct_is, es_codes::proofs::Forms::super_call_is, es_codes::proofs::Forms::super_call_with_all_is, es_codes::proofs::Forms::sequence_is, es_codes::proofs::Forms::template_string_is, es_codes::proofs::Forms::template_is, es_codes::proofs::Forms::operation_is, es_codes::proofs::Forms::piece_is, es_codes::proofs::Forms::chain_is, es_codes::proofs::Forms::short_is, es_codes::proofs::Forms::tested_is, es_codes::proofs::Forms::pattern_is, es_codes::proofs::Forms::takes_is, es_codes::proofs::Forms::steps_is, es_codes::proofs::Forms::gives_to_is, es_codes::proofs::Forms::export_default_is, es_codes::proofs::Forms::function_is, es_codes::proofs::Forms::new_function_is, es_codes::proofs::Forms::new_return_is, es_codes::proofs::Forms::class_code_is, es_codes::proofs::Forms::field_is, es_codes::proofs::Forms::private_field_is, es_codes::proofs::Forms::method_is, es_codes::proofs::Forms::private_method_is, es_codes::proofs::Forms::constructor_is, es_codes::proofs::Forms::static_block_is, es_codes::proofs::Forms::generated_element_is, es_codes::proofs::Forms::from_call_is, es_codes::proofs::Forms::from_member_is, es_codes::proofs::Forms::key_of_is, es_codes::proofs::Forms::helper_is, es_codes::proofs::Forms::helper_call_is, es_codes::proofs::Forms::throw_is, es_codes::proofs::Forms::define_is, es_codes::proofs::Forms::private_initialize_is, es_codes::proofs::Forms::add_brand_is, es_codes::proofs::Forms::bound_is, es_codes::proofs::Forms::setter_is, es_codes::proofs::Forms::private_value_is, es_codes::proofs::Forms::call_arrow_is, es_codes::proofs::Forms::call_closure_is, es_codes::proofs::Forms::initializers_is, es_codes::proofs::Forms::give_function_is, es_codes::proofs::Forms::give_class_is))]
pub fn copy_code(alloc: Global, code: &Code) -> Result<Code, AllocError>
    ensures { IfOk result (λ c. code_of c ≡ code_of code.now) }
{
    match code {
        Code::Nothing => Ok(Code::nothing()),
        Code::NoRule => Ok(Code::no_rule()),
        Code::Value { value } => Ok(Code::value(value.try_clone(alloc)?)),
        Code::Spelled { spelling } => Ok(Code::spelled(spelling.try_clone(alloc)?)),
        Code::PrivateName {
            node,
            spelling,
            means,
        } => Ok(Code::private_name(*node, spelling.try_clone(alloc)?, *means)),
        Code::Binding {
            node,
            spelling,
            kind,
        } => copy_binding(alloc, *node, spelling, kind),
        Code::Rest { to } => Ok(Code::rest(copy_boxed_target(alloc, to)?)),
        Code::Name {
            node,
            spelling,
            kind,
        } => copy_name(alloc, *node, spelling, kind),
        Code::Super => Ok(Code::super_keyword()),
        Code::Member { node, object, key } => copy_member(alloc, *node, object, key),
        Code::PrivateMember {
            node,
            means,
            object,
        } => Ok(Code::private_member(*node, *means, copy_boxed(alloc, object)?)),
        Code::SuperMember {
            node,
            home,
            key,
            this,
        } => copy_super_member(alloc, *node, *home, key, this),
        Code::PrivateIn { node, test, object } => Ok(Code::private_in(
            *node,
            *test,
            copy_boxed(alloc, object)?,
        )),
        Code::Assign { to, right } => copy_assign(alloc, to, right),
        Code::Compound {
            node,
            operator,
            to,
            right,
        } => copy_compound(alloc, *node, operator, to, right),
        Code::Logical {
            node,
            operator,
            left,
            right,
        } => copy_logical(alloc, *node, operator, left, right),
        Code::LogicalAssign {
            node,
            operator,
            to,
            right,
        } => copy_logical_assign(alloc, *node, operator, to, right),
        Code::Update {
            node,
            operator,
            is_prefix,
            to,
        } => copy_update(alloc, *node, operator, *is_prefix, to),
        Code::Call {
            node,
            callee,
            arguments,
        } => copy_call(alloc, *node, callee, arguments),
        Code::Tag {
            node,
            callee,
            strings,
            arguments,
        } => copy_tag(alloc, *node, callee, strings, arguments),
        Code::Construct {
            node,
            callee,
            arguments,
        } => copy_construct(alloc, *node, callee, arguments),
        Code::SuperCall {
            node,
            class,
            behind,
            arguments,
        } => copy_super_call(alloc, *node, *class, behind, arguments),
        Code::SuperCallWithAll { class } => Ok(Code::super_call_with_all(*class)),
        Code::Sequence { all } => Ok(Code::sequence(copy_codes(alloc, all.as_slice())?)),
        Code::TemplateString { string } => Ok(Code::template_string(copy_string(alloc, string)?)),
        Code::Template {
            node,
            strings,
            expressions,
        } => copy_template(alloc, *node, strings, expressions),
        Code::Operation {
            node,
            operation,
            operands,
            held,
        } => copy_operation(alloc, *node, operation, operands, held),
        Code::Piece { details, operands } => copy_piece(alloc, details, operands),
        Code::Chain { node, expression } => Ok(Code::chain(*node, copy_boxed(alloc, expression)?)),
        Code::Short { expression } => Ok(Code::short(copy_boxed(alloc, expression)?)),
        Code::Tested {
            object,
            again,
            rest,
        } => copy_tested(alloc, object, again, rest),
        Code::Pattern { node, to } => Ok(Code::pattern(*node, copy_boxed_target(alloc, to)?)),
        Code::Takes {
            node,
            details,
            key,
            to,
        } => copy_takes(alloc, *node, details, key, to),
        Code::Steps { all } => Ok(Code::steps(copy_codes(alloc, all.as_slice())?)),
        Code::GivesTo { node, to } => Ok(Code::gives_to(*node, copy_boxed_target(alloc, to)?)),
        Code::ExportDefault { expression } => Ok(Code::export_default(copy_boxed(
            alloc, expression,
        )?)),
        Code::Function {
            node,
            form,
            own_name,
            parameters,
            body,
        } => copy_function(alloc, *node, *form, *own_name, parameters, body),
        Code::NewFunction {
            node,
            form,
            parameters,
            body,
        } => copy_new_function(alloc, *node, *form, parameters, body),
        Code::NewReturn { argument } => Ok(Code::new_return(copy_codes(
            alloc,
            argument.as_slice(),
        )?)),
        Code::Class {
            node,
            declared,
            heritage,
            elements,
        } => copy_class(alloc, *node, *declared, heritage, elements),
        Code::Field {
            is_static,
            form,
            key,
            right,
        } => copy_field(alloc, *is_static, *form, key, right),
        Code::PrivateField {
            is_static,
            key,
            right,
        } => Ok(Code::private_field(*is_static, *key, copy_boxed(alloc, right)?)),
        Code::Method {
            is_static,
            kind,
            key,
            function,
        } => copy_method(alloc, *is_static, kind, key, function),
        Code::PrivateMethod {
            is_static,
            key,
            function,
        } => Ok(Code::private_method(*is_static, *key, copy_boxed(alloc, function)?)),
        Code::Constructor { function } => Ok(Code::constructor(copy_boxed(alloc, function)?)),
        Code::StaticBlock { all } => Ok(Code::static_block(copy_codes(alloc, all.as_slice())?)),
        Code::GeneratedElement { spelling, right } => copy_generated_element(
            alloc, spelling, right,
        ),
        Code::FromCall { expression } => Ok(Code::from_call(copy_boxed(alloc, expression)?)),
        Code::FromMember { expression } => Ok(Code::from_member(copy_boxed(alloc, expression)?)),
        Code::KeyOf { expression } => Ok(Code::key_of(copy_boxed(alloc, expression)?)),
        Code::Helper { helper } => Ok(Code::helper(*helper)),
        Code::HelperCall {
            node,
            helper,
            arguments,
        } => Ok(Code::helper_call(*node, *helper, copy_codes(alloc, arguments.as_slice())?)),
        Code::Throw => Ok(Code::throw()),
        Code::Define {
            node,
            object,
            key,
            right,
        } => copy_define(alloc, *node, object, key, right),
        Code::PrivateInitialize {
            node,
            key,
            object,
            right,
        } => copy_private_initialize(alloc, *node, *key, object, right),
        Code::AddBrand {
            node,
            class,
            object,
        } => Ok(Code::add_brand(*node, *class, object.try_clone(alloc)?)),
        Code::Bound { function, object } => copy_bound(alloc, function, object),
        Code::Setter { node, key, object } => Ok(Code::setter(
            *node,
            *key,
            copy_boxed(alloc, object)?,
        )),
        Code::PrivateValue { spelling } => Ok(Code::private_value(spelling.try_clone(alloc)?)),
        Code::CallArrow {
            parameters,
            body,
            arguments,
        } => copy_call_arrow(alloc, parameters, body, arguments),
        Code::CallClosure {
            spelling,
            arguments,
        } => copy_call_closure(alloc, spelling, arguments),
        Code::Initializers { class } => Ok(Code::initializers(*class)),
        Code::GiveFunction {
            node,
            spelling,
            kind,
            function,
        } => copy_give_function(alloc, *node, spelling, *kind, function),
        Code::GiveClass { class, expression } => Ok(Code::give_class(
            *class,
            copy_boxed(alloc, expression)?,
        )),
    }
}

// ---- one form

/// `x`, declared
fn copy_binding(
    alloc: Global,
    node: u32,
    spelling: &Name,
    kind: &NameKind,
) -> Result<Code, AllocError>
    ensures { IfOk result (λ c. code_of c ≡ of.binding node spelling.now (kind_of kind.now)) }
{
    let spelling = spelling.try_clone(alloc)?;
    let kind = copy_kind(alloc, kind)?;
    Ok(Code::binding(node, spelling, kind))
}

/// `x`
fn copy_name(alloc: Global, node: u32, spelling: &Name, kind: &NameKind) -> Result<Code, AllocError>
    ensures { IfOk result (λ c. code_of c ≡ of.name node spelling.now (kind_of kind.now)) }
{
    let spelling = spelling.try_clone(alloc)?;
    let kind = copy_kind(alloc, kind)?;
    Ok(Code::name(node, spelling, kind))
}

/// `o[k]`
#[cycle(copy)]
fn copy_member(
    alloc: Global,
    node: u32,
    object: &Boxed<Code>,
    key: &Boxed<Code>,
) -> Result<Code, AllocError>
    ensures { IfOk result (λ c. code_of c ≡ of.member node (code_of object.now) (code_of key.now)) }
{
    let object = copy_boxed(alloc, object)?;
    let key = copy_boxed(alloc, key)?;
    Ok(Code::member(node, object, key))
}

/// `super[k]`
#[cycle(copy)]
fn copy_super_member(
    alloc: Global,
    node: u32,
    home: Home,
    key: &Boxed<Code>,
    this: &Value,
) -> Result<Code, AllocError>
    ensures { IfOk result (λ c. code_of c ≡ of.super_member node (home_of home) (code_of key.now) this.now) }
{
    let key = copy_boxed(alloc, key)?;
    let this = this.try_clone(alloc)?;
    Ok(Code::super_member(node, home, key, this))
}

/// `t = e`
#[cycle(copy)]
fn copy_assign(alloc: Global, to: &Boxed<Target>, right: &Boxed<Code>) -> Result<Code, AllocError>
    ensures { IfOk result (λ c. code_of c ≡ of.assign (target_of to.now) (code_of right.now)) }
{
    let right = copy_boxed(alloc, right)?;
    let to = copy_boxed_target(alloc, to)?;
    Ok(Code::assign(to, right))
}

/// `t += e`
#[cycle(copy)]
fn copy_compound(
    alloc: Global,
    node: u32,
    operator: &Name,
    to: &Boxed<Target>,
    right: &Boxed<Code>,
) -> Result<Code, AllocError>
    ensures { IfOk result (λ c. code_of c ≡ of.compound node operator.now (target_of to.now) (code_of right.now)) }
{
    let operator = operator.try_clone(alloc)?;
    let right = copy_boxed(alloc, right)?;
    let to = copy_boxed_target(alloc, to)?;
    Ok(Code::compound(node, operator, to, right))
}

/// `a || b`
#[cycle(copy)]
fn copy_logical(
    alloc: Global,
    node: u32,
    operator: &Name,
    left: &Boxed<Code>,
    right: &Boxed<Code>,
) -> Result<Code, AllocError>
    ensures { IfOk result (λ c. code_of c ≡ of.logical node operator.now (code_of left.now) (code_of right.now)) }
{
    let operator = operator.try_clone(alloc)?;
    let left = copy_boxed(alloc, left)?;
    let right = copy_boxed(alloc, right)?;
    Ok(Code::logical(node, operator, left, right))
}

/// `t ||= e`
#[cycle(copy)]
fn copy_logical_assign(
    alloc: Global,
    node: u32,
    operator: &Name,
    to: &Boxed<Target>,
    right: &Boxed<Code>,
) -> Result<Code, AllocError>
    ensures { IfOk result (λ c. code_of c ≡ of.logical_assign node operator.now (target_of to.now) (code_of right.now)) }
{
    let operator = operator.try_clone(alloc)?;
    let right = copy_boxed(alloc, right)?;
    let to = copy_boxed_target(alloc, to)?;
    Ok(Code::logical_assign(node, operator, to, right))
}

/// `t++`
#[cycle(copy)]
fn copy_update(
    alloc: Global,
    node: u32,
    operator: &Name,
    is_prefix: bool,
    to: &Boxed<Target>,
) -> Result<Code, AllocError>
    ensures { IfOk result (λ c. code_of c ≡ of.update node operator.now is_prefix (target_of to.now)) }
{
    let operator = operator.try_clone(alloc)?;
    let to = copy_boxed_target(alloc, to)?;
    Ok(Code::update(node, operator, is_prefix, to))
}

/// `f(a)`
#[cycle(copy)]
fn copy_call(
    alloc: Global,
    node: u32,
    callee: &Boxed<Callee>,
    arguments: &List<Code>,
) -> Result<Code, AllocError>
    ensures { IfOk result (λ c. code_of c ≡ of.call node (callee_of callee.now) (codes_of arguments.now)) }
{
    let arguments = copy_codes(alloc, arguments.as_slice())?;
    let callee = copy_boxed_callee(alloc, callee)?;
    Ok(Code::call(node, callee, arguments))
}

/// `` f`a${b}` ``
#[cycle(copy)]
fn copy_tag(
    alloc: Global,
    node: u32,
    callee: &Boxed<Callee>,
    strings: &List<TemplateString>,
    arguments: &List<Code>,
) -> Result<Code, AllocError>
    ensures { IfOk result (λ c. code_of c ≡ of.tag node (callee_of callee.now) (map string_of strings.now) (codes_of arguments.now)) }
{
    let strings = copy_strings(alloc, strings.as_slice())?;
    let arguments = copy_codes(alloc, arguments.as_slice())?;
    let callee = copy_boxed_callee(alloc, callee)?;
    Ok(Code::tag(node, callee, strings, arguments))
}

/// `new f(a)`
#[cycle(copy)]
fn copy_construct(
    alloc: Global,
    node: u32,
    callee: &Boxed<Code>,
    arguments: &List<Code>,
) -> Result<Code, AllocError>
    ensures { IfOk result (λ c. code_of c ≡ of.construct node (code_of callee.now) (codes_of arguments.now)) }
{
    let callee = copy_boxed(alloc, callee)?;
    let arguments = copy_codes(alloc, arguments.as_slice())?;
    Ok(Code::construct(node, callee, arguments))
}

/// `super(a)`
#[cycle(copy)]
fn copy_super_call(
    alloc: Global,
    node: u32,
    class: u32,
    behind: &Option<Opened>,
    arguments: &List<Code>,
) -> Result<Code, AllocError>
    ensures { IfOk result (λ c. code_of c ≡ of.super_call node class (option_map opened_of behind.now) (codes_of arguments.now)) }
{
    let behind = copy_opened(alloc, behind)?;
    let arguments = copy_codes(alloc, arguments.as_slice())?;
    Ok(Code::super_call(node, class, behind, arguments))
}

/// `` `a${b}` ``
#[cycle(copy)]
fn copy_template(
    alloc: Global,
    node: u32,
    strings: &List<TemplateString>,
    expressions: &List<Code>,
) -> Result<Code, AllocError>
    ensures { IfOk result (λ c. code_of c ≡ of.template node (map string_of strings.now) (codes_of expressions.now)) }
{
    let strings = copy_strings(alloc, strings.as_slice())?;
    let expressions = copy_codes(alloc, expressions.as_slice())?;
    Ok(Code::template(node, strings, expressions))
}

/// Operands, then held parts.
#[cycle(copy)]
fn copy_operation(
    alloc: Global,
    node: u32,
    operation: &Operation,
    operands: &List<Code>,
    held: &List<Code>,
) -> Result<Code, AllocError>
    ensures { IfOk result (λ c. code_of c ≡ of.operation node (operation_of operation.now) (codes_of operands.now) (codes_of held.now)) }
{
    let operation = operation.try_clone(alloc)?;
    let operands = copy_codes(alloc, operands.as_slice())?;
    let held = copy_codes(alloc, held.as_slice())?;
    Ok(Code::operation(node, operation, operands, held))
}

/// A part of an operation.
#[cycle(copy)]
fn copy_piece(
    alloc: Global,
    details: &List<Detail>,
    operands: &List<Code>,
) -> Result<Code, AllocError>
    ensures { IfOk result (λ c. code_of c ≡ of.piece (details_of details.now) (codes_of operands.now)) }
{
    let details = clone_details(alloc, details.as_slice())?;
    let operands = copy_codes(alloc, operands.as_slice())?;
    Ok(Code::piece(details, operands))
}

/// `o?.k`
#[cycle(copy)]
fn copy_tested(
    alloc: Global,
    object: &Boxed<Code>,
    again: &List<Code>,
    rest: &Boxed<Code>,
) -> Result<Code, AllocError>
    ensures { IfOk result (λ c. code_of c ≡ of.tested (code_of object.now) (codes_of again.now) (code_of rest.now)) }
{
    let object = copy_boxed(alloc, object)?;
    let again = copy_codes(alloc, again.as_slice())?;
    let rest = copy_boxed(alloc, rest)?;
    Ok(Code::tested(object, again, rest))
}

/// In a pattern, `k: t`
#[cycle(copy)]
fn copy_takes(
    alloc: Global,
    node: u32,
    details: &List<Detail>,
    key: &List<Code>,
    to: &Boxed<Target>,
) -> Result<Code, AllocError>
    ensures { IfOk result (λ c. code_of c ≡ of.takes node (details_of details.now) (codes_of key.now) (target_of to.now)) }
{
    let details = clone_details(alloc, details.as_slice())?;
    let key = copy_codes(alloc, key.as_slice())?;
    let to = copy_boxed_target(alloc, to)?;
    Ok(Code::takes(node, details, key, to))
}

/// `function () {}`
#[cycle(copy)]
fn copy_function(
    alloc: Global,
    node: u32,
    form: FunctionForm,
    own_name: Option<u32>,
    parameters: &List<Code>,
    body: &Boxed<Code>,
) -> Result<Code, AllocError>
    ensures { IfOk result (λ c. code_of c ≡ of.function node (form_of form) own_name (codes_of parameters.now) (code_of body.now)) }
{
    let parameters = copy_codes(alloc, parameters.as_slice())?;
    let body = copy_boxed(alloc, body)?;
    Ok(Code::function(node, form, own_name, parameters, body))
}

/// A function that is new.
#[cycle(copy)]
fn copy_new_function(
    alloc: Global,
    node: u32,
    form: FunctionForm,
    parameters: &List<Code>,
    body: &Boxed<Code>,
) -> Result<Code, AllocError>
    ensures { IfOk result (λ c. code_of c ≡ of.new_function node (form_of form) (codes_of parameters.now) (code_of body.now)) }
{
    let parameters = copy_codes(alloc, parameters.as_slice())?;
    let body = copy_boxed(alloc, body)?;
    Ok(Code::new_function(node, form, parameters, body))
}

/// `class {}`
#[cycle(copy)]
fn copy_class(
    alloc: Global,
    node: u32,
    declared: Option<u32>,
    heritage: &List<Code>,
    elements: &List<Code>,
) -> Result<Code, AllocError>
    ensures { IfOk result (λ c. code_of c ≡ of.class_code node declared (codes_of heritage.now) (codes_of elements.now)) }
{
    let heritage = copy_codes(alloc, heritage.as_slice())?;
    let elements = copy_codes(alloc, elements.as_slice())?;
    Ok(Code::class_code(node, declared, heritage, elements))
}

/// `k = e;`
#[cycle(copy)]
fn copy_field(
    alloc: Global,
    is_static: bool,
    form: FieldForm,
    key: &Boxed<Code>,
    right: &Boxed<Code>,
) -> Result<Code, AllocError>
    ensures { IfOk result (λ c. code_of c ≡ of.field is_static (field_form_of form) (code_of key.now) (code_of right.now)) }
{
    let key = copy_boxed(alloc, key)?;
    let right = copy_boxed(alloc, right)?;
    Ok(Code::field(is_static, form, key, right))
}

/// `k() {}`
#[cycle(copy)]
fn copy_method(
    alloc: Global,
    is_static: bool,
    kind: &Name,
    key: &Boxed<Code>,
    function: &Boxed<Code>,
) -> Result<Code, AllocError>
    ensures { IfOk result (λ c. code_of c ≡ of.method is_static kind.now (code_of key.now) (code_of function.now)) }
{
    let kind = kind.try_clone(alloc)?;
    let key = copy_boxed(alloc, key)?;
    let function = copy_boxed(alloc, function)?;
    Ok(Code::method(is_static, kind, key, function))
}

/// A private element of a generated name.
#[cycle(copy)]
fn copy_generated_element(
    alloc: Global,
    spelling: &Name,
    right: &Boxed<Code>,
) -> Result<Code, AllocError>
    ensures { IfOk result (λ c. code_of c ≡ of.generated_element spelling.now (code_of right.now)) }
{
    let spelling = spelling.try_clone(alloc)?;
    let right = copy_boxed(alloc, right)?;
    Ok(Code::generated_element(spelling, right))
}

/// `babelHelpers.defineProperty(o, k, e)`
#[cycle(copy)]
fn copy_define(
    alloc: Global,
    node: u32,
    object: &Value,
    key: &Boxed<Code>,
    right: &Boxed<Code>,
) -> Result<Code, AllocError>
    ensures { IfOk result (λ c. code_of c ≡ of.define node object.now (code_of key.now) (code_of right.now)) }
{
    let object = object.try_clone(alloc)?;
    let key = copy_boxed(alloc, key)?;
    let right = copy_boxed(alloc, right)?;
    Ok(Code::define(node, object, key, right))
}

/// `babelHelpers.classPrivateFieldInitSpec(o, w, e)`
#[cycle(copy)]
fn copy_private_initialize(
    alloc: Global,
    node: u32,
    key: u32,
    object: &Value,
    right: &Boxed<Code>,
) -> Result<Code, AllocError>
    ensures { IfOk result (λ c. code_of c ≡ of.private_initialize node key object.now (code_of right.now)) }
{
    let object = object.try_clone(alloc)?;
    let right = copy_boxed(alloc, right)?;
    Ok(Code::private_initialize(node, key, object, right))
}

/// `f.bind(o)`
#[cycle(copy)]
fn copy_bound(
    alloc: Global,
    function: &Boxed<Code>,
    object: &Boxed<Code>,
) -> Result<Code, AllocError>
    ensures { IfOk result (λ c. code_of c ≡ of.bound (code_of function.now) (code_of object.now)) }
{
    let function = copy_boxed(alloc, function)?;
    let object = copy_boxed(alloc, object)?;
    Ok(Code::bound(function, object))
}

/// `(p => e)(a)`
#[cycle(copy)]
fn copy_call_arrow(
    alloc: Global,
    parameters: &List<Name>,
    body: &Boxed<Code>,
    arguments: &List<Code>,
) -> Result<Code, AllocError>
    ensures { IfOk result (λ c. code_of c ≡ of.call_arrow parameters.now (code_of body.now) (codes_of arguments.now)) }
{
    let parameters = copy_names(alloc, parameters.as_slice())?;
    let body = copy_boxed(alloc, body)?;
    let arguments = copy_codes(alloc, arguments.as_slice())?;
    Ok(Code::call_arrow(parameters, body, arguments))
}

/// A call of a generated name of a closure.
#[cycle(copy)]
fn copy_call_closure(
    alloc: Global,
    spelling: &Name,
    arguments: &List<Code>,
) -> Result<Code, AllocError>
    ensures { IfOk result (λ c. code_of c ≡ of.call_closure spelling.now (codes_of arguments.now)) }
{
    let spelling = spelling.try_clone(alloc)?;
    let arguments = copy_codes(alloc, arguments.as_slice())?;
    Ok(Code::call_closure(spelling, arguments))
}

/// A generated name is given a function.
#[cycle(copy)]
fn copy_give_function(
    alloc: Global,
    node: u32,
    spelling: &Name,
    kind: GeneratedKind,
    function: &Boxed<Code>,
) -> Result<Code, AllocError>
    ensures { IfOk result (λ c. code_of c ≡ of.give_function node spelling.now kind (code_of function.now)) }
{
    let spelling = spelling.try_clone(alloc)?;
    let function = copy_boxed(alloc, function)?;
    Ok(Code::give_function(node, spelling, kind, function))
}

// ---- targets and callees

/// A copy of a target. Fails on allocation failure alone.
#[cycle(copy)]
#[tactic(auto, using(es_codes::proofs::Forms::to_name_is, es_codes::proofs::Forms::to_member_is, es_codes::proofs::Forms::to_private_is, es_codes::proofs::Forms::to_super_is, es_codes::proofs::Forms::to_setter_is, es_codes::proofs::Forms::to_pattern_is, es_codes::proofs::Forms::to_default_is, es_codes::proofs::Forms::no_target_is))]
pub fn copy_target(alloc: Global, to: &Target) -> Result<Target, AllocError>
    ensures { IfOk result (λ t. target_of t ≡ target_of to.now) }
{
    match to {
        Target::ToName {
            node,
            spelling,
            kind,
        } => {
            let spelling = spelling.try_clone(alloc)?;
            let kind = copy_kind(alloc, kind)?;
            Ok(Target::to_name(*node, spelling, kind))
        }
        Target::ToMember { node, object, key } => {
            let object = copy_boxed(alloc, object)?;
            let key = copy_boxed(alloc, key)?;
            Ok(Target::to_member(*node, object, key))
        }
        Target::ToPrivate {
            node,
            means,
            object,
        } => Ok(Target::to_private(*node, *means, copy_boxed(alloc, object)?)),
        Target::ToSuper {
            node,
            home,
            key,
            this,
        } => {
            let key = copy_boxed(alloc, key)?;
            let this = this.try_clone(alloc)?;
            Ok(Target::to_super(*node, *home, key, this))
        }
        Target::ToSetter { node, key, object } => Ok(Target::to_setter(
            *node,
            *key,
            copy_boxed(alloc, object)?,
        )),
        Target::ToPattern {
            node,
            kind,
            members,
        } => Ok(Target::to_pattern(*node, *kind, copy_codes(alloc, members.as_slice())?)),
        Target::ToDefault { node, to, default } => {
            let to = copy_boxed_target(alloc, to)?;
            let default = copy_boxed(alloc, default)?;
            Ok(Target::to_default(*node, to, default))
        }
        Target::NoTarget => Ok(Target::no_target()),
    }
}

/// A copy of what is called. Fails on allocation failure alone.
#[cycle(copy)]
#[tactic(auto, using(es_codes::proofs::Forms::plain_is, es_codes::proofs::Forms::on_member_is, es_codes::proofs::Forms::on_private_is, es_codes::proofs::Forms::on_super_is, es_codes::proofs::Forms::with_receiver_is, es_codes::proofs::Forms::checked_is, es_codes::proofs::Forms::on_chain_is, es_codes::proofs::Forms::behind_test_is))]
pub fn copy_callee(alloc: Global, callee: &Callee) -> Result<Callee, AllocError>
    ensures { IfOk result (λ f. callee_of f ≡ callee_of callee.now) }
{
    match callee {
        Callee::Plain { expression } => Ok(Callee::plain(copy_boxed(alloc, expression)?)),
        Callee::OnMember { node, object, key } => {
            let object = copy_boxed(alloc, object)?;
            let key = copy_boxed(alloc, key)?;
            Ok(Callee::on_member(*node, object, key))
        }
        Callee::OnPrivate {
            node,
            means,
            object,
        } => Ok(Callee::on_private(*node, *means, copy_boxed(alloc, object)?)),
        Callee::OnSuper {
            node,
            home,
            key,
            this,
        } => {
            let key = copy_boxed(alloc, key)?;
            let this = this.try_clone(alloc)?;
            Ok(Callee::on_super(*node, *home, key, this))
        }
        Callee::WithReceiver { function, object } => {
            let function = copy_boxed(alloc, function)?;
            let object = copy_boxed(alloc, object)?;
            Ok(Callee::with_receiver(function, object))
        }
        Callee::Checked { callee } => Ok(Callee::checked(copy_boxed_callee(alloc, callee)?)),
        Callee::OnChain { node, callee } => Ok(Callee::on_chain(
            *node,
            copy_boxed_callee(alloc, callee)?,
        )),
        Callee::BehindTest {
            object,
            again,
            callee,
        } => {
            let object = copy_boxed(alloc, object)?;
            let again = copy_codes(alloc, again.as_slice())?;
            let callee = copy_boxed_callee(alloc, callee)?;
            Ok(Callee::behind_test(object, again, callee))
        }
    }
}

// ---- boxes and lists

#[cycle(copy)]
fn copy_boxed(alloc: Global, code: &Boxed<Code>) -> Result<Boxed<Code>, AllocError>
    ensures { IfOk result (λ c. code_of c ≡ code_of code.now) }
{
    Boxed::new(alloc, copy_code(alloc, code.get())?)
}

#[cycle(copy)]
pub fn copy_boxed_target(alloc: Global, to: &Boxed<Target>) -> Result<Boxed<Target>, AllocError>
    ensures { IfOk result (λ t. target_of t ≡ target_of to.now) }
{
    Boxed::new(alloc, copy_target(alloc, to.get())?)
}

#[cycle(copy)]
fn copy_boxed_callee(alloc: Global, callee: &Boxed<Callee>) -> Result<Boxed<Callee>, AllocError>
    ensures { IfOk result (λ f. callee_of f ≡ callee_of callee.now) }
{
    Boxed::new(alloc, copy_callee(alloc, callee.get())?)
}

/// Copies of codes. Fails on allocation failure alone.
#[cycle(copy)]
pub fn copy_codes(alloc: Global, codes: &[Code]) -> Result<List<Code>, AllocError>
    ensures { IfOk result (λ cs. codes_of cs ≡ codes_of codes.now) }
{
    let mut copies = List::new(alloc);
    for code in codes {
        copies.push(copy_code(alloc, code)?)?;
    }
    Ok(copies)
}
