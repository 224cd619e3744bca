// Codes, form by form.

ghost use Rattle.std.specs.Prelude.{◌≡◌, map, option_map};
ghost use Rattle.es_steps.specs.Code as of;
ghost use Rattle.es_codes.specs.View.{kind_of, reference_of, home_of, test_of, details_of, operation_of};
ghost use Rattle.es_codes.specs.CodeView.{form_of, field_form_of, string_of, opened_of, helper_of, code_of, target_of, callee_of, codes_of};

use crate::boxed::Boxed;
use crate::code::{Callee, Code, FieldForm, FunctionForm, Helper, Opened, Target, TemplateString};
use crate::event::{Detail, Home, Operation, PrivateTest};
use crate::name::{NameKind, PrivateReference};
use crate::value::Value;
use es_base::ledger::GeneratedKind;
use es_base::list::List;
use es_base::name::Name;

impl Code {
    /// Nothing: an empty statement, a declaration that has no event.
    #[tactic(auto, using(crate::proofs::Forms::nothing_is))]
    pub fn nothing() -> Code
        ensures { code_of result ≡ of.nothing }
    {
        Code::Nothing
    }

    /// A form that has no rule.
    #[tactic(auto, using(crate::proofs::Forms::no_rule_is))]
    pub fn no_rule() -> Code
        ensures { code_of result ≡ of.no_rule }
    {
        Code::NoRule
    }

    /// `1`, `this`
    #[tactic(auto, using(crate::proofs::Forms::value_is))]
    pub fn value(value: Value) -> Code
        ensures { code_of result ≡ of.value value }
    {
        Code::Value { value }
    }

    /// A name that is not evaluated: a label, a key that is not computed.
    #[tactic(auto, using(crate::proofs::Forms::spelled_is))]
    pub fn spelled(spelling: Name) -> Code
        ensures { code_of result ≡ of.spelled spelling }
    {
        Code::Spelled { spelling }
    }

    /// `#x`
    #[tactic(auto, using(crate::proofs::Forms::private_name_is))]
    pub fn private_name(node: u32, spelling: Name, means: Option<PrivateReference>) -> Code
        ensures { code_of result ≡ of.private_name node spelling (option_map reference_of means) }
    {
        Code::PrivateName {
            node,
            spelling,
            means,
        }
    }

    /// A binding that is not evaluated: the name of a parameter.
    #[tactic(auto, using(crate::proofs::Forms::binding_is))]
    pub fn binding(node: u32, spelling: Name, kind: NameKind) -> Code
        ensures { code_of result ≡ of.binding node spelling (kind_of kind) }
    {
        Code::Binding {
            node,
            spelling,
            kind,
        }
    }

    /// `...t`
    #[tactic(auto, using(crate::proofs::Forms::rest_is))]
    pub fn rest(to: Boxed<Target>) -> Code
        ensures { code_of result ≡ of.rest (target_of to) }
    {
        Code::Rest { to }
    }

    /// `x`
    #[tactic(auto, using(crate::proofs::Forms::name_is))]
    pub fn name(node: u32, spelling: Name, kind: NameKind) -> Code
        ensures { code_of result ≡ of.name node spelling (kind_of kind) }
    {
        Code::Name {
            node,
            spelling,
            kind,
        }
    }

    /// `super`
    #[tactic(auto, using(crate::proofs::Forms::super_is))]
    pub fn super_keyword() -> Code
        ensures { code_of result ≡ of.super }
    {
        Code::Super
    }

    /// `o[k]`
    #[tactic(auto, using(crate::proofs::Forms::member_is))]
    pub fn member(node: u32, object: Boxed<Code>, key: Boxed<Code>) -> Code
        ensures { code_of result ≡ of.member node (code_of object) (code_of key) }
    {
        Code::Member { node, object, key }
    }

    /// `o.#x`
    #[tactic(auto, using(crate::proofs::Forms::private_member_is))]
    pub fn private_member(node: u32, means: PrivateReference, object: Boxed<Code>) -> Code
        ensures { code_of result ≡ of.private_member node (reference_of means) (code_of object) }
    {
        Code::PrivateMember {
            node,
            means,
            object,
        }
    }

    /// `super[k]`
    #[tactic(auto, using(crate::proofs::Forms::super_member_is))]
    pub fn super_member(node: u32, home: Home, key: Boxed<Code>, this: Value) -> Code
        ensures { code_of result ≡ of.super_member node (home_of home) (code_of key) this }
    {
        Code::SuperMember {
            node,
            home,
            key,
            this,
        }
    }

    /// `#x in o`
    #[tactic(auto, using(crate::proofs::Forms::private_in_is))]
    pub fn private_in(node: u32, test: PrivateTest, object: Boxed<Code>) -> Code
        ensures { code_of result ≡ of.private_in node (test_of test) (code_of object) }
    {
        Code::PrivateIn { node, test, object }
    }

    /// `t = e`
    #[tactic(auto, using(crate::proofs::Forms::assign_is))]
    pub fn assign(to: Boxed<Target>, right: Boxed<Code>) -> Code
        ensures { code_of result ≡ of.assign (target_of to) (code_of right) }
    {
        Code::Assign { to, right }
    }

    /// `t += e`
    #[tactic(auto, using(crate::proofs::Forms::compound_is))]
    pub fn compound(node: u32, operator: Name, to: Boxed<Target>, right: Boxed<Code>) -> Code
        ensures { code_of result ≡ of.compound node operator (target_of to) (code_of right) }
    {
        Code::Compound {
            node,
            operator,
            to,
            right,
        }
    }

    /// `a || b`
    #[tactic(auto, using(crate::proofs::Forms::logical_is))]
    pub fn logical(node: u32, operator: Name, left: Boxed<Code>, right: Boxed<Code>) -> Code
        ensures { code_of result ≡ of.logical node operator (code_of left) (code_of right) }
    {
        Code::Logical {
            node,
            operator,
            left,
            right,
        }
    }

    /// `t ||= e`
    #[tactic(auto, using(crate::proofs::Forms::logical_assign_is))]
    pub fn logical_assign(node: u32, operator: Name, to: Boxed<Target>, right: Boxed<Code>) -> Code
        ensures { code_of result ≡ of.logical_assign node operator (target_of to) (code_of right) }
    {
        Code::LogicalAssign {
            node,
            operator,
            to,
            right,
        }
    }

    /// `t++`
    #[tactic(auto, using(crate::proofs::Forms::update_is))]
    pub fn update(node: u32, operator: Name, is_prefix: bool, to: Boxed<Target>) -> Code
        ensures { code_of result ≡ of.update node operator is_prefix (target_of to) }
    {
        Code::Update {
            node,
            operator,
            is_prefix,
            to,
        }
    }

    /// `f(a)`
    #[tactic(auto, using(crate::proofs::Forms::call_is))]
    pub fn call(node: u32, callee: Boxed<Callee>, arguments: List<Code>) -> Code
        ensures { code_of result ≡ of.call node (callee_of callee) (codes_of arguments) }
    {
        Code::Call {
            node,
            callee,
            arguments,
        }
    }

    /// `` f`a${b}` ``
    #[tactic(auto, using(crate::proofs::Forms::tag_is))]
    pub fn tag(
        node: u32,
        callee: Boxed<Callee>,
        strings: List<TemplateString>,
        arguments: List<Code>,
    ) -> Code
        ensures { code_of result ≡ of.tag node (callee_of callee) (map string_of strings) (codes_of arguments) }
    {
        Code::Tag {
            node,
            callee,
            strings,
            arguments,
        }
    }

    /// `new f(a)`
    #[tactic(auto, using(crate::proofs::Forms::construct_is))]
    pub fn construct(node: u32, callee: Boxed<Code>, arguments: List<Code>) -> Code
        ensures { code_of result ≡ of.construct node (code_of callee) (codes_of arguments) }
    {
        Code::Construct {
            node,
            callee,
            arguments,
        }
    }

    /// `super(a)`
    #[tactic(auto, using(crate::proofs::Forms::super_call_is))]
    pub fn super_call(node: u32, class: u32, behind: Option<Opened>, arguments: List<Code>) -> Code
        ensures { code_of result ≡ of.super_call node class (option_map opened_of behind) (codes_of arguments) }
    {
        Code::SuperCall {
            node,
            class,
            behind,
            arguments,
        }
    }

    /// `super(..._args)`
    #[tactic(auto, using(crate::proofs::Forms::super_call_with_all_is))]
    pub fn super_call_with_all(class: u32) -> Code
        ensures { code_of result ≡ of.super_call_with_all class }
    {
        Code::SuperCallWithAll { class }
    }

    /// `a, b`
    #[tactic(auto, using(crate::proofs::Forms::sequence_is))]
    pub fn sequence(all: List<Code>) -> Code
        ensures { code_of result ≡ of.sequence (codes_of all) }
    {
        Code::Sequence { all }
    }

    /// In a template, a string.
    #[tactic(auto, using(crate::proofs::Forms::template_string_is))]
    pub fn template_string(string: TemplateString) -> Code
        ensures { code_of result ≡ of.template_string (string_of string) }
    {
        Code::TemplateString { string }
    }

    /// `` `a${b}` ``
    #[tactic(auto, using(crate::proofs::Forms::template_is))]
    pub fn template(node: u32, strings: List<TemplateString>, expressions: List<Code>) -> Code
        ensures { code_of result ≡ of.template node (map string_of strings) (codes_of expressions) }
    {
        Code::Template {
            node,
            strings,
            expressions,
        }
    }

    /// Operands, then parts that may run or not, or again, then the operation.
    #[tactic(auto, using(crate::proofs::Forms::operation_is))]
    pub fn operation(
        node: u32,
        operation: Operation,
        operands: List<Code>,
        held: List<Code>,
    ) -> Code
        ensures { code_of result ≡ of.operation node (operation_of operation) (codes_of operands) (codes_of held) }
    {
        Code::Operation {
            node,
            operation,
            operands,
            held,
        }
    }

    /// A part of an operation that is no operand itself.
    #[tactic(auto, using(crate::proofs::Forms::piece_is))]
    pub fn piece(details: List<Detail>, operands: List<Code>) -> Code
        ensures { code_of result ≡ of.piece (details_of details) (codes_of operands) }
    {
        Code::Piece { details, operands }
    }

    /// `o?.k`, whole
    #[tactic(auto, using(crate::proofs::Forms::chain_is))]
    pub fn chain(node: u32, expression: Boxed<Code>) -> Code
        ensures { code_of result ≡ of.chain node (code_of expression) }
    {
        Code::Chain { node, expression }
    }

    /// In a chain, what stands before `?.`
    #[tactic(auto, using(crate::proofs::Forms::short_is))]
    pub fn short(expression: Boxed<Code>) -> Code
        ensures { code_of result ≡ of.short (code_of expression) }
    {
        Code::Short { expression }
    }

    /// In a chain, a test before the rest of it.
    #[tactic(auto, using(crate::proofs::Forms::tested_is))]
    pub fn tested(object: Boxed<Code>, again: List<Code>, rest: Boxed<Code>) -> Code
        ensures { code_of result ≡ of.tested (code_of object) (codes_of again) (code_of rest) }
    {
        Code::Tested {
            object,
            again,
            rest,
        }
    }

    /// `[a, b]`, which is given nothing.
    #[tactic(auto, using(crate::proofs::Forms::pattern_is))]
    pub fn pattern(node: u32, to: Boxed<Target>) -> Code
        ensures { code_of result ≡ of.pattern node (target_of to) }
    {
        Code::Pattern { node, to }
    }

    /// In a pattern, `k: t`
    #[tactic(auto, using(crate::proofs::Forms::takes_is))]
    pub fn takes(node: u32, details: List<Detail>, key: List<Code>, to: Boxed<Target>) -> Code
        ensures { code_of result ≡ of.takes node (details_of details) (codes_of key) (target_of to) }
    {
        Code::Takes {
            node,
            details,
            key,
            to,
        }
    }

    /// Statements in order.
    #[tactic(auto, using(crate::proofs::Forms::steps_is))]
    pub fn steps(all: List<Code>) -> Code
        ensures { code_of result ≡ of.steps (codes_of all) }
    {
        Code::Steps { all }
    }

    /// The head of a for-in or for-of, or a caught name, is given a value of a node.
    #[tactic(auto, using(crate::proofs::Forms::gives_to_is))]
    pub fn gives_to(node: u32, to: Boxed<Target>) -> Code
        ensures { code_of result ≡ of.gives_to node (target_of to) }
    {
        Code::GivesTo { node, to }
    }

    /// `export default e`
    #[tactic(auto, using(crate::proofs::Forms::export_default_is))]
    pub fn export_default(expression: Boxed<Code>) -> Code
        ensures { code_of result ≡ of.export_default (code_of expression) }
    {
        Code::ExportDefault { expression }
    }

    /// `function () {}`
    #[tactic(auto, using(crate::proofs::Forms::function_is))]
    pub fn function(
        node: u32,
        form: FunctionForm,
        own_name: Option<u32>,
        parameters: List<Code>,
        body: Boxed<Code>,
    ) -> Code
        ensures { code_of result ≡ of.function node (form_of form) own_name (codes_of parameters) (code_of body) }
    {
        Code::Function {
            node,
            form,
            own_name,
            parameters,
            body,
        }
    }

    /// A function that is new in the lowered tree.
    #[tactic(auto, using(crate::proofs::Forms::new_function_is))]
    pub fn new_function(
        node: u32,
        form: FunctionForm,
        parameters: List<Code>,
        body: Boxed<Code>,
    ) -> Code
        ensures { code_of result ≡ of.new_function node (form_of form) (codes_of parameters) (code_of body) }
    {
        Code::NewFunction {
            node,
            form,
            parameters,
            body,
        }
    }

    /// `return e;`, which is new in the lowered tree.
    #[tactic(auto, using(crate::proofs::Forms::new_return_is))]
    pub fn new_return(argument: List<Code>) -> Code
        ensures { code_of result ≡ of.new_return (codes_of argument) }
    {
        Code::NewReturn { argument }
    }

    /// `class {}`
    #[tactic(auto, using(crate::proofs::Forms::class_code_is))]
    pub fn class_code(
        node: u32,
        declared: Option<u32>,
        heritage: List<Code>,
        elements: List<Code>,
    ) -> Code
        ensures { code_of result ≡ of.class_code node declared (codes_of heritage) (codes_of elements) }
    {
        Code::Class {
            node,
            declared,
            heritage,
            elements,
        }
    }

    /// `k = e;`
    #[tactic(auto, using(crate::proofs::Forms::field_is))]
    pub fn field(is_static: bool, form: FieldForm, key: Boxed<Code>, right: Boxed<Code>) -> Code
        ensures { code_of result ≡ of.field is_static (field_form_of form) (code_of key) (code_of right) }
    {
        Code::Field {
            is_static,
            form,
            key,
            right,
        }
    }

    /// `#x = e;`
    #[tactic(auto, using(crate::proofs::Forms::private_field_is))]
    pub fn private_field(is_static: bool, key: u32, right: Boxed<Code>) -> Code
        ensures { code_of result ≡ of.private_field is_static key (code_of right) }
    {
        Code::PrivateField {
            is_static,
            key,
            right,
        }
    }

    /// `k() {}`
    #[tactic(auto, using(crate::proofs::Forms::method_is))]
    pub fn method(is_static: bool, kind: Name, key: Boxed<Code>, function: Boxed<Code>) -> Code
        ensures { code_of result ≡ of.method is_static kind (code_of key) (code_of function) }
    {
        Code::Method {
            is_static,
            kind,
            key,
            function,
        }
    }

    /// `#x() {}`
    #[tactic(auto, using(crate::proofs::Forms::private_method_is))]
    pub fn private_method(is_static: bool, key: u32, function: Boxed<Code>) -> Code
        ensures { code_of result ≡ of.private_method is_static key (code_of function) }
    {
        Code::PrivateMethod {
            is_static,
            key,
            function,
        }
    }

    /// `constructor() {}`
    #[tactic(auto, using(crate::proofs::Forms::constructor_is))]
    pub fn constructor(function: Boxed<Code>) -> Code
        ensures { code_of result ≡ of.constructor (code_of function) }
    {
        Code::Constructor { function }
    }

    /// `static {}`
    #[tactic(auto, using(crate::proofs::Forms::static_block_is))]
    pub fn static_block(all: List<Code>) -> Code
        ensures { code_of result ≡ of.static_block (codes_of all) }
    {
        Code::StaticBlock { all }
    }

    /// A private element of a generated name.
    #[tactic(auto, using(crate::proofs::Forms::generated_element_is))]
    pub fn generated_element(spelling: Name, right: Boxed<Code>) -> Code
        ensures { code_of result ≡ of.generated_element spelling (code_of right) }
    {
        Code::GeneratedElement { spelling, right }
    }

    /// What a generated call gives: a value without a receiver.
    #[tactic(auto, using(crate::proofs::Forms::from_call_is))]
    pub fn from_call(expression: Boxed<Code>) -> Code
        ensures { code_of result ≡ of.from_call (code_of expression) }
    {
        Code::FromCall { expression }
    }

    /// What a generated member gives: a value without a receiver.
    #[tactic(auto, using(crate::proofs::Forms::from_member_is))]
    pub fn from_member(expression: Boxed<Code>) -> Code
        ensures { code_of result ≡ of.from_member (code_of expression) }
    {
        Code::FromMember { expression }
    }

    /// A value as the key of a property.
    #[tactic(auto, using(crate::proofs::Forms::key_of_is))]
    pub fn key_of(expression: Boxed<Code>) -> Code
        ensures { code_of result ≡ of.key_of (code_of expression) }
    {
        Code::KeyOf { expression }
    }

    /// `babelHelpers.defineProperty`
    #[tactic(auto, using(crate::proofs::Forms::helper_is))]
    pub fn helper(helper: Helper) -> Code
        ensures { code_of result ≡ of.helper (helper_of helper) }
    {
        Code::Helper { helper }
    }

    /// A call of a helper that stands in another form.
    #[tactic(auto, using(crate::proofs::Forms::helper_call_is))]
    pub fn helper_call(node: u32, helper: Helper, arguments: List<Code>) -> Code
        ensures { code_of result ≡ of.helper_call node (helper_of helper) (codes_of arguments) }
    {
        Code::HelperCall {
            node,
            helper,
            arguments,
        }
    }

    /// An access that always throws.
    #[tactic(auto, using(crate::proofs::Forms::throw_is))]
    pub fn throw() -> Code
        ensures { code_of result ≡ of.throw }
    {
        Code::Throw
    }

    /// `babelHelpers.defineProperty(o, k, e)`
    #[tactic(auto, using(crate::proofs::Forms::define_is))]
    pub fn define(node: u32, object: Value, key: Boxed<Code>, right: Boxed<Code>) -> Code
        ensures { code_of result ≡ of.define node object (code_of key) (code_of right) }
    {
        Code::Define {
            node,
            object,
            key,
            right,
        }
    }

    /// `babelHelpers.classPrivateFieldInitSpec(o, w, e)`
    #[tactic(auto, using(crate::proofs::Forms::private_initialize_is))]
    pub fn private_initialize(node: u32, key: u32, object: Value, right: Boxed<Code>) -> Code
        ensures { code_of result ≡ of.private_initialize node key object (code_of right) }
    {
        Code::PrivateInitialize {
            node,
            key,
            object,
            right,
        }
    }

    /// `babelHelpers.classPrivateMethodInitSpec(o, b)`
    #[tactic(auto, using(crate::proofs::Forms::add_brand_is))]
    pub fn add_brand(node: u32, class: u32, object: Value) -> Code
        ensures { code_of result ≡ of.add_brand node class object }
    {
        Code::AddBrand {
            node,
            class,
            object,
        }
    }

    /// `f.bind(o)`
    #[tactic(auto, using(crate::proofs::Forms::bound_is))]
    pub fn bound(function: Boxed<Code>, object: Boxed<Code>) -> Code
        ensures { code_of result ≡ of.bound (code_of function) (code_of object) }
    {
        Code::Bound { function, object }
    }

    /// `babelHelpers.toSetter(..)._`
    #[tactic(auto, using(crate::proofs::Forms::setter_is))]
    pub fn setter(node: u32, key: u32, object: Boxed<Code>) -> Code
        ensures { code_of result ≡ of.setter node key (code_of object) }
    {
        Code::Setter { node, key, object }
    }

    /// What a generated private element holds.
    #[tactic(auto, using(crate::proofs::Forms::private_value_is))]
    pub fn private_value(spelling: Name) -> Code
        ensures { code_of result ≡ of.private_value spelling }
    {
        Code::PrivateValue { spelling }
    }

    /// `(p => e)(a)`
    #[tactic(auto, using(crate::proofs::Forms::call_arrow_is))]
    pub fn call_arrow(parameters: List<Name>, body: Boxed<Code>, arguments: List<Code>) -> Code
        ensures { code_of result ≡ of.call_arrow parameters (code_of body) (codes_of arguments) }
    {
        Code::CallArrow {
            parameters,
            body,
            arguments,
        }
    }

    /// A call of a generated name of a closure.
    #[tactic(auto, using(crate::proofs::Forms::call_closure_is))]
    pub fn call_closure(spelling: Name, arguments: List<Code>) -> Code
        ensures { code_of result ≡ of.call_closure spelling (codes_of arguments) }
    {
        Code::CallClosure {
            spelling,
            arguments,
        }
    }

    /// The initializers of a class.
    #[tactic(auto, using(crate::proofs::Forms::initializers_is))]
    pub fn initializers(class: u32) -> Code
        ensures { code_of result ≡ of.initializers class }
    {
        Code::Initializers { class }
    }

    /// A function that a generated name is assigned.
    #[tactic(auto, using(crate::proofs::Forms::give_function_is))]
    pub fn give_function(
        node: u32,
        spelling: Name,
        kind: GeneratedKind,
        function: Boxed<Code>,
    ) -> Code
        ensures { code_of result ≡ of.give_function node spelling kind (code_of function) }
    {
        Code::GiveFunction {
            node,
            spelling,
            kind,
            function,
        }
    }

    /// What has to be a class.
    #[tactic(auto, using(crate::proofs::Forms::give_class_is))]
    pub fn give_class(class: u32, expression: Boxed<Code>) -> Code
        ensures { code_of result ≡ of.give_class class (code_of expression) }
    {
        Code::GiveClass { class, expression }
    }
}
