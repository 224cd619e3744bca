// Functions that are no arrows. (ECMA-262, 15.2, 15.5, 15.6 and 15.8.)

ghost use Rattle.std.specs.Prelude.{◌≡◌, IfOk, Some, None, cond, false};
ghost use Rattle.std.specs.Str.{chars};
ghost use Rattle.es_codes.specs.CodeView.{code_of, codes_of, form_of};
ghost use Rattle.es_codes.specs.View.{kind_of, referent_of};
ghost use Rattle.es_seen_names.specs.Frames.{names_in};
ghost use Rattle.es_steps.specs.Code as of;
ghost use Rattle.es_steps.specs.Context.{Changing, new_here};
ghost use Rattle.es_steps.specs.Members as of_node;
ghost use Rattle.es_steps.specs.References as references;
ghost use Rattle.es_steps.specs.Statements as spec;
ghost use Rattle.es_steps.specs.Values.{FunctionOf};
ghost use Rattle.es_code_members.specs.MembersView.{member_of};
ghost use Rattle.es_code_reading.specs.Contexts.{context_of};
ghost use Rattle.es_code_classes.specs.Functions.{function_members, generated_function, named_function, written_function};

use es_base::ledger::GeneratedKind;
use es_base::list::List;
use es_base::name::Name;
use es_code_members::codes::take_codes;
use es_code_members::member::{Member, flag_of, take_code};
use es_code_reading::context::Context;
use es_codes::boxed::Boxed;
use es_codes::code::{Code, FunctionForm, Target};
use es_codes::name::{NameKind, Referent};
use es_codes::value::{Origin, Value};
use es_generated::numbers::is_new;
use es_seen_names::names::{Names, declared};
use std::alloc::{AllocError, Global};

/// The members of a function: `async function* f(p) {}`.
#[derive(Drop)]
pub struct FunctionMembers {
    pub name: Member,
    pub parameters: Member,
    pub body: Member,
    pub is_async: Member,
    pub is_generator: Member,
}

/// A function of the source, or a new one.
pub(crate) fn function_or_new(
    is_new: bool,
    function: u32,
    form: FunctionForm,
    own_name: Option<u32>,
    parameters: List<Code>,
    body: Boxed<Code>,
) -> Code
    ensures { code_of result ≡ spec.function_or_new is_new function (form_of form) own_name (codes_of parameters) (code_of body) }
{
    if is_new {
        Code::new_function(function, form, parameters, body)
    } else {
        Code::function(function, form, own_name, parameters, body)
    }
}

/// `function (p) {}`. Fails on allocation failure alone.
fn function_code(
    alloc: Global,
    c: &Context,
    function: u32,
    own_name: Option<u32>,
    form: FunctionForm,
    parameters: &mut Member,
    body: &mut Member,
) -> Result<Code, AllocError>
    ensures { IfOk result (λ e. code_of e ≡ written_function (context_of c.now) function own_name (form_of form) (member_of parameters.old) (member_of body.old)) }
{
    let parameters = take_codes(alloc, parameters)?;
    let body = Boxed::new(alloc, take_code(body))?;
    let is_new = is_new(c.terms.first_new, function);
    Ok(function_or_new(is_new, function, form, own_name, parameters, body))
}

/// What a function is beside its parameters and its body, which is no arrow.
fn plain_form(is_async: &Member, is_generator: &Member) -> FunctionForm
    ensures { form_of result ≡ spec.form_of false (of_node.flag_of (member_of is_async.now)) (of_node.flag_of (member_of is_generator.now)) }
{
    FunctionForm {
        is_arrow: false,
        is_async: flag_of(is_async),
        is_generator: flag_of(is_generator),
    }
}

// ---- expressions

/// The number of an identifier, unless it is new.
fn unless_new(c: &Context, node: u32) -> Option<u32>
    ensures { result ≡ cond (new_here (context_of c.now) node) None (Some node) }
{
    if is_new(c.terms.first_new, node) {
        None
    } else {
        Some(node)
    }
}

/// `f` in `(function f() {})`, unless it is new.
#[tactic(auto, using(crate::proofs::FunctionNames::own_binding, crate::proofs::FunctionNames::no_own_binding))]
fn own_binding(c: &Context, name: &Code) -> Option<u32>
    ensures { result ≡ spec.own_name_of (context_of c.now) (of_node.code (code_of name.now)) }
{
    match name {
        Code::Binding { node, .. } => unless_new(c, *node),
        _ => None,
    }
}

/// The identifier that is the own name of a function expression, unless it is new.
fn own_name(c: &Context, name: &Member) -> Option<u32>
    ensures { result ≡ spec.own_name_of (context_of c.now) (member_of name.now) }
{
    match name {
        Member::Code(code) => own_binding(c, code),
        _ => None,
    }
}

/// `(function f(p) {})` (ECMA-262, 15.2.4). Fails on allocation failure alone.
pub fn function_expression_code(
    alloc: Global,
    c: &Context,
    function: u32,
    members: &mut FunctionMembers,
) -> Result<Code, AllocError>
    ensures { IfOk result (λ e. code_of e ≡ spec.function_expression_code (context_of c.now) function (function_members members.old)) }
{
    let own_name = own_name(c, &members.name);
    let form = plain_form(&members.is_async, &members.is_generator);
    function_code(
        alloc,
        c,
        function,
        own_name,
        form,
        &mut members.parameters,
        &mut members.body,
    )
}

// ---- declarations

/// What a name refers to where these are seen. Fails on allocation failure alone.
#[tactic(auto, using(crate::proofs::FunctionNames::bound, crate::proofs::FunctionNames::free))]
fn meant_by(alloc: Global, names: &Names, name: &str) -> Result<Referent, AllocError>
    ensures { IfOk result (λ r. referent_of r ≡ references.referent (chars name.now) (references.declared (chars name.now) (names_in names.now))) }
{
    match declared(names, name) {
        Some(declaration) => Ok(Referent::Bound(declaration.node)),
        None => Ok(Referent::Free(Name::new(alloc, name)?)),
    }
}

/// What the name of a function means where these are seen is given the function. Fails on allocation failure alone.
fn function_assignment(
    alloc: Global,
    names: &Names,
    function: u32,
    name: &Name,
) -> Result<Code, AllocError>
    ensures { IfOk result (λ e. code_of e ≡ of.assign (of.to_name function name.now (Changing (references.referent name.now (references.declared name.now (names_in names.now))))) (of.value (FunctionOf function))) }
{
    let value = Value::of(Origin::FunctionOf(function));
    let right = Boxed::new(alloc, Code::value(value))?;
    let spelling = name.try_clone(alloc)?;
    let referent = meant_by(alloc, names, name.as_str())?;
    let to = Target::to_name(function, spelling, NameKind::Changing(referent));
    Ok(Code::assign(Boxed::new(alloc, to)?, right))
}

/// `{ function f() {} }`: what the name means around the block is given the function too (B.3.2). Fails on allocation failure alone.
fn assigned_around(
    alloc: Global,
    names: &Names,
    function: u32,
    name: &Name,
    declaration: Boxed<Code>,
) -> Result<Code, AllocError>
    ensures { IfOk result (λ e. code_of e ≡ spec.hoisted_function (Some (names_in names.now)) function name.now (code_of declaration)) }
{
    let mut all = List::new(alloc);
    all.push(declaration.into_inner())?;
    all.push(function_assignment(alloc, names, function, name)?)?;
    Ok(Code::steps(all))
}

/// A function whose name was not generated. Fails on allocation failure alone.
fn hoisted_function(
    alloc: Global,
    c: &Context,
    function: u32,
    name: &Name,
    declaration: Boxed<Code>,
) -> Result<Code, AllocError>
    ensures { IfOk result (λ e. code_of e ≡ spec.hoisted_function (context_of c.now).around function name.now (code_of declaration)) }
{
    match c.block {
        Some(names) => assigned_around(alloc, &names, function, name, declaration),
        None => Ok(declaration.into_inner()),
    }
}

/// `function _m() {}`, whose name was generated: it is the function of a private method `#m() {}`. Fails on allocation failure
/// alone.
#[tactic(auto, using(crate::proofs::FunctionNames::no_method))]
fn generated_function(
    alloc: Global,
    function: u32,
    name: &Name,
    kind: GeneratedKind,
    declaration: Boxed<Code>,
) -> Result<Code, AllocError>
    ensures { IfOk result (λ e. code_of e ≡ generated_function function name.now kind (code_of declaration)) }
{
    match kind {
        GeneratedKind::Method(key) => {
            let spelling = name.try_clone(alloc)?;
            let kind = GeneratedKind::Method(key);
            Ok(Code::give_function(function, spelling, kind, declaration))
        }
        _ => Ok(Code::no_rule()),
    }
}

/// A function with a name of this kind. Fails on allocation failure alone.
#[tactic(auto, using(crate::proofs::FunctionNames::source_name))]
fn named_function(
    alloc: Global,
    c: &Context,
    function: u32,
    name: &Name,
    kind: &NameKind,
    declaration: Boxed<Code>,
) -> Result<Code, AllocError>
    ensures { IfOk result (λ e. code_of e ≡ named_function (context_of c.now).around function name.now (kind_of kind.now) (code_of declaration)) }
{
    match kind {
        NameKind::Generated(generated) => {
            generated_function(alloc, function, name, *generated, declaration)
        }
        _ => hoisted_function(alloc, c, function, name, declaration),
    }
}

/// A function that the binding which this code is declares. Fails on allocation failure alone.
#[tactic(auto, using(crate::proofs::FunctionNames::declared_name, crate::proofs::FunctionNames::no_declared_name))]
fn declared_name(
    alloc: Global,
    c: &Context,
    function: u32,
    name: &Code,
    declaration: Boxed<Code>,
) -> Result<Code, AllocError>
    ensures { IfOk result (λ e. code_of e ≡ spec.declared_function (context_of c.now).around function (of_node.code (code_of name.now)) (code_of declaration)) }
{
    match name {
        Code::Binding { spelling, kind, .. } => {
            named_function(alloc, c, function, spelling, kind, declaration)
        }
        _ => Ok(declaration.into_inner()),
    }
}

/// A function that this name declares. Fails on allocation failure alone.
#[tactic(auto, using(crate::proofs::FunctionNames::no_name))]
fn declared_function(
    alloc: Global,
    c: &Context,
    function: u32,
    name: &Member,
    declaration: Boxed<Code>,
) -> Result<Code, AllocError>
    ensures { IfOk result (λ e. code_of e ≡ spec.declared_function (context_of c.now).around function (member_of name.now) (code_of declaration)) }
{
    match name {
        Member::Code(code) => declared_name(alloc, c, function, code, declaration),
        _ => Ok(declaration.into_inner()),
    }
}

/// `function f(p) {}` (ECMA-262, 15.2.4 and B.3.2). Fails on allocation failure alone.
pub fn function_declaration_code(
    alloc: Global,
    c: &Context,
    function: u32,
    members: &mut FunctionMembers,
) -> Result<Code, AllocError>
    ensures { IfOk result (λ e. code_of e ≡ spec.function_declaration_code (context_of c.now) function (function_members members.old)) }
{
    let form = plain_form(&members.is_async, &members.is_generator);
    let declaration = function_code(
        alloc,
        c,
        function,
        None,
        form,
        &mut members.parameters,
        &mut members.body,
    )?;
    let declaration = Boxed::new(alloc, declaration)?;
    declared_function(alloc, c, function, &members.name, declaration)
}
