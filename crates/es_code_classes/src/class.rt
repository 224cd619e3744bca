// Classes. (ECMA-262, 15.7.)

ghost use Rattle.std.specs.Prelude.{◌≡◌, IfOk};
ghost use Rattle.es_codes.specs.CodeView.{code_of, codes_of};
ghost use Rattle.es_codes.specs.View.{kind_of};
ghost use Rattle.es_steps.specs.ClassHeads.{declared_or_named, named_as};
ghost use Rattle.es_steps.specs.Members as of_node;
ghost use Rattle.es_steps.specs.Statements as spec;
ghost use Rattle.es_code_members.specs.MembersView.{member_of};
ghost use Rattle.es_code_reading.specs.Contexts.{context_of};
ghost use Rattle.es_code_classes.specs.Classes.{class_members, declared_as};

use es_base::list::List;
use es_code_members::codes::take_codes;
use es_code_members::member::Member;
use es_code_reading::context::Context;
use es_codes::code::Code;
use es_codes::name::NameKind;
use std::alloc::{AllocError, Global};
use std::mem;

// ---- which identifier declares a class

fn unless_generated(node: u32, kind: &NameKind) -> Option<u32>
    ensures { result ≡ declared_as node (kind_of kind.now) }
{
    match kind {
        NameKind::Generated(_) => None,
        _ => Some(node),
    }
}

/// `A` in `class A {}`, unless it is a generated name.
#[tactic(auto, using(crate::proofs::Declaring::by_binding, crate::proofs::Declaring::by_none))]
fn declaring(code: &Code) -> Option<u32>
    ensures { result ≡ spec.declared_by (of_node.code (code_of code.now)) }
{
    match code {
        Code::Binding { node, kind, .. } => unless_generated(*node, kind),
        _ => None,
    }
}

/// The identifier that declares a class for the code around, unless it is a generated name.
fn declared_by(name: &Member) -> Option<u32>
    ensures { result ≡ spec.declared_by (member_of name.now) }
{
    match name {
        Member::Code(code) => declaring(code),
        _ => None,
    }
}

/// The identifier of a class, if it is among these, whose heritage or keys read their names.
fn named_as(class: u32, named: &[(u32, u32)]) -> Option<u32>
    ensures { result ≡ named_as class named.now }
{
    for pair in named {
        if class == pair.0 {
            return Some(pair.1);
        }
    }
    None
}

/// The identifier that declares a class, or what names it where none does.
fn declared_or_named(class: u32, named: &[(u32, u32)], declared: Option<u32>) -> Option<u32>
    ensures { result ≡ declared_or_named class named.now declared }
{
    match declared {
        Some(binding) => Some(binding),
        None => named_as(class, named),
    }
}

/// The identifier of a `let` which names a class; or its own, where its heritage or a key reads it.
fn declared_by_let(class: u32, named: &[(u32, u32)], let_class: Option<(u32, u32)>) -> Option<u32>
    ensures { result ≡ spec.declared_by_let class named.now let_class }
{
    match let_class {
        Some((initializer, binding)) => {
            if class == initializer {
                Some(binding)
            } else {
                named_as(class, named)
            }
        }
        None => named_as(class, named),
    }
}

// ---- a class

/// The elements in `{ x = 1; }`, the body of a class.
#[tactic(auto, using(crate::proofs::Bodies::of_steps, crate::proofs::Bodies::of_others))]
fn elements_in(alloc: Global, body: Code) -> List<Code>
    ensures { codes_of result ≡ spec.elements_of (of_node.code (code_of body)) }
{
    match body {
        Code::Steps { all } => all,
        other => {
            drop(other);
            List::new(alloc)
        }
    }
}

/// The elements of a body, which are taken out.
fn take_elements(alloc: Global, body: &mut Member) -> List<Code>
    ensures { codes_of result ≡ spec.elements_of (member_of body.old) }
{
    match body {
        Member::Code(code) => elements_in(alloc, mem::replace(code, Code::nothing())),
        _ => List::new(alloc),
    }
}

/// The members of a class: `class A extends B {}`.
#[derive(Drop)]
pub struct ClassMembers {
    pub name: Member,
    pub heritage: Member,
    pub body: Member,
}

/// A class that this identifier declares. Fails on allocation failure alone.
fn class_of(
    alloc: Global,
    declared: Option<u32>,
    class: u32,
    members: &mut ClassMembers,
) -> Result<Code, AllocError>
    ensures { IfOk result (λ e. code_of e ≡ spec.class_of declared class (class_members members.old)) }
{
    let heritage = take_codes(alloc, &mut members.heritage)?;
    let elements = take_elements(alloc, &mut members.body);
    Ok(Code::class_code(class, declared, heritage, elements))
}

/// `class A extends B {}`, a declaration (ECMA-262, 15.7.15). Fails on allocation failure alone.
pub fn class_declaration_code(
    alloc: Global,
    c: &Context,
    class: u32,
    members: &mut ClassMembers,
) -> Result<Code, AllocError>
    ensures { IfOk result (λ e. code_of e ≡ spec.class_of (declared_or_named class (context_of c.now).named (spec.declared_by (of_node.at 0 (class_members members.old)))) class (class_members members.old)) }
{
    let declared = declared_or_named(class, c.terms.named, declared_by(&members.name));
    class_of(alloc, declared, class, members)
}

/// `(class A extends B {})`, which a `let` around may name (ECMA-262, 15.7.16). Fails on allocation failure alone.
pub fn class_expression_code(
    alloc: Global,
    c: &Context,
    class: u32,
    members: &mut ClassMembers,
) -> Result<Code, AllocError>
    ensures { IfOk result (λ e. code_of e ≡ spec.class_of (spec.declared_by_let class (context_of c.now).named (context_of c.now).let_class) class (class_members members.old)) }
{
    let declared = declared_by_let(class, c.terms.named, c.around.let_class);
    class_of(alloc, declared, class, members)
}
