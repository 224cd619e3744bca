// `a = b` in a declaration. (ECMA-262, 14.3; what generated names are given is our own.)

ghost use Rattle.std.specs.Prelude.{◌≡◌, IfOk, cond, option_map};
ghost use Rattle.es_codes.specs.CodeView.{code_of, target_of};
ghost use Rattle.es_codes.specs.View.{kind_of};
ghost use Rattle.es_steps.specs.Code as of;
ghost use Rattle.es_steps.specs.Context.{new_here};
ghost use Rattle.es_steps.specs.Expressions as expressions;
ghost use Rattle.es_steps.specs.Expressions.{the_code};
ghost use Rattle.es_steps.specs.Members as of_node;
ghost use Rattle.es_steps.specs.Statements as spec;
ghost use Rattle.es_code_members.specs.MembersView.{member_of};
ghost use Rattle.es_code_reading.specs.Contexts.{context_of};
ghost use Rattle.es_code_declarations.specs.Declarators.{class_in, class_of_kind, generated_as, generated_in, generated_name_of, new_let, uninitialized, unless_generated};

use crate::given::{given, given_class};
use es_base::ledger::GeneratedKind;
use es_base::name::Name;
use es_code_members::member::{Member, take_code};
use es_code_reading::context::Context;
use es_code_targets::target::boxed_target;
use es_codes::boxed::Boxed;
use es_codes::code::{Code, Target};
use es_codes::name::NameKind;
use es_generated::numbers::is_new;
use std::alloc::{AllocError, Global};
use std::mem;

/// A generated name that is declared, by its identifier.
#[derive(Clone, Copy)]
struct GeneratedName<'a> {
    node: u32,
    spelling: &'a Name,
    kind: GeneratedKind,
}

// ---- what a declarator declares

fn generated_as<'a>(node: u32, spelling: &'a Name, kind: &NameKind) -> Option<GeneratedName<'a>>
    ensures { option_map generated_name_of result ≡ generated_as node spelling.now (kind_of kind.now) }
{
    match kind {
        NameKind::Generated(generated) => Some(GeneratedName {
            node,
            spelling,
            kind: *generated,
        }),
        _ => None,
    }
}

/// The generated name that a code declares.
#[tactic(auto, using(crate::proofs::DeclaratorForms::a_generated_name, crate::proofs::DeclaratorForms::no_generated_name))]
fn generated_in(declared: &Code) -> Option<GeneratedName<'_>>
    ensures { option_map generated_name_of result ≡ generated_in (code_of declared.now) }
{
    match declared {
        Code::Binding {
            node,
            spelling,
            kind,
        } => generated_as(*node, spelling, kind),
        _ => None,
    }
}

fn generated_at(id: &Member) -> Option<GeneratedName<'_>>
    ensures { option_map generated_name_of result ≡ generated_in (the_code (member_of id.now)) }
{
    match id {
        Member::Code(declared) => generated_in(declared),
        _ => None,
    }
}

fn class_of_kind(kind: &NameKind) -> Option<u32>
    ensures { result ≡ class_of_kind (kind_of kind.now) }
{
    match kind {
        NameKind::MeansClass { class, .. } => Some(*class),
        _ => None,
    }
}

/// The class that a name means which a code declares.
#[tactic(auto, using(crate::proofs::DeclaratorForms::a_class_name, crate::proofs::DeclaratorForms::no_class_name))]
fn class_in(declared: &Code) -> Option<u32>
    ensures { result ≡ class_in (code_of declared.now) }
{
    match declared {
        Code::Binding { kind, .. } => class_of_kind(kind),
        _ => None,
    }
}

fn class_at(id: &Member) -> Option<u32>
    ensures { result ≡ class_in (the_code (member_of id.now)) }
{
    match id {
        Member::Code(declared) => class_in(declared),
        _ => None,
    }
}

// ---- with an initializer

/// A new `let` names a class. Fails on allocation failure alone.
fn new_let(alloc: Global, class: Option<u32>, right: &mut Code) -> Result<Code, AllocError>
    ensures { IfOk result (λ e. code_of e ≡ new_let class (code_of right.old)) }
{
    match class {
        Some(class) => given_class(alloc, class, right),
        None => Ok(Code::no_rule()),
    }
}

fn assigned(alloc: Global, id: &mut Member, right: &mut Code) -> Result<Code, AllocError>
    ensures { IfOk result (λ e. code_of e ≡ of.assign (expressions.target_of (the_code (member_of id.old))) (code_of right.old)) }
{
    let right = Boxed::new(alloc, mem::replace(right, Code::nothing()))?;
    let to = boxed_target(alloc, take_code(id))?;
    Ok(Code::assign(to, right))
}

/// `a = b`, where `a` was not generated. Fails on allocation failure alone.
#[tactic(auto, using(crate::proofs::DeclaratorForms::class_given, crate::proofs::DeclaratorForms::value_given))]
fn unless_generated(
    alloc: Global,
    c: &Context,
    node: u32,
    id: &mut Member,
    right: &mut Code,
) -> Result<Code, AllocError>
    ensures { IfOk result (λ e. code_of e ≡ unless_generated (new_here (context_of c.now) node) (the_code (member_of id.old)) (code_of right.old)) }
{
    if is_new(c.terms.first_new, node) {
        new_let(alloc, class_at(id), right)
    } else {
        assigned(alloc, id, right)
    }
}

#[tactic(auto, using(crate::proofs::DeclaratorForms::generated_given, crate::proofs::DeclaratorForms::other_given))]
fn initialized(
    alloc: Global,
    c: &Context,
    node: u32,
    id: &mut Member,
    right: &mut Code,
) -> Result<Code, AllocError>
    ensures { IfOk result (λ e. code_of e ≡ spec.declarator_of (context_of c.now) node (new_here (context_of c.now) node) (the_code (member_of id.old)) (of_node.code (code_of right.old))) }
{
    match generated_at(id) {
        Some(name) => {
            let spelling = name.spelling.try_clone(alloc)?;
            given(alloc, c, node, name.node, spelling, name.kind, right)
        }
        None => unless_generated(alloc, c, node, id, right),
    }
}

// ---- without an initializer

fn source_name(c: &Context, node: u32, binding: u32, spelling: Name, kind: NameKind) -> Code
    ensures { code_of result ≡ cond (new_here (context_of c.now) node) of.no_rule (of.binding binding spelling (kind_of kind)) }
{
    if is_new(c.terms.first_new, node) {
        Code::no_rule()
    } else {
        Code::binding(binding, spelling, kind)
    }
}

#[tactic(auto, using(crate::proofs::DeclaratorForms::name_alone))]
fn uninitialized_name(c: &Context, node: u32, binding: u32, spelling: Name, kind: NameKind) -> Code
    ensures { code_of result ≡ uninitialized (new_here (context_of c.now) node) (of.binding binding spelling (kind_of kind)) }
{
    match kind {
        NameKind::Generated(_) => Code::nothing(),
        other => source_name(c, node, binding, spelling, other),
    }
}

fn uninitialized_pattern(c: &Context, node: u32, pattern: u32, to: Boxed<Target>) -> Code
    ensures { code_of result ≡ cond (new_here (context_of c.now) node) of.no_rule (of.pattern pattern (target_of to)) }
{
    if is_new(c.terms.first_new, node) {
        drop(to);
        Code::no_rule()
    } else {
        Code::pattern(pattern, to)
    }
}

/// What a declarator without an initializer declares.
#[tactic(auto, using(crate::proofs::DeclaratorForms::binding_alone, crate::proofs::DeclaratorForms::pattern_alone, crate::proofs::DeclaratorForms::none_alone))]
fn uninitialized(c: &Context, node: u32, declared: Code) -> Code
    ensures { code_of result ≡ uninitialized (new_here (context_of c.now) node) (code_of declared) }
{
    match declared {
        Code::Binding {
            node: binding,
            spelling,
            kind,
        } => uninitialized_name(c, node, binding, spelling, kind),
        Code::Pattern { node: pattern, to } => uninitialized_pattern(c, node, pattern, to),
        other => {
            drop(other);
            Code::no_rule()
        }
    }
}

/// `a = b` in a declaration: a generated name is given what it stands for, and a new `let` of another name is given a class. Fails
/// on allocation failure alone.
#[tactic(auto, using(crate::proofs::DeclaratorForms::without_value))]
pub fn declarator_code(
    alloc: Global,
    c: &Context,
    node: u32,
    id: &mut Member,
    init: &mut Member,
) -> Result<Code, AllocError>
    ensures { IfOk result (λ e. code_of e ≡ spec.declarator_code (context_of c.now) node (of_node.more (member_of id.old) (of_node.more (member_of init.old) of_node.end))) }
{
    match init {
        Member::Code(right) => initialized(alloc, c, node, id, right),
        _ => Ok(uninitialized(c, node, take_code(id))),
    }
}
