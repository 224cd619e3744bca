// The head of a `for`-`in` or `for`-`of`: the targets of a declaration, or a target. (ECMA-262, 14.7.5 and B.3.5.)

ghost use Rattle.std.specs.Prelude.{◌≡◌, IfOk, OnOk, option_map};
ghost use Rattle.es_codes.specs.CodeView.{code_of, codes_of, target_of};
ghost use Rattle.es_steps.specs.Code.{and, done, gives_to, joined};
ghost use Rattle.es_steps.specs.Expressions.{the_code};
ghost use Rattle.es_steps.specs.Statements as spec;
ghost use Rattle.es_code_members.specs.MembersView.{member_of};
ghost use Rattle.es_code_loops.specs.Heads.{first_target, initialized_target, target_of_binding, uninitialized_target};

use es_base::list::List;
use es_code_copies::copy::copy_boxed_target;
use es_code_members::member::Member;
use es_code_targets::target::boxed_target;
use es_codes::boxed::Boxed;
use es_codes::code::{Code, Target};
use std::alloc::{AllocError, Global};
use std::mem;

// ---- one declarator

/// A copy of the target of a declarator with an initializer, which is written by that, and then each time; none of another. Fails
/// on allocation failure alone.
#[tactic(auto, using(crate::proofs::HeadForms::an_assignment, crate::proofs::HeadForms::no_assignment))]
fn initialized_target(alloc: Global, declarator: &Code) -> Result<Option<Boxed<Target>>, AllocError>
    ensures { IfOk result (λ to. option_map target_of to ≡ initialized_target (code_of declarator.now)) }
{
    match declarator {
        // var a = b
        Code::Assign { to, .. } => Ok(Some(copy_boxed_target(alloc, to)?)),
        _ => Ok(None),
    }
}

/// What is written where a name is declared; the name is taken out. Fails on allocation failure alone.
#[tactic(auto, using(crate::proofs::HeadForms::a_binding, crate::proofs::HeadForms::no_binding))]
fn target_of_binding(alloc: Global, code: &mut Code) -> Result<Boxed<Target>, AllocError>
    ensures { IfOk result (λ to. target_of to ≡ target_of_binding (code_of code.old)) }
{
    match code {
        Code::Binding { .. } => boxed_target(alloc, mem::replace(code, Code::nothing())),
        _ => Boxed::new(alloc, Target::no_target()),
    }
}

/// What is written where a name of a `let` is initialized with undefined. Fails on allocation failure alone.
#[tactic(auto, using(crate::proofs::HeadForms::no_step))]
fn first_target(alloc: Global, steps: &mut [Code]) -> Result<Boxed<Target>, AllocError>
    ensures { IfOk result (λ to. target_of to ≡ first_target (codes_of steps.old)) }
{
    match steps {
        [first, ..] => target_of_binding(alloc, first),
        [] => Boxed::new(alloc, Target::no_target()),
    }
}

/// What is written where a declarator has no initializer; it is taken out. Fails on allocation failure alone.
#[tactic(auto, using(crate::proofs::HeadForms::an_undefined_let, crate::proofs::HeadForms::no_undefined_let))]
fn uninitialized_target(alloc: Global, declarator: &mut Code) -> Result<Boxed<Target>, AllocError>
    ensures { IfOk result (λ to. target_of to ≡ uninitialized_target (code_of declarator.old)) }
{
    match declarator {
        // let a
        Code::Steps { all } => first_target(alloc, all.as_mut_slice()),
        // var a, const [b]
        _ => boxed_target(alloc, mem::replace(declarator, Code::nothing())),
    }
}

/// Adds a declarator of the head: its target to the targets, and itself to the initializers, if it has one. Fails on allocation
/// failure alone.
#[tactic(auto, using(es_code_members::proofs::Chaining::joined_one, es_code_members::proofs::Chaining::joined_none, crate::proofs::HeadForms::initialized, crate::proofs::HeadForms::initialized_declared, crate::proofs::HeadForms::uninitialized, crate::proofs::HeadForms::uninitialized_declared))]
fn add_declarator(
    alloc: Global,
    node: u32,
    declarator: &mut Code,
    initializers: &mut List<Code>,
    targets: &mut List<Code>,
) -> Result<(), AllocError>
    ensures initializers { OnOk result (codes_of initializers.new ≡ joined (codes_of initializers.old) (spec.is_initialized (code_of declarator.old))) }
    ensures targets { OnOk result (codes_of targets.new ≡ joined (codes_of targets.old) (and (gives_to node (spec.declared_target (code_of declarator.old))) done)) }
{
    match initialized_target(alloc, declarator)? {
        Some(target) => {
            targets.push(Code::gives_to(node, target))?;
            initializers.push(mem::replace(declarator, Code::nothing()))
        }
        None => {
            let target = uninitialized_target(alloc, declarator)?;
            targets.push(Code::gives_to(node, target))
        }
    }
}

// ---- the head

fn add_declarators(
    alloc: Global,
    node: u32,
    declarators: &mut [Code],
    initializers: &mut List<Code>,
    targets: &mut List<Code>,
) -> Result<(), AllocError>
    ensures initializers { OnOk result (codes_of initializers.new ≡ joined (codes_of initializers.old) (spec.initialized_first (codes_of declarators.old))) }
    ensures targets { OnOk result (codes_of targets.new ≡ joined (codes_of targets.old) (spec.given_targets node (codes_of declarators.old))) }
{
    for declarator in declarators.iter_mut() {
        add_declarator(alloc, node, declarator, initializers, targets)?;
    }
    Ok(())
}

#[tactic(auto, using(es_code_members::proofs::Chaining::joined_one, es_code_members::proofs::Chaining::joined_none, crate::proofs::HeadForms::other_initialized, crate::proofs::HeadForms::other_given))]
fn add_declared(
    alloc: Global,
    node: u32,
    head: &mut Code,
    initializers: &mut List<Code>,
    targets: &mut List<Code>,
) -> Result<(), AllocError>
    ensures initializers { OnOk result (codes_of initializers.new ≡ joined (codes_of initializers.old) (spec.head_initializers (code_of head.old))) }
    ensures targets { OnOk result (codes_of targets.new ≡ joined (codes_of targets.old) (spec.head_targets node (code_of head.old))) }
{
    match head {
        // for (var a in b) {}
        Code::Steps { all } => {
            add_declarators(alloc, node, all.as_mut_slice(), initializers, targets)
        }
        // for (a.b of c) {}
        _ => {
            let target = boxed_target(alloc, mem::replace(head, Code::nothing()))?;
            targets.push(Code::gives_to(node, target))
        }
    }
}

/// Adds what the head initializes, and what it is given each time. Fails on allocation failure alone.
#[tactic(auto, using(es_code_members::proofs::Chaining::joined_one, es_code_members::proofs::Chaining::joined_none))]
pub fn add_head(
    alloc: Global,
    node: u32,
    head: &mut Member,
    initializers: &mut List<Code>,
    targets: &mut List<Code>,
) -> Result<(), AllocError>
    ensures initializers { OnOk result (codes_of initializers.new ≡ joined (codes_of initializers.old) (spec.head_initializers (the_code (member_of head.old)))) }
    ensures targets { OnOk result (codes_of targets.new ≡ joined (codes_of targets.old) (spec.head_targets node (the_code (member_of head.old)))) }
{
    match head {
        Member::Code(head) => add_declared(alloc, node, head, initializers, targets),
        _ => {
            let none = Boxed::new(alloc, Target::no_target())?;
            targets.push(Code::gives_to(node, none))
        }
    }
}
