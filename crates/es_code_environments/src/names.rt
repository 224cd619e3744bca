// Copies of temporaries.

ghost use Rattle.std.specs.Prelude.{◌≡◌, ◌++◌, ◌-◌, drop, length, IfOk, OnOk};
ghost use Rattle.es_evaluator.specs.Running.{names_of, state_of};
ghost use Rattle.es_steps.specs.Entries.{is_string_among, without};
ghost use Rattle.es_steps.specs.Evaluation.{is_private_key, only_private};
ghost use Rattle.es_code_environments.specs.Standing.{cut_back, standing};

use es_base::name::Name;
use es_base::strings::begins_with;
use es_codes::same::same_name;
use es_evaluator::state::{Named, State};
use std::alloc::{AllocError, Global};

/// A copy of a temporary. Fails on allocation failure alone.
pub fn clone_named(alloc: Global, named: &Named) -> Result<Named, AllocError>
    ensures { IfOk result (λ n. n ≡ named.now) }
{
    let name = named.name.try_clone(alloc)?;
    let value = named.value.try_clone(alloc)?;
    Ok(Named { name, value })
}

/// Adds copies of these temporaries from the `first` on. Fails on allocation failure alone.
#[tactic(auto, using(crate::proofs::Copies::all_copied, crate::proofs::Copies::none_left))]
pub fn copy_names(
    alloc: Global,
    from: &[Named],
    first: usize,
    names: &mut Vec<Named>,
) -> Result<(), AllocError>
    ensures { OnOk result (names.new.items ≡ names.old.items ++ drop first from.now) }
{
    for i in first..from.len() {
        names.push(clone_named(alloc, &from[i])?)?;
    }
    Ok(())
}

/// A state to begin an evaluation with, of copies of these temporaries. Fails on allocation failure alone.
#[tactic(auto, unfolding(es_evaluator::specs::Running::state_of))]
pub fn standing(alloc: Global, names: &[Named]) -> Result<State, AllocError>
    ensures { IfOk result (λ s. state_of s ≡ standing (names_of names.now)) }
{
    let mut copy = Vec::new(alloc);
    copy_names(alloc, names, 0, &mut copy)?;
    Ok(State {
        names: copy,
        tokens: Vec::new(alloc),
        has_thrown: false,
    })
}

/// A state that an evaluation began with, of the first `count` of its temporaries.
#[tactic(auto, using(es_evaluator::proofs::Given::names_of_take), unfolding(es_evaluator::specs::Running::state_of))]
pub fn cut(mut state: State, count: usize) -> State
    ensures { state_of result ≡ cut_back count (state_of state) }
{
    state.names.truncate(count);
    state
}

/// A state that an evaluation came to, without its events.
#[tactic(auto, unfolding(es_evaluator::specs::Running::state_of))]
pub fn quieted(mut state: State) -> State
    ensures { state_of result ≡ standing (state_of state).names }
{
    state.tokens.clear();
    state.has_thrown = false;
    state
}

/// Adds copies of those of these temporaries, from the `first` on, that are private elements. Fails on allocation failure
/// alone.
#[tactic(auto, using(crate::proofs::Copies::private_copied, crate::proofs::Copies::public_left_out, crate::proofs::Copies::no_private_yet, crate::proofs::Copies::all_private))]
pub fn copy_private(
    alloc: Global,
    from: &[Named],
    first: usize,
    names: &mut Vec<Named>,
) -> Result<(), AllocError>
    ensures { OnOk result (names_of names.new.items ≡ only_private (length from.now - first) (names_of from.now) ++ names_of names.old.items) }
{
    for i in first..from.len() {
        if is_private(&from[i]) {
            names.push(clone_named(alloc, &from[i])?)?;
        }
    }
    Ok(())
}

/// Whether a private element holds the value.
#[tactic(auto, using(es_class_rules::proofs::Forgetting::begins_private))]
fn is_private(named: &Named) -> bool
    ensures { result ≡ is_private_key named.now.name }
{
    begins_with(named.name.as_str(), "#")
}

/// Copies of those of these temporaries that are not among the hidden ones. Fails on allocation failure alone.
#[tactic(auto, using(crate::proofs::Copies::other_copied, crate::proofs::Copies::hidden_left_out, crate::proofs::Copies::none_copied_yet, crate::proofs::Copies::all_gone_over))]
pub fn copy_others(alloc: Global, from: &[Named], hidden: &[Name]) -> Result<Vec<Named>, AllocError>
    ensures { IfOk result (λ names. names_of names.items ≡ without hidden.now (names_of from.now)) }
{
    let mut names = Vec::new(alloc);
    for i in 0..from.len() {
        if !is_among(&from[i].name, hidden) {
            names.push(clone_named(alloc, &from[i])?)?;
        }
    }
    Ok(names)
}

/// Whether it is one of these names.
#[tactic(auto, using(crate::proofs::Copies::among_here, crate::proofs::Copies::among_behind, crate::proofs::Copies::among_none))]
fn is_among(name: &Name, names: &[Name]) -> bool
    ensures { result ≡ is_string_among name.now names.now }
{
    for other in names {
        if same_name(name, other) {
            return true;
        }
    }
    false
}
