// Names that are forgotten.

ghost use Rattle.std.specs.Prelude.{◌≡◌, ◌++◌, length, take, drop};
ghost use Rattle.es_steps.specs.Evaluation.{Environment, is_private_key};
ghost use Rattle.es_evaluation.specs.Direct.{without_own};
ghost use Rattle.es_evaluator.specs.Running.{state_of};
ghost use Rattle.es_class_rules.specs.Public.{public};

use es_base::strings::begins_with;
use es_evaluator::state::{Named, State};

/// Behind a class, what the private elements hold that it added is forgotten (ECMA-262, 15.7.14). `count` is how
/// many names there were before it.
#[tactic(auto, using(crate::proofs::Forgetting::forgotten), unfolding(es_evaluator::specs::Running::state_of))]
pub fn forget_private(state: &mut State, count: usize)
    ensures { (env : Environment) → length env ≡ count → state_of state.new ≡ without_own env (state_of state.old) }
{
    remove_private(&mut state.names, count);
}

/// Behind the first `count` names, removes those of private elements.
#[tactic(auto, using(crate::proofs::Forgetting::all_gone_over, crate::proofs::Forgetting::one_goes, crate::proofs::Forgetting::one_stays))]
fn remove_private(names: &mut Vec<Named>, count: usize)
    ensures { names.new.items ≡ take count names.old.items ++ public (drop count names.old.items) }
{
    let mut i = count;
    while i < names.len() {
        if is_private(&names[i]) {
            drop(names.remove(i));
        } else {
            i += 1;
        }
    }
}

/// Whether a private element holds the value.
#[tactic(auto, using(crate::proofs::Forgetting::begins_private))]
fn is_private(named: &Named) -> bool
    ensures { result ≡ is_private_key named.now.name }
{
    begins_with(named.name.as_str(), "#")
}
