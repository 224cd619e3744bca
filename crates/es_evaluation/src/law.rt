// Evaluation over a state is that of the definitions.

ghost use Rattle.std.specs.Prelude.{List};
ghost use Rattle.es_steps.specs.Code.{Code};
ghost use Rattle.es_steps.specs.Evaluation.{ev};
ghost use Rattle.es_steps.specs.Opening.{Definition, opening};
ghost use Rattle.es_evaluation.specs.Agreement.{Follows};
ghost use Rattle.es_evaluation.specs.Direct.{evaluated};

/// Whatever is opened, evaluation over a state adds to it what the run of the definitions has: the tokens of
/// its events, its value and its environment; and it has no meaning where the definitions give none.
pub fn evaluation_adds_up()
    ensures { (ds : List Definition) (c : Code) → Follows (ev (opening ds) c) (evaluated ds c) }
{}
