// Which calls of `super(..)` run the initializers of a class.

ghost use Rattle.std.specs.Prelude.{◌≡◌, option_map};
ghost use Rattle.es_codes.specs.CodeView.{opened_of};
ghost use Rattle.es_steps.specs.GeneratedForms as spec;
ghost use Rattle.es_code_reading.specs.Contexts.{context_of};

use crate::context::Context;
use es_codes::code::Opened;

fn runs_initializers(initializing: Option<u32>, node: u32) -> bool
    ensures { result ≡ spec.runs_initializers initializing node }
{
    match initializing {
        Some(call) => call == node,
        None => true,
    }
}

/// The initializers that this call runs.
pub fn initializers_behind(c: &Context, node: u32, class: u32) -> Option<Opened>
    ensures { option_map opened_of result ≡ spec.initializers_behind (context_of c.now) node class }
{
    if runs_initializers(c.around.initializing, node) {
        Some(Opened::InitializersOf(class))
    } else {
        None
    }
}
