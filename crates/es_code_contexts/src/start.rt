// What is known where a program begins.

ghost use Rattle.std.specs.Prelude.{◌≡◌};
ghost use Rattle.es_code_reading.specs.Contexts.{context_of};
ghost use Rattle.es_code_contexts.specs.Terms.{program_of, terms_of};
ghost use Rattle.es_steps.specs.Meaning as spec;

use es_code_reading::context::{Around, Context, FunctionRole, Terms, This};
use es_seen_names::names::Names;
use es_seen_names::privates::Privates;

/// What is known where the program begins (ECMA-262, 9.4 and 16.1.6: `this` and `new.target` are the program's, and no name is
/// declared around it).
pub fn start<'r, 'a>(terms: &'r Terms<'a>) -> Context<'r, 'a>
    ensures { context_of result ≡ spec.start (terms_of terms.now) (program_of terms.now) }
{
    let program = terms.names.program.node_id().0;
    Context {
        terms,
        names: Names::Outside,
        privates: Privates::Outside,
        uncaught: Names::Outside,
        block: None,
        around: Around {
            this: This::Of(program),
            new_target: Some(program),
            arguments: None,
            home: None,
            constructs: None,
            initializing: None,
            in_new_function: false,
            rest_name: "",
            class: program,
            has_heritage: false,
            object: program,
            role: FunctionRole::Function,
            let_class: None,
            is_body: false,
        },
    }
}
