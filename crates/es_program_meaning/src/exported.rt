// What a program exports.

ghost use Rattle.std.specs.Prelude.{◌≡◌, IfOk, option_map};
ghost use Rattle.es_evaluator.specs.Running.{state_of};
ghost use Rattle.es_exports.specs.Exports.{exports_of};
ghost use Rattle.es_code_contexts.specs.Terms.{program_of, terms_of};
ghost use Rattle.es_steps.specs.Evaluation.{Environment, default_key, found};
ghost use Rattle.es_steps.specs.Meaning as spec;
ghost use Rattle.es_steps.specs.Modules.{exports_in};

use es_base::name::Name;
use es_code_contexts::inside::Inside;
use es_code_contexts::start::start;
use es_code_reading::context::Terms;
use es_code_reading::inside::uncaught_around;
use es_codes::value::Value;
use es_evaluator::fault::Fault;
use es_evaluator::names::read_given;
use es_evaluator::state::State;
use es_exports::export::Export;
use es_exports::exports::exports;
use std::alloc::{AllocError, Global};

/// What the program exports of its own, where this is the value of its default export. Fails on allocation failure alone.
fn exported_with<'a>(
    alloc: Global,
    terms: &Terms<'a>,
    default: Option<&Value>,
) -> Result<Vec<Export<'a>>, AllocError>
    ensures { (env : Environment) → option_map (λ v. v.now) default.entry ≡ found default_key env → IfOk result (λ xs. exports_of xs.items ≡ exports_in (spec.in_body (spec.start (terms_of terms.now) (program_of terms.now)) (program_of terms.now)) env (spec.body_of (program_of terms.now))) }
{
    let program = terms.names.program;
    let c = start(terms);
    let inside = Inside::of(alloc, &c, program, 1)?;
    let uncaught = uncaught_around(&c, program.kind());
    let body = inside.context(&c, &uncaught, program);
    exports(alloc, &body, default, program)
}

/// The value that the default export was given, if it was. Refused on allocation failure alone.
fn default_value(alloc: Global, state: &mut State) -> Result<Option<Value>, Fault>
    ensures { IfOk result (λ v. v ≡ found default_key (state_of state.old).names) }
{
    let name = Name::from_ascii(alloc, "*")?;
    match read_given(alloc, state, &name) {
        Ok(value) => Ok(Some(value)),
        Err(Fault::NoMeaning) => Ok(None),
        Err(fault) => Err(fault),
    }
}

/// What the program exports of its own, where this is the state behind it. Refused on allocation failure alone.
pub fn exported<'a>(
    alloc: Global,
    terms: &Terms<'a>,
    state: &mut State,
) -> Result<Vec<Export<'a>>, Fault>
    ensures { IfOk result (λ xs. exports_of xs.items ≡ exports_in (spec.in_body (spec.start (terms_of terms.now) (program_of terms.now)) (program_of terms.now)) (state_of state.old).names (spec.body_of (program_of terms.now))) }
{
    let default = default_value(alloc, state)?;
    Ok(exported_with(alloc, terms, default.as_ref())?)
}
