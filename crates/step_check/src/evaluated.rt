// What an evaluation finds of a program.

ghost use Rattle.std.specs.Prelude.{◌≡◌, ℕ, List, [], Some, map};
ghost use Rattle.es_code_contexts.specs.Terms.{program_of, terms_of};
ghost use Rattle.es_code_rules.specs.Elsewhere.{definition_of};
ghost use Rattle.es_codes.specs.CodeView.{code_of};
ghost use Rattle.es_meanings.specs.Finding.{Finds};
ghost use Rattle.es_meanings.specs.Means.{AreEntries};
ghost use Rattle.es_program_meaning.specs.Runs.{IsRun};
ghost use Rattle.es_steps.specs.Code as of;
ghost use Rattle.es_steps.specs.Entries as entered;
ghost use Rattle.es_steps.specs.Evaluation as evaluation;
ghost use Rattle.es_steps.specs.Meaning as meaning;
ghost use Rattle.es_steps.specs.Opening as spec;
ghost use Rattle.es_steps.specs.Opening.{opening};
ghost use Rattle.step_check.specs.Evaluated.{IsEvaluated, found_in};

use crate::parts::{entries_by_number, whole_exports};
use es_base::list::List;
use es_by_number::numbered::Numbered;
use es_code_reading::context::Terms;
use es_code_rules::definition::Definition;
use es_codes::code::Code;
use es_definitions::definitions::definitions;
use es_entries::entry::Entry;
use es_entries::listed::Listed;
use es_evaluator::fault::Fault;
use es_exports::export::Export;
use es_program_meaning::run::{Run, run_program};
use std::alloc::Global;

/// What an evaluation finds of a program.
#[derive(Drop)]
pub struct Evaluated<'a> {
    /// What it does itself.
    pub program: Listed,
    /// What its functions and classes do, by number.
    pub entries: Vec<Numbered<Entry>>,
    /// What it exports of its own.
    pub exports: Vec<Export<'a>>,
}

/// What an evaluation finds of the program of these terms, whose code this is. No meaning where a form in it has none; refused
/// where codes stand in codes `limit` times or more.
pub fn evaluate_program<'a>(
    alloc: Global,
    terms: &Terms<'a>,
    limit: usize,
    code: &Code,
) -> Result<Evaluated<'a>, Fault>
    ensures { Finds result (found_in (opening (spec.definitions (code_of code.now))) (terms_of terms.now) (program_of terms.now) (code_of code.now)) IsEvaluated }
{
    match definitions(alloc, code) {
        Ok(definitions) => evaluate_among(alloc, terms, limit, &definitions, code),
        Err(_) => Err(Fault::NoMemory),
    }
}

/// The same among definitions.
fn evaluate_among<'a>(
    alloc: Global,
    terms: &Terms<'a>,
    limit: usize,
    definitions: &List<Definition>,
    code: &Code,
) -> Result<Evaluated<'a>, Fault>
    ensures { Finds result (found_in (opening (map definition_of definitions.now)) (terms_of terms.now) (program_of terms.now) (code_of code.now)) IsEvaluated }
{
    match run_program(alloc, definitions, limit, code) {
        Ok(run) => behind_run(alloc, terms, limit, definitions, code, run),
        Err(fault) => Err(fault),
    }
}

/// The same of a program whose run this is.
fn behind_run<'a>(
    alloc: Global,
    terms: &Terms<'a>,
    limit: usize,
    definitions: &List<Definition>,
    code: &Code,
    run: Run,
) -> Result<Evaluated<'a>, Fault>
    ensures { (r : evaluation.Run) → evaluation.ev (opening (map definition_of definitions.now)) (code_of code.now) [] ≡ Some r → IsRun run r
        → Finds result (found_in (opening (map definition_of definitions.now)) (terms_of terms.now) (program_of terms.now) (code_of code.now)) IsEvaluated }
{
    match entries_by_number(alloc, definitions, limit, code) {
        Ok(entries) => behind_entries(alloc, terms, run, entries),
        Err(fault) => {
            drop(run);
            Err(fault)
        }
    }
}

/// The same of a program with this run and these entries.
fn behind_entries<'a>(
    alloc: Global,
    terms: &Terms<'a>,
    run: Run,
    entries: Vec<Numbered<Entry>>,
) -> Result<Evaluated<'a>, Fault>
    ensures { (opens : of.Opened → evaluation.Evaluation) (c : of.Code) (r : evaluation.Run) (es : List (ℕ × entered.Entry)) → evaluation.ev opens c [] ≡ Some r → IsRun run r
        → meaning.whole (entered.entries opens (terms_of terms.now).first_new [] [] c) ≡ Some es → AreEntries entries.items (meaning.by_number es)
        → Finds result (found_in opens (terms_of terms.now) (program_of terms.now) c) IsEvaluated }
{
    let mut run = run;
    match whole_exports(alloc, terms, &mut run.state) {
        Ok(exports) => Ok(evaluated_of(run, entries, exports)),
        Err(fault) => {
            drop(run);
            drop(entries);
            Err(fault)
        }
    }
}

/// These together; the state behind the run is let go.
fn evaluated_of<'a>(
    run: Run,
    entries: Vec<Numbered<Entry>>,
    exports: Vec<Export<'a>>,
) -> Evaluated<'a>
    ensures { result ≡ record { program = run.listed; entries = entries; exports = exports.entry } }
{
    let Run { listed, state } = run;
    drop(state);
    Evaluated {
        program: listed,
        entries,
        exports,
    }
}
