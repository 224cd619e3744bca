// The meaning of a program.

ghost use Rattle.std.specs.Prelude.{◌≡◌, IfOk, ℕ, List, Some};
ghost use Rattle.es_code_contexts.specs.Terms.{program_of, terms_of};
ghost use Rattle.es_codes.specs.CodeView.{code_of};
ghost use Rattle.es_meanings.specs.Finding.{Finds, Found};
ghost use Rattle.es_meanings.specs.Means.{IsMeaning};
ghost use Rattle.es_program_meaning.specs.Runs.{listed_run};
ghost use Rattle.es_steps.specs.Meaning as spec;
ghost use Rattle.es_steps.specs.Reading as reading;
ghost use Rattle.step_check.specs.Evaluated as parts;
ghost use Rattle.step_check.specs.Evaluated.{IsEvaluated, IsStanding};

use crate::evaluated::{Evaluated, evaluate_program};
use crate::standing::{Standing, standing_in};
use es_code_contexts::start::start;
use es_code_reading::context::Terms;
use es_codes::code::Code;
use es_declarations::globals::source_type;
use es_evaluator::fault::Fault;
use es_meanings::meaning::Meaning;
use es_tree_codes::read::read;
use std::alloc::{AllocError, Global};

/// The meaning of the program of these terms (docs/MEANING.md). No meaning where a form in it has no rule; refused where codes
/// stand in codes `limit` times or more.
pub fn meaning<'a>(alloc: Global, terms: &Terms<'a>, limit: usize) -> Result<Meaning<'a>, Fault>
    ensures { Finds result (spec.means (terms_of terms.now) (program_of terms.now)) IsMeaning }
{
    match code_in(alloc, terms) {
        Ok(code) => meaning_by(alloc, terms, limit, code),
        Err(_) => Err(Fault::NoMemory),
    }
}

/// The meaning of a program of this code, which is let go.
fn meaning_by<'a>(
    alloc: Global,
    terms: &Terms<'a>,
    limit: usize,
    code: Code,
) -> Result<Meaning<'a>, Fault>
    ensures { Finds result (spec.means_of (terms_of terms.now) (program_of terms.now) (code_of code)) IsMeaning }
{
    let meaning = meaning_of(alloc, terms, limit, &code);
    drop(code);
    meaning
}

/// The code of the program of these terms. Fails on allocation failure alone.
fn code_in(alloc: Global, terms: &Terms) -> Result<Code, AllocError>
    ensures { IfOk result (λ e. code_of e ≡ reading.read (spec.start (terms_of terms.now) (program_of terms.now)) (program_of terms.now)) }
{
    let context = start(terms);
    read(alloc, &context, terms.names.program)
}

/// The meaning of a program of this code.
fn meaning_of<'a>(
    alloc: Global,
    terms: &Terms<'a>,
    limit: usize,
    code: &Code,
) -> Result<Meaning<'a>, Fault>
    ensures { Finds result (spec.means_of (terms_of terms.now) (program_of terms.now) (code_of code.now)) IsMeaning }
{
    match evaluate_program(alloc, terms, limit, code) {
        Ok(evaluated) => meaning_with(alloc, terms, code, evaluated),
        Err(fault) => Err(fault),
    }
}

/// The meaning of a program of this code, of which an evaluation finds this.
fn meaning_with<'a>(
    alloc: Global,
    terms: &Terms<'a>,
    code: &Code,
    evaluated: Evaluated<'a>,
) -> Result<Meaning<'a>, Fault>
    ensures { (e : parts.Evaluated) → IsEvaluated evaluated.entry e
        → Finds result (spec.with_all (terms_of terms.now) (program_of terms.now) (spec.private_functions (code_of code.now)) (Some (listed_run e.run)) (Some e.entries) (spec.member_entries (spec.private_functions (code_of code.now)) (terms_of terms.now).members) (Some e.exports)) IsMeaning }
{
    match standing_in(alloc, terms, code) {
        Ok(standing) => Ok(joined(terms, evaluated, standing)),
        Err(fault) => {
            drop(evaluated);
            Err(fault)
        }
    }
}

/// The meaning of a program of which an evaluation finds the one, and in which the other stands.
fn joined<'a>(terms: &Terms<'a>, evaluated: Evaluated<'a>, standing: Standing<'a>) -> Meaning<'a>
    ensures { (d : List (ℕ × ℕ)) (e : parts.Evaluated) (ms : List (ℕ × spec.MemberEntry)) → IsEvaluated evaluated.entry e → IsStanding (terms_of terms.now) (program_of terms.now) d standing.entry ms
        → Found result (spec.with_all (terms_of terms.now) (program_of terms.now) d (Some (listed_run e.run)) (Some e.entries) (Some ms) (Some e.exports)) IsMeaning }
{
    let tables = standing.tables;
    Meaning {
        source_type: source_type(terms.names.program),
        program: evaluated.program,
        entries: evaluated.entries,
        members: standing.members,
        functions: tables.functions,
        bindings: tables.bindings,
        globals: tables.globals,
        shared: tables.shared,
        places: tables.places,
        branches: tables.branches,
        links: tables.links,
        exports: evaluated.exports,
    }
}
