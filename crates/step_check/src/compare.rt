// Whether a source and a lowered program have one meaning.

ghost use Rattle.std.specs.Prelude.{◌≡◌, IfOk, Option, Some};
ghost use Rattle.es_base.specs.Preorder.{nodes};
ghost use Rattle.es_code_contexts.specs.Terms.{program_of, terms_of};
ghost use Rattle.es_meanings.specs.Differences.{IsFirst};
ghost use Rattle.es_meanings.specs.Means.{IsMeaning};
ghost use Rattle.es_meanings.specs.declared.difference.Difference.{Difference};
ghost use Rattle.es_steps.specs.Meaning as spec;
ghost use Rattle.step_check.specs.Comparison.{IsComparison, MayMean};
ghost use Rattle.step_check.specs.Facts.{before, behind, terms_with};

use crate::meaning::meaning;
use crate::verdict::{CheckError, Part, Verdict};
use es_base::ids::NodeId;
use es_code_reading::context::Terms;
use es_evaluator::fault::Fault;
use es_generated::ledger::Ledger;
use es_meanings::difference::{Difference, first_difference};
use es_meanings::meaning::Meaning;
use es_meanings::part::{EntryPart, part_of_entry};
use es_named_classes::named_classes::named_classes;
use es_outside::names::ProgramNames;
use es_owed::listed::Listed;
use es_seen_names::private_member::{PrivateMember, private_members};
use es_steps::options::Options;
use std::alloc::{AllocError, Global};

/// In how many codes a code may stand where it is evaluated.
const MOST_CODES: usize = 65_536;

/// What is said of two meanings of which the entries of this number are the first that differ.
fn verdict_of_entry(source: &Meaning, lowered: &Meaning, number: u32) -> Verdict
    ensures { (a b : spec.Meaning) → IsMeaning source.now a → IsMeaning lowered.now b → IsFirst (Difference.Entry number) a b → IsComparison (Some a) (Some b) result }
{
    let part = match part_of_entry(source, lowered, number) {
        EntryPart::Function => Part::Function,
        EntryPart::Class => Part::Class,
        EntryPart::Construction => Part::Construction,
    };
    let node = NodeId(number);
    Verdict::No { part, node }
}

/// What is said of two meanings that differ first there.
fn verdict_of(source: &Meaning, lowered: &Meaning, difference: Difference) -> Verdict
    ensures { (a b : spec.Meaning) → IsMeaning source.now a → IsMeaning lowered.now b → IsFirst difference a b → IsComparison (Some a) (Some b) result }
{
    let part = match difference {
        Difference::Entry(number) => return verdict_of_entry(source, lowered, number),
        Difference::Program => Part::Program,
        Difference::Private => Part::Private,
        Difference::Declaration => Part::Declaration,
        Difference::Export => Part::Export,
    };
    let node = NodeId(0);
    Verdict::No { part, node }
}

/// What is said of two meanings.
fn verdict_of_meanings(source: &Meaning, lowered: &Meaning) -> Verdict
    ensures { (a b : spec.Meaning) → IsMeaning source.now a → IsMeaning lowered.now b → IsComparison (Some a) (Some b) result }
{
    match first_difference(source, lowered) {
        None => Verdict::Yes,
        Some(difference) => verdict_of(source, lowered, difference),
    }
}

/// The meaning of the program of these terms, if it has one.
fn meaning_if_any<'a>(alloc: Global, terms: &Terms<'a>) -> Result<Option<Meaning<'a>>, CheckError>
    ensures { IfOk result (λ m. MayMean m (spec.means (terms_of terms.now) (program_of terms.now))) }
{
    match meaning(alloc, terms, MOST_CODES) {
        Ok(meaning) => Ok(Some(meaning)),
        Err(Fault::NoMeaning) => Ok(None),
        Err(Fault::TooDeep) => Err(CheckError::TooDeep),
        Err(Fault::NoMemory) => Err(CheckError::NoMemory),
    }
}

/// What is said of the meanings of two programs.
fn judged(source: &Option<Meaning>, lowered: &Option<Meaning>) -> Verdict
    ensures { (a b : Option spec.Meaning) → MayMean source.now a → MayMean lowered.now b → IsComparison a b result }
{
    match (source, lowered) {
        (Some(source), Some(lowered)) => verdict_of_meanings(source, lowered),
        _ => Verdict::No {
            part: Part::NoMeaning,
            node: NodeId(0),
        },
    }
}

/// What is said of the meanings of the programs of these terms.
fn compare_terms(alloc: Global, source: &Terms, lowered: &Terms) -> Result<Verdict, CheckError>
    ensures { IfOk result (λ v. IsComparison (spec.means (terms_of source.now) (program_of source.now)) (spec.means (terms_of lowered.now) (program_of lowered.now)) v) }
{
    match meaning_if_any(alloc, source) {
        Ok(meaning) => compare_with(alloc, meaning, lowered),
        Err(error) => Err(error),
    }
}

/// What is said of a meaning, where there is one, and that of the program of these terms. The meaning is let go.
fn compare_with(
    alloc: Global,
    source: Option<Meaning>,
    lowered: &Terms,
) -> Result<Verdict, CheckError>
    ensures { (a : Option spec.Meaning) → MayMean source.entry a → IfOk result (λ v. IsComparison a (spec.means (terms_of lowered.now) (program_of lowered.now)) v) }
{
    let verdict = compare_to(alloc, &source, lowered);
    drop(source);
    verdict
}

/// The same, and the meaning stays.
fn compare_to(
    alloc: Global,
    source: &Option<Meaning>,
    lowered: &Terms,
) -> Result<Verdict, CheckError>
    ensures { (a : Option spec.Meaning) → MayMean source.now a → IfOk result (λ v. IsComparison a (spec.means (terms_of lowered.now) (program_of lowered.now)) v) }
{
    match meaning_if_any(alloc, lowered) {
        Ok(meaning) => Ok(judged_with(source, meaning)),
        Err(error) => Err(error),
    }
}

/// What is said of the meanings of two programs, of which the second is let go.
fn judged_with(source: &Option<Meaning>, lowered: Option<Meaning>) -> Verdict
    ensures { (a b : Option spec.Meaning) → MayMean source.now a → MayMean lowered.entry b → IsComparison a b result }
{
    let verdict = judged(source, &lowered);
    drop(lowered);
    verdict
}

/// What both programs are read under, but for the generated names of the lowered one.
#[derive(Clone, Copy)]
struct Facts<'a> {
    /// The number of the source's nodes.
    first_new: u32,
    options: Options,
    /// The generated names.
    ledger: &'a Ledger<'a>,
    /// The private members of the source, and its classes that are known by names of their own.
    members: &'a [PrivateMember<'a>],
    named: &'a [(u32, u32)],
}

/// What is said of the meanings of the programs of these names.
fn compare_names<'a>(
    alloc: Global,
    facts: Facts<'a>,
    source: &'a ProgramNames<'a>,
    lowered: &'a ProgramNames<'a>,
) -> Result<Verdict, CheckError>
    ensures { IfOk result (λ v. IsComparison (spec.means (before facts.entry) source.now.program.now) (spec.means (behind facts.entry) lowered.now.program.now) v) }
{
    let none = Ledger::new(alloc);
    compare_beside(alloc, &none, &facts, source, lowered)
}

/// The same, where these are the generated names of the source.
fn compare_beside(
    alloc: Global,
    source_ledger: &Ledger,
    facts: &Facts,
    source: &ProgramNames,
    lowered: &ProgramNames,
) -> Result<Verdict, CheckError>
    ensures { IfOk result (λ v. IsComparison (spec.means (terms_with facts.now source_ledger.now) source.now.program.now) (spec.means (behind facts.now) lowered.now.program.now) v) }
{
    let source_terms = Terms {
        first_new: facts.first_new,
        options: facts.options,
        ledger: source_ledger,
        members: facts.members,
        named: facts.named,
        names: source,
    };
    let lowered_terms = Terms {
        ledger: facts.ledger,
        names: lowered,
        ..source_terms
    };
    compare_terms(alloc, &source_terms, &lowered_terms)
}

/// What is said of the meanings of two programs that are read under this.
fn compare_under(
    alloc: Global,
    facts: Facts,
    source: &Listed,
    lowered: &Listed,
) -> Result<Verdict, CheckError>
    ensures { IfOk result (λ v. IsComparison (spec.means (before facts.entry) source.now.program.now) (spec.means (behind facts.entry) lowered.now.program.now) v) }
{
    let facts = Facts {
        ledger: &*facts.ledger,
        members: &*facts.members,
        named: &*facts.named,
        ..facts
    };
    compare_names(alloc, facts, &source.names, &lowered.names)
}

/// What is said of the meanings of a source of `first_new` nodes and of what it was lowered to, with these generated names.
pub fn compare<'a>(
    alloc: Global,
    first_new: u32,
    options: &'a Options,
    ledger: &'a Ledger<'a>,
    source: &Listed,
    lowered: &Listed,
) -> Result<Verdict, CheckError>
    requires { first_new ≡ nodes source.now.program.now }
    ensures { IfOk result (λ v. IsComparison (spec.source_means options.now source.now.program.now) (spec.lowered_means options.now ledger.now source.now.program.now lowered.now.program.now) v) }
{
    let members = private_members(alloc, source.program)?;
    let named = named_classes(alloc, source.program)?;
    let facts = Facts {
        first_new,
        options: *options,
        ledger: &*ledger,
        members: members.as_slice(),
        named: named.as_slice(),
    };
    compare_under(alloc, facts, source, lowered)
}
