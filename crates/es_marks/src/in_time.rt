// Whether marks stand in time.

ghost use Rattle.std.specs.Prelude.{◌≡◌, ◌++◌, [], ℕ, true, false, IfOk, OnOk};
ghost use Rattle.std.specs.Str.{chars};
ghost use Rattle.es_by_number.specs.Numbered.{numbered};
ghost use Rattle.es_grouped.specs.Groups.{group, having};
ghost use Rattle.es_steps.specs.KeptNodes.{all_pairs_stand, pair_stands};
ghost use Rattle.es_lowered.specs.Timely as spec;
ghost use Rattle.es_marks.specs.Around.{held_part, held_parts, later_functions, running_classes};
ghost use Rattle.es_marks.specs.InTime.{is_early_by, is_running};
ghost use Rattle.es_marks.specs.Located.{located, located_mark, located_of};
ghost use Rattle.es_marks.specs.Marks.{form_in, mark_of, marks_of};
ghost use Rattle.es_marks.specs.Named.{any_behind, any_front, declares_name, skips_name, stands_among, with_number, with_numbers};

use crate::around::{HeldPart, LaterFunction, RunningClass};
use crate::located::LocatedMark;
use crate::marks::{Mark, MarkForm, is_called_past, is_declaration, is_needed, is_use};
use es_base::ledger::GeneratedKind;
use es_base::strings::is_word;
use es_binding_faults::leasts::Leasts;
use es_by_number::numbered::Numbered;
use es_generated::ledger::Ledger;
use es_generated::spellings::spelling_number;
use es_grouped::Grouped;
use std::alloc::{AllocError, Global};

/// Whether each of these marks stands in time: no use of a name is in front of its `let`, or where that may not have run, and
/// what is followed has an initialization that it may rely on. Fails on allocation failure alone.
pub fn in_time(alloc: Global, ledger: &Ledger, marks: &[Mark]) -> Result<bool, AllocError>
    ensures { IfOk result (λ holds. holds ≡ spec.in_time ledger.now [] (marks_of marks.now)) }
{
    let spellings = spellings(alloc, marks)?;
    let named = by_spelling(alloc, &spellings, marks)?;
    for (i, mark) in marks.iter().enumerate() {
        let others = named.get(spelling_number(mark.name, &spellings));
        if !stands_among(ledger, i, mark, others) {
            return Ok(false);
        }
    }
    Ok(true)
}

/// Whether the mark at this place stands in time: among the others are those of its name that are no uses.
fn stands_among(ledger: &Ledger, place: usize, mark: &Mark, others: &[LocatedMark]) -> bool
    ensures { result ≡ stands_among ledger.now place (mark_of mark.now) (located_of others.now) }
{
    if is_early(ledger, mark) || is_dead(place, mark, others) || is_skipped(place, mark, others) {
        return false;
    }
    !asks(ledger, mark)
        || is_given_in_front(place, mark, others)
        || is_given_behind(place, mark, others)
}

// ---- by their names

/// A number for the name of each of these marks that is no use. Fails on allocation failure alone.
fn spellings<'a>(alloc: Global, marks: &[Mark<'a>]) -> Result<Leasts<'a>, AllocError> {
    let mut spellings = Leasts::new(alloc);
    let mut next: u32 = 0;
    for mark in marks {
        if !is_use(mark.form) {
            spellings.add(mark.name, next)?;
            next = next.saturating_add(1);
        }
    }
    Ok(spellings)
}

fn by_spelling<'m, 'a>(
    alloc: Global,
    spellings: &Leasts,
    marks: &'m [Mark<'a>],
) -> Result<Grouped<LocatedMark<'m, 'a>>, AllocError>
    ensures { IfOk result (λ g. (n : ℕ) → located_of (group n g) ≡ having n (with_numbers spellings.now (located 0 (marks_of marks.now)))) }
{
    let items = with_numbers(alloc, spellings, marks)?;
    Grouped::of(alloc, items)
}

/// These marks with their places, each that is no use with the number of its spelling. Fails on allocation failure alone.
fn with_numbers<'m, 'a>(
    alloc: Global,
    spellings: &Leasts,
    marks: &'m [Mark<'a>],
) -> Result<Vec<Numbered<LocatedMark<'m, 'a>>>, AllocError>
    ensures { IfOk result (λ r. numbered located_mark r.items ≡ with_numbers spellings.now (located 0 (marks_of marks.now))) }
{
    let mut items = Vec::new(alloc);
    for (place, mark) in marks.iter().enumerate() {
        add_with_number(spellings, LocatedMark { place, mark }, &mut items)?;
    }
    Ok(items)
}

fn add_with_number<'m, 'a>(
    spellings: &Leasts,
    located: LocatedMark<'m, 'a>,
    items: &mut Vec<Numbered<LocatedMark<'m, 'a>>>,
) -> Result<(), AllocError>
    ensures { OnOk result (numbered located_mark items.new.items ≡ numbered located_mark items.old.items ++ with_number spellings.now (located_mark located.entry)) }
{
    if !is_use(located.mark.form) {
        items.push(Numbered {
            number: spelling_number(located.mark.name, spellings),
            value: located,
        })?;
    }
    Ok(())
}

// ---- functions around

/// Whether the function is one of these.
pub fn is_around(function: u32, functions: &[LaterFunction]) -> bool
    ensures { result ≡ spec.is_around function (later_functions functions.now) }
{
    for other in functions {
        if function == other.node {
            return true;
        }
    }
    false
}

/// Whether a function is around the one place that is not around the other.
fn is_later(here: &[LaterFunction], there: &[LaterFunction]) -> bool
    ensures { result ≡ spec.is_later (later_functions here.now) (later_functions there.now) }
{
    for function in here {
        if !is_around(function.node, there) {
            return true;
        }
    }
    false
}

/// Whether the outermost such function is one that may be called in front of where it stands.
#[tactic(auto, using(crate::proofs::InTime::early_more))]
fn is_called_early(here: &[LaterFunction], there: &[LaterFunction]) -> bool
    ensures { result ≡ spec.is_called_early (later_functions here.now) (later_functions there.now) }
{
    for (i, function) in here.iter().enumerate() {
        if !is_later(&here[i + 1..], there) {
            return !is_around(function.node, there) && function.is_early;
        }
    }
    false
}

// ---- parts around

/// Whether the part is one of these.
fn is_held_among(part: HeldPart, parts: &[HeldPart]) -> bool
    ensures { result ≡ pair_stands (held_part part) (held_parts parts.now) }
{
    for other in parts {
        if part.node == other.node && part.part == other.part {
            return true;
        }
    }
    false
}

/// Whether each of these parts is among the others.
pub fn all_held(parts: &[HeldPart], others: &[HeldPart]) -> bool
    ensures { result ≡ all_pairs_stand (held_parts parts.now) (held_parts others.now) }
{
    for part in parts {
        if !is_held_among(*part, others) {
            return false;
        }
    }
    true
}

// ---- what gives a name

/// Whether an initialization of this form, in front of the mark or not, gives the mark its name: the mark may run later, or
/// be called early.
fn gives_by(form: MarkForm, in_front: bool, later: bool, early: bool) -> bool
    ensures { result ≡ spec.gives_by (form_in form) in_front later early }
{
    match form {
        MarkForm::Initializes => (in_front || later) && !early,
        MarkForm::Hoists => true,
        _ => false,
    }
}

fn gives_in_time(in_front: bool, mark: &Mark, other: &Mark) -> bool
    ensures { result ≡ spec.gives_in_time in_front (mark_of mark.now) (mark_of other.now) }
{
    let here = mark.around.later.as_slice();
    let there = other.around.later.as_slice();
    let later = !is_needed(mark.form) && is_later(here, there);
    let early = is_called_early(here, there);
    is_word(other.name, mark.name)
        && all_held(other.around.held.as_slice(), mark.around.held.as_slice())
        && gives_by(other.form, in_front, later, early)
}

/// Whether one of these in front of this place gives the mark its name.
fn is_given_in_front(place: usize, mark: &Mark, others: &[LocatedMark]) -> bool
    ensures { result ≡ any_front (spec.gives_in_time true (mark_of mark.now)) place (located_of others.now) }
{
    for other in others {
        if other.place < place && gives_in_time(true, mark, other.mark) {
            return true;
        }
    }
    false
}

/// Whether one of these behind this place does.
fn is_given_behind(place: usize, mark: &Mark, others: &[LocatedMark]) -> bool
    ensures { result ≡ any_behind (spec.gives_in_time false (mark_of mark.now)) place (located_of others.now) }
{
    for other in others {
        if place < other.place && gives_in_time(false, mark, other.mark) {
            return true;
        }
    }
    false
}

// ---- what is not there

/// Whether a `let` of the name stands behind.
fn is_dead(place: usize, mark: &Mark, others: &[LocatedMark]) -> bool
    ensures { result ≡ any_behind (declares_name (mark_of mark.now)) place (located_of others.now) }
{
    for other in others {
        if place < other.place && declares_name(mark, other.mark) {
            return true;
        }
    }
    false
}

fn declares_name(mark: &Mark, other: &Mark) -> bool
    ensures { result ≡ declares_name (mark_of mark.now) (mark_of other.now) }
{
    is_word(other.name, mark.name) && is_declaration(other.form)
}

/// Whether a `let` of the name that may not have run stands in front, or one in front of which the function around the mark may
/// be called.
fn is_skipped(place: usize, mark: &Mark, others: &[LocatedMark]) -> bool
    ensures { result ≡ any_front (skips_name (mark_of mark.now)) place (located_of others.now) }
{
    for other in others {
        if other.place < place && skips_name(mark, other.mark) {
            return true;
        }
    }
    false
}

fn skips_name(mark: &Mark, other: &Mark) -> bool
    ensures { result ≡ skips_name (mark_of mark.now) (mark_of other.now) }
{
    is_word(other.name, mark.name) && is_skipped_by(mark, other)
}

/// Whether the other is a `let` that may not have run, or in front of which the function around the mark may be called.
fn is_skipped_by(mark: &Mark, other: &Mark) -> bool
    ensures { result ≡ spec.is_skipped_by (mark_of mark.now) (mark_of other.now) }
{
    let may_not_run = is_declaration(other.form)
        && !all_held(other.around.held.as_slice(), mark.around.held.as_slice());
    may_not_run
        || (is_called_past(other.form)
            && is_called_early(
                mark.around.called.as_slice(),
                other.around.called.as_slice(),
            ))
}

// ---- what is asked

/// Whether names of this kind are followed.
fn is_followed(kind: Option<GeneratedKind>) -> bool
    ensures { result ≡ spec.is_followed kind }
{
    !matches!(
        kind,
        Some(GeneratedKind::Temp | GeneratedKind::Param | GeneratedKind::Args)
    )
}

/// Whether the name is one of this class that is not its own, in the body of it that runs with it.
fn is_running(class: u32, name: &str, running: &[RunningClass]) -> bool
    ensures { result ≡ is_running class (chars name.now) (running_classes running.now) }
{
    for other in running {
        if class == other.node && !is_word(other.name, name) {
            return true;
        }
    }
    false
}

fn is_early_by(running: &[RunningClass], name: &str, kind: Option<GeneratedKind>) -> bool
    ensures { result ≡ is_early_by (running_classes running.now) (chars name.now) kind }
{
    match kind {
        Some(GeneratedKind::ClassTemp(class)) => is_running(class.0, name, running),
        _ => false,
    }
}

/// Whether the mark is a use of a name of a class where that is not given yet.
#[tactic(auto, using(crate::proofs::InTime::early_by))]
fn is_early(ledger: &Ledger, mark: &Mark) -> bool
    ensures { result ≡ spec.is_early ledger.now (mark_of mark.now) }
{
    is_use(mark.form)
        && is_early_by(
            mark.around.running.as_slice(),
            mark.name,
            ledger.generated_as(mark.name),
        )
}

/// Whether the mark is a use of a name that is followed.
fn asks(ledger: &Ledger, mark: &Mark) -> bool
    ensures { result ≡ spec.asks ledger.now (mark_of mark.now) }
{
    is_use(mark.form) && is_followed(ledger.generated_as(mark.name))
}
