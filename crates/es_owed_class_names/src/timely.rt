// The names of each class are read behind it, or in its elements.
//
// Each class takes time in proportion to its own nodes and the references to it, but that where a name of it stands in a function of a
// generated name that is called, all such functions are gone over.

ghost use Rattle.std.specs.Prelude.{◌≡◌, ◌&&◌, true, IfOk};
ghost use Rattle.es_base.specs.Preorder.{preorder};
ghost use Rattle.es_lowered.specs.ClassNames as spec;
ghost use Rattle.es_owed_class_names.specs.Asked.{read_in_time};
ghost use Rattle.es_owed_references.specs.Moved.{functions_of, names_of};
ghost use Rattle.es_steps.specs.References.{has_number};

use crate::asked::{asked_names, asked_references, functions_outside};
use crate::inside::{class_runs, numbers_inside};
use crate::lists::{is_none, without};
use crate::lowering::Lowering;
use crate::marked::{ProgramMarks, stand_in_time};
use crate::new_names::new_names_fit;
use es_generated::ledger::Ledger;
use es_owed::listed::Listed;
use es_owed_references::moved::{MovedFunction, names_holding};
use es_owed_references::numbers::{any_among, set_of};
use std::alloc::{AllocError, Global};

/// Whether in what a source was lowered to the names of each of its classes, those that the lowering gave it too, are read behind
/// the class or in its elements, and by no function that may be called before: but for those that stand where they may stand in
/// the source. Fails on allocation failure alone.
pub fn classes_timely<'r, 'a>(
    alloc: Global,
    first: u32,
    ledger: &'r Ledger<'r>,
    source: &'r Listed<'a>,
    lowered: &'r Listed<'a>,
) -> Result<bool, AllocError>
    ensures { IfOk result (λ holds. holds ≡ spec.classes_timely first ledger.now source.now.program.now lowered.now.program.now) }
{
    let marks = ProgramMarks::of(alloc, first, source.program, lowered.program)?;
    let lowering = Lowering::of(alloc, first, ledger, source, lowered, &marks)?;
    all_classes_timely(alloc, &lowering)
}

fn all_classes_timely(alloc: Global, lowering: &Lowering) -> Result<bool, AllocError>
    ensures { IfOk result (λ holds. holds ≡ spec.all_classes_timely lowering.now.first lowering.now.reads.ledger.now lowering.now.source.now.program.now lowering.now.lowered.now.program.now lowering.now.classes.items) }
{
    for class in lowering.classes.as_slice() {
        if !class_timely(alloc, lowering, *class)? {
            return Ok(false);
        }
    }
    Ok(true)
}

/// The same of one class. Fails on allocation failure alone.
fn class_timely(alloc: Global, lowering: &Lowering, class: u32) -> Result<bool, AllocError>
    requires { has_number class lowering.now.classes.items ≡ true }
    ensures { IfOk result (λ holds. holds ≡ spec.class_timely lowering.now.first lowering.now.reads.ledger.now lowering.now.source.now.program.now lowering.now.lowered.now.program.now class) }
{
    let in_source = lowering.source_names.get(class);
    let names = asked_names(alloc, lowering, class, in_source)?;
    let new = without(alloc, in_source, names.as_slice())?;
    if !new_names_fit(alloc, lowering, class, new.as_slice())? {
        return Ok(false);
    }
    are_read_in_time(alloc, lowering, class, names.as_slice())
}

/// Whether these names of the class, and the functions that read them, are read behind the class or in its elements. Fails on
/// allocation failure alone.
fn are_read_in_time(
    alloc: Global,
    lowering: &Lowering,
    class: u32,
    names: &[u32],
) -> Result<bool, AllocError>
    ensures { IfOk result (λ holds. holds ≡ read_in_time lowering.now.first lowering.now.reads.ledger.now lowering.now.lowered.now.program.now class names.now) }
{
    if is_none(names) {
        return Ok(true);
    }
    if !any_among(&lowering.held, names) {
        return names_in_time(alloc, lowering, class, names);
    }
    let functions = functions_outside(alloc, lowering, class)?;
    if is_read_early(alloc, lowering, class, functions.as_slice(), names)? {
        return Ok(false);
    }
    let asked = asked_references(alloc, lowering, class, functions.as_slice(), names)?;
    stand_in_time(alloc, &lowering.marks, class, asked.as_slice())
}

/// Whether these names of the class, but those in its elements, stand behind it. Fails on allocation failure alone.
fn names_in_time(
    alloc: Global,
    lowering: &Lowering,
    class: u32,
    names: &[u32],
) -> Result<bool, AllocError>
    ensures { IfOk result (λ holds. holds ≡ spec.stand_in_time lowering.now.first lowering.now.lowered.now.program.now class (spec.without (spec.numbers_inside class (preorder lowering.now.lowered.now.program.now)) names.now)) }
{
    let inside = numbers_inside(alloc, class, lowering.lowered)?;
    let asked = without(alloc, inside.as_slice(), names)?;
    stand_in_time(alloc, &lowering.marks, class, asked.as_slice())
}

/// Whether elements run with the class, which may call one of these functions that reads one of these names. Fails on allocation
/// failure alone.
fn is_read_early(
    alloc: Global,
    lowering: &Lowering,
    class: u32,
    functions: &[MovedFunction],
    names: &[u32],
) -> Result<bool, AllocError>
    ensures { IfOk result (λ early. early ≡ (spec.class_runs class (preorder lowering.now.lowered.now.program.now) && spec.any_name (spec.names_holding names.now (functions_of functions.now)))) }
{
    if !class_runs(class, lowering.lowered) {
        return Ok(false);
    }
    let held = set_of(alloc, names)?;
    let holding = names_holding(alloc, &held, functions)?;
    Ok(any_name(holding.as_slice()))
}

fn any_name(names: &[&str]) -> bool
    ensures { result ≡ spec.any_name (names_of names.now) }
{
    !matches!(names, [])
}
