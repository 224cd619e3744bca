// Names of a class that stand where they stood: in the functions of the source, and behind the class.

ghost use Rattle.std.specs.Prelude.{◌≡◌, ℕ, true, IfOk};
ghost use Rattle.std.specs.List.{list_all};
ghost use Rattle.es_grouped.specs.Groups.{group};
ghost use Rattle.es_lowered.specs.ClassNames as spec;
ghost use Rattle.es_marks.specs.Located.{located, located_of};
ghost use Rattle.es_marks.specs.Marks.{marks_of};
ghost use Rattle.es_owed_class_names.specs.KeptPlaces.{is_kept, kept, stands_named, stands_own};
ghost use Rattle.es_owed_class_names.specs.LocatedMarks.{is_behind_any};
ghost use Rattle.es_owed_places.specs.Placed.{reference_of, references_of};
ghost use Rattle.es_steps.specs.References.{has_number};

use crate::lists::add_if;
use crate::lowering::Lowering;
use crate::marked::with_class;
use es_grouped::Grouped;
use es_marks::located::LocatedMark;
use es_owed_places::placed::PlacedReference;
use es_owed_places::same_places::all_stand_where;
use std::alloc::{AllocError, Global};
use std::slice::from_ref;

/// The marks of a class, by which its names are held: in a source, and in what that was lowered to.
#[derive(Drop)]
struct ClassMarks<'f, 'r, 'a> {
    names: &'f [u32],
    there: Vec<LocatedMark<'r, 'a>>,
    found: Vec<LocatedMark<'r, 'a>>,
}

/// Those of these references, of these names of a class of the source, that stand where they stood. Fails on allocation failure
/// alone.
pub fn kept_places(
    alloc: Global,
    lowering: &Lowering,
    class: u32,
    names: &[u32],
    numbers: &[u32],
) -> Result<Vec<u32>, AllocError>
    requires { (m : ℕ) → has_number m numbers.now ≡ true → has_number m names.now ≡ true }
    ensures { IfOk result (λ r. r.items ≡ spec.kept_places lowering.now.first class lowering.now.source.now.program.now lowering.now.lowered.now.program.now names.now numbers.now) }
{
    let asked = with_class(alloc, class, names)?;
    let there = lowering.source_marks.class_marks(alloc, asked.as_slice())?;
    let found = lowering.marks.class_marks(alloc, asked.as_slice())?;
    let marks = ClassMarks {
        names,
        there,
        found,
    };
    kept_among(alloc, lowering, &marks, numbers)
}

fn kept_among(
    alloc: Global,
    lowering: &Lowering,
    marks: &ClassMarks,
    numbers: &[u32],
) -> Result<Vec<u32>, AllocError>
    ensures { IfOk result (λ r. r.items ≡ kept lowering.now.first marks.now.names.now (λ k. references_of (group k lowering.now.source_placed)) (λ k. references_of (group k lowering.now.placed)) (is_behind_any (located_of marks.now.there.items) (located 0 (marks_of lowering.now.source_marks.marks.now))) (is_behind_any (located_of marks.now.found.items) (located 0 (marks_of lowering.now.marks.marks.now))) numbers.now) }
{
    let mut kept = Vec::new(alloc);
    for number in numbers {
        add_if(is_kept(lowering, marks, *number), *number, &mut kept)?;
    }
    Ok(kept)
}

fn is_kept(lowering: &Lowering, marks: &ClassMarks, number: u32) -> bool
    ensures { result ≡ is_kept lowering.now.first marks.now.names.now (λ k. references_of (group k lowering.now.source_placed)) (λ k. references_of (group k lowering.now.placed)) (is_behind_any (located_of marks.now.there.items) (located 0 (marks_of lowering.now.source_marks.marks.now))) (is_behind_any (located_of marks.now.found.items) (located 0 (marks_of lowering.now.marks.marks.now))) number }
{
    let references = lowering.placed.get(number);
    stand_own(
        lowering.first,
        &lowering.source_placed,
        marks.names,
        references,
    ) && (!lowering
        .source_marks
        .is_late(marks.there.as_slice(), number)
        || lowering.marks.is_late(marks.found.as_slice(), number))
}

/// Whether each of these references stands in the functions in which one of these names does that has its number or, if it is
/// new, its name.
fn stand_own(
    first: u32,
    source: &Grouped<PlacedReference>,
    names: &[u32],
    references: &[PlacedReference],
) -> bool
    ensures { result ≡ list_all (stands_own first names.now (λ k. references_of (group k source.now))) (references_of references.now) }
{
    for reference in references {
        if !stands_own(first, source, names, reference) {
            return false;
        }
    }
    true
}

/// Whether the reference does: most do with that of their own number.
fn stands_own(
    first: u32,
    source: &Grouped<PlacedReference>,
    names: &[u32],
    reference: &PlacedReference,
) -> bool
    ensures { result ≡ stands_own first names.now (λ k. references_of (group k source.now)) (reference_of reference.now) }
{
    all_stand_where(first, from_ref(reference), source.get(reference.number))
        || stands_named(first, source, names, reference)
}

fn stands_named(
    first: u32,
    source: &Grouped<PlacedReference>,
    names: &[u32],
    reference: &PlacedReference,
) -> bool
    ensures { result ≡ stands_named first names.now (λ k. references_of (group k source.now)) (reference_of reference.now) }
{
    for name in names {
        if all_stand_where(first, from_ref(reference), source.get(*name)) {
            return true;
        }
    }
    false
}
