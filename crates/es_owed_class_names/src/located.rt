// The marks of references and classes of a program, with their places, by the numbers of these.

ghost use Rattle.std.specs.Prelude.{◌≡◌, ◌++◌, ◌&&◌, [], ℕ, filter, not, IfOk, OnOk};
ghost use Rattle.std.specs.List.{list_any};
ghost use Rattle.es_by_number.specs.Numbered.{numbered};
ghost use Rattle.es_grouped.specs.Groups.{group};
ghost use Rattle.es_lowered.specs.ClassNames as spec;
ghost use Rattle.es_marks.specs.Located.{located, located_mark, located_of};
ghost use Rattle.es_marks.specs.Marks.{form_in, marks_of};
ghost use Rattle.es_owed_class_names.specs.LocatedMarks.{class_front, class_marks, is_early, is_front, of_node, of_nodes, with_node, with_nodes};

use es_by_number::numbered::Numbered;
use es_grouped::Grouped;
use es_marks::in_time::all_held;
use es_marks::located::LocatedMark;
use es_marks::marks::{Mark, MarkForm};
use std::alloc::{AllocError, Global};

/// The marks of a program at references and classes, looked up by the numbers of these.
#[derive(Drop)]
pub struct NodeMarks<'m, 'a> {
    pub marks: &'m [Mark<'a>],
    pub by_node: Grouped<LocatedMark<'m, 'a>>,

    ghost are_its: { (k : ℕ) → located_of (group k by_node) ≡ of_node k (located 0 (marks_of marks.now)) },
}

impl<'m, 'a> NodeMarks<'m, 'a> {
    /// Those among these marks. Fails on allocation failure alone.
    pub fn of(alloc: Global, marks: &'m [Mark<'a>]) -> Result<NodeMarks<'m, 'a>, AllocError>
        ensures { IfOk result (λ r. marks_of r.marks.now ≡ marks_of marks.now) }
    {
        let by_node = by_node(alloc, marks)?;
        Ok(NodeMarks { marks, by_node })
    }

    /// Whether each mark of these nodes that is none of the class stands behind one that is. Fails on allocation failure alone.
    pub fn stand_behind(&self, alloc: Global, asked: &[u32]) -> Result<bool, AllocError>
        ensures { IfOk result (λ b. b ≡ spec.stand_behind [] (filter (λ m. spec.any_among asked.now m.node) (marks_of self.now.marks.now))) }
    {
        let fronts = self.class_marks(alloc, asked)?;
        Ok(!self.any_early(fronts.as_slice(), asked))
    }

    /// The marks of the nodes of this number.
    fn of_node(&self, number: u32) -> &[LocatedMark<'m, 'a>]
        ensures { located_of result.now ≡ of_node number (located 0 (marks_of self.now.marks.now)) }
    {
        self.by_node.get(number)
    }

    /// The marks of the class among those of these nodes. Fails on allocation failure alone.
    #[tactic(auto, using(crate::proofs::NodeMarks::class_more))]
    pub fn class_marks(
        &self,
        alloc: Global,
        asked: &[u32],
    ) -> Result<Vec<LocatedMark<'m, 'a>>, AllocError>
        ensures { IfOk result (λ r. located_of r.items ≡ class_marks (of_nodes asked.now (located 0 (marks_of self.now.marks.now)))) }
    {
        let mut found = Vec::new(alloc);
        for number in asked {
            add_class_marks(self.of_node(*number), &mut found)?;
        }
        Ok(found)
    }

    /// Whether a mark of one of these nodes is none of the class and stands behind none that is, these being those of the class.
    #[tactic(auto, using(crate::proofs::NodeMarks::any_more))]
    fn any_early(&self, fronts: &[LocatedMark], asked: &[u32]) -> bool
        ensures { result ≡ list_any (is_early (located_of fronts.now)) (of_nodes asked.now (located 0 (marks_of self.now.marks.now))) }
    {
        for number in asked {
            if any_early_among(fronts, self.of_node(*number)) {
                return true;
            }
        }
        false
    }

    /// Whether a mark of this node is none of the class, and stands behind one of these, which are those of the class.
    pub fn is_late(&self, fronts: &[LocatedMark], number: u32) -> bool
        ensures { result ≡ list_any (λ x. not (spec.is_class_mark x.1.form) && list_any (is_front x) (located_of fronts.now)) (of_node number (located 0 (marks_of self.now.marks.now))) }
    {
        any_late(fronts, self.of_node(number))
    }
}

// ---- by the numbers of nodes

fn by_node<'m, 'a>(
    alloc: Global,
    marks: &'m [Mark<'a>],
) -> Result<Grouped<LocatedMark<'m, 'a>>, AllocError>
    ensures { IfOk result (λ g. (k : ℕ) → located_of (group k g) ≡ of_node k (located 0 (marks_of marks.now))) }
{
    let items = with_nodes(alloc, marks)?;
    Grouped::of(alloc, items)
}

/// These marks with their places, each that is of a node with the number of that. Fails on allocation failure alone.
fn with_nodes<'m, 'a>(
    alloc: Global,
    marks: &'m [Mark<'a>],
) -> Result<Vec<Numbered<LocatedMark<'m, 'a>>>, AllocError>
    ensures { IfOk result (λ r. numbered located_mark r.items ≡ with_nodes (located 0 (marks_of marks.now))) }
{
    let mut items = Vec::new(alloc);
    for (place, mark) in marks.iter().enumerate() {
        add_with_node(LocatedMark { place, mark }, &mut items)?;
    }
    Ok(items)
}

fn add_with_node<'m, 'a>(
    located: LocatedMark<'m, 'a>,
    items: &mut Vec<Numbered<LocatedMark<'m, 'a>>>,
) -> Result<(), AllocError>
    ensures { OnOk result (numbered located_mark items.new.items ≡ numbered located_mark items.old.items ++ with_node (located_mark located.entry)) }
{
    if let Some(number) = located.mark.node {
        items.push(Numbered {
            number,
            value: located,
        })?;
    }
    Ok(())
}

// ---- marks of the class

/// Adds those of these marks that are of the class. Fails on allocation failure alone.
fn add_class_marks<'m, 'a>(
    marks: &[LocatedMark<'m, 'a>],
    found: &mut Vec<LocatedMark<'m, 'a>>,
) -> Result<(), AllocError>
    ensures { OnOk result (located_of found.new.items ≡ located_of found.old.items ++ class_marks (located_of marks.now)) }
{
    for mark in marks {
        add_if_of_class(*mark, found)?;
    }
    Ok(())
}

fn add_if_of_class<'m, 'a>(
    located: LocatedMark<'m, 'a>,
    found: &mut Vec<LocatedMark<'m, 'a>>,
) -> Result<(), AllocError>
    ensures { OnOk result (located_of found.new.items ≡ located_of found.old.items ++ class_front (located_mark located.entry)) }
{
    if is_class_mark(located.mark.form) {
        found.push(located)?;
    }
    Ok(())
}

/// Whether one of these marks is none of the class, and stands behind none of those that are.
fn any_early_among(fronts: &[LocatedMark], marks: &[LocatedMark]) -> bool
    ensures { result ≡ list_any (is_early (located_of fronts.now)) (located_of marks.now) }
{
    for mark in marks {
        if !is_class_mark(mark.mark.form) && !any_front(*mark, fronts) {
            return true;
        }
    }
    false
}

/// Whether one of these marks is none of the class, and stands behind one of those that are.
fn any_late(fronts: &[LocatedMark], marks: &[LocatedMark]) -> bool
    ensures { result ≡ list_any (λ x. not (spec.is_class_mark x.1.form) && list_any (is_front x) (located_of fronts.now)) (located_of marks.now) }
{
    for mark in marks {
        if !is_class_mark(mark.mark.form) && any_front(*mark, fronts) {
            return true;
        }
    }
    false
}

/// Whether one of these is a mark of the class in front of this one, and all that may run or not around it is around this, too.
fn any_front(mark: LocatedMark, fronts: &[LocatedMark]) -> bool
    ensures { result ≡ list_any (is_front (located_mark mark.entry)) (located_of fronts.now) }
{
    for front in fronts {
        if is_front(mark, *front) {
            return true;
        }
    }
    false
}

fn is_front(mark: LocatedMark, front: LocatedMark) -> bool
    ensures { result ≡ is_front (located_mark mark.entry) (located_mark front.entry) }
{
    front.place < mark.place
        && (is_class_mark(front.mark.form)
            && all_held(
                front.mark.around.held.as_slice(),
                mark.mark.around.held.as_slice(),
            ))
}

/// Whether it is a mark of the class: nothing else among marks of nodes gives a value.
fn is_class_mark(form: MarkForm) -> bool
    ensures { result ≡ spec.is_class_mark (form_in form) }
{
    matches!(form, MarkForm::Initializes)
}
