// The marks of classes and of references.

ghost use Rattle.std.specs.Prelude.{◌≡◌, ◌∷◌, [], IfOk, None};
ghost use Rattle.es_lowered.specs.Timely.{nowhere};
ghost use Rattle.es_marks.specs.Marks.{marks_of};
ghost use Rattle.es_owed_timely.specs.Search as found;
ghost use Rattle.es_owed_class_names.specs.NodeMarks.{node_marks, stand_among};

use crate::lists::is_none;
use crate::located::NodeMarks;
use es_generated::ledger::Ledger;
use es_grouped::Grouped;
use es_marks::around::Around;
use es_marks::marks::Mark;
use es_node::node::Node;
use es_owed_initialized::numbers::add_numbers;
use es_owed_timely::search::Asked;
use es_owed_timely::terms::Search;
use es_owed_timely::walk::add_marks;
use std::alloc::{AllocError, Global};

/// The marks of the references and classes of a source, and of what it was lowered to.
#[derive(Drop)]
pub struct ProgramMarks<'a> {
    pub source: Vec<Mark<'a>>,
    pub lowered: Vec<Mark<'a>>,
}

impl<'a> ProgramMarks<'a> {
    /// Those of these programs. Fails on allocation failure alone.
    pub fn of(
        alloc: Global,
        first: u32,
        source: &'a Node,
        lowered: &'a Node,
    ) -> Result<ProgramMarks<'a>, AllocError>
        ensures source { IfOk result (λ m. marks_of m.source.items ≡ node_marks first source.now) }
        ensures lowered { IfOk result (λ m. marks_of m.lowered.items ≡ node_marks first lowered.now) }
    {
        let source = node_marks(alloc, first, source)?;
        let lowered = node_marks(alloc, first, lowered)?;
        Ok(ProgramMarks { source, lowered })
    }
}

/// Whether these references, if any, stand behind the class, these being the marks of a program. Fails on allocation failure
/// alone.
pub fn stand_in_time(
    alloc: Global,
    marks: &NodeMarks,
    class: u32,
    names: &[u32],
) -> Result<bool, AllocError>
    ensures { IfOk result (λ holds. holds ≡ stand_among (marks_of marks.now.marks.now) class names.now) }
{
    if is_none(names) {
        return Ok(true);
    }
    let asked = with_class(alloc, class, names)?;
    marks.stand_behind(alloc, asked.as_slice())
}

/// The number of the class with these. Fails on allocation failure alone.
pub fn with_class(alloc: Global, class: u32, numbers: &[u32]) -> Result<Vec<u32>, AllocError>
    ensures { IfOk result (λ r. r.items ≡ class ∷ numbers.now) }
{
    let mut all = Vec::new(alloc);
    all.push(class)?;
    add_numbers(numbers, &mut all)?;
    Ok(all)
}

/// The marks of the references and classes of a program. Fails on allocation failure alone.
fn node_marks<'a>(alloc: Global, first: u32, program: &'a Node) -> Result<Vec<Mark<'a>>, AllocError>
    ensures { IfOk result (λ r. marks_of r.items ≡ node_marks first program.now) }
{
    let ledger = Ledger::new(alloc);
    marks_under(alloc, first, &ledger, program)
}

/// The same under a ledger without names. Fails on allocation failure alone.
fn marks_under<'a>(
    alloc: Global,
    first: u32,
    ledger: &Ledger,
    program: &'a Node,
) -> Result<Vec<Mark<'a>>, AllocError>
    requires { ledger.now ≡ [] }
    ensures { IfOk result (λ r. marks_of r.items ≡ node_marks first program.now) }
{
    let search = Search {
        first,
        ledger,
        members: &[],
        asked: Asked::AnyNode,
        leading: &[],
        needed: Grouped::new(alloc),
    };
    marks_found(alloc, &search, program)
}

/// The marks that this search finds in a program. Fails on allocation failure alone.
fn marks_found<'a>(
    alloc: Global,
    search: &Search<'_, 'a>,
    program: &'a Node,
) -> Result<Vec<Mark<'a>>, AllocError>
    ensures { IfOk result (λ r. marks_of r.items ≡ found.marks search.now nowhere None program.now) }
{
    let mut marks = Vec::new(alloc);
    add_marks(alloc, search, &Around::nowhere(), None, program, &mut marks)?;
    Ok(marks)
}
