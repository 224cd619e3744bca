// Generated names are declared and given values in front of where they are used.

ghost use Rattle.std.specs.Prelude.{◌≡◌, IfOk};
ghost use Rattle.es_binding_faults.specs.Seen.{seen};
ghost use Rattle.es_seen_names.specs.PrivateMembers.{private_members_of};
ghost use Rattle.es_lowered.specs.Timely as spec;
ghost use Rattle.es_marks.specs.Marks.{marks_of};
ghost use Rattle.es_owed_timely.specs.Functions.{called_marks};
ghost use Rattle.es_owed_timely.specs.InTime.{are_in_time};

use crate::functions::{SuperFunctions, declared_methods, with_super};
use crate::needed::needed_by_class;
use crate::search::Asked;
use crate::terms::Search;
use crate::walk::add_marks;
use es_generated::ledger::Ledger;
use es_marks::around::Around;
use es_marks::in_time::in_time;
use es_marks::marks::Mark;
use es_marks::method_functions::{HeldFunctions, with_class};
use es_marks::needing::{NeedingNames, spellings};
use es_marks_around::leading::leading_lets;
use es_node::node::Node;
use es_owed::listed::Listed;
use es_seen_names::private_member::PrivateMember;
use std::alloc::{AllocError, Global};

/// Whether each use of a generated name, but of a temporary or a parameter, stands behind what gives the name its value, and no
/// use of one in front of its `let`; the members are those of the source. Fails on allocation failure alone.
pub fn names_timely(
    alloc: Global,
    first: u32,
    ledger: &Ledger,
    members: &[PrivateMember],
    lowered: &Listed,
) -> Result<bool, AllocError>
    ensures { IfOk result (λ holds. holds ≡ spec.names_timely first ledger.now (private_members_of members.now) lowered.now.program.now) }
{
    let leading = leading_lets(alloc, lowered.nodes.as_slice())?;
    let entries = ledger.entries();
    let needed = needed_by_class(alloc, members, &*entries)?;
    let search = Search {
        first,
        ledger,
        members,
        asked: Asked::Generated(ledger),
        leading: leading.as_slice(),
        needed,
    };
    are_in_time(alloc, &search, lowered)
}

/// Whether the marks that this search finds in the lowered program stand in time. Fails on allocation failure alone.
fn are_in_time<'a>(
    alloc: Global,
    search: &Search<'_, 'a>,
    lowered: &Listed<'a>,
) -> Result<bool, AllocError>
    ensures { IfOk result (λ holds. holds ≡ are_in_time search.now lowered.now.program.now) }
{
    let mut marks = Vec::new(alloc);
    add_marks(
        alloc,
        search,
        &Around::nowhere(),
        None,
        lowered.program,
        &mut marks,
    )?;
    let called = called_marks(alloc, search, lowered.nodes.as_slice(), marks.as_slice())?;
    in_time(alloc, search.ledger, called.as_slice())
}

/// These marks as they count where functions of private methods and for `super(..)` are called by their classes alone; the nodes
/// are those of the lowered program. Fails on allocation failure alone.
fn called_marks<'a>(
    alloc: Global,
    search: &Search<'_, 'a>,
    nodes: &[&'a Node],
    marks: &[Mark<'a>],
) -> Result<Vec<Mark<'a>>, AllocError>
    ensures { IfOk result (λ r. marks_of r.items ≡ called_marks search.now.ledger.now (private_members_of search.now.members.now) (spec.declared_methods search.now.ledger.now (seen nodes.now)) (spec.super_functions search.now.ledger.now (seen nodes.now)) (marks_of marks.now) (marks_of marks.now)) }
{
    let methods = declared_methods(alloc, search.ledger, nodes)?;
    let spellings = spellings(alloc, marks)?;
    let needing = NeedingNames::of(alloc, &spellings, marks)?;
    let functions = HeldFunctions::of(alloc, methods.as_slice(), &needing)?;
    let supers = SuperFunctions::of(alloc, search.ledger, nodes)?;
    let mut called = Vec::new(alloc);
    for mark in marks {
        let held = with_class(alloc, &functions, mark)?;
        called.push(with_super(search, &supers, held))?;
    }
    Ok(called)
}
