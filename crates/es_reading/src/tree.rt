// Reading a value as a program.

ghost use Rattle.std.specs.Prelude.{◌≡◌, ◌+◌, ◌<◌, ◌≤◌, ◌^◌, IfOk, IfErr, Ok, true};
ghost use Rattle.es_base.specs.Conforms.{conforms};
ghost use Rattle.es_base.specs.Preorder.{nodes, numbered_from};
ghost use Rattle.es_base.specs.declared.table.Place.{Place};
ghost use Rattle.es_reading.specs.declared.numbers.Numbers.{Numbers};
ghost use Rattle.es_reading.specs.Reading.{read, root};
ghost use Rattle.es_reading.specs.Told.{Tells, ids, values};
ghost use Rattle.borrowed_json.specs.View.{view};

use crate::fault::ReadError;
use crate::numbers::Numbers;
use crate::read::{Reader, read_node};
use crate::spot::Spot;
use borrowed_json::value::Value;
use es_base::ids::NodeId;
use es_base::list::List;
use es_base::table::Place;
use es_node::node::Node;
use std::alloc::Global;

/// The tree of a program, and the numbers of its nodes that have a member of TypeScript, JSX or import
/// attributes, in preorder. (ESTree, off the table of kinds; docs/JSON.md)
///
/// Where the value is no tree, the first fault in preorder; beside that it fails on allocation failure
/// alone. The value holds fewer than 2^32 - 1 values, itself and those at every depth counted.
pub fn read_tree(
    alloc: Global,
    value: &Value<'_>,
    numbers: Numbers,
) -> Result<(Node, List<NodeId>), ReadError>
    requires { values (view value.now) + 1 < 2 ^ 32 }
    ensures ok { IfOk result (λ r. read numbers (view value.now) root 0 ≡ Ok (record { value = r.0; foreign = ids r.1 })) }
    ensures conforms { IfOk result (λ r. conforms Place.Program r.0 ≡ true) }
    ensures preorder { IfOk result (λ r. numbers ≡ Numbers.Preorder → r.0 ≡ numbered_from 0 r.0) }
    ensures few { IfOk result (λ r. nodes r.0 ≤ values (view value.now)) }
    ensures err { IfErr result (λ e. Tells e (read numbers (view value.now) root 0)) }
{
    let reader = Reader { alloc, numbers };
    let root = Spot {
        place: Place::Program,
        last: true,
        sourced: false,
    };
    let mut foreign = List::new(alloc);
    let (tree, _next) = read_node(reader, value, root, 0, &mut foreign)?;
    Ok((tree, foreign))
}
