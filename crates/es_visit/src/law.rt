// The laws of visitors: functions that do nothing.

ghost use Rattle.es_visit.specs.Law.{EntriesLaw, NodesLaw};
ghost use Rattle.es_visit.specs.Order.{CallsLaw, EntersLaw, LeavesLaw, NestedLaw};

use crate::visit_mut::VisitMut;

/// A visitor that goes into every node meets each node once, in preorder, with the hook of its place and
/// then that of its kind.
pub fn visitors_meet_each_node_once()
    ensures entries { EntriesLaw }
    ensures nodes { NodesLaw }
{}

/// A visitor that changes nodes is called in the order of `meetings`, if its entering hooks answer by the
/// node alone: what is entered last is left first, and only what the walk goes into is left. If it goes into
/// every node, each is entered once, in preorder, by the hook of its place, by that of its kind and by its
/// scope, and left once, in postorder, by these in the other order.
pub fn changing_visitors_meet_each_node_once<V: VisitMut>()
    ensures calls { CallsLaw V.enters V.leaves V.scope_enters V.scope_leaves }
    ensures nested { NestedLaw }
    ensures entered { EntersLaw }
    ensures left { LeavesLaw }
    ensures nodes { NodesLaw }
{}
