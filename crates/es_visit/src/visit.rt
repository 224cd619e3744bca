// A walk that reads a tree, with hooks by the place and the kind of a node.

ghost use Rattle.std.specs.Prelude.{◌≡◌, List, ◌∷◌, Bool};
ghost use Rattle.es_base.specs.Tree.{Tree, trees, nullable, nullable_trees};
ghost use Rattle.es_node.specs.View.{kind_of, part_of, parts_of};
ghost use Rattle.es_visit.specs.Reading.{Hook, Entry, entry, chosen, hooks_of_kind, hooks_of, stands_as_expression, entered, reading, reading_below, reading_part, reading_items};
ghost use Rattle.es_visit.specs.Reading as hook;

use crate::roles::{Role, is_computed, role_at};
use es_base::kind::Kind;
use es_base::table::{Place, fits};
use es_node::node::{Node, Part};

/// Hooks that a walk calls as it enters a node. Each answers whether the walk goes into it.
///
/// An impl says by `goes` what its hooks answer, and by `leads` what they do to it: that from one state
/// these entries, in this order, may lead to another. From that it gets what a whole walk does
/// (`walk_node`), with no induction of its own. A hook has no default body, since only the impl knows what
/// it answers.
pub trait Visit {
    /// Whether a hook has the walk go into a node.
    ghost goes: { Hook → Tree → Bool };

    /// These entries may lead from the first state to the second.
    ghost leads: { Self → List Entry → Self → Type 0 };

    /// Called at a node that stands as an expression, before the hook of its kind.
    fn visit_expression(&mut self, node: &Node) -> bool
        ensures goes { result ≡ goes hook.Expression node.now }
        ensures leads { (rest : List Entry) (end : Self) → leads self.new rest end → leads self.old (entry hook.Expression node.now ∷ rest) end };

    /// Called at a class.
    fn visit_class(&mut self, node: &Node) -> bool
        ensures goes { result ≡ goes hook.Class node.now }
        ensures leads { (rest : List Entry) (end : Self) → leads self.new rest end → leads self.old (entry hook.Class node.now ∷ rest) end };

    /// Called at a function that is no arrow.
    fn visit_function(&mut self, node: &Node) -> bool
        ensures goes { result ≡ goes hook.Function node.now }
        ensures leads { (rest : List Entry) (end : Self) → leads self.new rest end → leads self.old (entry hook.Function node.now ∷ rest) end };

    /// Called at an arrow function.
    fn visit_arrow(&mut self, node: &Node) -> bool
        ensures goes { result ≡ goes hook.Arrow node.now }
        ensures leads { (rest : List Entry) (end : Self) → leads self.new rest end → leads self.old (entry hook.Arrow node.now ∷ rest) end };

    /// Called at an identifier that is read or written.
    fn visit_identifier_reference(&mut self, node: &Node) -> bool
        ensures goes { result ≡ goes hook.IdentifierReference node.now }
        ensures leads { (rest : List Entry) (end : Self) → leads self.new rest end → leads self.old (entry hook.IdentifierReference node.now ∷ rest) end };

    /// Called at an `await` expression.
    fn visit_await(&mut self, node: &Node) -> bool
        ensures goes { result ≡ goes hook.Await node.now }
        ensures leads { (rest : List Entry) (end : Self) → leads self.new rest end → leads self.old (entry hook.Await node.now ∷ rest) end };

    /// Called at a `yield` expression.
    fn visit_yield(&mut self, node: &Node) -> bool
        ensures goes { result ≡ goes hook.Yield node.now }
        ensures leads { (rest : List Entry) (end : Self) → leads self.new rest end → leads self.old (entry hook.Yield node.now ∷ rest) end };
}

/// Whether a node of this kind stands as an expression.
pub fn stands_as_expression(role: Role, kind: Kind) -> bool
    ensures { result ≡ stands_as_expression role kind }
{
    match role {
        Role::Expression => fits(Place::Expression, kind),
        Role::Statement | Role::Target | Role::Other => false,
    }
}

/// Calls the hook of a node's kind; answers whether the walk goes into it.
fn enter_by_kind<V: Visit>(visitor: &mut V, node: &Node) -> bool
    ensures { (below rest : List Entry) (end : V) → V.leads visitor.new (chosen result below rest) end → V.leads visitor.old (entered V.goes (hooks_of_kind (kind_of node.now)) node.now below rest) end }
{
    match node.kind() {
        Kind::ClassDeclaration | Kind::ClassExpression => visitor.visit_class(node),
        Kind::FunctionDeclaration | Kind::FunctionExpression => visitor.visit_function(node),
        Kind::ArrowFunctionExpression => visitor.visit_arrow(node),
        Kind::IdentifierReference => visitor.visit_identifier_reference(node),
        Kind::AwaitExpression => visitor.visit_await(node),
        Kind::YieldExpression => visitor.visit_yield(node),
        _ => true,
    }
}

/// Calls the hooks of a node in this role; answers whether the walk goes into it.
fn enter<V: Visit>(visitor: &mut V, role: Role, node: &Node) -> bool
    ensures { (below rest : List Entry) (end : V) → V.leads visitor.new (chosen result below rest) end → V.leads visitor.old (entered V.goes (hooks_of role (kind_of node.now)) node.now below rest) end }
{
    if stands_as_expression(role, node.kind()) && !visitor.visit_expression(node) {
        return false;
    }
    enter_by_kind(visitor, node)
}

/// Walks a node that stands in this role, and what is below it: calls the hooks of each node that it
/// enters, the hook of its place first, and goes into a node where all of them answer true. Allocates
/// nothing.
#[cycle(walk)]
pub fn walk_node<V: Visit>(visitor: &mut V, role: Role, node: &Node)
    ensures { (rest : List Entry) (end : V) → V.leads visitor.new rest end → V.leads visitor.old (reading V.goes role node.now rest) end }
{
    if enter(visitor, role, node) {
        let parts = node.parts();
        walk_parts(visitor, node.kind(), is_computed(node.kind(), parts), parts);
    }
}

/// Walks the parts of a node of this kind, whose key is computed or not.
#[cycle(walk)]
fn walk_parts<V: Visit>(visitor: &mut V, kind: Kind, computed: bool, parts: &[Part])
    ensures { (rest : List Entry) (end : V) → V.leads visitor.new rest end → V.leads visitor.old (reading_below V.goes kind computed 0 (parts_of parts.now) rest) end }
{
    for i in 0..parts.len() {
        walk_part(visitor, role_at(kind, computed, i), &parts[i]);
    }
}

#[cycle(walk)]
fn walk_part<V: Visit>(visitor: &mut V, role: Role, part: &Part)
    ensures { (rest : List Entry) (end : V) → V.leads visitor.new rest end → V.leads visitor.old (reading_part V.goes role (part_of part.now) rest) end }
{
    match part {
        Part::Child(node) => walk_node(visitor, role, node),
        Part::List(nodes) => walk_nodes(visitor, role, nodes.as_slice()),
        Part::Holes(nodes) => walk_nodes_or_holes(visitor, role, nodes.as_slice()),
        _ => {}
    }
}

/// Walks nodes that stand in this role, one after the other.
#[cycle(walk)]
pub fn walk_nodes<V: Visit>(visitor: &mut V, role: Role, nodes: &[Node])
    ensures { (rest : List Entry) (end : V) → V.leads visitor.new rest end → V.leads visitor.old (reading_items V.goes role (trees nodes.now) rest) end }
{
    for node in nodes {
        walk_node(visitor, role, node);
    }
}

#[cycle(walk)]
fn walk_nodes_or_holes<V: Visit>(visitor: &mut V, role: Role, nodes: &[Option<Node>])
    ensures { (rest : List Entry) (end : V) → V.leads visitor.new rest end → V.leads visitor.old (reading_items V.goes role (nullable_trees nodes.now) rest) end }
{
    for node in nodes {
        walk_node_or_hole(visitor, role, node);
    }
}

#[cycle(walk)]
fn walk_node_or_hole<V: Visit>(visitor: &mut V, role: Role, node: &Option<Node>)
    ensures { (rest : List Entry) (end : V) → V.leads visitor.new rest end → V.leads visitor.old (reading_part V.goes role (nullable node.now) rest) end }
{
    match node {
        Some(node) => walk_node(visitor, role, node),
        None => {}
    }
}
