// Whether a node of a tree passes a test: one of all nodes, or of those outside functions.

ghost use Rattle.std.specs.Prelude.{◌≡◌, Bool};
ghost use Rattle.std.specs.List.{list_any};
ghost use Rattle.es_base.specs.Preorder.{preorder, preorder_of, preorder_of_part};
ghost use Rattle.es_base.specs.Tree.{Tree, Parts, trees, nullable, nullable_trees};
ghost use Rattle.es_base.specs.declared.kind.Kind.{Kind};
ghost use Rattle.es_node.specs.View.{kind_of, part_of, parts_in, parts_of};
ghost use Rattle.es_steps.specs.NameScopes as scopes;
ghost use Rattle.es_steps.specs.NameScopes.{holds, holds_at, holds_in};
ghost use Rattle.es_steps.specs.Shapes.{is_any_function};

use es_base::kind::Kind;
use es_node::node::{Node, Part};

/// A test of nodes.
pub trait NodeTest {
    ghost passes: { Self → Tree → Bool };

    /// Whether the node passes.
    fn passes(&self, node: &Node) -> bool
        ensures { result ≡ passes self.now node.now };
}

/// Whether the node or one below it passes. Each is tested once at most. Allocates nothing.
#[cycle(walk)]
#[tactic(auto, using(crate::proofs::AnyNode::preorder_node, es_node::proofs::Below::nodes_in))]
pub fn any_node<T: NodeTest>(test: &T, node: &Node) -> bool
    ensures { result ≡ list_any (T.passes test.now) (preorder node.now) }
{
    test.passes(node) || any_in(test, node.parts())
}

#[cycle(walk)]
#[tactic(auto, using(crate::proofs::AnyNode::any_more))]
fn any_in<T: NodeTest>(test: &T, parts: &[Part]) -> bool
    ensures { result ≡ list_any (T.passes test.now) (preorder_of (parts_of parts.now)) }
{
    for part in parts {
        if any_of(test, part) {
            return true;
        }
    }
    false
}

#[cycle(walk)]
fn any_of<T: NodeTest>(test: &T, part: &Part) -> bool
    ensures { result ≡ list_any (T.passes test.now) (preorder_of_part (part_of part.now)) }
{
    match part {
        Part::Child(node) => any_node(test, node),
        Part::List(nodes) => any_of_list(test, nodes.as_slice()),
        Part::Holes(nodes) => any_of_list_with_holes(test, nodes.as_slice()),
        _ => false,
    }
}

/// Whether one of the nodes, or a node in one, passes the test.
#[cycle(walk)]
#[tactic(auto, using(crate::proofs::AnyNode::any_more))]
pub fn any_of_list<T: NodeTest>(test: &T, nodes: &[Node]) -> bool
    ensures { result ≡ list_any (T.passes test.now) (preorder_of (trees nodes.now)) }
{
    for node in nodes {
        if any_node(test, node) {
            return true;
        }
    }
    false
}

#[cycle(walk)]
#[tactic(auto, using(crate::proofs::AnyNode::any_more))]
fn any_of_list_with_holes<T: NodeTest>(test: &T, nodes: &[Option<Node>]) -> bool
    ensures { result ≡ list_any (T.passes test.now) (preorder_of (nullable_trees nodes.now)) }
{
    for node in nodes {
        if any_of_hole(test, node) {
            return true;
        }
    }
    false
}

#[cycle(walk)]
fn any_of_hole<T: NodeTest>(test: &T, node: &Option<Node>) -> bool
    ensures { result ≡ list_any (T.passes test.now) (preorder_of_part (nullable node.now)) }
{
    match node {
        Some(node) => any_node(test, node),
        None => false,
    }
}

/// A test of nodes by their kind and their parts.
pub trait KindTest {
    ghost holds: { Self → Kind → Parts → Bool };

    /// Whether it holds of the node.
    fn holds(&self, node: &Node) -> bool
        ensures { result ≡ holds self.now (kind_of node.now) (parts_in node.now) };
}

/// Whether the test holds of the node or of one below it, outside functions. Allocates nothing.
#[cycle(inside)]
#[tactic(auto, using(crate::proofs::AnyNode::holds_node, es_node::proofs::Below::nodes_in))]
pub fn any_inside<T: KindTest>(test: &T, node: &Node) -> bool
    ensures { result ≡ holds (T.holds test.now) node.now }
{
    test.holds(node) || (!is_any_function(node.kind()) && any_inside_in(test, node.parts()))
}

/// The same of these parts.
#[cycle(inside)]
pub fn any_inside_in<T: KindTest>(test: &T, parts: &[Part]) -> bool
    ensures { result ≡ holds_in (T.holds test.now) (parts_of parts.now) }
{
    for part in parts {
        if any_inside_of(test, part) {
            return true;
        }
    }
    false
}

#[cycle(inside)]
fn any_inside_of<T: KindTest>(test: &T, part: &Part) -> bool
    ensures { result ≡ holds_at (T.holds test.now) (part_of part.now) }
{
    match part {
        Part::Child(node) => any_inside(test, node),
        Part::List(nodes) => any_inside_list(test, nodes.as_slice()),
        Part::Holes(nodes) => any_inside_list_with_holes(test, nodes.as_slice()),
        _ => false,
    }
}

#[cycle(inside)]
fn any_inside_list<T: KindTest>(test: &T, nodes: &[Node]) -> bool
    ensures { result ≡ holds_in (T.holds test.now) (trees nodes.now) }
{
    for node in nodes {
        if any_inside(test, node) {
            return true;
        }
    }
    false
}

#[cycle(inside)]
fn any_inside_list_with_holes<T: KindTest>(test: &T, nodes: &[Option<Node>]) -> bool
    ensures { result ≡ holds_in (T.holds test.now) (nullable_trees nodes.now) }
{
    for node in nodes {
        if any_inside_hole(test, node) {
            return true;
        }
    }
    false
}

#[cycle(inside)]
fn any_inside_hole<T: KindTest>(test: &T, node: &Option<Node>) -> bool
    ensures { result ≡ holds_at (T.holds test.now) (nullable node.now) }
{
    match node {
        Some(node) => any_inside(test, node),
        None => false,
    }
}

/// Whether what stands inside runs elsewhere: in a function or an arrow.
pub fn is_any_function(kind: Kind) -> bool
    ensures of_names { result ≡ is_any_function kind }
    ensures of_scopes { result ≡ scopes.is_any_function kind }
{
    matches!(
        kind,
        Kind::FunctionDeclaration | Kind::FunctionExpression | Kind::ArrowFunctionExpression
    )
}
