// The walk over a tree that finds its first fault.

ghost use Rattle.std.specs.Prelude.{◌≡◌, map, false};
ghost use Rattle.es_base.specs.Tree.{child, trees, nullable, nullable_trees};
ghost use Rattle.es_node.specs.View.{kind_of, parts_in, part_of};
ghost use Rattle.es_validity.specs.Around.{inside};
ghost use Rattle.es_validity.specs.Faults as faults;
ghost use Rattle.es_validity.specs.Faults.{first_with, fault_at, extra_constructors};
ghost use Rattle.es_validity.specs.Found.{found};
ghost use Rattle.es_validity.specs.Known.{around_of};
ghost use Rattle.es_validity.specs.Rules.{cause_at};
ghost use Rattle.es_validity.specs.declared.fault.Cause.{Cause};
ghost use Rattle.es_validity.specs.declared.fault.TreeRule.{TreeRule};

use crate::around::Around;
use crate::class::is_constructor;
use crate::fault::{Cause, Fault, TreeRule};
use crate::first::{earlier, if_some};
use crate::inside::{behind, inside, nothing_around};
use crate::rules::broken_rule;
use crate::unsupported::left_out;
use es_base::kind::Kind;
use es_node::node::{Node, Part};
use es_steps::options::Options;
use es_tree::class::{ClassBodyRef, MethodDefinitionRef};

/// The first of the faults of a program that need no names, and of the one that was first before. Takes time in proportion to
/// the program, but for labels of labels. Allocates nothing.
pub fn tree_faults(options: &Options, program: &Node, first: Option<Fault>) -> Option<Fault>
    ensures { found result ≡ first_with (found first) (faults.tree_faults options.now program.now) }
{
    node_faults(options, &nothing_around(), program, first)
}

/// What is wrong with a node by itself.
fn cause_at(options: &Options, around: &Around, node: &Node) -> Option<Cause>
    ensures { result ≡ cause_at options.now (around_of around.now) (kind_of node.now) (parts_in node.now) }
{
    match broken_rule(around, node) {
        Some(rule) => Some(Cause::BadTree(rule)),
        None => match left_out(options, around, node) {
            Some(what) => Some(Cause::Unsupported(what)),
            None => None,
        },
    }
}

/// The first fault, where the second constructors of a class body count.
#[tactic(auto, using(crate::proofs::OfKinds::no_extra_constructors))]
fn extra_constructors(node: &Node, first: Option<Fault>) -> Option<Fault>
    ensures { found result ≡ first_with (found first) (map (fault_at (Cause.BadTree TreeRule.TwoConstructors)) (extra_constructors (kind_of node.now) (parts_in node.now))) }
{
    match node.kind() {
        Kind::ClassBody => second_constructors(ClassBodyRef::from_node(node).body, first),
        _ => first,
    }
}

/// The same of these elements.
fn second_constructors(elements: &[Node], first: Option<Fault>) -> Option<Fault>
    ensures { found result ≡ first_with (found first) (map (fault_at (Cause.BadTree TreeRule.TwoConstructors)) (faults.second_constructors false (trees elements.now))) }
{
    let mut first = first;
    let mut has_constructor = false;
    for element in elements {
        let is_constructor = is_constructor_element(element);
        if has_constructor && is_constructor {
            first = earlier(
                first,
                element.node_id(),
                Cause::BadTree(TreeRule::TwoConstructors),
            );
        }
        has_constructor = has_constructor || is_constructor;
    }
    first
}

/// Whether an element is a constructor.
#[tactic(auto, using(crate::proofs::OfKinds::no_constructor_element))]
fn is_constructor_element(element: &Node) -> bool
    ensures { result ≡ faults.is_constructor_element (child element.now) }
{
    match element.kind() {
        Kind::MethodDefinition => is_constructor(MethodDefinitionRef::from_node(element).kind),
        _ => false,
    }
}

/// The first fault, where those of this node and of the nodes below count.
#[cycle(faults)]
#[tactic(auto, using(crate::proofs::Walked::node_found, es_node::proofs::Below::nodes_in))]
fn node_faults(
    options: &Options,
    around: &Around,
    node: &Node,
    first: Option<Fault>,
) -> Option<Fault>
    ensures { found result ≡ first_with (found first) (faults.faults options.now (around_of around.now) node.now) }
{
    let first = if_some(first, node.node_id(), cause_at(options, around, node));
    let first = extra_constructors(node, first);
    parts_faults(options, &behind(&*around, &*node), &*node, first)
}

/// The same of the parts of a node.
#[cycle(faults)]
fn parts_faults(
    options: &Options,
    around: &Around,
    node: &Node,
    first: Option<Fault>,
) -> Option<Fault>
    ensures { found result ≡ first_with (found first) (faults.faults_from options.now (inside (around_of around.now) (kind_of node.now) (parts_in node.now)) 0 (parts_in node.now)) }
{
    let mut first = first;
    let parts = node.parts();
    for (i, part) in parts.iter().enumerate() {
        first = part_faults(options, &inside(&*around, &*node, i), part, first);
    }
    first
}

#[cycle(faults)]
fn part_faults(
    options: &Options,
    around: &Around,
    part: &Part,
    first: Option<Fault>,
) -> Option<Fault>
    ensures { found result ≡ first_with (found first) (faults.part_faults options.now (around_of around.now) (part_of part.now)) }
{
    match part {
        Part::Child(node) => node_faults(options, around, node, first),
        Part::List(nodes) => list_faults(options, around, nodes.as_slice(), first),
        Part::Holes(nodes) => list_with_holes_faults(options, around, nodes.as_slice(), first),
        _ => first,
    }
}

#[cycle(faults)]
fn list_faults(
    options: &Options,
    around: &Around,
    nodes: &[Node],
    first: Option<Fault>,
) -> Option<Fault>
    ensures { found result ≡ first_with (found first) (faults.item_faults options.now (around_of around.now) (trees nodes.now)) }
{
    let mut first = first;
    for node in nodes {
        first = node_faults(options, around, node, first);
    }
    first
}

#[cycle(faults)]
fn list_with_holes_faults(
    options: &Options,
    around: &Around,
    nodes: &[Option<Node>],
    first: Option<Fault>,
) -> Option<Fault>
    ensures { found result ≡ first_with (found first) (faults.item_faults options.now (around_of around.now) (nullable_trees nodes.now)) }
{
    let mut first = first;
    for node in nodes {
        first = hole_faults(options, around, node, first);
    }
    first
}

#[cycle(faults)]
fn hole_faults(
    options: &Options,
    around: &Around,
    node: &Option<Node>,
    first: Option<Fault>,
) -> Option<Fault>
    ensures { found result ≡ first_with (found first) (faults.part_faults options.now (around_of around.now) (nullable node.now)) }
{
    match node {
        Some(node) => node_faults(options, around, node, first),
        None => first,
    }
}
