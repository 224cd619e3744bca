// Which nodes of the source stand in what it was lowered to.

ghost use Rattle.std.specs.Prelude.{◌≡◌, ◌&&◌, ◌||◌, map, nat_eq, not, IfOk};
ghost use Rattle.es_base.specs.Preorder.{number_of, preorder_of_part};
ghost use Rattle.es_binding_faults.specs.Seen.{seen};
ghost use Rattle.es_node.specs.View.{kind_of, number_in, parts_in};
ghost use Rattle.es_steps.specs.KeptNodes as spec;
ghost use Rattle.es_steps.specs.KeptNodes.{all_stand, none_enters, numbers_in_class, stands_as};
ghost use Rattle.es_steps.specs.Parts.{at};
ghost use Rattle.es_steps.specs.PrivateNames.{is_class};
ghost use Rattle.es_owed.specs.KeptNodes.{sort_in};

use crate::classes::{class_body, numbers_in_class};
use crate::listed::Listed;
use crate::numbers::{are_new_or_among, numbers_below};
use es_base::kind::Kind;
use es_node::node::Node;
use std::alloc::{AllocError, Global};

/// What a node is, of those that stand once in a lowered program.
#[derive(Debug, Clone, Copy, PartialEq, Eq)]
pub enum NodeSort {
    Class,
    Function,
    Call,
    Construction,
    Another,
}

// ---- classes, functions, calls and `new`

/// Whether each class, function, call and `new` of the source stands in what it was lowered to, on a node of its number and
/// its sort.
pub fn nodes_kept(source: &Listed, lowered: &Listed) -> bool
    ensures { result ≡ spec.nodes_kept source.now.program.now lowered.now.program.now }
{
    all_stand(source.nodes.as_slice(), lowered)
}

#[tactic(auto, using(crate::proofs::Kept::all_stand_more))]
fn all_stand(source: &[&Node], lowered: &Listed) -> bool
    ensures { result ≡ all_stand (seen source.now) (seen lowered.now.nodes.items) }
{
    for node in source {
        if !stands(node, lowered) {
            return false;
        }
    }
    true
}

/// Whether the node stands among these, if it is of a sort that does.
#[tactic(auto, using(crate::proofs::NumberedNodes::stands_as_numbered))]
fn stands(node: &Node, lowered: &Listed) -> bool
    ensures { result ≡ (not (spec.is_kept_sort (spec.sort_of (kind_of node.now))) || stands_as (number_in node.now) (spec.sort_of (kind_of node.now)) (seen lowered.now.nodes.items)) }
{
    let number = node.node_id().0;
    let sort = sort_of(node.kind());
    !is_kept_sort(sort) || stands_as(number, sort, lowered.numbered(number))
}

/// Whether a node of this number and sort is among these.
#[tactic(auto, using(crate::proofs::Kept::stands_as_more))]
fn stands_as(number: u32, sort: NodeSort, nodes: &[&Node]) -> bool
    ensures { result ≡ stands_as number (sort_in sort) (seen nodes.now) }
{
    for node in nodes {
        if is_of(number, sort, node) {
            return true;
        }
    }
    false
}

/// Whether the node has this number and sort.
fn is_of(number: u32, sort: NodeSort, node: &Node) -> bool
    ensures { result ≡ (nat_eq number (number_in node.now) && spec.same_sort (sort_in sort) (spec.sort_of (kind_of node.now))) }
{
    number == node.node_id().0 && same_sort(sort, sort_of(node.kind()))
}

fn sort_of(kind: Kind) -> NodeSort
    ensures { sort_in result ≡ spec.sort_of kind }
{
    match kind {
        Kind::ClassDeclaration | Kind::ClassExpression => NodeSort::Class,
        Kind::FunctionDeclaration | Kind::FunctionExpression | Kind::ArrowFunctionExpression =>
            NodeSort::Function,
        Kind::CallExpression => NodeSort::Call,
        Kind::NewExpression => NodeSort::Construction,
        _ => NodeSort::Another,
    }
}

fn is_kept_sort(sort: NodeSort) -> bool
    ensures { result ≡ spec.is_kept_sort (sort_in sort) }
{
    match sort {
        NodeSort::Class | NodeSort::Function | NodeSort::Call | NodeSort::Construction => true,
        NodeSort::Another => false,
    }
}

/// Whether both are of one sort that stands once.
fn same_sort(sort: NodeSort, other: NodeSort) -> bool
    ensures { result ≡ spec.same_sort (sort_in sort) (sort_in other) }
{
    match sort {
        NodeSort::Class => matches!(other, NodeSort::Class),
        NodeSort::Function => matches!(other, NodeSort::Function),
        NodeSort::Call => matches!(other, NodeSort::Call),
        NodeSort::Construction => matches!(other, NodeSort::Construction),
        NodeSort::Another => false,
    }
}

// ---- no node gets into the body of a class

/// Whether each node in the body of a class is new, or stands in the body of that class in the source. Fails on allocation
/// failure alone.
pub fn classes_kept(
    alloc: Global,
    first: u32,
    source: &Listed,
    lowered: &Listed,
) -> Result<bool, AllocError>
    ensures { IfOk result (λ holds. holds ≡ spec.classes_kept first source.now.program.now lowered.now.program.now) }
{
    none_enters(alloc, first, source, lowered.nodes.as_slice())
}

#[tactic(auto, using(crate::proofs::Kept::none_enters_more))]
fn none_enters(
    alloc: Global,
    first: u32,
    source: &Listed,
    lowered: &[&Node],
) -> Result<bool, AllocError>
    ensures { IfOk result (λ holds. holds ≡ none_enters first (seen source.now.nodes.items) (seen lowered.now)) }
{
    for node in lowered {
        if !is_kept_class(alloc, first, source, node)? {
            return Ok(false);
        }
    }
    Ok(true)
}

/// Whether no node gets into the body of the node, if that is a class. Fails on allocation failure alone.
fn is_kept_class(
    alloc: Global,
    first: u32,
    source: &Listed,
    node: &Node,
) -> Result<bool, AllocError>
    ensures { IfOk result (λ holds. holds ≡ (not (is_class (kind_of node.now)) || spec.are_new_or_among first (numbers_in_class (number_in node.now) (seen source.now.nodes.items)) (map number_of (preorder_of_part (at 2 (parts_in node.now)))))) }
{
    match class_body(node) {
        Some(body) => {
            let there = numbers_in_class(alloc, node.node_id().0, source)?;
            let numbers = numbers_below(alloc, body)?;
            are_new_or_among(alloc, first, there.as_slice(), numbers.as_slice())
        }
        None => Ok(true),
    }
}
