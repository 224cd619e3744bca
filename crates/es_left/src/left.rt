// Whether a program has something to lower, and where.

ghost use Rattle.std.specs.Prelude.{◌≡◌, option_map};
ghost use Rattle.es_base.specs.Tree.{trees, nullable, nullable_trees};
ghost use Rattle.es_node.specs.View.{part_of, parts_of};
ghost use Rattle.es_left.specs.Left.{first_left, first_in, first_in_part, first_in_parts};
ghost use Rattle.es_steps.specs.LoweredClasses.{is_lowered_kind, nothing_left};

use es_base::ids::NodeId;
use es_base::kind::Kind;
use es_node::node::{Node, Part};
use es_steps::options::Options;

/// Whether nothing stands in a program that the options lower: no field, private name or `#x in o` with class properties on,
/// and no static block with that option on. Takes time in proportion to the program, and allocates nothing.
pub fn nothing_left(program: &Node, options: &Options) -> bool
    ensures { result ≡ nothing_left options.now program.now }
{
    first_left(program, options).is_none()
}

/// The first node in preorder that the options lower; nothing where nothing is to be lowered. Takes time in proportion to
/// the program, and allocates nothing.
#[tactic(auto, using(crate::proofs::First::left_first))]
pub fn first_left(program: &Node, options: &Options) -> Option<NodeId>
    ensures { option_map (λ n. n.0) result ≡ first_left options.now program.now }
{
    first_in(program, options)
}

/// Whether nodes of this kind are lowered.
fn is_lowered(kind: Kind, options: &Options) -> bool
    ensures { result ≡ is_lowered_kind options.now kind }
{
    match kind {
        // x = 1; #x; #x in o
        Kind::PropertyDefinition | Kind::PrivateIdentifier | Kind::PrivateIn => {
            options.es2022.class_properties.is_some()
        }
        // static { }
        Kind::StaticBlock => options.es2022.class_static_block,
        _ => false,
    }
}

/// The first node of the tree that is lowered.
#[cycle(first)]
#[tactic(auto, using(crate::proofs::First::first_node, es_node::proofs::Below::nodes_in))]
fn first_in(node: &Node, options: &Options) -> Option<NodeId>
    ensures { option_map (λ n. n.0) result ≡ first_in options.now node.now }
{
    if is_lowered(node.kind(), options) {
        return Some(node.node_id());
    }
    first_in_parts(node.parts(), options)
}

#[cycle(first)]
fn first_in_parts(parts: &[Part], options: &Options) -> Option<NodeId>
    ensures { option_map (λ n. n.0) result ≡ first_in_parts options.now (parts_of parts.now) }
{
    for part in parts {
        if let Some(first) = first_in_part(part, options) {
            return Some(first);
        }
    }
    None
}

#[cycle(first)]
fn first_in_part(part: &Part, options: &Options) -> Option<NodeId>
    ensures { option_map (λ n. n.0) result ≡ first_in_part options.now (part_of part.now) }
{
    match part {
        Part::Child(node) => first_in(node, options),
        Part::List(nodes) => first_in_list(nodes.as_slice(), options),
        Part::Holes(nodes) => first_in_list_with_holes(nodes.as_slice(), options),
        _ => None,
    }
}

#[cycle(first)]
fn first_in_list(nodes: &[Node], options: &Options) -> Option<NodeId>
    ensures { option_map (λ n. n.0) result ≡ first_in_parts options.now (trees nodes.now) }
{
    for node in nodes {
        if let Some(first) = first_in(node, options) {
            return Some(first);
        }
    }
    None
}

#[cycle(first)]
fn first_in_list_with_holes(nodes: &[Option<Node>], options: &Options) -> Option<NodeId>
    ensures { option_map (λ n. n.0) result ≡ first_in_parts options.now (nullable_trees nodes.now) }
{
    for node in nodes {
        if let Some(first) = first_in_item(node, options) {
            return Some(first);
        }
    }
    None
}

#[cycle(first)]
fn first_in_item(node: &Option<Node>, options: &Options) -> Option<NodeId>
    ensures { option_map (λ n. n.0) result ≡ first_in_part options.now (nullable node.now) }
{
    match node {
        Some(node) => first_in(node, options),
        None => None,
    }
}
