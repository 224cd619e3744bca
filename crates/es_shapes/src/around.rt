// What is around a node: what its names mean there, and whether it stands in a block.

ghost use Rattle.std.specs.Prelude.{◌≡◌, ◌||◌, option_map};
ghost use Rattle.std.specs.Option.{option_to_list};
ghost use Rattle.es_node.specs.View.{kind_of, parts_in};
ghost use Rattle.es_steps.specs.Quiet as spec;
ghost use Rattle.es_steps.specs.References.{has_number};
ghost use Rattle.es_shapes.specs.Around.{ids_in};

use crate::class::class_of;
use es_base::ids::NodeId;
use es_base::kind::Kind;
use es_node::node::Node;

/// The names of the classes around a node, by the identifiers that declare them.
#[derive(Clone, Copy)]
pub enum ClassNames<'r> {
    /// None.
    None,
    /// That of a class, and those around it.
    Class {
        id: NodeId,
        outer: &'r ClassNames<'r>,
    },
}

/// How a node stands in what is around it.
#[derive(Clone, Copy)]
pub struct Standing {
    /// Where `arguments` is that of a function, of the value of a field or of a static block.
    pub has_arguments: bool,
    /// In a block.
    pub in_block: bool,
}

/// Whether the identifier declares one of these classes.
pub fn is_class_around(names: &ClassNames, id: NodeId) -> bool
    ensures { result ≡ has_number id.0 (ids_in names.now) }
{
    match names {
        ClassNames::None => false,
        ClassNames::Class { id: nearest, outer } => {
            id.0 == nearest.0 || is_class_around(outer, id)
        }
    }
}

/// The identifier that declares the class that the node is, if it is one and has a name.
#[tactic(auto, using(crate::proofs::ByKind::name_of_class, crate::proofs::ByKind::number_of_id))]
pub fn class_name(node: &Node) -> Option<NodeId>
    ensures { option_to_list (option_map (λ n. n.0) result) ≡ spec.class_name (kind_of node.now) (parts_in node.now) }
{
    // class A {}
    match class_of(node) {
        Some(class) => match class.id {
            Some(id) => Some(id.node_id()),
            None => None,
        },
        None => None,
    }
}

/// How the i-th part of the node stands.
pub fn standing_inside(standing: Standing, node: &Node, i: usize) -> Standing
    ensures has_arguments { result.has_arguments ≡ (spec.gives_arguments (kind_of node.now) i || standing.has_arguments) }
    ensures in_block { result.in_block ≡ spec.is_block (kind_of node.now) }
{
    Standing {
        has_arguments: gives_arguments(node.kind(), i) || standing.has_arguments,
        in_block: is_block(node.kind()),
    }
}

fn is_block(kind: Kind) -> bool
    ensures { result ≡ spec.is_block kind }
{
    matches!(kind, Kind::BlockStatement)
}

/// Whether `arguments` has a meaning of its own in the i-th part.
fn gives_arguments(kind: Kind, i: usize) -> bool
    ensures { result ≡ spec.gives_arguments kind i }
{
    match kind {
        Kind::FunctionDeclaration | Kind::FunctionExpression | Kind::StaticBlock => true,
        // x = y;
        Kind::PropertyDefinition => i == 1,
        _ => false,
    }
}
