// The least number of a node, met one at a time.

ghost use Rattle.std.specs.Prelude.{◌≡◌, map};
ghost use Rattle.es_steps.specs.FirstForm.{unless};
ghost use Rattle.class_properties.specs.Least.{number_in, lower, least_with};

use es_base::ids::NodeId;

/// The lesser of this number and the least before it.
pub fn lower(least: Option<NodeId>, node: NodeId) -> Option<NodeId>
    ensures { number_in result ≡ lower (number_in least) node.0 }
{
    match least {
        Some(before) => {
            if before.0 <= node.0 {
                Some(before)
            } else {
                Some(node)
            }
        }
        None => Some(node),
    }
}

/// The least number, where this one counts unless the node is as it should be.
pub fn unless(holds: bool, node: NodeId, least: Option<NodeId>) -> Option<NodeId>
    ensures { number_in result ≡ least_with (number_in least) (unless holds node.0) }
{
    if holds { least } else { lower(least, node) }
}

/// The least of these numbers and the least before them.
pub fn least_of(nodes: &[NodeId], least: Option<NodeId>) -> Option<NodeId>
    ensures { number_in result ≡ least_with (number_in least) (map (λ n. n.0) nodes.now) }
{
    let mut least = least;
    for node in nodes {
        least = lower(least, *node);
    }
    least
}
