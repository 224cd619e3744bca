// The number of nodes of a tree.

ghost use Rattle.std.specs.Prelude.{◌≡◌, ◌+◌, ◌<◌, ◌^◌, nat_le, MatchOption};
ghost use Rattle.es_base.specs.Preorder.{nodes, nodes_of, nodes_of_part};
ghost use Rattle.es_base.specs.Tree.{trees, nullable, nullable_trees};
ghost use Rattle.es_node.specs.View.{part_of, parts_of};

use super::{Node, Part};

impl Node {
    /// The number of nodes, this one among them. Allocates nothing.
    pub fn nodes(&self) -> u32
        requires { nodes self.now < 2 ^ 32 }
        ensures { result ≡ nodes self.now }
    {
        match room_after_node(self, u32::MAX) {
            Some(room) => u32::MAX - room,
            None => unreachable!(),
        }
    }

    /// Whether there are at most this many nodes, this one among them. Counts no further. Allocates
    /// nothing.
    pub fn has_at_most(&self, most: u32) -> bool
        ensures { result ≡ nat_le (nodes self.now) most }
    {
        match room_after_node(self, most) {
            Some(_) => true,
            None => false,
        }
    }
}

/// How many nodes there may be beside those of this one, where there may be `room` in all; nothing where
/// it has more.
#[cycle(count)]
#[tactic(auto, using(crate::proofs::Below::nodes_in))]
fn room_after_node(node: &Node, room: u32) -> Option<u32>
    ensures { MatchOption result (room < nodes node.now) (λ left. left + nodes node.now ≡ room) }
{
    if room == 0 {
        return None;
    }
    room_after_parts(node.parts(), room - 1)
}

/// The same of these parts.
#[cycle(count)]
fn room_after_parts(parts: &[Part], room: u32) -> Option<u32>
    ensures { MatchOption result (room < nodes_of (parts_of parts.now)) (λ left. left + nodes_of (parts_of parts.now) ≡ room) }
{
    let mut room = room;
    for part in parts {
        room = room_after_part(part, room)?;
    }
    Some(room)
}

#[cycle(count)]
fn room_after_part(part: &Part, room: u32) -> Option<u32>
    ensures { MatchOption result (room < nodes_of_part (part_of part.now)) (λ left. left + nodes_of_part (part_of part.now) ≡ room) }
{
    match part {
        Part::Child(node) => room_after_node(node, room),
        Part::List(nodes) => room_after_list(nodes.as_slice(), room),
        Part::Holes(nodes) => room_after_list_with_holes(nodes.as_slice(), room),
        _ => Some(room),
    }
}

#[cycle(count)]
fn room_after_list(nodes: &[Node], room: u32) -> Option<u32>
    ensures { MatchOption result (room < nodes_of (trees nodes.now)) (λ left. left + nodes_of (trees nodes.now) ≡ room) }
{
    let mut room = room;
    for node in nodes {
        room = room_after_node(node, room)?;
    }
    Some(room)
}

#[cycle(count)]
fn room_after_list_with_holes(nodes: &[Option<Node>], room: u32) -> Option<u32>
    ensures { MatchOption result (room < nodes_of (nullable_trees nodes.now)) (λ left. left + nodes_of (nullable_trees nodes.now) ≡ room) }
{
    let mut room = room;
    for node in nodes {
        room = room_after_hole(node, room)?;
    }
    Some(room)
}

#[cycle(count)]
fn room_after_hole(node: &Option<Node>, room: u32) -> Option<u32>
    ensures { MatchOption result (room < nodes_of_part (nullable node.now)) (λ left. left + nodes_of_part (nullable node.now) ≡ room) }
{
    match node {
        Some(node) => room_after_node(node, room),
        None => Some(room),
    }
}
