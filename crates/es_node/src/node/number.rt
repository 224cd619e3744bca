// Numbers in preorder.

ghost use Rattle.std.specs.Prelude.{◌≡◌, ◌+◌, ◌<◌, ◌^◌, All, List, Option};
ghost use Rattle.es_base.specs.Preorder.{nodes, news, news_of, news_of_part, numbered_from, renumbered, renumbered_part, renumbered_parts};
ghost use Rattle.es_base.specs.Numbered.{EachOnce, IsNumbered, old_numbers, unnumbered};
ghost use Rattle.es_base.specs.Table.{Field};
ghost use Rattle.es_base.specs.Tree.{trees, nullable, nullable_trees};
ghost use Rattle.es_base.specs.declared.table.Sort.{Sort};
ghost use Rattle.es_node.specs.View.{part_of, parts_of, has_shape, have_shapes};

use super::{Node, Part};
use es_base::ids::NodeId;
use es_base::list::List;

impl Node {
    /// Gives the nodes the numbers 0, 1, .. in preorder. Allocates nothing.
    pub fn number(&mut self)
        requires { nodes self.old < 2 ^ 32 }
        ensures tree { self.new ≡ numbered_from 0 self.old }
        ensures numbered { IsNumbered 0 self.new }
    {
        self.renumber_from(0);
    }

    /// Gives the nodes whose number is at least `first` the numbers `first`, `first` + 1, .. in preorder.
    /// The others keep theirs. Allocates nothing.
    pub fn renumber_from(&mut self, first: u32)
        requires { first + news first self.old < 2 ^ 32 }
        ensures tree { self.new ≡ renumbered first first self.old }
        ensures numbered { EachOnce (old_numbers first self.old) → IsNumbered first self.new }
    {
        renumber_node(self, first, first);
    }

    /// Gives the nodes that have no number, which is `NodeId::DUMMY`, the numbers `next`, `next` + 1, .. in
    /// preorder. The others keep theirs. Answers the number that comes next. Allocates nothing.
    pub fn number_unnumbered(&mut self, next: u32) -> u32
        requires { next + news unnumbered self.old < 2 ^ 32 }
        ensures tree { self.new ≡ renumbered unnumbered next self.old }
        ensures next { result ≡ next + news unnumbered self.old }
        ensures numbered { All (λ k. k < next) (old_numbers unnumbered self.old)
            → EachOnce (old_numbers unnumbered self.old)
            → IsNumbered next self.new }
    {
        renumber_node(self, NodeId::DUMMY.0, next)
    }
}

/// Gives the nodes whose number is at least `first` the numbers `next`, `next` + 1, .. in preorder, and
/// answers the number that comes next.
#[cycle(number)]
#[tactic(auto, using(crate::proofs::Renumbered::renumbered_node, crate::proofs::Renumbered::news_node))]
fn renumber_node(node: &mut Node, first: u32, next: u32) -> u32
    requires { next + news first node.old < 2 ^ 32 }
    ensures tree { node.new ≡ renumbered first next node.old }
    ensures next { result ≡ next + news first node.old }
{
    let mut next = next;
    if node.node_id.0 >= first {
        node.node_id = NodeId(next);
        next += 1;
    }
    renumber_parts(&mut node.parts, first, next)
}

#[cycle(number)]
fn renumber_parts(parts: &mut List<Part>, first: u32, next: u32) -> u32
    requires { next + news_of first (parts_of parts.old) < 2 ^ 32 }
    ensures parts { parts_of parts.new ≡ renumbered_parts first next (parts_of parts.old) }
    ensures shapes { (fs : List Field) → have_shapes fs parts.new ≡ have_shapes fs parts.old }
    ensures next { result ≡ next + news_of first (parts_of parts.old) }
{
    let mut next = next;
    let parts = parts.as_mut_slice();
    for i in 0..parts.len() {
        next = renumber_part(&mut parts[i], first, next);
    }
    next
}

#[cycle(number)]
fn renumber_part(part: &mut Part, first: u32, next: u32) -> u32
    requires { next + news_of_part first (part_of part.old) < 2 ^ 32 }
    ensures part { part_of part.new ≡ renumbered_part first next (part_of part.old) }
    ensures shape { (sort : Sort) → has_shape sort part.new ≡ has_shape sort part.old }
    ensures next { result ≡ next + news_of_part first (part_of part.old) }
{
    match part {
        Part::Child(node) => renumber_node(node, first, next),
        Part::List(nodes) => renumber_list(nodes, first, next),
        Part::Holes(nodes) => renumber_list_with_holes(nodes, first, next),
        _ => next,
    }
}

#[cycle(number)]
fn renumber_list(nodes: &mut List<Node>, first: u32, next: u32) -> u32
    requires { next + news_of first (trees nodes.old) < 2 ^ 32 }
    ensures nodes { trees nodes.new ≡ renumbered_parts first next (trees nodes.old) }
    ensures next { result ≡ next + news_of first (trees nodes.old) }
{
    let mut next = next;
    let nodes = nodes.as_mut_slice();
    for i in 0..nodes.len() {
        next = renumber_node(&mut nodes[i], first, next);
    }
    next
}

#[cycle(number)]
fn renumber_list_with_holes(nodes: &mut List<Option<Node>>, first: u32, next: u32) -> u32
    requires { next + news_of first (nullable_trees nodes.old) < 2 ^ 32 }
    ensures nodes { nullable_trees nodes.new ≡ renumbered_parts first next (nullable_trees nodes.old) }
    ensures next { result ≡ next + news_of first (nullable_trees nodes.old) }
{
    let mut next = next;
    let nodes = nodes.as_mut_slice();
    for i in 0..nodes.len() {
        next = renumber_hole(&mut nodes[i], first, next);
    }
    next
}

#[cycle(number)]
fn renumber_hole(node: &mut Option<Node>, first: u32, next: u32) -> u32
    requires { next + news_of_part first (nullable node.old) < 2 ^ 32 }
    ensures node { nullable node.new ≡ renumbered_part first next (nullable node.old) }
    ensures next { result ≡ next + news_of_part first (nullable node.old) }
{
    match node {
        Some(node) => renumber_node(node, first, next),
        None => next,
    }
}
