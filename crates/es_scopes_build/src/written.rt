// Writing numbers on the nodes of a tree.

ghost use Rattle.std.specs.Prelude.{◌≡◌, ◌+◌, ◌≤◌, length, List, Option, true};
ghost use Rattle.es_base.specs.Table.{Field};
ghost use Rattle.es_base.specs.Tree.{trees, nullable, nullable_trees};
ghost use Rattle.es_base.specs.declared.table.Sort.{Sort};
ghost use Rattle.es_node.specs.View.{part_of, parts_of, has_shape, have_shapes};
ghost use Rattle.es_scopes_law.specs.Written.{bearers, bearers_of, bearers_of_part, written, written_part, written_parts};

use es_base::list::List;
use es_node::node::{Node, Part};
use es_node::semantic_ids::bears_semantic_id;

/// Writes the semantic ids from the `next`-th on, one on each node that may bear one, in preorder, and
/// answers the place of the one that comes next. Allocates nothing.
#[cycle(written)]
pub(crate) fn write_node(node: &mut Node, ids: &[Option<u32>], next: usize) -> usize
    requires { next + bearers node.old ≤ length ids.now }
    ensures tree { node.new ≡ written ids.now next node.old }
    ensures next { result ≡ next + bearers node.old }
{
    let kind = node.kind();
    let mut contents = node.take().into_contents();
    let mut next = next;
    if bears_semantic_id(kind) {
        contents.semantic_id = ids[next];
        next += 1;
    }
    let next = write_parts(&mut contents.parts, ids, next);
    *node = Node::new(kind, contents);
    next
}

#[cycle(written)]
fn write_parts(parts: &mut List<Part>, ids: &[Option<u32>], next: usize) -> usize
    requires { next + bearers_of (parts_of parts.old) ≤ length ids.now }
    ensures parts { parts_of parts.new ≡ written_parts ids.now next (parts_of parts.old) }
    ensures shapes { (fs : List Field) → have_shapes fs parts.new ≡ have_shapes fs parts.old }
    ensures next { result ≡ next + bearers_of (parts_of parts.old) }
{
    let mut next = next;
    let parts = parts.as_mut_slice();
    for i in 0..parts.len() {
        next = write_part(&mut parts[i], ids, next);
    }
    next
}

#[cycle(written)]
fn write_part(part: &mut Part, ids: &[Option<u32>], next: usize) -> usize
    requires { next + bearers_of_part (part_of part.old) ≤ length ids.now }
    ensures part { part_of part.new ≡ written_part ids.now next (part_of part.old) }
    ensures shape { (sort : Sort) → has_shape sort part.new ≡ has_shape sort part.old }
    ensures next { result ≡ next + bearers_of_part (part_of part.old) }
{
    match part {
        Part::Child(node) => write_node(node, ids, next),
        Part::List(nodes) => write_list(nodes, ids, next),
        Part::Holes(nodes) => write_list_with_holes(nodes, ids, next),
        _ => next,
    }
}

#[cycle(written)]
fn write_list(nodes: &mut List<Node>, ids: &[Option<u32>], next: usize) -> usize
    requires { next + bearers_of (trees nodes.old) ≤ length ids.now }
    ensures nodes { trees nodes.new ≡ written_parts ids.now next (trees nodes.old) }
    ensures next { result ≡ next + bearers_of (trees nodes.old) }
{
    let mut next = next;
    let nodes = nodes.as_mut_slice();
    for i in 0..nodes.len() {
        next = write_node(&mut nodes[i], ids, next);
    }
    next
}

#[cycle(written)]
fn write_list_with_holes(nodes: &mut List<Option<Node>>, ids: &[Option<u32>], next: usize) -> usize
    requires { next + bearers_of (nullable_trees nodes.old) ≤ length ids.now }
    ensures nodes { nullable_trees nodes.new ≡ written_parts ids.now next (nullable_trees nodes.old) }
    ensures next { result ≡ next + bearers_of (nullable_trees nodes.old) }
{
    let mut next = next;
    let nodes = nodes.as_mut_slice();
    for i in 0..nodes.len() {
        next = write_hole(&mut nodes[i], ids, next);
    }
    next
}

#[cycle(written)]
fn write_hole(node: &mut Option<Node>, ids: &[Option<u32>], next: usize) -> usize
    requires { next + bearers_of_part (nullable node.old) ≤ length ids.now }
    ensures node { nullable node.new ≡ written_part ids.now next (nullable node.old) }
    ensures next { result ≡ next + bearers_of_part (nullable node.old) }
{
    match node {
        Some(node) => write_node(node, ids, next),
        None => next,
    }
}
