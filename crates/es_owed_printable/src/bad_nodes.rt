// Nodes that cannot be printed.

ghost use Rattle.std.specs.Prelude.{◌≡◌};
ghost use Rattle.es_base.specs.Tree.{nullable, nullable_trees, trees};
ghost use Rattle.es_node.specs.View.{kind_of, part_of, parts_in, parts_of};
ghost use Rattle.es_steps.specs.Printable as spec;
ghost use Rattle.es_steps.specs.Printable.{bad_at, bad_in, has_bad};

use es_base::kind::Kind;
use es_base::strings::spells;
use es_node::node::{Node, Part};
use es_printable::nodes::is_bad_in;
use es_seen_names::parts::string_at;

/// Whether a node, which stands as a default export or not and in the body of a module or not, or one below it cannot be
/// printed.
#[cycle(bad)]
#[tactic(auto, using(crate::proofs::Walks::bad_node, es_node::proofs::Below::nodes_in))]
pub fn has_bad(in_default: bool, in_module: bool, node: &Node) -> bool
    ensures { result ≡ has_bad in_default in_module node.now }
{
    is_bad_in(in_default, in_module, node)
        || bad_in(
            is_default_export(node.kind()),
            is_module(node),
            node.parts(),
        )
}

#[cycle(bad)]
fn bad_in(in_default: bool, in_module: bool, parts: &[Part]) -> bool
    ensures { result ≡ bad_in in_default in_module (parts_of parts.now) }
{
    for part in parts {
        if bad_at(in_default, in_module, part) {
            return true;
        }
    }
    false
}

#[cycle(bad)]
fn bad_at(in_default: bool, in_module: bool, part: &Part) -> bool
    ensures { result ≡ bad_at in_default in_module (part_of part.now) }
{
    match part {
        Part::Child(node) => has_bad(in_default, in_module, node),
        Part::List(nodes) => bad_of_list(in_default, in_module, nodes.as_slice()),
        Part::Holes(nodes) => bad_of_list_with_holes(in_default, in_module, nodes.as_slice()),
        _ => false,
    }
}

#[cycle(bad)]
fn bad_of_list(in_default: bool, in_module: bool, nodes: &[Node]) -> bool
    ensures { result ≡ bad_in in_default in_module (trees nodes.now) }
{
    for node in nodes {
        if has_bad(in_default, in_module, node) {
            return true;
        }
    }
    false
}

#[cycle(bad)]
fn bad_of_list_with_holes(in_default: bool, in_module: bool, nodes: &[Option<Node>]) -> bool
    ensures { result ≡ bad_in in_default in_module (nullable_trees nodes.now) }
{
    for node in nodes {
        if bad_of_hole(in_default, in_module, node) {
            return true;
        }
    }
    false
}

#[cycle(bad)]
fn bad_of_hole(in_default: bool, in_module: bool, node: &Option<Node>) -> bool
    ensures { result ≡ bad_at in_default in_module (nullable node.now) }
{
    match node {
        Some(node) => has_bad(in_default, in_module, node),
        None => false,
    }
}

// ---- what is around

fn is_default_export(kind: Kind) -> bool
    ensures { result ≡ spec.is_default_export kind }
{
    matches!(kind, Kind::ExportDefaultDeclaration)
}

#[tactic(auto, using(crate::proofs::Walks::module_program, crate::proofs::Walks::no_module))]
fn is_module(node: &Node) -> bool
    ensures { result ≡ spec.is_module (kind_of node.now) (parts_in node.now) }
{
    match node.kind() {
        Kind::Program => spells(string_at(node.parts(), 0), "module"),
        _ => false,
    }
}
