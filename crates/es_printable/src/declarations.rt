// Declarations without an initializer (ECMA-262, 14.3.1.1).

ghost use Rattle.std.specs.Prelude.{◌≡◌, not};
ghost use Rattle.es_base.specs.Tree.{child, nullable, nullable_trees, trees};
ghost use Rattle.es_node.specs.View.{kind_of, part_of, parts_in, parts_of};
ghost use Rattle.es_steps.specs.Parts.{is_present};
ghost use Rattle.es_steps.specs.Printable.{any_bare, has_bare_declaration, is_bare_declaration, lacks_initializer};
ghost use Rattle.es_steps.specs.References as references;
ghost use Rattle.es_steps.specs.Scopes.{is_declaring};
ghost use Rattle.es_printable.specs.Members.{is_bare_declarator, is_bare_part};

use crate::chains::behind_first;
use crate::directives::is_declaring;
use es_base::kind::Kind;
use es_node::node::{Node, Part};
use es_tree::statement::VariableDeclarationRef;

/// Whether a `const`, or a pattern, without an initializer stands below the node, but in the head of a for-in or for-of.
pub fn has_bare_declaration(node: &Node) -> bool
    ensures { result ≡ has_bare_declaration (kind_of node.now) (parts_in node.now) }
{
    if is_for_each(node.kind()) {
        any_bare(behind_first(node.parts()))
    } else {
        any_bare(node.parts())
    }
}

fn is_for_each(kind: Kind) -> bool
    ensures { result ≡ references.is_for_each kind }
{
    matches!(kind, Kind::ForInStatement | Kind::ForOfStatement)
}

#[tactic(auto, using(crate::proofs::NodeForms::bare_more))]
fn any_bare(parts: &[Part]) -> bool
    ensures { result ≡ any_bare (parts_of parts.now) }
{
    for part in parts {
        if is_part_bare(part) {
            return true;
        }
    }
    false
}

fn is_part_bare(part: &Part) -> bool
    ensures { result ≡ is_bare_part (part_of part.now) }
{
    match part {
        Part::Child(node) => is_bare_declaration(node),
        Part::List(nodes) => is_any_bare(nodes.as_slice()),
        Part::Holes(nodes) => is_any_hole_bare(nodes.as_slice()),
        _ => false,
    }
}

fn is_any_bare(nodes: &[Node]) -> bool
    ensures { result ≡ any_bare (trees nodes.now) }
{
    for node in nodes {
        if is_bare_declaration(node) {
            return true;
        }
    }
    false
}

fn is_any_hole_bare(nodes: &[Option<Node>]) -> bool
    ensures { result ≡ any_bare (nullable_trees nodes.now) }
{
    for node in nodes {
        if is_hole_bare(node) {
            return true;
        }
    }
    false
}

fn is_hole_bare(node: &Option<Node>) -> bool
    ensures { result ≡ is_bare_declaration (nullable node.now) }
{
    match node {
        Some(node) => is_bare_declaration(node),
        None => false,
    }
}

/// `const a;`, `let { a };`
#[tactic(auto, using(crate::proofs::NodeForms::no_bare_declaration))]
fn is_bare_declaration(node: &Node) -> bool
    ensures { result ≡ is_bare_declaration (child node.now) }
{
    match node.kind() {
        Kind::VariableDeclaration => {
            let declaration = VariableDeclarationRef::from_node(node);
            lacks_initializer(declaration.kind.is_const(), declaration.declarations)
        }
        _ => false,
    }
}

/// Whether one of these declarators, of a `const` or not, wants an initializer and has none.
#[tactic(auto, using(crate::proofs::NodeForms::initializer_more))]
fn lacks_initializer(is_const: bool, declarators: &[Node]) -> bool
    ensures { result ≡ lacks_initializer is_const (trees declarators.now) }
{
    for declarator in declarators {
        if is_bare_declarator(is_const, declarator.parts()) {
            return true;
        }
    }
    false
}

#[tactic(auto, using(crate::proofs::NodeForms::not_two_members))]
fn is_bare_declarator(is_const: bool, parts: &[Part]) -> bool
    ensures { result ≡ is_bare_declarator is_const (parts_of parts.now) }
{
    match parts {
        [id, init] => is_absent(init) && (is_const || !is_declaring_part(id)),
        _ => false,
    }
}

fn is_absent(part: &Part) -> bool
    ensures { result ≡ not (is_present (part_of part.now)) }
{
    matches!(part, Part::Absent)
}

fn is_declaring_part(part: &Part) -> bool
    ensures { result ≡ is_declaring (part_of part.now) }
{
    match part {
        Part::Child(node) => is_declaring(node),
        _ => false,
    }
}
