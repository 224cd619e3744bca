// Chains, members and calls (ECMA-262, 13.3).

ghost use Rattle.std.specs.Prelude.{◌≡◌, ◌&&◌};
ghost use Rattle.es_base.specs.Tree.{child, end, more, nullable, nullable_trees, trees};
ghost use Rattle.es_node.specs.View.{kind_of, part_of, parts_in, parts_of};
ghost use Rattle.es_steps.specs.Printable as spec;
ghost use Rattle.es_steps.specs.Printable.{any_optional, behind_first, has_stray_optional, is_bad_form, is_meta_property, part_has_optional};
ghost use Rattle.es_printable.specs.Members.{is_chain_form, is_optional_part};

use es_base::kind::Kind;
use es_base::strings::spells;
use es_node::node::{Node, Part};
use es_tree::expression::{
    CallExpressionRef, ChainExpressionRef, MemberExpressionRef, MetaPropertyRef, PrivateFieldRef,
    SequenceExpressionRef,
};
use es_validity::names::name_of;
use es_validity::parts::{has_optional, is_super};

/// Whether the node is an expression of a form that cannot be written.
#[tactic(auto, using(crate::proofs::NodeForms::foreign_form, crate::proofs::NodeForms::count_of, crate::proofs::NodeForms::no_chain_form))]
pub fn is_bad_expression(node: &Node) -> bool
    ensures { result ≡ (is_chain_form (kind_of node.now) && is_bad_form (kind_of node.now) (parts_in node.now)) }
{
    match node.kind() {
        Kind::Foreign => true,
        // a, b
        Kind::SequenceExpression => SequenceExpressionRef::from_node(node).expressions.len() <= 1,
        // new.target
        Kind::MetaProperty => {
            let property = MetaPropertyRef::from_node(node);
            !is_meta_property(property.meta, property.property)
        }
        // super?.a
        Kind::MemberExpression => {
            let member = MemberExpressionRef::from_node(node);
            is_super(member.object) && member.optional
        }
        // super.#a
        Kind::PrivateField => is_super(PrivateFieldRef::from_node(node).object),
        // super?.()
        Kind::CallExpression => {
            let call = CallExpressionRef::from_node(node);
            is_super(call.callee) && call.optional
        }
        // a?.b
        Kind::ChainExpression => !has_optional(ChainExpressionRef::from_node(node).expression),
        _ => false,
    }
}

/// `new.target`, `import.meta`.
fn is_meta_property(meta: &Node, property: &Node) -> bool
    ensures { result ≡ is_meta_property (more (child meta.now) (more (child property.now) end)) }
{
    let meta = name_of(meta);
    let name = name_of(property);
    (spells(meta, "new") && spells(name, "target"))
        || (spells(meta, "import") && spells(name, "meta"))
}

// ---- `?.` outside chains

/// Whether a `?.` stands in a part of the node that is no spine of a chain around.
pub fn has_stray_optional(node: &Node) -> bool
    ensures { result ≡ has_stray_optional (kind_of node.now) (parts_in node.now) }
{
    if is_spine_kind(node.kind()) {
        any_optional(behind_first(node.parts()))
    } else {
        any_optional(node.parts())
    }
}

fn is_spine_kind(kind: Kind) -> bool
    ensures { result ≡ spec.is_spine_kind kind }
{
    matches!(
        kind,
        Kind::MemberExpression | Kind::PrivateField | Kind::CallExpression | Kind::ChainExpression
    )
}

/// The parts but the first.
pub fn behind_first(parts: &[Part]) -> &[Part]
    ensures { parts_of result.now ≡ behind_first (parts_of parts.now) }
{
    match parts {
        [_, rest @ ..] => rest,
        [] => &[],
    }
}

#[tactic(auto, using(crate::proofs::NodeForms::optional_more))]
fn any_optional(parts: &[Part]) -> bool
    ensures { result ≡ any_optional (parts_of parts.now) }
{
    for part in parts {
        if is_part_optional(part) {
            return true;
        }
    }
    false
}

fn is_part_optional(part: &Part) -> bool
    ensures { result ≡ is_optional_part (part_of part.now) }
{
    match part {
        Part::Child(node) => has_optional(node),
        Part::List(nodes) => is_any_optional(nodes.as_slice()),
        Part::Holes(nodes) => is_any_hole_optional(nodes.as_slice()),
        _ => false,
    }
}

fn is_any_optional(nodes: &[Node]) -> bool
    ensures { result ≡ any_optional (trees nodes.now) }
{
    for node in nodes {
        if has_optional(node) {
            return true;
        }
    }
    false
}

fn is_any_hole_optional(nodes: &[Option<Node>]) -> bool
    ensures { result ≡ any_optional (nullable_trees nodes.now) }
{
    for node in nodes {
        if is_hole_optional(node) {
            return true;
        }
    }
    false
}

fn is_hole_optional(node: &Option<Node>) -> bool
    ensures { result ≡ part_has_optional (nullable node.now) }
{
    match node {
        Some(node) => has_optional(node),
        None => false,
    }
}
