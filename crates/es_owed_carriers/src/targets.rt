// What an assignment or an update writes.

ghost use Rattle.std.specs.Prelude.{◌≡◌};
ghost use Rattle.es_base.specs.Tree.{child};
ghost use Rattle.es_lowered.specs.Carriers as spec;
ghost use Rattle.es_lowered.specs.Carriers.{is_lowered_target, same_node};
ghost use Rattle.es_node.specs.View.{kind_of, parts_in, parts_of};
ghost use Rattle.es_steps.specs.Parts.{at};

use es_base::kind::Kind;
use es_binding_faults::hoisted::part_at;
use es_node::node::{Node, Part};
use es_owed::same::same_kind;
use es_tree::expression::{AssignmentExpressionRef, UpdateExpressionRef};
use es_validity::parts::is_super_member;

/// Whether the second node writes what the first writes, and is an assignment if that is one. A write of a private member or of
/// one of `super` may become anything, and what writes nothing too.
#[tactic(auto, using(crate::proofs::LoweredTargets::no_write))]
pub fn keeps_target(node: &Node, other: &Node) -> bool
    ensures { result ≡ spec.keeps_target (kind_of node.now) (parts_in node.now) (kind_of other.now) (parts_in other.now) }
{
    match node.kind() {
        // a = 1
        Kind::AssignmentExpression => {
            let target = AssignmentExpressionRef::from_node(node).left;
            is_lowered_target(target)
                || (same_kind(Kind::AssignmentExpression, other.kind())
                    && is_node_at(target, other.parts(), 1))
        }
        // a++
        Kind::UpdateExpression => {
            let target = UpdateExpressionRef::from_node(node).argument;
            is_lowered_target(target) || is_node_at(target, other.parts(), 1)
        }
        _ => true,
    }
}

/// Whether it assigns a member of `super`, which a lowering does by a helper alone.
#[tactic(auto, using(crate::proofs::LoweredTargets::super_target, crate::proofs::LoweredTargets::no_assignment))]
pub fn assigns_super(node: &Node) -> bool
    ensures { result ≡ spec.assigns_super (kind_of node.now) (parts_in node.now) }
{
    match node.kind() {
        // super.x = 1
        Kind::AssignmentExpression => {
            is_super_member(AssignmentExpressionRef::from_node(node).left)
        }
        _ => false,
    }
}

/// Whether it is a private member or a member of `super`.
#[tactic(auto, using(crate::proofs::LoweredTargets::private_target, crate::proofs::LoweredTargets::other_target))]
fn is_lowered_target(target: &Node) -> bool
    ensures { result ≡ is_lowered_target (child target.now) }
{
    match target.kind() {
        // o.#x
        Kind::PrivateField => true,
        // super.x
        _ => is_super_member(target),
    }
}

/// Whether a node of this node's number stands at this place.
#[tactic(auto, using(es_owed::proofs::Nodes::number_of_node))]
fn is_node_at(node: &Node, parts: &[Part], i: usize) -> bool
    ensures { result ≡ same_node (child node.now) (at i (parts_of parts.now)) }
{
    match part_at(parts, i) {
        Some(Part::Child(other)) => node.node_id().0 == other.node_id().0,
        _ => false,
    }
}
