// The first of the faults of a tree, met one at a time.

ghost use Rattle.std.specs.Prelude.{◌≡◌, map};
ghost use Rattle.es_validity.specs.Faults.{rule_rank, left_out_rank, rank_of, is_before, earlier, first_with, fault_at, if_some};
ghost use Rattle.es_validity.specs.Found.{fault_of, found};

use crate::fault::{Cause, Fault, LeftOut, TreeRule};
use es_base::ids::NodeId;

/// The place of a rule in their order.
fn rule_rank(rule: TreeRule) -> u8
    ensures { result ≡ rule_rank rule }
{
    match rule {
        TreeRule::TwoConstructors => 0,
        TreeRule::ConstructorForm => 1,
        TreeRule::PrivateConstructor => 2,
        TreeRule::SuperCall => 3,
        TreeRule::SuperMember => 4,
        TreeRule::SuperPrivate => 5,
        TreeRule::DeletePrivate => 6,
        TreeRule::RepeatedName => 7,
        TreeRule::StrayJump => 8,
        TreeRule::OwnArguments => 9,
        TreeRule::AwaitYield => 10,
        TreeRule::NoName => 11,
        TreeRule::ChainForm => 12,
        TreeRule::DeclarationPlace => 13,
        TreeRule::ModuleItem => 14,
    }
}

/// The place of a form that is left out, behind all rules.
fn left_out_rank(what: LeftOut) -> u8
    ensures { result ≡ left_out_rank what }
{
    match what {
        LeftOut::Foreign => 17,
        LeftOut::With => 18,
        LeftOut::Eval => 19,
        LeftOut::HelperName => 20,
        LeftOut::LooseMethod => 21,
        LeftOut::LooseIn => 22,
        LeftOut::SuperForm => 23,
        LeftOut::SuperInInitializer => 24,
    }
}

/// The place of a cause among those at one node.
fn rank(cause: Cause) -> u8
    ensures { result ≡ rank_of cause }
{
    match cause {
        Cause::BadTree(rule) => rule_rank(rule),
        Cause::DuplicatePrivate => 15,
        Cause::UndeclaredPrivate => 16,
        Cause::Unsupported(what) => left_out_rank(what),
    }
}

/// Whether a fault comes before another: its node has a lesser number, or the same and its cause comes first.
fn is_before(fault: Fault, other: Fault) -> bool
    ensures { result ≡ is_before (fault_of fault) (fault_of other) }
{
    fault.node.0 < other.node.0
        || (fault.node.0 == other.node.0 && rank(fault.cause) < rank(other.cause))
}

/// The first of this fault and the one that was first before.
pub fn earlier(first: Option<Fault>, node: NodeId, cause: Cause) -> Option<Fault>
    ensures { found result ≡ earlier (found first) (fault_at cause node.0) }
{
    let fault = Fault { node, cause };
    match first {
        Some(before) => {
            if is_before(fault, before) {
                Some(fault)
            } else {
                Some(before)
            }
        }
        None => Some(fault),
    }
}

/// The same, where the node has this cause or none.
pub fn if_some(first: Option<Fault>, node: NodeId, cause: Option<Cause>) -> Option<Fault>
    ensures { found result ≡ first_with (found first) (if_some cause node.0) }
{
    match cause {
        Some(cause) => earlier(first, node, cause),
        None => first,
    }
}

/// The same, where each of these nodes has this cause.
pub fn each(first: Option<Fault>, nodes: &[NodeId], cause: Cause) -> Option<Fault>
    ensures { found result ≡ first_with (found first) (map (fault_at cause) (map (λ n. n.0) nodes.now)) }
{
    let mut first = first;
    for node in nodes {
        first = earlier(first, *node, cause);
    }
    first
}
