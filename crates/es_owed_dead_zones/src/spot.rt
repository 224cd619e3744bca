// What is around a part of a program, in its body.

ghost use Rattle.std.specs.Prelude.{◌≡◌, ◌++◌, ◌∷◌, ◌&&◌, ◌||◌, [], cond, nat_eq, not, IfOk, OnOk};
ghost use Rattle.std.specs.Option.{option_to_list};
ghost use Rattle.es_node.specs.View.{kind_of, number_in, parts_in};
ghost use Rattle.es_steps.specs.Printable.{has_optional};
ghost use Rattle.es_steps.specs.Repeated as repeated;
ghost use Rattle.es_lowered.specs.DeadZones as spec;
ghost use Rattle.es_lowered.specs.Timely as timely;
ghost use Rattle.es_marks.specs.Around.{held_in, held_parts};
ghost use Rattle.es_touches.specs.Touches.{form_of, kept_touch, kept_touches};
ghost use Rattle.es_owed_dead_zones.specs.Walk.{spot_at, spot_of};

use crate::held::is_held;
use es_base::kind::Kind;
use es_marks::around::{HeldPart, HeldParts};
use es_node::node::Node;
use es_owed_initialized::kinds::is_arrow;
use es_touches::touch::{KeptTouch, TouchForm};
use es_validity::parts::has_optional;
use std::alloc::{AllocError, Global};

/// What is around a part of a program, in its body.
#[derive(Clone, Copy)]
pub struct Spot<'r> {
    /// The node whose part it is.
    pub around: Option<u32>,
    /// The parts that may run or not, or again.
    pub held: HeldParts<'r>,
    /// The chain whose members and calls it is the object or callee of.
    pub chain: Option<u32>,
}

/// Around a body.
pub fn nothing_around<'r>() -> Spot<'r>
    ensures { spot_of result ≡ spec.nothing_around }
{
    Spot {
        around: None,
        held: HeldParts::None,
        chain: None,
    }
}

/// The same, where no chain counts.
pub fn in_no_chain<'r>(spot: &Spot<'r>) -> Spot<'r>
    ensures { spot_of result ≡ spec.in_no_chain (spot_of spot.now) }
{
    Spot {
        chain: None,
        ..*spot
    }
}

/// Around the i-th part of a node that stands so.
#[tactic(auto, using(crate::proofs::Spots::spot_node))]
pub fn spot_inside<'r>(spot: &'r Spot<'r>, node: &Node, i: usize) -> Spot<'r>
    ensures { spot_of result ≡ spot_at (spot_of spot.now) node.now i }
{
    Spot {
        around: Some(node.node_id().0),
        held: held_inside(spot, node, i),
        chain: chain_inside(spot, node, i),
    }
}

/// The parts around that may run or not, or again: what stands behind a `?.` of a chain may not run.
pub fn held_behind<'r>(spot: &'r Spot<'r>, is_optional: bool) -> HeldParts<'r>
    ensures { held_in result ≡ spec.held_behind (spot_of spot.now).chain is_optional (spot_of spot.now).held }
{
    match spot.chain {
        // a?.b
        Some(chain) => held_behind_in(spot, chain, is_optional),
        None => spot.held,
    }
}

fn held_behind_in<'r>(spot: &'r Spot<'r>, chain: u32, is_optional: bool) -> HeldParts<'r>
    ensures { held_in result ≡ cond is_optional ((chain, 2) ∷ held_in spot.now.held) (held_in spot.now.held) }
{
    if is_optional {
        HeldParts::Inside {
            part: HeldPart {
                node: chain,
                part: 2,
            },
            outer: &spot.held,
        }
    } else {
        spot.held
    }
}

fn held_inside<'r>(spot: &'r Spot<'r>, node: &Node, i: usize) -> HeldParts<'r>
    ensures { held_in result ≡ cond ((timely.is_held (kind_of node.now) (parts_in node.now) i && not (spec.is_chain (kind_of node.now))) || repeated.is_arrow (kind_of node.now)) ((number_in node.now, i) ∷ (spot_of spot.now).held) (cond (nat_eq i 0) (spot_of spot.now).held (spec.held_behind (spot_of spot.now).chain (has_optional node.now) (spot_of spot.now).held)) }
{
    let kind = node.kind();
    if (is_held(node, i) && !is_chain(kind)) || is_arrow(kind) {
        HeldParts::Inside {
            part: HeldPart {
                node: node.node_id().0,
                part: i,
            },
            outer: &spot.held,
        }
    } else if i == 0 {
        spot.held
    } else {
        held_behind(spot, has_optional(node))
    }
}

fn chain_inside(spot: &Spot, node: &Node, i: usize) -> Option<u32>
    ensures { option_to_list result ≡ spec.chain_in (spot_of spot.now) (kind_of node.now) (number_in node.now) i }
{
    let kind = node.kind();
    if is_chain(kind) {
        Some(node.node_id().0)
    } else if is_link(kind) && i == 0 {
        spot.chain
    } else {
        None
    }
}

/// `a?.b`, as a whole.
fn is_chain(kind: Kind) -> bool
    ensures { result ≡ spec.is_chain kind }
{
    matches!(kind, Kind::ChainExpression)
}

/// A member or a call, which a chain goes through.
fn is_link(kind: Kind) -> bool
    ensures { result ≡ spec.is_link kind }
{
    matches!(
        kind,
        Kind::MemberExpression | Kind::PrivateField | Kind::CallExpression
    )
}

// ---- touches

/// Adds a touch of this node. Fails on allocation failure alone.
pub fn push_touch(
    alloc: Global,
    held: &HeldParts,
    number: u32,
    form: TouchForm,
    touches: &mut Vec<KeptTouch>,
) -> Result<(), AllocError>
    ensures { OnOk result (kept_touches touches.new.items ≡ kept_touches touches.old.items ++ spec.touch (held_in held.now) number (form_of form)) }
{
    let mut kept = Vec::new(alloc);
    add_held(held, &mut kept)?;
    touches.push(KeptTouch {
        number,
        form,
        held: kept,
    })?;
    Ok(())
}

/// Adds these parts. Fails on allocation failure alone.
fn add_held(parts: &HeldParts, kept: &mut Vec<HeldPart>) -> Result<(), AllocError>
    ensures { OnOk result (held_parts kept.new.items ≡ held_parts kept.old.items ++ held_in parts.now) }
{
    match parts {
        HeldParts::None => Ok(()),
        HeldParts::Inside { part, outer } => {
            kept.push(*part)?;
            add_held(outer, kept)
        }
    }
}

/// Adds the event of the node around, which it has between its parts. Fails on allocation failure alone.
pub fn push_around(
    alloc: Global,
    spot: &Spot,
    touches: &mut Vec<KeptTouch>,
) -> Result<(), AllocError>
    ensures { OnOk result (kept_touches touches.new.items ≡ kept_touches touches.old.items ++ spec.touch_around (spot_of spot.now)) }
{
    match spot.around {
        Some(around) => push_touch(alloc, &spot.held, around, TouchForm::BetweenParts, touches),
        None => Ok(()),
    }
}
