// The touches of a program in the order of evaluation.

ghost use Rattle.std.specs.Prelude.{◌≡◌, ◌++◌, ◌∷◌, [], cond, not, true, OnOk};
ghost use Rattle.es_base.specs.Numbered as numbered;
ghost use Rattle.es_base.specs.Tree.{child, nullable, nullable_trees, trees};
ghost use Rattle.es_base.specs.declared.kind.Kind.{Kind};
ghost use Rattle.es_lowered.specs.DeadZones as spec;
ghost use Rattle.es_lowered.specs.Timely as timely;
ghost use Rattle.es_node.specs.View.{kind_of, number_in, part_of, parts_in, parts_of};
ghost use Rattle.es_steps.specs.Printable.{behind_first, has_optional};
ghost use Rattle.es_steps.specs.PrivateNames as names;
ghost use Rattle.es_owed_timely.specs.Walk.{parts_from};
ghost use Rattle.es_touches.specs.Touches.{kept_touch, kept_touches};
ghost use Rattle.es_owed_dead_zones.specs.Walk as walked;
ghost use Rattle.es_owed_dead_zones.specs.Walk.{field_touch, first_touches, if_tree, key_touch, keys_of_part, spot_at, spot_of, touches_from, touches_inside, value_touch, values_of_part};

use crate::own::add_own;
use crate::spot::{Spot, in_no_chain, push_around, push_touch, spot_inside};
use crate::terms::Terms;
use es_base::kind::Kind;
use es_generated::numbers::is_new;
use es_node::node::{Node, Part};
use es_owed_initialized::kinds::{is_arrow, is_class, is_element};
use es_owed_initialized::runs::runs_with_class;
use es_shapes::walk::is_any_function;
use es_touches::forms::{
    is_function_declaration, is_keyed, is_member, is_pattern, is_property_definition, is_turned,
};
use es_touches::touch::{KeptTouch, TouchForm, is_this};
use es_tree::expression::{CallExpressionRef, TemplateLiteralRef};
use std::alloc::{AllocError, Global};

/// Adds the touches of a node that stands so. Fails on allocation failure alone.
#[cycle(touches)]
#[tactic(auto, using(crate::proofs::Walked::touches_apart, crate::proofs::Walked::touches_node, es_node::proofs::Below::nodes_in))]
fn add_touches(
    alloc: Global,
    terms: &Terms,
    spot: &Spot,
    node: &Node,
    touches: &mut Vec<KeptTouch>,
) -> Result<(), AllocError>
    ensures { OnOk result (kept_touches touches.new.items ≡ kept_touches touches.old.items ++ walked.touches terms.now (spot_of spot.now) node.now) }
{
    if is_apart(terms, node) {
        add_apart(alloc, spot, node, touches)
    } else {
        add_whole(alloc, terms, spot, node, touches)
    }
}

/// Adds those of a node that does not stand apart. Fails on allocation failure alone.
#[cycle(touches)]
fn add_whole(
    alloc: Global,
    terms: &Terms,
    spot: &Spot,
    node: &Node,
    touches: &mut Vec<KeptTouch>,
) -> Result<(), AllocError>
    ensures { OnOk result (kept_touches touches.new.items ≡ kept_touches touches.old.items ++ (touches_inside terms.now (spot_of spot.now) node.now ++ walked.own_touches terms.now (spot_of spot.now) (spec.held_behind (spot_of spot.now).chain (has_optional node.now) (spot_of spot.now).held) (kind_of node.now) (number_in node.now) (parts_in node.now))) }
{
    add_inside(alloc, terms, &*spot, node, touches)?;
    add_own(alloc, terms, spot, node, touches)
}

/// Adds those of the parts of a node that does not stand apart. Fails on allocation failure alone.
#[cycle(touches)]
#[tactic(auto, using(crate::proofs::Walked::inside_class, crate::proofs::Walked::inside_turned, crate::proofs::Walked::inside_keyed, crate::proofs::Walked::inside_other, es_node::proofs::Below::nodes_in))]
fn add_inside(
    alloc: Global,
    terms: &Terms,
    spot: &Spot,
    node: &Node,
    touches: &mut Vec<KeptTouch>,
) -> Result<(), AllocError>
    ensures { OnOk result (kept_touches touches.new.items ≡ kept_touches touches.old.items ++ touches_inside terms.now (spot_of spot.now) node.now) }
{
    let kind = node.kind();
    if is_class(kind) {
        add_class(alloc, terms, &in_no_chain(&*spot), node, touches)
    } else if is_turned(kind) {
        add_turned(alloc, terms, spot, node, touches)
    } else if is_keyed(kind) {
        add_keyed(alloc, terms, spot, node, touches)
    } else {
        add_by_kind(alloc, terms, spot, node, touches)
    }
}

/// Whether a node runs later or elsewhere; the body of a new arrow is touched where the arrow stands.
#[tactic(auto, using(crate::proofs::Walked::apart_import, crate::proofs::Walked::apart_export, crate::proofs::Walked::apart_other))]
pub fn is_apart(terms: &Terms, node: &Node) -> bool
    ensures { result ≡ walked.is_apart terms.now (kind_of node.now) (number_in node.now) }
{
    match node.kind() {
        // import a from "b", export { c }
        Kind::ImportDeclaration | Kind::ExportSpecifier => true,
        kind => {
            is_any_function(kind) && !(is_arrow(kind) && is_new(terms.first, node.node_id().0))
        }
    }
}

/// Adds the declaration of a function, if the node, which stands apart, is that. Fails on allocation failure alone.
fn add_apart(
    alloc: Global,
    spot: &Spot,
    node: &Node,
    touches: &mut Vec<KeptTouch>,
) -> Result<(), AllocError>
    ensures { OnOk result (kept_touches touches.new.items ≡ kept_touches touches.old.items ++ cond (spec.is_function_declaration (kind_of node.now)) (spec.touch (spot_of spot.now).held (number_in node.now) spec.another) []) }
{
    if is_function_declaration(node.kind()) {
        push_touch(
            alloc,
            &spot.held,
            node.node_id().0,
            TouchForm::Another,
            touches,
        )?;
    }
    Ok(())
}

// ---- parts in other orders

/// Adds those of a node whose second part is evaluated first. Fails on allocation failure alone.
#[cycle(touches)]
#[tactic(auto, using(crate::proofs::Walked::turned_parts, crate::proofs::Walked::turned_one, crate::proofs::Walked::turned_none))]
fn add_turned(
    alloc: Global,
    terms: &Terms,
    spot: &Spot,
    node: &Node,
    touches: &mut Vec<KeptTouch>,
) -> Result<(), AllocError>
    ensures { OnOk result (kept_touches touches.new.items ≡ kept_touches touches.old.items ++ walked.turned terms.now (spot_at (spot_of spot.now) node.now) (parts_in node.now)) }
{
    let parts = node.parts();
    match parts {
        [first, second, ..] => {
            add_part(alloc, terms, &*spot, node, 1, second, touches)?;
            add_part(alloc, terms, &*spot, node, 0, first, touches)?;
            add_from(alloc, terms, spot, node, 2, parts, touches)
        }
        [only] => add_part(alloc, terms, spot, node, 0, only, touches),
        [] => Ok(()),
    }
}

/// Adds those of a node with a key, which is converted behind itself. Fails on allocation failure alone.
#[cycle(touches)]
#[tactic(auto, using(crate::proofs::Walked::keyed_parts, crate::proofs::Walked::keyed_none))]
fn add_keyed(
    alloc: Global,
    terms: &Terms,
    spot: &Spot,
    node: &Node,
    touches: &mut Vec<KeptTouch>,
) -> Result<(), AllocError>
    ensures { OnOk result (kept_touches touches.new.items ≡ kept_touches touches.old.items ++ walked.keyed terms.now (spec.converted (spot_of spot.now) (kind_of node.now) (number_in node.now)) (spot_at (spot_of spot.now) node.now) (parts_in node.now)) }
{
    let parts = node.parts();
    match parts {
        [key, ..] => {
            add_part(alloc, terms, &*spot, node, 0, key, touches)?;
            add_conversion(alloc, &*spot, node, touches)?;
            add_from(alloc, terms, spot, node, 1, parts, touches)
        }
        [] => Ok(()),
    }
}

/// Adds the conversion of a key. Fails on allocation failure alone.
#[tactic(auto, using(crate::proofs::Walked::converted_property, crate::proofs::Walked::converted_other))]
fn add_conversion(
    alloc: Global,
    spot: &Spot,
    node: &Node,
    touches: &mut Vec<KeptTouch>,
) -> Result<(), AllocError>
    ensures { OnOk result (kept_touches touches.new.items ≡ kept_touches touches.old.items ++ spec.converted (spot_of spot.now) (kind_of node.now) (number_in node.now)) }
{
    match node.kind() {
        // { [a]: b }
        Kind::Property => push_around(alloc, spot, touches),
        _ => {
            push_touch(
                alloc,
                &spot.held,
                node.node_id().0,
                TouchForm::Another,
                touches,
            )
        }
    }
}

/// Adds those of any other node. Fails on allocation failure alone.
#[cycle(touches)]
#[tactic(auto, using(crate::proofs::Walked::inner_other))]
fn add_by_kind(
    alloc: Global,
    terms: &Terms,
    spot: &Spot,
    node: &Node,
    touches: &mut Vec<KeptTouch>,
) -> Result<(), AllocError>
    ensures { OnOk result (kept_touches touches.new.items ≡ kept_touches touches.old.items ++ walked.inner_touches terms.now (kind_of node.now) (spec.in_no_chain (spot_of spot.now)) (spot_at (spot_of spot.now) node.now) (parts_in node.now)) }
{
    match node.kind() {
        // (() => a)()
        Kind::CallExpression => add_call(alloc, terms, spot, node, touches),
        // `a${b}`
        Kind::TemplateLiteral => add_template(alloc, terms, spot, node, touches),
        // [a = b] = c
        Kind::AssignmentTargetWithDefault => add_default(alloc, terms, spot, node, touches),
        // a = b
        Kind::AssignmentExpression => add_assignment(alloc, terms, spot, node, touches),
        _ => add_from(alloc, terms, spot, node, 0, node.parts(), touches),
    }
}

/// Adds those of a call: a new arrow that is called where it stands runs behind its arguments. Fails on allocation failure
/// alone.
#[cycle(touches)]
#[tactic(auto, using(crate::proofs::Walked::call_arrow, crate::proofs::Walked::call_other, es_node::proofs::Below::nodes_in))]
fn add_call(
    alloc: Global,
    terms: &Terms,
    spot: &Spot,
    node: &Node,
    touches: &mut Vec<KeptTouch>,
) -> Result<(), AllocError>
    requires { kind_of node.now ≡ Kind.CallExpression }
    ensures { OnOk result (kept_touches touches.new.items ≡ kept_touches touches.old.items ++ walked.inner_touches terms.now Kind.CallExpression (spec.in_no_chain (spot_of spot.now)) (spot_at (spot_of spot.now) node.now) (parts_in node.now)) }
{
    let callee = CallExpressionRef::from_node(node).callee;
    let parts = node.parts();
    if is_arrow(callee.kind()) {
        add_from(alloc, terms, &*spot, node, 1, parts, touches)?;
        add_called(alloc, terms, &in_no_chain(&*spot), callee, touches)
    } else {
        add_from(alloc, terms, spot, node, 0, parts, touches)
    }
}

/// Adds those of an arrow that is called where it stands, if that is new. Fails on allocation failure alone.
#[cycle(touches)]
#[tactic(auto, using(es_node::proofs::Below::nodes_in))]
fn add_called(
    alloc: Global,
    terms: &Terms,
    spot: &Spot,
    arrow: &Node,
    touches: &mut Vec<KeptTouch>,
) -> Result<(), AllocError>
    ensures { OnOk result (kept_touches touches.new.items ≡ kept_touches touches.old.items ++ cond (numbered.is_new terms.now.first (number_in arrow.now)) (walked.touches_of terms.now (spot_of spot.now) (parts_in arrow.now)) []) }
{
    if is_new(terms.first, arrow.node_id().0) {
        add_of_parts(alloc, terms, spot, arrow.parts(), touches)?;
    }
    Ok(())
}

/// Adds those of a template: each expression with its conversion. Fails on allocation failure alone.
#[cycle(touches)]
#[tactic(auto, using(crate::proofs::Walked::template_node, es_node::proofs::Below::nodes_in))]
fn add_template(
    alloc: Global,
    terms: &Terms,
    spot: &Spot,
    node: &Node,
    touches: &mut Vec<KeptTouch>,
) -> Result<(), AllocError>
    requires { kind_of node.now ≡ Kind.TemplateLiteral }
    ensures { OnOk result (kept_touches touches.new.items ≡ kept_touches touches.old.items ++ walked.inner_touches terms.now Kind.TemplateLiteral (spec.in_no_chain (spot_of spot.now)) (spot_at (spot_of spot.now) node.now) (parts_in node.now)) }
{
    let expressions = TemplateLiteralRef::from_node(node).expressions;
    let inside = spot_inside(&*spot, node, 1);
    add_joined(alloc, terms, &inside, expressions, touches)
}

#[cycle(touches)]
#[tactic(auto, using(crate::proofs::Walked::joined_more))]
fn add_joined(
    alloc: Global,
    terms: &Terms,
    spot: &Spot,
    expressions: &[Node],
    touches: &mut Vec<KeptTouch>,
) -> Result<(), AllocError>
    ensures { OnOk result (kept_touches touches.new.items ≡ kept_touches touches.old.items ++ walked.joined terms.now (spot_of spot.now) (trees expressions.now)) }
{
    for expression in expressions {
        add_converted(alloc, terms, &*spot, expression, touches)?;
    }
    Ok(())
}

/// Adds those of an expression of a template, and its conversion. Fails on allocation failure alone.
#[cycle(touches)]
fn add_converted(
    alloc: Global,
    terms: &Terms,
    spot: &Spot,
    expression: &Node,
    touches: &mut Vec<KeptTouch>,
) -> Result<(), AllocError>
    ensures { OnOk result (kept_touches touches.new.items ≡ kept_touches touches.old.items ++ (walked.touches terms.now (spot_of spot.now) expression.now ++ spec.touch_around (spot_of spot.now))) }
{
    add_touches(alloc, terms, &*spot, expression, touches)?;
    push_around(alloc, spot, touches)
}

/// Adds those of a target with a default value: a member is evaluated in front of that. Fails on allocation failure alone.
#[cycle(touches)]
#[tactic(auto, using(crate::proofs::Walked::default_member, crate::proofs::Walked::default_other, crate::proofs::Walked::default_short))]
fn add_default(
    alloc: Global,
    terms: &Terms,
    spot: &Spot,
    node: &Node,
    touches: &mut Vec<KeptTouch>,
) -> Result<(), AllocError>
    ensures { OnOk result (kept_touches touches.new.items ≡ kept_touches touches.old.items ++ walked.inner_touches terms.now Kind.AssignmentTargetWithDefault (spec.in_no_chain (spot_of spot.now)) (spot_at (spot_of spot.now) node.now) (parts_in node.now)) }
{
    let parts = node.parts();
    match parts {
        [target, value, ..] => {
            if is_member(target) {
                add_part(alloc, terms, &*spot, node, 0, target, touches)?;
                add_part(alloc, terms, spot, node, 1, value, touches)
            } else {
                add_part(alloc, terms, &*spot, node, 1, value, touches)?;
                add_part(alloc, terms, spot, node, 0, target, touches)
            }
        }
        _ => add_from(alloc, terms, spot, node, 0, parts, touches),
    }
}

/// Adds those of an assignment: a pattern takes apart what is evaluated first. Fails on allocation failure alone.
#[cycle(touches)]
#[tactic(auto, using(crate::proofs::Walked::assigned_pattern, crate::proofs::Walked::assigned_other, crate::proofs::Walked::assigned_short))]
fn add_assignment(
    alloc: Global,
    terms: &Terms,
    spot: &Spot,
    node: &Node,
    touches: &mut Vec<KeptTouch>,
) -> Result<(), AllocError>
    ensures { OnOk result (kept_touches touches.new.items ≡ kept_touches touches.old.items ++ walked.inner_touches terms.now Kind.AssignmentExpression (spec.in_no_chain (spot_of spot.now)) (spot_at (spot_of spot.now) node.now) (parts_in node.now)) }
{
    let parts = node.parts();
    match parts {
        [_, target, value, ..] => {
            if is_pattern(target) {
                add_part(alloc, terms, &*spot, node, 2, value, touches)?;
                add_part(alloc, terms, spot, node, 1, target, touches)
            } else {
                add_part(alloc, terms, &*spot, node, 1, target, touches)?;
                add_part(alloc, terms, spot, node, 2, value, touches)
            }
        }
        _ => add_from(alloc, terms, spot, node, 0, parts, touches),
    }
}

// ---- parts

/// Adds those of these parts of a node from this one on. Fails on allocation failure alone.
#[cycle(touches)]
#[tactic(auto, using(es_owed_timely::proofs::WalkedMarks::dropped))]
fn add_from(
    alloc: Global,
    terms: &Terms,
    spot: &Spot,
    node: &Node,
    from: usize,
    parts: &[Part],
    touches: &mut Vec<KeptTouch>,
) -> Result<(), AllocError>
    ensures { OnOk result (kept_touches touches.new.items ≡ kept_touches touches.old.items ++ touches_from terms.now (spot_at (spot_of spot.now) node.now) from (parts_from from (parts_of parts.now))) }
{
    for i in from..parts.len() {
        add_part(alloc, terms, &*spot, node, i, &parts[i], touches)?;
    }
    Ok(())
}

/// Adds those of the i-th part of a node. Fails on allocation failure alone.
#[cycle(touches)]
fn add_part(
    alloc: Global,
    terms: &Terms,
    spot: &Spot,
    node: &Node,
    i: usize,
    part: &Part,
    touches: &mut Vec<KeptTouch>,
) -> Result<(), AllocError>
    ensures { OnOk result (kept_touches touches.new.items ≡ kept_touches touches.old.items ++ walked.touches_at terms.now (spot_at (spot_of spot.now) node.now i) (part_of part.now)) }
{
    let inside = spot_inside(&*spot, node, i);
    add_at(alloc, terms, &inside, part, touches)
}

/// Adds those of a part that stands so. Fails on allocation failure alone.
#[cycle(touches)]
pub fn add_at(
    alloc: Global,
    terms: &Terms,
    spot: &Spot,
    part: &Part,
    touches: &mut Vec<KeptTouch>,
) -> Result<(), AllocError>
    ensures { OnOk result (kept_touches touches.new.items ≡ kept_touches touches.old.items ++ walked.touches_at terms.now (spot_of spot.now) (part_of part.now)) }
{
    match part {
        Part::Child(node) => add_touches(alloc, terms, spot, node, touches),
        Part::List(nodes) => add_of_list(alloc, terms, spot, nodes.as_slice(), touches),
        Part::Holes(nodes) => add_of_list_with_holes(alloc, terms, spot, nodes.as_slice(), touches),
        _ => Ok(()),
    }
}

#[cycle(touches)]
fn add_of_parts(
    alloc: Global,
    terms: &Terms,
    spot: &Spot,
    parts: &[Part],
    touches: &mut Vec<KeptTouch>,
) -> Result<(), AllocError>
    ensures { OnOk result (kept_touches touches.new.items ≡ kept_touches touches.old.items ++ walked.touches_of terms.now (spot_of spot.now) (parts_of parts.now)) }
{
    for part in parts {
        add_at(alloc, terms, &*spot, part, touches)?;
    }
    Ok(())
}

#[cycle(touches)]
fn add_of_list(
    alloc: Global,
    terms: &Terms,
    spot: &Spot,
    nodes: &[Node],
    touches: &mut Vec<KeptTouch>,
) -> Result<(), AllocError>
    ensures { OnOk result (kept_touches touches.new.items ≡ kept_touches touches.old.items ++ walked.touches_of terms.now (spot_of spot.now) (trees nodes.now)) }
{
    for node in nodes {
        add_touches(alloc, terms, &*spot, node, touches)?;
    }
    Ok(())
}

#[cycle(touches)]
fn add_of_list_with_holes(
    alloc: Global,
    terms: &Terms,
    spot: &Spot,
    nodes: &[Option<Node>],
    touches: &mut Vec<KeptTouch>,
) -> Result<(), AllocError>
    ensures { OnOk result (kept_touches touches.new.items ≡ kept_touches touches.old.items ++ walked.touches_of terms.now (spot_of spot.now) (nullable_trees nodes.now)) }
{
    for node in nodes {
        add_of_hole(alloc, terms, &*spot, node, touches)?;
    }
    Ok(())
}

#[cycle(touches)]
fn add_of_hole(
    alloc: Global,
    terms: &Terms,
    spot: &Spot,
    node: &Option<Node>,
    touches: &mut Vec<KeptTouch>,
) -> Result<(), AllocError>
    ensures { OnOk result (kept_touches touches.new.items ≡ kept_touches touches.old.items ++ walked.touches_at terms.now (spot_of spot.now) (nullable node.now)) }
{
    match node {
        Some(node) => add_touches(alloc, terms, spot, node, touches),
        None => Ok(()),
    }
}

// ---- classes

/// Adds those of a class: its heritage, its keys, the class, which gets its name, and the elements that run with it (ECMA-262,
/// 15.7.14). Fails on allocation failure alone.
#[cycle(touches)]
#[tactic(auto, using(crate::proofs::Walked::class_parts))]
fn add_class(
    alloc: Global,
    terms: &Terms,
    spot: &Spot,
    node: &Node,
    touches: &mut Vec<KeptTouch>,
) -> Result<(), AllocError>
    ensures { OnOk result (kept_touches touches.new.items ≡ kept_touches touches.old.items ++ walked.class_touches terms.now (spot_of spot.now) (number_in node.now) (parts_in node.now)) }
{
    match node.parts() {
        [_, heritage, body, ..] => {
            add_at(alloc, terms, &*spot, heritage, touches)?;
            add_keys_in(alloc, terms, &*spot, body, touches)?;
            add_made(alloc, &*spot, node.node_id().0, touches)?;
            add_running(alloc, terms, spot, body, touches)
        }
        _ => Ok(()),
    }
}

/// Adds those of the elements that run with a class, in which `this` is the class. Fails on allocation failure alone.
#[cycle(touches)]
fn add_running(
    alloc: Global,
    terms: &Terms,
    spot: &Spot,
    body: &Part,
    touches: &mut Vec<KeptTouch>,
) -> Result<(), AllocError>
    ensures { OnOk result (kept_touches touches.new.items ≡ kept_touches touches.old.items ++ spec.without_this (walked.value_touches terms.now true (spot_of spot.now) (part_of body.now))) }
{
    let mut values = Vec::new(alloc);
    add_values_in(alloc, terms, true, spot, body, &mut values)?;
    add_without_this(values, touches)
}

/// Adds these but for what reads `this`. Fails on allocation failure alone.
fn add_without_this(values: Vec<KeptTouch>, touches: &mut Vec<KeptTouch>) -> Result<(), AllocError>
    ensures { OnOk result (kept_touches touches.new.items ≡ kept_touches touches.old.items ++ spec.without_this (kept_touches values.items)) }
{
    for touch in values {
        add_unless_this(touch, touches)?;
    }
    Ok(())
}

fn add_unless_this(touch: KeptTouch, touches: &mut Vec<KeptTouch>) -> Result<(), AllocError>
    ensures { OnOk result (kept_touches touches.new.items ≡ kept_touches touches.old.items ++ cond (spec.is_this (kept_touch touch).form) [] (kept_touch touch ∷ [])) }
{
    if is_this(touch.form) {
        drop(touch);
    } else {
        touches.push(touch)?;
    }
    Ok(())
}

/// Adds that a class is made and gets its name. Fails on allocation failure alone.
fn add_made(
    alloc: Global,
    spot: &Spot,
    class: u32,
    touches: &mut Vec<KeptTouch>,
) -> Result<(), AllocError>
    ensures { OnOk result (kept_touches touches.new.items ≡ kept_touches touches.old.items ++ (spec.touch (spot_of spot.now).held class spec.makes_class ++ spec.touch (spot_of spot.now).held class spec.another)) }
{
    push_touch(alloc, &spot.held, class, TouchForm::MakesClass, touches)?;
    push_touch(alloc, &spot.held, class, TouchForm::Another, touches)
}

/// Adds those of the keys in the body of a class. Fails on allocation failure alone.
#[cycle(touches)]
fn add_keys_in(
    alloc: Global,
    terms: &Terms,
    spot: &Spot,
    body: &Part,
    touches: &mut Vec<KeptTouch>,
) -> Result<(), AllocError>
    ensures { OnOk result (kept_touches touches.new.items ≡ kept_touches touches.old.items ++ walked.key_touches terms.now (spot_of spot.now) (part_of body.now)) }
{
    match body {
        Part::Child(body) => add_keys_of(alloc, terms, spot, body, touches),
        _ => Ok(()),
    }
}

#[cycle(touches)]
#[tactic(auto, using(crate::proofs::Walked::keys_first, crate::proofs::Walked::keys_none, es_node::proofs::Below::nodes_in))]
fn add_keys_of(
    alloc: Global,
    terms: &Terms,
    spot: &Spot,
    body: &Node,
    touches: &mut Vec<KeptTouch>,
) -> Result<(), AllocError>
    ensures { OnOk result (kept_touches touches.new.items ≡ kept_touches touches.old.items ++ walked.key_touches terms.now (spot_of spot.now) (child body.now)) }
{
    match body.parts() {
        [elements, ..] => add_keys_at(alloc, terms, spot, elements, touches),
        [] => Ok(()),
    }
}

#[cycle(touches)]
fn add_keys_at(
    alloc: Global,
    terms: &Terms,
    spot: &Spot,
    part: &Part,
    touches: &mut Vec<KeptTouch>,
) -> Result<(), AllocError>
    ensures { OnOk result (kept_touches touches.new.items ≡ kept_touches touches.old.items ++ keys_of_part terms.now (spot_of spot.now) (part_of part.now)) }
{
    match part {
        Part::List(elements) => add_keys(alloc, terms, spot, elements.as_slice(), touches),
        Part::Holes(elements) => {
            add_keys_with_holes(alloc, terms, spot, elements.as_slice(), touches)
        }
        _ => Ok(()),
    }
}

#[cycle(touches)]
#[tactic(auto, using(crate::proofs::Walked::keys_more))]
fn add_keys(
    alloc: Global,
    terms: &Terms,
    spot: &Spot,
    elements: &[Node],
    touches: &mut Vec<KeptTouch>,
) -> Result<(), AllocError>
    ensures { OnOk result (kept_touches touches.new.items ≡ kept_touches touches.old.items ++ walked.keys_touched terms.now (spot_of spot.now) (trees elements.now)) }
{
    for element in elements {
        add_key(alloc, terms, &*spot, element, touches)?;
    }
    Ok(())
}

#[cycle(touches)]
#[tactic(auto, using(crate::proofs::Walked::keys_more_hole))]
fn add_keys_with_holes(
    alloc: Global,
    terms: &Terms,
    spot: &Spot,
    elements: &[Option<Node>],
    touches: &mut Vec<KeptTouch>,
) -> Result<(), AllocError>
    ensures { OnOk result (kept_touches touches.new.items ≡ kept_touches touches.old.items ++ walked.keys_touched terms.now (spot_of spot.now) (nullable_trees elements.now)) }
{
    for element in elements {
        add_key_of_hole(alloc, terms, &*spot, element, touches)?;
    }
    Ok(())
}

#[cycle(touches)]
fn add_key_of_hole(
    alloc: Global,
    terms: &Terms,
    spot: &Spot,
    element: &Option<Node>,
    touches: &mut Vec<KeptTouch>,
) -> Result<(), AllocError>
    ensures { OnOk result (kept_touches touches.new.items ≡ kept_touches touches.old.items ++ if_tree (key_touch terms.now (spot_of spot.now)) element.now) }
{
    match element {
        Some(element) => add_key(alloc, terms, spot, element, touches),
        None => Ok(()),
    }
}

/// Adds those of the key of an element, if it has one. Fails on allocation failure alone.
#[cycle(touches)]
#[tactic(auto, using(crate::proofs::Walked::key_first, crate::proofs::Walked::key_none, es_node::proofs::Below::nodes_in))]
fn add_key(
    alloc: Global,
    terms: &Terms,
    spot: &Spot,
    element: &Node,
    touches: &mut Vec<KeptTouch>,
) -> Result<(), AllocError>
    ensures { OnOk result (kept_touches touches.new.items ≡ kept_touches touches.old.items ++ key_touch terms.now (spot_of spot.now) element.now) }
{
    match element.parts() {
        [key, ..] => add_at_if(alloc, terms, is_element(element.kind()), spot, key, touches),
        [] => Ok(()),
    }
}

/// Adds those of a part, if so. Fails on allocation failure alone.
#[cycle(touches)]
fn add_at_if(
    alloc: Global,
    terms: &Terms,
    is_asked: bool,
    spot: &Spot,
    part: &Part,
    touches: &mut Vec<KeptTouch>,
) -> Result<(), AllocError>
    ensures { OnOk result (kept_touches touches.new.items ≡ kept_touches touches.old.items ++ cond is_asked (walked.touches_at terms.now (spot_of spot.now) (part_of part.now)) []) }
{
    if is_asked {
        add_at(alloc, terms, spot, part, touches)?;
    }
    Ok(())
}

/// Adds those of the elements that run with their class, or of the others, in the body of a class. Fails on allocation failure
/// alone.
#[cycle(touches)]
pub fn add_values_in(
    alloc: Global,
    terms: &Terms,
    runs: bool,
    spot: &Spot,
    body: &Part,
    touches: &mut Vec<KeptTouch>,
) -> Result<(), AllocError>
    ensures { OnOk result (kept_touches touches.new.items ≡ kept_touches touches.old.items ++ walked.value_touches terms.now runs (spot_of spot.now) (part_of body.now)) }
{
    match body {
        Part::Child(body) => add_values_of(alloc, terms, runs, spot, body, touches),
        _ => Ok(()),
    }
}

#[cycle(touches)]
#[tactic(auto, using(crate::proofs::Walked::values_first, crate::proofs::Walked::values_none, es_node::proofs::Below::nodes_in))]
fn add_values_of(
    alloc: Global,
    terms: &Terms,
    runs: bool,
    spot: &Spot,
    body: &Node,
    touches: &mut Vec<KeptTouch>,
) -> Result<(), AllocError>
    ensures { OnOk result (kept_touches touches.new.items ≡ kept_touches touches.old.items ++ walked.value_touches terms.now runs (spot_of spot.now) (child body.now)) }
{
    match body.parts() {
        [elements, ..] => add_values_at(alloc, terms, runs, spot, elements, touches),
        [] => Ok(()),
    }
}

#[cycle(touches)]
fn add_values_at(
    alloc: Global,
    terms: &Terms,
    runs: bool,
    spot: &Spot,
    part: &Part,
    touches: &mut Vec<KeptTouch>,
) -> Result<(), AllocError>
    ensures { OnOk result (kept_touches touches.new.items ≡ kept_touches touches.old.items ++ values_of_part terms.now runs (spot_of spot.now) (part_of part.now)) }
{
    match part {
        Part::List(elements) => add_values(alloc, terms, runs, spot, elements.as_slice(), touches),
        Part::Holes(elements) => {
            add_values_with_holes(alloc, terms, runs, spot, elements.as_slice(), touches)
        }
        _ => Ok(()),
    }
}

#[cycle(touches)]
#[tactic(auto, using(crate::proofs::Walked::values_more))]
fn add_values(
    alloc: Global,
    terms: &Terms,
    runs: bool,
    spot: &Spot,
    elements: &[Node],
    touches: &mut Vec<KeptTouch>,
) -> Result<(), AllocError>
    ensures { OnOk result (kept_touches touches.new.items ≡ kept_touches touches.old.items ++ walked.values_touched terms.now runs (spot_of spot.now) (trees elements.now)) }
{
    for element in elements {
        add_value(alloc, terms, runs, &*spot, element, touches)?;
    }
    Ok(())
}

#[cycle(touches)]
#[tactic(auto, using(crate::proofs::Walked::values_more_hole))]
fn add_values_with_holes(
    alloc: Global,
    terms: &Terms,
    runs: bool,
    spot: &Spot,
    elements: &[Option<Node>],
    touches: &mut Vec<KeptTouch>,
) -> Result<(), AllocError>
    ensures { OnOk result (kept_touches touches.new.items ≡ kept_touches touches.old.items ++ walked.values_touched terms.now runs (spot_of spot.now) (nullable_trees elements.now)) }
{
    for element in elements {
        add_value_of_hole(alloc, terms, runs, &*spot, element, touches)?;
    }
    Ok(())
}

#[cycle(touches)]
fn add_value_of_hole(
    alloc: Global,
    terms: &Terms,
    runs: bool,
    spot: &Spot,
    element: &Option<Node>,
    touches: &mut Vec<KeptTouch>,
) -> Result<(), AllocError>
    ensures { OnOk result (kept_touches touches.new.items ≡ kept_touches touches.old.items ++ if_tree (value_touch terms.now runs (spot_of spot.now)) element.now) }
{
    match element {
        Some(element) => add_value(alloc, terms, runs, spot, element, touches),
        None => Ok(()),
    }
}

/// Adds those of an element, if it runs with its class, or does not. Fails on allocation failure alone.
#[cycle(touches)]
#[tactic(auto, using(crate::proofs::Walked::value_first, crate::proofs::Walked::value_none, crate::proofs::Walked::value_elsewhere, es_node::proofs::Below::nodes_in))]
fn add_value(
    alloc: Global,
    terms: &Terms,
    runs: bool,
    spot: &Spot,
    element: &Node,
    touches: &mut Vec<KeptTouch>,
) -> Result<(), AllocError>
    ensures { OnOk result (kept_touches touches.new.items ≡ kept_touches touches.old.items ++ value_touch terms.now runs (spot_of spot.now) element.now) }
{
    if !is_same(runs, runs_with_class(element)) {
        return Ok(());
    }
    let parts = element.parts();
    match parts {
        [_, ..] => add_element(alloc, terms, spot, element, parts, touches),
        [] => Ok(()),
    }
}

/// Adds those of an element with these parts. Fails on allocation failure alone.
#[cycle(touches)]
fn add_element(
    alloc: Global,
    terms: &Terms,
    spot: &Spot,
    element: &Node,
    parts: &[Part],
    touches: &mut Vec<KeptTouch>,
) -> Result<(), AllocError>
    ensures { OnOk result (kept_touches touches.new.items ≡ kept_touches touches.old.items ++ (first_touches terms.now (not (names.is_element (kind_of element.now))) (spot_of spot.now) (parts_of parts.now) ++ (walked.touches_of terms.now (spot_of spot.now) (behind_first (parts_of parts.now)) ++ field_touch terms.now (spot_of spot.now) (kind_of element.now) (number_in element.now)))) }
{
    let is_no_key = !is_element(element.kind());
    add_first(alloc, terms, is_no_key, &*spot, parts, touches)?;
    add_behind(alloc, terms, &*spot, parts, touches)?;
    add_field(alloc, terms, spot, element, touches)
}

/// Adds those of the first of these parts, if so. Fails on allocation failure alone.
#[cycle(touches)]
fn add_first(
    alloc: Global,
    terms: &Terms,
    is_asked: bool,
    spot: &Spot,
    parts: &[Part],
    touches: &mut Vec<KeptTouch>,
) -> Result<(), AllocError>
    ensures { OnOk result (kept_touches touches.new.items ≡ kept_touches touches.old.items ++ first_touches terms.now is_asked (spot_of spot.now) (parts_of parts.now)) }
{
    match parts {
        [first, ..] => add_at_if(alloc, terms, is_asked, spot, first, touches),
        [] => Ok(()),
    }
}

/// Adds those of the parts behind the first. Fails on allocation failure alone.
#[cycle(touches)]
fn add_behind(
    alloc: Global,
    terms: &Terms,
    spot: &Spot,
    parts: &[Part],
    touches: &mut Vec<KeptTouch>,
) -> Result<(), AllocError>
    ensures { OnOk result (kept_touches touches.new.items ≡ kept_touches touches.old.items ++ walked.touches_of terms.now (spot_of spot.now) (behind_first (parts_of parts.now))) }
{
    match parts {
        [_, behind @ ..] => add_of_parts(alloc, terms, spot, behind, touches),
        [] => Ok(()),
    }
}

/// Adds that a field of the source is defined, if the element is one. Fails on allocation failure alone.
fn add_field(
    alloc: Global,
    terms: &Terms,
    spot: &Spot,
    element: &Node,
    touches: &mut Vec<KeptTouch>,
) -> Result<(), AllocError>
    ensures { OnOk result (kept_touches touches.new.items ≡ kept_touches touches.old.items ++ field_touch terms.now (spot_of spot.now) (kind_of element.now) (number_in element.now)) }
{
    let number = element.node_id().0;
    if is_property_definition(element.kind()) && !is_new(terms.first, number) {
        push_touch(alloc, &spot.held, number, TouchForm::DefinesField, touches)?;
    }
    Ok(())
}

fn is_same(one: bool, other: bool) -> bool
    ensures { result ≡ timely.is_same one other }
{
    if one { other } else { !other }
}
