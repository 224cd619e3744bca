// Whether a private member that cannot be written is a target in a pattern.

ghost use Rattle.std.specs.Prelude.{◌≡◌, option_map, IfOk};
ghost use Rattle.std.specs.Str.{chars};
ghost use Rattle.es_base.specs.Tree.{child, nullable, trees, nullable_trees};
ghost use Rattle.es_node.specs.View.{kind_of, part_of, parts_in};
ghost use Rattle.es_steps.specs.Parts.{string_of};
ghost use Rattle.es_steps.specs.PrivateNames as privates;
ghost use Rattle.es_steps.specs.PrivateNames.{declared_member, first_number, private_reference};
ghost use Rattle.es_steps.specs.Shapes as spec;
ghost use Rattle.es_steps.specs.Shapes.{is_unwritable, is_present_number, private_spelling};
ghost use Rattle.es_outside.specs.PrivateTargets.{seen_by, seen_in, unwritable_from};

use crate::private_names::PrivateNames;
use es_base::ids::NodeId;
use es_base::kind::Kind;
use es_base::word::word_str;
use es_node::node::{Node, Part};
use es_shapes::asked::lowers_fields;
use es_steps::options::Options;
use es_tree::expression::PrivateFieldRef;
use es_tree::pattern::{
    ArrayAssignmentTargetRef, AssignmentTargetPropertyRef, AssignmentTargetRestRef,
    AssignmentTargetWithDefaultRef,
};
use es_tree::statement::{ForInStatementRef, ForOfStatementRef};
use std::alloc::{AllocError, Global};

/// The classes whose bodies are around a node.
#[derive(Clone, Copy)]
pub enum Around<'r, 'a> {
    /// None.
    None,
    /// A class with its private members, and those around it.
    Class {
        class: NodeId,
        names: &'r PrivateNames<'a>,
        outer: &'r Around<'r, 'a>,
    },
}

/// Whether a private member without a writing side is a target in a pattern, with class properties on:
/// shape S5. Fails on allocation failure alone.
pub fn has_unwritable_target(
    alloc: Global,
    program: &Node,
    options: &Options,
) -> Result<bool, AllocError>
    ensures { IfOk result (λ b. b ≡ spec.has_shape_5 options.now program.now) }
{
    if lowers_fields(options) {
        has_unwritable(alloc, &Around::None, program)
    } else {
        Ok(false)
    }
}

// ---- the walk

/// Whether such a target stands in the node, where these classes are around. Fails on allocation failure
/// alone.
#[cycle(unwritable)]
fn has_unwritable<'a>(
    alloc: Global,
    around: &Around<'_, 'a>,
    node: &'a Node,
) -> Result<bool, AllocError>
    ensures { IfOk result (λ b. b ≡ spec.has_unwritable (seen_by around.now) node.now) }
{
    if holds_unwritable(&*around, node) {
        return Ok(true);
    }
    let names = PrivateNames::of(alloc, node)?;
    let inner = Around::Class {
        class: node.node_id(),
        names: &names,
        outer: &*around,
    };
    unwritable_in(alloc, &inner, &*around, node)
}

/// The same of the parts of the node, where `inner` are around its third.
#[cycle(unwritable)]
fn unwritable_in<'a>(
    alloc: Global,
    inner: &Around<'_, 'a>,
    around: &Around<'_, 'a>,
    node: &'a Node,
) -> Result<bool, AllocError>
    ensures { IfOk result (λ b. b ≡ unwritable_from (seen_in (seen_by inner.now) (seen_by around.now)) 0 (parts_in node.now)) }
{
    let parts = node.parts();
    for (i, part) in parts.iter().enumerate() {
        if unwritable_in_part(alloc, seen_at(&*inner, &*around, i), part)? {
            return Ok(true);
        }
    }
    Ok(false)
}

/// What is around the i-th part of a node: `inner` if it is the body of a class, else `around`.
fn seen_at<'x, 'r, 'a>(
    inner: &'x Around<'r, 'a>,
    around: &'x Around<'r, 'a>,
    i: usize,
) -> &'x Around<'r, 'a>
    ensures { seen_by result.now ≡ seen_in (seen_by inner.now) (seen_by around.now) i }
{
    if i == 2 { inner } else { around }
}

#[cycle(unwritable)]
fn unwritable_in_part<'a>(
    alloc: Global,
    around: &Around<'_, 'a>,
    part: &'a Part,
) -> Result<bool, AllocError>
    ensures { IfOk result (λ b. b ≡ spec.unwritable_part (seen_by around.now) (part_of part.now)) }
{
    match part {
        Part::Child(node) => has_unwritable(alloc, around, node),
        Part::List(nodes) => unwritable_in_list(alloc, around, nodes.as_slice()),
        Part::Holes(nodes) => unwritable_in_list_with_holes(alloc, around, nodes.as_slice()),
        _ => Ok(false),
    }
}

#[cycle(unwritable)]
fn unwritable_in_list<'a>(
    alloc: Global,
    around: &Around<'_, 'a>,
    nodes: &'a [Node],
) -> Result<bool, AllocError>
    ensures { IfOk result (λ b. b ≡ spec.unwritable_items (seen_by around.now) (trees nodes.now)) }
{
    for node in nodes {
        if has_unwritable(alloc, &*around, node)? {
            return Ok(true);
        }
    }
    Ok(false)
}

#[cycle(unwritable)]
fn unwritable_in_list_with_holes<'a>(
    alloc: Global,
    around: &Around<'_, 'a>,
    nodes: &'a [Option<Node>],
) -> Result<bool, AllocError>
    ensures { IfOk result (λ b. b ≡ spec.unwritable_items (seen_by around.now) (nullable_trees nodes.now)) }
{
    for node in nodes {
        if unwritable_in_hole(alloc, &*around, node)? {
            return Ok(true);
        }
    }
    Ok(false)
}

#[cycle(unwritable)]
fn unwritable_in_hole<'a>(
    alloc: Global,
    around: &Around<'_, 'a>,
    node: &'a Option<Node>,
) -> Result<bool, AllocError>
    ensures { IfOk result (λ b. b ≡ spec.unwritable_part (seen_by around.now) (nullable node.now)) }
{
    match node {
        Some(node) => has_unwritable(alloc, around, node),
        None => Ok(false),
    }
}

// ---- a private name

/// Whether the private name has no writing side where these classes are around.
#[tactic(auto, using(crate::proofs::PrivateTargets::unwritable_name))]
fn is_unwritable_name(around: &Around, name: &str) -> bool
    ensures { result ≡ is_unwritable (private_reference (chars name.now) (seen_by around.now)) }
{
    match nearest_class(around, name) {
        Some(class) => !has_writing_side(around, name, class),
        None => false,
    }
}

/// The nearest of these classes that declares the private name.
#[tactic(auto, using(crate::proofs::PrivateTargets::nearest_class))]
fn nearest_class(around: &Around, name: &str) -> Option<NodeId>
    ensures { option_map (λ n. n.0) result ≡ privates.class_of (declared_member (chars name.now) (seen_by around.now)) }
{
    match around {
        Around::None => None,
        Around::Class {
            class,
            names,
            outer,
        } => {
            if names.declares(name) {
                Some(*class)
            } else {
                nearest_class(outer, name)
            }
        }
    }
}

/// Whether the class of this number, among these, has a private field or setter of this name.
#[tactic(auto, using(crate::proofs::PrivateTargets::writing_side))]
fn has_writing_side(around: &Around, name: &str, of: NodeId) -> bool
    ensures { result ≡ is_present_number (first_number privates.is_written (chars name.now) of.0 (seen_by around.now)) }
{
    match around {
        Around::None => false,
        Around::Class {
            class,
            names,
            outer,
        } => {
            (class.0 == of.0 && names.declares_written(name)) || has_writing_side(outer, name, of)
        }
    }
}

// ---- targets

/// Whether the node by itself has such a target.
#[tactic(auto, using(crate::proofs::PrivateTargets::no_targets))]
fn holds_unwritable(around: &Around, node: &Node) -> bool
    ensures { result ≡ spec.holds_unwritable (seen_by around.now) (kind_of node.now) (parts_in node.now) }
{
    match node.kind() {
        // [o.#x] = v
        Kind::ArrayAssignmentTarget => {
            any_unwritable(around, ArrayAssignmentTargetRef::from_node(node).elements)
        }
        // ({ k: o.#x } = v)
        Kind::AssignmentTargetProperty => {
            is_unwritable_target(around, AssignmentTargetPropertyRef::from_node(node).value)
        }
        // [o.#x = d] = v
        Kind::AssignmentTargetWithDefault => {
            is_unwritable_target(around, AssignmentTargetWithDefaultRef::from_node(node).left)
        }
        // [...o.#x] = v
        Kind::AssignmentTargetRest => {
            is_unwritable_target(around, AssignmentTargetRestRef::from_node(node).argument)
        }
        // for (o.#x in v) {}
        Kind::ForInStatement => is_unwritable_target(
            around,
            ForInStatementRef::from_node(node).left,
        ),
        // for (o.#x of v) {}
        Kind::ForOfStatement => is_unwritable_target(
            around,
            ForOfStatementRef::from_node(node).left,
        ),
        _ => false,
    }
}

fn any_unwritable(around: &Around, targets: &[Option<Node>]) -> bool
    ensures { result ≡ spec.any_unwritable (seen_by around.now) (nullable_trees targets.now) }
{
    for target in targets {
        if is_unwritable_or_hole(around, target) {
            return true;
        }
    }
    false
}

fn is_unwritable_or_hole(around: &Around, target: &Option<Node>) -> bool
    ensures { result ≡ spec.is_unwritable_target (seen_by around.now) (nullable target.now) }
{
    match target {
        Some(target) => is_unwritable_target(around, target),
        None => false,
    }
}

/// Whether the node is a private member without a writing side.
#[tactic(auto, using(crate::proofs::PrivateTargets::no_private))]
fn is_unwritable_target(around: &Around, target: &Node) -> bool
    ensures { result ≡ spec.is_unwritable_target (seen_by around.now) (child target.now) }
{
    match target.kind() {
        Kind::PrivateField => {
            is_unwritable_name(
                around,
                spelling_of(PrivateFieldRef::from_node(target).property),
            )
        }
        _ => false,
    }
}

/// The string that the node has first.
#[tactic(auto, using(crate::proofs::PrivateTargets::spelled, crate::proofs::PrivateTargets::no_string_chars))]
fn spelling_of(node: &Node) -> &str
    ensures { chars result.now ≡ private_spelling (child node.now) }
{
    match node.parts() {
        [first, ..] => string_of(first),
        [] => "",
    }
}

/// The string that the part is; the empty string where it is none.
#[tactic(auto, using(es_base::proofs::Spelling::chars_of_word, crate::proofs::PrivateTargets::no_string_chars))]
fn string_of(part: &Part) -> &str
    ensures { chars result.now ≡ string_of (part_of part.now) }
{
    match part {
        Part::String(name) => name.as_str(),
        Part::Word(word) => word_str(*word),
        _ => "",
    }
}
