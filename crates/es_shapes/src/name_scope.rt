// Whether a class gives a name that moves with its static blocks.

ghost use Rattle.std.specs.Prelude.{◌≡◌, ◌∷◌, ◌||◌, option_map, false};
ghost use Rattle.es_base.specs.Tree.{Parts, child, more, nullable, trees};
ghost use Rattle.es_node.specs.View.{kind_of, parts_in};
ghost use Rattle.es_steps.specs.LoweredClasses.{any_element, element_of, elements_in};
ghost use Rattle.es_steps.specs.NameScopes.{is_anonymous, is_string_key, is_identifier_key, names_its_value, ends_in_blocks, has_trailing_blocks, has_static_name_scope, has_moving_blocks, suspends, holds_at, has_name_scope, is_suspended_scope};
ghost use Rattle.es_shapes.specs.Classes.{element_view};
ghost use Rattle.es_shapes.specs.NameScopes.{names_in_instance, is_string, named_or, ends_with, ended, trails_with, or_false};

use crate::class::{class_of, elements_of};
use crate::element::{ElementRef, element_of, is_static_field};
use crate::walk::{KindTest, any_inside, any_inside_in};
use es_base::kind::Kind;
use es_base::literal::LiteralValue;
use es_node::node::Node;
use es_tree::class::{ClassDeclarationRef, ClassExpressionRef};
use es_tree::function::FunctionExpressionRef;
use es_tree::literal::LiteralRef;

/// Whether the node is a class declaration that becomes a `let` though nothing in it is lowered: it gives
/// a name that moves with its static blocks, and an `await` or `yield` stands in it.
#[tactic(auto, using(crate::proofs::NameScopes::no_declaration))]
pub fn is_suspended_scope(node: &Node) -> bool
    ensures { result ≡ is_suspended_scope (kind_of node.now) (parts_in node.now) }
{
    match node.kind() {
        Kind::ClassDeclaration => {
            let class = ClassDeclarationRef::from_node(node);
            has_name_scope(elements_of(class.body)) && any_inside_in(&Suspension, node.parts())
        }
        _ => false,
    }
}

/// Whether a class with these elements gives a name that moves with static blocks.
fn has_name_scope(elements: &[Node]) -> bool
    ensures { result ≡ has_name_scope (elements_in (trees elements.now)) }
{
    has_static_name_scope(elements) || any_instance_name(elements)
}

/// Whether a static field that takes blocks, in front of its value or behind it, gives its key as a name.
fn has_static_name_scope(elements: &[Node]) -> bool
    ensures { result ≡ has_static_name_scope false (elements_in (trees elements.now)) }
{
    let mut blocks = false;
    for (i, element) in elements.iter().enumerate() {
        match blocks_before_next(blocks, element, &elements[i + 1..]) {
            Some(before) => blocks = before,
            None => return true,
        }
    }
    false
}

/// Whether blocks stand in front of what follows the element, where they stand in front of it or not;
/// nothing where it is a static field that takes blocks and gives its key as a name.
#[tactic(auto, using(crate::proofs::NameScopes::first_element))]
fn blocks_before_next(blocks: bool, element: &Node, rest: &[Node]) -> Option<bool>
    ensures { has_static_name_scope blocks (elements_in (trees (element.now ∷ rest.now))) ≡ named_or result (elements_in (trees rest.now)) }
{
    let Some(element) = element_of(element) else {
        return Some(blocks);
    };
    if element.is_block {
        // static {}
        return Some(true);
    }
    if !is_static_field(&element) {
        return Some(blocks);
    }
    // static [k] = () => {};
    if (blocks || ends_in_blocks(rest)) && names_its_value(&element) {
        None
    } else {
        Some(false)
    }
}

/// Whether blocks are among the elements, and no static field.
fn ends_in_blocks(elements: &[Node]) -> bool
    ensures { result ≡ ends_in_blocks (elements_in (trees elements.now)) }
{
    let mut blocks = false;
    for element in elements {
        match blocks_with(blocks, element) {
            Some(with) => blocks = with,
            None => return false,
        }
    }
    blocks
}

/// Whether the element is a block, or one was met before; nothing where it is a static field.
#[tactic(auto, using(crate::proofs::NameScopes::first_element, crate::proofs::NameScopes::trails_step, crate::proofs::NameScopes::trails_static))]
fn blocks_with(blocks: bool, element: &Node) -> Option<bool>
    ensures ends { (rest : Parts) → ends_with blocks (elements_in (more (child element.now) rest)) ≡ ended result (elements_in rest) }
    ensures trails { (rest : Parts) → trails_with blocks (elements_in (more (child element.now) rest)) ≡ trails_with (or_false result) (elements_in rest) }
{
    let Some(element) = element_of(element) else {
        return Some(blocks);
    };
    if is_static_field(&element) {
        None
    } else {
        Some(blocks || element.is_block)
    }
}

/// Whether blocks stand behind all static fields.
#[tactic(auto, using(crate::proofs::NameScopes::trails_none, crate::proofs::NameScopes::trails_all))]
fn has_trailing_blocks(elements: &[Node]) -> bool
    ensures { result ≡ has_trailing_blocks (elements_in (trees elements.now)) }
{
    let mut blocks = false;
    for element in elements {
        blocks = or_false(blocks_with(blocks, element));
    }
    blocks
}

fn or_false(blocks: Option<bool>) -> bool
    ensures { result ≡ or_false blocks }
{
    match blocks {
        Some(blocks) => blocks,
        None => false,
    }
}

/// Whether a field of instances gives its key as a name to a value with blocks that move.
#[tactic(auto, using(crate::proofs::NameScopes::any_first))]
fn any_instance_name(elements: &[Node]) -> bool
    ensures { result ≡ any_element names_in_instance (elements_in (trees elements.now)) }
{
    for element in elements {
        if names_in_instance(element) {
            return true;
        }
    }
    false
}

fn names_in_instance(element: &Node) -> bool
    ensures { result ≡ any_element names_in_instance (element_of (child element.now)) }
{
    match element_of(element) {
        // [k] = class { static {} };
        Some(element) => {
            !element.is_static
                && names_its_value(&element)
                && has_moving_blocks_inside(element.value)
        }
        None => false,
    }
}

/// Whether a class with blocks that move stands in the value, outside functions.
fn has_moving_blocks_inside(value: Option<&Node>) -> bool
    ensures { result ≡ holds_at has_moving_blocks (nullable (option_map (λ x. x.now) value.entry)) }
{
    match value {
        Some(value) => any_inside(&MovingBlocks, value),
        None => false,
    }
}

/// Whether a field gives its key as a name that has to be kept.
fn names_its_value(element: &ElementRef) -> bool
    ensures { result ≡ names_its_value (element_view element.now) }
{
    element.is_field
        && is_anonymous(element.value)
        && !(element.is_private || is_name_key(element.key))
}

/// Whether the value is a function, an arrow or a class without an own name.
#[tactic(auto, using(crate::proofs::NameScopes::no_anonymous))]
fn is_anonymous(value: Option<&Node>) -> bool
    ensures { result ≡ is_anonymous (nullable (option_map (λ x. x.now) value.entry)) }
{
    let Some(value) = value else { return false };
    match value.kind() {
        // () => {}
        Kind::ArrowFunctionExpression => true,
        // (function () {})
        Kind::FunctionExpression => FunctionExpressionRef::from_node(value).id.is_none(),
        // (class {})
        Kind::ClassExpression => ClassExpressionRef::from_node(value).id.is_none(),
        _ => false,
    }
}

/// Whether the key is a string or an identifier.
#[tactic(auto, using(crate::proofs::NameScopes::no_name_key))]
fn is_name_key(key: Option<&Node>) -> bool
    ensures { result ≡ (is_string_key (nullable (option_map (λ x. x.now) key.entry)) || is_identifier_key (nullable (option_map (λ x. x.now) key.entry))) }
{
    let Some(key) = key else { return false };
    match key.kind() {
        Kind::Literal => is_string(LiteralRef::from_node(key).value),
        Kind::IdentifierName => true,
        _ => false,
    }
}

fn is_string(value: &LiteralValue) -> bool
    ensures { result ≡ is_string value.now }
{
    matches!(value, LiteralValue::String { .. })
}

/// Whether a node is a class with blocks that move.
#[derive(Drop)]
struct MovingBlocks;

impl KindTest for MovingBlocks {
    ghost holds = { λ _. has_moving_blocks };

    fn holds(&self, node: &Node) -> bool
        ensures { result ≡ has_moving_blocks (kind_of node.now) (parts_in node.now) }
    {
        match class_of(node) {
            Some(class) => {
                let elements = elements_of(class.body);
                has_trailing_blocks(elements) || has_static_name_scope(elements)
            }
            None => false,
        }
    }
}

/// Whether a node is an `await` or `yield`.
#[derive(Drop)]
struct Suspension;

impl KindTest for Suspension {
    ghost holds = { λ _. suspends };

    fn holds(&self, node: &Node) -> bool
        ensures { result ≡ suspends (kind_of node.now) (parts_in node.now) }
    {
        matches!(node.kind(), Kind::AwaitExpression | Kind::YieldExpression)
    }
}
