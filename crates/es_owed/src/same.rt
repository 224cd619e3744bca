// Whether two trees are one, spans and semantic ids aside.

ghost use Rattle.std.specs.Prelude.{◌≡◌, bytes_eq};
ghost use Rattle.std.specs.Str.{chars};
ghost use Rattle.es_base.specs.Tree.{absent, boolean, child, list, literal, no_string, nullable, nullable_trees, string, trees};
ghost use Rattle.es_node.specs.View.{part_of, parts_of};
ghost use Rattle.es_steps.specs.SameTrees as spec;
ghost use Rattle.es_steps.specs.SameTrees.{kind_number, same_literal, same_part, same_parts, same_tree};
ghost use Rattle.es_steps.specs.SameValues.{same_boolean, same_nullable_string};

use es_base::kind::Kind;
use es_base::literal::LiteralValue;
use es_base::name::Name;
use es_base::strings::is_word;
use es_base::word::word_str;
use es_node::node::{Node, Part};

/// Whether two trees are one: of the same kinds, numbers and values.
#[cycle(same)]
#[tactic(auto, using(crate::proofs::Sameness::same_node, es_node::proofs::Below::nodes_in))]
pub fn same_node(node: &Node, other: &Node) -> bool
    ensures { result ≡ same_tree node.now other.now }
{
    same_kind(node.kind(), other.kind())
        && node.node_id().0 == other.node_id().0
        && same_members(node.parts(), other.parts())
}

/// Whether two lists of members are one.
#[cycle(same)]
#[tactic(auto, using(crate::proofs::Sameness::same_members_differ))]
pub fn same_members(parts: &[Part], others: &[Part]) -> bool
    ensures { result ≡ same_parts (parts_of parts.now) (parts_of others.now) }
{
    if parts.len() != others.len() {
        return false;
    }
    for (i, part) in parts.iter().enumerate() {
        if !same_part(part, &others[i]) {
            return false;
        }
    }
    true
}

/// Whether two parts are one.
#[cycle(same)]
#[tactic(auto, using(es_base::proofs::Spelling::chars_of_word))]
pub fn same_part(part: &Part, other: &Part) -> bool
    ensures { result ≡ same_part (part_of part.now) (part_of other.now) }
{
    match part {
        Part::Child(node) => same_child(node, other),
        Part::Absent => matches!(other, Part::Absent),
        Part::List(nodes) => same_list(nodes.as_slice(), other),
        Part::Holes(nodes) => same_list_with_holes(nodes.as_slice(), other),
        Part::String(name) => same_string(name.as_str(), other),
        Part::NoString => matches!(other, Part::NoString),
        Part::Word(word) => same_string(word_str(*word), other),
        Part::Boolean(value) => same_boolean_part(*value, other),
        Part::Literal(value) => same_literal_part(value, other),
    }
}

#[cycle(same)]
fn same_child(node: &Node, other: &Part) -> bool
    ensures { result ≡ same_part (child node.now) (part_of other.now) }
{
    match other {
        Part::Child(other) => same_node(node, other),
        _ => false,
    }
}

#[cycle(same)]
fn same_list(nodes: &[Node], other: &Part) -> bool
    ensures { result ≡ same_part (list (trees nodes.now)) (part_of other.now) }
{
    match other {
        Part::List(others) => same_nodes(nodes, others.as_slice()),
        Part::Holes(others) => same_as_holes(nodes, others.as_slice()),
        _ => false,
    }
}

#[cycle(same)]
fn same_list_with_holes(nodes: &[Option<Node>], other: &Part) -> bool
    ensures { result ≡ same_part (list (nullable_trees nodes.now)) (part_of other.now) }
{
    match other {
        Part::List(others) => holes_same(nodes, others.as_slice()),
        Part::Holes(others) => same_holes(nodes, others.as_slice()),
        _ => false,
    }
}

#[cycle(same)]
#[tactic(auto, using(crate::proofs::Sameness::same_nodes_differ))]
fn same_nodes(nodes: &[Node], others: &[Node]) -> bool
    ensures { result ≡ same_parts (trees nodes.now) (trees others.now) }
{
    if nodes.len() != others.len() {
        return false;
    }
    for (i, node) in nodes.iter().enumerate() {
        if !same_node(node, &others[i]) {
            return false;
        }
    }
    true
}

#[cycle(same)]
#[tactic(auto, using(crate::proofs::Sameness::same_as_holes_differ))]
fn same_as_holes(nodes: &[Node], others: &[Option<Node>]) -> bool
    ensures { result ≡ same_parts (trees nodes.now) (nullable_trees others.now) }
{
    if nodes.len() != others.len() {
        return false;
    }
    for (i, node) in nodes.iter().enumerate() {
        if !is_hole_filled(node, &others[i]) {
            return false;
        }
    }
    true
}

#[cycle(same)]
#[tactic(auto, using(crate::proofs::Sameness::holes_same_differ))]
fn holes_same(nodes: &[Option<Node>], others: &[Node]) -> bool
    ensures { result ≡ same_parts (nullable_trees nodes.now) (trees others.now) }
{
    if nodes.len() != others.len() {
        return false;
    }
    for (i, node) in nodes.iter().enumerate() {
        if !fills_hole(node, &others[i]) {
            return false;
        }
    }
    true
}

#[cycle(same)]
#[tactic(auto, using(crate::proofs::Sameness::same_holes_differ))]
fn same_holes(nodes: &[Option<Node>], others: &[Option<Node>]) -> bool
    ensures { result ≡ same_parts (nullable_trees nodes.now) (nullable_trees others.now) }
{
    if nodes.len() != others.len() {
        return false;
    }
    for (i, node) in nodes.iter().enumerate() {
        if !same_hole(node, &others[i]) {
            return false;
        }
    }
    true
}

#[cycle(same)]
fn is_hole_filled(node: &Node, other: &Option<Node>) -> bool
    ensures { result ≡ same_part (child node.now) (nullable other.now) }
{
    match other {
        Some(other) => same_node(node, other),
        None => false,
    }
}

#[cycle(same)]
fn fills_hole(node: &Option<Node>, other: &Node) -> bool
    ensures { result ≡ same_part (nullable node.now) (child other.now) }
{
    match node {
        Some(node) => same_node(node, other),
        None => false,
    }
}

#[cycle(same)]
fn same_hole(node: &Option<Node>, other: &Option<Node>) -> bool
    ensures { result ≡ same_part (nullable node.now) (nullable other.now) }
{
    match node {
        Some(node) => is_hole_filled(node, other),
        None => other.is_none(),
    }
}

// ---- values

#[tactic(auto, using(es_base::proofs::Spelling::chars_of_word))]
fn same_string(text: &str, other: &Part) -> bool
    ensures { result ≡ same_part (string (chars text.now)) (part_of other.now) }
{
    match other {
        Part::String(other) => is_word(other.as_str(), text),
        Part::Word(other) => is_word(word_str(*other), text),
        _ => false,
    }
}

fn same_boolean_part(value: bool, other: &Part) -> bool
    ensures { result ≡ same_part (boolean value) (part_of other.now) }
{
    match other {
        Part::Boolean(other) => same_boolean(value, *other),
        _ => false,
    }
}

fn same_boolean(value: bool, other: bool) -> bool
    ensures { result ≡ same_boolean value other }
{
    if value { other } else { !other }
}

fn same_literal_part(value: &LiteralValue, other: &Part) -> bool
    ensures { result ≡ same_part (literal value.now) (part_of other.now) }
{
    match other {
        Part::Literal(other) => same_literal(value, other),
        _ => false,
    }
}

fn same_literal(value: &LiteralValue, other: &LiteralValue) -> bool
    ensures { result ≡ same_literal value.now other.now }
{
    match value {
        LiteralValue::String { value, raw } => match other {
            LiteralValue::String {
                value: other,
                raw: source,
            } => same_name(value, other) && same_nullable_name(raw, source),
            _ => false,
        },
        LiteralValue::Number { raw } => match other {
            LiteralValue::Number { raw: other } => same_name(raw, other),
            _ => false,
        },
        LiteralValue::BigInt { digits } => match other {
            LiteralValue::BigInt { digits: other } => same_name(digits, other),
            _ => false,
        },
        LiteralValue::RegExp { pattern, flags } => match other {
            LiteralValue::RegExp {
                pattern: other,
                flags: others,
            } => same_name(pattern, other) && same_name(flags, others),
            _ => false,
        },
        LiteralValue::Boolean(value) => match other {
            LiteralValue::Boolean(other) => same_boolean(*value, *other),
            _ => false,
        },
        LiteralValue::Null => matches!(other, LiteralValue::Null),
    }
}

fn same_nullable_name(name: &Option<Name>, other: &Option<Name>) -> bool
    ensures { result ≡ same_nullable_string name.now other.now }
{
    match name {
        None => other.is_none(),
        Some(name) => match other {
            Some(other) => same_name(name, other),
            None => false,
        },
    }
}

/// Whether two names have the same characters.
fn same_name(name: &Name, other: &Name) -> bool
    ensures { result ≡ bytes_eq name.now other.now }
{
    is_word(other.as_str(), name.as_str())
}

// ---- kinds

pub fn same_kind(kind: Kind, other: Kind) -> bool
    ensures { result ≡ spec.same_kind kind other }
{
    kind_number(kind) == kind_number(other)
}

/// The place of a kind among all.
fn kind_number(kind: Kind) -> u8
    ensures { result ≡ kind_number kind }
{
    match kind {
        Kind::Program => 0,
        Kind::ExpressionStatement => 1,
        Kind::BlockStatement => 2,
        Kind::EmptyStatement => 3,
        Kind::DebuggerStatement => 4,
        Kind::WithStatement => 5,
        Kind::ReturnStatement => 6,
        Kind::ThrowStatement => 7,
        Kind::LabeledStatement => 8,
        Kind::BreakStatement => 9,
        Kind::ContinueStatement => 10,
        Kind::IfStatement => 11,
        Kind::SwitchStatement => 12,
        Kind::SwitchCase => 13,
        Kind::TryStatement => 14,
        Kind::CatchClause => 15,
        Kind::WhileStatement => 16,
        Kind::DoWhileStatement => 17,
        Kind::ForStatement => 18,
        Kind::ForInStatement => 19,
        Kind::ForOfStatement => 20,
        Kind::FunctionDeclaration => 21,
        Kind::FunctionExpression => 22,
        Kind::ArrowFunctionExpression => 23,
        Kind::VariableDeclaration => 24,
        Kind::VariableDeclarator => 25,
        Kind::ClassDeclaration => 26,
        Kind::ClassExpression => 27,
        Kind::ClassBody => 28,
        Kind::MethodDefinition => 29,
        Kind::PropertyDefinition => 30,
        Kind::StaticBlock => 31,
        Kind::PrivateIdentifier => 32,
        Kind::IdentifierReference => 33,
        Kind::BindingIdentifier => 34,
        Kind::IdentifierName => 35,
        Kind::Literal => 36,
        Kind::ThisExpression => 37,
        Kind::Super => 38,
        Kind::ArrayExpression => 39,
        Kind::ObjectExpression => 40,
        Kind::Property => 41,
        Kind::SpreadElement => 42,
        Kind::TemplateLiteral => 43,
        Kind::TemplateElement => 44,
        Kind::TaggedTemplateExpression => 45,
        Kind::MemberExpression => 46,
        Kind::PrivateField => 47,
        Kind::UnaryExpression => 48,
        Kind::UpdateExpression => 49,
        Kind::BinaryExpression => 50,
        Kind::PrivateIn => 51,
        Kind::LogicalExpression => 52,
        Kind::AssignmentExpression => 53,
        Kind::ConditionalExpression => 54,
        Kind::CallExpression => 55,
        Kind::NewExpression => 56,
        Kind::SequenceExpression => 57,
        Kind::YieldExpression => 58,
        Kind::AwaitExpression => 59,
        Kind::ImportExpression => 60,
        Kind::MetaProperty => 61,
        Kind::ChainExpression => 62,
        Kind::ObjectPattern => 63,
        Kind::BindingProperty => 64,
        Kind::ArrayPattern => 65,
        Kind::AssignmentPattern => 66,
        Kind::RestElement => 67,
        Kind::ObjectAssignmentTarget => 68,
        Kind::AssignmentTargetProperty => 69,
        Kind::ArrayAssignmentTarget => 70,
        Kind::AssignmentTargetWithDefault => 71,
        Kind::AssignmentTargetRest => 72,
        Kind::ImportDeclaration => 73,
        Kind::ImportSpecifier => 74,
        Kind::ImportDefaultSpecifier => 75,
        Kind::ImportNamespaceSpecifier => 76,
        Kind::ExportNamedDeclaration => 77,
        Kind::ExportSpecifier => 78,
        Kind::ExportDefaultDeclaration => 79,
        Kind::ExportAllDeclaration => 80,
        Kind::Foreign => 81,
    }
}
