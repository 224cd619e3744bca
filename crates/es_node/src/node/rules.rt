// What a place and a kind ask of a node beside its kind and its members.

ghost use Rattle.std.specs.Prelude.{◌≡◌, [], ◌∷◌, map, true, None};
ghost use Rattle.es_base.specs.Tree as tree;
ghost use Rattle.es_base.specs.Tree.{child, end, more, literal, trees};
ghost use Rattle.es_base.specs.Conforms.{boolean_at, is_target_place, is_key_literal, is_pattern_child, place_rule, local_rule, local_rules, kind_rule, is_rest, literal_conforms};
ghost use Rattle.es_base.specs.Table.{field_of, members_of};
ghost use Rattle.es_base.specs.declared.kind.Kind.{Kind};
ghost use Rattle.es_node.specs.View.{part_of, parts_of, have_shapes};

use super::{Node, Part};
use es_base::kind::Kind;
use es_base::literal::LiteralValue;
use es_base::operator::AssignmentOperator;
use es_base::places::is_target_place;
use es_base::strings::is_number_string;
use es_base::table::{Member, Place, members};

/// Whether the boolean at the member of this name is true.
pub fn boolean_at(name: &str, members: &[Member], parts: &[Part]) -> bool
    ensures { result ≡ boolean_at name.now (map field_of members.now) (parts_of parts.now) }
{
    for (member, part) in members.iter().zip(parts) {
        if is_true_at(name, member, part) {
            return true;
        }
    }
    false
}

/// Whether the member has this name, and the part is true.
fn is_true_at(name: &str, member: &Member, part: &Part) -> bool
    ensures { result ≡ boolean_at name.now (field_of member.now ∷ []) (more (part_of part.now) end) }
{
    match part {
        Part::Boolean(value) => member.name == name && *value,
        _ => false,
    }
}

/// What a place asks of a node beside its kind: the literal of a key is a string, a number or a bigint,
/// and what is assigned to is no optional member.
pub fn place_rule(place: Place, kind: Kind, parts: &[Part]) -> bool
    ensures { result ≡ place_rule place kind (parts_of parts.now) }
{
    match (place, kind) {
        (Place::PropertyKey | Place::ClassKey, Kind::Literal) => is_key_literal(parts),
        _ => !(is_target_place(place) && boolean_at("optional", members(kind), parts)),
    }
}

/// Whether these are the parts of a string, a number or a bigint.
fn is_key_literal(parts: &[Part]) -> bool
    ensures { result ≡ is_key_literal (parts_of parts.now) }
{
    match parts {
        [Part::Literal(value), ..] => is_key_value(value),
        _ => false,
    }
}

/// Whether the value is that of a string, a number or a bigint.
fn is_key_value(value: &LiteralValue) -> bool
    ensures { result ≡ is_key_literal (more (literal value.now) end) }
{
    matches!(
        value,
        LiteralValue::String { .. } | LiteralValue::Number { .. } | LiteralValue::BigInt { .. }
    )
}

/// Whether the value of a literal is one: the source text of a number begins as a number does.
pub fn literal_conforms(value: &LiteralValue) -> bool
    ensures { result ≡ literal_conforms value.now }
{
    match value {
        LiteralValue::Number { raw } => is_number_string(raw.as_str()),
        _ => true,
    }
}

/// Whether the node is a rest element.
#[tactic(auto, using(crate::proofs::KindRules::is_rest_kind))]
pub fn is_rest(node: &Node) -> bool
    ensures { result ≡ is_rest (child node.now) }
{
    matches!(node.kind(), Kind::RestElement | Kind::AssignmentTargetRest)
}

/// What a kind asks of its parts together: a template has one string more than expressions, a pattern is
/// assigned by `=` alone, and the specifiers of an export name references exactly where it has no source.
pub fn kind_rule(kind: Kind, parts: &[Part]) -> bool
    requires { have_shapes (members_of kind) parts.now ≡ true }
    ensures { result ≡ kind_rule kind (parts_of parts.now) }
{
    match kind {
        Kind::TemplateLiteral => template_rule(parts),
        Kind::AssignmentExpression => assignment_rule(parts),
        Kind::ExportNamedDeclaration => export_rule(parts),
        _ => true,
    }
}

/// Whether a template has one string more than expressions.
#[tactic(auto, using(crate::proofs::KindRules::template_is))]
fn template_rule(parts: &[Part]) -> bool
    requires { have_shapes (members_of Kind.TemplateLiteral) parts.now ≡ true }
    ensures { result ≡ kind_rule Kind.TemplateLiteral (parts_of parts.now) }
{
    match parts {
        [quasis, expressions] => quasis.as_list().len() == expressions.as_list().len() + 1,
        _ => unreachable!(),
    }
}

/// Whether an assignment to a pattern is one by `=`.
fn assignment_rule(parts: &[Part]) -> bool
    requires { have_shapes (members_of Kind.AssignmentExpression) parts.now ≡ true }
    ensures { result ≡ kind_rule Kind.AssignmentExpression (parts_of parts.now) }
{
    match parts {
        [operator, left, _] => match operator.as_assignment_operator() {
            AssignmentOperator::Assign => true,
            _ => !is_pattern(left.as_child()),
        },
        _ => unreachable!(),
    }
}

/// Whether the node is an object or an array that is assigned to.
#[tactic(auto, using(crate::proofs::KindRules::is_pattern_kind))]
fn is_pattern(node: &Node) -> bool
    ensures { result ≡ is_pattern_child (child node.now) }
{
    matches!(
        node.kind(),
        Kind::ObjectAssignmentTarget | Kind::ArrayAssignmentTarget
    )
}

/// Whether the specifiers of an export name what it may name.
fn export_rule(parts: &[Part]) -> bool
    requires { have_shapes (members_of Kind.ExportNamedDeclaration) parts.now ≡ true }
    ensures { result ≡ kind_rule Kind.ExportNamedDeclaration (parts_of parts.now) }
{
    match parts {
        [_, specifiers, source] => local_rules(specifiers.as_list(), source),
        _ => unreachable!(),
    }
}

/// Whether each specifier names what an export with this source may name.
fn local_rules(specifiers: &[Node], source: &Part) -> bool
    ensures { result ≡ local_rules (trees specifiers.now) (part_of source.now) }
{
    for specifier in specifiers {
        if !local_rule(specifier, source) {
            return false;
        }
    }
    true
}

/// Whether a specifier of an export names a reference where there is no source, and none where there
/// is one. It may name a string in both cases.
#[tactic(auto, using(crate::proofs::KindRules::no_specifier, crate::proofs::KindRules::specifier_is))]
fn local_rule(specifier: &Node, source: &Part) -> bool
    ensures { result ≡ local_rule (child specifier.now) (part_of source.now) }
{
    match specifier.kind() {
        Kind::ExportSpecifier => match specifier.parts() {
            [local, _] => may_be_local(local.as_child(), source),
            _ => unreachable!(),
        },
        _ => true,
    }
}

/// Whether this is a local name of an export with this source.
#[tactic(auto, using(crate::proofs::KindRules::local_is))]
fn may_be_local(local: &Node, source: &Part) -> bool
    ensures { result ≡ local_rule (child (tree.Node Kind.ExportSpecifier 0 None None (more (child local.now) end))) (part_of source.now) }
{
    match local.kind() {
        Kind::IdentifierReference => matches!(source, Part::Absent),
        Kind::IdentifierName => !matches!(source, Part::Absent),
        _ => true,
    }
}
