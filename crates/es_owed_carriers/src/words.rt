// What a node says by itself stays: its strings and flags, and which of its parts are there.

ghost use Rattle.std.specs.Prelude.{◌≡◌, ◌||◌, ◌&&◌, not, []};
ghost use Rattle.std.specs.Str.{chars};
ghost use Rattle.es_base.specs.Tree.{child, list, trees};
ghost use Rattle.es_lowered.specs.HelperCalls.{is_number_key};
ghost use Rattle.es_lowered.specs.KeptWords as spec;
ghost use Rattle.es_lowered.specs.KeptWords.{is_this_name, keeps_computed, keeps_value, same_name, same_word};
ghost use Rattle.es_node.specs.View.{part_of, parts_of};
ghost use Rattle.es_steps.specs.Parts.{at, is_present, is_true};
ghost use Rattle.es_steps.specs.SameValues.{same_boolean};
ghost use Rattle.es_owed_carriers.specs.Words.{words_from};

use es_base::kind::Kind;
use es_base::literal::LiteralValue;
use es_base::strings::is_word;
use es_binding_faults::hoisted::part_at;
use es_node::node::{Node, Part};
use es_owed::same::same_part;
use es_seen_names::parts::{is_present_at, is_true_at};
use es_tree::literal::LiteralRef;
use es_validity::names::name_of;

/// Whether a node of this kind with the first parts says what one with the others does, but for what a lowering changes.
#[tactic(auto, using(crate::proofs::KeptParts::words_of_kind))]
pub fn keeps_words(kind: Kind, parts: &[Part], others: &[Part]) -> bool
    ensures { result ≡ spec.keeps_words kind (parts_of parts.now) (parts_of others.now) }
{
    same_words(kind, parts, others)
        && (keeps_computed(kind, parts, others) && keeps_value(kind, parts, others))
}

/// Whether a lowering changes the i-th part of a node of this kind.
fn is_free(kind: Kind, i: usize) -> bool
    ensures { result ≡ spec.is_free kind i }
{
    match kind {
        // names, the operator of an assignment, what an export declares
        Kind::IdentifierReference
        | Kind::BindingIdentifier
        | Kind::ClassDeclaration
        | Kind::ClassExpression
        | Kind::AssignmentExpression
        | Kind::ExportNamedDeclaration => i == 0,
        // a?.()
        Kind::CallExpression => i == 2,
        // static a; and whether the key is computed in [a] = 1;
        Kind::PropertyDefinition => i == 1 || i == 2,
        // a?.b, a?.#b
        Kind::MemberExpression | Kind::PrivateField => i == 3,
        // { a }, { [a]: 1 }
        Kind::Property => i == 4 || i == 5,
        Kind::BindingProperty | Kind::AssignmentTargetProperty => i == 4,
        _ => false,
    }
}

/// Whether two lists of parts of nodes of this kind say the same, but for the free parts.
#[tactic(auto, using(crate::proofs::KeptParts::words_differ))]
fn same_words(kind: Kind, parts: &[Part], others: &[Part]) -> bool
    ensures { result ≡ words_from kind 0 (parts_of parts.now) (parts_of others.now) }
{
    if parts.len() != others.len() {
        return false;
    }
    for (i, part) in parts.iter().enumerate() {
        if !is_word_kept(kind, i, part, &others[i]) {
            return false;
        }
    }
    true
}

/// Whether the i-th part says the same as the other, if it is not free.
fn is_word_kept(kind: Kind, i: usize, part: &Part, other: &Part) -> bool
    ensures { result ≡ (spec.is_free kind i || same_word (part_of part.now) (part_of other.now)) }
{
    is_free(kind, i) || same_word(part, other)
}

/// Whether both are of one sort and, as strings, booleans or names that are no references, the same.
#[tactic(auto, using(crate::proofs::KeptParts::absent_words, crate::proofs::KeptParts::string_words, crate::proofs::KeptParts::no_string_words, crate::proofs::KeptParts::boolean_words, crate::proofs::KeptParts::words_of_lists))]
fn same_word(part: &Part, other: &Part) -> bool
    ensures { result ≡ same_word (part_of part.now) (part_of other.now) }
{
    match part {
        Part::Child(node) => is_node_with_name(node, other),
        Part::List(_) => is_list(other),
        Part::Holes(_) => is_list(other),
        Part::Literal(_) => matches!(other, Part::Literal(_)),
        Part::Absent => same_part(part, other),
        Part::String(_) => same_part(part, other),
        Part::NoString => same_part(part, other),
        Part::Word(_) => same_part(part, other),
        Part::Boolean(_) => same_part(part, other),
    }
}

fn is_list(part: &Part) -> bool
    ensures { result ≡ same_word (list (trees [])) (part_of part.now) }
{
    match part {
        Part::List(_) => true,
        Part::Holes(_) => true,
        _ => false,
    }
}

// ---- names that are words of the node around them

/// Whether the part is a node, and has the name of this one if that is no reference.
fn is_node_with_name(node: &Node, part: &Part) -> bool
    ensures { result ≡ same_word (child node.now) (part_of part.now) }
{
    match part {
        Part::Child(other) => same_name(node, other),
        _ => false,
    }
}

/// Whether the second node has the name of the first, if that is a name that is no reference, as a label, a key or
/// `new.target`.
#[tactic(auto, using(crate::proofs::KeptParts::name_kept, crate::proofs::KeptParts::no_name))]
fn same_name(node: &Node, other: &Node) -> bool
    ensures { result ≡ same_name node.now other.now }
{
    match node.kind() {
        // a
        Kind::IdentifierName => is_this_name(name_of(node), other),
        _ => true,
    }
}

/// Whether the node is this name, and no reference.
#[tactic(auto, using(crate::proofs::KeptParts::this_name, crate::proofs::KeptParts::not_this_name))]
fn is_this_name(name: &str, node: &Node) -> bool
    ensures { result ≡ is_this_name (chars name.now) node.now }
{
    match node.kind() {
        // a
        Kind::IdentifierName => is_word(name_of(node), name),
        _ => false,
    }
}

// ---- keys

/// Whether the key of a field that was computed is, and that of a property is where it was, or where it was a number.
#[tactic(auto, using(crate::proofs::KeptParts::no_computed_key))]
fn keeps_computed(kind: Kind, parts: &[Part], others: &[Part]) -> bool
    ensures { result ≡ keeps_computed kind (parts_of parts.now) (parts_of others.now) }
{
    match kind {
        // [a] = 1;
        Kind::PropertyDefinition => !is_true_at(parts, 2) || is_true_at(others, 2),
        // { [a]: 1 }
        Kind::Property => is_key_computed_alike(parts, others),
        _ => true,
    }
}

/// Whether the key of a property is computed in both or in none, or in the second alone, where it is a number in the first.
fn is_key_computed_alike(parts: &[Part], others: &[Part]) -> bool
    ensures { result ≡ (same_boolean (is_true (at 5 (parts_of parts.now))) (is_true (at 5 (parts_of others.now)))
        || (is_number_key (at 0 (parts_of parts.now)) && is_true (at 5 (parts_of others.now)))) }
{
    let is_computed = is_true_at(others, 5);
    if is_true_at(parts, 5) {
        is_computed || (has_number_key(parts) && is_computed)
    } else {
        !is_computed || (has_number_key(parts) && is_computed)
    }
}

/// Whether the first part is a number.
fn has_number_key(parts: &[Part]) -> bool
    ensures { result ≡ is_number_key (at 0 (parts_of parts.now)) }
{
    match part_at(parts, 0) {
        Some(Part::Child(key)) => is_number(key),
        _ => false,
    }
}

/// Whether the node is a number or a bigint.
#[tactic(auto, using(crate::proofs::KeptParts::no_literal))]
fn is_number(node: &Node) -> bool
    ensures { result ≡ is_number_key (child node.now) }
{
    match node.kind() {
        // 1
        Kind::Literal => match LiteralRef::from_node(node).value {
            LiteralValue::Number { .. } => true,
            // 1n
            LiteralValue::BigInt { .. } => true,
            _ => false,
        },
        _ => false,
    }
}

// ---- values of fields

/// Whether the value of a field stands where it stood, or that of a static field that had none.
#[tactic(auto, using(crate::proofs::KeptParts::no_field))]
fn keeps_value(kind: Kind, parts: &[Part], others: &[Part]) -> bool
    ensures { result ≡ keeps_value kind (parts_of parts.now) (parts_of others.now) }
{
    match kind {
        // static a;
        Kind::PropertyDefinition => is_value_kept(parts, others),
        _ => true,
    }
}

fn is_value_kept(parts: &[Part], others: &[Part]) -> bool
    ensures { result ≡ (same_word (at 1 (parts_of parts.now)) (at 1 (parts_of others.now))
        || (is_true (at 3 (parts_of parts.now)) && not (is_present (at 1 (parts_of parts.now))))) }
{
    has_same_word(parts, others, 1) || (is_true_at(parts, 3) && !is_present_at(parts, 1))
}

/// Whether the parts at this place say the same.
#[tactic(auto, using(crate::proofs::KeptParts::word_of_nothing, crate::proofs::KeptParts::word_is_nothing))]
fn has_same_word(parts: &[Part], others: &[Part], i: usize) -> bool
    ensures { result ≡ same_word (at i (parts_of parts.now)) (at i (parts_of others.now)) }
{
    match part_at(parts, i) {
        Some(part) => match part_at(others, i) {
            Some(other) => same_word(part, other),
            None => !is_present_at(parts, i),
        },
        None => !is_present_at(others, i),
    }
}
