// Whether a field of a class is as the first form asks.

ghost use Rattle.std.specs.Prelude.{◌≡◌, true, bytes_eq, option_map};
ghost use Rattle.es_base.specs.Ascii.{is_ascii};
ghost use Rattle.es_base.specs.Tree.{child, nullable};
ghost use Rattle.es_node.specs.View.{kind_of, parts_in};
ghost use Rattle.es_steps.specs.FirstForm.{is_plain_literal, is_plain_name, is_plain_value, is_plain_key, is_field};

use es_base::kind::Kind;
use es_base::literal::LiteralValue;
use es_base::name::Name;
use es_base::strings::is_word;
use es_name_set::Names;
use es_node::node::Node;
use es_tree::class::PropertyDefinitionRef;
use es_tree::identifier::{IdentifierNameRef, IdentifierReferenceRef};
use es_tree::literal::LiteralRef;

/// Whether the node is a field as the first form asks, in a program whose classes have these names: it
/// has such a key and value, and is neither computed nor static.
#[tactic(auto, using(crate::proofs::OfKinds::no_field))]
pub fn is_field(names: &Names, element: &Node) -> bool
    ensures { result ≡ is_field names.now (kind_of element.now) (parts_in element.now) }
{
    match element.kind() {
        Kind::PropertyDefinition => {
            let field = PropertyDefinitionRef::from_node(element);
            !field.computed
                && !field.is_static
                && is_plain_key(field.key)
                && is_plain_value(names, field.value)
        }
        _ => false,
    }
}

/// Whether the key is a name other than `constructor`.
#[tactic(auto, using(crate::proofs::OfKinds::no_plain_key))]
fn is_plain_key(key: &Node) -> bool
    ensures { result ≡ is_plain_key (child key.now) }
{
    match key.kind() {
        Kind::IdentifierName => {
            !is_string(IdentifierNameRef::from_node(key).name, "constructor")
        }
        _ => false,
    }
}

/// Whether the value is absent, a literal as the first form asks, or a name that is no class's.
#[tactic(auto, using(crate::proofs::OfKinds::no_plain_value))]
fn is_plain_value(names: &Names, value: Option<&Node>) -> bool
    ensures { result ≡ is_plain_value names.now (nullable (option_map (λ x. x.now) value.entry)) }
{
    let Some(value) = value else { return true };
    match value.kind() {
        Kind::Literal => is_plain_literal(LiteralRef::from_node(value).value),
        Kind::IdentifierReference => {
            is_plain_name(names, IdentifierReferenceRef::from_node(value).name)
        }
        _ => false,
    }
}

/// Whether the literal is a string, a number, a boolean or null.
fn is_plain_literal(value: &LiteralValue) -> bool
    ensures { result ≡ is_plain_literal value.now }
{
    match value {
        LiteralValue::String { .. }
        | LiteralValue::Number { .. }
        | LiteralValue::Boolean(_)
        | LiteralValue::Null => true,
        LiteralValue::BigInt { .. } | LiteralValue::RegExp { .. } => false,
    }
}

/// Whether the name is none of the classes' names, and not `arguments`.
fn is_plain_name(names: &Names, name: &Name) -> bool
    ensures { result ≡ is_plain_name names.now name.now }
{
    !(names.has(name.as_str()) || is_string(name, "arguments"))
}

/// Whether the name is this ASCII string.
#[tactic(auto, using(es_base::proofs::Ascii::chars_ascii))]
fn is_string(name: &Name, string: &str) -> bool
    requires { is_ascii string.now ≡ true }
    ensures { result ≡ bytes_eq name.now string.now }
{
    is_word(string, name.as_str())
}
