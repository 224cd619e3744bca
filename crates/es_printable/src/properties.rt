// Properties of objects and of patterns (ECMA-262, 13.2.5, 13.15.5, 14.3.3).

ghost use Rattle.std.specs.Prelude.{◌≡◌};
ghost use Rattle.std.specs.Str.{chars};
ghost use Rattle.es_base.specs.Tree.{child};
ghost use Rattle.es_base.specs.Words.{property_kind_string};
ghost use Rattle.es_steps.specs.Printable as spec;
ghost use Rattle.es_steps.specs.Printable.{is_bad_property, is_function_expression, is_identifier_name, is_kind_of, shorthand_name};
ghost use Rattle.es_printable.specs.Members.{is_no_method, is_no_shorthand, property_parts};

use es_base::kind::Kind;
use es_base::operator::PropertyKind;
use es_base::strings::is_word;
use es_node::node::Node;
use es_tree::pattern::{AssignmentPatternRef, AssignmentTargetWithDefaultRef};
use es_validity::names::name_of;
use es_validity::parts::{has_id, is_suspending};

/// The members of a property.
#[derive(Clone, Copy)]
pub struct PropertyMembers<'a> {
    pub key: &'a Node,
    pub value: &'a Node,
    pub kind: PropertyKind,
    pub method: bool,
    pub shorthand: bool,
    pub computed: bool,
}

/// Whether these are of more than one of a method, a shorthand, a getter and a setter, or of one that is not in its form.
pub fn is_bad_property(property: &PropertyMembers) -> bool
    ensures { result ≡ is_bad_property (property_parts property.now) }
{
    let is_accessor = is_accessor(property.kind);
    (property.shorthand && (property.method || (is_accessor || is_no_shorthand(property))))
        || (((property.method && is_accessor)
            || ((property.method || is_accessor) && is_no_method(property.value)))
            || (is_accessor && is_suspending(property.value)))
}

/// Whether a property is a getter or setter.
fn is_accessor(kind: PropertyKind) -> bool
    ensures { result ≡ spec.is_accessor (property_kind_string kind) }
{
    match kind {
        PropertyKind::Init => false,
        PropertyKind::Get | PropertyKind::Set => true,
    }
}

/// Whether a property cannot be written as its name, as in `{ a }` and `({ a = 1 } = o)`.
fn is_no_shorthand(property: &PropertyMembers) -> bool
    ensures { result ≡ is_no_shorthand (property_parts property.now) }
{
    !is_identifier_name(property.key)
        || (property.computed || !is_word(shorthand_name(property.value), name_of(property.key)))
}

#[tactic(auto, using(crate::proofs::NodeForms::name_kind))]
fn is_identifier_name(node: &Node) -> bool
    ensures { result ≡ is_kind_of is_identifier_name (child node.now) }
{
    matches!(node.kind(), Kind::IdentifierName)
}

/// The name of a shorthand's value: of an identifier, or of one with a default value.
#[tactic(auto, using(crate::proofs::NodeForms::no_default_name))]
fn shorthand_name(value: &Node) -> &str
    ensures { chars result.now ≡ shorthand_name (child value.now) }
{
    match value.kind() {
        // a = 1
        Kind::AssignmentPattern => name_of(AssignmentPatternRef::from_node(value).left),
        Kind::AssignmentTargetWithDefault => {
            name_of(AssignmentTargetWithDefaultRef::from_node(value).left)
        }
        _ => name_of(value),
    }
}

/// Whether the value cannot be written as a method: it is no function, or has a name of its own.
fn is_no_method(value: &Node) -> bool
    ensures { result ≡ is_no_method value.now }
{
    !is_function_expression(value) || has_id(value)
}

#[tactic(auto, using(crate::proofs::NodeForms::function_kind))]
fn is_function_expression(node: &Node) -> bool
    ensures { result ≡ is_kind_of is_function_expression (child node.now) }
{
    matches!(node.kind(), Kind::FunctionExpression)
}
