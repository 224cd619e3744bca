// Elements of classes (ECMA-262, 15.7.1), properties, and patterns that have a default value.

ghost use Rattle.std.specs.Prelude.{◌≡◌, ◌&&◌, false};
ghost use Rattle.es_base.specs.Words.{method_definition_kind_string};
ghost use Rattle.es_base.specs.declared.kind.Kind.{Kind};
ghost use Rattle.es_node.specs.View.{kind_of, part_of, parts_in, parts_of};
ghost use Rattle.es_steps.specs.Parts.{at};
ghost use Rattle.es_steps.specs.Printable as spec;
ghost use Rattle.es_steps.specs.Printable.{is_accessor, is_bad_form, is_default, is_kind_of};
ghost use Rattle.es_printable.specs.Members.{is_element_form};

use crate::properties::{PropertyMembers, is_bad_property};
use es_base::kind::Kind;
use es_base::operator::{MethodDefinitionKind, PropertyKind};
use es_binding_faults::hoisted::part_at;
use es_node::node::{Node, Part};
use es_tree::class::{MethodDefinitionRef, PropertyDefinitionRef};
use es_tree::expression::PropertyRef;
use es_tree::pattern::{AssignmentTargetPropertyRef, BindingPropertyRef};
use es_validity::class::is_constructor;
use es_validity::parts::{has_id, is_spelled, is_suspending};

/// Whether the node is an element, a property or a target with a default value that cannot be written.
#[tactic(auto, using(crate::proofs::NodeForms::property_element, crate::proofs::NodeForms::binding_element, crate::proofs::NodeForms::target_element, crate::proofs::NodeForms::method_element, crate::proofs::NodeForms::field_element, crate::proofs::NodeForms::declarator_element, crate::proofs::NodeForms::pattern_element, crate::proofs::NodeForms::default_element, crate::proofs::NodeForms::rest_element, crate::proofs::NodeForms::target_rest_element, crate::proofs::NodeForms::caught_element, crate::proofs::NodeForms::no_element_form))]
pub fn is_bad_element(node: &Node) -> bool
    ensures { result ≡ (is_element_form (kind_of node.now) && is_bad_form (kind_of node.now) (parts_in node.now)) }
{
    match node.kind() {
        Kind::Property => is_bad_object_property(node),
        Kind::BindingProperty => is_bad_binding_property(node),
        Kind::AssignmentTargetProperty => is_bad_target_property(node),
        Kind::MethodDefinition => is_bad_method(node),
        Kind::PropertyDefinition => is_bad_field(node),
        Kind::VariableDeclarator => is_default_at(node.parts(), 0),
        Kind::AssignmentPattern => is_default_at(node.parts(), 0),
        Kind::AssignmentTargetWithDefault => is_default_at(node.parts(), 0),
        Kind::RestElement => is_default_at(node.parts(), 0),
        Kind::AssignmentTargetRest => is_default_at(node.parts(), 0),
        Kind::CatchClause => is_default_at(node.parts(), 0),
        _ => false,
    }
}

/// `{ a: b }`
fn is_bad_object_property(node: &Node) -> bool
    requires { kind_of node.now ≡ Kind.Property }
    ensures { result ≡ spec.is_bad_property (parts_in node.now) }
{
    let property = PropertyRef::from_node(node);
    is_bad_property(&PropertyMembers {
        key: property.key,
        value: property.value,
        kind: property.kind,
        method: property.method,
        shorthand: property.shorthand,
        computed: property.computed,
    })
}

/// `const { a: b } = o;`
fn is_bad_binding_property(node: &Node) -> bool
    requires { kind_of node.now ≡ Kind.BindingProperty }
    ensures { result ≡ spec.is_bad_property (parts_in node.now) }
{
    let property = BindingPropertyRef::from_node(node);
    is_bad_property(&PropertyMembers {
        key: property.key,
        value: property.value,
        kind: PropertyKind::Init,
        method: false,
        shorthand: property.shorthand,
        computed: property.computed,
    })
}

/// `({ a: b } = o)`
fn is_bad_target_property(node: &Node) -> bool
    requires { kind_of node.now ≡ Kind.AssignmentTargetProperty }
    ensures { result ≡ spec.is_bad_property (parts_in node.now) }
{
    let property = AssignmentTargetPropertyRef::from_node(node);
    is_bad_property(&PropertyMembers {
        key: property.key,
        value: property.value,
        kind: PropertyKind::Init,
        method: false,
        shorthand: property.shorthand,
        computed: property.computed,
    })
}

/// `m() {}` that is a constructor by its name and not by its kind, or the other way round; a static `prototype`; a function
/// with a name of its own; an accessor that is async or a generator.
fn is_bad_method(node: &Node) -> bool
    requires { kind_of node.now ≡ Kind.MethodDefinition }
    ensures { result ≡ spec.is_bad_method (parts_in node.now) }
{
    let method = MethodDefinitionRef::from_node(node);
    let names_constructor = is_spelled("constructor", method.key)
        && !(method.computed || method.is_static);
    let is_kind = is_constructor(method.kind);
    let is_suspending = is_suspending(method.value);
    ((is_kind && !names_constructor) || (names_constructor && (!is_kind || is_suspending)))
        || ((method.is_static && (!method.computed && is_spelled("prototype", method.key)))
            || (has_id(method.value) || (is_accessor(method.kind) && is_suspending)))
}

fn is_accessor(kind: MethodDefinitionKind) -> bool
    ensures { result ≡ is_accessor (method_definition_kind_string kind) }
{
    match kind {
        MethodDefinitionKind::Constructor | MethodDefinitionKind::Method => false,
        MethodDefinitionKind::Get | MethodDefinitionKind::Set => true,
    }
}

/// A field that is named `constructor`, or a static one that is named `prototype`.
fn is_bad_field(node: &Node) -> bool
    requires { kind_of node.now ≡ Kind.PropertyDefinition }
    ensures { result ≡ spec.is_bad_field (parts_in node.now) }
{
    let field = PropertyDefinitionRef::from_node(node);
    !field.computed
        && (is_spelled("constructor", field.key)
            || (field.is_static && is_spelled("prototype", field.key)))
}

// ---- default values

fn is_default_at(parts: &[Part], i: usize) -> bool
    ensures { result ≡ is_kind_of is_default (at i (parts_of parts.now)) }
{
    match part_at(parts, i) {
        Some(part) => is_default_part(part),
        None => false,
    }
}

#[tactic(auto, using(crate::proofs::NodeForms::default_kind))]
fn is_default_part(part: &Part) -> bool
    ensures { result ≡ is_kind_of is_default (part_of part.now) }
{
    match part {
        Part::Child(node) => is_default(node.kind()),
        _ => false,
    }
}

fn is_default(kind: Kind) -> bool
    ensures { result ≡ is_default kind }
{
    matches!(
        kind,
        Kind::AssignmentPattern | Kind::AssignmentTargetWithDefault
    )
}
