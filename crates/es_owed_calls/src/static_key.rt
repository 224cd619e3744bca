// The keys of static elements that may be `name`.

ghost use Rattle.std.specs.Prelude.{◌≡◌, ◌&&◌, ◌++◌, ◌∷◌, [], None, cond, option_map, IfOk, OnOk};
ghost use Rattle.std.specs.Option.{option_to_list};
ghost use Rattle.es_base.specs.Tree as tree;
ghost use Rattle.es_base.specs.Tree.{child, end, literal, more, nullable, trees};
ghost use Rattle.es_base.specs.declared.kind.Kind.{Kind};
ghost use Rattle.es_lowered.specs.HelperCalls as spec;
ghost use Rattle.es_steps.specs.Parts.{is_present};
ghost use Rattle.es_owed_calls.specs.StaticKeys.{key_view, key_views};
ghost use Rattle.es_owed_calls.specs.Strings.{if_string};

use crate::helper::is_key_conversion;
use crate::spelled::generated_spelling;
use crate::terms::CallTerms;
use es_base::kind::Kind;
use es_base::literal::LiteralValue;
use es_node::node::Node;
use es_tree::class::{MethodDefinitionRef, PropertyDefinitionRef};
use es_tree::expression::AssignmentExpressionRef;
use es_tree::literal::LiteralRef;
use es_validity::parts::{is_spelled, is_string};
use std::alloc::{AllocError, Global};

/// A key of a static element that may be `name`.
#[derive(Clone, Copy)]
pub enum StaticKey<'a> {
    Name,
    /// A computed one, which this generated name keeps.
    KeptBy(&'a str),
}

/// Whether there are none of these keys.
pub fn has_none(keys: &[StaticKey]) -> bool
    ensures { result ≡ spec.has_none (key_views keys.now) }
{
    matches!(keys, [])
}

// ---- keys

/// What of a computed key may be `name`.
#[tactic(auto, using(crate::proofs::StaticKeys::literal_key, crate::proofs::StaticKeys::other_key))]
fn computed_static_key<'a>(terms: &CallTerms, key: &'a Node) -> Option<StaticKey<'a>>
    ensures { option_to_list (option_map key_view result) ≡ spec.computed_static_key terms.now.first terms.now.ledger.now (child key.now) }
{
    match key.kind() {
        // ['name']
        Kind::Literal => literal_key(terms, LiteralRef::from_node(key).value),
        // [_k = k]
        Kind::AssignmentExpression => {
            Some(assigned_key(terms, AssignmentExpressionRef::from_node(key)))
        }
        _ => Some(StaticKey::Name),
    }
}

fn literal_key<'a>(terms: &CallTerms, value: &LiteralValue) -> Option<StaticKey<'a>>
    ensures { option_to_list (option_map key_view result) ≡ spec.computed_static_key terms.now.first terms.now.ledger.now (child (tree.Node Kind.Literal 0 None None (more (literal value.now) end))) }
{
    match value {
        LiteralValue::String { value, .. } => {
            if is_string(value, "name") {
                Some(StaticKey::Name)
            } else {
                None
            }
        }
        _ => Some(StaticKey::Name),
    }
}

fn assigned_key<'a>(terms: &CallTerms, assignment: AssignmentExpressionRef<'a>) -> StaticKey<'a>
    ensures { key_view result ≡ cond (spec.is_key_conversion terms.now.first terms.now.ledger.now (child assignment.entry.right.now)) (spec.kept_by (spec.generated_spelling terms.now.first terms.now.ledger.now (child assignment.entry.left.now))) spec.is_name }
{
    if is_key_conversion(terms, assignment.right) {
        kept_by(generated_spelling(terms, assignment.left))
    } else {
        StaticKey::Name
    }
}

fn kept_by(name: Option<&str>) -> StaticKey<'_>
    ensures { key_view result ≡ spec.kept_by (if_string name.entry) }
{
    match name {
        Some(name) => StaticKey::KeptBy(name),
        None => StaticKey::Name,
    }
}

/// What of the key of an element may be `name`.
fn static_key<'a>(
    terms: &CallTerms,
    is_static: bool,
    computed: bool,
    key: &'a Node,
) -> Option<StaticKey<'a>>
    ensures { option_to_list (option_map key_view result) ≡ spec.static_key terms.now.first terms.now.ledger.now is_static computed (child key.now) }
{
    if !is_static {
        None
    } else if computed {
        computed_static_key(terms, key)
    } else if is_spelled("name", key) {
        Some(StaticKey::Name)
    } else {
        None
    }
}

// ---- elements

/// That of a method.
#[tactic(auto, using(crate::proofs::StaticKeys::no_method))]
fn method_key<'a>(terms: &CallTerms, element: &'a Node) -> Option<StaticKey<'a>>
    ensures { option_to_list (option_map key_view result) ≡ spec.method_key terms.now.first terms.now.ledger.now (child element.now) }
{
    match element.kind() {
        // static name() {}
        Kind::MethodDefinition => {
            let method = MethodDefinitionRef::from_node(element);
            static_key(terms, method.is_static, method.computed, method.key)
        }
        _ => None,
    }
}

/// Those of the methods among these elements. Fails on allocation failure alone.
pub fn method_keys<'a>(
    alloc: Global,
    terms: &CallTerms,
    elements: &'a [Node],
) -> Result<Vec<StaticKey<'a>>, AllocError>
    ensures { IfOk result (λ r. key_views r.items ≡ spec.method_keys terms.now.first terms.now.ledger.now (trees elements.now)) }
{
    let mut keys = Vec::new(alloc);
    for element in elements {
        add_some(method_key(terms, element), &mut keys)?;
    }
    Ok(keys)
}

/// Adds those of a field or of a static block: what these are given or do may give one. Fails on allocation failure alone.
#[tactic(auto, using(crate::proofs::StaticKeys::no_field, crate::proofs::StaticKeys::block_key))]
pub fn add_field_keys<'a>(
    terms: &CallTerms,
    element: &'a Node,
    keys: &mut Vec<StaticKey<'a>>,
) -> Result<(), AllocError>
    ensures { OnOk result (key_views keys.new.items ≡ key_views keys.old.items ++ spec.field_key terms.now.first terms.now.ledger.now (child element.now)) }
{
    match element.kind() {
        // static name = 1;
        Kind::PropertyDefinition => {
            add_keys_of_field(terms, PropertyDefinitionRef::from_node(element), keys)
        }
        // static {}
        Kind::StaticBlock => add_some(Some(StaticKey::Name), keys),
        _ => Ok(()),
    }
}

fn add_keys_of_field<'a>(
    terms: &CallTerms,
    field: PropertyDefinitionRef<'a>,
    keys: &mut Vec<StaticKey<'a>>,
) -> Result<(), AllocError>
    ensures { OnOk result (key_views keys.new.items ≡ key_views keys.old.items ++ (spec.static_key terms.now.first terms.now.ledger.now field.entry.is_static field.entry.computed (child field.entry.key.now) ++ cond (field.entry.is_static && is_present (nullable (option_map (λ x. x.now) field.entry.value))) (spec.is_name ∷ []) [])) }
{
    add_some(
        static_key(terms, field.is_static, field.computed, field.key),
        keys,
    )?;
    add_some(given_key(field), keys)
}

/// What a static field is given may give the class a name.
fn given_key(field: PropertyDefinitionRef<'_>) -> Option<StaticKey<'_>>
    ensures { option_to_list (option_map key_view result) ≡ cond (field.entry.is_static && is_present (nullable (option_map (λ x. x.now) field.entry.value))) (spec.is_name ∷ []) [] }
{
    if !field.is_static {
        return None;
    }
    match field.value {
        // static x = 1;
        Some(_) => Some(StaticKey::Name),
        None => None,
    }
}

fn add_some<'a>(key: Option<StaticKey<'a>>, keys: &mut Vec<StaticKey<'a>>) -> Result<(), AllocError>
    ensures { OnOk result (key_views keys.new.items ≡ key_views keys.old.items ++ option_to_list (option_map key_view key.entry)) }
{
    if let Some(key) = key {
        keys.push(key)?;
    }
    Ok(())
}
