// The key of a definition is that of a field.

ghost use Rattle.std.specs.Prelude.{◌≡◌, None, false, option_map, true};
ghost use Rattle.std.specs.Str.{chars};
ghost use Rattle.es_base.specs.Tree as tree;
ghost use Rattle.es_base.specs.Tree.{child, end, literal, more};
ghost use Rattle.es_base.specs.declared.kind.Kind.{Kind};
ghost use Rattle.es_lowered.specs.Definitions as spec;
ghost use Rattle.es_referents.specs.Meanings.{referent_in};
ghost use Rattle.es_shapes.specs.Classes.{element_view};
ghost use Rattle.es_shapes.specs.Names.{bound_number};
ghost use Rattle.es_steps.specs.Context.{generated_as};
ghost use Rattle.es_steps.specs.LoweredClasses.{referent_of};
ghost use Rattle.es_steps.specs.References.{resolve};
ghost use Rattle.es_references.specs.References.{references_of};
ghost use Rattle.es_owed_definitions.specs.Keys.{is_name_key, names_view, same_number};
ghost use Rattle.es_owed_definitions.specs.Views.{key_view, node_part};

use crate::definition::DefinedKey;
use crate::forms::generated_at;
use es_base::ids::NodeId;
use es_base::kind::Kind;
use es_base::ledger::GeneratedKind;
use es_base::literal::LiteralValue;
use es_base::strings::is_word;
use es_generated::ledger::Ledger;
use es_node::node::Node;
use es_outside::names::ProgramNames;
use es_owed::same::same_node;
use es_owed_initialized::class_names::names_class;
use es_references::references::Reference;
use es_referents::Referents;
use es_seen_names::parts::string_at;
use es_shapes::element::ElementRef;
use es_shapes::facts::NameFacts;
use es_shapes::heritage::needs_temporary;
use es_tree::literal::LiteralRef;

/// What the keys of a class are told by.
#[derive(Clone, Copy)]
pub struct KeyNames<'r, 'a> {
    /// The generated names.
    pub ledger: &'r Ledger<'r>,
    /// The names of the source.
    pub source: &'r ProgramNames<'a>,
    /// The references of what it was lowered to.
    pub lowered: &'r Referents<'a>,
    /// The class, and the identifiers that declare it.
    pub class: u32,
    pub identifiers: &'r [u32],
}

/// Whether a definition with this key is that of the element.
#[tactic(auto, using(crate::proofs::FieldKeys::named_key))]
pub fn key_fits(names: &KeyNames, element: &ElementRef, key: DefinedKey) -> bool
    ensures { result ≡ spec.key_fits (names_view names.now) names.now.class (element_view element.now) (key_view key.entry) }
{
    match key {
        DefinedKey::Brand(_) => false,
        DefinedKey::Private(name) => {
            element.is_private && is_member_key(element.key, names.ledger.generated_as(name))
        }
        DefinedKey::Value(key) => !element.is_private && is_value_of(names, element, key),
        DefinedKey::Name(key) => !element.is_private && is_name_of(element.key, key),
    }
}

// ---- private members

/// Whether a name that was generated as this is the name of the member that this key declares.
#[tactic(auto, using(crate::proofs::FieldKeys::member_key))]
fn is_member_key(key: Option<&Node>, generated: Option<GeneratedKind>) -> bool
    ensures { result ≡ spec.is_member_key (node_part key.entry) generated }
{
    match key {
        Some(key) => is_member_name(key.node_id().0, generated),
        None => false,
    }
}

fn is_member_name(member: u32, generated: Option<GeneratedKind>) -> bool
    ensures { result ≡ spec.is_member_name member generated }
{
    match generated {
        Some(GeneratedKind::WeakMap(declared)) => member == declared.0,
        Some(GeneratedKind::StaticField(declared)) => member == declared.0,
        Some(GeneratedKind::LooseKey(declared)) => member == declared.0,
        _ => false,
    }
}

// ---- keys that stand as property names

/// Whether the key, which stands as a property name, is that of an element with this key.
#[tactic(auto, using(crate::proofs::FieldKeys::name_key, crate::proofs::FieldKeys::no_name_key))]
fn is_name_of(element_key: Option<&Node>, key: &Node) -> bool
    ensures { result ≡ is_name_key (node_part element_key.entry) (child key.now) }
{
    let Some(element_key) = element_key else {
        return false
    };
    match element_key.kind() {
        // x
        Kind::IdentifierName => is_same_name(string_at(element_key.parts(), 0), key),
        _ => false,
    }
}

#[tactic(auto, using(crate::proofs::FieldKeys::same_name, crate::proofs::FieldKeys::no_same_name))]
fn is_same_name(name: &str, key: &Node) -> bool
    ensures { result ≡ spec.is_property_name (chars name.now) true (child key.now) }
{
    match key.kind() {
        // x
        Kind::IdentifierName => is_word(string_at(key.parts(), 0), name),
        _ => false,
    }
}

// ---- other keys

/// Whether the key, which is no property name, is that of the element.
#[tactic(auto, using(crate::proofs::FieldKeys::named_value, crate::proofs::FieldKeys::unnamed_value))]
fn is_value_of(names: &KeyNames, element: &ElementRef, key: &Node) -> bool
    ensures { result ≡ spec.is_key_of (names_view names.now) names.now.class (element_view element.now) (element_view element.now).key false (child key.now) }
{
    let Some(element_key) = element.key else {
        return element.computed && is_temporary_name(names, key);
    };
    match element_key.kind() {
        // x
        Kind::IdentifierName => is_string_of(string_at(element_key.parts(), 0), key),
        _ => {
            if element.computed {
                is_computed_key(names, element_key, key)
            } else {
                same_node(element_key, key)
            }
        }
    }
}

/// Whether the key is this string.
#[tactic(auto, using(crate::proofs::FieldKeys::string_key, crate::proofs::FieldKeys::no_string_key))]
fn is_string_of(name: &str, key: &Node) -> bool
    ensures { result ≡ spec.is_property_name (chars name.now) false (child key.now) }
{
    match key.kind() {
        // 'x'
        Kind::Literal => is_string_value(name, LiteralRef::from_node(key).value),
        _ => false,
    }
}

fn is_string_value(name: &str, value: &LiteralValue) -> bool
    ensures { result ≡ spec.is_property_name (chars name.now) false (child (tree.Node Kind.Literal 0 None None (more (literal value.now) end))) }
{
    match value {
        LiteralValue::String { value, .. } => is_word(value.as_str(), name),
        _ => false,
    }
}

/// Whether the key is what a computed one was lowered to: one that needs a temporary is one, a name is that name or one of the
/// class, all else is itself.
#[tactic(auto, using(crate::proofs::FieldKeys::name_part, crate::proofs::FieldKeys::no_name_part))]
fn is_computed_key(names: &KeyNames, element_key: &Node, key: &Node) -> bool
    ensures { result ≡ spec.is_computed_key (names_view names.now) names.now.class (child element_key.now) (child key.now) }
{
    if needs_temporary(names.source, Some(element_key)) {
        return is_temporary_name(names, key);
    }
    match element_key.kind() {
        // [x]
        Kind::IdentifierReference => {
            is_same_binding(names, element_key, key)
                || names_class(
                    names.class,
                    names.ledger,
                    names.lowered,
                    names.identifiers,
                    key,
                )
        }
        _ => same_node(element_key, key),
    }
}

/// Whether the node is the name of a temporary.
fn is_temporary_name(names: &KeyNames, node: &Node) -> bool
    ensures { result ≡ spec.is_temporary (generated_as (spec.spelling (child node.now)) names.now.ledger.now) }
{
    matches!(generated_at(node, names.ledger), Some(GeneratedKind::Temp))
}

/// Whether a name of the source and one of what it was lowered to mean one binding.
#[tactic(auto, using(crate::proofs::FieldKeys::same_bound, crate::proofs::FieldKeys::referent_node))]
fn is_same_binding(names: &KeyNames, name: &Node, other: &Node) -> bool
    ensures { result ≡ spec.same_referent (spec.referent_at (child name.now) (resolve names.now.source.now.program.now)) (spec.referent_at (child other.now) (references_of names.now.lowered.now.list.items)) }
{
    same_number(
        names.source.binding_of(name.node_id()),
        binding_at(other.node_id().0, names.lowered),
    )
}

/// The binding that the reference of this number means.
fn binding_at(number: u32, references: &Referents) -> Option<NodeId>
    ensures { option_map (λ n. n.0) result ≡ bound_number (referent_of number (references_of references.now.list.items)) }
{
    binding_of(references.at(number))
}

#[tactic(auto, using(crate::proofs::FieldKeys::bound_in))]
fn binding_of(reference: Option<Reference>) -> Option<NodeId>
    ensures { option_map (λ n. n.0) result ≡ bound_number (referent_in reference.entry) }
{
    match reference {
        Some(reference) => reference.binding,
        None => None,
    }
}

fn same_number(binding: Option<NodeId>, other: Option<NodeId>) -> bool
    ensures { result ≡ same_number (option_map (λ n. n.0) binding) (option_map (λ n. n.0) other) }
{
    match binding {
        Some(binding) => match other {
            Some(other) => binding.0 == other.0,
            None => false,
        },
        None => false,
    }
}
