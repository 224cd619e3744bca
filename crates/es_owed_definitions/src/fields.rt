// The definitions of a class are those of its fields.

ghost use Rattle.std.specs.Prelude.{◌≡◌, ◌&&◌, ◌++◌, option_map, IfOk, OnOk};
ghost use Rattle.std.specs.Option.{option_to_list};
ghost use Rattle.es_base.specs.Tree.{trees};
ghost use Rattle.es_binding_faults.specs.Seen.{seen};
ghost use Rattle.es_lowered.specs.Definitions as spec;
ghost use Rattle.es_seen_names.specs.PrivateMembers.{private_members_of};
ghost use Rattle.es_shapes.specs.Classes.{element_view};
ghost use Rattle.es_steps.specs.LoweredClasses as classes;
ghost use Rattle.es_steps.specs.LoweredClasses.{element_of, elements_in};
ghost use Rattle.es_owed_definitions.specs.Fields.{HasStatics, class_stands, element_views, if_defined, is_defined_field};
ghost use Rattle.es_owed_definitions.specs.Keys.{names_view};
ghost use Rattle.es_owed_definitions.specs.Views.{definition_view, definition_views, key_view};

use crate::definition::{DefinedKey, FieldDefinition};
use crate::keys::{KeyNames, key_fits};
use crate::lowered::LoweredProgram;
use crate::values::value_fits;
use es_base::ledger::GeneratedKind;
use es_node::node::Node;
use es_outside::names::ProgramNames;
use es_owed::classes::class_body;
use es_shapes::asked::leaves_out_fields;
use es_shapes::class::elements_of;
use es_shapes::element::{ElementRef, element_of};
use es_steps::options::Options;
use std::alloc::{AllocError, Global};

// ---- the fields of a class

/// The fields among these elements that are defined: those of instances, or the static ones. Fails on allocation failure
/// alone.
#[tactic(auto, using(crate::proofs::FieldFits::defined_more))]
fn defined_fields<'a>(
    alloc: Global,
    options: &Options,
    is_static: bool,
    elements: &'a [Node],
) -> Result<Vec<ElementRef<'a>>, AllocError>
    ensures { IfOk result (λ r. element_views r.items ≡ spec.defined_fields options.now is_static (elements_in (trees elements.now))) }
{
    let mut fields = Vec::new(alloc);
    for element in elements {
        add_if_defined(options, is_static, element_of(element), &mut fields)?;
    }
    Ok(fields)
}

fn add_if_defined<'a>(
    options: &Options,
    is_static: bool,
    element: Option<ElementRef<'a>>,
    fields: &mut Vec<ElementRef<'a>>,
) -> Result<(), AllocError>
    ensures { OnOk result (element_views fields.new.items ≡ element_views fields.old.items ++ if_defined options.now is_static (option_map element_view element.entry)) }
{
    match element {
        Some(element) if is_defined_field(options, is_static, &element) => {
            fields.push(element)?;
            Ok(())
        }
        _ => Ok(()),
    }
}

fn is_defined_field(options: &Options, is_static: bool, element: &ElementRef) -> bool
    ensures { result ≡ is_defined_field options.now is_static (element_view element.now) }
{
    let is_of_side = if is_static {
        element.is_static
    } else {
        !element.is_static
    };
    element.is_field && (!is_left_out(options, element) && is_of_side)
}

/// Whether the element is a field that is left out.
fn is_left_out(options: &Options, element: &ElementRef) -> bool
    ensures { result ≡ classes.is_left_out options.now (element_view element.now) }
{
    leaves_out_fields(options)
        && (element.is_field && (!element.is_private && element.value.is_none()))
}

/// Whether a private method of instances is among these elements.
#[tactic(auto, using(crate::proofs::FieldFits::any_more))]
fn has_instance_method(elements: &[Node]) -> bool
    ensures { result ≡ spec.any_of spec.is_instance_method (elements_in (trees elements.now)) }
{
    for element in elements {
        if is_instance_method(element_of(element)) {
            return true;
        }
    }
    false
}

fn is_instance_method(element: Option<ElementRef>) -> bool
    ensures { result ≡ spec.any_of spec.is_instance_method (option_to_list (option_map element_view element.entry)) }
{
    match element {
        Some(element) => element.is_private && !(element.is_static || element.is_field),
        None => false,
    }
}

// ---- each definition is that of its field

/// Whether these are the definitions of these fields, in their order, with that of the brand in front or not.
fn branded_fit(
    names: &KeyNames,
    has_brand: bool,
    fields: &[ElementRef],
    definitions: &[FieldDefinition],
) -> bool
    ensures { result ≡ spec.branded_fit (names_view names.now) names.now.class has_brand (element_views fields.now) (definition_views definitions.now) }
{
    if !has_brand {
        return all_fit(names, fields, definitions);
    }
    match definitions.split_first() {
        Some((first, rest)) => { is_brand_key(names, first.key) && all_fit(names, fields, rest) }
        None => false,
    }
}

/// Whether the key is the brand of the class.
fn is_brand_key(names: &KeyNames, key: DefinedKey) -> bool
    ensures { result ≡ spec.is_brand_key names.now.class names.now.ledger.now (key_view key.entry) }
{
    match key {
        DefinedKey::Brand(name) => is_brand_of(names.class, names.ledger.generated_as(name)),
        _ => false,
    }
}

fn is_brand_of(class: u32, generated: Option<GeneratedKind>) -> bool
    ensures { result ≡ spec.is_brand_of class generated }
{
    match generated {
        Some(GeneratedKind::Brand(branded)) => class == branded.0,
        _ => false,
    }
}

/// Whether these are the definitions of these fields, in their order.
#[tactic(auto, using(crate::proofs::FieldFits::fit_differ))]
fn all_fit(names: &KeyNames, fields: &[ElementRef], definitions: &[FieldDefinition]) -> bool
    ensures { result ≡ spec.all_fit (names_view names.now) names.now.class (element_views fields.now) (definition_views definitions.now) }
{
    if fields.len() != definitions.len() {
        return false;
    }
    for (i, field) in fields.iter().enumerate() {
        if !fits(names, field, definitions[i]) {
            return false;
        }
    }
    true
}

/// Whether this is the definition of the field.
fn fits(names: &KeyNames, field: &ElementRef, definition: FieldDefinition) -> bool
    ensures { result ≡ (spec.key_fits (names_view names.now) names.now.class (element_view field.now) (definition_view definition.entry).key && spec.value_fits (element_view field.now).value (definition_view definition.entry).value) }
{
    key_fits(names, field, definition.key) && value_fits(field.value, definition.value)
}

// ---- all classes

/// Whether a class of the source with these elements has its definitions. Fails on allocation failure alone.
fn class_fits(
    alloc: Global,
    source: &ProgramNames,
    lowered: &LoweredProgram,
    class: u32,
    elements: &[Node],
) -> Result<bool, AllocError>
    requires { HasStatics lowered.now.terms (private_members_of lowered.now.members.now) lowered.now.listed.now.program.now lowered.now.statics }
    ensures { IfOk result (λ holds. holds ≡ spec.class_fits lowered.now.terms.first lowered.now.terms.options.now lowered.now.terms.ledger.now (private_members_of lowered.now.members.now) source.now.program.now lowered.now.listed.now.program.now class (elements_in (trees elements.now))) }
{
    let terms = &lowered.terms;
    let identifiers = lowered.identifiers_of(class);
    let names = KeyNames {
        ledger: terms.ledger,
        source,
        lowered: &lowered.listed.references,
        class,
        identifiers,
    };
    let fields = defined_fields(alloc, terms.options, false, elements)?;
    let definitions = lowered.instance_definitions(alloc, class)?;
    let has_brand = has_instance_method(elements);
    if !branded_fit(&names, has_brand, fields.as_slice(), definitions.as_slice()) {
        return Ok(false);
    }
    let fields = defined_fields(alloc, terms.options, true, elements)?;
    Ok(all_fit(&names, fields.as_slice(), lowered.static_definitions(class)))
}

/// Whether each class among these nodes of the source has its definitions. Fails on allocation failure alone.
#[tactic(auto, using(crate::proofs::FieldFits::classes_more))]
pub fn classes_fit(
    alloc: Global,
    source: &ProgramNames,
    lowered: &LoweredProgram,
    nodes: &[&Node],
) -> Result<bool, AllocError>
    requires { HasStatics lowered.now.terms (private_members_of lowered.now.members.now) lowered.now.listed.now.program.now lowered.now.statics }
    ensures { IfOk result (λ holds. holds ≡ spec.classes_fit lowered.now.terms.first lowered.now.terms.options.now lowered.now.terms.ledger.now (private_members_of lowered.now.members.now) source.now.program.now lowered.now.listed.now.program.now (seen nodes.now)) }
{
    for node in nodes {
        if !class_stands(alloc, source, lowered, node)? {
            return Ok(false);
        }
    }
    Ok(true)
}

/// The same of one node, if that is a class. Fails on allocation failure alone.
#[tactic(auto, using(crate::proofs::FieldFits::class_here, crate::proofs::FieldFits::class_elsewhere))]
pub fn class_stands(
    alloc: Global,
    source: &ProgramNames,
    lowered: &LoweredProgram,
    node: &Node,
) -> Result<bool, AllocError>
    requires { HasStatics lowered.now.terms (private_members_of lowered.now.members.now) lowered.now.listed.now.program.now lowered.now.statics }
    ensures { IfOk result (λ holds. holds ≡ class_stands lowered.now.terms.first lowered.now.terms.options.now lowered.now.terms.ledger.now (private_members_of lowered.now.members.now) source.now.program.now lowered.now.listed.now.program.now node.now) }
{
    match class_body(node) {
        Some(body) => class_fits(alloc, source, lowered, node.node_id().0, elements_of(body)),
        None => Ok(true),
    }
}
