// The definitions that stand in constructors, and in the functions that stand for `super(..)`.

ghost use Rattle.std.specs.Prelude.{◌≡◌, ◌||◌, ◌++◌, ◌∷◌, [], IfOk, OnOk};
ghost use Rattle.std.specs.Str.{chars};
ghost use Rattle.es_base.specs.Tree.{child, nullable, nullable_trees, trees};
ghost use Rattle.es_binding_faults.specs.Seen.{seen};
ghost use Rattle.es_lowered.specs.Definitions as spec;
ghost use Rattle.es_node.specs.View.{kind_of, part_of, parts_in, parts_of};
ghost use Rattle.es_steps.specs.Context as context;
ghost use Rattle.es_steps.specs.LoweredClasses.{constructor_in};
ghost use Rattle.es_steps.specs.PrivateNames.{is_class};
ghost use Rattle.es_owed_definitions.specs.Views.{constructed, definition_view, definition_views, node_part, of_super};

use crate::definition::FieldDefinition;
use crate::forms::add_definitions_at;
use crate::terms::Terms;
use es_base::kind::Kind;
use es_base::ledger::GeneratedKind;
use es_generated::numbers::is_new;
use es_node::node::{Node, Part};
use es_owed::classes::body_if;
use es_owed_initialized::kinds::{is_class, is_function};
use es_owed_initialized::spelling::spelling_of;
use es_shapes::class::elements_of;
use es_shapes::late_class::constructor_among;
use es_tree::expression::AssignmentExpressionRef;
use es_tree::statement::VariableDeclaratorRef;
use std::alloc::{AllocError, Global};

// ---- what is given a value

/// What an assignment or a declarator gives a value.
#[tactic(auto, using(crate::proofs::FoundDefinitions::given_to_none))]
pub fn given_to(node: &Node) -> Option<&Node>
    ensures { node_part result ≡ spec.given_to (kind_of node.now) (parts_in node.now) }
{
    match node.kind() {
        // x = a
        Kind::AssignmentExpression => Some(AssignmentExpressionRef::from_node(node).left),
        // let x = a
        Kind::VariableDeclarator => Some(VariableDeclaratorRef::from_node(node).id),
        _ => None,
    }
}

/// The value that an assignment or a declarator gives.
#[tactic(auto, using(crate::proofs::FoundDefinitions::given_part_none))]
pub fn given_part(node: &Node) -> Option<&Node>
    ensures { node_part result ≡ spec.given_part (kind_of node.now) (parts_in node.now) }
{
    match node.kind() {
        // x = a
        Kind::AssignmentExpression => Some(AssignmentExpressionRef::from_node(node).right),
        // let x = a
        Kind::VariableDeclarator => VariableDeclaratorRef::from_node(node).init,
        _ => None,
    }
}

/// The name that an assignment or a declarator gives a value; else nothing.
pub fn given_name(node: &Node) -> &str
    ensures { chars result.now ≡ spec.spelling (spec.given_to (kind_of node.now) (parts_in node.now)) }
{
    spelling_of(given_to(node))
}

/// Whether the node gives a value to a name that stands for `super(..)` of this class.
fn is_given_super(terms: &Terms, class: u32, node: &Node) -> bool
    ensures { result ≡ spec.is_given_super terms.now.first terms.now.options.now terms.now.ledger.now class (kind_of node.now) (parts_in node.now) }
{
    is_super_of(class, terms.ledger.generated_as(given_name(node)))
}

fn is_super_of(class: u32, generated: Option<GeneratedKind>) -> bool
    ensures { result ≡ spec.is_super_of class generated }
{
    match generated {
        Some(GeneratedKind::SuperFn(constructed)) => class == constructed.0,
        _ => false,
    }
}

// ---- the walk

/// Whether what stands in the node is not of the code around it: in a class, a function that is no arrow, and what stands for
/// `super(..)` of this class.
fn stands_apart(terms: &Terms, class: u32, node: &Node) -> bool
    ensures { result ≡ (is_class (kind_of node.now) || (context.is_function (kind_of node.now) || spec.is_given_super terms.now.first terms.now.options.now terms.now.ledger.now class (kind_of node.now) (parts_in node.now))) }
{
    is_class(node.kind()) || is_function(node.kind()) || is_given_super(terms, class, node)
}

/// Adds the definitions in the node. Fails on allocation failure alone.
#[cycle(found)]
#[tactic(auto, using(crate::proofs::FoundDefinitions::definitions_node, es_node::proofs::Below::nodes_in))]
fn add_definitions_in<'a>(
    terms: &Terms,
    class: u32,
    node: &'a Node,
    found: &mut Vec<FieldDefinition<'a>>,
) -> Result<(), AllocError>
    ensures { OnOk result (definition_views found.new.items ≡ definition_views found.old.items ++ spec.definitions_in terms.now.first terms.now.options.now terms.now.ledger.now class node.now) }
{
    if stands_apart(terms, class, node) {
        return Ok(());
    }
    add_definitions_at(terms, node, found)?;
    add_definitions_of(terms, class, node.parts(), found)
}

/// Adds the definitions in these parts. Fails on allocation failure alone.
#[cycle(found)]
fn add_definitions_of<'a>(
    terms: &Terms,
    class: u32,
    parts: &'a [Part],
    found: &mut Vec<FieldDefinition<'a>>,
) -> Result<(), AllocError>
    ensures { OnOk result (definition_views found.new.items ≡ definition_views found.old.items ++ spec.definitions_of terms.now.first terms.now.options.now terms.now.ledger.now class (parts_of parts.now)) }
{
    for part in parts {
        add_definitions_of_part(terms, class, part, found)?;
    }
    Ok(())
}

#[cycle(found)]
fn add_definitions_of_part<'a>(
    terms: &Terms,
    class: u32,
    part: &'a Part,
    found: &mut Vec<FieldDefinition<'a>>,
) -> Result<(), AllocError>
    ensures { OnOk result (definition_views found.new.items ≡ definition_views found.old.items ++ spec.definitions_at terms.now.first terms.now.options.now terms.now.ledger.now class (part_of part.now)) }
{
    match part {
        Part::Child(node) => add_definitions_in(terms, class, node, found),
        Part::List(nodes) => add_definitions_of_list(terms, class, nodes.as_slice(), found),
        Part::Holes(nodes) => {
            add_definitions_of_list_with_holes(terms, class, nodes.as_slice(), found)
        }
        _ => Ok(()),
    }
}

#[cycle(found)]
fn add_definitions_of_list<'a>(
    terms: &Terms,
    class: u32,
    nodes: &'a [Node],
    found: &mut Vec<FieldDefinition<'a>>,
) -> Result<(), AllocError>
    ensures { OnOk result (definition_views found.new.items ≡ definition_views found.old.items ++ spec.definitions_of terms.now.first terms.now.options.now terms.now.ledger.now class (trees nodes.now)) }
{
    for node in nodes {
        add_definitions_in(terms, class, node, found)?;
    }
    Ok(())
}

#[cycle(found)]
fn add_definitions_of_list_with_holes<'a>(
    terms: &Terms,
    class: u32,
    nodes: &'a [Option<Node>],
    found: &mut Vec<FieldDefinition<'a>>,
) -> Result<(), AllocError>
    ensures { OnOk result (definition_views found.new.items ≡ definition_views found.old.items ++ spec.definitions_of terms.now.first terms.now.options.now terms.now.ledger.now class (nullable_trees nodes.now)) }
{
    for node in nodes {
        add_definitions_of_hole(terms, class, node, found)?;
    }
    Ok(())
}

#[cycle(found)]
fn add_definitions_of_hole<'a>(
    terms: &Terms,
    class: u32,
    node: &'a Option<Node>,
    found: &mut Vec<FieldDefinition<'a>>,
) -> Result<(), AllocError>
    ensures { OnOk result (definition_views found.new.items ≡ definition_views found.old.items ++ spec.definitions_at terms.now.first terms.now.options.now terms.now.ledger.now class (nullable node.now)) }
{
    match node {
        Some(node) => add_definitions_in(terms, class, node, found),
        None => Ok(()),
    }
}

/// Adds the definitions in a function, if there is one. Fails on allocation failure alone.
#[tactic(auto, using(crate::proofs::FoundDefinitions::function_node))]
fn add_function_definitions<'a>(
    terms: &Terms,
    class: u32,
    function: Option<&'a Node>,
    found: &mut Vec<FieldDefinition<'a>>,
) -> Result<(), AllocError>
    ensures { OnOk result (definition_views found.new.items ≡ definition_views found.old.items ++ spec.function_definitions terms.now.first terms.now.options.now terms.now.ledger.now class (node_part function.entry)) }
{
    match function {
        Some(function) => add_definitions_of(terms, class, function.parts(), found),
        None => Ok(()),
    }
}

// ---- the definitions of the instances of a class

/// Adds the definitions in the functions that stand for `super(..)` of this class. Fails on allocation failure alone.
#[tactic(auto, using(crate::proofs::FoundDefinitions::super_more))]
fn add_super_definitions<'a>(
    terms: &Terms,
    class: u32,
    nodes: &[&'a Node],
    found: &mut Vec<FieldDefinition<'a>>,
) -> Result<(), AllocError>
    ensures { OnOk result (definition_views found.new.items ≡ definition_views found.old.items ++ spec.super_definitions terms.now.first terms.now.options.now terms.now.ledger.now class (seen nodes.now)) }
{
    for node in nodes {
        add_if_super(terms, class, node, found)?;
    }
    Ok(())
}

#[tactic(auto, using(crate::proofs::FoundDefinitions::super_node))]
fn add_if_super<'a>(
    terms: &Terms,
    class: u32,
    node: &'a Node,
    found: &mut Vec<FieldDefinition<'a>>,
) -> Result<(), AllocError>
    ensures { OnOk result (definition_views found.new.items ≡ definition_views found.old.items ++ of_super terms.now.first terms.now.options.now terms.now.ledger.now class node.now) }
{
    if is_given_super(terms, class, node) {
        add_function_definitions(terms, class, given_part(node), found)
    } else {
        Ok(())
    }
}

/// Adds the definitions in the constructors of this class. Fails on allocation failure alone.
#[tactic(auto, using(crate::proofs::FoundDefinitions::constructor_more))]
fn add_constructor_definitions<'a>(
    terms: &Terms,
    class: u32,
    nodes: &[&'a Node],
    found: &mut Vec<FieldDefinition<'a>>,
) -> Result<(), AllocError>
    ensures { OnOk result (definition_views found.new.items ≡ definition_views found.old.items ++ spec.constructor_definitions terms.now.first terms.now.options.now terms.now.ledger.now class (seen nodes.now)) }
{
    for node in nodes {
        add_if_constructed(terms, class, node, found)?;
    }
    Ok(())
}

#[tactic(auto, using(crate::proofs::FoundDefinitions::constructed_here, crate::proofs::FoundDefinitions::constructed_elsewhere))]
fn add_if_constructed<'a>(
    terms: &Terms,
    class: u32,
    node: &'a Node,
    found: &mut Vec<FieldDefinition<'a>>,
) -> Result<(), AllocError>
    ensures { OnOk result (definition_views found.new.items ≡ definition_views found.old.items ++ constructed terms.now.first terms.now.options.now terms.now.ledger.now class node.now) }
{
    match body_if(class, node) {
        Some(body) => {
            let constructor = constructor_in(body);
            add_function_definitions(terms, class, constructor, found)
        }
        None => Ok(()),
    }
}

/// The function of the constructor in the body of a class.
fn constructor_in(body: &Node) -> Option<&Node>
    ensures { node_part result ≡ constructor_in (child body.now) }
{
    constructor_among(elements_of(body))
}

/// The definitions on the instances of this class: those in what these nodes give to names that stand for `super(..)` of it, and
/// those in the constructors of the class among the others. Fails on allocation failure alone.
pub fn definitions_on_this<'a>(
    alloc: Global,
    terms: &Terms,
    class: u32,
    supers: &[&'a Node],
    classes: &[&'a Node],
) -> Result<Vec<FieldDefinition<'a>>, AllocError>
    ensures { IfOk result (λ r. definition_views r.items ≡ spec.on_this terms.now.first (spec.super_definitions terms.now.first terms.now.options.now terms.now.ledger.now class (seen supers.now) ++ spec.constructor_definitions terms.now.first terms.now.options.now terms.now.ledger.now class (seen classes.now))) }
{
    let mut found = Vec::new(alloc);
    add_super_definitions(terms, class, supers, &mut found)?;
    add_constructor_definitions(terms, class, classes, &mut found)?;
    on_this(alloc, terms.first, found.as_slice())
}

/// Those of these definitions that are on a new `this`. Fails on allocation failure alone.
fn on_this<'a>(
    alloc: Global,
    first: u32,
    definitions: &[FieldDefinition<'a>],
) -> Result<Vec<FieldDefinition<'a>>, AllocError>
    ensures { IfOk result (λ r. definition_views r.items ≡ spec.on_this first (definition_views definitions.now)) }
{
    let mut found = Vec::new(alloc);
    for definition in definitions {
        add_if_on_this(first, *definition, &mut found)?;
    }
    Ok(found)
}

fn add_if_on_this<'a>(
    first: u32,
    definition: FieldDefinition<'a>,
    found: &mut Vec<FieldDefinition<'a>>,
) -> Result<(), AllocError>
    ensures { OnOk result (definition_views found.new.items ≡ definition_views found.old.items ++ spec.on_this first (definition_view definition.entry ∷ [])) }
{
    if is_new_this(first, definition.object) {
        found.push(definition)?;
    }
    Ok(())
}

#[tactic(auto, using(crate::proofs::FoundDefinitions::no_this, crate::proofs::FoundDefinitions::this_node))]
fn is_new_this(first: u32, object: Option<&Node>) -> bool
    ensures { result ≡ spec.is_new_this first (node_part object.entry) }
{
    let Some(object) = object else { return false };
    match object.kind() {
        Kind::ThisExpression => is_new(first, object.node_id().0),
        _ => false,
    }
}
