// The names of the scope of a node, and which of them a part sees.

ghost use Rattle.std.specs.Prelude.{◌≡◌, ◌++◌, [], IfOk, OnOk, cond, nat_eq};
ghost use Rattle.es_base.specs.Tree.{child, nullable, nullable_trees, trees};
ghost use Rattle.es_binding_faults.specs.ScopeForms.{scope_of};
ghost use Rattle.es_node.specs.View.{kind_of, number_in, parts_in, parts_of};
ghost use Rattle.es_steps.specs.Context.{inner_name};
ghost use Rattle.es_steps.specs.Parts.{at, block_items, items};
ghost use Rattle.es_steps.specs.Scopes as spec;
ghost use Rattle.es_steps.specs.Scopes.{body_names, bound_part, lexical_items, lexical_part, names_at, no_class, scope_names, seen, var_part};
ghost use Rattle.es_seen_names.specs.Declarations.{declarations};

use crate::declaration::{ClassName, Declaration, add_bound_at, add_var};
use crate::lexical::{add_lexical, add_lexical_at, add_lexical_part};
use es_base::kind::Kind;
use es_binding_faults::hoisted::part_at;
use es_binding_faults::scopes::{ScopeForm, scope_in};
use es_node::node::{Node, Part};
use std::alloc::{AllocError, Global};

// ---- the names of a body

/// Adds all names of a statement of a body. Fails on allocation failure alone.
fn add_body_item<'a>(
    alloc: Global,
    node: &'a Node,
    names: &mut Vec<Declaration<'a>>,
) -> Result<(), AllocError>
    ensures { OnOk result (declarations names.new.items ≡ declarations names.old.items ++ (lexical_part (child node.now) ++ var_part (child node.now))) }
{
    add_lexical(alloc, node, names)?;
    add_var(alloc, node, names)
}

fn add_body_hole<'a>(
    alloc: Global,
    node: &'a Option<Node>,
    names: &mut Vec<Declaration<'a>>,
) -> Result<(), AllocError>
    ensures { OnOk result (declarations names.new.items ≡ declarations names.old.items ++ (lexical_part (nullable node.now) ++ var_part (nullable node.now))) }
{
    match node {
        Some(node) => add_body_item(alloc, node, names),
        None => Ok(()),
    }
}

fn add_body_list<'a>(
    alloc: Global,
    nodes: &'a [Node],
    names: &mut Vec<Declaration<'a>>,
) -> Result<(), AllocError>
    ensures { OnOk result (declarations names.new.items ≡ declarations names.old.items ++ body_names (trees nodes.now)) }
{
    for node in nodes {
        add_body_item(alloc, node, names)?;
    }
    Ok(())
}

fn add_body_list_with_holes<'a>(
    alloc: Global,
    nodes: &'a [Option<Node>],
    names: &mut Vec<Declaration<'a>>,
) -> Result<(), AllocError>
    ensures { OnOk result (declarations names.new.items ≡ declarations names.old.items ++ body_names (nullable_trees nodes.now)) }
{
    for node in nodes {
        add_body_hole(alloc, node, names)?;
    }
    Ok(())
}

/// Adds all names of the body that stands at this place. Fails on allocation failure alone.
pub fn add_body_at<'a>(
    alloc: Global,
    parts: &'a [Part],
    i: usize,
    names: &mut Vec<Declaration<'a>>,
) -> Result<(), AllocError>
    ensures { OnOk result (declarations names.new.items ≡ declarations names.old.items ++ body_names (items (at i (parts_of parts.now)))) }
{
    match part_at(parts, i) {
        Some(Part::List(nodes)) => add_body_list(alloc, nodes.as_slice(), names),
        Some(Part::Holes(nodes)) => add_body_list_with_holes(alloc, nodes.as_slice(), names),
        _ => Ok(()),
    }
}

/// Adds all names of the block that stands at this place. Fails on allocation failure alone.
fn add_block_body_at<'a>(
    alloc: Global,
    parts: &'a [Part],
    i: usize,
    names: &mut Vec<Declaration<'a>>,
) -> Result<(), AllocError>
    ensures { OnOk result (declarations names.new.items ≡ declarations names.old.items ++ body_names (block_items (at i (parts_of parts.now)))) }
{
    match part_at(parts, i) {
        Some(Part::Child(node)) => add_body_at(alloc, node.parts(), 0, names),
        _ => Ok(()),
    }
}

/// Adds the names of the statements of a list that stands at this place. Fails on allocation failure alone.
fn add_lexical_items_at<'a>(
    alloc: Global,
    parts: &'a [Part],
    i: usize,
    names: &mut Vec<Declaration<'a>>,
) -> Result<(), AllocError>
    ensures { OnOk result (declarations names.new.items ≡ declarations names.old.items ++ lexical_items (items (at i (parts_of parts.now)))) }
{
    match part_at(parts, i) {
        Some(part) => match part {
            Part::List(_) | Part::Holes(_) => add_lexical_part(alloc, part, names),
            _ => Ok(()),
        },
        None => Ok(()),
    }
}

/// Adds the parameters at the one place and the names of the body at the other. Fails on allocation failure alone.
fn add_function<'a>(
    alloc: Global,
    parts: &'a [Part],
    parameters: usize,
    body: usize,
    names: &mut Vec<Declaration<'a>>,
) -> Result<(), AllocError>
    ensures { OnOk result (declarations names.new.items ≡ declarations names.old.items ++ (bound_part no_class (at parameters (parts_of parts.now)) ++ body_names (block_items (at body (parts_of parts.now))))) }
{
    add_bound_at(alloc, ClassName::NoClass, parts, parameters, names)?;
    add_block_body_at(alloc, parts, body, names)
}

/// Adds the names that the scope of this form of a node holds. Fails on allocation failure alone.
pub fn add_scope_names<'a>(
    alloc: Global,
    form: ScopeForm,
    node: u32,
    parts: &'a [Part],
    names: &mut Vec<Declaration<'a>>,
) -> Result<(), AllocError>
    ensures { OnOk result (declarations names.new.items ≡ declarations names.old.items ++ scope_names (scope_of form) node (parts_of parts.now)) }
{
    match form {
        ScopeForm::Program => add_body_at(alloc, parts, 1, names),
        ScopeForm::Function => add_function(alloc, parts, 1, 2, names),
        ScopeForm::OwnFunction => add_function(alloc, parts, 1, 2, names),
        ScopeForm::Arrow => add_function(alloc, parts, 0, 1, names),
        ScopeForm::OwnClass => add_bound_at(alloc, ClassName::OwnName(node), parts, 0, names),
        ScopeForm::Block => add_lexical_items_at(alloc, parts, 0, names),
        ScopeForm::StaticBlock => add_body_at(alloc, parts, 0, names),
        ScopeForm::Loop => add_lexical_at(alloc, parts, 0, names),
        ScopeForm::Switch => add_lexical_at(alloc, parts, 1, names),
        ScopeForm::Catch => add_bound_at(alloc, ClassName::NoClass, parts, 0, names),
        ScopeForm::None => Ok(()),
    }
}

// ---- the names that a part sees

/// Adds what the i-th part of a function sees of its parameters and the names of its body. Fails on allocation failure
/// alone.
fn add_function_seen<'a>(
    alloc: Global,
    node: u32,
    parts: &'a [Part],
    i: usize,
    names: &mut Vec<Declaration<'a>>,
) -> Result<(), AllocError>
    ensures { OnOk result (declarations names.new.items ≡ declarations names.old.items ++ seen spec.function_scope node (parts_of parts.now) i) }
{
    if i == 1 {
        add_bound_at(alloc, ClassName::NoClass, parts, 1, names)
    } else {
        add_function(alloc, parts, 1, 2, names)
    }
}

/// Adds what the i-th part of a function expression sees of its names. Fails on allocation failure alone.
fn add_own_function_seen<'a>(
    alloc: Global,
    node: u32,
    parts: &'a [Part],
    i: usize,
    names: &mut Vec<Declaration<'a>>,
) -> Result<(), AllocError>
    ensures { OnOk result (declarations names.new.items ≡ declarations names.old.items ++ seen spec.own_function_scope node (parts_of parts.now) i) }
{
    add_function_seen(alloc, node, parts, i, names)?;
    add_bound_at(alloc, ClassName::NoClass, parts, 0, names)
}

/// Adds what the i-th part of an arrow sees of its names. Fails on allocation failure alone.
fn add_arrow_seen<'a>(
    alloc: Global,
    node: u32,
    parts: &'a [Part],
    i: usize,
    names: &mut Vec<Declaration<'a>>,
) -> Result<(), AllocError>
    ensures { OnOk result (declarations names.new.items ≡ declarations names.old.items ++ seen spec.arrow_scope node (parts_of parts.now) i) }
{
    if i == 0 {
        add_bound_at(alloc, ClassName::NoClass, parts, 0, names)
    } else {
        add_function(alloc, parts, 0, 1, names)
    }
}

/// Adds what the i-th part sees of the names of a scope of this form. Fails on allocation failure alone.
fn add_seen<'a>(
    alloc: Global,
    form: ScopeForm,
    node: u32,
    parts: &'a [Part],
    i: usize,
    names: &mut Vec<Declaration<'a>>,
) -> Result<(), AllocError>
    ensures { OnOk result (declarations names.new.items ≡ declarations names.old.items ++ seen (scope_of form) node (parts_of parts.now) i) }
{
    match form {
        ScopeForm::Function => add_function_seen(alloc, node, parts, i, names),
        ScopeForm::OwnFunction => add_own_function_seen(alloc, node, parts, i, names),
        ScopeForm::Arrow => add_arrow_seen(alloc, node, parts, i, names),
        ScopeForm::Switch if i == 0 => Ok(()),
        _ => add_scope_names(alloc, form, node, parts, names),
    }
}

/// Adds the name of a class declaration, as it is seen in its i-th part. Fails on allocation failure alone.
fn add_inner_name<'a>(
    alloc: Global,
    kind: Kind,
    node: u32,
    parts: &'a [Part],
    i: usize,
    names: &mut Vec<Declaration<'a>>,
) -> Result<(), AllocError>
    ensures { OnOk result (declarations names.new.items ≡ declarations names.old.items ++ inner_name kind node (parts_of parts.now) i) }
{
    match kind {
        // class A { x = A; }
        Kind::ClassDeclaration if i != 0 => {
            add_bound_at(alloc, ClassName::OwnName(node), parts, 0, names)
        }
        _ => Ok(()),
    }
}

/// The names that a node, which is the body of a function or not, lets its i-th part see beside those around it.
/// Fails on allocation failure alone.
pub fn names_seen<'a>(
    alloc: Global,
    is_body: bool,
    node: &'a Node,
    i: usize,
) -> Result<Vec<Declaration<'a>>, AllocError>
    ensures { IfOk result (λ r. declarations r.items ≡ inner_name (kind_of node.now) (number_in node.now) (parts_in node.now) i ++ names_at is_body (kind_of node.now) (number_in node.now) (parts_in node.now) i) }
{
    let kind = node.kind();
    let number = node.node_id().0;
    let mut names = Vec::new(alloc);
    add_inner_name(alloc, kind, number, node.parts(), i, &mut names)?;
    add_seen(
        alloc,
        scope_in(kind, is_body),
        number,
        node.parts(),
        i,
        &mut names,
    )?;
    Ok(names)
}
