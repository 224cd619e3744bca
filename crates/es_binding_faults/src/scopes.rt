// The names of the scope of a node.

ghost use Rattle.std.specs.Prelude.{◌≡◌, ◌++◌, ◌+◌, OnOk, [], cond};
ghost use Rattle.es_base.specs.Tree.{child, nullable, trees, nullable_trees};
ghost use Rattle.es_node.specs.View.{part_of, parts_of};
ghost use Rattle.es_steps.specs.Parts.{at, items, block_items};
ghost use Rattle.es_steps.specs.Scopes as spec;
ghost use Rattle.es_steps.specs.Scopes.{no_class, bound_part, body_names, is_body_part, scope_names, seen};
ghost use Rattle.es_binding_faults.specs.Hoisted.{hoisted_part, hoisted_items};
ghost use Rattle.es_binding_faults.specs.Named.{named, plain};
ghost use Rattle.es_binding_faults.specs.ScopeForms.{scope_of, body_item};

use crate::bound::Declared;
use crate::hoisted::{Hoist, add_bound_at, add_hoisted, add_hoisted_part, part_at};
use es_base::kind::Kind;
use es_node::node::{Node, Part};
use std::alloc::AllocError;

/// What kind of scope a node has.
#[derive(Debug, Clone, Copy, PartialEq, Eq)]
pub enum ScopeForm {
    Program,
    Function,
    /// That of a function expression, whose own name stands behind all others.
    OwnFunction,
    Arrow,
    OwnClass,
    Block,
    StaticBlock,
    Loop,
    Switch,
    Catch,
    None,
}

/// What kind of scope nodes of this kind have.
pub fn scope_form(kind: Kind) -> ScopeForm
    ensures { scope_of result ≡ spec.scope_form kind }
{
    match kind {
        Kind::Program => ScopeForm::Program,
        Kind::FunctionDeclaration => ScopeForm::Function,
        Kind::FunctionExpression => ScopeForm::OwnFunction,
        Kind::ArrowFunctionExpression => ScopeForm::Arrow,
        Kind::ClassExpression => ScopeForm::OwnClass,
        Kind::BlockStatement => ScopeForm::Block,
        Kind::StaticBlock => ScopeForm::StaticBlock,
        Kind::ForStatement | Kind::ForInStatement | Kind::ForOfStatement => ScopeForm::Loop,
        Kind::SwitchStatement => ScopeForm::Switch,
        Kind::CatchClause => ScopeForm::Catch,
        _ => ScopeForm::None,
    }
}

// ---- the names of a body

/// Adds all names of a statement of a body. Fails on allocation failure alone.
fn add_body_item<'a>(node: &'a Node, names: &mut Vec<Declared<'a>>) -> Result<(), AllocError>
    ensures { OnOk result (named names.new.items ≡ named names.old.items ++ body_item (child node.now)) }
{
    add_hoisted(Hoist::Lexical, node, names)?;
    add_hoisted(Hoist::Var, node, names)
}

fn add_body_hole<'a>(
    node: &'a Option<Node>,
    names: &mut Vec<Declared<'a>>,
) -> Result<(), AllocError>
    ensures { OnOk result (named names.new.items ≡ named names.old.items ++ body_item (nullable node.now)) }
{
    match node {
        Some(node) => add_body_item(node, names),
        None => Ok(()),
    }
}

fn add_body_list<'a>(nodes: &'a [Node], names: &mut Vec<Declared<'a>>) -> Result<(), AllocError>
    ensures { OnOk result (named names.new.items ≡ named names.old.items ++ plain (body_names (trees nodes.now))) }
{
    for node in nodes {
        add_body_item(node, names)?;
    }
    Ok(())
}

fn add_body_list_with_holes<'a>(
    nodes: &'a [Option<Node>],
    names: &mut Vec<Declared<'a>>,
) -> Result<(), AllocError>
    ensures { OnOk result (named names.new.items ≡ named names.old.items ++ plain (body_names (nullable_trees nodes.now))) }
{
    for node in nodes {
        add_body_hole(node, names)?;
    }
    Ok(())
}

/// Adds all names of the body that stands at this place. Fails on allocation failure alone.
pub fn add_body_at<'a>(
    parts: &'a [Part],
    i: usize,
    names: &mut Vec<Declared<'a>>,
) -> Result<(), AllocError>
    ensures { OnOk result (named names.new.items ≡ named names.old.items ++ plain (body_names (items (at i (parts_of parts.now))))) }
{
    match part_at(parts, i) {
        Some(Part::List(nodes)) => add_body_list(nodes.as_slice(), names),
        Some(Part::Holes(nodes)) => add_body_list_with_holes(nodes.as_slice(), names),
        _ => Ok(()),
    }
}

/// Adds all names of the block that stands at this place. Fails on allocation failure alone.
fn add_block_body_at<'a>(
    parts: &'a [Part],
    i: usize,
    names: &mut Vec<Declared<'a>>,
) -> Result<(), AllocError>
    ensures { OnOk result (named names.new.items ≡ named names.old.items ++ plain (body_names (block_items (at i (parts_of parts.now))))) }
{
    match part_at(parts, i) {
        Some(Part::Child(node)) => add_body_at(node.parts(), 0, names),
        _ => Ok(()),
    }
}

/// Adds the names of the statements of a list that stands at this place. Fails on allocation failure alone.
fn add_hoisted_items_at<'a>(
    hoist: Hoist,
    parts: &'a [Part],
    i: usize,
    names: &mut Vec<Declared<'a>>,
) -> Result<(), AllocError>
    ensures { OnOk result (named names.new.items ≡ named names.old.items ++ hoisted_items hoist (items (at i (parts_of parts.now)))) }
{
    match part_at(parts, i) {
        Some(part) => match part {
            Part::List(_) | Part::Holes(_) => add_hoisted_part(hoist, part, names),
            _ => Ok(()),
        },
        None => Ok(()),
    }
}

/// Adds the names of the statement that stands at this place. Fails on allocation failure alone.
pub fn add_hoisted_at<'a>(
    hoist: Hoist,
    parts: &'a [Part],
    i: usize,
    names: &mut Vec<Declared<'a>>,
) -> Result<(), AllocError>
    ensures { OnOk result (named names.new.items ≡ named names.old.items ++ hoisted_part hoist (at i (parts_of parts.now))) }
{
    match part_at(parts, i) {
        Some(part) => add_hoisted_part(hoist, part, names),
        None => Ok(()),
    }
}

/// Adds the parameters at the one place and the names of the body at the other. Fails on allocation failure alone.
fn add_function<'a>(
    parts: &'a [Part],
    parameters: usize,
    body: usize,
    names: &mut Vec<Declared<'a>>,
) -> Result<(), AllocError>
    ensures { OnOk result (named names.new.items ≡ named names.old.items ++ (bound_part no_class (at parameters (parts_of parts.now)) ++ plain (body_names (block_items (at body (parts_of parts.now)))))) }
{
    add_bound_at(parts, parameters, names)?;
    add_block_body_at(parts, body, names)
}

/// Adds the names that a scope of this form holds. Fails on allocation failure alone.
pub fn add_scope_names<'a>(
    form: ScopeForm,
    parts: &'a [Part],
    names: &mut Vec<Declared<'a>>,
) -> Result<(), AllocError>
    ensures { OnOk result (named names.new.items ≡ named names.old.items ++ plain (scope_names (scope_of form) 0 (parts_of parts.now))) }
{
    match form {
        ScopeForm::Program => add_body_at(parts, 1, names),
        ScopeForm::Function => add_function(parts, 1, 2, names),
        ScopeForm::OwnFunction => add_function(parts, 1, 2, names),
        ScopeForm::Arrow => add_function(parts, 0, 1, names),
        ScopeForm::OwnClass => add_bound_at(parts, 0, names),
        ScopeForm::Block => add_hoisted_items_at(Hoist::Lexical, parts, 0, names),
        ScopeForm::StaticBlock => add_body_at(parts, 0, names),
        ScopeForm::Loop => add_hoisted_at(Hoist::Lexical, parts, 0, names),
        ScopeForm::Switch => add_hoisted_at(Hoist::Lexical, parts, 1, names),
        ScopeForm::Catch => add_bound_at(parts, 0, names),
        ScopeForm::None => Ok(()),
    }
}

// ---- the names that a part sees

/// Whether the i-th part is the body of a function.
pub fn is_body_part(kind: Kind, i: usize) -> bool
    ensures { result ≡ is_body_part kind i }
{
    match kind {
        Kind::FunctionDeclaration | Kind::FunctionExpression => i == 2,
        Kind::ArrowFunctionExpression => i == 1,
        _ => false,
    }
}

/// What kind of scope a node has, which is the body of a function or not: then a block has none of its own.
pub fn scope_in(kind: Kind, is_body: bool) -> ScopeForm
    ensures { scope_of result ≡ spec.scope_of kind is_body }
{
    match kind {
        Kind::BlockStatement => {
            if is_body {
                ScopeForm::None
            } else {
                ScopeForm::Block
            }
        }
        _ => scope_form(kind),
    }
}

/// Adds what the i-th part of a function sees of its parameters and the names of its body. Fails on allocation failure alone.
fn add_function_seen<'a>(
    parts: &'a [Part],
    i: usize,
    names: &mut Vec<Declared<'a>>,
) -> Result<(), AllocError>
    ensures { OnOk result (named names.new.items ≡ named names.old.items ++ plain (seen spec.function_scope 0 (parts_of parts.now) i)) }
{
    if i == 1 {
        add_bound_at(parts, 1, names)
    } else {
        add_function(parts, 1, 2, names)
    }
}

/// Adds what the i-th part of a function expression sees of its names. Fails on allocation failure alone.
fn add_own_function_seen<'a>(
    parts: &'a [Part],
    i: usize,
    names: &mut Vec<Declared<'a>>,
) -> Result<(), AllocError>
    ensures { OnOk result (named names.new.items ≡ named names.old.items ++ plain (seen spec.own_function_scope 0 (parts_of parts.now) i)) }
{
    add_function_seen(parts, i, names)?;
    add_bound_at(parts, 0, names)
}

/// Adds what the i-th part of an arrow sees of its names. Fails on allocation failure alone.
fn add_arrow_seen<'a>(
    parts: &'a [Part],
    i: usize,
    names: &mut Vec<Declared<'a>>,
) -> Result<(), AllocError>
    ensures { OnOk result (named names.new.items ≡ named names.old.items ++ plain (seen spec.arrow_scope 0 (parts_of parts.now) i)) }
{
    if i == 0 {
        add_bound_at(parts, 0, names)
    } else {
        add_function(parts, 0, 1, names)
    }
}

/// Adds what the i-th part sees of the names of a scope of this form. Fails on allocation failure alone.
pub fn add_seen<'a>(
    form: ScopeForm,
    parts: &'a [Part],
    i: usize,
    names: &mut Vec<Declared<'a>>,
) -> Result<(), AllocError>
    ensures { OnOk result (named names.new.items ≡ named names.old.items ++ plain (seen (scope_of form) 0 (parts_of parts.now) i)) }
{
    match form {
        ScopeForm::Function => add_function_seen(parts, i, names),
        ScopeForm::OwnFunction => add_own_function_seen(parts, i, names),
        ScopeForm::Arrow => add_arrow_seen(parts, i, names),
        ScopeForm::Switch if i == 0 => Ok(()),
        _ => add_scope_names(form, parts, names),
    }
}
