// The faults of names of a whole program.

ghost use Rattle.std.specs.Prelude.{◌≡◌, ◌++◌, ◌∷◌, [], IfOk, OnOk, cond};
ghost use Rattle.es_base.specs.Preorder.{preorder};
ghost use Rattle.es_base.specs.Tree.{child};
ghost use Rattle.es_node.specs.View.{kind_of, number_in, parts_in, parts_of};
ghost use Rattle.es_steps.specs.Parts.{at};
ghost use Rattle.es_steps.specs.References.{numbers_of, resolve};
ghost use Rattle.es_validity.specs.Facts as facts;
ghost use Rattle.es_validity.specs.Facts.{lexical_identifiers, declared_by, branch_names, function_name, repeats_of_all, eval_calls_of_all, repeated_names, eval_calls};
ghost use Rattle.es_binding_faults.specs.Evals.{spells_eval};
ghost use Rattle.es_binding_faults.specs.Named.{named};
ghost use Rattle.es_binding_faults.specs.Repeats.{numbers};
ghost use Rattle.es_binding_faults.specs.Seen.{seen};
ghost use Rattle.es_binding_faults.specs.WholeProgram.{lexical_place, is_function_declaration, is_if, branches_at};

use crate::bound::Declared;
use crate::evals::{free_evals, is_eval_call, is_eval_reference};
use crate::hoisted::{add_bound_at, is_var, part_at};
use crate::numbers::Numbers;
use crate::preorder::preorder;
use crate::repeats::{add_repeats_in, push_if};
use es_base::ids::NodeId;
use es_base::kind::Kind;
use es_node::node::{Node, Part};
use std::alloc::{AllocError, Global};

/// What is known of the names of a program, as numbers of nodes.
#[derive(Drop)]
pub struct NameFaults {
    /// Identifiers that declare a name again, where one of both is by `let`, `const`, `class` or `import`.
    pub repeated_names: Vec<NodeId>,
    /// Calls of the free name `eval`.
    pub eval_calls: Vec<NodeId>,
}

// ---- the identifiers that `let`, `const`, `class` and `import` declare

/// The place of what a node declares so.
fn lexical_place(node: &Node) -> Option<usize>
    ensures { result ≡ lexical_place (kind_of node.now) (parts_in node.now) }
{
    match node.kind() {
        Kind::VariableDeclaration => { if is_var(node.parts()) { None } else { Some(1) } }
        Kind::ClassDeclaration | Kind::ImportDeclaration => Some(0),
        _ => None,
    }
}

/// Adds what a node declares so. Fails on allocation failure alone.
fn add_lexical<'a>(node: &'a Node, names: &mut Vec<Declared<'a>>) -> Result<(), AllocError>
    ensures { OnOk result (numbers_of (named names.new.items) ≡ numbers_of (named names.old.items) ++ declared_by (kind_of node.now) (parts_in node.now)) }
{
    match lexical_place(node) {
        Some(i) => add_bound_at(node.parts(), i, names),
        None => Ok(()),
    }
}

/// The numbers of declarations. Fails on allocation failure alone.
fn nodes_of(alloc: Global, names: &[Declared]) -> Result<Vec<NodeId>, AllocError>
    ensures { IfOk result (λ r. numbers r.items ≡ numbers_of (named names.now)) }
{
    let mut nodes = Vec::new(alloc);
    for declared in names {
        nodes.push(declared.node)?;
    }
    Ok(nodes)
}

/// The numbers of the identifiers that these nodes declare so. Fails on allocation failure alone.
fn lexical_identifiers(alloc: Global, nodes: &[&Node]) -> Result<Vec<NodeId>, AllocError>
    ensures { IfOk result (λ r. numbers r.items ≡ lexical_identifiers (seen nodes.now)) }
{
    let mut names = Vec::new(alloc);
    for node in nodes {
        add_lexical(node, &mut names)?;
    }
    nodes_of(alloc, names.as_slice())
}

// ---- functions that are branches of an `if`

fn is_function_declaration(node: &Node) -> bool
    ensures { result ≡ is_function_declaration (kind_of node.now) }
{
    matches!(node.kind(), Kind::FunctionDeclaration)
}

fn is_if(node: &Node) -> bool
    ensures { result ≡ is_if (kind_of node.now) }
{
    matches!(node.kind(), Kind::IfStatement)
}

/// Adds the name of the function that stands at this place, if one does. Fails on allocation failure alone.
fn add_function_name<'a>(
    parts: &'a [Part],
    i: usize,
    names: &mut Vec<Declared<'a>>,
) -> Result<(), AllocError>
    ensures { OnOk result (numbers_of (named names.new.items) ≡ numbers_of (named names.old.items) ++ function_name (at i (parts_of parts.now))) }
{
    match part_at(parts, i) {
        Some(Part::Child(node)) => add_name_of_function(node, names),
        _ => Ok(()),
    }
}

fn add_name_of_function<'a>(node: &'a Node, names: &mut Vec<Declared<'a>>) -> Result<(), AllocError>
    ensures { OnOk result (numbers_of (named names.new.items) ≡ numbers_of (named names.old.items) ++ function_name (child node.now)) }
{
    if is_function_declaration(node) {
        add_bound_at(node.parts(), 0, names)
    } else {
        Ok(())
    }
}

/// Adds the names of functions that are branches of a node. Fails on allocation failure alone.
fn add_branches<'a>(node: &'a Node, names: &mut Vec<Declared<'a>>) -> Result<(), AllocError>
    ensures { OnOk result (numbers_of (named names.new.items) ≡ numbers_of (named names.old.items) ++ branches_at node.now) }
{
    if is_if(node) {
        add_function_name(node.parts(), 1, names)?;
        add_function_name(node.parts(), 2, names)
    } else {
        Ok(())
    }
}

/// The numbers of the names of functions that are branches of these nodes. Fails on allocation failure alone.
fn branch_names(alloc: Global, nodes: &[&Node]) -> Result<Vec<NodeId>, AllocError>
    ensures { IfOk result (λ r. numbers r.items ≡ branch_names (seen nodes.now)) }
{
    let mut names = Vec::new(alloc);
    for node in nodes {
        add_branches(node, &mut names)?;
    }
    nodes_of(alloc, names.as_slice())
}

// ---- all of them

/// The names that are repeated in the scopes of these nodes. Fails on allocation failure alone.
fn repeats(
    alloc: Global,
    lexical: &Numbers,
    branches: &Numbers,
    nodes: &[&Node],
) -> Result<Vec<NodeId>, AllocError>
    ensures { IfOk result (λ r. numbers r.items ≡ repeats_of_all lexical.now branches.now (seen nodes.now)) }
{
    let mut found = Vec::new(alloc);
    for node in nodes {
        add_repeats_in(alloc, lexical, branches, node, &mut found)?;
    }
    Ok(found)
}

/// The identifiers that declare a name again in a program of these nodes. Fails on allocation failure alone.
fn repeated_names(alloc: Global, nodes: &[&Node]) -> Result<Vec<NodeId>, AllocError>
    ensures { IfOk result (λ r. numbers r.items ≡ repeats_of_all (lexical_identifiers (seen nodes.now)) (branch_names (seen nodes.now)) (seen nodes.now)) }
{
    let lexical = lexical_identifiers(alloc, nodes)?;
    let lexical = Numbers::of(alloc, lexical.as_slice())?;
    let branches = branch_names(alloc, nodes)?;
    let branches = Numbers::of(alloc, branches.as_slice())?;
    repeats(alloc, &lexical, &branches, nodes)
}

/// The calls of these references among these nodes. Fails on allocation failure alone.
fn calls_of(alloc: Global, evals: &Numbers, nodes: &[&Node]) -> Result<Vec<NodeId>, AllocError>
    ensures { IfOk result (λ r. numbers r.items ≡ eval_calls_of_all evals.now (seen nodes.now)) }
{
    let mut found = Vec::new(alloc);
    for node in nodes {
        push_if(is_eval_call(evals, node), node.node_id(), &mut found)?;
    }
    Ok(found)
}

/// Whether one of these nodes is a reference that is spelled `eval`.
fn spells_eval(nodes: &[&Node]) -> bool
    ensures { result ≡ spells_eval (seen nodes.now) }
{
    for node in nodes {
        if is_eval_reference(node) {
            return true;
        }
    }
    false
}

/// The calls of the free name `eval` in a program, which has these nodes. Fails on allocation failure alone.
fn eval_calls(alloc: Global, program: &Node, nodes: &[&Node]) -> Result<Vec<NodeId>, AllocError>
    requires { seen nodes.now ≡ preorder program.now }
    ensures { IfOk result (λ r. numbers r.items ≡ eval_calls_of_all (facts.free_evals (resolve program.now)) (seen nodes.now)) }
{
    if !spells_eval(nodes) {
        return Ok(Vec::new(alloc));
    }
    let evals = free_evals(alloc, program)?;
    let evals = Numbers::of(alloc, evals.as_slice())?;
    calls_of(alloc, &evals, nodes)
}

/// What is known of the names of a program. Takes time in proportion to the program, but for a `var` in blocks of blocks. Fails
/// on allocation failure alone.
pub fn name_faults(alloc: Global, program: &Node) -> Result<NameFaults, AllocError>
    ensures { IfOk result (λ r. (numbers r.repeated_names.items ≡ repeated_names program.now) × (numbers r.eval_calls.items ≡ eval_calls program.now)) }
{
    let nodes = preorder(alloc, program)?;
    Ok(NameFaults {
        repeated_names: repeated_names(alloc, nodes.as_slice())?,
        eval_calls: eval_calls(alloc, program, nodes.as_slice())?,
    })
}
