// What is evaluated in front of the default export of a module.

ghost use Rattle.std.specs.Prelude.{◌≡◌, ◌++◌, IfOk, OnOk};
ghost use Rattle.std.specs.Option.{option_to_list};
ghost use Rattle.es_base.specs.Tree.{child, trees};
ghost use Rattle.es_binding_faults.specs.Seen.{seen};
ghost use Rattle.es_lowered.specs.DefaultExport as spec;
ghost use Rattle.es_steps.specs.KeptNodes as kept;
ghost use Rattle.es_steps.specs.Meaning.{body_of};
ghost use Rattle.es_owed_lets.specs.Exported.{AreStatements, is_declaration, nodes_up_to, present, running_nodes, running_nodes_up_to};

use crate::numbers::{add_nodes, are_new_or_among, set_of};
use es_base::kind::Kind;
use es_binding_faults::preorder::preorder;
use es_node::node::Node;
use es_seen_names::parts::{Items, items_at};
use es_tree::module::ExportDefaultDeclarationRef;
use std::alloc::{AllocError, Global};

/// Whether what runs up to the default export of the lowered program, and with it, is new or stood up to that of the source; if
/// it has none, whether the source had none or declared what it exports. Fails on allocation failure alone.
#[tactic(auto, using(crate::proofs::DefaultExports::stays_exported, crate::proofs::DefaultExports::stays_declared))]
pub fn default_stays(
    alloc: Global,
    first: u32,
    source: &Node,
    lowered: &Node,
) -> Result<bool, AllocError>
    ensures { IfOk result (λ holds. holds ≡ spec.default_stays first source.now lowered.now) }
{
    let before = statements_of(alloc, source)?;
    let after = statements_of(alloc, lowered)?;
    if has_default(after.as_slice()) {
        run_no_earlier(alloc, first, before.as_slice(), after.as_slice())
    } else {
        Ok(!has_default(before.as_slice()) || declares_default(before.as_slice()))
    }
}

/// Whether what runs up to the default export among these statements is new or stood up to that of the source. Fails on
/// allocation failure alone.
#[tactic(auto, using(crate::proofs::DefaultExports::numbers_up_to, crate::proofs::DefaultExports::numbers_running, crate::proofs::NodeNumbers::same_new))]
fn run_no_earlier(
    alloc: Global,
    first: u32,
    source: &[&Node],
    lowered: &[&Node],
) -> Result<bool, AllocError>
    ensures { IfOk result (λ holds. holds ≡ kept.are_new_or_among first (spec.up_to (trees (seen source.now))) (spec.running_up_to (trees (seen lowered.now)))) }
{
    let stood = nodes_up_to(alloc, source)?;
    let there = set_of(alloc, stood.as_slice())?;
    let running = running_nodes_up_to(alloc, lowered)?;
    Ok(are_new_or_among(first, &there, running.as_slice()))
}

// ---- the statements of a program

/// The statements of a program. Fails on allocation failure alone.
#[tactic(auto, using(crate::proofs::DefaultExports::body_node, crate::proofs::DefaultExports::are_all, crate::proofs::DefaultExports::are_present))]
fn statements_of<'a>(alloc: Global, program: &'a Node) -> Result<Vec<&'a Node>, AllocError>
    ensures { IfOk result (λ r. AreStatements (seen r.items) (body_of program.now)) }
{
    match items_at(program.parts(), 1) {
        Items::Nodes(nodes) => all_of(alloc, nodes),
        Items::Holes(nodes) => present(alloc, nodes),
        Items::None => Ok(Vec::new(alloc)),
    }
}

fn all_of<'a>(alloc: Global, nodes: &'a [Node]) -> Result<Vec<&'a Node>, AllocError>
    ensures { IfOk result (λ r. seen r.items ≡ nodes.now) }
{
    let mut all = Vec::new(alloc);
    for node in nodes {
        all.push(node)?;
    }
    Ok(all)
}

fn present<'a>(alloc: Global, nodes: &'a [Option<Node>]) -> Result<Vec<&'a Node>, AllocError>
    ensures { IfOk result (λ r. seen r.items ≡ present nodes.now) }
{
    let mut all = Vec::new(alloc);
    for node in nodes {
        add_present(node, &mut all)?;
    }
    Ok(all)
}

fn add_present<'a>(node: &'a Option<Node>, nodes: &mut Vec<&'a Node>) -> Result<(), AllocError>
    ensures { OnOk result (seen nodes.new.items ≡ seen nodes.old.items ++ option_to_list node.now) }
{
    if let Some(node) = node {
        nodes.push(node)?;
    }
    Ok(())
}

// ---- default exports

/// Whether one of these statements is a default export.
fn has_default(statements: &[&Node]) -> bool
    ensures { result ≡ spec.holds spec.is_default (trees (seen statements.now)) }
{
    for statement in statements {
        if is_default(statement) {
            return true;
        }
    }
    false
}

#[tactic(auto, using(crate::proofs::DefaultExports::default_node, crate::proofs::DefaultExports::no_default))]
fn is_default(statement: &Node) -> bool
    ensures { result ≡ spec.is_default (child statement.now) }
{
    match statement.kind() {
        // export default x;
        Kind::ExportDefaultDeclaration => true,
        _ => false,
    }
}

/// Whether one of these statements is a default export that declares a class or a function.
fn declares_default(statements: &[&Node]) -> bool
    ensures { result ≡ spec.holds spec.declares_default (trees (seen statements.now)) }
{
    for statement in statements {
        if is_declared_default(statement) {
            return true;
        }
    }
    false
}

#[tactic(auto, using(crate::proofs::DefaultExports::declared_node, crate::proofs::DefaultExports::not_declared))]
fn is_declared_default(statement: &Node) -> bool
    ensures { result ≡ spec.declares_default (child statement.now) }
{
    match statement.kind() {
        // export default class {}
        Kind::ExportDefaultDeclaration => {
            is_declaration(
                ExportDefaultDeclarationRef::from_node(statement)
                    .declaration
                    .kind(),
            )
        }
        _ => false,
    }
}

/// Whether a node of this kind declares a class or a function.
fn is_declaration(kind: Kind) -> bool
    ensures { result ≡ is_declaration kind }
{
    matches!(kind, Kind::ClassDeclaration | Kind::FunctionDeclaration)
}

// ---- up to the default export

/// The nodes of these statements up to the default export, with it. Fails on allocation failure alone.
fn nodes_up_to<'a>(alloc: Global, statements: &[&'a Node]) -> Result<Vec<&'a Node>, AllocError>
    ensures { IfOk result (λ r. seen r.items ≡ nodes_up_to (seen statements.now)) }
{
    let mut nodes = Vec::new(alloc);
    for statement in statements {
        let below = preorder(alloc, statement)?;
        add_nodes(below.as_slice(), &mut nodes)?;
        if is_default(statement) {
            return Ok(nodes);
        }
    }
    Ok(nodes)
}

/// The nodes of those of these statements up to the default export, with it, that run where they stand. Fails on allocation
/// failure alone.
fn running_nodes_up_to<'a>(
    alloc: Global,
    statements: &[&'a Node],
) -> Result<Vec<&'a Node>, AllocError>
    ensures { IfOk result (λ r. seen r.items ≡ running_nodes_up_to (seen statements.now)) }
{
    let mut nodes = Vec::new(alloc);
    for statement in statements {
        add_running(alloc, statement, &mut nodes)?;
        if is_default(statement) {
            return Ok(nodes);
        }
    }
    Ok(nodes)
}

/// Adds the nodes of a statement, unless that declares a function. Fails on allocation failure alone.
#[tactic(auto, using(crate::proofs::DefaultExports::function_node, crate::proofs::DefaultExports::running_node))]
fn add_running<'a>(
    alloc: Global,
    statement: &'a Node,
    nodes: &mut Vec<&'a Node>,
) -> Result<(), AllocError>
    ensures { OnOk result (seen nodes.new.items ≡ seen nodes.old.items ++ running_nodes statement.now) }
{
    match statement.kind() {
        // function f() {}
        Kind::FunctionDeclaration => Ok(()),
        _ => {
            let below = preorder(alloc, statement)?;
            add_nodes(below.as_slice(), nodes)
        }
    }
}
