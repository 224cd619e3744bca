// The functions in blocks, in cases and in branches of an `if`: what the name of such a function means around is given the
// function, too (ECMA-262, B.3.2).

ghost use Rattle.std.specs.Prelude.{◌≡◌, ◌++◌, OnOk, IfOk, codes, false, option_map};
ghost use Rattle.es_base.specs.Conforms.{is_among};
ghost use Rattle.es_base.specs.Tree.{child, nullable, trees, nullable_trees};
ghost use Rattle.es_base.specs.declared.kind.Kind.{Kind};
ghost use Rattle.es_binding_faults.specs.Seen.{seen};
ghost use Rattle.es_node.specs.View.{kind_of, parts_in, parts_of};
ghost use Rattle.es_steps.specs.Parts.{at, items};
ghost use Rattle.es_steps.specs.References as spec;
ghost use Rattle.es_steps.specs.References.{bound_spelling, function_name, function_names, case_functions};
ghost use Rattle.es_outside.specs.InnerFunctions.{give_name, texts};

use es_base::kind::Kind;
use es_base::strings::is_among;
use es_binding_faults::bound::is_binding_identifier;
use es_binding_faults::hoisted::part_at;
use es_node::node::{Node, Part};
use es_tree::function::FunctionDeclarationRef;
use es_tree::identifier::BindingIdentifierRef;
use es_tree::statement::{
    BlockStatementRef, IfStatementRef, LabeledStatementRef, SwitchStatementRef,
};
use std::alloc::{AllocError, Global};

/// The names of the functions in the node itself. Fails on allocation failure alone.
pub fn inner_functions<'a>(
    alloc: Global,
    is_body: bool,
    node: &'a Node,
) -> Result<Vec<&'a str>, AllocError>
    ensures { IfOk result (λ r. texts r.items ≡ spec.inner_functions is_body (kind_of node.now) (parts_in node.now)) }
{
    let mut names = Vec::new(alloc);
    add_inner_functions(is_body, node, &mut names)?;
    Ok(names)
}

/// Whether a function in one of these nodes is named `arguments`. Fails on allocation failure alone.
pub fn give_arguments(alloc: Global, nodes: &[&Node]) -> Result<bool, AllocError>
    ensures { IfOk result (λ b. b ≡ give_name (codes "arguments") (seen nodes.now)) }
{
    for node in nodes {
        if gives_arguments(alloc, node)? {
            return Ok(true);
        }
    }
    Ok(false)
}

/// Whether a function in the node itself is named `arguments`. Fails on allocation failure alone.
#[tactic(auto, using(es_base::proofs::Ascii::chars_ascii))]
fn gives_arguments(alloc: Global, node: &Node) -> Result<bool, AllocError>
    ensures { IfOk result (λ b. b ≡ is_among (codes "arguments") (spec.inner_functions false (kind_of node.now) (parts_in node.now))) }
{
    let names = inner_functions(alloc, false, node)?;
    Ok(is_among("arguments", names.as_slice()))
}

/// Adds the names of the functions in the node itself. Fails on allocation failure alone.
#[tactic(auto, using(crate::proofs::InnerNames::in_block, crate::proofs::InnerNames::in_body, crate::proofs::InnerNames::in_switch, crate::proofs::InnerNames::in_if, crate::proofs::InnerNames::in_none))]
fn add_inner_functions<'a>(
    is_body: bool,
    node: &'a Node,
    names: &mut Vec<&'a str>,
) -> Result<(), AllocError>
    ensures { OnOk result (texts names.new.items ≡ texts names.old.items ++ spec.inner_functions is_body (kind_of node.now) (parts_in node.now)) }
{
    match node.kind() {
        // { function f() {} }
        Kind::BlockStatement => {
            if is_body {
                Ok(())
            } else {
                add_function_names(BlockStatementRef::from_node(node).body, names)
            }
        }
        // switch (x) { case 1: function f() {} }
        Kind::SwitchStatement => add_case_functions(
            SwitchStatementRef::from_node(node).cases,
            names,
        ),
        // if (x) function f() {}
        Kind::IfStatement => add_branches(IfStatementRef::from_node(node), names),
        _ => Ok(()),
    }
}

// ---- of a statement

/// Adds the name of the function that the statement is, by itself, behind a label or as a branch. Fails on allocation
/// failure alone.
#[cycle(functions)]
#[tactic(auto, using(crate::proofs::InnerNames::no_function))]
fn add_function_name<'a>(node: &'a Node, names: &mut Vec<&'a str>) -> Result<(), AllocError>
    ensures { OnOk result (texts names.new.items ≡ texts names.old.items ++ function_name (child node.now)) }
{
    match node.kind() {
        Kind::FunctionDeclaration => add_own_name(node, names),
        Kind::LabeledStatement => add_function_name(
            LabeledStatementRef::from_node(node).body,
            names,
        ),
        Kind::IfStatement => add_branches(IfStatementRef::from_node(node), names),
        _ => Ok(()),
    }
}

/// Adds those of the branches.
#[cycle(functions)]
fn add_branches<'a>(
    statement: IfStatementRef<'a>,
    names: &mut Vec<&'a str>,
) -> Result<(), AllocError>
    ensures { OnOk result (texts names.new.items ≡ texts names.old.items ++ (function_name (child statement.entry.consequent.now) ++ function_name (nullable (option_map (λ x. x.now) statement.entry.alternate)))) }
{
    add_function_name(statement.consequent, names)?;
    match statement.alternate {
        Some(alternate) => add_function_name(alternate, names),
        None => Ok(()),
    }
}

/// Adds the name of the function.
fn add_own_name<'a>(node: &'a Node, names: &mut Vec<&'a str>) -> Result<(), AllocError>
    requires { kind_of node.now ≡ Kind.FunctionDeclaration }
    ensures { OnOk result (texts names.new.items ≡ texts names.old.items ++ function_name (child node.now)) }
{
    add_spelling(FunctionDeclarationRef::from_node(node).id, names)
}

/// Adds the spelling of the identifier.
#[tactic(auto, using(crate::proofs::InnerNames::no_spelling))]
fn add_spelling<'a>(id: Option<&'a Node>, names: &mut Vec<&'a str>) -> Result<(), AllocError>
    ensures { OnOk result (texts names.new.items ≡ texts names.old.items ++ bound_spelling (nullable (option_map (λ x. x.now) id.entry))) }
{
    match id {
        Some(id) if is_binding_identifier(id) => {
            names.push(BindingIdentifierRef::from_node(id).name.as_str())?;
            Ok(())
        }
        _ => Ok(()),
    }
}

// ---- of statements

fn add_function_names<'a>(nodes: &'a [Node], names: &mut Vec<&'a str>) -> Result<(), AllocError>
    ensures { OnOk result (texts names.new.items ≡ texts names.old.items ++ function_names (trees nodes.now)) }
{
    for node in nodes {
        add_function_name(node, names)?;
    }
    Ok(())
}

fn add_function_names_with_holes<'a>(
    nodes: &'a [Option<Node>],
    names: &mut Vec<&'a str>,
) -> Result<(), AllocError>
    ensures { OnOk result (texts names.new.items ≡ texts names.old.items ++ function_names (nullable_trees nodes.now)) }
{
    for node in nodes {
        add_function_name_of_hole(node, names)?;
    }
    Ok(())
}

fn add_function_name_of_hole<'a>(
    node: &'a Option<Node>,
    names: &mut Vec<&'a str>,
) -> Result<(), AllocError>
    ensures { OnOk result (texts names.new.items ≡ texts names.old.items ++ function_name (nullable node.now)) }
{
    match node {
        Some(node) => add_function_name(node, names),
        None => Ok(()),
    }
}

/// Adds those of the list at this place.
fn add_functions_at<'a>(
    parts: &'a [Part],
    i: usize,
    names: &mut Vec<&'a str>,
) -> Result<(), AllocError>
    ensures { OnOk result (texts names.new.items ≡ texts names.old.items ++ function_names (items (at i (parts_of parts.now)))) }
{
    match part_at(parts, i) {
        Some(Part::List(nodes)) => add_function_names(nodes.as_slice(), names),
        Some(Part::Holes(nodes)) => add_function_names_with_holes(nodes.as_slice(), names),
        _ => Ok(()),
    }
}

fn add_case_functions<'a>(cases: &'a [Node], names: &mut Vec<&'a str>) -> Result<(), AllocError>
    ensures { OnOk result (texts names.new.items ≡ texts names.old.items ++ case_functions (trees cases.now)) }
{
    for case in cases {
        add_functions_at(case.parts(), 1, names)?;
    }
    Ok(())
}
