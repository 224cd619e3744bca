// The functions of a program that are branches of an `if`, with the names of their spelling around. (ECMA-262, B.3.3.)

ghost use Rattle.std.specs.Prelude.{◌≡◌, ◌++◌, [], cond, IfOk, OnOk, option_map};
ghost use Rattle.std.specs.Str.{chars};
ghost use Rattle.es_base.specs.Tree.{child, nullable, nullable_trees, trees};
ghost use Rattle.es_base.specs.declared.kind.Kind.{Kind};
ghost use Rattle.es_binding_faults.specs.Named.{declaration_of, named};
ghost use Rattle.es_by_number.specs.Numbered.{pairs};
ghost use Rattle.es_node.specs.View.{kind_of, part_of, parts_in, parts_of};
ghost use Rattle.es_references.specs.References.{names_in};
ghost use Rattle.es_steps.specs.Branches.{around_branch, around_branches, around_branches_here, spelled_as};
ghost use Rattle.es_steps.specs.Meaning.{by_number};
ghost use Rattle.es_steps.specs.References as references;
ghost use Rattle.es_branches.specs.Branching.{branches_at, branches_from, branches_in, branches_of, named_branch, names_within, spelled_among, spelled_one};

use es_base::kind::Kind;
use es_base::strings::is_word;
use es_binding_faults::bound::Declared;
use es_binding_faults::vars::takes_vars;
use es_by_number::numbered::{Numbered, sort_by_number};
use es_node::node::{Node, Part};
use es_references::references::{Parent, Scope, names_seen};
use es_tree::function::FunctionDeclarationRef;
use es_tree::identifier::BindingIdentifierRef;
use es_tree::statement::IfStatementRef;
use std::alloc::{AllocError, Global};

/// The declaring identifiers of the functions of a program that are branches of an `if`, by number, each with the names of its
/// spelling that are seen there and declared in the function around, the nearest first. Fails on allocation failure alone.
#[tactic(auto, using(crate::proofs::Branching::of_program))]
pub fn branches(alloc: Global, program: &Node) -> Result<Vec<Numbered<u32>>, AllocError>
    ensures { IfOk result (λ r. pairs r.items ≡ by_number (around_branches [] program.now)) }
{
    let mut found = Vec::new(alloc);
    add_branches(alloc, &Scope::Outside, program, &mut found)?;
    sort_by_number(&mut found)?;
    Ok(found)
}

// ---- the walk

/// Adds those of a tree, where these names are seen. Fails on allocation failure alone.
#[cycle(branches)]
#[tactic(auto, using(es_node::proofs::Below::nodes_in))]
fn add_branches<'a>(
    alloc: Global,
    scope: &Scope<'_, 'a>,
    node: &'a Node,
    found: &mut Vec<Numbered<u32>>,
) -> Result<(), AllocError>
    ensures { OnOk result (pairs found.new.items ≡ pairs found.old.items ++ branches_in (names_in scope.now) node.now) }
{
    add_branches_here(&*scope, node, found)?;
    let around = Parent {
        kind: node.kind(),
        is_body: false,
        parts: node.parts(),
    };
    add_branches_within(alloc, scope, around, found)
}

/// Adds those of the parts of a node.
#[cycle(branches)]
fn add_branches_within<'a>(
    alloc: Global,
    scope: &Scope<'_, 'a>,
    around: Parent<'a>,
    found: &mut Vec<Numbered<u32>>,
) -> Result<(), AllocError>
    ensures { OnOk result (pairs found.new.items ≡ pairs found.old.items ++ branches_from (names_within (names_in scope.now) around.entry.is_body around.entry.kind (parts_of around.entry.parts.now)) 0 (parts_of around.entry.parts.now)) }
{
    let parts = around.parts;
    for (i, part) in parts.iter().enumerate() {
        add_branches_of_part(alloc, &*scope, around, i, part, found)?;
    }
    Ok(())
}

/// Adds those of the i-th part of a node.
#[cycle(branches)]
fn add_branches_of_part<'a>(
    alloc: Global,
    scope: &Scope<'_, 'a>,
    around: Parent<'a>,
    i: usize,
    part: &'a Part,
    found: &mut Vec<Numbered<u32>>,
) -> Result<(), AllocError>
    ensures { OnOk result (pairs found.new.items ≡ pairs found.old.items ++ branches_at (names_within (names_in scope.now) around.entry.is_body around.entry.kind (parts_of around.entry.parts.now) i) (part_of part.now)) }
{
    let frame = names_seen(alloc, around, i)?;
    let outer = names_around(&*scope, around.kind);
    if frame.names.is_empty() {
        add_branches_at(alloc, &outer, part, found)
    } else {
        let inner = Scope::Inside {
            frame: &frame,
            outer: &outer,
        };
        add_branches_at(alloc, &inner, part, found)
    }
}

#[cycle(branches)]
fn add_branches_at<'a>(
    alloc: Global,
    scope: &Scope<'_, 'a>,
    part: &'a Part,
    found: &mut Vec<Numbered<u32>>,
) -> Result<(), AllocError>
    ensures { OnOk result (pairs found.new.items ≡ pairs found.old.items ++ branches_at (names_in scope.now) (part_of part.now)) }
{
    match part {
        Part::Child(node) => add_branches(alloc, scope, node, found),
        Part::List(nodes) => add_branches_of_list(alloc, scope, nodes.as_slice(), found),
        Part::Holes(nodes) => {
            add_branches_of_list_with_holes(alloc, scope, nodes.as_slice(), found)
        }
        _ => Ok(()),
    }
}

#[cycle(branches)]
fn add_branches_of_list<'a>(
    alloc: Global,
    scope: &Scope<'_, 'a>,
    nodes: &'a [Node],
    found: &mut Vec<Numbered<u32>>,
) -> Result<(), AllocError>
    ensures { OnOk result (pairs found.new.items ≡ pairs found.old.items ++ branches_of (names_in scope.now) (trees nodes.now)) }
{
    for node in nodes {
        add_branches(alloc, &*scope, node, found)?;
    }
    Ok(())
}

#[cycle(branches)]
fn add_branches_of_list_with_holes<'a>(
    alloc: Global,
    scope: &Scope<'_, 'a>,
    nodes: &'a [Option<Node>],
    found: &mut Vec<Numbered<u32>>,
) -> Result<(), AllocError>
    ensures { OnOk result (pairs found.new.items ≡ pairs found.old.items ++ branches_of (names_in scope.now) (nullable_trees nodes.now)) }
{
    for node in nodes {
        add_branches_of_hole(alloc, &*scope, node, found)?;
    }
    Ok(())
}

#[cycle(branches)]
fn add_branches_of_hole<'a>(
    alloc: Global,
    scope: &Scope<'_, 'a>,
    node: &'a Option<Node>,
    found: &mut Vec<Numbered<u32>>,
) -> Result<(), AllocError>
    ensures { OnOk result (pairs found.new.items ≡ pairs found.old.items ++ branches_at (names_in scope.now) (nullable node.now)) }
{
    match node {
        Some(node) => add_branches(alloc, scope, node, found),
        None => Ok(()),
    }
}

/// What of these names the parts of a node see that are declared in the same function as they are.
fn names_around<'r, 'a>(scope: &Scope<'r, 'a>, kind: Kind) -> Scope<'r, 'a>
    ensures { names_in result ≡ cond (references.takes_vars kind) [] (names_in scope.now) }
{
    if takes_vars(kind) {
        Scope::Outside
    } else {
        *scope
    }
}

// ---- one node

/// Adds those of a node itself. Fails on allocation failure alone.
#[tactic(auto, using(crate::proofs::Branching::no_branches))]
fn add_branches_here(
    scope: &Scope,
    node: &Node,
    found: &mut Vec<Numbered<u32>>,
) -> Result<(), AllocError>
    ensures { OnOk result (pairs found.new.items ≡ pairs found.old.items ++ around_branches_here (names_in scope.now) (kind_of node.now) (parts_in node.now)) }
{
    match node.kind() {
        // if (a) function f() {} else function g() {}
        Kind::IfStatement => add_both_branches(scope, IfStatementRef::from_node(node), found),
        _ => Ok(()),
    }
}

fn add_both_branches(
    scope: &Scope,
    statement: IfStatementRef,
    found: &mut Vec<Numbered<u32>>,
) -> Result<(), AllocError>
    ensures { OnOk result (pairs found.new.items ≡ pairs found.old.items ++ (around_branch (names_in scope.now) (child statement.entry.consequent.now) ++ around_branch (names_in scope.now) (nullable (option_map (λ x. x.now) statement.entry.alternate)))) }
{
    add_branch(scope, statement.consequent, found)?;
    match statement.alternate {
        Some(alternate) => add_branch(scope, alternate, found),
        None => Ok(()),
    }
}

/// Adds the names around a branch that is a function. Fails on allocation failure alone.
#[tactic(auto, using(crate::proofs::Branching::named_function, crate::proofs::Branching::unnamed_function, crate::proofs::Branching::no_function))]
fn add_branch(scope: &Scope, node: &Node, found: &mut Vec<Numbered<u32>>) -> Result<(), AllocError>
    ensures { OnOk result (pairs found.new.items ≡ pairs found.old.items ++ around_branch (names_in scope.now) (child node.now)) }
{
    match node.kind() {
        Kind::FunctionDeclaration => match FunctionDeclarationRef::from_node(node).id {
            Some(id) => add_named_branch(scope, id, found),
            None => Ok(()),
        },
        _ => Ok(()),
    }
}

#[tactic(auto, using(crate::proofs::Branching::no_identifier))]
fn add_named_branch(
    scope: &Scope,
    id: &Node,
    found: &mut Vec<Numbered<u32>>,
) -> Result<(), AllocError>
    ensures { OnOk result (pairs found.new.items ≡ pairs found.old.items ++ named_branch (names_in scope.now) id.now) }
{
    match id.kind() {
        Kind::BindingIdentifier => {
            let identifier = BindingIdentifierRef::from_node(id);
            add_spelled(scope, identifier.node_id.0, identifier.name.as_str(), found)
        }
        _ => Ok(()),
    }
}

// ---- the names of one spelling

/// Adds the declaring identifier of this number with each name of this spelling. Fails on allocation failure alone.
#[tactic(auto, using(crate::proofs::Branching::spelled_inside))]
fn add_spelled(
    scope: &Scope,
    number: u32,
    name: &str,
    found: &mut Vec<Numbered<u32>>,
) -> Result<(), AllocError>
    ensures { OnOk result (pairs found.new.items ≡ pairs found.old.items ++ spelled_as number (chars name.now) (names_in scope.now)) }
{
    match scope {
        Scope::Outside => Ok(()),
        Scope::Inside { frame, outer } => {
            add_spelled_among(frame.names.as_slice(), number, name, found)?;
            add_spelled(outer, number, name, found)
        }
    }
}

fn add_spelled_among(
    names: &[Declared],
    number: u32,
    name: &str,
    found: &mut Vec<Numbered<u32>>,
) -> Result<(), AllocError>
    ensures { OnOk result (pairs found.new.items ≡ pairs found.old.items ++ spelled_among number (chars name.now) (named names.now)) }
{
    for declared in names {
        add_if_spelled(declared, number, name, found)?;
    }
    Ok(())
}

fn add_if_spelled(
    declared: &Declared,
    number: u32,
    name: &str,
    found: &mut Vec<Numbered<u32>>,
) -> Result<(), AllocError>
    ensures { OnOk result (pairs found.new.items ≡ pairs found.old.items ++ spelled_one number (chars name.now) (declaration_of declared.now)) }
{
    if is_word(declared.name, name) {
        found.push(Numbered {
            number,
            value: declared.node.0,
        })?;
    }
    Ok(())
}
