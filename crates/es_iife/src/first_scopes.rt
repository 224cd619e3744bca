// The scopes of a tree that stand in no other scope of it.

ghost use Rattle.std.specs.Prelude.{◌≡◌, ◌++◌, IfOk, OnOk};
ghost use Rattle.es_base.specs.Carried.{scope_number};
ghost use Rattle.es_base.specs.Tree.{trees, nullable, nullable_trees};
ghost use Rattle.es_iife.specs.FirstScopes.{first_scopes, outside_scopes, own_scope, part_scopes, scopes_in};
ghost use Rattle.es_node.specs.View.{kind_of, part_of, parts_of, semantic_id_in};

use es_base::ids::ScopeId;
use es_base::kind::Kind;
use es_base::list::List;
use es_node::node::{Node, Part};
use es_scopes_build::inside::has_scope;
use std::alloc::{AllocError, Global};

/// The scopes of a tree that stand in no other scope of it, in preorder: of `() => () => 1` that of the outer arrow.
/// Fails on allocation failure alone, as the calls below do.
pub fn first_scopes(alloc: Global, tree: &Node) -> Result<List<ScopeId>, AllocError>
    ensures { IfOk result (λ scopes. scopes ≡ first_scopes tree.now) }
{
    let mut scopes = List::new(alloc);
    add_scopes(tree, &mut scopes)?;
    Ok(scopes)
}

#[cycle(first_scopes)]
fn add_scopes(node: &Node, scopes: &mut List<ScopeId>) -> Result<(), AllocError>
    ensures { OnOk result (scopes.new ≡ scopes.old ++ first_scopes node.now) }
{
    match own_scope(node) {
        Some(scope) => {
            scopes.push(scope)?;
            add_outside(node.kind(), node.parts(), scopes)
        }
        None => add_parts(node.parts(), scopes),
    }
}

/// The scope of the node itself.
fn own_scope(node: &Node) -> Option<ScopeId>
    ensures { scope_number result ≡ own_scope (kind_of node.now) (semantic_id_in node.now) }
{
    if has_scope(node.kind()) {
        node.semantic_id().map(ScopeId)
    } else {
        None
    }
}

/// The scopes in a node with a scope that stand outside that: those of the discriminant of a `switch`.
#[cycle(first_scopes)]
fn add_outside(kind: Kind, parts: &[Part], scopes: &mut List<ScopeId>) -> Result<(), AllocError>
    ensures { OnOk result (scopes.new ≡ scopes.old ++ outside_scopes kind (parts_of parts.now)) }
{
    match (kind, parts) {
        (Kind::SwitchStatement, [discriminant, ..]) => add_part(discriminant, scopes),
        _ => Ok(()),
    }
}

#[cycle(first_scopes)]
fn add_parts(parts: &[Part], scopes: &mut List<ScopeId>) -> Result<(), AllocError>
    ensures { OnOk result (scopes.new ≡ scopes.old ++ scopes_in (parts_of parts.now)) }
{
    for part in parts {
        add_part(part, scopes)?;
    }
    Ok(())
}

#[cycle(first_scopes)]
fn add_part(part: &Part, scopes: &mut List<ScopeId>) -> Result<(), AllocError>
    ensures { OnOk result (scopes.new ≡ scopes.old ++ part_scopes (part_of part.now)) }
{
    match part {
        Part::Child(node) => add_scopes(node, scopes),
        Part::List(nodes) => add_list(nodes.as_slice(), scopes),
        Part::Holes(nodes) => add_list_with_holes(nodes.as_slice(), scopes),
        _ => Ok(()),
    }
}

#[cycle(first_scopes)]
fn add_list(nodes: &[Node], scopes: &mut List<ScopeId>) -> Result<(), AllocError>
    ensures { OnOk result (scopes.new ≡ scopes.old ++ scopes_in (trees nodes.now)) }
{
    for node in nodes {
        add_scopes(node, scopes)?;
    }
    Ok(())
}

#[cycle(first_scopes)]
fn add_list_with_holes(nodes: &[Option<Node>], scopes: &mut List<ScopeId>) -> Result<(), AllocError>
    ensures { OnOk result (scopes.new ≡ scopes.old ++ scopes_in (nullable_trees nodes.now)) }
{
    for node in nodes {
        add_hole(node, scopes)?;
    }
    Ok(())
}

#[cycle(first_scopes)]
fn add_hole(node: &Option<Node>, scopes: &mut List<ScopeId>) -> Result<(), AllocError>
    ensures { OnOk result (scopes.new ≡ scopes.old ++ part_scopes (nullable node.now)) }
{
    match node {
        Some(node) => add_scopes(node, scopes),
        None => Ok(()),
    }
}
