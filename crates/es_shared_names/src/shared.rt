// The declaring identifiers of a program that share a binding with one in front of them. (ECMA-262, 8.2, 10.2.11.)

ghost use Rattle.std.specs.Prelude.{◌≡◌, ◌++◌, [], cond, false, IfOk, OnOk};
ghost use Rattle.es_base.specs.Tree.{nullable, nullable_trees, trees};
ghost use Rattle.es_binding_faults.specs.Named.{named, plain};
ghost use Rattle.es_binding_faults.specs.ScopeForms.{scope_of};
ghost use Rattle.es_by_number.specs.Numbered.{pairs};
ghost use Rattle.es_node.specs.View.{kind_of, number_in, part_of, parts_in, parts_of};
ghost use Rattle.es_steps.specs.Meaning.{by_number};
ghost use Rattle.es_steps.specs.Parts.{at, block_items};
ghost use Rattle.es_steps.specs.Scopes as scopes;
ghost use Rattle.es_steps.specs.Scopes.{bound_part, is_declaring, lexical_items, lexical_part, no_class, scope_names, var_items};
ghost use Rattle.es_steps.specs.Shared.{caught_names, hoisted_past, shared, shared_at, shared_behind, shared_of, shared_with};
ghost use Rattle.es_shared_names.specs.SharedParts.{shared_from, shared_here};

use crate::earlier::{add_shared_behind, add_shared_with};
use es_base::kind::Kind;
use es_binding_faults::bound::{Declared, is_binding_identifier};
use es_binding_faults::hoisted::{Hoist, add_bound_at, add_hoisted_parts, part_at};
use es_binding_faults::scopes::{
    ScopeForm, add_hoisted_at, add_scope_names, is_body_part, scope_in,
};
use es_by_number::numbered::{Numbered, sort_by_number};
use es_node::node::{Node, Part};
use std::alloc::{AllocError, Global};

/// The declaring identifiers of a program that share a binding with one in front of them in their scope, by number, each with that
/// one. Fails on allocation failure alone.
pub fn shared_bindings(alloc: Global, program: &Node) -> Result<Vec<Numbered<u32>>, AllocError>
    ensures { IfOk result (λ r. pairs r.items ≡ by_number (shared false program.now)) }
{
    let mut found = Vec::new(alloc);
    add_shared(alloc, false, program, &mut found)?;
    sort_by_number(&mut found)?;
    Ok(found)
}

/// Adds those of a tree, which is the body of a function or not. Fails on allocation failure alone.
#[cycle(shared)]
#[tactic(auto, using(es_node::proofs::Below::nodes_in))]
fn add_shared(
    alloc: Global,
    is_body: bool,
    node: &Node,
    found: &mut Vec<Numbered<u32>>,
) -> Result<(), AllocError>
    ensures { OnOk result (pairs found.new.items ≡ pairs found.old.items ++ shared is_body node.now) }
{
    add_shared_here(alloc, is_body, node, found)?;
    add_shared_in(alloc, node, node.parts(), found)
}

/// Adds those of the parts of a node.
#[cycle(shared)]
fn add_shared_in(
    alloc: Global,
    node: &Node,
    parts: &[Part],
    found: &mut Vec<Numbered<u32>>,
) -> Result<(), AllocError>
    ensures { OnOk result (pairs found.new.items ≡ pairs found.old.items ++ shared_from (scopes.is_body_part (kind_of node.now)) 0 (parts_of parts.now)) }
{
    for (i, part) in parts.iter().enumerate() {
        add_shared_at(alloc, is_body_part(node.kind(), i), part, found)?;
    }
    Ok(())
}

#[cycle(shared)]
fn add_shared_at(
    alloc: Global,
    is_body: bool,
    part: &Part,
    found: &mut Vec<Numbered<u32>>,
) -> Result<(), AllocError>
    ensures { OnOk result (pairs found.new.items ≡ pairs found.old.items ++ shared_at is_body (part_of part.now)) }
{
    match part {
        Part::Child(node) => add_shared(alloc, is_body, node, found),
        Part::List(nodes) => add_shared_of_list(alloc, nodes.as_slice(), found),
        Part::Holes(nodes) => add_shared_of_list_with_holes(alloc, nodes.as_slice(), found),
        _ => Ok(()),
    }
}

#[cycle(shared)]
fn add_shared_of_list(
    alloc: Global,
    nodes: &[Node],
    found: &mut Vec<Numbered<u32>>,
) -> Result<(), AllocError>
    ensures { OnOk result (pairs found.new.items ≡ pairs found.old.items ++ shared_of (trees nodes.now)) }
{
    for node in nodes {
        add_shared(alloc, false, node, found)?;
    }
    Ok(())
}

#[cycle(shared)]
fn add_shared_of_list_with_holes(
    alloc: Global,
    nodes: &[Option<Node>],
    found: &mut Vec<Numbered<u32>>,
) -> Result<(), AllocError>
    ensures { OnOk result (pairs found.new.items ≡ pairs found.old.items ++ shared_of (nullable_trees nodes.now)) }
{
    for node in nodes {
        add_shared_of_hole(alloc, node, found)?;
    }
    Ok(())
}

#[cycle(shared)]
fn add_shared_of_hole(
    alloc: Global,
    node: &Option<Node>,
    found: &mut Vec<Numbered<u32>>,
) -> Result<(), AllocError>
    ensures { OnOk result (pairs found.new.items ≡ pairs found.old.items ++ shared_at false (nullable node.now)) }
{
    match node {
        Some(node) => add_shared(alloc, false, node, found),
        None => Ok(()),
    }
}

// ---- the names of one node

/// Adds those among the names of one node. Fails on allocation failure alone.
#[tactic(auto, using(crate::proofs::SharedNodes::scope_behind))]
fn add_shared_here(
    alloc: Global,
    is_body: bool,
    node: &Node,
    found: &mut Vec<Numbered<u32>>,
) -> Result<(), AllocError>
    ensures { OnOk result (pairs found.new.items ≡ pairs found.old.items ++ shared_here is_body (kind_of node.now) (number_in node.now) (parts_in node.now)) }
{
    let form = scope_in(node.kind(), is_body);
    add_in_scope(alloc, form, node.parts(), found)?;
    add_caught(alloc, node.kind(), node.parts(), found)?;
    add_hoisted_past(alloc, is_body, node.kind(), node.parts(), found)
}

/// Adds those among the names of a scope of this form. Fails on allocation failure alone.
fn add_in_scope(
    alloc: Global,
    form: ScopeForm,
    parts: &[Part],
    found: &mut Vec<Numbered<u32>>,
) -> Result<(), AllocError>
    ensures { OnOk result (pairs found.new.items ≡ pairs found.old.items ++ shared_behind [] (plain (scope_names (scope_of form) 0 (parts_of parts.now)))) }
{
    let mut names = Vec::new(alloc);
    add_scope_names(form, parts, &mut names)?;
    add_shared_behind(alloc, names.as_slice(), found)
}

// ---- what a catch declares

/// Adds those among what a catch declares and the lexical names of its block (14.15.1). Fails on allocation failure alone.
#[tactic(auto, using(crate::proofs::SharedNodes::none_caught, crate::proofs::SharedNodes::caught_plain))]
fn add_caught(
    alloc: Global,
    kind: Kind,
    parts: &[Part],
    found: &mut Vec<Numbered<u32>>,
) -> Result<(), AllocError>
    ensures { OnOk result (pairs found.new.items ≡ pairs found.old.items ++ shared_behind [] (caught_names kind (parts_of parts.now))) }
{
    match kind {
        // catch (x) { let y; }
        Kind::CatchClause => {
            let mut names = Vec::new(alloc);
            add_bound_at(parts, 0, &mut names)?;
            add_block_names(parts, &mut names)?;
            add_shared_behind(alloc, names.as_slice(), found)
        }
        _ => Ok(()),
    }
}

/// Adds the lexical names of the block of a catch. Fails on allocation failure alone.
fn add_block_names<'a>(parts: &'a [Part], names: &mut Vec<Declared<'a>>) -> Result<(), AllocError>
    ensures { OnOk result (named names.new.items ≡ named names.old.items ++ plain (lexical_items (block_items (at 1 (parts_of parts.now))))) }
{
    match part_at(parts, 1) {
        Some(Part::Child(node)) => add_scope_names(ScopeForm::Block, node.parts(), names),
        _ => Ok(()),
    }
}

// ---- what a `var` is hoisted past

/// Adds the names of `var` below a node that are of the spelling of a name which they are hoisted past. Fails on allocation
/// failure alone.
#[tactic(auto, using(crate::proofs::SharedNodes::none_past))]
fn add_hoisted_past(
    alloc: Global,
    is_body: bool,
    kind: Kind,
    parts: &[Part],
    found: &mut Vec<Numbered<u32>>,
) -> Result<(), AllocError>
    ensures { OnOk result (pairs found.new.items ≡ pairs found.old.items ++ hoisted_past is_body kind (parts_of parts.now)) }
{
    match kind {
        // { let x; { var x; } }
        Kind::BlockStatement => {
            if is_body {
                Ok(())
            } else {
                add_past_block(alloc, parts, found)
            }
        }
        // switch (v) { case 0: let x; { var x; } }
        Kind::SwitchStatement => add_past_part(alloc, parts, 1, found),
        // for (let x; ;) { var x; }
        Kind::ForStatement | Kind::ForInStatement | Kind::ForOfStatement => {
            add_past_part(alloc, parts, 0, found)
        }
        // catch ({ x }) { var x; }
        Kind::CatchClause => add_past_caught(alloc, parts, found),
        _ => Ok(()),
    }
}

/// The same of a block.
#[tactic(auto, using(crate::proofs::Nearest::with_plain_front))]
fn add_past_block(
    alloc: Global,
    parts: &[Part],
    found: &mut Vec<Numbered<u32>>,
) -> Result<(), AllocError>
    ensures { OnOk result (pairs found.new.items ≡ pairs found.old.items ++ shared_with (lexical_items (parts_of parts.now)) (var_items (parts_of parts.now))) }
{
    let mut names = Vec::new(alloc);
    add_hoisted_parts(Hoist::Lexical, parts, &mut names)?;
    add_past(alloc, names.as_slice(), parts, found)
}

/// The same of the lexical names of the part at this place.
#[tactic(auto, using(crate::proofs::SharedNodes::past_part))]
fn add_past_part(
    alloc: Global,
    parts: &[Part],
    i: usize,
    found: &mut Vec<Numbered<u32>>,
) -> Result<(), AllocError>
    ensures { OnOk result (pairs found.new.items ≡ pairs found.old.items ++ shared_with (lexical_part (at i (parts_of parts.now))) (var_items (parts_of parts.now))) }
{
    let mut names = Vec::new(alloc);
    add_hoisted_at(Hoist::Lexical, parts, i, &mut names)?;
    add_past(alloc, names.as_slice(), parts, found)
}

/// The same of what a catch declares, unless that is one identifier.
fn add_past_caught(
    alloc: Global,
    parts: &[Part],
    found: &mut Vec<Numbered<u32>>,
) -> Result<(), AllocError>
    ensures { OnOk result (pairs found.new.items ≡ pairs found.old.items ++ cond (is_declaring (at 0 (parts_of parts.now))) [] (shared_with (bound_part no_class (at 0 (parts_of parts.now))) (var_items (parts_of parts.now)))) }
{
    if is_identifier_at(parts, 0) {
        return Ok(());
    }
    let mut names = Vec::new(alloc);
    add_bound_at(parts, 0, &mut names)?;
    add_past(alloc, names.as_slice(), parts, found)
}

/// Whether an identifier that declares stands at this place.
#[tactic(auto, using(crate::proofs::SharedNodes::declaring_node))]
fn is_identifier_at(parts: &[Part], i: usize) -> bool
    ensures { result ≡ is_declaring (at i (parts_of parts.now)) }
{
    match part_at(parts, i) {
        Some(Part::Child(node)) => is_binding_identifier(node),
        _ => false,
    }
}

/// Adds the names of `var` in these parts that are of the spelling of one of these names. Fails on allocation failure alone.
#[tactic(auto, using(crate::proofs::Nearest::with_plain))]
fn add_past(
    alloc: Global,
    names: &[Declared],
    parts: &[Part],
    found: &mut Vec<Numbered<u32>>,
) -> Result<(), AllocError>
    ensures { OnOk result (pairs found.new.items ≡ pairs found.old.items ++ shared_with (named names.now) (var_items (parts_of parts.now))) }
{
    let mut vars = Vec::new(alloc);
    add_hoisted_parts(Hoist::Var, parts, &mut vars)?;
    add_shared_with(alloc, names, vars.as_slice(), found)
}
