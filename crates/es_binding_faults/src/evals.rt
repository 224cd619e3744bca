// Calls of the free name `eval`.

ghost use Rattle.std.specs.Prelude.{◌≡◌, ◌++◌, false, IfOk, OnOk, [], bytes_eq, codes};
ghost use Rattle.std.specs.Str.{chars};
ghost use Rattle.es_base.specs.Tree.{trees, nullable, nullable_trees};
ghost use Rattle.es_base.specs.declared.kind.Kind.{Kind};
ghost use Rattle.es_base.specs.Table.{members_of};
ghost use Rattle.es_node.specs.View.{kind_of, number_in, part_of, parts_in, parts_of};
ghost use Rattle.es_steps.specs.Parts.{at, string_of};
ghost use Rattle.es_steps.specs.References.{is_reference, resolve};
ghost use Rattle.es_steps.specs.Scopes.{is_body_part, seen};
ghost use Rattle.es_validity.specs.Facts.{free_evals, is_eval};
ghost use Rattle.es_binding_faults.specs.Evals.{declares_eval, declared_in, free_eval, free_evals_in, free_evals_from, free_evals_at, free_evals_of, is_eval_call, is_eval_reference};
ghost use Rattle.es_binding_faults.specs.Named.{named};
ghost use Rattle.es_binding_faults.specs.Repeats.{numbers};
ghost use Rattle.es_binding_faults.specs.ScopeForms.{scope_of};

use crate::bound::Declared;
use crate::hoisted::part_at;
use crate::numbers::Numbers;
use crate::repeats::push_if;
use crate::scopes::{ScopeForm, add_seen, is_body_part, scope_in};
use es_base::ids::NodeId;
use es_base::kind::Kind;
use es_base::strings::is_word;
use es_node::node::{Node, Part};
use std::alloc::{AllocError, Global};

/// Whether a string is `eval`.
#[tactic(auto, using(es_base::proofs::Ascii::chars_ascii))]
fn is_eval_string(string: &str) -> bool
    ensures { result ≡ bytes_eq (codes "eval") (chars string.now) }
{
    is_word(string, "eval")
}

/// Whether one of these declares `eval`.
fn declares_eval(names: &[Declared]) -> bool
    ensures { result ≡ declares_eval (named names.now) }
{
    for declared in names {
        if is_eval_string(declared.name) {
            return true;
        }
    }
    false
}

/// Whether the i-th part sees a declaration of `eval` in a scope of this form. Fails on allocation failure alone.
fn scope_declares_eval(
    alloc: Global,
    form: ScopeForm,
    parts: &[Part],
    i: usize,
) -> Result<bool, AllocError>
    ensures { IfOk result (λ r. r ≡ declares_eval (seen (scope_of form) 0 (parts_of parts.now) i)) }
{
    let mut names = Vec::new(alloc);
    add_seen(form, parts, i, &mut names)?;
    Ok(declares_eval(names.as_slice()))
}

/// Whether `eval` is declared in what the i-th part of a node sees. Fails on allocation failure alone.
fn declared_in(
    alloc: Global,
    declared: bool,
    is_body: bool,
    node: &Node,
    i: usize,
) -> Result<bool, AllocError>
    ensures { IfOk result (λ r. r ≡ declared_in declared is_body (kind_of node.now) (number_in node.now) (parts_in node.now) i) }
{
    if declared {
        return Ok(true);
    }
    scope_declares_eval(alloc, scope_in(node.kind(), is_body), node.parts(), i)
}

/// Whether it is a reference.
fn is_reference(node: &Node) -> bool
    ensures { result ≡ is_reference (kind_of node.now) }
{
    matches!(node.kind(), Kind::IdentifierReference)
}

/// Whether the name of a reference is `eval`.
fn is_eval(node: &Node) -> bool
    requires { kind_of node.now ≡ Kind.IdentifierReference }
    ensures { result ≡ bytes_eq (codes "eval") (string_of (at 0 (parts_in node.now))) }
{
    match node.parts() {
        [name] => is_eval_string(name.as_string().as_str()),
        _ => unreachable!(),
    }
}

/// Adds a reference where its name is `eval`, and that is not declared around. Fails on allocation failure alone.
fn add_reference(declared: bool, node: &Node, evals: &mut Vec<NodeId>) -> Result<(), AllocError>
    requires { kind_of node.now ≡ Kind.IdentifierReference }
    ensures { OnOk result (numbers evals.new.items ≡ numbers evals.old.items ++ free_eval declared (number_in node.now) (parts_in node.now)) }
{
    push_if(!declared && is_eval(node), node.node_id(), evals)
}

/// Adds the references to a free `eval`, where it is known whether that name is declared around a node, and whether the node
/// is the body of a function. Fails on allocation failure alone.
#[cycle(evals)]
fn add_evals(
    alloc: Global,
    declared: bool,
    is_body: bool,
    node: &Node,
    evals: &mut Vec<NodeId>,
) -> Result<(), AllocError>
    ensures { OnOk result (numbers evals.new.items ≡ numbers evals.old.items ++ free_evals_in declared is_body node.now) }
{
    if is_reference(node) {
        add_reference(declared, node, evals)
    } else {
        add_evals_in_parts(alloc, declared, is_body, node, evals)
    }
}

#[cycle(evals)]
fn add_evals_in_parts(
    alloc: Global,
    declared: bool,
    is_body: bool,
    node: &Node,
    evals: &mut Vec<NodeId>,
) -> Result<(), AllocError>
    ensures { OnOk result (numbers evals.new.items ≡ numbers evals.old.items ++ free_evals_from (declared_in declared is_body (kind_of node.now) (number_in node.now) (parts_in node.now)) (is_body_part (kind_of node.now)) 0 (members_of (kind_of node.now)) (parts_in node.now)) }
{
    let kind = node.kind();
    let parts = node.parts();
    for i in 0..parts.len() {
        let declared = declared_in(alloc, declared, is_body, node, i)?;
        add_evals_in_part(alloc, declared, is_body_part(kind, i), &parts[i], evals)?;
    }
    Ok(())
}

#[cycle(evals)]
fn add_evals_in_part(
    alloc: Global,
    declared: bool,
    is_body: bool,
    part: &Part,
    evals: &mut Vec<NodeId>,
) -> Result<(), AllocError>
    ensures { OnOk result (numbers evals.new.items ≡ numbers evals.old.items ++ free_evals_at declared is_body (part_of part.now)) }
{
    match part {
        Part::Child(node) => add_evals(alloc, declared, is_body, node, evals),
        Part::List(nodes) => add_evals_in_list(alloc, declared, nodes.as_slice(), evals),
        Part::Holes(nodes) => {
            add_evals_in_list_with_holes(alloc, declared, nodes.as_slice(), evals)
        }
        _ => Ok(()),
    }
}

#[cycle(evals)]
fn add_evals_in_list(
    alloc: Global,
    declared: bool,
    nodes: &[Node],
    evals: &mut Vec<NodeId>,
) -> Result<(), AllocError>
    ensures { OnOk result (numbers evals.new.items ≡ numbers evals.old.items ++ free_evals_of declared (trees nodes.now)) }
{
    for node in nodes {
        add_evals(alloc, declared, false, node, evals)?;
    }
    Ok(())
}

#[cycle(evals)]
fn add_evals_in_list_with_holes(
    alloc: Global,
    declared: bool,
    nodes: &[Option<Node>],
    evals: &mut Vec<NodeId>,
) -> Result<(), AllocError>
    ensures { OnOk result (numbers evals.new.items ≡ numbers evals.old.items ++ free_evals_of declared (nullable_trees nodes.now)) }
{
    for node in nodes {
        add_evals_in_hole(alloc, declared, node, evals)?;
    }
    Ok(())
}

#[cycle(evals)]
fn add_evals_in_hole(
    alloc: Global,
    declared: bool,
    node: &Option<Node>,
    evals: &mut Vec<NodeId>,
) -> Result<(), AllocError>
    ensures { OnOk result (numbers evals.new.items ≡ numbers evals.old.items ++ free_evals_at declared false (nullable node.now)) }
{
    match node {
        Some(node) => add_evals(alloc, declared, false, node, evals),
        None => Ok(()),
    }
}

/// Whether a node is a reference that is spelled `eval`.
pub fn is_eval_reference(node: &Node) -> bool
    ensures { result ≡ is_eval_reference node.now }
{
    is_reference(node) && is_eval(node)
}

/// The references to a free `eval` in a program. Fails on allocation failure alone.
pub fn free_evals(alloc: Global, program: &Node) -> Result<Vec<NodeId>, AllocError>
    ensures { IfOk result (λ r. numbers r.items ≡ free_evals (resolve program.now)) }
{
    let mut evals = Vec::new(alloc);
    add_evals(alloc, false, false, program, &mut evals)?;
    Ok(evals)
}

/// Whether a node is a call of one of these references.
pub fn is_eval_call(evals: &Numbers, node: &Node) -> bool
    ensures { result ≡ is_eval_call evals.now node.now }
{
    match node.kind() {
        Kind::CallExpression => match part_at(node.parts(), 0) {
            Some(part) => is_among(evals, part),
            None => false,
        },
        _ => false,
    }
}

/// Whether what is called is one of these references.
fn is_among(evals: &Numbers, part: &Part) -> bool
    ensures { result ≡ is_eval evals.now (part_of part.now) }
{
    match part {
        Part::Child(node) => is_reference(node) && evals.has(node.node_id()),
        _ => false,
    }
}
