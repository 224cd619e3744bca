// The bindings that change without a reference that writes them, and those that are assigned to.

ghost use Rattle.std.specs.Prelude.{◌≡◌, ℕ, ◌++◌, ◌&&◌, ◌||◌, [], ◌∷◌, bytes_eq, codes, cond, IfOk, OnOk};
ghost use Rattle.std.specs.Str.{chars};
ghost use Rattle.es_base.specs.Conforms.{is_among};
ghost use Rattle.es_binding_faults.specs.Named.{named};
ghost use Rattle.es_binding_faults.specs.Seen.{seen};
ghost use Rattle.es_name_set.specs.Names.{HaveSame};
ghost use Rattle.es_node.specs.View.{kind_of, number_in, parts_in};
ghost use Rattle.es_steps.specs.Parts.{at};
ghost use Rattle.es_steps.specs.References as spec;
ghost use Rattle.es_steps.specs.References.{has_number, if_bound, is_free, numbers_of, writes_free};
ghost use Rattle.es_steps.specs.Scopes.{bound_part, no_class, scope_names, scope_form, var_part};
ghost use Rattle.es_references.specs.Frames.{ids};
ghost use Rattle.es_references.specs.References.{reference_of, references_of};

use es_base::ids::NodeId;
use es_base::kind::Kind;
use es_base::strings::is_word;
use es_binding_faults::bound::Declared;
use es_binding_faults::hoisted::{Hoist, add_bound_at};
use es_binding_faults::scopes::{add_hoisted_at, add_scope_names, scope_form};
use es_name_set::Names;
use es_node::node::Node;
use es_references::references::Reference;
use std::alloc::{AllocError, Global};

// ---- assigned

/// The bindings that these references write. Fails on allocation failure alone.
pub fn assigned(alloc: Global, references: &[Reference]) -> Result<Vec<NodeId>, AllocError>
    ensures { IfOk result (λ r. ids r.items ≡ spec.assigned (references_of references.now)) }
{
    let mut bindings = Vec::new(alloc);
    for reference in references {
        add_if_written(*reference, &mut bindings)?;
    }
    Ok(bindings)
}

/// Adds the binding, if the reference writes one.
#[tactic(auto, using(crate::proofs::DeclaredNames::written_reference))]
fn add_if_written(reference: Reference, bindings: &mut Vec<NodeId>) -> Result<(), AllocError>
    ensures { OnOk result (ids bindings.new.items ≡ ids bindings.old.items ++ if_bound (reference_of reference.entry).writes (reference_of reference.entry).to) }
{
    match reference.binding {
        Some(binding) if reference.writes => {
            bindings.push(binding)?;
            Ok(())
        }
        _ => Ok(()),
    }
}

/// Whether one of these references writes a free name `arguments`.
pub fn write_arguments(references: &[Reference]) -> bool
    ensures { result ≡ writes_free (codes "arguments") (references_of references.now) }
{
    for reference in references {
        if writes_arguments(*reference) {
            return true;
        }
    }
    false
}

#[tactic(auto, using(crate::proofs::DeclaredNames::free_arguments))]
fn writes_arguments(reference: Reference) -> bool
    ensures { result ≡ ((reference_of reference.entry).writes && is_free (codes "arguments") (reference_of reference.entry).to) }
{
    reference.writes && (reference.binding.is_none() && is_arguments(reference.name))
}

// ---- declared again

/// The bindings that more than one identifier declares in a scope, and those of `var` in the head of a
/// for-in or for-of, in some order. Fails on allocation failure alone.
pub fn redeclared(alloc: Global, nodes: &[&Node]) -> Result<Vec<NodeId>, AllocError>
    ensures { IfOk result (λ r. (n : ℕ) → has_number n (ids r.items) ≡ has_number n (spec.written_by_all (seen nodes.now))) }
{
    let mut bindings = Vec::new(alloc);
    for node in nodes {
        add_redeclared(alloc, node, &mut bindings)?;
    }
    Ok(bindings)
}

/// Adds those of one node.
fn add_redeclared(alloc: Global, node: &Node, bindings: &mut Vec<NodeId>) -> Result<(), AllocError>
    ensures { OnOk result ((n : ℕ) → has_number n (ids bindings.new.items) ≡ (has_number n (ids bindings.old.items) || has_number n (spec.written_by node.now))) }
{
    add_repeated_in(alloc, node, bindings)?;
    add_heads(alloc, node, bindings)
}

/// Adds the names that the scope of the node holds more than once.
fn add_repeated_in(alloc: Global, node: &Node, bindings: &mut Vec<NodeId>) -> Result<(), AllocError>
    ensures { OnOk result ((n : ℕ) → has_number n (ids bindings.new.items) ≡ (has_number n (ids bindings.old.items) || has_number n (spec.repeated (scope_names (scope_form (kind_of node.now)) (number_in node.now) (parts_in node.now))))) }
{
    let names = names_of(alloc, node)?;
    add_repeated(alloc, names.as_slice(), bindings)
}

/// The names that the scope of the node holds.
#[tactic(auto, using(crate::proofs::DeclaredNames::repeated_scope))]
fn names_of(alloc: Global, node: &Node) -> Result<Vec<Declared<'_>>, AllocError>
    ensures { IfOk result (λ r. spec.repeated (named r.items) ≡ spec.repeated (scope_names (scope_form (kind_of node.now)) (number_in node.now) (parts_in node.now))) }
{
    let mut names = Vec::new(alloc);
    add_scope_names(scope_form(node.kind()), node.parts(), &mut names)?;
    Ok(names)
}

/// Adds each of these names that stands among those behind it too, the last first.
fn add_repeated(
    alloc: Global,
    names: &[Declared],
    bindings: &mut Vec<NodeId>,
) -> Result<(), AllocError>
    ensures { OnOk result ((n : ℕ) → has_number n (ids bindings.new.items) ≡ (has_number n (ids bindings.old.items) || has_number n (spec.repeated (named names.now)))) }
{
    let mut later = Names::new(alloc);
    for i in (0..names.len()).rev() {
        add_if_later(names[i], &mut later, bindings)?;
    }
    Ok(())
}

/// Adds the name, if it is one of those behind it, and makes it one of these.
fn add_if_later<'a>(
    declared: Declared<'a>,
    later: &mut Names<'a>,
    bindings: &mut Vec<NodeId>,
) -> Result<(), AllocError>
    ensures later { OnOk result (HaveSame later.new (chars declared.entry.name.now ∷ later.old)) }
    ensures bindings { OnOk result (ids bindings.new.items ≡ ids bindings.old.items ++ cond (is_among (chars declared.entry.name.now) later.old) (declared.entry.node.0 ∷ []) []) }
{
    if later.has(declared.name) {
        bindings.push(declared.node)?;
    }
    later.insert(declared.name)
}

/// Adds the names of `var` in the head of a for-in or for-of.
#[tactic(auto, using(crate::proofs::DeclaredNames::head_numbers, crate::proofs::DeclaredNames::no_head))]
fn add_heads(alloc: Global, node: &Node, bindings: &mut Vec<NodeId>) -> Result<(), AllocError>
    ensures { OnOk result (ids bindings.new.items ≡ ids bindings.old.items ++ cond (spec.is_for_each (kind_of node.now)) (numbers_of (var_part (at 0 (parts_in node.now)))) []) }
{
    match node.kind() {
        Kind::ForInStatement | Kind::ForOfStatement => {
            let mut names = Vec::new(alloc);
            add_hoisted_at(Hoist::Var, node.parts(), 0, &mut names)?;
            add_numbers(names.as_slice(), bindings)
        }
        _ => Ok(()),
    }
}

/// Adds all of these.
fn add_numbers(names: &[Declared], bindings: &mut Vec<NodeId>) -> Result<(), AllocError>
    ensures { OnOk result (ids bindings.new.items ≡ ids bindings.old.items ++ numbers_of (named names.now)) }
{
    for declared in names {
        bindings.push(declared.node)?;
    }
    Ok(())
}

// ---- what changes by itself

/// The bindings that imports declare, and those that are named `arguments`. Fails on allocation failure alone.
pub fn changing(alloc: Global, nodes: &[&Node]) -> Result<Vec<NodeId>, AllocError>
    ensures { IfOk result (λ r. ids r.items ≡ spec.changing_in (seen nodes.now)) }
{
    let mut bindings = Vec::new(alloc);
    for node in nodes {
        add_changing(alloc, node, &mut bindings)?;
    }
    Ok(bindings)
}

/// Adds those of one node.
#[tactic(auto, using(crate::proofs::ChangingNames::by_import, crate::proofs::ChangingNames::by_declarator, crate::proofs::ChangingNames::by_function, crate::proofs::ChangingNames::by_function_expression, crate::proofs::ChangingNames::by_arrow, crate::proofs::ChangingNames::by_catch, crate::proofs::ChangingNames::by_none))]
fn add_changing(alloc: Global, node: &Node, bindings: &mut Vec<NodeId>) -> Result<(), AllocError>
    ensures { OnOk result (ids bindings.new.items ≡ ids bindings.old.items ++ spec.changing_by node.now) }
{
    match node.kind() {
        // import { a } from "m";
        Kind::ImportDeclaration => add_imported(alloc, node, bindings),
        // var arguments;
        Kind::VariableDeclarator => add_arguments_bound(alloc, node, bindings),
        // function f(arguments) {}
        Kind::FunctionDeclaration => add_arguments_of_function(alloc, node, bindings),
        Kind::FunctionExpression => add_arguments_of_function(alloc, node, bindings),
        // arguments => 1
        Kind::ArrowFunctionExpression => add_arguments_bound(alloc, node, bindings),
        // catch (arguments) {}
        Kind::CatchClause => add_arguments_bound(alloc, node, bindings),
        _ => Ok(()),
    }
}

/// Adds the names that the first part of a node binds.
fn add_imported(alloc: Global, node: &Node, bindings: &mut Vec<NodeId>) -> Result<(), AllocError>
    ensures { OnOk result (ids bindings.new.items ≡ ids bindings.old.items ++ numbers_of (bound_part no_class (at 0 (parts_in node.now)))) }
{
    let mut names = Vec::new(alloc);
    add_bound_at(node.parts(), 0, &mut names)?;
    add_numbers(names.as_slice(), bindings)
}

/// Adds those named `arguments` that the first part of a node binds.
fn add_arguments_bound(
    alloc: Global,
    node: &Node,
    bindings: &mut Vec<NodeId>,
) -> Result<(), AllocError>
    ensures { OnOk result (ids bindings.new.items ≡ ids bindings.old.items ++ spec.named_arguments (bound_part no_class (at 0 (parts_in node.now)))) }
{
    let mut names = Vec::new(alloc);
    add_bound_at(node.parts(), 0, &mut names)?;
    add_arguments(names.as_slice(), bindings)
}

/// Adds those named `arguments` among the name and the parameters of a function.
fn add_arguments_of_function(
    alloc: Global,
    node: &Node,
    bindings: &mut Vec<NodeId>,
) -> Result<(), AllocError>
    ensures { OnOk result (ids bindings.new.items ≡ ids bindings.old.items ++ spec.named_arguments (bound_part no_class (at 0 (parts_in node.now)) ++ bound_part no_class (at 1 (parts_in node.now)))) }
{
    let mut names = Vec::new(alloc);
    add_bound_at(node.parts(), 0, &mut names)?;
    add_bound_at(node.parts(), 1, &mut names)?;
    add_arguments(names.as_slice(), bindings)
}

/// Adds those of these that are named `arguments`.
fn add_arguments(names: &[Declared], bindings: &mut Vec<NodeId>) -> Result<(), AllocError>
    ensures { OnOk result (ids bindings.new.items ≡ ids bindings.old.items ++ spec.named_arguments (named names.now)) }
{
    for declared in names {
        add_if_arguments(*declared, bindings)?;
    }
    Ok(())
}

fn add_if_arguments(declared: Declared, bindings: &mut Vec<NodeId>) -> Result<(), AllocError>
    ensures { OnOk result (ids bindings.new.items ≡ ids bindings.old.items ++ cond (bytes_eq (codes "arguments") (chars declared.entry.name.now)) (declared.entry.node.0 ∷ []) []) }
{
    if is_arguments(declared.name) {
        bindings.push(declared.node)?;
    }
    Ok(())
}

/// Whether a name is `arguments`.
#[tactic(auto, using(es_base::proofs::Ascii::chars_ascii))]
fn is_arguments(name: &str) -> bool
    ensures { result ≡ bytes_eq (codes "arguments") (chars name.now) }
{
    is_word(name, "arguments")
}

// ---- caught again

/// The names of each catch that a `var` of its block declares again, in some order. Fails on allocation failure alone.
pub fn caught_again(alloc: Global, nodes: &[&Node]) -> Result<Vec<NodeId>, AllocError>
    ensures { IfOk result (λ r. (n : ℕ) → has_number n (ids r.items) ≡ has_number n (spec.caught_again_in (seen nodes.now))) }
{
    let mut bindings = Vec::new(alloc);
    for node in nodes {
        add_caught_again(alloc, node, &mut bindings)?;
    }
    Ok(bindings)
}

/// Adds those of one node.
#[tactic(auto, using(crate::proofs::CaughtNames::in_catch, crate::proofs::CaughtNames::no_catch))]
fn add_caught_again(
    alloc: Global,
    node: &Node,
    bindings: &mut Vec<NodeId>,
) -> Result<(), AllocError>
    ensures { OnOk result ((n : ℕ) → has_number n (ids bindings.new.items) ≡ (has_number n (ids bindings.old.items) || has_number n (spec.caught_again node.now))) }
{
    match node.kind() {
        // catch (e) { var e; }
        Kind::CatchClause => {
            let names = caught_names(alloc, node)?;
            add_repeated(alloc, names.as_slice(), bindings)
        }
        _ => Ok(()),
    }
}

/// The names that the parameter of a catch binds, and those of `var` in its block.
#[tactic(auto, using(crate::proofs::CaughtNames::repeated_names))]
fn caught_names(alloc: Global, node: &Node) -> Result<Vec<Declared<'_>>, AllocError>
    ensures { IfOk result (λ r. spec.repeated (named r.items) ≡ spec.repeated (bound_part no_class (at 0 (parts_in node.now)) ++ var_part (at 1 (parts_in node.now)))) }
{
    let mut names = Vec::new(alloc);
    add_bound_at(node.parts(), 0, &mut names)?;
    add_hoisted_at(Hoist::Var, node.parts(), 1, &mut names)?;
    Ok(names)
}
