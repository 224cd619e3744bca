// What is given in the head of a loop.

ghost use Rattle.std.specs.Prelude.{◌≡◌, ◌++◌, ◌∷◌, [], cond, option_map, IfOk, OnOk};
ghost use Rattle.es_base.specs.Preorder.{preorder};
ghost use Rattle.es_base.specs.Tree.{nullable, trees};
ghost use Rattle.es_binding_faults.specs.Seen.{seen};
ghost use Rattle.es_lowered.specs.ClassNames.{numbers_of};
ghost use Rattle.es_lowered.specs.HeadValues as heads;
ghost use Rattle.es_name_set.specs.Names.{HaveSame};
ghost use Rattle.es_node.specs.View.{kind_of, parts_in};
ghost use Rattle.es_owed_lets.specs.Heads as spec;
ghost use Rattle.es_references.specs.References.{reference_of, references_of};

use crate::numbers::set_of;
use es_base::kind::Kind;
use es_binding_faults::numbers::Numbers;
use es_binding_faults::preorder::preorder;
use es_generated::ledger::Ledger;
use es_name_set::Names;
use es_node::node::Node;
use es_references::references::Reference;
use es_tree::statement::{ForInStatementRef, VariableDeclarationRef, VariableDeclaratorRef};
use std::alloc::{AllocError, Global};

/// Whether each generated name that is given a value in the head of a `for` over keys, where that is evaluated in front of the
/// loop, is read there alone. The references of the program are these, and so are its nodes. Fails on allocation failure alone.
#[tactic(auto, using(crate::proofs::HeadNames::heads_more))]
pub fn head_values_stay(
    alloc: Global,
    ledger: &Ledger,
    references: &[Reference],
    nodes: &[&Node],
) -> Result<bool, AllocError>
    ensures { IfOk result (λ holds. holds ≡ heads.head_values_stay ledger.now (references_of references.now) (seen nodes.now)) }
{
    for node in nodes {
        if !head_stays(alloc, ledger, references, node)? {
            return Ok(false);
        }
    }
    Ok(true)
}

/// Whether the generated names that are given a value in the node, if that is such a head, are read there alone. Fails on
/// allocation failure alone.
#[tactic(auto, using(crate::proofs::HeadNames::head_node, crate::proofs::HeadNames::no_value))]
fn head_stays(
    alloc: Global,
    ledger: &Ledger,
    references: &[Reference],
    node: &Node,
) -> Result<bool, AllocError>
    ensures { IfOk result (λ holds. holds ≡ spec.head_stays ledger.now (references_of references.now) node.now) }
{
    match head_value(node) {
        Some(value) => names_stay(alloc, ledger, references, value),
        None => Ok(true),
    }
}

/// Whether the generated names that are given a value in this one are read in it alone. Fails on allocation failure alone.
#[tactic(auto, using(crate::proofs::HeadNames::stay_by_name))]
fn names_stay(
    alloc: Global,
    ledger: &Ledger,
    references: &[Reference],
    value: &Node,
) -> Result<bool, AllocError>
    ensures { IfOk result (λ holds. holds ≡ heads.given_inside ledger.now (numbers_of (preorder value.now)) (references_of references.now) (references_of references.now)) }
{
    let nodes = preorder(alloc, value)?;
    let inside = set_of(alloc, nodes.as_slice())?;
    let given = names_given(alloc, ledger, &inside, references)?;
    let names = set_of_names(alloc, given.as_slice())?;
    Ok(stay_inside(&names, &inside, references))
}

// ---- such heads

/// The value in the head of a loop, if it has one.
#[tactic(auto, using(crate::proofs::HeadNames::no_head, crate::proofs::HeadNames::loop_node))]
fn head_value(node: &Node) -> Option<&Node>
    ensures { nullable (option_map (λ x. x.now) result) ≡ heads.head_value (kind_of node.now) (parts_in node.now) }
{
    match node.kind() {
        // for (var a = e in o) ;
        Kind::ForInStatement => declared_value(ForInStatementRef::from_node(node).left),
        _ => None,
    }
}

/// The value of the first declarator of a declaration.
#[tactic(auto, using(crate::proofs::HeadNames::declaration_node, crate::proofs::HeadNames::no_declaration))]
fn declared_value(node: &Node) -> Option<&Node>
    ensures { nullable (option_map (λ x. x.now) result) ≡ spec.declared_value node.now }
{
    match node.kind() {
        // var a = e
        Kind::VariableDeclaration => {
            first_value(VariableDeclarationRef::from_node(node).declarations)
        }
        _ => None,
    }
}

#[tactic(auto, using(crate::proofs::HeadNames::first_node))]
fn first_value(declarators: &[Node]) -> Option<&Node>
    ensures { nullable (option_map (λ x. x.now) result) ≡ heads.first_value (trees declarators.now) }
{
    match declarators {
        [first, ..] => value_of(first),
        [] => None,
    }
}

/// The value of a declarator.
#[tactic(auto, using(crate::proofs::HeadNames::declarator_node, crate::proofs::HeadNames::no_declarator))]
fn value_of(node: &Node) -> Option<&Node>
    ensures { nullable (option_map (λ x. x.now) result) ≡ spec.value_of node.now }
{
    match node.kind() {
        // a = e
        Kind::VariableDeclarator => VariableDeclaratorRef::from_node(node).init,
        _ => None,
    }
}

// ---- names

/// The generated names that are given a value by references inside. Fails on allocation failure alone.
fn names_given<'a>(
    alloc: Global,
    ledger: &Ledger,
    inside: &Numbers,
    references: &[Reference<'a>],
) -> Result<Vec<&'a str>, AllocError>
    ensures { IfOk result (λ r. spec.spelled r.items ≡ spec.names_given ledger.now inside.now (references_of references.now)) }
{
    let mut names = Vec::new(alloc);
    for reference in references {
        add_if_given(ledger, inside, *reference, &mut names)?;
    }
    Ok(names)
}

fn add_if_given<'a>(
    ledger: &Ledger,
    inside: &Numbers,
    reference: Reference<'a>,
    names: &mut Vec<&'a str>,
) -> Result<(), AllocError>
    ensures { OnOk result (spec.spelled names.new.items ≡ spec.spelled names.old.items ++ cond (spec.is_given ledger.now inside.now (reference_of reference.entry)) ((reference_of reference.entry).spelling ∷ []) []) }
{
    if is_given(ledger, inside, reference) {
        names.push(reference.name)?;
    }
    Ok(())
}

/// Whether the reference gives a generated name a value inside.
fn is_given(ledger: &Ledger, inside: &Numbers, reference: Reference) -> bool
    ensures { result ≡ spec.is_given ledger.now inside.now (reference_of reference.entry) }
{
    reference.writes && (ledger.is_generated(reference.name) && inside.has(reference.node))
}

/// Whether the references to these names stand inside.
fn stay_inside(names: &Names, inside: &Numbers, references: &[Reference]) -> bool
    ensures { result ≡ spec.stay_inside names.now inside.now (references_of references.now) }
{
    for reference in references {
        if names.has(reference.name) && !inside.has(reference.node) {
            return false;
        }
    }
    true
}

/// The set of these names. Fails on allocation failure alone.
fn set_of_names<'a>(alloc: Global, strings: &[&'a str]) -> Result<Names<'a>, AllocError>
    ensures { IfOk result (λ names. HaveSame names (spec.spelled strings.now)) }
{
    let mut names = Names::new(alloc);
    for string in strings {
        names.insert(*string)?;
    }
    Ok(names)
}
