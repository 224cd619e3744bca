// What stands for `super(..)` and is not called has definitions alone.

ghost use Rattle.std.specs.Prelude.{◌≡◌, ◌||◌, ℕ, List, IfOk, OnOk};
ghost use Rattle.std.specs.Str.{chars};
ghost use Rattle.es_base.specs.Conforms.{is_among};
ghost use Rattle.es_base.specs.Tree.{child, trees};
ghost use Rattle.es_binding_faults.specs.Seen.{seen};
ghost use Rattle.es_lowered.specs.Definitions as spec;
ghost use Rattle.es_node.specs.View.{kind_of, parts_in};
ghost use Rattle.es_references.specs.References.{reference_of, references_of};
ghost use Rattle.es_owed_definitions.specs.Supers.{is_plain_body, is_this, reads_name};
ghost use Rattle.es_owed_definitions.specs.Views.{definition_views, node_part};

use crate::definition::FieldDefinition;
use crate::forms::add_definitions_at;
use crate::found::{given_name, given_part};
use crate::terms::Terms;
use es_base::kind::Kind;
use es_base::ledger::GeneratedKind;
use es_name_set::Names;
use es_node::node::Node;
use es_references::references::Reference;
use es_tree::expression::SequenceExpressionRef;
use es_tree::function::ArrowFunctionExpressionRef;
use es_validity::class::is_super_call;
use std::alloc::{AllocError, Global};

/// Whether each name among these nodes that stands for `super(..)` is read, or is given `(..) => (super(..), .., this)` with
/// definitions alone. Fails on allocation failure alone.
pub fn supers_stand(
    alloc: Global,
    terms: &Terms,
    references: &[Reference],
    nodes: &[&Node],
) -> Result<bool, AllocError>
    ensures { IfOk result (λ holds. holds ≡ spec.supers_stand terms.now.first terms.now.options.now terms.now.ledger.now (references_of references.now) (seen nodes.now)) }
{
    let read = ReadNames::of(alloc, references)?;
    all_stand(alloc, terms, &read, nodes)
}

#[tactic(auto, using(crate::proofs::SuperForms::supers_more))]
fn all_stand(
    alloc: Global,
    terms: &Terms,
    read: &ReadNames,
    nodes: &[&Node],
) -> Result<bool, AllocError>
    ensures { IfOk result (λ holds. holds ≡ spec.supers_stand terms.now.first terms.now.options.now terms.now.ledger.now (references_of read.now.references.now) (seen nodes.now)) }
{
    for node in nodes {
        if !super_stands(alloc, terms, read, node)? {
            return Ok(false);
        }
    }
    Ok(true)
}

/// The same of one node, if that gives such a name a value. Fails on allocation failure alone.
fn super_stands(
    alloc: Global,
    terms: &Terms,
    read: &ReadNames,
    node: &Node,
) -> Result<bool, AllocError>
    ensures { IfOk result (λ holds. holds ≡ spec.super_stands terms.now.first terms.now.options.now terms.now.ledger.now (references_of read.now.references.now) (kind_of node.now) (parts_in node.now)) }
{
    let name = given_name(node);
    if !is_super_name(terms.ledger.generated_as(name)) || read.has(name) {
        return Ok(true);
    }
    is_plain_super(alloc, terms, given_part(node))
}

fn is_super_name(generated: Option<GeneratedKind>) -> bool
    ensures { result ≡ spec.is_super_name generated }
{
    matches!(generated, Some(GeneratedKind::SuperFn(_)))
}

// ---- names that are read

/// The names that references read.
#[derive(Drop)]
struct ReadNames<'r, 'a> {
    references: &'r [Reference<'a>],
    names: Names<'a>,

    ghost are_read: { (s : List ℕ) → is_among s names ≡ spec.any_reads s (references_of references.now) },
}

impl<'r, 'a> ReadNames<'r, 'a> {
    /// Those that these references read. Fails on allocation failure alone.
    fn of(alloc: Global, references: &'r [Reference<'a>]) -> Result<ReadNames<'r, 'a>, AllocError>
        ensures { IfOk result (λ r. r.references.now ≡ references.now) }
    {
        let names = names_read(alloc, references)?;
        Ok(ReadNames { references, names })
    }

    /// Whether one of the references reads the name.
    fn has(&self, name: &str) -> bool
        ensures { result ≡ spec.any_reads (chars name.now) (references_of self.now.references.now) }
    {
        self.names.has(name)
    }
}

/// The set of the names that these references read. Fails on allocation failure alone.
fn names_read<'a>(alloc: Global, references: &[Reference<'a>]) -> Result<Names<'a>, AllocError>
    ensures { IfOk result (λ names. (s : List ℕ) → is_among s names ≡ spec.any_reads s (references_of references.now)) }
{
    let mut names = Names::new(alloc);
    for reference in references {
        add_if_read(reference, &mut names)?;
    }
    Ok(names)
}

fn add_if_read<'a>(reference: &Reference<'a>, names: &mut Names<'a>) -> Result<(), AllocError>
    ensures { OnOk result ((s : List ℕ) → is_among s names.new ≡ (reads_name s (reference_of reference.now) || is_among s names.old)) }
{
    if reference.writes {
        Ok(())
    } else {
        names.insert(reference.name)
    }
}

// ---- what is given

/// Whether what is given is `(..) => (super(..), .., this)` with definitions alone. Fails on allocation failure alone.
#[tactic(auto, using(crate::proofs::SuperForms::no_arrow, crate::proofs::SuperForms::arrow_node))]
fn is_plain_super(alloc: Global, terms: &Terms, given: Option<&Node>) -> Result<bool, AllocError>
    ensures { IfOk result (λ holds. holds ≡ spec.is_plain_super terms.now.first terms.now.options.now terms.now.ledger.now (node_part given.entry)) }
{
    let Some(given) = given else { return Ok(false) };
    match given.kind() {
        Kind::ArrowFunctionExpression => {
            is_plain_body(
                alloc,
                terms,
                ArrowFunctionExpressionRef::from_node(given).body,
            )
        }
        _ => Ok(false),
    }
}

#[tactic(auto, using(crate::proofs::SuperForms::no_body))]
fn is_plain_body(alloc: Global, terms: &Terms, body: &Node) -> Result<bool, AllocError>
    ensures { IfOk result (λ holds. holds ≡ is_plain_body terms.now.first terms.now.options.now terms.now.ledger.now body.now) }
{
    match body.kind() {
        Kind::SequenceExpression => {
            are_constructions(
                alloc,
                terms,
                SequenceExpressionRef::from_node(body).expressions,
            )
        }
        _ => Ok(false),
    }
}

fn are_constructions(alloc: Global, terms: &Terms, expressions: &[Node]) -> Result<bool, AllocError>
    ensures { IfOk result (λ holds. holds ≡ spec.are_constructions terms.now.first terms.now.options.now terms.now.ledger.now (trees expressions.now)) }
{
    for expression in expressions {
        if !is_construction(alloc, terms, expression)? {
            return Ok(false);
        }
    }
    Ok(true)
}

/// Whether the expression is `super(..)`, `this` or a definition. Fails on allocation failure alone.
#[tactic(auto, using(crate::proofs::SuperForms::construction_node))]
fn is_construction(alloc: Global, terms: &Terms, expression: &Node) -> Result<bool, AllocError>
    ensures { IfOk result (λ holds. holds ≡ spec.is_construction terms.now.first terms.now.options.now terms.now.ledger.now (child expression.now)) }
{
    if is_this(expression) || is_super_call(expression) {
        return Ok(true);
    }
    let mut definitions = Vec::new(alloc);
    add_definitions_at(terms, expression, &mut definitions)?;
    Ok(any_definition(definitions.as_slice()))
}

fn is_this(node: &Node) -> bool
    ensures { result ≡ is_this (kind_of node.now) }
{
    matches!(node.kind(), Kind::ThisExpression)
}

fn any_definition(definitions: &[FieldDefinition]) -> bool
    ensures { result ≡ spec.any_definition (definition_views definitions.now) }
{
    !definitions.is_empty()
}
