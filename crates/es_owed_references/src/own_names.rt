// The names of classes that a lowering may not take, and where they may not be read.
//
// The definitions function by function: the declaration of each class expression without a name, and each new declarator of a
// class, is sought among all nodes of the source, and the references to it among all.

ghost use Rattle.std.specs.Prelude.{◌≡◌, ℕ, ◌++◌, ◌∷◌, [], option_map, IfOk, OnOk};
ghost use Rattle.es_base.specs.Preorder.{preorder_of_part};
ghost use Rattle.es_base.specs.Tree.{nullable};
ghost use Rattle.es_binding_faults.specs.Seen.{seen};
ghost use Rattle.es_lowered.specs.ClassNames as classes;
ghost use Rattle.es_lowered.specs.OwnNames as spec;
ghost use Rattle.es_owed_references.specs.OwnNameReads.{reads_by};
ghost use Rattle.es_references.specs.Frames.{ids};
ghost use Rattle.es_references.specs.References.{references_of};
ghost use Rattle.es_steps.specs.References.{has_number};

use crate::lowered_reads::Reads;
use crate::numbers::{any_among, set_of};
use crate::reads::{is_read_in, nodes_of, references_to};
use es_base::ids::NodeId;
use es_base::kind::Kind;
use es_binding_faults::numbers::Numbers;
use es_generated::ledger::Ledger;
use es_node::node::Node;
use es_owed::listed::Listed;
use es_owed::numbers::numbers_of;
use es_references::references::Reference;
use es_tree::class::{ClassDeclarationRef, ClassExpressionRef};
use es_tree::statement::VariableDeclaratorRef;
use std::alloc::{AllocError, Global};

/// Whether no name of a class is read where it is not there yet: that of a declaration in a class expression which it became
/// without its name, and that of a new declarator in what it is given or in a function of a generated name that is called there.
/// Fails on allocation failure alone.
pub fn own_names_stay(
    alloc: Global,
    ledger: &Ledger,
    source: &Listed,
    lowered: &Listed,
) -> Result<bool, AllocError>
    ensures { IfOk result (λ holds. holds ≡ spec.own_names_stay ledger.now source.now.program.now lowered.now.program.now) }
{
    let references = lowered.references.list.as_slice();
    let nodes = lowered.nodes.as_slice();
    if !none_loses_name(alloc, source.nodes.as_slice(), references, nodes)? {
        return Ok(false);
    }
    let reads = Reads::of(alloc, ledger, references, nodes)?;
    let declared = DeclaredClasses::of(alloc, source.nodes.as_slice())?;
    none_reads_itself(alloc, &declared, &reads, nodes)
}

// ---- a class expression that was a declaration, without its name

fn none_loses_name(
    alloc: Global,
    source: &[&Node],
    references: &[Reference],
    nodes: &[&Node],
) -> Result<bool, AllocError>
    ensures { IfOk result (λ holds. holds ≡ spec.none_loses_name (seen source.now) (references_of references.now) (seen nodes.now)) }
{
    for node in nodes {
        if loses_name(alloc, source, references, node)? {
            return Ok(false);
        }
    }
    Ok(true)
}

/// Whether the node is a class expression without a name that is read inside by the name that it had. Fails on allocation
/// failure alone.
#[tactic(auto, using(crate::proofs::NameReads::keeps_name, crate::proofs::NameReads::unnamed_class, crate::proofs::NameReads::named_class))]
fn loses_name(
    alloc: Global,
    source: &[&Node],
    references: &[Reference],
    node: &Node,
) -> Result<bool, AllocError>
    ensures { IfOk result (λ loses. loses ≡ spec.loses_name (seen source.now) (references_of references.now) node.now) }
{
    match node.kind() {
        // (class { static x = A; })
        Kind::ClassExpression => {
            let class = ClassExpressionRef::from_node(node);
            match class.id {
                Some(_) => Ok(false),
                None => {
                    let identifiers = identifiers_at(alloc, class.node_id.0, source)?;
                    is_read_in(alloc, identifiers.as_slice(), references, class.body)
                }
            }
        }
        _ => Ok(false),
    }
}

/// The identifiers of the class declarations of this number. Fails on allocation failure alone.
fn identifiers_at(alloc: Global, class: u32, nodes: &[&Node]) -> Result<Vec<u32>, AllocError>
    ensures { IfOk result (λ numbers. numbers.items ≡ spec.identifiers_at class (seen nodes.now)) }
{
    let mut numbers = Vec::new(alloc);
    for node in nodes {
        add_identifier_at(class, node, &mut numbers)?;
    }
    Ok(numbers)
}

#[tactic(auto, using(crate::proofs::NameReads::no_identifier_at, crate::proofs::NameReads::unnamed_at, crate::proofs::NameReads::identifier_node_at))]
fn add_identifier_at(class: u32, node: &Node, numbers: &mut Vec<u32>) -> Result<(), AllocError>
    ensures { OnOk result (numbers.new.items ≡ numbers.old.items ++ spec.identifier_at class node.now) }
{
    match node.kind() {
        // class A {}
        Kind::ClassDeclaration => {
            let declaration = ClassDeclarationRef::from_node(node);
            match declaration.id {
                Some(id) => {
                    if class == declaration.node_id.0 {
                        numbers.push(id.node_id().0)?;
                    }
                    Ok(())
                }
                None => Ok(()),
            }
        }
        _ => Ok(()),
    }
}

// ---- a `let` of a declared class

/// The nodes of a source, and the identifiers of its class declarations.
#[derive(Drop)]
struct DeclaredClasses<'r, 'a> {
    nodes: &'r [&'a Node],
    identifiers: Numbers,

    ghost identifiers_are: { (n : ℕ) → has_number n identifiers ≡ has_number n (spec.class_identifiers (seen nodes.now)) },
}

impl<'r, 'a> DeclaredClasses<'r, 'a> {
    /// Those of these nodes. Fails on allocation failure alone.
    fn of(alloc: Global, nodes: &'r [&'a Node]) -> Result<DeclaredClasses<'r, 'a>, AllocError>
        ensures { IfOk result (λ d. seen d.nodes.now ≡ seen nodes.now) }
    {
        let numbers = class_identifiers(alloc, nodes)?;
        let identifiers = Numbers::of(alloc, numbers.as_slice())?;
        Ok(DeclaredClasses { nodes, identifiers })
    }

    /// Whether the identifier is that of a class declaration.
    fn has(&self, identifier: NodeId) -> bool
        ensures { result ≡ has_number identifier.0 (spec.class_identifiers (seen self.now.nodes.now)) }
    {
        self.identifiers.has(identifier)
    }
}

/// The identifiers of class declarations. Fails on allocation failure alone.
fn class_identifiers(alloc: Global, nodes: &[&Node]) -> Result<Vec<NodeId>, AllocError>
    ensures { IfOk result (λ r. ids r.items ≡ spec.class_identifiers (seen nodes.now)) }
{
    let mut identifiers = Vec::new(alloc);
    for node in nodes {
        add_class_identifier(node, &mut identifiers)?;
    }
    Ok(identifiers)
}

#[tactic(auto, using(crate::proofs::NameReads::no_class_identifier, crate::proofs::NameReads::unnamed_class_identifier, crate::proofs::NameReads::class_identifier_node))]
fn add_class_identifier(node: &Node, identifiers: &mut Vec<NodeId>) -> Result<(), AllocError>
    ensures { OnOk result (ids identifiers.new.items ≡ ids identifiers.old.items ++ spec.class_identifier node.now) }
{
    match node.kind() {
        // class A {}
        Kind::ClassDeclaration => match ClassDeclarationRef::from_node(node).id {
            Some(id) => {
                identifiers.push(id.node_id())?;
                Ok(())
            }
            None => Ok(()),
        },
        _ => Ok(()),
    }
}

fn none_reads_itself(
    alloc: Global,
    declared: &DeclaredClasses,
    reads: &Reads,
    nodes: &[&Node],
) -> Result<bool, AllocError>
    ensures { IfOk result (λ holds. holds ≡ spec.none_reads_itself reads.now.ledger.now (classes.moved_functions reads.now.ledger.now (seen reads.now.nodes.now)) (seen declared.now.nodes.now) (seen reads.now.nodes.now) (references_of reads.now.references.now) (seen nodes.now)) }
{
    for node in nodes {
        if reads_itself(alloc, declared, reads, node)? {
            return Ok(false);
        }
    }
    Ok(true)
}

/// Whether the node is a declarator of a class that the source declares, which is read before it is there. Fails on allocation
/// failure alone.
#[tactic(auto, using(crate::proofs::NameReads::no_declarator, crate::proofs::NameReads::declarator_node))]
fn reads_itself(
    alloc: Global,
    declared: &DeclaredClasses,
    reads: &Reads,
    node: &Node,
) -> Result<bool, AllocError>
    ensures { IfOk result (λ holds. holds ≡ spec.reads_itself reads.now.ledger.now (classes.moved_functions reads.now.ledger.now (seen reads.now.nodes.now)) (seen declared.now.nodes.now) (seen reads.now.nodes.now) (references_of reads.now.references.now) node.now) }
{
    match node.kind() {
        // let A = class { static x = A; };
        Kind::VariableDeclarator => {
            reads_own(
                alloc,
                declared,
                reads,
                VariableDeclaratorRef::from_node(node),
            )
        }
        _ => Ok(false),
    }
}

/// Whether a declarator that the source does not have declares one of its classes, which is read in what it is given or in a
/// function of a generated name that is called there. Fails on allocation failure alone.
#[tactic(auto, using(crate::proofs::NameReads::undeclared))]
fn reads_own(
    alloc: Global,
    declared: &DeclaredClasses,
    reads: &Reads,
    declarator: VariableDeclaratorRef,
) -> Result<bool, AllocError>
    ensures { IfOk result (λ holds. holds ≡ reads_by reads.now.ledger.now (classes.moved_functions reads.now.ledger.now (seen reads.now.nodes.now)) (seen declared.now.nodes.now) (seen reads.now.nodes.now) (references_of reads.now.references.now) declarator.entry.node_id.0 declarator.entry.id.now (nullable (option_map (λ x. x.now) declarator.entry.init))) }
{
    let identifier = declarator.id.node_id();
    if !declared.has(identifier) {
        return Ok(false);
    }
    if any_declares(declarator.node_id.0, identifier.0, declared.nodes) {
        return Ok(false);
    }
    is_read_early(
        alloc,
        reads,
        declarator.node_id.0,
        identifier.0,
        declarator.init,
    )
}

/// Whether the identifier of a declarator is read in what it is given, or in a function of a generated name that is called there
/// and does not hold the declarator. Fails on allocation failure alone.
fn is_read_early(
    alloc: Global,
    reads: &Reads,
    declarator: u32,
    identifier: u32,
    value: Option<&Node>,
) -> Result<bool, AllocError>
    ensures { IfOk result (λ holds. holds ≡ classes.any_among (classes.numbers_of (preorder_of_part (nullable (option_map (λ x. x.now) value.entry)))) (classes.reaching reads.now.ledger.now (classes.outside_class (declarator ∷ []) (classes.moved_functions reads.now.ledger.now (seen reads.now.nodes.now))) (references_of reads.now.references.now) (seen reads.now.nodes.now) (spec.references_to (identifier ∷ []) (references_of reads.now.references.now)))) }
{
    let declarators = [declarator];
    let functions = reads.functions_outside(alloc, &declarators)?;
    let identifiers = [identifier];
    let numbers = references_to(alloc, &identifiers, reads.references)?;
    let reached = reads.reaching(alloc, functions.as_slice(), numbers.as_slice())?;
    any_stands_in(alloc, reached.as_slice(), value)
}

/// Whether a node of one of these numbers stands in a tree that may be absent. Fails on allocation failure alone.
#[tactic(auto, using(crate::proofs::Steps::same_among))]
fn any_stands_in(alloc: Global, numbers: &[u32], tree: Option<&Node>) -> Result<bool, AllocError>
    ensures { IfOk result (λ holds. holds ≡ classes.any_among (classes.numbers_of (preorder_of_part (nullable (option_map (λ x. x.now) tree.entry)))) numbers.now) }
{
    let nodes = nodes_of(alloc, tree)?;
    let below = numbers_of(alloc, nodes.as_slice())?;
    let set = set_of(alloc, below.as_slice())?;
    Ok(any_among(&set, numbers))
}

/// Whether one of these nodes is this declarator of this identifier.
fn any_declares(declarator: u32, identifier: u32, nodes: &[&Node]) -> bool
    ensures { result ≡ spec.any_declares declarator identifier (seen nodes.now) }
{
    for node in nodes {
        if declares_by(declarator, identifier, node) {
            return true;
        }
    }
    false
}

#[tactic(auto, using(crate::proofs::NameReads::declares_nothing, crate::proofs::NameReads::declares_node))]
fn declares_by(declarator: u32, identifier: u32, node: &Node) -> bool
    ensures { result ≡ spec.declares_by declarator identifier node.now }
{
    match node.kind() {
        // x = 1
        Kind::VariableDeclarator => {
            let declared = VariableDeclaratorRef::from_node(node);
            declarator == declared.node_id.0 && identifier == declared.id.node_id().0
        }
        _ => false,
    }
}
