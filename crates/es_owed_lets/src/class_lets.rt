// What is given to the variables that class declarations become.
//
// Each new declarator is sought among the class declarations of the source, if its identifier or its class is one of theirs.

ghost use Rattle.std.specs.Prelude.{◌≡◌, ◌++◌, ◌||◌, ℕ, option_map, IfOk, OnOk};
ghost use Rattle.es_base.specs.Preorder.{number_of, preorder_of_part};
ghost use Rattle.es_base.specs.Tree.{nullable};
ghost use Rattle.es_binding_faults.specs.Seen.{seen};
ghost use Rattle.es_lowered.specs.ClassLets as lets;
ghost use Rattle.es_lowered.specs.ClassNames.{is_none, numbers_of};
ghost use Rattle.es_owed_lets.specs.Lets as spec;
ghost use Rattle.es_references.specs.Frames.{ids};
ghost use Rattle.es_steps.specs.KeptNodes as kept;
ghost use Rattle.es_steps.specs.References.{has_number};
ghost use Rattle.es_steps.specs.Scopes as scopes;

use crate::numbers::{add_nodes, are_new_or_among, set_of};
use es_base::ids::NodeId;
use es_base::kind::Kind;
use es_binding_faults::numbers::Numbers;
use es_binding_faults::preorder::preorder;
use es_node::node::Node;
use es_owed::classes::class_below;
use es_owed_references::reads::nodes_of;
use es_tree::class::{ClassDeclarationRef, ClassExpressionRef};
use es_tree::statement::VariableDeclaratorRef;
use std::alloc::{AllocError, Global};

/// Whether each new declarator of the lowered program that declares a class of the source is given nothing of the source but that
/// class, and none declares what the name of a class expression was. The nodes of the source are these. Fails on allocation
/// failure alone.
pub fn class_lets_fit(
    alloc: Global,
    first: u32,
    source: &[&Node],
    lowered: &Node,
) -> Result<bool, AllocError>
    ensures { IfOk result (λ holds. holds ≡ lets.class_lets_fit first (seen source.now) lowered.now) }
{
    let classes = SourceClasses::of(alloc, source)?;
    let nodes = preorder(alloc, lowered)?;
    let holds = all_fit(alloc, first, &classes, nodes.as_slice())?;
    Ok(holds)
}

fn all_fit(
    alloc: Global,
    first: u32,
    source: &SourceClasses,
    nodes: &[&Node],
) -> Result<bool, AllocError>
    ensures { IfOk result (λ holds. holds ≡ spec.all_fit first (seen source.now.nodes.now) (seen nodes.now)) }
{
    for node in nodes {
        if !fits(alloc, first, source, node)? {
            return Ok(false);
        }
    }
    Ok(true)
}

#[tactic(auto, using(crate::proofs::ClassLets::no_declarator, crate::proofs::ClassLets::declarator_node))]
fn fits(alloc: Global, first: u32, source: &SourceClasses, node: &Node) -> Result<bool, AllocError>
    ensures { IfOk result (λ holds. holds ≡ spec.fits first (seen source.now.nodes.now) node.now) }
{
    match node.kind() {
        // let A = class {};
        Kind::VariableDeclarator => {
            declarator_fits(alloc, first, source, VariableDeclaratorRef::from_node(node))
        }
        _ => Ok(true),
    }
}

/// Whether the declarator is one of the source, or declares no name of a class expression and what it is given fits. Fails on
/// allocation failure alone.
#[tactic(auto, using(crate::proofs::ClassLets::kept_fits, crate::proofs::ClassLets::named_fits_not, crate::proofs::ClassLets::new_fits, es_owed::proofs::Nodes::number_of_node))]
fn declarator_fits(
    alloc: Global,
    first: u32,
    source: &SourceClasses,
    declarator: VariableDeclaratorRef,
) -> Result<bool, AllocError>
    ensures { IfOk result (λ holds. holds ≡ lets.let_fits first (seen source.now.nodes.now) declarator.entry.node_id.0 (number_of declarator.entry.id.now) (nullable (option_map (λ x. x.now) declarator.entry.init))) }
{
    if source.has(declarator.node_id) {
        return Ok(true);
    }
    let identifier = declarator.id.node_id();
    if source.names_expression(identifier) {
        return Ok(false);
    }
    initializer_fits(alloc, first, source, identifier, declarator.init)
}

/// Whether an initializer holds nothing of the source but the class that is declared by this identifier or, without one, by the
/// class expression in it; any fits where none is. Fails on allocation failure alone.
fn initializer_fits(
    alloc: Global,
    first: u32,
    source: &SourceClasses,
    identifier: NodeId,
    value: Option<&Node>,
) -> Result<bool, AllocError>
    ensures { IfOk result (λ holds. holds ≡ lets.initializer_fits first (seen source.now.nodes.now) (lets.nodes_of_declared identifier.0 (scopes.class_in (nullable (option_map (λ x. x.now) value.entry))) (seen source.now.nodes.now)) (numbers_of (preorder_of_part (nullable (option_map (λ x. x.now) value.entry))))) }
{
    let nodes = nodes_of(alloc, value)?;
    let class = class_of(alloc, value)?;
    let declared = source.declared(alloc, identifier.0, class)?;
    hold_nothing_else(alloc, first, declared.as_slice(), nodes.as_slice())
}

/// Whether these nodes are new or among those that are declared, if any are. Fails on allocation failure alone.
#[tactic(auto, using(crate::proofs::NodeNumbers::same_new))]
fn hold_nothing_else(
    alloc: Global,
    first: u32,
    declared: &[&Node],
    nodes: &[&Node],
) -> Result<bool, AllocError>
    ensures { IfOk result (λ holds. holds ≡ (is_none (numbers_of (seen declared.now)) || kept.are_new_or_among first (numbers_of (seen declared.now)) (numbers_of (seen nodes.now)))) }
{
    if is_none(declared) {
        return Ok(true);
    }
    let there = set_of(alloc, declared)?;
    Ok(are_new_or_among(first, &there, nodes))
}

fn is_none(nodes: &[&Node]) -> bool
    ensures { result ≡ is_none (numbers_of (seen nodes.now)) }
{
    match nodes {
        [_, ..] => false,
        [] => true,
    }
}

/// The number of the first class expression in an initializer, if there is one. Fails on allocation failure alone.
fn class_of(alloc: Global, value: Option<&Node>) -> Result<Option<u32>, AllocError>
    ensures { IfOk result (λ class. class ≡ scopes.class_in (nullable (option_map (λ x. x.now) value.entry))) }
{
    match value {
        Some(node) => class_below(alloc, node),
        None => Ok(None),
    }
}

// ---- the classes of a source

/// The nodes of a source, and its classes.
#[derive(Drop)]
struct SourceClasses<'r, 'a> {
    nodes: &'r [&'a Node],
    numbers: Numbers,
    /// The own names of class expressions.
    own_names: Numbers,
    /// The class declarations.
    declarations: Vec<&'a Node>,
    /// Their identifiers, and the numbers of those without one.
    keys: Numbers,

    ghost numbers_are: { (n : ℕ) → has_number n numbers ≡ has_number n (numbers_of (seen nodes.now)) },
    ghost own_names_are: { (n : ℕ) → has_number n own_names ≡ has_number n (spec.own_names (seen nodes.now)) },
    ghost declarations_are: { seen declarations.items ≡ spec.declarations (seen nodes.now) },
    ghost keys_are: { (n : ℕ) → has_number n keys ≡ has_number n (spec.keys (spec.declarations (seen nodes.now))) },
}

impl<'r, 'a> SourceClasses<'r, 'a> {
    /// Those of these nodes. Fails on allocation failure alone.
    fn of(alloc: Global, nodes: &'r [&'a Node]) -> Result<SourceClasses<'r, 'a>, AllocError>
        ensures { IfOk result (λ s. seen s.nodes.now ≡ seen nodes.now) }
    {
        let numbers = set_of(alloc, nodes)?;
        let names = own_names(alloc, nodes)?;
        let own_names = Numbers::of(alloc, names.as_slice())?;
        let declarations = declarations(alloc, nodes)?;
        let numbers_of_declarations = keys(alloc, declarations.as_slice())?;
        let keys = Numbers::of(alloc, numbers_of_declarations.as_slice())?;
        Ok(SourceClasses {
            nodes,
            numbers,
            own_names,
            declarations,
            keys,
        })
    }

    /// Whether a node of the source has this number.
    fn has(&self, node: NodeId) -> bool
        ensures { result ≡ has_number node.0 (numbers_of (seen self.now.nodes.now)) }
    {
        self.numbers.has(node)
    }

    /// Whether the identifier is the own name of a class expression.
    #[tactic(auto, using(crate::proofs::ClassLets::names_among))]
    fn names_expression(&self, identifier: NodeId) -> bool
        ensures { result ≡ lets.names_expression identifier.0 (seen self.now.nodes.now) }
    {
        self.own_names.has(identifier)
    }

    /// The nodes of the class declarations of this identifier, and of those without one that have the number of the class. Fails
    /// on allocation failure alone.
    #[tactic(auto, using(crate::proofs::ClassLets::declared_alone, crate::proofs::ClassLets::declared_nowhere))]
    fn declared(
        &self,
        alloc: Global,
        identifier: u32,
        class: Option<u32>,
    ) -> Result<Vec<&'a Node>, AllocError>
        ensures { IfOk result (λ r. numbers_of (seen r.items) ≡ lets.nodes_of_declared identifier class (seen self.now.nodes.now)) }
    {
        if self.has_key(identifier, class) {
            declared_among(alloc, identifier, class, self.declarations.as_slice())
        } else {
            Ok(Vec::new(alloc))
        }
    }

    /// Whether one of the two numbers is that of an identifier of a class declaration or of a class declaration without one.
    fn has_key(&self, identifier: u32, class: Option<u32>) -> bool
        ensures { result ≡ spec.has_key identifier class (spec.keys (spec.declarations (seen self.now.nodes.now))) }
    {
        if self.keys.has(NodeId(identifier)) {
            return true;
        }
        match class {
            Some(class) => self.keys.has(NodeId(class)),
            None => false,
        }
    }
}

/// The own names of class expressions among these nodes. Fails on allocation failure alone.
fn own_names(alloc: Global, nodes: &[&Node]) -> Result<Vec<NodeId>, AllocError>
    ensures { IfOk result (λ r. ids r.items ≡ spec.own_names (seen nodes.now)) }
{
    let mut names = Vec::new(alloc);
    for node in nodes {
        add_own_name(node, &mut names)?;
    }
    Ok(names)
}

#[tactic(auto, using(crate::proofs::ClassLets::no_own_name, crate::proofs::ClassLets::own_name_node))]
fn add_own_name(node: &Node, names: &mut Vec<NodeId>) -> Result<(), AllocError>
    ensures { OnOk result (ids names.new.items ≡ ids names.old.items ++ spec.own_name node.now) }
{
    match node.kind() {
        // (class A {})
        Kind::ClassExpression => add_identifier(ClassExpressionRef::from_node(node).id, names),
        _ => Ok(()),
    }
}

/// Adds the number of an identifier, if there is one. Fails on allocation failure alone.
#[tactic(auto, using(es_owed::proofs::Nodes::number_of_node))]
fn add_identifier(identifier: Option<&Node>, numbers: &mut Vec<NodeId>) -> Result<(), AllocError>
    ensures { OnOk result (ids numbers.new.items ≡ ids numbers.old.items ++ spec.identifier_in (nullable (option_map (λ x. x.now) identifier.entry))) }
{
    if let Some(identifier) = identifier {
        numbers.push(identifier.node_id())?;
    }
    Ok(())
}

/// The class declarations among these nodes. Fails on allocation failure alone.
fn declarations<'a>(alloc: Global, nodes: &[&'a Node]) -> Result<Vec<&'a Node>, AllocError>
    ensures { IfOk result (λ r. seen r.items ≡ spec.declarations (seen nodes.now)) }
{
    let mut declarations = Vec::new(alloc);
    for node in nodes {
        add_declaration(node, &mut declarations)?;
    }
    Ok(declarations)
}

#[tactic(auto, using(crate::proofs::ClassLets::no_declaration, crate::proofs::ClassLets::declaration_node))]
fn add_declaration<'a>(node: &'a Node, declarations: &mut Vec<&'a Node>) -> Result<(), AllocError>
    ensures { OnOk result (seen declarations.new.items ≡ seen declarations.old.items ++ spec.declaration_at node.now) }
{
    match node.kind() {
        // class A {}
        Kind::ClassDeclaration => {
            declarations.push(node)?;
            Ok(())
        }
        _ => Ok(()),
    }
}

/// What class declarations are found by: their identifiers, and the numbers of those without one. Fails on allocation failure
/// alone.
fn keys(alloc: Global, declarations: &[&Node]) -> Result<Vec<NodeId>, AllocError>
    ensures { IfOk result (λ r. ids r.items ≡ spec.keys (seen declarations.now)) }
{
    let mut keys = Vec::new(alloc);
    for declaration in declarations {
        add_key(declaration, &mut keys)?;
    }
    Ok(keys)
}

#[tactic(auto, using(crate::proofs::ClassLets::no_key, crate::proofs::ClassLets::named_key, crate::proofs::ClassLets::unnamed_key, es_owed::proofs::Nodes::number_of_node))]
fn add_key(declaration: &Node, keys: &mut Vec<NodeId>) -> Result<(), AllocError>
    ensures { OnOk result (ids keys.new.items ≡ ids keys.old.items ++ spec.key_of declaration.now) }
{
    match declaration.kind() {
        Kind::ClassDeclaration => {
            let class = ClassDeclarationRef::from_node(declaration);
            match class.id {
                // class A {}
                Some(id) => {
                    keys.push(id.node_id())?;
                    Ok(())
                }
                // export default class {}
                None => {
                    keys.push(class.node_id)?;
                    Ok(())
                }
            }
        }
        _ => Ok(()),
    }
}

/// The nodes of those of these class declarations that are declared by the identifier or, without one, have the number of the
/// class. Fails on allocation failure alone.
#[tactic(auto, using(crate::proofs::ClassLets::declared_more))]
fn declared_among<'a>(
    alloc: Global,
    identifier: u32,
    class: Option<u32>,
    declarations: &[&'a Node],
) -> Result<Vec<&'a Node>, AllocError>
    ensures { IfOk result (λ r. numbers_of (seen r.items) ≡ lets.nodes_of_declared identifier class (seen declarations.now)) }
{
    let mut nodes = Vec::new(alloc);
    for declaration in declarations {
        add_if_declared(alloc, identifier, class, declaration, &mut nodes)?;
    }
    Ok(nodes)
}

#[tactic(auto, using(crate::proofs::NodeNumbers::numbers_both))]
fn add_if_declared<'a>(
    alloc: Global,
    identifier: u32,
    class: Option<u32>,
    declaration: &'a Node,
    nodes: &mut Vec<&'a Node>,
) -> Result<(), AllocError>
    ensures { OnOk result (numbers_of (seen nodes.new.items) ≡ numbers_of (seen nodes.old.items) ++ spec.declared_at identifier class declaration.now) }
{
    if is_declared(identifier, class, declaration) {
        let below = preorder(alloc, declaration)?;
        add_nodes(below.as_slice(), nodes)
    } else {
        Ok(())
    }
}

/// Whether the node is a class declaration of this identifier or, without one, has the number of the class.
#[tactic(auto, using(crate::proofs::ClassLets::not_declared, crate::proofs::ClassLets::named_declared, crate::proofs::ClassLets::unnamed_declared, es_owed::proofs::Nodes::number_of_node))]
fn is_declared(identifier: u32, class: Option<u32>, declaration: &Node) -> bool
    ensures { result ≡ spec.is_declared identifier class declaration.now }
{
    match declaration.kind() {
        Kind::ClassDeclaration => {
            let declared = ClassDeclarationRef::from_node(declaration);
            match declared.id {
                // class A {}
                Some(id) => identifier == id.node_id().0,
                // export default class {}
                None => is_class_of(declared.node_id.0, class),
            }
        }
        _ => false,
    }
}

fn is_class_of(number: u32, class: Option<u32>) -> bool
    ensures { result ≡ lets.is_class_of number class }
{
    match class {
        Some(class) => number == class,
        None => false,
    }
}
