// The statements and classes of the source's lists stand in the lists of the same nodes, in order.

ghost use Rattle.std.specs.Prelude.{◌≡◌, ◌++◌, ◌∷◌, [], cond, IfOk, OnOk};
ghost use Rattle.std.specs.Option.{option_to_list};
ghost use Rattle.es_base.specs.Preorder.{number_of};
ghost use Rattle.es_base.specs.Tree.{child, trees};
ghost use Rattle.es_binding_faults.specs.Seen.{seen};
ghost use Rattle.es_steps.specs.KeptNodes as spec;
ghost use Rattle.es_steps.specs.KeptNodes.{carried_classes, class_or_none, declared_classes, free_number, free_numbers, given_classes, item_number, item_numbers, list_of};
ghost use Rattle.es_owed.specs.Lists.{exported_classes, given_class, list_stays, lists_stay, own_class};

use crate::classes::{class_at, class_below};
use crate::listed::Listed;
use crate::numbers::is_within;
use crate::statements::{is_free_statement, statement_list};
use es_base::kind::Kind;
use es_node::node::Node;
use es_steps::options::Options;
use es_tree::module::{ExportDefaultDeclarationRef, ExportNamedDeclarationRef};
use es_tree::statement::VariableDeclarationRef;
use std::alloc::{AllocError, Global};

/// Whether the statements that no lowered class touches, the declarations of functions and variables, and the classes of each
/// list of the source stand in the list of the same node, in their order. Fails on allocation failure alone.
#[tactic(auto, using(crate::proofs::StayingLists::lists_by_node))]
pub fn lists_kept(
    alloc: Global,
    options: &Options,
    source: &Listed,
    lowered: &Listed,
) -> Result<bool, AllocError>
    ensures { IfOk result (λ holds. holds ≡ spec.lists_kept options.now source.now.program.now lowered.now.program.now) }
{
    lists_stay(alloc, options, source.nodes.as_slice(), lowered)
}

fn lists_stay(
    alloc: Global,
    options: &Options,
    source: &[&Node],
    lowered: &Listed,
) -> Result<bool, AllocError>
    ensures { IfOk result (λ holds. holds ≡ lists_stay options.now (seen lowered.now.nodes.items) (seen source.now)) }
{
    for node in source {
        if !list_stays(alloc, options, node, lowered)? {
            return Ok(false);
        }
    }
    Ok(true)
}

/// Whether what is to stay of the node's list stands in the list of that node. The list of a static block may become an
/// expression. Fails on allocation failure alone.
#[tactic(auto, using(crate::proofs::StayingLists::list_stays_node, crate::proofs::NumberedNodes::list_of_numbered))]
fn list_stays(
    alloc: Global,
    options: &Options,
    node: &Node,
    lowered: &Listed,
) -> Result<bool, AllocError>
    ensures { IfOk result (λ holds. holds ≡ list_stays options.now (seen lowered.now.nodes.items) node.now) }
{
    if is_static_block(node.kind()) {
        return Ok(true);
    }
    let number = node.node_id().0;
    let numbers = free_numbers(alloc, options, statement_list(node))?;
    let there = list_of(alloc, number, lowered.numbered(number))?;
    Ok(is_within(numbers.as_slice(), there.as_slice()))
}

fn is_static_block(kind: Kind) -> bool
    ensures { result ≡ spec.is_static_block kind }
{
    matches!(kind, Kind::StaticBlock)
}

// ---- what is to stay of a list

/// The numbers of what is to stay of a list. Fails on allocation failure alone.
fn free_numbers(
    alloc: Global,
    options: &Options,
    statements: &[Node],
) -> Result<Vec<u32>, AllocError>
    ensures { IfOk result (λ numbers. numbers.items ≡ free_numbers options.now (trees statements.now)) }
{
    let mut numbers = Vec::new(alloc);
    for statement in statements {
        add_free(options, statement, &mut numbers)?;
    }
    Ok(numbers)
}

/// Adds the number of a statement that is to stay, and that of the class that it declares. Fails on allocation failure alone.
fn add_free(options: &Options, statement: &Node, numbers: &mut Vec<u32>) -> Result<(), AllocError>
    ensures { OnOk result (numbers.new.items ≡ numbers.old.items ++ free_number options.now (child statement.now)) }
{
    let stays = is_free_statement(options, statement) || stays_in_list(statement);
    add_if(stays, statement, numbers)?;
    add_some(declared_class(statement), numbers)
}

/// Adds the number of a node that is to stay. Fails on allocation failure alone.
#[tactic(auto, using(crate::proofs::Nodes::number_of_node))]
fn add_if(stays: bool, node: &Node, numbers: &mut Vec<u32>) -> Result<(), AllocError>
    ensures { OnOk result (numbers.new.items ≡ numbers.old.items ++ cond stays (number_of node.now ∷ []) []) }
{
    if stays {
        numbers.push(node.node_id().0)?;
    }
    Ok(())
}

/// Adds a number, if there is one. Fails on allocation failure alone.
fn add_some(number: Option<u32>, numbers: &mut Vec<u32>) -> Result<(), AllocError>
    ensures list { OnOk result (numbers.new.items ≡ numbers.old.items ++ option_to_list number) }
    ensures class { OnOk result (numbers.new.items ≡ numbers.old.items ++ class_or_none number) }
{
    if let Some(number) = number {
        numbers.push(number)?;
    }
    Ok(())
}

/// Whether the statement declares a function or variables.
#[tactic(auto, using(crate::proofs::StayingLists::stays_by_kind))]
fn stays_in_list(statement: &Node) -> bool
    ensures { result ≡ spec.stays_in_list statement.now }
{
    matches!(
        statement.kind(),
        Kind::VariableDeclaration | Kind::FunctionDeclaration
    )
}

/// The class that a statement declares.
#[tactic(auto, using(crate::proofs::StayingLists::declared_named, crate::proofs::StayingLists::declared_default, crate::proofs::StayingLists::declared_own))]
pub fn declared_class(statement: &Node) -> Option<u32>
    ensures { option_to_list result ≡ declared_classes (child statement.now) }
{
    match statement.kind() {
        // export class A {}
        Kind::ExportNamedDeclaration => {
            match ExportNamedDeclarationRef::from_node(statement).declaration {
                Some(declaration) => own_class(declaration),
                None => None,
            }
        }
        // export default class {}
        Kind::ExportDefaultDeclaration => {
            own_class(ExportDefaultDeclarationRef::from_node(statement).declaration)
        }
        _ => own_class(statement),
    }
}

/// The number of a class declaration.
#[tactic(auto, using(crate::proofs::StayingLists::own_other))]
pub fn own_class(node: &Node) -> Option<u32>
    ensures { option_to_list result ≡ own_class node.now }
{
    match node.kind() {
        // class A {}
        Kind::ClassDeclaration => Some(node.node_id().0),
        _ => None,
    }
}

// ---- what stands in a list

/// The numbers in the list of the first node of this number among these. Fails on allocation failure alone.
#[tactic(auto, using(crate::proofs::StayingLists::list_of_more))]
fn list_of(alloc: Global, number: u32, nodes: &[&Node]) -> Result<Vec<u32>, AllocError>
    ensures { IfOk result (λ numbers. numbers.items ≡ list_of number (seen nodes.now)) }
{
    for node in nodes {
        if number == node.node_id().0 {
            return item_numbers(alloc, statement_list(node));
        }
    }
    Ok(Vec::new(alloc))
}

/// The numbers of statements, each with those of the classes that it carries. Fails on allocation failure alone.
fn item_numbers(alloc: Global, statements: &[Node]) -> Result<Vec<u32>, AllocError>
    ensures { IfOk result (λ numbers. numbers.items ≡ item_numbers (trees statements.now)) }
{
    let mut numbers = Vec::new(alloc);
    for statement in statements {
        add_item(alloc, statement, &mut numbers)?;
    }
    Ok(numbers)
}

/// Adds the number of a statement and those of the classes that it carries. Fails on allocation failure alone.
#[tactic(auto, using(crate::proofs::Nodes::number_of_node))]
fn add_item(alloc: Global, statement: &Node, numbers: &mut Vec<u32>) -> Result<(), AllocError>
    ensures { OnOk result (numbers.new.items ≡ numbers.old.items ++ item_number (child statement.now)) }
{
    numbers.push(statement.node_id().0)?;
    add_carried(alloc, statement, numbers)
}

/// Adds the class that a statement declares, and those that give an export or its variables their values. Fails on allocation
/// failure alone.
#[tactic(auto, using(crate::proofs::StayingLists::carried_named, crate::proofs::StayingLists::carried_default, crate::proofs::StayingLists::carried_own))]
fn add_carried(alloc: Global, statement: &Node, numbers: &mut Vec<u32>) -> Result<(), AllocError>
    ensures { OnOk result (numbers.new.items ≡ numbers.old.items ++ carried_classes (child statement.now)) }
{
    match statement.kind() {
        // export let A = class {};
        Kind::ExportNamedDeclaration => {
            match ExportNamedDeclarationRef::from_node(statement).declaration {
                Some(declaration) => add_exported(alloc, declaration, numbers),
                None => Ok(()),
            }
        }
        // export default class {}
        Kind::ExportDefaultDeclaration => {
            let declaration = ExportDefaultDeclarationRef::from_node(statement).declaration;
            match declaration.kind() {
                Kind::ClassDeclaration => add_some(Some(declaration.node_id().0), numbers),
                _ => add_some(class_below(alloc, declaration)?, numbers),
            }
        }
        _ => add_exported(alloc, statement, numbers),
    }
}

/// Adds the class that a declaration declares, or those that give its variables their values. Fails on allocation failure
/// alone.
#[tactic(auto, using(crate::proofs::StayingLists::exported_other))]
fn add_exported(alloc: Global, declaration: &Node, numbers: &mut Vec<u32>) -> Result<(), AllocError>
    ensures { OnOk result (numbers.new.items ≡ numbers.old.items ++ exported_classes declaration.now) }
{
    match declaration.kind() {
        // let A = class {};
        Kind::VariableDeclaration => add_given(
            alloc,
            VariableDeclarationRef::from_node(declaration).declarations,
            numbers,
        ),
        // class A {}
        Kind::ClassDeclaration => add_some(Some(declaration.node_id().0), numbers),
        _ => Ok(()),
    }
}

/// Adds the classes that give variables their values. Fails on allocation failure alone.
#[tactic(auto, using(crate::proofs::StayingLists::given_more))]
fn add_given(alloc: Global, declarators: &[Node], numbers: &mut Vec<u32>) -> Result<(), AllocError>
    ensures { OnOk result (numbers.new.items ≡ numbers.old.items ++ given_classes (trees declarators.now)) }
{
    for declarator in declarators {
        add_given_class(alloc, declarator, numbers)?;
    }
    Ok(())
}

/// Adds the class that gives a variable its value. Fails on allocation failure alone.
#[tactic(auto, using(crate::proofs::StayingLists::given_one, crate::proofs::StayingLists::given_other))]
fn add_given_class(
    alloc: Global,
    declarator: &Node,
    numbers: &mut Vec<u32>,
) -> Result<(), AllocError>
    ensures { OnOk result (numbers.new.items ≡ numbers.old.items ++ given_class declarator.now) }
{
    match declarator.kind() {
        Kind::VariableDeclarator => { add_some(class_at(alloc, declarator.parts(), 1)?, numbers) }
        _ => Ok(()),
    }
}
