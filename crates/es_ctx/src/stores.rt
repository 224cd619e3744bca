// What is still to be put into an open list of statements.

ghost use Rattle.std.specs.Prelude.{◌≡◌, ◌<◌, ◌≤◌, ◌++◌, length, IfOk, OnOk};
ghost use Rattle.es_base.specs.Tree.{child, list, trees};
ghost use Rattle.es_ctx.specs.Stores.{element_numbers, is_among, open_list, empty_slot, slot_of, without, beside, with_slot, slot_place, slot_changed, left_trees, spread, declared, is_string, begins_with_string, has_directive, is_directive, directive_count, inserted_all, placed_items};
ghost use Rattle.es_node.specs.View.{part_of, parts_of};

use es_base::kind::Kind;
use es_base::list::List;
use es_base::operator::VariableDeclarationKind;
use es_node::node::{Node, Part};
use es_statement::statement::make_variable_declaration;
use std::alloc::{AllocError, Global};
use std::mem;

/// What is to be put beside the element of this number.
#[derive(Drop)]
pub struct Slot {
    pub node: u32,
    pub before: List<Node>,
    pub after: List<Node>,
}

/// What is to be put into a list of statements: beside its elements, and at its front. `numbers` are those
/// of its elements when it was opened; `vars` and `lets` are the declarators of what it is to declare.
#[derive(Drop)]
pub struct OpenList {
    pub numbers: List<u32>,
    pub slots: List<Slot>,
    pub vars: List<Node>,
    pub lets: List<Node>,
}

/// On which side of an element a statement goes.
#[derive(Debug, Clone, Copy, PartialEq, Eq)]
pub enum Side {
    Before,
    After,
}

impl OpenList {
    /// Opens a list of these statements: nothing is kept for it yet.
    pub fn open(alloc: Global, nodes: &[Node]) -> Result<OpenList, AllocError>
        ensures { IfOk result (λ l. l ≡ open_list (list (trees nodes.now))) }
    {
        Ok(OpenList {
            numbers: numbers_of(alloc, nodes)?,
            slots: List::new(alloc),
            vars: List::new(alloc),
            lets: List::new(alloc),
        })
    }

    /// Whether an element had this number when the list was opened.
    pub fn has(&self, number: u32) -> bool
        ensures { result ≡ is_among number self.now.numbers }
    {
        is_among(number, self.numbers.as_slice())
    }
}

fn numbers_of(alloc: Global, nodes: &[Node]) -> Result<List<u32>, AllocError>
    ensures { IfOk result (λ ns. ns ≡ element_numbers (trees nodes.now)) }
{
    let mut numbers = List::new(alloc);
    for node in nodes {
        numbers.push(node.node_id().0)?;
    }
    Ok(numbers)
}

fn is_among(number: u32, numbers: &[u32]) -> bool
    ensures { result ≡ is_among number numbers.now }
{
    for &other in numbers {
        if other == number {
            return true;
        }
    }
    false
}

/// Keeps these statements for a side of the element of this number, behind those that are kept there. Fails on
/// allocation failure alone; then nothing is said of the list.
#[tactic(auto, using(crate::proofs::Placed::with_found, crate::proofs::Placed::with_none))]
pub fn keep_beside(
    alloc: Global,
    side: Side,
    number: u32,
    statements: List<Node>,
    list: &mut OpenList,
) -> Result<(), AllocError>
    ensures { OnOk result (list.new ≡ with_slot (beside side statements) number list.old) }
{
    let at = slot_place(number, list.slots.as_slice());
    if at < list.slots.len() {
        add_to_slot(at, side, statements, &mut list.slots)?;
        return Ok(());
    }
    let mut slot = empty_slot(alloc, number);
    add_to(side, statements, &mut slot)?;
    list.slots.push(slot)?;
    Ok(())
}

fn empty_slot(alloc: Global, number: u32) -> Slot
    ensures { result ≡ empty_slot number }
{
    Slot {
        node: number,
        before: List::new(alloc),
        after: List::new(alloc),
    }
}

/// The place of the slot of this number, or behind all of them.
fn slot_place(number: u32, slots: &[Slot]) -> usize
    ensures { result ≡ slot_place number slots.now }
{
    for (i, slot) in slots.iter().enumerate() {
        if slot.node == number {
            return i;
        }
    }
    slots.len()
}

fn add_to_slot(
    at: usize,
    side: Side,
    statements: List<Node>,
    slots: &mut List<Slot>,
) -> Result<(), AllocError>
    requires { at < length slots.old }
    ensures { OnOk result (slots.new ≡ slot_changed at (beside side statements) slots.old) }
{
    let slots = slots.as_mut_slice();
    add_to(side, statements, &mut slots[at])
}

fn add_to(side: Side, statements: List<Node>, slot: &mut Slot) -> Result<(), AllocError>
    ensures { OnOk result (slot.new ≡ beside side statements slot.old) }
{
    match side {
        Side::Before => append(&mut slot.before, statements),
        Side::After => append(&mut slot.after, statements),
    }
}

/// Adds the items of a list to another.
#[tactic(auto, using(crate::proofs::Placed::append_next, crate::proofs::Placed::append_done))]
fn append(joined: &mut List<Node>, more: List<Node>) -> Result<(), AllocError>
    ensures { OnOk result (joined.new ≡ joined.old ++ more) }
{
    for node in more.into_vec() {
        joined.push(node)?;
    }
    Ok(())
}

/// Puts what is kept for a list into it: the statements beside their elements, those of numbers that no
/// element has at the end, and behind the directives one `var` and then one `let`. Fails on allocation failure
/// alone; then nothing is said of the nodes.
#[tactic(auto, using(crate::proofs::Placed::placed_is, crate::proofs::Placed::directives_within, crate::proofs::Placed::inserted_within))]
pub fn place(alloc: Global, kept: OpenList, nodes: &mut List<Node>) -> Result<(), AllocError>
    ensures { OnOk result (trees nodes.new ≡ placed_items kept (trees nodes.old)) }
{
    let OpenList {
        numbers: _,
        slots,
        vars,
        lets,
    } = kept;
    let items = mem::replace(nodes, List::new(alloc));
    let mut joined = spread(alloc, slots, items)?;
    let at = directives(joined.as_slice());
    declare(alloc, VariableDeclarationKind::Let, lets, at, &mut joined)?;
    declare(alloc, VariableDeclarationKind::Var, vars, at, &mut joined)?;
    *nodes = joined;
    Ok(())
}

/// Each element between what is kept for it, and then what is left over.
#[tactic(auto, using(crate::proofs::Placed::spread_next, crate::proofs::Placed::spread_done))]
fn spread(alloc: Global, mut slots: List<Slot>, nodes: List<Node>) -> Result<List<Node>, AllocError>
    ensures { IfOk result (λ joined. trees joined ≡ spread slots (trees nodes)) }
{
    let mut joined = List::new(alloc);
    for node in nodes.into_vec() {
        let slot = take_slot(alloc, node.node_id().0, &mut slots);
        append(&mut joined, slot.before)?;
        joined.push(node)?;
        append(&mut joined, slot.after)?;
    }
    add_left_over(slots, &mut joined)?;
    Ok(joined)
}

#[tactic(auto, using(crate::proofs::Placed::left_next, crate::proofs::Placed::left_done))]
fn add_left_over(slots: List<Slot>, joined: &mut List<Node>) -> Result<(), AllocError>
    ensures { OnOk result (joined.new ≡ joined.old ++ left_trees slots) }
{
    for slot in slots.into_vec() {
        append(joined, slot.before)?;
        append(joined, slot.after)?;
    }
    Ok(())
}

/// Takes out what is kept for the element of this number.
#[tactic(auto, using(crate::proofs::Placed::slot_found, crate::proofs::Placed::slot_removed, crate::proofs::Placed::slot_none))]
fn take_slot(alloc: Global, number: u32, slots: &mut List<Slot>) -> Slot
    ensures slot { result ≡ slot_of number slots.old }
    ensures rest { slots.new ≡ without number slots.old }
{
    let at = slot_place(number, slots.as_slice());
    if at < slots.len() {
        slots.remove(at)
    } else {
        empty_slot(alloc, number)
    }
}

/// How many directives a list begins with (ECMA-262, 11.2.1).
fn directives(nodes: &[Node]) -> usize
    ensures { result ≡ directive_count (trees nodes.now) }
{
    for (i, node) in nodes.iter().enumerate() {
        if !is_directive(node) {
            return i;
        }
    }
    nodes.len()
}

// "use strict";
#[tactic(auto, using(crate::proofs::Placed::directive_is, crate::proofs::Placed::no_directive))]
fn is_directive(node: &Node) -> bool
    ensures { result ≡ is_directive (child node.now) }
{
    match node.kind() {
        Kind::ExpressionStatement => has_directive(node.parts()),
        _ => false,
    }
}

/// Whether the second of these parts is the string of a directive.
fn has_directive(parts: &[Part]) -> bool
    ensures { result ≡ has_directive (parts_of parts.now) }
{
    match parts {
        [_, rest @ ..] => begins_with_string(rest),
        [] => false,
    }
}

fn begins_with_string(parts: &[Part]) -> bool
    ensures { result ≡ begins_with_string (parts_of parts.now) }
{
    match parts {
        [directive, ..] => is_string(directive),
        [] => false,
    }
}

fn is_string(part: &Part) -> bool
    ensures { result ≡ is_string (part_of part.now) }
{
    matches!(part, Part::String(_) | Part::Word(_))
}

// var a, b = c;
#[tactic(auto, using(crate::proofs::Placed::inserted_none))]
fn declare(
    alloc: Global,
    kind: VariableDeclarationKind,
    declarators: List<Node>,
    at: usize,
    nodes: &mut List<Node>,
) -> Result<(), AllocError>
    requires { at ≤ length nodes.old }
    ensures { OnOk result (nodes.new ≡ inserted_all at (declared kind declarators) nodes.old) }
{
    if declarators.is_empty() {
        return Ok(());
    }
    nodes.insert(at, make_variable_declaration(alloc, kind, declarators)?)?;
    Ok(())
}
