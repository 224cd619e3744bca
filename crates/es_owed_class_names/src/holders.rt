// The functions of a lowered program that hold classes of its source.

ghost use Rattle.std.specs.Prelude.{◌≡◌, ◌++◌, ℕ, nat_eq, true, IfOk, OnOk};
ghost use Rattle.std.specs.List.{list_any};
ghost use Rattle.es_base.specs.Preorder.{number_of, preorder};
ghost use Rattle.es_binding_faults.specs.Seen.{seen};
ghost use Rattle.es_by_number.specs.Numbered.{pairs};
ghost use Rattle.es_grouped.specs.Groups.{group};
ghost use Rattle.es_lowered.specs.ClassNames as spec;
ghost use Rattle.es_owed_class_names.specs.Holders.{each_held, held_by, holding};
ghost use Rattle.es_steps.specs.References.{has_number};

use crate::lists::common_with;
use es_base::ids::NodeId;
use es_binding_faults::numbers::Numbers;
use es_by_number::numbered::Numbered;
use es_generated::numbers::{has_number, is_new};
use es_grouped::Grouped;
use es_node::node::Node;
use es_owed::listed::Listed;
use es_owed::numbers::numbers_below;
use es_owed_references::numbers::set_of;
use es_shapes::walk::{NodeTest, any_node, is_any_function};
use std::alloc::{AllocError, Global};

/// The functions of a lowered program that hold classes of its source, looked up by these.
#[derive(Drop)]
pub struct Holders<'r, 'a> {
    pub lowered: &'r Listed<'a>,
    /// The classes.
    pub classes: Numbers,
    /// All functions of the source.
    pub functions: Numbers,
    /// Of each class those that hold it.
    pub by_class: Grouped<u32>,

    ghost are_its: { (k n : ℕ) → has_number k functions ≡ true → has_number n classes ≡ true → has_number k (group n by_class) ≡ spec.holds_class k n (seen lowered.now.nodes.items) },
}

impl<'r, 'a> Holders<'r, 'a> {
    /// Those that hold one of these classes. Fails on allocation failure alone.
    pub fn of(
        alloc: Global,
        first: u32,
        classes: &[u32],
        lowered: &'r Listed<'a>,
    ) -> Result<Holders<'r, 'a>, AllocError>
        ensures { IfOk result (λ h. h.lowered.now ≡ lowered.now) }
    {
        let nodes = lowered.nodes.as_slice();
        let kept = kept_functions(alloc, first, nodes)?;
        let functions = set_of(alloc, kept.as_slice())?;
        let classes = set_of(alloc, classes)?;
        let by_class = by_class(alloc, &functions, &classes, nodes)?;
        Ok(Holders {
            lowered,
            classes,
            functions,
            by_class,
        })
    }

    /// Whether this class is a node of this number, or stands in one.
    pub fn hold(&self, number: u32, class: u32) -> bool
        ensures { result ≡ spec.holds_class number class (preorder self.now.lowered.now.program.now) }
    {
        if self.functions.has(NodeId(number)) {
            self.is_holder(number, class)
        } else {
            any_holding(self.lowered, class, number)
        }
    }

    /// Whether this class stands in a node of the number of this function.
    fn is_holder(&self, function: u32, class: u32) -> bool
        requires { has_number function self.now.functions ≡ true }
        ensures { result ≡ spec.holds_class function class (preorder self.now.lowered.now.program.now) }
    {
        if self.classes.has(NodeId(class)) {
            has_number(function, self.by_class.get(class))
        } else {
            any_holding(self.lowered, class, function)
        }
    }
}

// ---- by classes

/// The functions among these nodes that are not new. Fails on allocation failure alone.
fn kept_functions(alloc: Global, first: u32, nodes: &[&Node]) -> Result<Vec<u32>, AllocError> {
    let mut functions = Vec::new(alloc);
    for node in nodes {
        let number = node.node_id().0;
        if is_any_function(node.kind()) && !is_new(first, number) {
            functions.push(number)?;
        }
    }
    Ok(functions)
}

fn by_class(
    alloc: Global,
    functions: &Numbers,
    classes: &Numbers,
    nodes: &[&Node],
) -> Result<Grouped<u32>, AllocError>
    ensures { IfOk result (λ g. (k n : ℕ) → has_number k functions.now ≡ true → has_number n classes.now ≡ true → has_number k (group n g) ≡ spec.holds_class k n (seen nodes.now)) }
{
    let items = holding(alloc, functions, classes, nodes)?;
    Grouped::of(alloc, items)
}

/// Those of these nodes that have the numbers of functions, each with the classes that it holds. Fails on allocation failure
/// alone.
fn holding(
    alloc: Global,
    functions: &Numbers,
    classes: &Numbers,
    nodes: &[&Node],
) -> Result<Vec<Numbered<u32>>, AllocError>
    ensures { IfOk result (λ r. pairs r.items ≡ holding functions.now classes.now (seen nodes.now)) }
{
    let mut items = Vec::new(alloc);
    for node in nodes {
        add_held(alloc, functions, classes, node, &mut items)?;
    }
    Ok(items)
}

/// Adds the node with each of these classes that it holds, if it has the number of a function. Fails on allocation failure alone.
#[tactic(auto, using(es_owed::proofs::Nodes::number_of_node))]
fn add_held(
    alloc: Global,
    functions: &Numbers,
    classes: &Numbers,
    node: &Node,
    items: &mut Vec<Numbered<u32>>,
) -> Result<(), AllocError>
    ensures { OnOk result (pairs items.new.items ≡ pairs items.old.items ++ held_by functions.now classes.now node.now) }
{
    let number = node.node_id().0;
    if !functions.has(NodeId(number)) {
        return Ok(());
    }
    let held = held_classes(alloc, classes, node)?;
    add_each(held.as_slice(), number, items)
}

/// Those of these classes that stand in the node, or are the node. Fails on allocation failure alone.
fn held_classes(alloc: Global, classes: &Numbers, node: &Node) -> Result<Vec<u32>, AllocError>
    ensures { IfOk result (λ r. r.items ≡ spec.common classes.now (spec.numbers_of (preorder node.now))) }
{
    let below = numbers_below(alloc, node)?;
    common_with(alloc, classes, below.as_slice())
}

/// Adds this function with each of these classes. Fails on allocation failure alone.
fn add_each(
    classes: &[u32],
    function: u32,
    items: &mut Vec<Numbered<u32>>,
) -> Result<(), AllocError>
    ensures { OnOk result (pairs items.new.items ≡ pairs items.old.items ++ each_held function classes.now) }
{
    for class in classes {
        items.push(Numbered {
            number: *class,
            value: function,
        })?;
    }
    Ok(())
}

// ---- by a search

/// Whether the class stands in a node of this number.
fn any_holding(lowered: &Listed, class: u32, number: u32) -> bool
    ensures { result ≡ spec.holds_class number class (preorder lowered.now.program.now) }
{
    any_holds(class, lowered.numbered(number))
}

fn any_holds(class: u32, nodes: &[&Node]) -> bool
    ensures { result ≡ list_any (λ t. has_number class (spec.numbers_of (preorder t))) (seen nodes.now) }
{
    for node in nodes {
        if holds(class, node) {
            return true;
        }
    }
    false
}

/// Whether this class is the node, or stands in it.
fn holds(class: u32, node: &Node) -> bool
    ensures { result ≡ has_number class (spec.numbers_of (preorder node.now)) }
{
    any_node(&HasNumber { number: class }, node)
}

/// Whether a node has this number.
#[derive(Drop)]
struct HasNumber {
    number: u32,
}

impl NodeTest for HasNumber {
    ghost use Rattle.std.specs.Prelude.{nat_eq};
    ghost use Rattle.es_base.specs.Preorder.{number_of};

    ghost passes = { λ k t. nat_eq k.number (number_of t) };

    #[tactic(auto, using(es_owed::proofs::Nodes::number_of_node))]
    fn passes(&self, node: &Node) -> bool
        ensures { result ≡ nat_eq self.now.number (number_of node.now) }
    {
        self.number == node.node_id().0
    }
}
