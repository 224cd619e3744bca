// The classes of a program, looked up by the functions of their constructors.

ghost use Rattle.std.specs.Prelude.{◌≡◌, ◌++◌, ℕ, IfOk, OnOk};
ghost use Rattle.std.specs.Option.{option_to_list};
ghost use Rattle.es_base.specs.Tree.{child};
ghost use Rattle.es_binding_faults.specs.Seen.{seen};
ghost use Rattle.es_by_number.specs.Numbered.{pairs};
ghost use Rattle.es_grouped.specs.Groups.{group};
ghost use Rattle.es_lowered.specs.DeadZones as spec;
ghost use Rattle.es_lowered.specs.HelperCalls.{part_number};
ghost use Rattle.es_node.specs.View.{parts_of};
ghost use Rattle.es_steps.specs.LoweredClasses.{constructor_in};
ghost use Rattle.es_steps.specs.Parts.{at};
ghost use Rattle.es_owed_dead_zones.specs.LookedUp.{constructor_of, with_constructor, with_constructors};

use es_binding_faults::hoisted::part_at;
use es_by_number::numbered::Numbered;
use es_grouped::Grouped;
use es_node::node::{Node, Part};
use es_owed::listed::Listed;
use es_owed_initialized::kinds::is_class;
use es_shapes::class::elements_of;
use es_shapes::late_class::constructor_among;
use es_touches::derived::constructs;
use std::alloc::{AllocError, Global};

/// A program, and its classes by the functions of their constructors.
#[derive(Drop)]
pub struct Classes<'t, 'a> {
    pub listed: &'t Listed<'a>,
    pub by_constructor: Grouped<&'a Node>,

    ghost are_constructed: { (m : ℕ) → spec.constructs m (seen (group m by_constructor)) ≡ spec.constructs m (seen listed.now.nodes.items) },
}

impl<'t, 'a> Classes<'t, 'a> {
    /// Those of this program. Fails on allocation failure alone.
    pub fn of(alloc: Global, listed: &'t Listed<'a>) -> Result<Classes<'t, 'a>, AllocError>
        ensures { IfOk result (λ r. r.listed.now ≡ listed.now) }
    {
        let by_constructor = by_constructor(alloc, listed.nodes.as_slice())?;
        Ok(Classes {
            listed,
            by_constructor,
        })
    }

    /// The class whose constructor a function is, if any.
    pub fn constructed_by(&self, function: u32) -> Option<u32>
        ensures { option_to_list result ≡ spec.constructs function (seen self.now.listed.now.nodes.items) }
    {
        constructs(function, self.by_constructor.get(function))
    }
}

fn by_constructor<'a>(alloc: Global, nodes: &[&'a Node]) -> Result<Grouped<&'a Node>, AllocError>
    ensures { IfOk result (λ g. (m : ℕ) → spec.constructs m (seen (group m g)) ≡ spec.constructs m (seen nodes.now)) }
{
    let items = with_constructors(alloc, nodes)?;
    Grouped::of(alloc, items)
}

/// The classes among these nodes, each with the number of the function of its constructor. Fails on allocation failure alone.
fn with_constructors<'a>(
    alloc: Global,
    nodes: &[&'a Node],
) -> Result<Vec<Numbered<&'a Node>>, AllocError>
    ensures { IfOk result (λ r. pairs r.items ≡ with_constructors nodes.now) }
{
    let mut items = Vec::new(alloc);
    for node in nodes {
        add_with_constructor(*node, &mut items)?;
    }
    Ok(items)
}

fn add_with_constructor<'a>(
    node: &'a Node,
    items: &mut Vec<Numbered<&'a Node>>,
) -> Result<(), AllocError>
    ensures { OnOk result (pairs items.new.items ≡ pairs items.old.items ++ with_constructor node.entry) }
{
    if let Some(number) = constructor_of(node) {
        items.push(Numbered {
            number,
            value: node,
        })?;
    }
    Ok(())
}

/// The function of the constructor, if the node is a class that has one.
#[tactic(auto, using(crate::proofs::LookedUpByNumber::constructor_node))]
fn constructor_of(node: &Node) -> Option<u32>
    ensures { option_to_list result ≡ constructor_of node.now }
{
    if is_class(node.kind()) {
        constructor_at(node.parts(), 2)
    } else {
        None
    }
}

fn constructor_at(parts: &[Part], i: usize) -> Option<u32>
    ensures { option_to_list result ≡ part_number (constructor_in (at i (parts_of parts.now))) }
{
    match part_at(parts, i) {
        // { constructor() {} }
        Some(Part::Child(body)) => constructor_in(body),
        _ => None,
    }
}

#[tactic(auto, using(es_owed::proofs::Nodes::number_of_node))]
fn constructor_in(body: &Node) -> Option<u32>
    ensures { option_to_list result ≡ part_number (constructor_in (child body.now)) }
{
    match constructor_among(elements_of(body)) {
        Some(function) => Some(function.node_id().0),
        None => None,
    }
}
