// The nodes that give values to names which stand for `super(..)`, by their classes.

ghost use Rattle.std.specs.Prelude.{◌≡◌, ◌++◌, ℕ, IfOk, OnOk};
ghost use Rattle.es_binding_faults.specs.Seen.{seen};
ghost use Rattle.es_by_number.specs.Numbered.{pairs};
ghost use Rattle.es_grouped.specs.Groups.{group};
ghost use Rattle.es_owed_definitions.specs.SuperNames.{super_class, super_pair, super_pairs, supers_of};

use crate::found::given_name;
use es_base::ledger::GeneratedKind;
use es_by_number::numbered::Numbered;
use es_generated::ledger::Ledger;
use es_grouped::Grouped;
use es_node::node::Node;
use std::alloc::{AllocError, Global};

/// Of each class those of these nodes that give a value to a name which stands for `super(..)` of it. Fails on allocation failure
/// alone.
pub fn nodes_by_class<'a>(
    alloc: Global,
    ledger: &Ledger,
    nodes: &[&'a Node],
) -> Result<Grouped<&'a Node>, AllocError>
    ensures { IfOk result (λ g. (n : ℕ) → seen (group n g) ≡ supers_of ledger.now n (seen nodes.now)) }
{
    let items = with_classes(alloc, ledger, nodes)?;
    Grouped::of(alloc, items)
}

/// These nodes, each with its class. Fails on allocation failure alone.
fn with_classes<'a>(
    alloc: Global,
    ledger: &Ledger,
    nodes: &[&'a Node],
) -> Result<Vec<Numbered<&'a Node>>, AllocError>
    ensures { IfOk result (λ r. pairs r.items ≡ super_pairs ledger.now nodes.now) }
{
    let mut items = Vec::new(alloc);
    for node in nodes {
        add_with_class(ledger, *node, &mut items)?;
    }
    Ok(items)
}

fn add_with_class<'a>(
    ledger: &Ledger,
    node: &'a Node,
    items: &mut Vec<Numbered<&'a Node>>,
) -> Result<(), AllocError>
    ensures { OnOk result (pairs items.new.items ≡ pairs items.old.items ++ super_pair ledger.now node.entry) }
{
    if let Some(class) = super_class(ledger.generated_as(given_name(node))) {
        items.push(Numbered {
            number: class,
            value: node,
        })?;
    }
    Ok(())
}

/// The class whose `super(..)` a name of this kind stands for.
fn super_class(generated: Option<GeneratedKind>) -> Option<u32>
    ensures { result ≡ super_class generated }
{
    match generated {
        Some(GeneratedKind::SuperFn(class)) => Some(class.0),
        _ => None,
    }
}
