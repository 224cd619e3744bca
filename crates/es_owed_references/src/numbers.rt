// Numbers of nodes among others.

ghost use Rattle.std.specs.Prelude.{◌≡◌, ◌++◌, ◌∷◌, [], ℕ, IfOk};
ghost use Rattle.es_lowered.specs.ClassNames as spec;
ghost use Rattle.es_references.specs.Frames.{ids};
ghost use Rattle.es_steps.specs.References.{has_number};

use es_base::ids::NodeId;
use es_binding_faults::numbers::Numbers;
use std::alloc::{AllocError, Global};

/// The set of these numbers. Fails on allocation failure alone.
pub fn set_of(alloc: Global, numbers: &[u32]) -> Result<Numbers, AllocError>
    ensures { IfOk result (λ r. (n : ℕ) → has_number n r ≡ has_number n numbers.now) }
{
    let nodes = nodes_numbered(alloc, numbers)?;
    let set = Numbers::of(alloc, nodes.as_slice())?;
    Ok(set)
}

fn nodes_numbered(alloc: Global, numbers: &[u32]) -> Result<Vec<NodeId>, AllocError>
    ensures { IfOk result (λ r. ids r.items ≡ numbers.now) }
{
    let mut nodes = Vec::new(alloc);
    for number in numbers {
        nodes.push(NodeId(*number))?;
    }
    Ok(nodes)
}

/// Whether one of these numbers is among the others.
pub fn any_among(others: &Numbers, numbers: &[u32]) -> bool
    ensures { result ≡ spec.any_among others.now numbers.now }
{
    for number in numbers {
        if others.has(NodeId(*number)) {
            return true;
        }
    }
    false
}
