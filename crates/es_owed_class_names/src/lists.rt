// Lists of numbers of nodes.

ghost use Rattle.std.specs.Prelude.{◌≡◌, ◌++◌, ◌∷◌, [], cond, IfOk, OnOk};
ghost use Rattle.es_lowered.specs.ClassNames as spec;

use es_base::ids::NodeId;
use es_binding_faults::numbers::Numbers;
use es_owed_references::numbers::set_of;
use std::alloc::{AllocError, Global};

/// Those of these numbers that are among the others. Fails on allocation failure alone.
#[tactic(auto, using(crate::proofs::Sets::same_common))]
pub fn common(alloc: Global, others: &[u32], numbers: &[u32]) -> Result<Vec<u32>, AllocError>
    ensures { IfOk result (λ r. r.items ≡ spec.common others.now numbers.now) }
{
    let set = set_of(alloc, others)?;
    common_with(alloc, &set, numbers)
}

/// The same, of a set. Fails on allocation failure alone.
pub fn common_with(alloc: Global, others: &Numbers, numbers: &[u32]) -> Result<Vec<u32>, AllocError>
    ensures { IfOk result (λ r. r.items ≡ spec.common others.now numbers.now) }
{
    let mut both = Vec::new(alloc);
    for number in numbers {
        add_if(others.has(NodeId(*number)), *number, &mut both)?;
    }
    Ok(both)
}

/// Those of these numbers that are not among the others. Fails on allocation failure alone.
#[tactic(auto, using(crate::proofs::Sets::same_without))]
pub fn without(alloc: Global, others: &[u32], numbers: &[u32]) -> Result<Vec<u32>, AllocError>
    ensures { IfOk result (λ r. r.items ≡ spec.without others.now numbers.now) }
{
    let set = set_of(alloc, others)?;
    without_set(alloc, &set, numbers)
}

fn without_set(alloc: Global, others: &Numbers, numbers: &[u32]) -> Result<Vec<u32>, AllocError>
    ensures { IfOk result (λ r. r.items ≡ spec.without others.now numbers.now) }
{
    let mut rest = Vec::new(alloc);
    for number in numbers {
        add_unless(others.has(NodeId(*number)), *number, &mut rest)?;
    }
    Ok(rest)
}

fn add_unless(is_other: bool, number: u32, numbers: &mut Vec<u32>) -> Result<(), AllocError>
    ensures { OnOk result (numbers.new.items ≡ numbers.old.items ++ cond is_other [] (number ∷ [])) }
{
    if !is_other {
        numbers.push(number)?;
    }
    Ok(())
}

/// Adds a number, if this holds. Fails on allocation failure alone.
pub fn add_if(holds: bool, number: u32, numbers: &mut Vec<u32>) -> Result<(), AllocError>
    ensures { OnOk result (numbers.new.items ≡ numbers.old.items ++ cond holds (number ∷ []) []) }
{
    if holds {
        numbers.push(number)?;
    }
    Ok(())
}

/// Whether there are none.
pub fn is_none(numbers: &[u32]) -> bool
    ensures { result ≡ spec.is_none numbers.now }
{
    matches!(numbers, [])
}
