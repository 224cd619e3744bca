// Lists of numbers of nodes.

ghost use Rattle.std.specs.Prelude.{◌≡◌, ◌++◌, ◌∷◌, [], cond, IfOk, OnOk};
ghost use Rattle.es_lowered.specs.ClassNames as spec;

use es_base::ids::NodeId;
use es_owed::numbers::set_of;
use std::alloc::{AllocError, Global};

/// Those of these numbers that are not among the others. Fails on allocation failure alone.
pub fn without(alloc: Global, others: &[u32], numbers: &[u32]) -> Result<Vec<u32>, AllocError>
    ensures { IfOk result (λ r. r.items ≡ spec.without others.now numbers.now) }
{
    let set = set_of(alloc, others)?;
    let mut rest = Vec::new(alloc);
    for number in numbers {
        add_unless(set.has(NodeId(*number)), *number, &mut rest)?;
    }
    Ok(rest)
}

fn add_unless(is_other: bool, number: u32, numbers: &mut Vec<u32>) -> Result<(), AllocError>
    ensures { OnOk result (numbers.new.items ≡ numbers.old.items ++ cond is_other [] (number ∷ [])) }
{
    if !is_other {
        numbers.push(number)?;
    }
    Ok(())
}

/// Adds all of these. Fails on allocation failure alone.
pub fn add_numbers(more: &[u32], numbers: &mut Vec<u32>) -> Result<(), AllocError>
    ensures { OnOk result (numbers.new.items ≡ numbers.old.items ++ more.now) }
{
    for number in more {
        numbers.push(*number)?;
    }
    Ok(())
}
