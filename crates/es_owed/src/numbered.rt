// The numbers of a lowered program.

ghost use Rattle.std.specs.Prelude.{◌≡◌, ◌↔◌, ◌&&◌, map, IfOk, IsTrue, Some};
ghost use Rattle.es_base.specs.Numbered.{IsNumbered, numbers};
ghost use Rattle.es_base.specs.Preorder.{number_of};
ghost use Rattle.es_binding_faults.specs.Seen.{seen};
ghost use Rattle.es_owed.specs.Listed.{numbered};
ghost use Rattle.es_owed.specs.Numbers.{are_distinct, are_several, are_single, consecutive_from, next_of};

use crate::listed::Listed;
use crate::numbers::numbers_of;
use es_generated::numbers::is_new;
use es_node::node::Node;
use std::alloc::{AllocError, Global};

/// Whether no number stands twice in what a program was lowered to, and the new ones are `first`, `first + 1`, .. in preorder.
/// Fails on allocation failure alone.
pub fn is_numbered(alloc: Global, first: u32, lowered: &Listed) -> Result<bool, AllocError>
    ensures { IfOk result (λ holds. IsTrue holds ↔ IsNumbered first lowered.now.program.now) }
{
    let numbers = numbers_of(alloc, lowered.nodes.as_slice())?;
    Ok(are_numbered(first, numbers.as_slice(), lowered))
}

fn are_numbered(first: u32, numbers: &[u32], lowered: &Listed) -> bool
    ensures { result ≡ (consecutive_from first (Some first) numbers.now && are_distinct (map number_of (seen lowered.now.nodes.items))) }
{
    are_consecutive(first, numbers) && are_distinct(lowered)
}

/// Whether the new ones of these numbers are `first`, `first + 1`, ..
fn are_consecutive(first: u32, numbers: &[u32]) -> bool
    ensures { result ≡ consecutive_from first (Some first) numbers.now }
{
    let mut next = u64::from(first);
    for number in numbers {
        match next_of(first, next, *number) {
            Some(behind) => next = behind,
            None => return false,
        }
    }
    true
}

/// The next new number behind this one, if that is in turn.
fn next_of(first: u32, next: u64, number: u32) -> Option<u64>
    ensures { result ≡ next_of first next number }
{
    if is_new(first, number) {
        if u64::from(number) == next {
            Some(u64::from(number) + 1)
        } else {
            None
        }
    } else {
        Some(next)
    }
}

/// Whether no number stands twice among the nodes of a program.
#[tactic(auto, using(crate::proofs::Singles::distinct_by_number))]
fn are_distinct(program: &Listed) -> bool
    ensures { result ≡ are_distinct (map number_of (seen program.now.nodes.items)) }
{
    are_single(program.nodes.as_slice(), program)
}

/// Whether of the number of each of these nodes there is one in the program at most.
#[tactic(auto, using(crate::proofs::Nodes::number_of_node))]
fn are_single(nodes: &[&Node], program: &Listed) -> bool
    ensures { result ≡ are_single (seen nodes.now) (seen program.now.nodes.items) }
{
    for node in nodes {
        if stands_twice(node.node_id().0, program) {
            return false;
        }
    }
    true
}

/// Whether several nodes of the program have this number.
#[tactic(auto, using(crate::proofs::Singles::several_seen))]
fn stands_twice(number: u32, program: &Listed) -> bool
    ensures { result ≡ are_several (numbered number (seen program.now.nodes.items)) }
{
    program.numbered(number).len() > 1
}
