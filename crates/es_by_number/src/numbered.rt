// Values with numbers.

ghost use Rattle.std.specs.Prelude.{◌≡◌, OnOk};
ghost use Rattle.es_steps.specs.Meaning.{by_number};
ghost use Rattle.es_by_number.specs.Numbered.{pairs};

use std::alloc::AllocError;

/// A value with the number of a node.
#[derive(Debug, Drop)]
pub struct Numbered<T> {
    pub number: u32,
    pub value: T,
}

/// Sorts by number; those of one number stay in their order. Fails on allocation failure alone.
pub fn sort_by_number<T>(list: &mut Vec<Numbered<T>>) -> Result<(), AllocError>
    ensures { OnOk result (pairs list.new.items ≡ by_number (pairs list.old.items)) }
{
    list.sort_by_key(|item| item.number)
}
