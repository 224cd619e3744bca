// How far apart the numbers of values lie.

use es_by_number::numbered::Numbered;
use number_map::extent::Extent;

/// How many places a table has at most for each of its values.
pub const PLACES: usize = 8;

/// How far apart the numbers of these lie.
pub fn extent_of<T>(items: &[Numbered<T>]) -> Extent {
    let mut extent = Extent::new();
    for item in items {
        extent.add(item.number);
    }
    extent
}
