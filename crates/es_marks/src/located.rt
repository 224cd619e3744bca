// Marks with their places among those of a program.

use crate::marks::Mark;

/// A mark with its place among all of a program.
#[derive(Debug, Clone, Copy)]
pub struct LocatedMark<'m, 'a> {
    pub place: usize,
    pub mark: &'m Mark<'a>,
}
