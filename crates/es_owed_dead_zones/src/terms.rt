// What the walk over a program asks for.

use crate::named_closures::NamedClosures;
use es_number_set::NumberSet;
use es_referents::Referents;

/// What the walk over a program asks for.
#[derive(Clone, Copy)]
pub struct Terms<'t, 'a> {
    /// The number of the first new node.
    pub first: u32,
    /// The closures of the program.
    pub called: &'t NamedClosures<'t, 'a>,
    /// The variables of the source, by their declaring identifiers.
    pub asked: &'t NumberSet,
    /// The names of classes of the source, by their declaring identifiers.
    pub named: &'t NumberSet,
    /// The references of the program.
    pub references: &'t Referents<'a>,
}
