// What the touches of a lowered program are held against.

use crate::closures::Closure;
use crate::touch::Touch;

/// What a program, a function or the fields of a class touch, in the order of evaluation.
#[derive(Debug, Drop)]
pub struct Body<'a> {
    pub number: u32,
    /// Whether it is of the fields of a class.
    pub is_of_fields: bool,
    /// The class whose constructor it is, or for whose `super(..)` it stands.
    pub of_class: &'a [u32],
    /// Whether `this` is there behind `super(..)` alone.
    pub derives: bool,
    pub touches: Vec<Touch<'a>>,
}

/// The nodes of a class of the source.
#[derive(Debug, Drop)]
pub struct ClassParts {
    pub number: u32,
    /// Those in front of which something may move.
    pub passed: Vec<u32>,
    /// Its keys that are references.
    pub keys: Vec<u32>,
    /// What moves so.
    pub moving: Vec<u32>,
}

/// What a lowered program is held against.
#[derive(Debug, Clone, Copy)]
pub struct Source<'s, 'c, 'b> {
    /// The number of the first new node.
    pub first: u32,
    /// The calls of `super` in the source.
    pub supers: &'s [u32],
    /// The classes of the source.
    pub classes: &'s [ClassParts],
    /// The closures of the lowered program.
    pub called: &'c [Closure<'c>],
    /// The bodies of the source.
    pub bodies: &'b [Body<'b>],
}
