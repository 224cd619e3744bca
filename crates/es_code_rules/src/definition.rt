// What stands elsewhere than where it is evaluated.

use es_base::list::List;
use es_base::name::Name;
use es_codes::code::Code;

/// What is evaluated elsewhere: the elements of a class, whose construction evaluates its initializers, or the
/// body of a function that a generated name was assigned.
#[derive(Drop)]
pub enum Definition {
    OfClass { class: u32, elements: List<Code> },
    OfName { name: Name, body: Code },
    /// That of a function that is called with what `super(..)` gave.
    OfCalled { name: Name, body: Code },
}

/// The definitions that are being opened, which are shut with all others of the same, and how many may be opened one inside
/// another.
#[derive(Drop)]
pub struct Opening<'a> {
    pub shut: Vec<&'a Definition>,
    pub depth: usize,
}
