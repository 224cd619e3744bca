// The clauses.

/// A clause on lowered programs.
#[derive(Debug, Clone, Copy, PartialEq, Eq)]
pub enum Clause {
    /// Nothing is left of what the options lower.
    Left,
    /// Each generated name has one declaration, which is new, and all its references mean that.
    Declared,
    /// Each new declaration is of a generated name, or of a class's own name.
    Accounted,
    /// Names that stood for a class still do.
    Names,
    /// Names are read and written, and `super` and private names stand, where they may.
    References,
    /// No code becomes strict.
    Strict,
    /// Literals and names are those of the source.
    Texts,
    /// Each generated name that is initialized is so once, in the form of its kind.
    Initialized,
    /// No generated name is used before it has its value.
    Timely,
    /// A temporary holds one value wherever it is read.
    Temporaries,
    /// The temporaries of keys are given before their classes, each for one field.
    Keys,
    /// Nodes of the source stand in what carries their numbers.
    Carriers,
    /// Nodes that do something stand once.
    Nodes,
    /// Classes and functions stay what they are.
    Classes,
    /// Statements with nothing to lower stay as they are.
    Statements,
    /// Statements of one list stay in one list, in order.
    Lists,
    /// Methods stay on their class.
    Homes,
    /// Fields are defined in order.
    Definitions,
    /// Elements that are not lowered stay in order.
    Elements,
    /// Helpers are called with what they take.
    Calls,
    /// What could be printed still can be.
    Printable,
}
