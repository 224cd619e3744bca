// What is said of a source and a lowered program.

ghost use Rattle.std.specs.Prelude.{◌≡◌};

use es_base::ids::NodeId;
use es_clauses::clause::Clause;
use std::alloc::AllocError;

/// In what a lowered program fails.
#[derive(Debug, Clone, Copy, PartialEq, Eq)]
pub enum Part {
    /// Its new nodes are not numbered from the number of the source's nodes on, in preorder, or a number stands twice.
    Numbers,
    /// A clause on lowered programs, but that on texts.
    Lowered(Clause),
    /// The source or the lowered program has no meaning.
    NoMeaning,
    /// What the program does itself.
    Program,
    /// What a function does.
    Function,
    /// What a class is, or that it is there.
    Class,
    /// What a class does when it is constructed, and no more.
    Construction,
    /// What the private members are.
    Private,
    /// What is declared.
    Declaration,
    /// The type of the source, what is imported or exported.
    Export,
    /// Literals and names are not those of the source, though both programs have one meaning.
    Texts,
}

/// What is said of a source and a lowered program.
#[derive(Debug, Clone, Copy, PartialEq, Eq)]
pub enum Verdict {
    /// The lowered program meets every clause, and means what the source means.
    Yes,
    /// It does not: `part` is the first in which it fails, `node` the number of the node there, and 0 where no node is told.
    No { part: Part, node: NodeId },
}

/// Why nothing is said.
#[derive(Debug, Clone, Copy, PartialEq, Eq)]
pub enum CheckError {
    /// There was not enough memory.
    NoMemory,
    /// Codes stand in each other more often than an evaluation goes into them.
    TooDeep,
}

impl From<AllocError> for CheckError {
    ghost use Rattle.step_check.specs.declared.verdict.CheckError.{CheckError};

    ghost from_gives = { λ _ error. error ≡ CheckError.NoMemory };

    fn from(_: AllocError) -> CheckError {
        CheckError::NoMemory
    }
}
