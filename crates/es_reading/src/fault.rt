// Why a value is no tree.

ghost use Rattle.std.specs.Prelude.{◌≡◌};

use std::alloc::AllocError;
use thiserror::Error;

/// What is wrong with a value that stands where a node should.
#[derive(Debug, Clone, Copy, PartialEq, Eq)]
pub enum What {
    /// It is no object with a string `type`.
    NotANode,
    /// Its `type` names no kind of node.
    UnknownKind,
    /// Its kind may not stand there.
    WrongPlace,
    /// A member of its kind is missing, is of the wrong type, or is a string that may not stand there.
    BadMember,
}

/// Why a value was not read.
#[derive(Debug, Drop, Error)]
pub enum ReadError {
    /// There was not enough memory.
    #[error("out of memory")]
    NoMemory,
    /// The first fault in preorder is that of the node with this number; where it is no node,
    /// that is the number which it would have.
    #[error("not a tree: {what:?} at {at}")]
    NotATree { at: u32, what: What },
    /// The first fault in preorder is a float in a member that holds no nodes, of the node with
    /// this number.
    #[error("not a tree: float at {at}")]
    Float { at: u32 },
}

impl From<AllocError> for ReadError {
    ghost use Rattle.es_reading.specs.declared.fault.ReadError.{ReadError};

    ghost from_gives = { λ e r. r ≡ ReadError.NoMemory };

    fn from(_: AllocError) -> ReadError {
        ReadError::NoMemory
    }
}
