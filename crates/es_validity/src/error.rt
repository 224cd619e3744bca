// Why a program is not lowered.

ghost use Rattle.std.specs.Prelude.{◌≡◌};

use crate::fault::{Cause, Fault, LeftOut, TreeRule};
use es_base::ids::NodeId;
use std::alloc::AllocError;
use thiserror::Error;

/// Why a program is not lowered. Where several nodes have a fault it is that of the least number, and at one node the first
/// in the order `BadTree`, `DuplicatePrivate`, `UndeclaredPrivate`, `Unsupported`.
#[derive(Debug, Clone, Copy, PartialEq, Eq, Error)]
pub enum LowerError {
    /// There was not enough memory.
    #[error("out of memory")]
    NoMemory,
    /// The program is valid and has a form that is not supported.
    #[error("Unsupported {what:?} at {}", node.0)]
    Unsupported { node: NodeId, what: LeftOut },
    /// No class body around a private name declares it.
    #[error("UndeclaredPrivate at {}", node.0)]
    UndeclaredPrivate { node: NodeId },
    /// A class body declares a private name again, other than to complete one getter and one setter.
    #[error("DuplicatePrivate at {}", node.0)]
    DuplicatePrivate { node: NodeId },
    /// The tree breaks a rule.
    #[error("BadTree {rule:?} at {}", node.0)]
    BadTree { node: NodeId, rule: TreeRule },
    /// The program has this many nodes, which are too many.
    #[error("TooLarge {nodes}")]
    TooLarge { nodes: u32 },
    /// The program is valid and not of the form that is built; the node is the least that is not as the form asks.
    #[error("NotYet at {}", node.0)]
    NotYet { node: NodeId },
}

impl From<AllocError> for LowerError {
    ghost use Rattle.es_validity.specs.declared.error.LowerError.{LowerError};

    ghost from_gives = { λ e r. r ≡ LowerError.NoMemory };

    fn from(_: AllocError) -> LowerError {
        LowerError::NoMemory
    }
}
