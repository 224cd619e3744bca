// A lowering, and what it gives.

ghost use Rattle.std.specs.Prelude.{◌≡◌, List, IfErr, IfOk};
ghost use Rattle.es_base.specs.Tree.{Tree};
ghost use Rattle.es_base.specs.declared.ledger.LedgerEntry.{LedgerEntry};
ghost use Rattle.es_steps.specs.declared.options.Options.{Options};
ghost use Rattle.es_lowering.specs.declared.lowering.Unlowered.{Unlowered};

use es_base::ids::NodeId;
use es_base::ledger::Ledger;
use es_node::node::Node;
use es_steps::options::Options;
use std::alloc::{AllocError, Global};
use thiserror::Error;

/// A program that a source is said to be lowered to, with its generated names.
#[derive(Drop)]
pub struct LoweredProgram {
    pub program: Node,
    pub names: Ledger,
}

/// Why a valid program is not lowered.
#[derive(Debug, Clone, Copy, PartialEq, Eq, Error)]
pub enum Unlowered {
    /// There was not enough memory.
    #[error("out of memory")]
    NoMemory,
    /// It is not lowered yet, for a reason that this node tells.
    #[error("not lowered yet, at {}", node.0)]
    NotYet { node: NodeId },
    /// Codes stand in it too deep for what it was lowered to to be judged.
    #[error("too deep")]
    TooDeep,
}

impl From<AllocError> for Unlowered {
    ghost use Rattle.es_lowering.specs.declared.lowering.Unlowered.{Unlowered};

    ghost from_gives = { λ _ error. error ≡ Unlowered.NoMemory };

    fn from(_: AllocError) -> Unlowered {
        Unlowered::NoMemory
    }
}

/// A lowering. Nothing is asked of what it makes and declines: it says so itself, and may say nothing (`MakesAny`,
/// `DeclinesAny`).
pub trait Lowering {
    /// What it makes of a program under options, with which generated names.
    ghost makes: { Options → Tree → List LedgerEntry → Tree → Type 0 };

    /// Why it makes nothing of one: of each reason, that of allocation failure too.
    ghost declines: { Options → Tree → Unlowered → Type 0 };

    /// What a valid program is lowered to under these options: its nodes keep their numbers, and new nodes have the numbers from
    /// the number of its nodes on, in preorder. Fails on allocation failure, and where the program is not lowered yet.
    fn lower(
        &self,
        alloc: Global,
        options: &Options,
        source: &Node,
    ) -> Result<LoweredProgram, Unlowered>
        ensures made { IfOk result (λ r. makes options.now source.now r.names.entries r.program) }
        ensures declined { IfErr result (declines options.now source.now) };
}
