// What a program is lowered to, if it is valid.

ghost use Rattle.std.specs.Prelude.{◌≡◌, ◌<◌, ◌^◌, IfOk, OnOk, IfErr, true};
ghost use Rattle.es_base.specs.Conforms.{conforms};
ghost use Rattle.es_base.specs.Preorder.{nodes, numbered_from};
ghost use Rattle.es_base.specs.declared.table.Place.{Place};
ghost use Rattle.es_reading.specs.Told.{ids};
ghost use Rattle.es_validity.specs.Validity.{is_valid};
ghost use Rattle.es_shapes.specs.Warnings.{numbers};
ghost use Rattle.es_steps.specs.Shapes.{shapes};
ghost use Rattle.es_steps.specs.Told.{warnings_of};
ghost use Rattle.lower_run.specs.Outcome.{IsNotLowered};

use crate::lowering::{Lowered, Lowers};
use es_base::diagnostic::Diagnostic;
use es_base::ids::NodeId;
use es_binding_faults::check::check_valid;
use es_lowering::lowering::Unlowered;
use es_node::node::Node;
use es_shapes::warnings::warnings;
use es_steps::options::Options;
use es_validity::error::LowerError;
use std::alloc::{AllocError, Global};

/// What a program is lowered to, and the warnings for it.
#[derive(Drop)]
pub struct Warned {
    pub lowered: Lowered,
    pub warnings: Vec<Diagnostic>,
}

/// Why a program is not lowered.
#[derive(Debug, Clone, Copy, PartialEq, Eq)]
pub enum NotLowered {
    /// It has a fault, or is not lowered yet.
    Refused(LowerError),
    /// Codes stand in it too deep for what it was lowered to to be judged.
    TooDeep,
}

impl From<LowerError> for NotLowered {
    ghost use Rattle.lower_run.specs.declared.program.NotLowered.{NotLowered};

    ghost from_gives = { λ error reason. reason ≡ NotLowered.Refused error };

    fn from(error: LowerError) -> NotLowered {
        NotLowered::Refused(error)
    }
}

impl From<AllocError> for NotLowered {
    ghost use Rattle.es_validity.specs.declared.error.LowerError.{LowerError};
    ghost use Rattle.lower_run.specs.declared.program.NotLowered.{NotLowered};

    ghost from_gives = { λ _ reason. reason ≡ NotLowered.Refused LowerError.NoMemory };

    fn from(_: AllocError) -> NotLowered {
        NotLowered::Refused(LowerError::NoMemory)
    }
}

/// What a program is lowered to, if it is valid and the lowering does not decline it. Fails on allocation failure, where the
/// program has a fault, and where it is declined.
pub fn lower_program<L: Lowers>(
    alloc: Global,
    lowering: &L,
    options: &Options,
    tree: Node,
    foreign: &[NodeId],
) -> Result<Warned, NotLowered>
    requires conforms { conforms Place.Program tree ≡ true }
    requires preorder { tree ≡ numbered_from 0 tree }
    requires few { nodes tree < 2 ^ 32 }
    ensures valid { OnOk result (is_valid options.now (ids foreign.now) tree ≡ true) }
    ensures program { IfOk result (λ r. conforms Place.Program r.lowered.program ≡ true) }
    ensures made { IfOk result (λ r. L.makes options.now tree (ids foreign.now) r.lowered.names.entries r.lowered.program) }
    ensures warned { IfOk result (λ r. numbers r.warnings.items ≡ warnings_of options.now tree) }
    ensures shaped { IfOk result (λ r. r.lowered.shapes.items ≡ shapes options.now tree) }
    ensures refused { IfErr result (IsNotLowered L.declines options.now tree (ids foreign.now)) }
{
    check_valid(alloc, &tree, foreign, options)?;
    let warnings = warnings(alloc, &tree, options)?;
    match lowering.lower(alloc, options, tree, foreign) {
        Ok(lowered) => Ok(Warned { lowered, warnings }),
        Err(Unlowered::NotYet { node }) => Err(NotLowered::Refused(LowerError::NotYet { node })),
        Err(Unlowered::TooDeep) => Err(NotLowered::TooDeep),
        Err(Unlowered::NoMemory) => Err(NotLowered::Refused(LowerError::NoMemory)),
    }
}
