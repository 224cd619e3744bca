// The answer of a call that met a fault.

use thiserror::Error;

/// A source or a sink met a fault, and counted it.
#[derive(Debug, Clone, Copy, PartialEq, Eq, Error)]
#[error("a source or a sink failed")]
pub struct Failed;
