// Warnings.

use crate::ids::{NodeId, Span};

/// A warning about a node. Its string is always `Top-level await is not available in the configured
/// target environment.`
#[derive(Debug, Clone, Copy, PartialEq, Eq)]
pub struct Diagnostic {
    pub node: NodeId,
    pub span: Option<Span>,
}
