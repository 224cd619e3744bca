// Generated names.

use crate::ids::NodeId;
use crate::list::List;
use crate::name::Name;

/// The names that a lowering made, each with what it stands for. Generated functions are the functions
/// with new numbers, and are not repeated here; a renamed binding of the source keeps its number.
#[derive(Drop)]
pub struct Ledger {
    pub entries: List<LedgerEntry>,
}

/// A generated name.
#[derive(Drop)]
pub struct LedgerEntry {
    pub name: Name,
    pub kind: GeneratedKind,
}

/// What a generated name stands for. The number is that of the class for `ClassTemp`, `Brand`,
/// `SuperFn` and `Private`, and that of the declaring private identifier for the others.
#[derive(Debug, Clone, Copy, PartialEq, Eq)]
pub enum GeneratedKind {
    /// A temporary.
    Temp,
    /// A parameter.
    Param,
    /// The temporary of a class.
    ClassTemp(NodeId),
    /// The `WeakMap` of a private instance field.
    WeakMap(NodeId),
    /// The object of a private static field.
    StaticField(NodeId),
    /// The `WeakSet` of the private methods of a class.
    Brand(NodeId),
    /// The function of a private method or accessor.
    Method(NodeId),
    /// The key of a private member that is kept as a property.
    LooseKey(NodeId),
    /// The function that stands for `super(..)` of a constructor.
    SuperFn(NodeId),
    /// The arguments of a constructor.
    Args,
    /// The closure of trailing static blocks.
    Closure,
    /// A private name.
    Private(NodeId),
}
