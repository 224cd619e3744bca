// What names refer to, and what they are.

ghost use Rattle.std.specs.Prelude.{◌≡◌, IfOk};

use es_base::ledger::GeneratedKind;
use es_base::name::Name;
use std::alloc::{AllocError, Global};

/// What a name refers to (ECMA-262, 9.1): a binding, by its first declaring identifier, or, where no scope
/// holds its spelling, that spelling.
#[derive(Drop)]
pub enum Referent {
    Bound(u32),
    Free(Name),
}

impl Referent {
    /// A copy. Fails on allocation failure alone.
    pub fn try_clone(&self, alloc: Global) -> Result<Referent, AllocError>
        ensures { IfOk result (λ r. r ≡ self.now) }
    {
        Ok(match self {
            Referent::Bound(binding) => Referent::Bound(*binding),
            Referent::Free(spelling) => Referent::Free(spelling.try_clone(alloc)?),
        })
    }
}

/// What a name is.
#[derive(Drop)]
pub enum NameKind {
    /// A binding that is not written.
    Fixed(u32),
    /// A binding that is written, or a free name.
    Changing(Referent),
    /// A class, by a name that an identifier declares.
    MeansClass { class: u32, binding: u32 },
    /// A generated name.
    Generated(GeneratedKind),
    /// The function of a static private method of a class.
    StaticMethod { key: u32, class: u32 },
}

/// What a private name means (ECMA-262, 9.2): its class, and the keys that read and write.
#[derive(Clone, Copy)]
pub struct PrivateReference {
    pub class: u32,
    pub is_static: bool,
    pub is_field: bool,
    pub reads: Option<u32>,
    pub writes: Option<u32>,
}
