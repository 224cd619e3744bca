// Why an evaluation gives no value.

ghost use Rattle.std.specs.Prelude.{◌≡◌};

use std::alloc::AllocError;

/// Why an evaluation gives no value.
#[derive(Debug, Clone, Copy, PartialEq, Eq)]
pub enum Fault {
    /// The code has no meaning.
    NoMeaning,
    /// More codes stand in each other than the evaluation goes into, or a value was made a key 4,294,967,295 times.
    TooDeep,
    /// There was not enough memory.
    NoMemory,
}

impl From<AllocError> for Fault {
    ghost use Rattle.es_evaluator.specs.declared.fault.Fault.{Fault};

    ghost from_gives = { λ _ fault. fault ≡ Fault.NoMemory };

    fn from(_: AllocError) -> Fault {
        Fault::NoMemory
    }
}
