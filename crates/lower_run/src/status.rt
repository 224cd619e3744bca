// How a run ends.

ghost use Rattle.std.specs.Prelude.{◌≡◌};
ghost use Rattle.lower_run.specs.Lines.{status_number};

/// How a run ended.
#[derive(Debug, Clone, Copy, PartialEq, Eq)]
pub enum Status {
    /// The lowered tree was written.
    Done,
    /// The tree has a fault, or is not lowered yet.
    Refused,
    /// The arguments are not in the grammar.
    BadArguments,
    /// The bytes are no JSON, or their value is no program.
    NotATree,
    /// The source failed.
    ReadFault,
    /// The sink failed, and holds a part of what was to be written.
    WriteFault,
    /// There was not enough memory; nothing was written.
    NoMemory,
    /// The source has more than 67,108,864 bytes.
    TooLong,
    /// Codes stand in each other too deep for what the tree was lowered to to be judged.
    TooDeep,
}

impl Status {
    /// The status with which the program ends, 0 to 7 or 9.
    pub fn number(self) -> u8
        ensures { result ≡ status_number self }
    {
        match self {
            Status::Done => 0,
            Status::Refused => 1,
            Status::BadArguments => 2,
            Status::NotATree => 3,
            Status::ReadFault => 4,
            Status::WriteFault => 5,
            Status::NoMemory => 6,
            Status::TooLong => 7,
            Status::TooDeep => 9,
        }
    }
}
