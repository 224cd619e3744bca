// How a run ends.

ghost use Rattle.std.specs.Prelude.{◌≡◌};
ghost use Rattle.check_run.specs.Lines.{status_number};

/// How a run ended.
#[derive(Debug, Clone, Copy, PartialEq, Eq)]
pub enum CheckStatus {
    /// The lowered program is what the source may be lowered to.
    Agreed,
    /// It is not; where it fails was written.
    Differs,
    /// The arguments are not in the grammar.
    BadWords,
    /// The bytes are no JSON, or their value is no source and lowered program.
    NotAPair,
    /// The source of bytes failed.
    ReadFault,
    /// The sink failed, and holds a part of what was to be written.
    WriteFault,
    /// There was not enough memory; nothing was written.
    NoMemory,
    /// There are more than 67,108,864 bytes.
    TooLong,
    /// The source is not valid.
    Refused,
    /// The meanings of the programs are too deep to be compared.
    TooDeep,
}

impl CheckStatus {
    /// The status with which the program ends, 0 to 9.
    pub fn number(self) -> u8
        ensures { result ≡ status_number self }
    {
        match self {
            CheckStatus::Agreed => 0,
            CheckStatus::Differs => 1,
            CheckStatus::BadWords => 2,
            CheckStatus::NotAPair => 3,
            CheckStatus::ReadFault => 4,
            CheckStatus::WriteFault => 5,
            CheckStatus::NoMemory => 6,
            CheckStatus::TooLong => 7,
            CheckStatus::Refused => 8,
            CheckStatus::TooDeep => 9,
        }
    }
}
