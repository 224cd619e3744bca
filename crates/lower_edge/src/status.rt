// How runs end where nothing is said of the bytes.

/// The status of a run that answered nothing.
#[derive(Debug, Clone, Copy, PartialEq, Eq)]
pub enum EdgeStatus {
    /// The arguments are not in the grammar.
    BadArguments,
    /// The source failed.
    ReadFault,
    /// The sink failed, and holds a part of what was to be written.
    WriteFault,
    /// There was not enough memory; nothing was written.
    NoMemory,
    /// The source has more than 67,108,864 bytes.
    TooLong,
}
