use dch_script::LineError;

/// Why a line is not handled.
#[derive(Clone, Copy)]
pub enum LineFault {
    /// The line is malformed.
    Malformed(LineError),
    /// Memory was wanted and not found.
    NoMemory,
}

/// Why the lines of a piece are not all good and written.
#[derive(Clone, Copy)]
pub enum Stop {
    /// A line is not handled.
    Fault(LineFault),
    /// The sink failed.
    Failed,
}

/// How following an input ended.
#[derive(Clone, Copy)]
pub enum Outcome {
    /// Each line was good, and all was written.
    Ok,
    /// A line is malformed. The last line written says why.
    Refused,
    /// The source failed.
    ReadFault,
    /// The sink failed.
    WriteFault,
    /// Memory was wanted for a line and not found. The text of the lines before it is written.
    NoMemory,
    /// More than 67,108,864 bytes came in.
    TooLong,
}
