ghost use Rattle.std.specs.Prelude.{◌≡◌};
ghost use Rattle.dch_check.specs.Configured.{fault_status, outcome_status};

use crate::taken_config::ConfigFault;
use dch_lines::Outcome;

/// How a run ended. The number of a status is its place in this list, from 0.
#[derive(Clone, Copy, Debug, PartialEq, Eq)]
pub enum Status {
    /// All was read and written, and nothing was refused.
    Ok,
    /// The configuration is refused, or a line of the input is malformed. The last line written says why.
    Refused,
    /// The words are no command. The usage line is written.
    Usage,
    /// The source failed.
    ReadFault,
    /// The sink failed.
    WriteFault,
    /// Memory was wanted and not found. Nothing is written.
    NoMemory,
    /// More than 67,108,864 bytes came in.
    TooLong,
}

impl Status {
    /// The exit status of the program.
    pub fn number(self) -> u8
        ensures ok { self ≡ Status.Ok → result ≡ 0 }
        ensures refused { self ≡ Status.Refused → result ≡ 1 }
        ensures usage { self ≡ Status.Usage → result ≡ 2 }
        ensures read_fault { self ≡ Status.ReadFault → result ≡ 3 }
        ensures write_fault { self ≡ Status.WriteFault → result ≡ 4 }
        ensures no_memory { self ≡ Status.NoMemory → result ≡ 5 }
        ensures too_long { self ≡ Status.TooLong → result ≡ 6 }
    {
        self as u8
    }

    /// The status of a run whose lines were followed to this outcome.
    pub fn of(outcome: Outcome) -> Status
        ensures { result ≡ outcome_status outcome }
    {
        match outcome {
            Outcome::Ok => Status::Ok,
            Outcome::Refused => Status::Refused,
            Outcome::ReadFault => Status::ReadFault,
            Outcome::WriteFault => Status::WriteFault,
            Outcome::NoMemory => Status::NoMemory,
            Outcome::TooLong => Status::TooLong,
        }
    }
}

/// The status of a fault before a configuration was taken whole.
pub fn status_of(fault: ConfigFault) -> Status
    ensures { result ≡ fault_status fault }
{
    match fault {
        ConfigFault::ReadFault => Status::ReadFault,
        ConfigFault::NoMemory => Status::NoMemory,
        ConfigFault::TooLong => Status::TooLong,
    }
}
