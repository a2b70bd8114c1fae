use dch_bits::NoMemory;
use std::alloc::{AllocError, AllocFailed};
use std::io;

/// Why the program ends before it is done.
#[derive(Drop)]
pub enum Fault {
    /// Memory was wanted and not found.
    NoMemory,
    /// Standard output can't be written, or the clock not read.
    Io(io::Error),
}

impl From<NoMemory> for Fault {
    fn from(_: NoMemory) -> Self {
        Fault::NoMemory
    }
}

impl From<AllocError> for Fault {
    fn from(_: AllocError) -> Self {
        Fault::NoMemory
    }
}

impl<T: Drop> From<AllocFailed<T>> for Fault {
    fn from(_: AllocFailed<T>) -> Self {
        Fault::NoMemory
    }
}

impl From<io::Error> for Fault {
    fn from(error: io::Error) -> Self {
        Fault::Io(error)
    }
}
