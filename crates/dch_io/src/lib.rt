//! The outside: where bytes come from and go to, with a count of faults that never falls.
#![tactic(auto)]

mod clean;
mod feed;
mod memory;
mod outside;
mod standard;

pub use clean::{CleanSink, CleanSource};
pub use feed::{
    InputOffset, LIMIT, PIECE, Pending, ReadStop, WriteFailed, new_piece, read_next, write_all,
};
pub use memory::{MemorySink, MemorySource};
pub use outside::{Failed, Sink, Source};
pub use standard::{StdSink, StdSource};
