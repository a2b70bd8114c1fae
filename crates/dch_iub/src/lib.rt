//! Data frames between the Node B and the RNC (TS 25.427): the transport blocks of a set of channels, written and read.
#![tactic(auto)]

mod blocks;
mod check;
mod error;
mod greatest;
mod header;
mod judge;
mod laws;
mod read;
mod shape;
mod take;
mod write;

pub use error::IubError;
pub use greatest::longest;
pub use laws::one_reading;
pub use read::{IubUl, read_dl, read_ul};
pub use shape::frame_len;
pub use write::{write_dl, write_ul};
