//! The downlink's physical channels: what is sent of the channels' TTIs in each radio frame, and what is read of the
//! radio frames that were received (TS 25.212 4.2).
#![tactic(auto)]

mod demultiplexing;
mod fill;
mod laws;
mod parts;
mod reader;
mod tti;
mod writer;

pub use dch_tti::TtiOutcome;
pub use laws::{one_load_law, one_reading_law};
pub use reader::DlReader;
pub use tti::DlTti;
pub use writer::write;
