//! Soft handover: the uplink Iub frames of several Node Bs become one frame for the RNC.
#![tactic(auto)]

mod channel;
mod combiner;
mod error;
mod laws;
mod leg;
mod legs;
mod set;
mod write;

pub use combiner::Combiner;
pub use error::CombineError;
pub use laws::{one_frame_law, sent_blocks_law};
