//! Segmentation and reassembly: how SDUs are cut into RLC PDUs, and SDUs read from PDUs in order (TS 25.322 9.2.2.8,
//! 11.2.3, 11.3.3).
#![tactic(auto)]

mod laws;
mod reassembler;

pub use laws::filled_law;
pub use reassembler::{LONGEST_SDU, Reassembler};
