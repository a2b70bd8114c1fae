//! The sending side of RLC acknowledged mode (TS 25.322 4.2.1.3, 9.7.3, 11.3.2, 11.5, 11.6).
#![tactic(auto)]

mod ages;
mod discard;
mod left;
mod outgoing;
mod pass;
mod scan;
mod send;
mod tx_buffer;

pub use dch_am::StatusTaken;
pub use send::AmSend;
