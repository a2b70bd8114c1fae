//! The receiving side of RLC acknowledged mode (TS 25.322 4.2.1.3, 11.3.3, 11.6.3).
#![tactic(auto)]

mod buffer;
mod holder;
mod missing_runs;
mod mrw;
mod places;
mod reading;
mod recv;
mod stored;
mod telling;
mod window;

pub use dch_am::{MrwTaken, Taken};
pub use recv::AmRecv;
