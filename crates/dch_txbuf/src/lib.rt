//! SDUs in blocks of a pool, and what PDUs take of them, for the first time or again (TS 25.322 9.2.1.4, 9.2.2.8, 9.4,
//! 11.3.2).
#![tactic(auto)]

mod body;
mod laws;
mod next;
mod octets;
mod row;
mod sdu;
mod store;
mod taken;
mod write;

pub use dch_sar::LONGEST_SDU;
pub use laws::payload_law;
pub use next::{MOST_PDUS, next_start};
pub use store::SduBuffer;
pub use taken::{Cut, Start, next_cut};
pub use write::{Header, write_taken, write_um_taken};
