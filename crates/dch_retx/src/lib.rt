//! The retransmission buffer of a sender of the acknowledged mode: the PDUs in flight, and what statuses report of them
//! (TS 25.322 9.4, 11.5.3, 11.6.4).
#![tactic(auto)]

mod buffer;
mod flight;
mod hear;
mod links;
mod names;
mod places;
mod request_set;
mod sent_pdu;
mod tell;

pub use buffer::{Pick, RetxBuffer};
pub use sent_pdu::{Extent, SentPdu};
