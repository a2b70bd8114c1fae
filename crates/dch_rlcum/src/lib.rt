//! The unacknowledged mode of RLC (TS 25.322 4.2.1.2): PDUs that are lost are not sent again.
#![tactic(auto)]

mod laws;
mod receive;
mod send;

pub use laws::{arrived_units_law, known_units_law, read_pdus_law};
pub use receive::UmRecv;
pub use send::UmSend;
