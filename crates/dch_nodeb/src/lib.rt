//! The Node B: downlink Iub frames become radio frames, and uplink radio frames become Iub frames, one step for each
//! event.
#![tactic(auto)]

mod downlink;
mod event;
mod iub_rx_buffer;
mod laws;
mod node;
mod parts;
mod receiver;
mod sets;
mod transmitter;
mod uplink;

pub use event::NodeBEvent;
pub use laws::{one_output_law, one_state_law};
pub use node::NodeB;
