//! The network controller: units become downlink Iub frames, and uplink Iub frames become units, one step for each
//! event.
#![tactic(auto)]

mod downlink;
mod event;
mod laws;
mod node;
mod parts;
mod sets;
mod uplink;

pub use event::RncEvent;
pub use laws::{one_arrival_law, one_frame_law, one_output_law};
pub use node::Rnc;
