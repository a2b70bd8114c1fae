//! The terminal: downlink radio frames become units, and units become uplink radio frames, one step for each event.
#![tactic(auto)]

mod event;
mod laws;
mod next;
mod node;
mod receiver;
mod transmitter;

pub use event::UeEvent;
pub use laws::{one_frame_law, one_output_law, one_reading_law};
pub use node::Ue;
