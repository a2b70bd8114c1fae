//! Frames as a node sends and shows them: Iub frames of its sets and a radio frame, and what is told of them.
#![tactic(auto)]

mod iub_tx_buffer;
mod radio_tx_buffer;
mod telling;

pub use iub_tx_buffer::{IubTxBuffer, clear_sent, tx_buffers};
pub use radio_tx_buffer::RadioTxBuffer;
pub use telling::{tell_bad_tti, tell_iub, tell_no_radio, tell_radio, tell_refusal};
