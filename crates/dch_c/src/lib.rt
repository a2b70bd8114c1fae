//! The library for C: the coder, and behind handles the decoder and the transport channels of a configuration.
//! `include/dch.h` has the calls as C sees them.
#![tactic(auto)]

mod channel_calls;
mod coder;
mod decoding;
mod node_calls;
mod node_opening;
mod opening;
