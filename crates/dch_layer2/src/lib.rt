//! Layer 2 of an end of a dedicated channel, RLC and MAC-d above the transport blocks (TS 25.322, TS 25.321): a bearer
//! in its mode, between SDUs and blocks; and all bearers, with the choice of a combination where TTIs start.
#![tactic(auto)]

mod am;
mod bearer;
mod block;
mod changing;
mod channel;
mod choosing;
mod laws;
mod layer;
mod opening;
mod shape;
mod starting;
mod taking;
mod telling;
mod tm;
mod um;

pub use changing::NextLayer;
pub use laws::{block_law, bounded_law, count_law};
pub use layer::Layer2;
pub use telling::tell_answer;
