//! The nearest block of a convolutional code, by a search over the 256 states of the encoder. All memory is taken at
//! opening.
#![tactic(auto)]

mod distance;
mod inverse;
mod laws;
mod narrow;
mod steps;
mod table;
mod tiny;
mod trellis;
mod undamaged;
mod wide;

pub use laws::{copies_law, free_distance_law};
pub use trellis::Trellis;
