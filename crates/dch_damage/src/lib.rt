//! Damage to the frames of one radio frame (10 ms) on their way between the nodes: it waits in tables until the frames
//! come.
#![tactic(auto)]

mod arrival;
mod damage;
mod iub;
mod radio;
mod turned;

pub use damage::Damage;
