//! The command `gen`: a configuration of the program's own, three nodes that run while units are offered to six bearers
//! in both directions, and a summary of what they tell.
#![tactic(auto)]

mod accepting;
mod bearers;
mod channels;
mod combinations;
mod configuration;
mod counts;
mod generator;
mod open;
mod run;
mod summary;
mod units;

pub use accepting::accept_gen;
pub use dch_link::Leg;
pub use generator::Generator;
pub use open::open_gen;
pub use run::{GenFault, run_gen};
pub use summary::MOST_BYTES;
