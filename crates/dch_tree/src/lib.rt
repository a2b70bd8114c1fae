//! The keys of a configuration's text: which are missing, unknown or out of range, and what the others say.
#![tactic(auto)]

mod bearer;
mod channel;
mod document;
mod fault;
mod path;
mod rule;
mod sharing;
mod side;
mod table;

pub use document::{TreeError, configuration};
pub use fault::Fault;
pub use path::KeyPath;
