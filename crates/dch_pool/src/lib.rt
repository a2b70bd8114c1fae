//! Equal blocks of memory that are taken once and lent out by tokens.
#![tactic(auto)]

mod parts;
mod pool;

pub use pool::{Block, Pool};
