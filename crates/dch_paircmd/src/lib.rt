//! The command pair: two ends of an acknowledged bearer that can be reset, and what each of its lines does to them (TS
//! 25.322 11.3, 11.4).
#![tactic(auto)]

mod ends;
mod events;
mod handler;
mod queue;
mod side;
mod texts;

pub use handler::PairHandler;
