//! How many bytes of text the lines of a step have at most, which the calls `step` of the three nodes promise.
//! Definitions and laws, no code.
#![tactic(auto)]

mod laws;

pub use laws::{few_law, held_law, limited_law, receiver_law, report_law, still_law, text_law};
