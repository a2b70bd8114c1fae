//! What all nodes share: the lines that they tell, the frames that they send, and a history as one step for each event.
#![tactic(auto)]

mod laws;

pub use laws::one_answer_law;
