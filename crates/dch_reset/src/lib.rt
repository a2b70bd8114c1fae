//! The acknowledged mode with RLC reset (TS 25.322 11.4): an end, which sends RESETs and answers them; two ends with
//! the blocks in flight between them; and a law on every history of two ends, whatever is offered, built, lost and
//! delivered, and however often they are reset.
#![tactic(auto)]

mod answers;
mod end;
mod history_laws;
mod inside;
mod laws;
mod line;
mod outcome;
mod peer;
mod pending;
mod run;
mod running;
mod setup;

pub use answers::Got;
pub use end::ResetEnd;
pub use history_laws::reset_law;
pub use inside::are_inside;
pub use laws::calls_law;
pub use outcome::ResetRun;
pub use run::run_reset;
pub use setup::ResetEvent;
