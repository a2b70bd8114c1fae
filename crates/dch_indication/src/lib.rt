//! What a node tells its user, as values: units that are handed up, frames that are sent, blocks and frames that are
//! refused.
#![tactic(auto)]

mod indication;
mod indications;

pub use indication::Indication;
pub use indications::Indications;
