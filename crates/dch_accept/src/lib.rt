//! A configuration that is accepted, with its plans, and the values that pass between the physical layer and the nodes.
#![tactic(auto)]

mod accepted;
mod blocks;
mod cells;
mod clear;
mod frame;
mod refusal;
mod room;
mod set_blocks;

pub use accepted::{Accepted, accept};
pub use blocks::TtiBlocks;
pub use frame::{FrameView, PhyFrame};
pub use refusal::Refusal;
pub use room::TtiRoom;
pub use set_blocks::SetBlocks;
