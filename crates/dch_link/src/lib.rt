//! Nodes together, one radio frame of 10 ms after another, with damage to the frames between them: the terminal, the
//! Node B and the network controller; and in soft handover one to six Node Bs in place of the one.
#![tactic(auto)]

mod check;
mod event;
mod hearing;
mod laws;
mod leg;
mod link;
mod refusal;
mod soft;
mod soft_event;
pub mod soft_stage;
mod stage;

pub use dch_nodeb::NodeB;
pub use dch_rnc::Rnc;
pub use dch_ue::Ue;
pub use event::LinkEvent;
pub use laws::one_text_law;
pub use leg::Leg;
pub use link::{CHECKS, Link};
pub use soft::{COMBINED, Soft};
pub use soft_event::{LegDamage, SoftEvent};
pub use stage::{STAGES, Stage};
