//! An entity of the acknowledged mode (TS 25.322 4.2.1.3), made of its sending and its receiving side, and two entities
//! with the blocks in flight between them (TS 25.322 11.3).
#![tactic(auto)]

mod answers;
mod entity;
mod inside;
mod laws;
mod outcome;
mod peer;
mod run;
mod running;
mod setup;
mod store;

pub use answers::{Built, Received};
pub use dch_amlaw::in_order_law;
pub use entity::AmEntity;
pub use inside::are_inside;
pub use laws::{events_law, listed_law};
pub use outcome::PairEnd;
pub use peer::hand_up;
pub use run::run_pair;
pub use setup::{End, PairEvent, PairSetup};
pub use store::Store;
