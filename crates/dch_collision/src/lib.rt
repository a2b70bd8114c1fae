//! What rate matching leaves of code blocks (TS 25.212 4.2.7) under the legal sequences of combinations (TS 25.302
//! 7.1): which coded bits are sent at least once, how many code blocks may lose bits, and the first two code blocks of
//! a direction that are sent alike. All memory but that of the answer is taken at opening.
#![tactic(auto)]

mod blocks;
mod coded;
mod collider;
mod counting;
mod direction;
mod downlink;
mod fitting;
mod flagging;
mod found;
mod laws;
pub mod legal_counting;
pub mod legal_sequences;
mod puncturing;
mod search;
mod shape;
mod uncoded;
mod uplink;
mod votes;

pub use collider::Collider;
pub use counting::count;
pub use direction::Direction;
pub use found::Found;
pub use laws::counted_formats;
pub use search::Search;
