//! Radio frames as far as both directions share them (TS 25.212): rate matching (4.2.7), its plans and patterns; the
//! stages of a radio frame behind it; and the votes of received channel bits.
#![tactic(auto)]

mod cells;
mod dematching;
mod downlink_plan;
mod fixed;
mod flexible;
mod interleaver;
mod matched;
mod matching;
mod pattern;
mod places;
mod segments;
mod shares;
mod shifts;
mod uplink_interleavers;
mod uplink_plan;
mod votes;
mod walk;

pub use cells::show;
pub use dematching::rate_dematch;
pub use downlink_plan::{DownlinkPlan, downlink};
pub use flexible::is_used;
pub use interleaver::Interleaver;
pub use matching::rate_match;
pub use pattern::{Kind, Pattern, Steps, keeps, kept, origin};
pub use segments::{put_segment, segment};
pub use uplink_interleavers::UplinkInterleavers;
pub use uplink_plan::{MatchError, UplinkPlan, frame, uplink};
pub use votes::count_votes;
pub use walk::Walk;
