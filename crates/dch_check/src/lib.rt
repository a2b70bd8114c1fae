//! The configuration at the front of an input, its judgement, and the lines behind it.
#![tactic(auto)]

mod acceptance;
mod both;
mod config_section;
mod configured;
mod front;
mod refusal;
mod single;
mod status;
mod taken_config;
mod verdict;
mod which;

pub use acceptance::accepted_lines;
pub use both::{Configurations, Judgement, Second, judge_both, one_both_law};
pub use config_section::ConfigSection;
pub use configured::{follow_script, take_configuration};
pub use front::{FrontKind, judge_front};
pub use single::{judge_single, one_single_law};
pub use status::{Status, status_of};
pub use taken_config::{ConfigFault, TakenConfig, take_config};
pub use verdict::{Verdict, one_judgement_law};
