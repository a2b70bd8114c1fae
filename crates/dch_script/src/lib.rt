//! The lines of a script, read and judged, and the lines of a report, written.
#![tactic(auto)]

mod code;
mod content;
mod event;
mod indicated;
mod judge;
mod link;
mod nodes;
mod numbers;
mod pair;
mod parts;
mod report;
mod soft;
mod stages;
mod texts;
mod units;
mod words;

pub use code::{LONGEST_LINE, parse};
pub use event::{Command, Event, LineError};
pub use indicated::line_on;
pub use judge::parse_in;
pub use numbers::{decimal_law, read_number};
pub use pair::{PairLine, begins_with_ends, parse_pair};
pub use report::{Line, Report, dir_word};
pub use soft::parse_leg;
pub use stages::{Question, StageLine, parse_stage};
