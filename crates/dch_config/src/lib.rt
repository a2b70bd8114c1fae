//! The configuration of a dedicated channel: its text, the limits that it keeps, and why a text is refused.
#![tactic(auto)]

mod bearer;
mod changing;
mod error;
mod limits;
mod reading;
mod side;

pub use bearer::has_ct;
pub use changing::change;
pub use dch_tree::KeyPath;
pub use dch_types::{
    AmRules, Bearer, Coding, Combination, Config, Crc, Dir, Downlink, Format, Mode, Sequence, Side,
    Trch, Uplink,
};
pub use error::{ChangeError, ConfigError};
pub use reading::read;
