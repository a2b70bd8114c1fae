//! Transport blocks become coded bits (TS 25.212 4.2.1 to 4.2.3): parity is attached, the joined bits are cut into code
//! blocks, and these are encoded by the convolutional codes. And the checks of Iub frames (TS 25.427).
#![tactic(auto)]

mod block;
mod chain;
mod convolution;
mod crc_words;
mod cut;
mod cutting;
mod iub_words;
mod memory;
mod parity;
mod rate;
mod room;
mod tti;
mod words;

pub use block::BlockCoder;
pub use chain::code;
pub use convolution::encode;
pub use cut::Plan;
pub use cutting::{join, place, plan, split};
pub use parity::{attach, check, header_check, header7, one_parity, payload16, size};
pub use rate::{Rate, coded_len};
pub use room::CodingRoom;
pub use tti::{TtiCoder, attach_each, plan_of_tti};
