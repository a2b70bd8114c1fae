//! The commands `link` and `soft`: what their lines say to nodes that run together, and their radio frames stage by
//! stage.
#![tactic(auto)]

mod filter;
mod handler;
mod laws;
mod reading;
mod soft_filter;
mod soft_handler;
mod soft_reading;

pub use handler::LinkHandler;
pub use laws::one_text_law;
pub use soft_handler::SoftHandler;
