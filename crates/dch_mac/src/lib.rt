//! MAC of a dedicated channel (TS 25.321): the C/T field of a transport block and the bearer that a block is for, and
//! the best transport format combination for what waits to be sent.
#![tactic(auto)]

mod answer;
mod best;
mod block;
mod candidate;
mod carried;
mod choosing;
mod head;
mod moment;
mod receiver;
mod row;
mod table;

pub use answer::Demux;
pub use block::mux;
pub use choosing::{Chooser, choose};
pub use head::Head;
pub use receiver::demux;
