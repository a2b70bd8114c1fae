//! What stands behind the handles of the library for C: the decoder, the transport channels of a configuration, and
//! nodes with the configurations that they run, each event with its conditions tested, and what they tell in a queue.
//! And what the numbers and letters of C stand for.
#![tactic(auto)]

mod channels;
mod codes;
mod decoder;
mod handle;
mod held;
mod letters;
mod node;
mod node_b;
mod node_run;
mod parts;
mod queue;
mod raw;
mod refusal;
mod rnc;
mod room;
mod run;
mod session;
mod status;
mod told;
mod tti;
mod ue;

pub use channels::Channels;
pub use codes::{checked, coding_of, crc_of, dir_of, is_code_size, rate_of, read_bits, zeros};
pub use decoder::{Copies, Decoder};
pub use handle::{Handle, hold, put, take};
pub use held::Held;
pub use node::SessionNode;
pub use node_b::NodeBSession;
pub use refusal::{Refusal, refuse};
pub use rnc::RncSession;
pub use session::Session;
pub use status::{
    BAD_CODE, BAD_LETTER, BAD_SIZE, BAD_TTI, BUSY, CLOSED, DONE, NO_MEMORY, NOT_DUE, NOT_LOADED,
    NOTHING, OTHER_KIND, QUEUE_FULL, REFUSED, SHORT,
};
pub use told::Told;
pub use tti::{Tti, TtiFormat};
pub use ue::UeSession;
