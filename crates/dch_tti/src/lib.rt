//! TTIs of transport channels in either direction (TS 25.212 4.2): loaded, and written radio frame by radio frame;
//! received radio frames, kept for the longest TTI; and the format and the transport blocks that they give a channel.
//! All memory is taken at opening.
#![tactic(auto)]

mod block;
mod decoder;
mod formats;
mod frame_laws;
mod outcome;
mod received_frame;
mod received_frames;
mod reception;
mod transport;
mod tti;
mod tti_buffer;
mod tti_reader;
mod writer;

pub use frame_laws::{
    moved_cells_law, one_format_law, one_kept_frame_law, one_radio_frame_law, pushed_tti_law,
    written_frame_law,
};
pub use outcome::TtiOutcome;
pub use received_frame::ReceivedFrame;
pub use received_frames::ReceivedFrames;
pub use tti_buffer::{TtiBuffer, tti_buffers};
pub use tti_reader::{CountVotes, TtiReader};
pub use writer::{MultiplexFrame, write_frame};
