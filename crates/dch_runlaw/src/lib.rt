//! Laws on whole runs of `link` and `soft`: radio frames, TTIs that arrive as they were sent or with few cells changed,
//! the bearers of two layers 2 with the blocks between them, and the rows of the text. Definitions and laws, no code.
#![tactic(auto)]

mod bearer_laws;
mod clear_laws;
mod frame_laws;
mod headline_laws;
mod honest_laws;
mod interval_laws;
mod legs_laws;
mod nodes_laws;
mod over_laws;
mod plain_laws;
mod script_laws;
mod sized_laws;
mod soft_nodes_laws;
mod text_laws;
mod tti_laws;
mod undamaged_laws;

pub use bearer_laws::{am_history_law, tm_law, um_law, um_whole_law, whole_law};
pub use clear_laws::{clear_law, harmless_law};
pub use dch_linkcmd::{LinkHandler, SoftHandler};
pub use frame_laws::{frame_law, run_law};
pub use headline_laws::headline_law;
pub use honest_laws::{
    honest_law, link_law, tm_link_law, tm_undamaged_law, um_link_law, um_undamaged_law,
    undamaged_law,
};
pub use interval_laws::interval_law;
pub use legs_laws::{leg_law, unharmed_law};
pub use nodes_laws::{nodes_law, tm_nodes_law, um_nodes_law, whole_nodes_law};
pub use over_laws::{link_over_law, tm_over_law, um_over_law};
pub use plain_laws::plain_law;
pub use script_laws::soft_script_law;
pub use sized_laws::{end_law, sized_law};
pub use soft_nodes_laws::{soft_events_law, soft_nodes_law, soft_told_law};
pub use text_laws::{false_law, read_law, shown_read_law, told_law};
pub use tti_laws::{
    damaged_frame_law, damaged_tti_law, little_changed_law, read_after_write_law, sent_tti_law,
    told_apart_law,
};
pub use undamaged_laws::{harmless_run_law, undamaged_over_law, undamaged_run_law};
