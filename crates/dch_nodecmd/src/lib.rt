//! The commands with one node, `nodeb`, `rnc` and `ue`. They share a handler, for which each line is one event of the
//! node; a module for each node says what its lines mean.
#![tactic(auto)]

mod handler;
mod laws;
mod node;
mod node_b;
pub mod node_b_laws;
mod node_filter;
mod radio;
mod rnc;
pub mod rnc_laws;
mod rooms;
mod taken;
mod ue;

pub use dch_nodeb::NodeB;
pub use dch_rnc;
pub use dch_ue;
pub use handler::NodeHandler;
pub use laws::no_trace_law;
pub use node::CommandNode;
pub use rooms::Rooms;
pub use taken::Taken;
