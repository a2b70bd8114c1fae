//! The top call of the program: words and bytes in, bytes and a status out. It reads the words `COMMAND [COUNT]
//! [--start N] [--quiet]`, runs the command from its first byte to its status, and leaves the nodes of the run on a
//! bench.
#![tactic(auto)]

mod arguments;
mod bench;
mod check;
mod command;
mod encode_handler;
mod generate;
mod handlers;
mod line;
mod lines;
mod nodes;
mod number;
mod soft_laws;
mod trace_laws;

pub use arguments::one_meaning_law;
pub use bench::Bench;
pub use command::{clean_law, run};
pub use dch_check::Status;
pub use dch_runlaw::{nodes_law, tm_nodes_law, um_nodes_law, whole_nodes_law};
pub use soft_laws::soft_law;
pub use trace_laws::{node_b_trace_law, rnc_trace_law};
