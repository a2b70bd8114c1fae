//! The lines of an input, handed one by one to the handler of a command, which writes to a page; and the octets, bits
//! and cells that a line shows.
#![tactic(auto)]

mod filter;
mod handler;
mod handling;
mod input;
mod later;
mod line_texts;
mod page;
mod processor;
mod refusal;
mod room;
mod sink_page;
mod stop;
mod text;

pub use filter::Filter;
pub use handler::LineHandler;
pub use input::follow_input;
pub use later::Later;
pub use line_texts::{CELLS, OCTETS, UNIT_BITS, read_cells, read_octets, read_tfci, read_unit};
pub use page::Page;
pub use processor::LineProcessor;
pub use stop::{LineFault, Outcome};
pub use text::{put_bits, put_cells, put_decimal, put_line, put_octets};
