ghost use Rattle.std.specs.Prelude.{◌≡◌, ◌≤◌};
ghost use Rattle.dch_io.specs.Ends.{end_of};
ghost use Rattle.dch_top.specs.Benches.{no_nodes};
ghost use Rattle.dch_top.specs.GenRuns.{EndsGen};

use crate::bench::Bench;
use dch_check::Status;
use dch_gen::{GenFault, run_gen};
use dch_io::Sink;
use std::alloc::Global;

/// Runs `gen`: a network controller, a Node B and a terminal run together through so many radio frames of the program's
/// own script, from a CFN of 8 times `start` on, and a summary is written. Nothing is read.
pub fn run_generate<K: Sink>(
    alloc: Global,
    start: u8,
    frames: u32,
    sink: &mut K,
    bench: &mut Bench,
) -> Status
    requires start { start ≤ 31 }
    requires few { frames ≤ 100000 }
    requires bench { bench.old ≡ no_nodes }
    ensures { EndsGen start frames (end_of K.taken K.faults sink.old sink.new) bench.new result }
{
    match run_gen(alloc, start, frames, sink) {
        Ok((ue, node_b, rnc)) => {
            bench.hold_ue(ue);
            bench.hold_node_b(node_b);
            bench.hold_rnc(rnc);
            Status::Ok
        }
        Err(GenFault::WriteFault) => Status::WriteFault,
        Err(GenFault::NoMemory) => Status::NoMemory,
    }
}
