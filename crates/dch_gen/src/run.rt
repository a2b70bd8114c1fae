ghost use Rattle.std.specs.Prelude.{◌≤◌, ◌*◌, IfOk};
ghost use Rattle.dch_io.specs.Ends.{end_of};
ghost use Rattle.dch_gen.specs.Generators.{HasPassed};
ghost use Rattle.dch_gen.specs.GenRuns.{GivesNodes, IsConfigured};

use crate::generator::Generator;
use crate::open::open_gen;
use crate::summary::MOST_BYTES;
use dch_bits::NoMemory;
use dch_io::{Sink, write_all};
use dch_link::{NodeB, Rnc, Ue};
use dch_script::Report;
use std::alloc::Global;

/// Why no whole summary was written.
#[derive(Clone, Copy)]
pub enum GenFault {
    /// The sink failed within the summary.
    WriteFault,
    /// Memory was wanted and not found. Nothing is written.
    NoMemory,
}

/// Opens three nodes for the configuration of `gen`, runs them through so many radio frames from a CFN of 8 times
/// `start` on, and writes a summary. Gives the nodes where it was written.
pub fn run_gen<K: Sink>(
    alloc: Global,
    start: u8,
    frames: u32,
    sink: &mut K,
) -> Result<(Ue, NodeB, Rnc), GenFault>
    requires start { start ≤ 31 }
    requires few { frames ≤ 100000 }
    ensures { GivesNodes start frames (end_of K.taken K.faults sink.old sink.new) result }
{
    let Ok(mut report) = Report::open(alloc, MOST_BYTES) else {
        return Err(GenFault::NoMemory);
    };
    let generator = match run_frames(alloc, start, frames) {
        Ok(generator) => generator,
        Err(NoMemory) => return Err(GenFault::NoMemory),
    };
    generator.put_summary(frames, &mut report);
    match write_all(sink, report.bytes()) {
        Ok(()) => Ok(generator.into_nodes()),
        Err(_failed) => {
            drop(generator);
            Err(GenFault::WriteFault)
        }
    }
}

/// Opens the nodes, and runs them through so many radio frames.
fn run_frames(alloc: Global, start: u8, frames: u32) -> Result<Generator, NoMemory>
    requires start { start ≤ 31 }
    requires few { frames ≤ 100000 }
    ensures configured { IfOk result (λ generator. IsConfigured generator.accepted) }
    ensures passed { IfOk result (λ generator. HasPassed (8 * start) frames frames generator) }
{
    let mut generator = open_gen(alloc, 8 * start)?;
    generator.run(frames);
    Ok(generator)
}
