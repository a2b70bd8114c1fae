ghost use Rattle.std.specs.Prelude.{◌≤◌, ◌+◌, length};
ghost use Rattle.dch_gen.specs.Generators.{IsReady, MayCount};

use crate::fault::Fault;
use crate::sum::Sum;
use crate::work::{Mode, Speed, Unit, nanos_of};
use dch_bits::NoMemory;
use dch_gen::{Generator, MOST_BYTES, open_gen};
use dch_script::Report;
use std::alloc::Global;
use std::rt::Clock;
use std::time::Instant;

/// Prints a line about radio frames of `gen`, which pass through all three nodes.
pub fn run_generator<R: Print + Clock>(rt: &R, alloc: Global, mode: Mode) -> Result<(), Fault> {
    let frames = match mode {
        Mode::Once => 8,
        Mode::Measure => 400,
    };
    let mut summary = Report::open(alloc, MOST_BYTES)?;
    let nanos = run_nodes(rt, alloc, frames, &mut summary)?;
    match mode {
        Mode::Once => {
            let mut sum = Sum::new();
            sum.octets(summary.bytes());
            let value = sum.value();
            println!(rt; "gen frames={frames} sum={value:08x}")?;
        }
        Mode::Measure => {
            let speed = Speed::new(Unit::Frames, u64::from(frames), nanos);
            println!(rt; "gen {speed}")?;
        }
    }
    Ok(())
}

/// Opens the nodes, and runs them through so many radio frames. Answers how long the run took, in nanoseconds.
fn run_nodes<C: Clock>(
    clock: &C,
    alloc: Global,
    frames: u32,
    summary: &mut Report,
) -> Result<u64, Fault>
    requires few { frames ≤ 100000 }
    requires room { length summary.old.text + 1500 ≤ summary.old.most }
{
    match open_gen(alloc, 0) {
        Ok(mut generator) => {
            let nanos = run_frames(clock, &mut generator, frames, summary);
            drop(generator);
            nanos
        }
        Err(NoMemory) => Err(Fault::NoMemory),
    }
}

fn run_frames<C: Clock>(
    clock: &C,
    generator: &mut Generator,
    frames: u32,
    summary: &mut Report,
) -> Result<u64, Fault>
    requires few { frames ≤ 100000 }
    requires ready { IsReady generator.old }
    requires counts { MayCount generator.old 3200000 }
    requires room { length summary.old.text + 1500 ≤ summary.old.most }
{
    let start = Instant::now(clock)?;
    generator.run(frames);
    let nanos = nanos_of(start.elapsed(clock)?);
    generator.put_summary(frames, summary);
    Ok(nanos)
}
