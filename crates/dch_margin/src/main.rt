//! How many wrong cells of a code block are always corrected: a line for each direction, channel and format of the
//! configuration on standard input, or a worst case of each (TS 25.212 4.2.3 and 4.2.7).
#![tactic(auto)]

mod carrier;
mod counting;
mod distance;
mod fewest;
mod format;
mod lines;
mod margin;
mod nearest;
mod places;
mod program;
mod report;
mod sizes;
mod telling;
mod worst;
mod worst_line;

use crate::program::run;
use crate::telling::{Telling, telling_of};
use dch_bits::NoMemory;
use dch_check::Status;
use dch_io::{StdSink, StdSource};
use std::alloc::Global;
use std::process::ExitCode;
use std::{env, io};

fn main(rt: HostRuntime) -> ExitCode {
    let status = match asked_for(rt.alloc(), env::args(&rt)) {
        Ok(telling) => {
            let mut source = StdSource::new(rt.stdin());
            let mut sink = StdSink::new(rt.stdout());
            run(rt.alloc(), telling, &mut source, &mut sink)
        }
        Err(NoMemory) => Status::NoMemory,
    };
    ExitCode::from(status.number())
}

/// What the words after the program's name ask for. Words that can't be read ask for nothing that it tells.
fn asked_for(alloc: Global, args: io::Result<env::Args>) -> Result<Option<Telling>, NoMemory> {
    match args {
        Ok(args) => match args.skip(1).collect::<Vec<String>>(alloc) {
            Ok(words) => Ok(telling_of(&words)),
            Err(_) => Err(NoMemory),
        },
        Err(error) if error.kind() == io::ErrorKind::OutOfMemory => Err(NoMemory),
        Err(_) => Ok(None),
    }
}
