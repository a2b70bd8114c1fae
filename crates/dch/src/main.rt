//! The program `dch`: reference bits and frames of the UMTS dedicated channel, from standard input to standard output.
#![tactic(auto)]

use dch_bits::NoMemory;
use dch_io::{StdSink, StdSource};
use dch_top::{Bench, Status, run};
use std::alloc::Global;
use std::process::ExitCode;
use std::{env, io};

fn main(rt: HostRuntime) -> ExitCode {
    let status = match gather_words(rt.alloc(), env::args(&rt)) {
        Ok(words) => {
            let mut source = StdSource::new(rt.stdin());
            let mut sink = StdSink::new(rt.stdout());
            let mut bench = Bench::new();
            let status = run(rt.alloc(), &words, &mut source, &mut sink, &mut bench);
            bench.close();
            status
        }
        Err(NoMemory) => Status::NoMemory,
    };
    ExitCode::from(status.number())
}

/// The words after the program's name. Words that are not UTF-8 are no command, as no word is.
fn gather_words(alloc: Global, args: io::Result<env::Args>) -> Result<Vec<String>, NoMemory> {
    match args {
        Ok(args) => match args.skip(1).collect(alloc) {
            Ok(words) => Ok(words),
            Err(_) => Err(NoMemory),
        },
        Err(error) if error.kind() == io::ErrorKind::OutOfMemory => Err(NoMemory),
        Err(_) => Ok(Vec::new(alloc)),
    }
}
