//! The program `dch_stages`: the stages between the transport blocks of a dedicated channel and the channel bits of its
//! radio frames, each shown by itself (TS 25.212 4.2), from standard input to standard output.
#![tactic(auto)]

mod answers;
mod cells;
mod coded;
mod downlink;
mod downlink_frame;
mod frame;
mod frame_lines;
mod frame_room;
mod handler;
mod loads;
mod places;
mod rooms;
mod sent_lines;
mod showing;
mod texts;
mod top;
mod tti_lines;
mod uplink;
mod uplink_frame;

use crate::top::run;
use dch_io::{StdSink, StdSource};
use std::env;
use std::process::ExitCode;

fn main(rt: HostRuntime) -> ExitCode {
    // Words that can't be read are words, and the program takes none.
    let alone = match env::args(&rt) {
        Ok(args) => args.len() <= 1,
        Err(_) => false,
    };
    let mut source = StdSource::new(rt.stdin());
    let mut sink = StdSink::new(rt.stdout());
    ExitCode::from(run(rt.alloc(), alone, &mut source, &mut sink).number())
}
