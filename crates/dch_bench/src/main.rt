//! How fast the parts of `dch` are. By itself the program does each piece of work once, and prints checksums over what
//! came out, which are the same on every machine. With the word `measure` it repeats each piece, and prints how much of
//! it is done in a second.
#![tactic(auto)]

mod carry;
mod chance;
mod coder;
mod downlink;
mod ends;
mod fault;
mod frames;
mod generator;
mod given;
mod nearest;
mod parity;
mod rlc;
mod round_trip;
mod sum;
mod tfci;
mod uplink;
mod work;

use crate::coder::CodedBlocks;
use crate::fault::Fault;
use crate::frames::run_frames;
use crate::generator::run_generator;
use crate::nearest::{Arrival, NearestBlocks};
use crate::parity::ParityBlock;
use crate::rlc::Entities;
use crate::tfci::TfciWords;
use crate::work::{Mode, report};
use dch_coding::Rate;
use dch_types::Crc;
use std::alloc::Global;
use std::process::ExitCode;
use std::rt::Clock;
use std::{env, io};

fn main(rt: HostRuntime) -> ExitCode {
    let mode = match env::args(&rt) {
        Ok(args) => mode_of(args),
        Err(_) => None,
    };
    let Some(mode) = mode else {
        let _ = rt.eprintln("usage: dch_bench [measure]");
        return ExitCode::from(2);
    };
    match run(&rt, rt.alloc(), mode) {
        Ok(()) => ExitCode::SUCCESS,
        Err(Fault::NoMemory) => {
            let _ = rt.eprintln("no memory");
            ExitCode::from(5)
        }
        Err(Fault::Io(_)) => ExitCode::from(4),
    }
}

/// What the words after the program's name ask for: nothing, or to measure.
fn mode_of(args: env::Args) -> Option<Mode> {
    let mut words = args.skip(1);
    let Some(word) = words.next() else {
        return Some(Mode::Once);
    };
    (word.as_str() == "measure" && words.next().is_none()).then_some(Mode::Measure)
}

/// Does all pieces of work, and prints a line about each.
fn run<R: Print + Clock>(rt: &R, alloc: Global, mode: Mode) -> Result<(), Fault> {
    run_nearest(rt, alloc, mode)?;
    run_codes(rt, alloc, mode)?;
    run_parity(rt, alloc, mode)?;
    report(rt, mode, "rlc", Entities::open(alloc, false))?;
    report(rt, mode, "rlc lossy", Entities::open(alloc, true))?;
    run_frames(rt, alloc, mode)?;
    run_generator(rt, alloc, mode)
}

fn run_nearest<R: Print + Clock>(rt: &R, alloc: Global, mode: Mode) -> Result<(), Fault> {
    for (name, rate, votes, arrival) in [
        ("nearest half votes=1", Rate::Half, 1, Arrival::Damaged),
        ("nearest half votes=40", Rate::Half, 40, Arrival::Damaged),
        ("nearest third votes=1", Rate::Third, 1, Arrival::Damaged),
        ("nearest third votes=40", Rate::Third, 40, Arrival::Damaged),
        (
            "nearest half votes=1 undamaged",
            Rate::Half,
            1,
            Arrival::Undamaged,
        ),
        (
            "nearest half votes=40 undamaged",
            Rate::Half,
            40,
            Arrival::Undamaged,
        ),
        (
            "nearest third votes=1 undamaged",
            Rate::Third,
            1,
            Arrival::Undamaged,
        ),
        (
            "nearest third votes=40 undamaged",
            Rate::Third,
            40,
            Arrival::Undamaged,
        ),
    ] {
        report(
            rt,
            mode,
            name,
            NearestBlocks::open(alloc, rate, votes, arrival),
        )?;
    }
    Ok(())
}

fn run_codes<R: Print + Clock>(rt: &R, alloc: Global, mode: Mode) -> Result<(), Fault> {
    report(rt, mode, "tfci", TfciWords::open(alloc))?;
    report(rt, mode, "coder half", CodedBlocks::open(alloc, Rate::Half))?;
    report(
        rt,
        mode,
        "coder third",
        CodedBlocks::open(alloc, Rate::Third),
    )
}

fn run_parity<R: Print + Clock>(rt: &R, alloc: Global, mode: Mode) -> Result<(), Fault> {
    for (name, kind) in [
        ("parity 8", Crc::C8),
        ("parity 12", Crc::C12),
        ("parity 16", Crc::C16),
        ("parity 24", Crc::C24),
    ] {
        report(rt, mode, name, ParityBlock::open(alloc, kind))?;
    }
    Ok(())
}
