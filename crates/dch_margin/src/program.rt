ghost use Rattle.std.specs.Prelude.{◌≡◌, length};
ghost use Rattle.dch_io.specs.Ends.{end_of};
ghost use Rattle.dch_io.specs.Pieces.{PIECE};
ghost use Rattle.dch_margin.specs.Runs.{Ends, EndsAsked, Misuses, Took, Wrote};

use crate::report::{Report, answer_to};
use crate::telling::Telling;
use dch_bits::NoMemory;
use dch_check::{ConfigFault, Status, take_config};
use dch_io::{Sink, Source, new_piece, write_all};
use std::alloc::Global;

/// Takes a configuration from the source, and writes what is asked for of each of its formats, or why the configuration
/// is refused. Where nothing that it tells is asked for, it writes its usage.
pub fn run<S: Source, K: Sink>(
    alloc: Global,
    telling: Option<Telling>,
    source: &mut S,
    sink: &mut K,
) -> Status
    ensures { EndsAsked telling (end_of S.left S.faults source.old source.new)
        (end_of K.taken K.faults sink.old sink.new) result }
{
    match telling {
        Some(telling) => tell(alloc, telling, source, sink),
        None => write_usage(source, sink),
    }
}

fn write_usage<S: Source, K: Sink>(_source: &mut S, sink: &mut K) -> Status
    ensures { Misuses (end_of S.left S.faults _source.old _source.new)
        (end_of K.taken K.faults sink.old sink.new) result }
{
    match write_all(sink, b"usage: dch_margin [--worst]\n") {
        Ok(()) => Status::Usage,
        Err(_failed) => Status::WriteFault,
    }
}

/// Tells of the configuration that the source has.
#[tactic(auto, using(crate::proofs::Endings::ended, crate::proofs::Endings::lacking))]
fn tell<S: Source, K: Sink>(alloc: Global, telling: Telling, source: &mut S, sink: &mut K) -> Status
    ensures { Ends telling (end_of S.left S.faults source.old source.new)
        (end_of K.taken K.faults sink.old sink.new) result }
{
    match take_report(alloc, telling, source) {
        Ok(report) => write_report(&report, sink),
        Err(status) => status,
    }
}

/// Takes a configuration, and judges it.
fn take_report<S: Source>(alloc: Global, telling: Telling, source: &mut S) -> Result<Report, Status>
    ensures { Took telling (end_of S.left S.faults source.old source.new) result }
{
    let Ok(mut piece) = new_piece(alloc) else {
        return Err(Status::NoMemory);
    };
    report_taken(alloc, telling, source, &mut piece)
}

#[tactic(auto, using(crate::proofs::Endings::judged))]
fn report_taken<S: Source>(
    alloc: Global,
    telling: Telling,
    source: &mut S,
    piece: &mut [u8],
) -> Result<Report, Status>
    requires { length piece.old ≡ PIECE }
    ensures { Took telling (end_of S.left S.faults source.old source.new) result }
{
    let taken = match take_config(alloc, source, piece) {
        Ok(taken) => taken,
        Err(ConfigFault::ReadFault) => return Err(Status::ReadFault),
        Err(ConfigFault::NoMemory) => return Err(Status::NoMemory),
        Err(ConfigFault::TooLong) => return Err(Status::TooLong),
    };
    match answer_to(alloc, telling, taken.section.text()) {
        Ok(report) => Ok(report),
        Err(NoMemory) => Err(Status::NoMemory),
    }
}

/// Writes the lines of a report.
fn write_report<K: Sink>(report: &Report, sink: &mut K) -> Status
    ensures { Wrote (end_of K.taken K.faults sink.old sink.new) report.now result }
{
    match report {
        Report::Lines(lines) => match write_all(sink, lines.as_bytes()) {
            Ok(()) => Status::Ok,
            Err(_failed) => Status::WriteFault,
        },
        Report::Refused(line) => match write_all(sink, line.as_bytes()) {
            Ok(()) => Status::Refused,
            Err(_failed) => Status::WriteFault,
        },
    }
}
