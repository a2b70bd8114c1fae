ghost use Rattle.std.specs.Prelude.{◌≡◌, false, length, true};
ghost use Rattle.dch_io.specs.Ends.{end_of};
ghost use Rattle.dch_io.specs.Pieces.{PIECE};
ghost use Rattle.dch_stages.specs.Runs.{Misuses, RunsStages};

use crate::handler::StagesHandler;
use dch_check::{Configurations, FrontKind, Status, follow_script, take_configuration};
use dch_io::{Sink, Source, new_piece, write_all};
use std::alloc::Global;

/// Runs the program from its first byte to its status. It has no words.
pub fn run<S: Source, K: Sink>(alloc: Global, alone: bool, source: &mut S, sink: &mut K) -> Status
    // What was read, what was written, and the status: the main theorem.
    ensures runs { alone ≡ true → RunsStages (end_of S.left S.faults source.old source.new)
        (end_of K.taken K.faults sink.old sink.new) result }
    ensures misuses { alone ≡ false → Misuses (end_of S.left S.faults source.old source.new)
        (end_of K.taken K.faults sink.old sink.new) result }
{
    if alone {
        show_stages(alloc, source, sink)
    } else {
        refuse_words(source, sink)
    }
}

/// Shows the stages of what the lines of an input ask for.
fn show_stages<S: Source, K: Sink>(alloc: Global, source: &mut S, sink: &mut K) -> Status
    ensures { RunsStages (end_of S.left S.faults source.old source.new)
        (end_of K.taken K.faults sink.old sink.new) result }
{
    let Ok(mut piece) = new_piece(alloc) else {
        return Status::NoMemory;
    };
    run_pieces(alloc, source, sink, &mut piece)
}

fn run_pieces<S: Source, K: Sink>(
    alloc: Global,
    source: &mut S,
    sink: &mut K,
    piece: &mut [u8],
) -> Status
    requires { length piece.old ≡ PIECE }
    ensures { RunsStages (end_of S.left S.faults source.old source.new)
        (end_of K.taken K.faults sink.old sink.new) result }
{
    let (front, accepted) = match take_configuration(
        alloc,
        source,
        sink,
        piece,
        FrontKind::Single,
    ) {
        Ok(taken) => taken,
        Err(status) => return status,
    };
    let Configurations {
        first,
        second: _second,
    } = accepted;
    let Ok(handler) = StagesHandler::open(alloc, first) else {
        return Status::NoMemory;
    };
    match follow_script(alloc, source, sink, piece, &front, handler) {
        Ok(_handler) => Status::Ok,
        Err(status) => status,
    }
}

fn refuse_words<S: Source, K: Sink>(_source: &mut S, sink: &mut K) -> Status
    ensures { Misuses (end_of S.left S.faults _source.old _source.new)
        (end_of K.taken K.faults sink.old sink.new) result }
{
    match write_all(sink, b"usage: dch_stages\n") {
        Ok(()) => Status::Usage,
        Err(_failed) => Status::WriteFault,
    }
}
