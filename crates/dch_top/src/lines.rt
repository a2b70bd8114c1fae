ghost use Rattle.std.specs.Prelude.{◌≡◌};
ghost use Rattle.dch_io.specs.Ends.{end_of};
ghost use Rattle.dch_top.specs.Encoded.{Encodes};
ghost use Rattle.dch_top.specs.LineRuns.{RunsLines};
ghost use Rattle.dch_top.specs.PairRuns.{RunsPair};

use crate::encode_handler::EncodeHandler;
use dch_bits::NoMemory;
use dch_check::Status;
use dch_io::{InputOffset, Pending, Sink, Source, new_piece};
use dch_lines::{LineHandler, LineProcessor, follow_input};
use dch_paircmd::PairHandler;
use std::alloc::Global;

/// The bytes of the text that is held before it is written.
const ROOM: usize = 131_072;

/// Runs `encode`: codes each line before it reads on.
pub fn run_encode<S: Source, K: Sink>(alloc: Global, source: &mut S, sink: &mut K) -> Status
    ensures { Encodes (end_of S.left S.faults source.old source.new)
        (end_of K.taken K.faults sink.old sink.new) result }
{
    match EncodeHandler::open(alloc) {
        Ok(handler) => run_lines(alloc, handler, source, sink),
        Err(NoMemory) => Status::NoMemory,
    }
}

/// Runs `pair`: two ends of an acknowledged bearer that can be reset, with a queue of PDUs to each, by the lines of the
/// input.
pub fn run_pair<S: Source, K: Sink>(alloc: Global, source: &mut S, sink: &mut K) -> Status
    ensures { RunsPair (end_of S.left S.faults source.old source.new)
        (end_of K.taken K.faults sink.old sink.new) result }
{
    match PairHandler::open(alloc) {
        Ok(handler) => run_lines(alloc, handler, source, sink),
        Err(NoMemory) => Status::NoMemory,
    }
}

/// Runs a command whose lines stand alone, with nothing in front of them.
fn run_lines<H: LineHandler + Drop, S: Source, K: Sink>(
    alloc: Global,
    handler: H,
    source: &mut S,
    sink: &mut K,
) -> Status
    requires stands { H.stands handler }
    requires handled { H.handled handler ≡ 0 }
    ensures { (state : H.State) → H.represents state handler →
        RunsLines H.semantics state (end_of S.left S.faults source.old source.new)
        (end_of K.taken K.faults sink.old sink.new) result }
{
    let Ok(mut piece) = new_piece(alloc) else {
        return Status::NoMemory;
    };
    let before = InputOffset { bytes: 0, lines: 0 };
    let Ok(mut processor) = LineProcessor::open(alloc, handler, b"", before, ROOM) else {
        return Status::NoMemory;
    };
    let nothing = Pending {
        from: 0,
        to: 0,
        at_end: false,
    };
    Status::of(follow_input(source, sink, &mut piece, nothing, &mut processor))
}
