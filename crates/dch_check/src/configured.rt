ghost use Rattle.std.specs.Prelude.{◌≡◌, ◌≤◌, ◌+◌, ◌-◌, [], length, slice_range};
ghost use Rattle.dch_io.specs.Ends.{end_of};
ghost use Rattle.dch_io.specs.Pieces.{LIMIT, PIECE};
ghost use Rattle.dch_check.specs.ConfigSection.{settled};
ghost use Rattle.dch_check.specs.TakenConfigs.{lines_before};
ghost use Rattle.dch_lines.specs.Processor.{LeadsOn};
ghost use Rattle.dch_check.specs.Configured.{FollowsRest, FollowsTo, TakesConfiguration, WantsNone};

use crate::both::{Configurations, Judgement};
use crate::front::{FrontKind, judge_front};
use crate::status::{Status, status_of};
use crate::taken_config::{TakenConfig, take_config};
use dch_bits::NoMemory;
use dch_io::{CleanSource, Pending, Sink, Source, write_all};
use dch_lines::{LineHandler, LineProcessor, Outcome, follow_input};
use std::alloc::Global;

/// The bytes of the text that is held before it is written.
const ROOM: usize = 131_072;

/// Takes what stands in front of the lines of an input, one configuration or two, and accepts it. Otherwise the line
/// that refuses it is written. The kind tells what may stand there.
pub fn take_configuration<S: Source, K: Sink>(
    alloc: Global,
    source: &mut S,
    sink: &mut K,
    piece: &mut [u8],
    kind: FrontKind,
) -> Result<(TakenConfig, Configurations), Status>
    requires { length piece.old ≡ PIECE }
    ensures { TakesConfiguration kind (end_of S.left S.faults source.old source.new)
        (end_of K.taken K.faults sink.old sink.new) piece.new result }
{
    let front = match take_config(alloc, source, piece) {
        Ok(front) => front,
        Err(fault) => return Err(status_of(fault)),
    };
    match judge_front(alloc, front.section.text(), kind) {
        Ok(Judgement::Accepted(accepted)) => Ok((front, accepted)),
        Ok(Judgement::Refused(line)) => match write_all(sink, line.as_bytes()) {
            Ok(()) => Err(Status::Refused),
            Err(_failed) => Err(Status::WriteFault),
        },
        Err(NoMemory) => Err(Status::NoMemory),
    }
}

/// Follows the lines behind a configuration, with the line `open` before their text, and gives the handler back where
/// all went well.
pub fn follow_script<C: LineHandler + Drop, S: Source, K: Sink>(
    alloc: Global,
    source: &mut S,
    sink: &mut K,
    piece: &mut [u8],
    front: &TakenConfig,
    handler: C,
) -> Result<C, Status>
    requires piece { length piece.old ≡ PIECE }
    requires stands { C.stands handler }
    requires handled { C.handled handler ≡ 0 }
    requires memory { WantsNone C.semantics }
    requires ordered { front.now.pending.from ≤ front.now.pending.to }
    requires inside { front.now.pending.to ≤ PIECE }
    requires within { front.now.read ≤ LIMIT }
    requires sized { length (settled front.now.section) ≤ LIMIT }
    requires few { lines_before front.now + (front.now.pending.to - front.now.pending.from) ≤ front.now.read }
    ensures { (state : C.State) → C.represents state handler →
        FollowsTo C.semantics C.represents (end_of S.left S.faults source.old source.new)
        (end_of K.taken K.faults sink.old sink.new) front.now state
        (slice_range piece.old front.now.pending.from front.now.pending.to) result }
{
    let Ok(mut processor) = LineProcessor::open(alloc, handler, b"open\n", front.offset(), ROOM)
    else {
        return Err(Status::NoMemory);
    };
    let outcome = follow_rest(source, sink, piece, front.pending, &mut processor);
    match Status::of(outcome) {
        Status::Ok => Ok(processor.into_handler()),
        status => Err(status),
    }
}

/// Follows what is pending of an input, and then what its source gives, unless it has ended.
fn follow_rest<C: LineHandler, S: Source, K: Sink>(
    source: &mut S,
    sink: &mut K,
    piece: &mut [u8],
    pending: Pending,
    processor: &mut LineProcessor<C>,
) -> Outcome
    requires piece { length piece.old ≡ PIECE }
    requires ordered { pending.from ≤ pending.to }
    requires inside { pending.to ≤ PIECE }
    requires within { processor.old.bytes + (pending.to - pending.from) ≤ LIMIT }
    requires new { processor.old.line ≡ [] }
    ensures { LeadsOn C.represents processor.old processor.new
        (λ old new. FollowsRest C.semantics pending.at_end (end_of S.left S.faults source.old source.new)
        (end_of K.taken K.faults sink.old sink.new) old new.handler (slice_range piece.old pending.from pending.to)
        result) }
{
    if pending.at_end {
        let mut nothing = CleanSource::new(&[]);
        return follow_input(&mut nothing, sink, piece, pending, processor);
    }
    follow_input(source, sink, piece, pending, processor)
}
