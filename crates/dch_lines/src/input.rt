ghost use Rattle.std.specs.Prelude.{◌≡◌, ◌<◌, ◌≤◌, ◌+◌, ◌-◌, length, slice_range, OnOk};
ghost use Rattle.dch_io.specs.Ends.{end_of};
ghost use Rattle.dch_io.specs.Pieces.{LIMIT, PIECE};
ghost use Rattle.dch_script.specs.Code.{longest};
ghost use Rattle.dch_lines.specs.Followed.{FollowsInput};
ghost use Rattle.dch_lines.specs.Pieces.{AnswersFault, TakesPiece, EndsInput};
ghost use Rattle.dch_lines.specs.Processor.{LeadsOn};

use crate::handler::LineHandler;
use crate::processor::LineProcessor;
use crate::stop::{LineFault, Outcome, Stop};
use dch_io::{Pending, ReadStop, Sink, Source, read_next};
use dch_script::LineError;

/// Follows the lines of an input to its end: does what each says before it reads on. What is pending in the piece comes
/// first.
pub fn follow_input<C: LineHandler, S: Source, K: Sink>(
    source: &mut S,
    sink: &mut K,
    piece: &mut [u8],
    pending: Pending,
    processor: &mut LineProcessor<C>,
) -> Outcome
    requires piece { length piece.old ≡ PIECE }
    requires from { pending.from ≤ pending.to }
    requires to { pending.to ≤ PIECE }
    requires within { processor.old.bytes + (pending.to - pending.from) ≤ LIMIT }
    requires short { length processor.old.line ≤ longest }
    ensures { LeadsOn C.represents processor.old processor.new (λ old new. FollowsInput C.semantics (end_of S.left S.faults source.old source.new) (end_of K.taken K.faults sink.old sink.new) old new.handler (slice_range piece.old pending.from pending.to) result) }
{
    match take_piece(processor, &piece[pending.from..pending.to], sink) {
        Ok(()) => {}
        Err(outcome) => return outcome,
    }
    'pieces: loop {
        let read = match read_next(source, piece, processor.bytes()) {
            Ok(read) => read,
            Err(ReadStop::Failed) => return Outcome::ReadFault,
            Err(ReadStop::TooLong) => return Outcome::TooLong,
        };
        if read == 0 {
            return end_input(processor, sink);
        }
        match take_piece(processor, &piece[..read], sink) {
            Ok(()) => {}
            Err(outcome) => return outcome,
        }
    }
}

/// Follows a piece, and writes the text of its lines.
fn take_piece<C: LineHandler, K: Sink>(
    processor: &mut LineProcessor<C>,
    piece: &[u8],
    sink: &mut K,
) -> Result<(), Outcome>
    requires within { processor.old.bytes + length piece.now ≤ LIMIT }
    requires short { length processor.old.line ≤ longest }
    ensures taken { LeadsOn C.represents processor.old processor.new (λ old new. TakesPiece C.semantics (end_of K.taken K.faults sink.old sink.new) old new piece.now result) }
    ensures counted { OnOk result (processor.new.bytes ≡ processor.old.bytes + length piece.now) }
    ensures short { OnOk result (length processor.new.line ≤ longest) }
    ensures later { K.faults sink.old ≤ K.faults sink.new }
{
    match processor.follow(piece, sink) {
        Ok(()) => match processor.flush(sink) {
            Ok(()) => Ok(()),
            Err(_failed) => Err(Outcome::WriteFault),
        },
        Err(Stop::Fault(fault)) => Err(answer_fault(processor, fault, sink)),
        Err(Stop::Failed) => Err(Outcome::WriteFault),
    }
}

/// Writes the text that waits where a line is not handled, and refuses the line if it is malformed.
fn answer_fault<C: LineHandler, K: Sink>(
    processor: &mut LineProcessor<C>,
    fault: LineFault,
    sink: &mut K,
) -> Outcome
    ensures answers { AnswersFault (end_of K.taken K.faults sink.old sink.new) processor.old.text processor.old.lines fault result }
    ensures handler { processor.new.handler ≡ processor.old.handler }
    ensures later { K.faults sink.old ≤ K.faults sink.new }
{
    match fault {
        LineFault::Malformed(why) => match processor.refuse(why, sink) {
            Ok(()) => Outcome::Refused,
            Err(_failed) => Outcome::WriteFault,
        },
        LineFault::NoMemory => match processor.flush(sink) {
            Ok(()) => Outcome::NoMemory,
            Err(_failed) => Outcome::WriteFault,
        },
    }
}

/// Ends the work at the end of the input: the report is closed, unless a line has begun.
fn end_input<C: LineHandler, K: Sink>(processor: &mut LineProcessor<C>, sink: &mut K) -> Outcome
    ensures ended { LeadsOn C.represents processor.old processor.new (λ old new. EndsInput C.semantics (end_of K.taken K.faults sink.old sink.new) old new result) }
    ensures later { K.faults sink.old ≤ K.faults sink.new }
{
    if processor.has_begun() {
        return match processor.refuse(LineError::Cut, sink) {
            Ok(()) => Outcome::Refused,
            Err(_failed) => Outcome::WriteFault,
        };
    }
    match processor.close(sink) {
        Ok(()) => Outcome::Ok,
        Err(_failed) => Outcome::WriteFault,
    }
}
