ghost use Rattle.std.specs.Prelude.{◌≡◌, ◌↔◌, IsTrue, ◌<◌, ◌≤◌, ◌+◌, ◌-◌, ◌++◌, [], ℕ, List, Option, length, true, false, IfOk, OnOk, OnErr};
ghost use Rattle.std.specs.Io.KnownBytes.{Appends};
ghost use Rattle.dch_io.specs.Ends.{Breaks, end_of, span};
ghost use Rattle.dch_io.specs.Pieces.{LIMIT};
ghost use Rattle.dch_script.specs.Code.{longest};
ghost use Rattle.dch_script.specs.declared.code.TheConstants.{LONGEST_LINE};
ghost use Rattle.dch_lines.specs.Processor.{Progress, EndsLine, LeadsOn, Steps, Follows, FollowsPart, EndsIn, GoesOnIn, Takes, StopsAt};
ghost use Rattle.dch_lines.specs.LineTexts.{refusal};
ghost use Rattle.dch_lines.specs.declared.processor.TheConstants.{LEAST_ROOM};

use crate::handler::LineHandler;
use crate::handling::{process_line, put_closing};
use crate::refusal::put_refusal;
use crate::room::{flush, make_room};
use crate::stop::{LineFault, Stop};
use dch_bits::NoMemory;
use dch_io::{InputOffset, Sink, WriteFailed};
use dch_script::{LONGEST_LINE, LineError, Report};
use memchr::memchr;
use std::alloc::Global;
use std::marker::Model;

/// The least room of a report, in bytes: that of a first text, or of the line that refuses a line.
pub const LEAST_ROOM: usize = 64;

/// The work with the lines of an input: the line that has begun, and the text that waits to be written.
#[derive(Drop)]
pub struct LineProcessor<C: LineHandler> {
    handler: C,
    line: Vec<u8>,
    report: Report,
    bytes: usize,
    lines: u64,
    nonempty_lines: u64,
}

impl<C: LineHandler> Model for LineProcessor<C> {
    ghost use Rattle.std.specs.Prelude.{◌≡◌, ◌≤◌, ◌+◌, length, vec_capacity};
    ghost use Rattle.dch_lines.specs.Processor.{Progress, IsOpen};

    ghost Value = { Progress C };

    ghost view = { λ d. record {
      handler = d.handler;
      line = d.line.items;
      text = d.report.text;
      bytes = d.bytes;
      lines = d.lines;
      nonempty_lines = d.nonempty_lines;
    } };

    ghost invariant = { λ d. record {
      stands : C.stands d.handler;
      room : IsOpen (vec_capacity d.line) d.report.most (length d.line.items) (length d.report.text) d.bytes d.lines
          d.nonempty_lines;
      handled : C.handled d.handler ≤ d.bytes;
    } };
}

impl<C: LineHandler + Drop> LineProcessor<C> {
    /// A processor after what came before, with a first text that waits to be written, and a report with room for so
    /// many bytes.
    pub fn open(
        alloc: Global,
        handler: C,
        first: &[u8],
        before: InputOffset,
        room: usize,
    ) -> Result<LineProcessor<C>, NoMemory>
        requires stands { C.stands handler }
        requires handled { C.handled handler ≡ 0 }
        requires first { length first.now ≤ LEAST_ROOM }
        requires bytes { before.bytes ≤ LIMIT }
        requires lines { before.lines ≤ before.bytes }
        requires room { LEAST_ROOM ≤ room }
        ensures { IfOk result (λ processor. processor ≡ record {
          handler = handler;
          line = [];
          text = first.now;
          bytes = before.bytes;
          lines = before.lines;
          nonempty_lines = 0;
        }) }
    {
        let Ok(line) = Vec::with_capacity(alloc, LONGEST_LINE + 1) else {
            return Err(NoMemory);
        };
        let Ok(mut report) = Report::open(alloc, room) else {
            return Err(NoMemory);
        };
        report.put_text(first);
        Ok(LineProcessor {
            handler,
            line,
            report,
            bytes: before.bytes,
            lines: before.lines,
            nonempty_lines: 0,
        })
    }

    /// The handler, after the work.
    pub fn into_handler(self) -> C
        ensures handler { result ≡ self.handler }
        ensures stands { C.stands result }
    {
        self.handler
    }
}

impl<C: LineHandler> LineProcessor<C> {
    /// Writes the text that waits.
    pub(crate) fn flush<K: Sink>(&mut self, sink: &mut K) -> Result<(), WriteFailed>
        ensures ok { OnOk result (Appends (K.taken sink.old) (K.taken sink.new) self.old.text) }
        ensures new { OnOk result (self.new ≡ record self.old { text = [] }) }
        ensures err { OnErr result (Breaks (end_of K.taken K.faults sink.old sink.new) self.old.text) }
        ensures handler { self.new.handler ≡ self.old.handler }
        ensures later { K.faults sink.old ≤ K.faults sink.new }
    {
        flush(&mut self.report, sink)
    }

    /// Writes the text that waits, and then the line that refuses the next line.
    #[tactic(auto, using(crate::proofs::Parts::breaks_on, crate::proofs::Parts::breaks_more, crate::proofs::Parts::appends_on))]
    pub(crate) fn refuse<K: Sink>(
        &mut self,
        why: LineError,
        sink: &mut K,
    ) -> Result<(), WriteFailed>
        ensures ok { OnOk result (Appends (K.taken sink.old) (K.taken sink.new)
            (self.old.text ++ refusal self.old.lines why)) }
        ensures new { OnOk result (self.new ≡ record self.old { text = [] }) }
        ensures err { OnErr result (Breaks (end_of K.taken K.faults sink.old sink.new)
            (self.old.text ++ refusal self.old.lines why)) }
        ensures handler { self.new.handler ≡ self.old.handler }
        ensures later { K.faults sink.old ≤ K.faults sink.new }
    {
        make_room(&mut self.report, LEAST_ROOM, sink)?;
        put_refusal(&mut self.report, self.lines, why);
        match flush(&mut self.report, sink) {
            Ok(()) => Ok(()),
            Err(failed) => Err(failed),
        }
    }

    /// Writes the text that waits, and then the closing line.
    pub(crate) fn close<K: Sink>(&mut self, sink: &mut K) -> Result<(), WriteFailed>
        ensures ok { OnOk result ((state : C.State) → C.represents state self.old.handler →
            Appends (K.taken sink.old) (K.taken sink.new)
            (self.old.text ++ C.semantics.closing state self.old.nonempty_lines)) }
        ensures new { OnOk result (self.new ≡ record self.old { text = [] }) }
        ensures err { OnErr result ((state : C.State) → C.represents state self.old.handler →
            Breaks (end_of K.taken K.faults sink.old sink.new)
            (self.old.text ++ C.semantics.closing state self.old.nonempty_lines)) }
        ensures handler { self.new.handler ≡ self.old.handler }
        ensures later { K.faults sink.old ≤ K.faults sink.new }
    {
        match put_closing(&self.handler, self.nonempty_lines, &mut self.report, sink) {
            Ok(()) => flush(&mut self.report, sink),
            Err(failed) => Err(failed),
        }
    }

    /// The bytes followed so far, with those that came before.
    pub(crate) fn bytes(&self) -> usize
        ensures value { result ≡ self.now.bytes }
        ensures few { result ≤ LIMIT }
    {
        self.bytes
    }

    /// Whether a line has begun.
    pub(crate) fn has_begun(&self) -> bool
        ensures { IsTrue result ↔ (0 < length self.now.line) }
    {
        !self.line.is_empty()
    }

    /// Adds bytes to the line that has begun.
    fn hold(&mut self, part: &[u8])
        requires line { length self.old.line + length part.now ≤ LONGEST_LINE + 1 }
        requires bytes { self.old.bytes + length part.now ≤ LIMIT }
        ensures { self.new ≡ record self.old {
          line = self.old.line ++ part.now;
          bytes = self.old.bytes + length part.now;
        } }
    {
        self.line.extend_from_slice(part).unwrap();
        self.bytes += part.len();
    }

    /// Ends the line that has begun: does what it says, adds its text, and counts it.
    fn end_line<K: Sink>(&mut self, sink: &mut K) -> Result<(), Stop>
        requires lines { self.old.lines < self.old.bytes }
        requires handled { C.handled self.old.handler < self.old.bytes }
        ensures ended { LeadsOn C.represents self.old self.new (λ old new. EndsLine C.semantics (end_of K.taken K.faults sink.old sink.new) old new result) }
        ensures cleared { OnOk result ((self.new.line ≡ []) × (self.new.bytes ≡ self.old.bytes)) }
        ensures later { K.faults sink.old ≤ K.faults sink.new }
    {
        match process_line(&mut self.handler, &self.line, &mut self.report, sink) {
            Ok(nonempty_lines) => self.nonempty_lines += nonempty_lines,
            Err(stop) => return Err(stop),
        }
        self.line.clear();
        self.lines += 1;
        Ok(())
    }

    /// Goes on to the end of the line, or of the bytes where it doesn't end in them. Answers the bytes that are left.
    fn step<'a, K: Sink>(&mut self, bytes: &'a [u8], sink: &mut K) -> Result<&'a [u8], Stop>
        requires some { 0 < length bytes.now }
        requires within { self.old.bytes + length bytes.now ≤ LIMIT }
        requires short { length self.old.line ≤ longest }
        ensures steps { LeadsOn C.represents self.old self.new (λ old new. Steps C.semantics (end_of K.taken K.faults sink.old sink.new) old new bytes.entry.now result) }
        ensures counted { IfOk result (λ remaining. self.new.bytes + length remaining.now ≡
            self.old.bytes + length bytes.entry.now) }
        ensures shorter { IfOk result (λ remaining. length remaining.now < length bytes.entry.now) }
        ensures short { OnOk result (length self.new.line ≤ longest) }
        ensures later { K.faults sink.old ≤ K.faults sink.new }
    {
        let reach = bytes.len().min(LONGEST_LINE + 1 - self.line.len());
        match memchr(b'\n', &bytes[..reach]) {
            Some(at) => {
                let (part, remaining) = bytes.split_at(at + 1);
                match self.end_with(part, sink) {
                    Ok(()) => Ok(remaining),
                    Err(stop) => Err(stop),
                }
            }
            None => {
                let (part, remaining) = bytes.split_at(reach);
                if self.resume_with(part) {
                    Ok(remaining)
                } else {
                    Err(Stop::Fault(LineFault::Malformed(LineError::Long)))
                }
            }
        }
    }

    /// Ends the line that has begun with a part whose last byte is its only line feed.
    fn end_with<K: Sink>(&mut self, part: &[u8], sink: &mut K) -> Result<(), Stop>
        requires feed { EndsIn self.old.line part.now }
        requires some { 0 < length part.now }
        requires count { self.old.lines ≤ self.old.bytes }
        requires handled { C.handled self.old.handler ≤ self.old.bytes }
        requires line { length self.old.line + length part.now ≤ LONGEST_LINE + 1 }
        requires bytes { self.old.bytes + length part.now ≤ LIMIT }
        ensures follows { LeadsOn C.represents self.old self.new (λ old new. FollowsPart C.semantics (end_of K.taken K.faults sink.old sink.new) old new part.now result) }
        ensures cleared { OnOk result ((self.new.line ≡ []) × (self.new.bytes ≡ self.old.bytes + length part.now)) }
        ensures later { K.faults sink.old ≤ K.faults sink.new }
    {
        self.hold(part);
        self.end_line(sink)
    }

    /// Goes on with the line by a part without a line feed, and tells whether it is not too long then.
    fn resume_with(&mut self, part: &[u8]) -> bool
        requires feed { GoesOnIn self.old.line part.now }
        requires line { length self.old.line + length part.now ≤ LONGEST_LINE + 1 }
        requires bytes { self.old.bytes + length part.now ≤ LIMIT }
        ensures fits { result ≡ true → (a : Option (List ℕ)) (f : ℕ) →
            LeadsOn C.represents self.old self.new (λ old new. Takes C.semantics (span a a f f) old new part.now) }
        ensures too_long { result ≡ false → (a : Option (List ℕ)) (f : ℕ) (remaining : List ℕ) →
            LeadsOn C.represents self.old self.new (λ old new. StopsAt C.semantics (span a a f f) old new (part.now ++ remaining) (LineFault.Malformed LineError.Long)) }
        ensures bytes { self.new.bytes ≡ self.old.bytes + length part.now }
        ensures short { result ≡ true → length self.new.line ≤ longest }
    {
        self.hold(part);
        self.line_length() <= LONGEST_LINE
    }

    fn line_length(&self) -> usize
        ensures { result ≡ length self.now.line }
    {
        self.line.len()
    }

    /// Follows bytes: does what each line that ends in them says.
    pub(crate) fn follow<K: Sink>(&mut self, bytes: &[u8], sink: &mut K) -> Result<(), Stop>
        requires within { self.old.bytes + length bytes.now ≤ LIMIT }
        requires short { length self.old.line ≤ longest }
        ensures follows { LeadsOn C.represents self.old self.new (λ old new. Follows C.semantics (end_of K.taken K.faults sink.old sink.new) old new bytes.now result) }
        ensures counted { OnOk result (self.new.bytes ≡ self.old.bytes + length bytes.now) }
        ensures short { OnOk result (length self.new.line ≤ longest) }
        ensures later { K.faults sink.old ≤ K.faults sink.new }
    {
        let mut remaining = bytes;
        while !remaining.is_empty() {
            match self.step(remaining, sink) {
                Ok(rest) => remaining = rest,
                Err(stop) => return Err(stop),
            }
        }
        Ok(())
    }
}
