ghost use Rattle.std.specs.Prelude.{◌≡◌, ◌<◌, ◌≤◌, ◌+◌, ◌++◌, false, length, IfErr, IfOk, OnOk, OnErr};
ghost use Rattle.dch_io.specs.Ends.{Breaks, Passes, end_of};
ghost use Rattle.dch_io.specs.Pieces.{LIMIT};
ghost use Rattle.dch_lines.specs.LineTexts.{is_empty};
ghost use Rattle.dch_lines.specs.Processor.{Hands, LineOutcome};
ghost use Rattle.dch_lines.specs.Semantics.{IsFault, Leads};

use crate::handler::LineHandler;
use crate::sink_page::SinkPage;
use crate::stop::{LineFault, Stop};
use dch_io::{Sink, WriteFailed};
use dch_script::Report;

/// Does what a line says unless it is empty, and answers how many lines that makes.
pub fn process_line<C: LineHandler, K: Sink>(
    handler: &mut C,
    line: &[u8],
    report: &mut Report,
    sink: &mut K,
) -> Result<u64, Stop>
    requires stands { C.stands handler.old }
    requires fits { length report.old.text ≤ report.old.most }
    requires count { C.handled handler.old < LIMIT }
    ensures handles { Leads C.represents handler.old handler.new (λ old new. LineOutcome C.semantics (end_of K.taken K.faults sink.old sink.new) old line.now new report.old.text report.new.text result) }
    ensures few { IfOk result (λ count. count ≤ 1) }
    ensures later { K.faults sink.old ≤ K.faults sink.new }
    ensures room { report.new.most ≡ report.old.most }
    ensures fits { length report.new.text ≤ report.new.most }
    ensures stands { C.stands handler.new }
    ensures handled { C.handled handler.new ≤ C.handled handler.old + 1 }
{
    if line == b"\n".as_slice() {
        return Ok(0);
    }
    match hand_line(handler, line, report, sink) {
        Ok(broken) => {
            if broken {
                return Err(Stop::Failed);
            }
            Ok(1)
        }
        Err(fault) => Err(Stop::Fault(fault)),
    }
}

/// Does what a line says that isn't empty, and answers whether a write has failed.
fn hand_line<C: LineHandler, K: Sink>(
    handler: &mut C,
    line: &[u8],
    report: &mut Report,
    sink: &mut K,
) -> Result<bool, LineFault>
    requires stands { C.stands handler.old }
    requires words { is_empty line.now ≡ false }
    requires fits { length report.old.text ≤ report.old.most }
    requires count { C.handled handler.old < LIMIT }
    ensures ok { IfOk result (λ broken. Leads C.represents handler.old handler.new (λ old new. Hands C.semantics (end_of K.taken K.faults sink.old sink.new) old line.now new report.old report.new broken)) }
    ensures err { IfErr result (λ fault. (state : C.State) → C.represents state handler.old →
        IsFault C.semantics state line.now fault × C.represents state handler.new) }
    ensures report { IfErr result (λ _. report.new ≡ report.old) }
    ensures sink { IfErr result (λ _. sink.new ≡ sink.old) }
    ensures later { K.faults sink.old ≤ K.faults sink.new }
    ensures room { report.new.most ≡ report.old.most }
    ensures fits { length report.new.text ≤ report.new.most }
    ensures stands { C.stands handler.new }
    ensures handled { C.handled handler.new ≤ C.handled handler.old + 1 }
{
    let mut page = SinkPage {
        report,
        sink,
        broken: false,
    };
    match handler.handle_line(line, &mut page) {
        Ok(()) => Ok(page.broken),
        Err(fault) => Err(fault),
    }
}

/// Adds the last line of a handler's report behind the text that waits.
pub fn put_closing<C: LineHandler, K: Sink>(
    handler: &C,
    nonempty_lines: u64,
    report: &mut Report,
    sink: &mut K,
) -> Result<(), WriteFailed>
    requires stands { C.stands handler.now }
    requires fits { length report.old.text ≤ report.old.most }
    ensures ok { OnOk result ((state : C.State) → C.represents state handler.now →
        Passes (end_of K.taken K.faults sink.old sink.new) (report.old.text ++ C.semantics.closing state nonempty_lines) report.new.text) }
    ensures err { OnErr result ((state : C.State) → C.represents state handler.now →
        Breaks (end_of K.taken K.faults sink.old sink.new) (report.old.text ++ C.semantics.closing state nonempty_lines)) }
    ensures later { K.faults sink.old ≤ K.faults sink.new }
    ensures room { report.new.most ≡ report.old.most }
    ensures fits { length report.new.text ≤ report.new.most }
{
    let mut page = SinkPage {
        report,
        sink,
        broken: false,
    };
    handler.close(nonempty_lines, &mut page);
    if page.broken {
        return Err(WriteFailed);
    }
    Ok(())
}
