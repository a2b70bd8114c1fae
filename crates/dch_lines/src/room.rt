ghost use Rattle.std.specs.Prelude.{◌≡◌, ◌≤◌, ◌+◌, [], length, OnOk, OnErr};
ghost use Rattle.std.specs.Io.KnownBytes.{Appends};
ghost use Rattle.dch_io.specs.Ends.{Breaks, Passes, end_of};

use dch_io::{Sink, WriteFailed, write_all};
use dch_script::Report;

/// Writes the text that waits.
pub fn flush<K: Sink>(report: &mut Report, sink: &mut K) -> Result<(), WriteFailed>
    ensures ok { OnOk result (Appends (K.taken sink.old) (K.taken sink.new) report.old.text) }
    ensures new { OnOk result (report.new ≡ record report.old { text = [] }) }
    ensures same { OnErr result (report.new ≡ report.old) }
    ensures err { OnErr result (Breaks (end_of K.taken K.faults sink.old sink.new) report.old.text) }
    ensures later { K.faults sink.old ≤ K.faults sink.new }
{
    write_all(sink, report.bytes())?;
    report.clear();
    Ok(())
}

/// Makes room for so many bytes: writes the text that waits where it leaves less.
pub fn make_room<K: Sink>(
    report: &mut Report,
    wanted: usize,
    sink: &mut K,
) -> Result<(), WriteFailed>
    requires { wanted ≤ report.old.most }
    ensures ok { OnOk result (Passes (end_of K.taken K.faults sink.old sink.new) report.old.text report.new.text) }
    ensures new { OnOk result (report.new ≡ record report.old { text = report.new.text }) }
    ensures room { OnOk result (length report.new.text + wanted ≤ report.new.most) }
    ensures same { OnErr result (report.new ≡ report.old) }
    ensures err { OnErr result (Breaks (end_of K.taken K.faults sink.old sink.new) report.old.text) }
    ensures later { K.faults sink.old ≤ K.faults sink.new }
{
    if report.spare() < wanted {
        return flush(report, sink);
    }
    Ok(())
}
