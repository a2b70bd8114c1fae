ghost use Rattle.std.specs.Prelude.{◌≡◌, ◌≤◌, ◌++◌, length, OnOk, OnErr};
ghost use Rattle.dch_io.specs.Ends.{Breaks, Passes, end_of};

use crate::page::Page;
use crate::room::flush;
use dch_io::{Sink, WriteFailed, write_all};
use dch_script::Report;

/// Text on its way to a sink: it waits in a report, and is written when more doesn't fit there. After a write fails
/// nothing is written any more.
#[derive(Drop)]
pub struct SinkPage<'a, K> {
    pub report: &'a mut Report,
    pub sink: &'a mut K,
    pub broken: bool,
}

impl<K: Sink> Page for SinkPage<'_, K> {
    ghost use Rattle.std.proofs.Common.{refl, ◌∙◌};
    ghost use Rattle.dch_lines.specs.Pages.{Shows};
    ghost use Rattle.dch_lines.specs.Paging.{shows_next, shows_none};

    ghost writes = { λ old text new. record {
      report : new.report.ghost_name ≡ old.report.ghost_name;
      sink : new.sink.ghost_name ≡ old.sink.ghost_name;
      shows : Shows (end_of K.taken K.faults old.sink.now new.sink.now) old.report.now old.broken text new.report.now new.broken;
    } };

    ghost broken = { λ page. page.broken };

    fn put_text(&mut self, text: &[u8]) {
        if !self.broken {
            match write_text(self.report, text, self.sink) {
                Ok(()) => {}
                Err(_failed) => self.broken = true,
            }
        }
    }

    fn is_open(&self) -> bool {
        !self.broken
    }

    ghost nothing = { λ page. record {
      report = refl;
      sink = refl;
      shows = shows_none (K.taken page.sink.now) (K.faults page.sink.now) page.broken page.report.now;
    } };

    ghost joined = { λ first mid last text more one two. record {
      report = two.report ∙ one.report;
      sink = two.sink ∙ one.sink;
      shows = shows_next (K.taken first.sink.now) (K.taken mid.sink.now) (K.taken last.sink.now) (K.faults first.sink.now) (K.faults mid.sink.now) (K.faults last.sink.now) first.broken mid.broken last.broken first.report.now mid.report.now last.report.now text more one.shows two.shows;
    } };
}

/// Adds a text behind what waits. Where it doesn't fit, what waits is written, and then the text too if it doesn't fit
/// even so.
#[tactic(auto, using(crate::proofs::Parts::breaks_on, crate::proofs::Parts::breaks_more, crate::proofs::Parts::written_whole))]
fn write_text<K: Sink>(report: &mut Report, text: &[u8], sink: &mut K) -> Result<(), WriteFailed>
    ensures ok { OnOk result (Passes (end_of K.taken K.faults sink.old sink.new) (report.old.text ++ text.now) report.new.text) }
    ensures err { OnErr result (Breaks (end_of K.taken K.faults sink.old sink.new) (report.old.text ++ text.now)) }
    ensures most { report.new.most ≡ report.old.most }
    ensures fits { length report.new.text ≤ report.new.most }
    ensures later { K.faults sink.old ≤ K.faults sink.new }
{
    if text.len() <= report.spare() {
        report.put_text(text);
        return Ok(());
    }
    match flush(report, sink) {
        Ok(()) => {}
        Err(failed) => return Err(failed),
    }
    if text.len() <= report.spare() {
        report.put_text(text);
        return Ok(());
    }
    match write_all(sink, text) {
        Ok(()) => Ok(()),
        Err(failed) => Err(failed),
    }
}
