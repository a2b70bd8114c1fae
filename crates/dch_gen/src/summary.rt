ghost use Rattle.std.specs.Prelude.{◌≡◌, ◌<◌, ◌≤◌, ◌+◌, ◌++◌, ◌^◌, ℕ, List, decimal, length, slice_index};
ghost use Rattle.dch_node.specs.Lines.{Line as NodeLine};
ghost use Rattle.dch_gen.specs.Counting.{AreCountsOf};
ghost use Rattle.dch_gen.specs.Summary.{phy_line, sum_line, sum_lines, summary};

use crate::counts::{BEARERS, Counts, DirCounts};
use dch_script::{Line, Report, dir_word};
use dch_types::Dir;

/// The most bytes of a summary.
pub const MOST_BYTES: usize = 1500;

impl Counts {
    /// Writes the summary of a run of so many radio frames: a line for each bearer of both directions with the units
    /// that were accepted and handed up, one for the cells of each direction, and the count of radio frames.
    pub fn put_summary(&self, frames: u32, report: &mut Report)
        requires { length report.old.text + 1500 ≤ report.old.most }
        ensures { (lines : List NodeLine) → AreCountsOf lines self.now →
            report.new ≡ record report.old { text = report.old.text ++ summary frames lines } }
    {
        self.up.put_sums(Dir::Up, report);
        self.down.put_sums(Dir::Down, report);
        self.up.put_cells(Dir::Up, report);
        self.down.put_cells(Dir::Down, report);
        report.put(&Line::EndFrames(u64::from(frames)));
    }
}

impl DirCounts {
    /// A line for each bearer.
    fn put_sums(&self, dir: Dir, report: &mut Report)
        requires { length report.old.text + 600 ≤ report.old.most }
        ensures text { report.new ≡ record report.old {
          text =
              report.old.text ++ sum_lines dir (λ b. slice_index self.now.took b) (λ b. slice_index self.now.got b) 6;
        } }
        ensures few { length report.new.text ≤ length report.old.text + 600 }
    {
        for b in 0..BEARERS {
            put_sum(report, dir, b as u8, self.took[b], self.got[b]);
        }
    }

    /// A line for the cells.
    fn put_cells(&self, dir: Dir, report: &mut Report)
        requires { length report.old.text + 100 ≤ report.old.most }
        ensures text { report.new ≡ record report.old {
          text =
              report.old.text ++ phy_line dir self.now.cells self.now.ones;
        } }
        ensures few { length report.new.text ≤ length report.old.text + 100 }
    {
        report.put_text(b"phy ");
        report.put_text(dir_word(dir).as_bytes());
        put_count(report, b" cells=", self.cells);
        put_count(report, b" ones=", self.ones);
        report.put_text(b"\n");
    }
}

/// A line for a bearer.
fn put_sum(report: &mut Report, dir: Dir, bearer: u8, took: u64, got: u64)
    requires { length report.old.text + 100 ≤ report.old.most }
    ensures text { report.new ≡ record report.old { text = report.old.text ++ sum_line dir bearer took got } }
    ensures few { length report.new.text ≤ length report.old.text + 100 }
{
    report.put_text(b"sum ");
    report.put_text(dir_word(dir).as_bytes());
    put_count(report, b" ", u64::from(bearer));
    put_count(report, b" took=", took);
    put_count(report, b" got=", got);
    report.put_text(b"\n");
}

/// A word and a count behind it.
fn put_count(report: &mut Report, word: &[u8], count: u64)
    requires { length report.old.text + (length word.now + 20) ≤ report.old.most }
    ensures text { report.new ≡ record report.old { text = report.old.text ++ (word.now ++ decimal count) } }
    ensures few { length report.new.text ≤ length report.old.text + (length word.now + 20) }
{
    report.put_text(word);
    report.put_number(count);
}
