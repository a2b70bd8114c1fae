ghost use Rattle.std.specs.Prelude.{◌≡◌, ◌+◌, ◌<◌, ◌≤◌, ℕ, length, slice_index};
ghost use Rattle.std.specs.Ordering.{ordering_then, nat_cmp, is_gt};
ghost use Rattle.std.specs.Cmp.Lexicographic.{slice_cmp};
ghost use Rattle.dch_mac.specs.Best.{IsBest};
ghost use Rattle.dch_mac.specs.Choices.{IsChoice, IsBestOf};
ghost use Rattle.dch_mac.specs.Table.{IsTable};

use crate::moment::Moment;
use crate::row::Row;
use std::cmp::Ordering;

/// A combination, with the bits that it carries for priorities 1 to 8, and its bits in all.
#[derive(Clone, Copy)]
pub(crate) struct Choice {
    pub(crate) combination: u16,
    pub(crate) carried: [u32; 8],
    pub(crate) bits: u32,
}

/// Whether the first choice is better than the second, which stands for an earlier combination.
fn is_better(choice: &Choice, earlier: &Choice) -> bool
    ensures { result ≡ is_gt (ordering_then (slice_cmp nat_cmp choice.now.carried earlier.now.carried)
        (nat_cmp earlier.now.bits choice.now.bits)) }
{
    match choice.carried.as_slice().cmp(earlier.carried.as_slice()) {
        Ordering::Less => false,
        Ordering::Equal => choice.bits < earlier.bits,
        Ordering::Greater => true,
    }
}

/// Adds the bits that a channel carries to those of others.
fn add(carried: &mut [u32], more: &[u32])
    requires eight { length carried.old ≡ 8 }
    requires other { length more.now ≡ 8 }
    requires room { (q : ℕ) → q < 8 → slice_index carried.old q ≤ 3000000 }
    requires small { (q : ℕ) → q < 8 → slice_index more.now q ≤ 320000 }
    ensures { (q : ℕ) → q < 8 → slice_index carried.new q ≡ slice_index carried.old q + slice_index more.now q }
{
    for q in 0..8usize {
        carried[q] += more[q];
    }
}

impl Moment<'_> {
    /// The best combination of those that may be chosen. `rows` is room for the rows of all formats.
    pub(crate) fn best(&self, rows: &mut [Row]) -> u16
        requires { length rows.old ≡ 256 }
        ensures { IsBest self.now result }
    {
        self.fill(rows);
        self.best_by(rows)
    }

    /// The best combination, found by the rows of all formats.
    fn best_by(&self, rows: &[Row]) -> u16
        requires { IsTable self.now rows.now }
        ensures { IsBest self.now result }
    {
        let mut best = None;
        for c in 0..self.side.combinations.len() {
            best = self.better(rows, best, c);
        }
        match best {
            Some(choice) => choice.combination,
            None => self.running,
        }
    }

    /// The best of the first combinations and the next one.
    fn better(&self, rows: &[Row], best: Option<Choice>, c: usize) -> Option<Choice>
        requires table { IsTable self.now rows.now }
        requires there { c < length self.now.side.combinations }
        requires best { IsBestOf self.now c best }
        ensures { IsBestOf self.now (c + 1) result }
    {
        if !self.is_candidate(rows, c) {
            return best;
        }
        let choice = self.choice(rows, c);
        match best {
            Some(earlier) => Some(if is_better(&choice, &earlier) {
                choice
            } else {
                earlier
            }),
            None => Some(choice),
        }
    }

    /// A combination with the sums of its rows.
    fn choice(&self, rows: &[Row], c: usize) -> Choice
        requires table { IsTable self.now rows.now }
        requires combination { c < length self.now.side.combinations }
        ensures number { result.combination ≡ c }
        ensures choice { IsChoice self.now result }
    {
        let mut carried = [0; 8];
        let mut bits = 0;
        for i in 0..self.channels().len() {
            let row = self.row_in(rows, c, i);
            add(&mut carried, &row.carried);
            bits += row.bits;
        }
        Choice {
            combination: self.index(c),
            carried,
            bits,
        }
    }

    /// The number of a combination, of which there are at most 128.
    fn index(&self, c: usize) -> u16
        requires { c < length self.now.side.combinations }
        ensures { result ≡ c }
    {
        let _combinations = self.side;
        c as u16
    }
}
