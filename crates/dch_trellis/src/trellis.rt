ghost use Rattle.std.specs.Prelude.{◌≡◌, ℕ, List, ◌+◌, ◌*◌, ◌^◌, ◌<◌, ◌≤◌, length, vec_capacity, vec_len, IfOk};
ghost use Rattle.dch_bits.specs.declared.bit.Bit.{Bit};
ghost use Rattle.dch_coding.specs.Conv.{coded_length, encoded};
ghost use Rattle.dch_trellis.specs.Nearest.{all_copies, disagreement, IsBlock, IsNearest};
ghost use Rattle.dch_trellis.specs.Distance.{free_distance, damage, copies_at, AreToldApart, HaveCopies, AreOfZeros, IsLeastDistance};
ghost use Rattle.dch_trellis.specs.Search.{branch_metric, is_free, best, found};
ghost use Rattle.dch_trellis.specs.Undamaged.{IsFront};

use crate::steps::{copies_of, is_light};
use crate::table::Tables;
use crate::undamaged::Front;
use crate::{distance, inverse, narrow, tiny, undamaged, wide};
use dch_bits::{Bit, NoMemory, Vote};
use dch_coding::Rate;
use std::alloc::{AllocError, Global};
use std::marker::Model;

/// The memory of the search for the nearest block, for blocks of up to so many bits. Contracts see that number. A row
/// of costs stands for each step of the longest block and one past the last, once a search has needed so many.
#[derive(Drop)]
pub struct Trellis {
    most: usize,
    tables: Tables,
    tiny: Vec<tiny::PathMetrics>,
    narrow: Vec<narrow::PathMetrics>,
    wide: Vec<wide::PathMetrics>,
}

impl Model for Trellis {
    ghost use Rattle.std.specs.Prelude.{ℕ};

    ghost Value = { ℕ };

    ghost use Rattle.dch_trellis.specs.Ready.{longest, IsReady};

    ghost view = { longest };

    ghost invariant = { IsReady };
}

impl Trellis {
    /// Takes the memory for blocks of up to `most` bits, at most 504. Nothing more is taken later.
    pub fn open(alloc: Global, most: usize) -> Result<Self, NoMemory>
        requires { most ≤ 504 }
        ensures { IfOk result (λ trellis. trellis ≡ most) }
    {
        Ok(Trellis {
            most,
            tables: Tables::new(),
            tiny: Vec::with_capacity(alloc, most + 9)?,
            narrow: Vec::with_capacity(alloc, most + 9)?,
            wide: Vec::with_capacity(alloc, most + 9)?,
        })
    }

    /// Reads a block from the received copies of its coded bits (TS 25.212 4.2.3.1): `out` becomes the block with so
    /// many zeros of filler in front whose coded bits disagree with the fewest copies. Of several such blocks it is the
    /// first in text order, 0 before 1. The answer is that number of copies. With a copy of each coded bit of the block
    /// that was sent, it is that block where at most five copies are wrong at rate 1/2, and eight at rate 1/3; in
    /// general where less than half of the copies that tell two blocks apart did not arrive as they were sent.
    pub fn nearest(&mut self, rate: Rate, votes: &[Vote], filler: usize, out: &mut [Bit]) -> u32
        requires some { 1 ≤ length out.old }
        requires room { length out.old ≤ self.old }
        requires filler { filler ≤ length out.old }
        requires coded { length votes.now ≡ coded_length rate (length out.old) }
        requires few { all_copies votes.now < 2 ^ 31 }
        ensures nearest { IsNearest rate votes.now (length out.old) filler out.new }
        ensures corrected { (block : List Bit) (least : ℕ) → IsBlock (length out.old) filler block →
            HaveCopies least votes.now →
            2 * disagreement votes.now (encoded rate block) < least * free_distance rate → out.new ≡ block }
        ensures told_apart { (block : List Bit) (sent : ℕ → ℕ) (count : ℕ) → IsBlock (length out.old) filler block →
            AreToldApart (encoded rate) (length out.old) filler sent count →
            2 * damage sent votes.now (encoded rate block) < count → out.new ≡ block }
        ensures copies { result ≡ disagreement votes.now (encoded rate out.new) }
        ensures kept { self.new ≡ self.old }
    {
        self.find(rate, votes, filler, out)
    }

    /// How many copies tell two blocks apart at least, of so many bits with so many zeros of filler in front: no two
    /// different ones differ in fewer of the received copies of their coded bits (TS 25.212 4.2.3.1), and some two in
    /// just so many. `votes` are the copies of each coded bit, all of them for Zero. `nearest` finds the block that was
    /// sent where less than half as many copies are wrong or missing. Zero tells that two blocks look the same.
    pub fn least_distance(&mut self, rate: Rate, votes: &[Vote], size: usize, filler: usize) -> u32
        requires room { size ≤ self.old }
        requires filler { filler < size }
        requires coded { length votes.now ≡ coded_length rate size }
        requires zeros { AreOfZeros votes.now }
        requires few { all_copies votes.now < 2 ^ 31 }
        ensures least { IsLeastDistance rate size filler (copies_at votes.now) result }
        ensures kept { self.new ≡ self.old }
    {
        let table = self.tables.of(rate);
        lengthen(&mut self.wide, size + 9, wide::no_metrics());
        distance::least(rate, table, votes, size, filler, &mut self.wide)
    }

    /// Reads an undamaged block off its copies, and searches for any other.
    fn find(&mut self, rate: Rate, votes: &[Vote], filler: usize, out: &mut [Bit]) -> u32
        requires some { 1 ≤ length out.old }
        requires room { length out.old ≤ self.old }
        requires coded { length votes.now ≡ coded_length rate (length out.old) }
        requires few { all_copies votes.now < 2 ^ 31 }
        ensures found { out.new ≡ found rate votes.now (length out.old) filler }
        ensures cost { result ≡ best (branch_metric rate votes.now) (is_free (length out.old) filler)
            (length out.old + 8) 0 0 }
        ensures kept { self.new ≡ self.old }
    {
        let outputs = self.tables.outputs(rate);
        if let Some(copies) = inverse::nearest(rate, votes, filler, out) {
            return copies;
        }
        let mut front = Front::new();
        if let Some(copies) = undamaged::nearest(rate, outputs, votes, filler, &mut front, out) {
            return copies;
        }
        self.search(rate, votes, filler, &front, out)
    }

    /// Searches for the nearest block, by costs of as few bits as hold them.
    fn search(
        &mut self,
        rate: Rate,
        votes: &[Vote],
        filler: usize,
        front: &Front,
        out: &mut [Bit],
    ) -> u32
        requires some { 1 ≤ length out.old }
        requires room { length out.old ≤ self.old }
        requires coded { length votes.now ≡ coded_length rate (length out.old) }
        requires few { all_copies votes.now < 2 ^ 31 }
        requires front { IsFront rate votes.now (length out.old) filler out.old front.now }
        ensures found { out.new ≡ found rate votes.now (length out.old) filler }
        ensures cost { result ≡ best (branch_metric rate votes.now) (is_free (length out.old) filler)
            (length out.old + 8) 0 0 }
        ensures kept { self.new ≡ self.old }
    {
        let table = self.tables.of(rate);
        let count = out.len() + 9;
        if is_light(rate, votes) {
            lengthen(&mut self.tiny, count, tiny::no_metrics());
            tiny::nearest(rate, table, votes, filler, front, &mut self.tiny, out)
        } else if copies_of(votes) < 65_536 {
            lengthen(&mut self.narrow, count, narrow::no_metrics());
            narrow::nearest(rate, table, votes, filler, front, &mut self.narrow, out)
        } else {
            lengthen(&mut self.wide, count, wide::no_metrics());
            wide::nearest(rate, table, votes, filler, front, &mut self.wide, out)
        }
    }
}

/// Makes at least so many rows. Memory that was taken at opening is first touched here, so kinds of rows that no search
/// needs cost no more than their addresses.
fn lengthen<T: Copy>(rows: &mut Vec<T>, count: usize, row: T)
    requires { count ≤ vec_capacity rows.old }
    ensures long { count ≤ vec_len rows.new }
    ensures capacity { vec_capacity rows.old ≤ vec_capacity rows.new }
{
    for made in rows.len()..count {
        let Ok(()) = rows.push(row) else {
            unreachable!();
        };
    }
}
