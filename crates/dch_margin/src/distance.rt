ghost use Rattle.std.specs.Prelude.{◌≡◌, ◌≢◌, ◌<◌, ◌≤◌, ◌*◌, length, nat_lt, if◌then◌else◌};
ghost use Rattle.dch_types.specs.declared.channel.Coding.TheVariants.{Uncoded};
ghost use Rattle.dch_types.specs.Lengths.{coded_block};
ghost use Rattle.dch_coding.specs.Chain.{coded_as};
ghost use Rattle.dch_coding.specs.Segments.{filler_of};
ghost use Rattle.dch_trellis.specs.Distance.{copies_at};
ghost use Rattle.dch_margin.specs.Counts.{AreCounts};
ghost use Rattle.dch_margin.specs.Differ.{DifferIn, DifferInBlock, IsLeast, IsLeastBelow};

use dch_bits::Vote;
use dch_coding::{Plan, Rate};
use dch_trellis::Trellis;
use dch_types::Coding;

/// The least cells in which two blocks differ, and the first code block in whose place two do.
#[derive(Clone, Copy)]
pub struct Least {
    pub cells: u32,
    pub block: usize,
}

impl Least {
    /// The lesser of two; of two that are as little the first.
    fn or(self, later: Least) -> Least
        ensures { result ≡ (if nat_lt later.cells self.cells then later else self) }
    {
        if later.cells < self.cells {
            later
        } else {
            self
        }
    }
}

/// The least cells in which two blocks differ in the place of any code block of a TTI, where the votes count the cells
/// of each coded bit.
pub fn least_in_tti(trellis: &mut Trellis, coding: Coding, plan: &Plan, votes: &[Vote]) -> Least
    requires some { 1 ≤ plan.now.blocks }
    requires filler { plan.now.filler < plan.now.size }
    requires plain { coding ≡ Uncoded → plan.now.filler ≡ 0 }
    requires short { coding ≢ Uncoded → plan.now.size ≤ 504 }
    requires size { plan.now.size ≤ 131072 }
    requires room { 504 ≤ trellis.old }
    requires all { plan.now.blocks * coded_block coding plan.now.size ≤ length votes.now }
    requires counts { AreCounts (copies_at votes.now) votes.now }
    ensures least { IsLeastBelow coding plan.now (copies_at votes.now) plan.now.blocks result }
    ensures kept { trellis.new ≡ trellis.old }
{
    let mut least = Least {
        cells: least_in_place(trellis, coding, plan, 0, votes),
        block: 0,
    };
    for r in 1..plan.blocks {
        least = least.or(Least {
            cells: least_in_place(trellis, coding, plan, r, votes),
            block: r,
        });
    }
    least
}

/// The least cells in which two blocks differ in the place of code block `r`.
fn least_in_place(
    trellis: &mut Trellis,
    coding: Coding,
    plan: &Plan,
    r: usize,
    votes: &[Vote],
) -> u32
    requires there { r < plan.now.blocks }
    requires filler { plan.now.filler < plan.now.size }
    requires plain { coding ≡ Uncoded → plan.now.filler ≡ 0 }
    requires short { coding ≢ Uncoded → plan.now.size ≤ 504 }
    requires size { plan.now.size ≤ 131072 }
    requires room { 504 ≤ trellis.old }
    requires all { plan.now.blocks * coded_block coding plan.now.size ≤ length votes.now }
    requires counts { AreCounts (copies_at votes.now) votes.now }
    ensures least { IsLeast (DifferInBlock coding plan.now (copies_at votes.now) r) result }
    ensures kept { trellis.new ≡ trellis.old }
{
    let coded = coding.coded_block(plan.size as u64) as usize;
    let from = r * coded;
    least_in_block(
        trellis,
        coding,
        &votes[from..from + coded],
        plan.size,
        plan.filler_of(r),
    )
}

/// The least cells in which two blocks of a size and filler differ.
fn least_in_block(
    trellis: &mut Trellis,
    coding: Coding,
    votes: &[Vote],
    size: usize,
    filler: usize,
) -> u32
    requires filler { filler < size }
    requires plain { coding ≡ Uncoded → filler ≡ 0 }
    requires short { coding ≢ Uncoded → size ≤ 504 }
    requires room { 504 ≤ trellis.old }
    requires coded { length votes.now ≡ coded_block coding size }
    requires counts { AreCounts (copies_at votes.now) votes.now }
    ensures least { IsLeast (DifferIn (coded_as coding) size filler (copies_at votes.now)) result }
    ensures kept { trellis.new ≡ trellis.old }
{
    match coding {
        Coding::Uncoded => fewest(votes),
        Coding::Half => trellis.least_distance(Rate::Half, votes, size, filler),
        Coding::Third => trellis.least_distance(Rate::Third, votes, size, filler),
    }
}

/// The fewest cells of a bit: blocks that are not coded may differ in one bit alone.
fn fewest(votes: &[Vote]) -> u32
    requires some { 0 < length votes.now }
    requires counts { AreCounts (copies_at votes.now) votes.now }
    ensures { IsLeast (DifferIn (coded_as Uncoded) (length votes.now) 0 (copies_at votes.now)) result }
{
    let mut fewest = cells_of(votes, 0);
    for k in 1..votes.len() {
        fewest = fewest.min(cells_of(votes, k));
    }
    fewest
}

/// The cells of bit `k`.
pub fn cells_of(votes: &[Vote], k: usize) -> u32
    requires inside { k < length votes.now }
    requires counts { AreCounts (copies_at votes.now) votes.now }
    ensures { result ≡ copies_at votes.now k }
{
    votes[k].zeros
}
