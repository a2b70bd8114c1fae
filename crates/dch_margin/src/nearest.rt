ghost use Rattle.std.specs.Prelude.{◌≡◌, ◌≢◌, ◌<◌, ◌≤◌, ◌*◌, ◌^◌, List, IsTrue, length, replicate, slice_index_or};
ghost use Rattle.dch_bits.specs.declared.bit.Bit.{Bit};
ghost use Rattle.dch_bits.specs.declared.bit.Bit.TheVariants.{Zero, One};
ghost use Rattle.dch_types.specs.declared.channel.Coding.TheVariants.{Uncoded};
ghost use Rattle.dch_types.specs.Lengths.{coded_block};
ghost use Rattle.dch_coding.specs.Chain.{coded_as};
ghost use Rattle.dch_coding.specs.Conv.{coded_length, encoded, outputs};
ghost use Rattle.dch_trellis.specs.Distance.{AreOfZeros, copies_at};
ghost use Rattle.dch_trellis.specs.Nearest.{IsBlock, all_copies, disagreement};
ghost use Rattle.dch_margin.specs.Counts.{AreCounts};
ghost use Rattle.dch_margin.specs.Differ.{DifferIn, DifferInBlock, IsFromZeros, IsLeast};
ghost use Rattle.dch_margin.specs.Worst.{IsNear};

use crate::distance::cells_of;
use dch_bits::{Bit, Vote};
use dch_coding::{Plan, Rate, encode};
use dch_trellis::Trellis;
use dch_types::Coding;

/// Finds a block in the place of code block `r` that differs from zeros in just the least cells in which any two differ
/// there, and writes it to `block` and its code to `code`.
pub fn nearest_code(
    trellis: &mut Trellis,
    coding: Coding,
    plan: &Plan,
    r: usize,
    votes: &mut [Vote],
    least: u32,
    block: &mut [Bit],
    code: &mut [Bit],
)
    requires there { r < plan.now.blocks }
    requires filler { plan.now.filler < plan.now.size }
    requires plain { coding ≡ Uncoded → plan.now.filler ≡ 0 }
    requires short { coding ≢ Uncoded → plan.now.size ≤ 504 }
    requires size { plan.now.size ≤ 131072 }
    requires room { 504 ≤ trellis.old }
    requires all { plan.now.blocks * coded_block coding plan.now.size ≤ length votes.old }
    requires counts { AreCounts (copies_at votes.old) votes.old }
    requires least { IsLeast (DifferInBlock coding plan.now (copies_at votes.old) r) least }
    requires block { length block.old ≡ plan.now.size }
    requires code { length code.old ≡ coded_block coding plan.now.size }
    ensures near { IsNear coding plan.now (copies_at votes.old) r least code.new }
    ensures kept { trellis.new ≡ trellis.old }
{
    let from = r * code.len();
    nearest_block(
        trellis,
        coding,
        &mut votes[from..from + code.len()],
        plan.filler_of(r),
        least,
        block,
    );
    code_block(coding, block, code);
}

/// Writes the code of a block.
fn code_block(coding: Coding, block: &[Bit], code: &mut [Bit])
    requires some { 1 ≤ length block.now }
    requires short { coding ≢ Uncoded → length block.now ≤ 504 }
    requires room { length code.old ≡ coded_block coding (length block.now) }
    ensures { code.new ≡ coded_as coding block.now }
{
    match coding {
        Coding::Uncoded => code.copy_from_slice(block),
        Coding::Half => encode(Rate::Half, block, code),
        Coding::Third => encode(Rate::Third, block, code),
    }
}

/// Finds a code block that differs from zeros in just the least cells in which any two differ.
fn nearest_block(
    trellis: &mut Trellis,
    coding: Coding,
    votes: &mut [Vote],
    filler: usize,
    least: u32,
    block: &mut [Bit],
)
    requires filler { filler < length block.old }
    requires plain { coding ≡ Uncoded → filler ≡ 0 }
    requires short { coding ≢ Uncoded → length block.old ≤ 504 }
    requires room { 504 ≤ trellis.old }
    requires coded { length votes.old ≡ coded_block coding (length block.old) }
    requires counts { AreCounts (copies_at votes.old) votes.old }
    requires least { IsLeast (DifferIn (coded_as coding) (length block.old) filler (copies_at votes.old)) least }
    ensures nearest { IsFromZeros (coded_as coding) (length block.old) filler (copies_at votes.old) least block.new }
    ensures long { length block.new ≡ length block.old }
    ensures kept { trellis.new ≡ trellis.old }
{
    match coding {
        Coding::Uncoded => nearest_bit(votes, least, block),
        Coding::Half => nearest_coded(trellis, Rate::Half, votes, filler, least, block),
        Coding::Third => nearest_coded(trellis, Rate::Third, votes, filler, least, block),
    }
}

/// One bit of the fewest cells among zeros.
fn nearest_bit(votes: &[Vote], least: u32, block: &mut [Bit])
    requires coded { length votes.now ≡ length block.old }
    requires counts { AreCounts (copies_at votes.now) votes.now }
    requires least { IsLeast (DifferIn (coded_as Uncoded) (length block.old) 0 (copies_at votes.now)) least }
    ensures { IsFromZeros (coded_as Uncoded) (length block.old) 0 (copies_at votes.now) least block.new }
{
    for k in 0..votes.len() {
        if cells_of(votes, k) == least {
            zero(block);
            block[k] = Bit::One;
            return;
        }
    }
    unreachable!();
}

fn zero(block: &mut [Bit])
    ensures { block.new ≡ replicate (length block.old) Zero }
{
    block.fill(Bit::Zero);
}

/// The first One of such a block may stand at any bit behind the filler.
fn nearest_coded(
    trellis: &mut Trellis,
    rate: Rate,
    votes: &mut [Vote],
    filler: usize,
    least: u32,
    block: &mut [Bit],
)
    requires filler { filler < length block.old }
    requires short { length block.old ≤ 504 }
    requires room { 504 ≤ trellis.old }
    requires coded { length votes.old ≡ coded_length rate (length block.old) }
    requires zeros { AreOfZeros votes.old }
    requires few { all_copies votes.old < 2 ^ 30 }
    requires least { IsLeast (DifferIn (encoded rate) (length block.old) filler (copies_at votes.old)) least }
    ensures nearest { IsFromZeros (encoded rate) (length block.old) filler (copies_at votes.old) least block.new }
    ensures kept { trellis.new ≡ trellis.old }
{
    for k in filler..block.len() {
        if begins_at(trellis, rate, votes, filler, k, least, block) {
            return;
        }
    }
    unreachable!();
}

/// Whether such a block has its first One at bit `k`, and then one that has. It is the nearest of those with zeros in
/// front of bit `k`, where a One is received for the first coded bit of that step more often than any block costs. That
/// coded bit is bit `k` itself, since all inputs in front of it are zeros.
fn begins_at(
    trellis: &mut Trellis,
    rate: Rate,
    votes: &mut [Vote],
    filler: usize,
    k: usize,
    least: u32,
    block: &mut [Bit],
) -> bool
    requires past { filler ≤ k }
    requires inside { k < length block.old }
    requires short { length block.old ≤ 504 }
    requires room { 504 ≤ trellis.old }
    requires coded { length votes.old ≡ coded_length rate (length block.old) }
    requires zeros { AreOfZeros votes.old }
    requires few { all_copies votes.old < 2 ^ 30 }
    requires least { IsLeast (DifferIn (encoded rate) (length block.old) filler (copies_at votes.old)) least }
    ensures nearest { IsTrue result →
        IsFromZeros (encoded rate) (length block.old) filler (copies_at votes.old) least block.new }
    ensures begins { (other : List Bit) → IsBlock (length block.old) k other → slice_index_or other k Zero ≡ One →
        disagreement votes.old (encoded rate other) ≡ least → IsTrue result }
    ensures votes { votes.new ≡ votes.old }
    ensures long { length block.new ≡ length block.old }
    ensures kept { trellis.new ≡ trellis.old }
{
    let at = first_of_step(rate, k);
    let vote = votes[at];
    votes[at] = Vote {
        zeros: vote.zeros,
        ones: least + 1,
    };
    let copies = trellis.nearest(rate, votes, k, block);
    votes[at] = vote;
    match block[k] {
        Bit::Zero => false,
        Bit::One => copies == least,
    }
}

/// The first coded bit of a step.
fn first_of_step(rate: Rate, k: usize) -> usize
    requires { k ≤ 504 }
    ensures { result ≡ outputs rate * k }
{
    match rate {
        Rate::Half => 2 * k,
        Rate::Third => 3 * k,
    }
}
