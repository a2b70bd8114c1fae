ghost use Rattle.std.specs.Prelude.{◌≡◌, ◌↔◌, ℕ, List, ◌+◌, ◌*◌, ◌^◌, ◌<◌, ◌≤◌, IsTrue, IsSome, IfSome, length, min, nat_le, take, slice_index_or};
ghost use Rattle.std.specs.List.{list_all};
ghost use Rattle.dch_bits.specs.declared.bit.Bit.{Bit};
ghost use Rattle.dch_bits.specs.declared.bit.Bit.TheVariants.{Zero};
ghost use Rattle.dch_coding.specs.declared.rate.Rate.TheVariants.{Half, Third};
ghost use Rattle.dch_coding.specs.Conv.{outputs, coded_length, encoded};
ghost use Rattle.dch_trellis.specs.Nearest.{all_copies, IsBlock};
ghost use Rattle.dch_trellis.specs.Search.{branch_metric, is_free, best, found, no_votes};
ghost use Rattle.dch_trellis.specs.Inverse.{majority, sum_from, AreMajorities, AreInverse, IsDecided, AreDecided};

use crate::steps::coded_before;
use crate::undamaged::fewest_of;
use dch_bits::{Bit, Vote, bit_at, number};
use dch_coding::{Rate, coded_len, encode};

/// The coded bits of the longest code block.
type CodedBits = [Bit; 3 * 512];

/// How many steps are read before the whole block is.
const FIRST: usize = 32;

/// Finds the nearest block where the copies decide on all coded bits, and a block has these: no other block disagrees
/// with as few copies. Its inputs are sums of the coded bits. The answer is how many copies it disagrees with, or None.
pub fn nearest(rate: Rate, votes: &[Vote], filler: usize, out: &mut [Bit]) -> Option<u32>
    requires some { 1 ≤ length out.old }
    requires size { length out.old ≤ 504 }
    requires coded { length votes.now ≡ coded_length rate (length out.old) }
    requires few { all_copies votes.now < 2 ^ 31 }
    ensures found { IsSome result → out.new ≡ found rate votes.now (length out.old) filler }
    ensures read { (block : List Bit) → IsBlock (length out.old) filler block →
        AreDecided votes.now (encoded rate block) → IsSome result }
    ensures cost { IfSome result (λ copies.
        copies ≡ best (branch_metric rate votes.now) (is_free (length out.old) filler) (length out.old + 8) 0 0) }
{
    if begins(rate, votes, out) && read(rate, votes, votes, out) && is_filled(out, filler) {
        Some(fewest_of(votes))
    } else {
        None
    }
}

/// Whether the copies decide on the coded bits of the first steps. Where they don't, the whole block isn't read in
/// vain.
fn begins(rate: Rate, votes: &[Vote], out: &mut [Bit]) -> bool
    requires some { 1 ≤ length out.old }
    requires size { length out.old ≤ 504 }
    requires coded { length votes.now ≡ coded_length rate (length out.old) }
    ensures decided { IsTrue result ↔ AreDecided
        (take (outputs rate * min (length out.old) 32) votes.now)
        (encoded rate (take (min (length out.old) 32) out.new)) }
    ensures read { (source : List Bit) → length source ≡ length out.old →
        AreDecided votes.now (encoded rate source) → IsTrue result }
{
    let steps = out.len().min(FIRST);
    let first = &votes[..coded_before(rate, steps)];
    read(rate, votes, first, &mut out[..steps])
}

/// Reads a block by the inverse of the code, codes it again, and tells whether the copies to compare decide on its
/// coded bits.
fn read(rate: Rate, votes: &[Vote], compared: &[Vote], block: &mut [Bit]) -> bool
    requires some { 1 ≤ length block.old }
    requires size { length block.old ≤ 504 }
    requires coded { coded_length rate (length block.old) ≤ length votes.now }
    requires compared { length compared.now ≤ coded_length rate (length block.old) }
    ensures decided { IsTrue result ↔ AreDecided compared.now (encoded rate block.new) }
    ensures inverse { (source : List Bit) → length block.old ≤ length source →
        AreDecided votes.now (encoded rate source) → block.new ≡ take (length block.old) source }
{
    let coded = coded_len(rate, block.len());
    let mut received = zeros();
    majorities(&votes[..coded], &mut received);
    invert(rate, &received, block);
    let mut again = zeros();
    let again = &mut again[..coded];
    encode(rate, block, again);
    are_decided(compared, again)
}

fn zeros() -> CodedBits {
    [Bit::Zero; 3 * 512]
}

/// Whether a block begins with so many zeros.
fn is_filled(block: &[Bit], filler: usize) -> bool
    ensures { IsTrue result ↔ ((k : ℕ) → k < filler → slice_index_or block.now k Zero ≡ Zero) }
{
    for k in 0..block.len() {
        if k < filler && block[k] == Bit::One {
            return false;
        }
    }
    true
}

/// The bits of which there are more copies.
fn majorities(votes: &[Vote], bits: &mut [Bit])
    requires { length votes.now ≤ length bits.old }
    ensures { AreMajorities (length votes.now) votes.now bits.new }
{
    let many = votes.len() / 16;
    for c in 0..many {
        some_majorities(votes, 16 * c, bits);
    }
    for j in 16 * many..votes.len() {
        bits[j] = majority(votes[j]);
    }
}

/// Sixteen of them.
fn some_majorities(votes: &[Vote], from: usize, bits: &mut [Bit])
    requires inside { from + 16 ≤ length votes.now }
    requires room { length votes.now ≤ length bits.old }
    ensures { AreMajorities from votes.now bits.old → AreMajorities (from + 16) votes.now bits.new }
{
    for j in 0..16usize {
        bits[from + j] = majority(votes[from + j]);
    }
}

fn majority(vote: Vote) -> Bit
    ensures { result ≡ majority vote }
{
    if vote.zeros < vote.ones {
        Bit::One
    } else {
        Bit::Zero
    }
}

/// Inputs from their coded bits.
fn invert(rate: Rate, coded: &CodedBits, block: &mut [Bit])
    requires { length block.old ≤ 504 }
    ensures { AreInverse rate (length block.old) coded.now block.new }
{
    match rate {
        Rate::Half => invert_half(coded, block),
        Rate::Third => invert_third(coded, block),
    }
}

/// Inputs from their coded bits at rate 1/2: `1 = (1 + D + D^2) G0 + (1 + D^2) G1`, six steps late.
fn invert_half(coded: &CodedBits, block: &mut [Bit])
    requires { length block.old ≤ 504 }
    ensures { AreInverse Half (length block.old) coded.now block.new }
{
    let many = block.len() / 16;
    for c in 0..many {
        half_inputs(coded, 16 * c, block);
    }
    for k in 16 * many..block.len() {
        block[k] = sum_from(coded, 2 * k, &[8, 9, 10, 12, 13]);
    }
}

/// Sixteen inputs, which are worked out side by side.
fn half_inputs(coded: &CodedBits, from: usize, block: &mut [Bit])
    requires inside { from + 16 ≤ length block.old }
    requires size { length block.old ≤ 504 }
    ensures { AreInverse Half from coded.now block.old → AreInverse Half (from + 16) coded.now block.new }
{
    let mut sums = [Bit::Zero; 32];
    for j in 0..32usize {
        sums[j] = sum_from(coded, 2 * from + j, &[8, 9, 10, 12, 13]);
    }
    for j in 0..16usize {
        block[from + j] = sums[2 * j];
    }
}

/// Inputs from their coded bits at rate 1/3: `1 = D^3 G0 + (1 + D^2) G1 + (1 + D^3) G2`, seven steps late.
fn invert_third(coded: &CodedBits, block: &mut [Bit])
    requires { length block.old ≤ 504 }
    ensures { AreInverse Third (length block.old) coded.now block.new }
{
    let many = block.len() / 16;
    for c in 0..many {
        third_inputs(coded, 16 * c, block);
    }
    for k in 16 * many..block.len() {
        block[k] = sum_from(coded, 3 * k, &[12, 14, 16, 22, 23]);
    }
}

/// Sixteen inputs, which are worked out side by side.
fn third_inputs(coded: &CodedBits, from: usize, block: &mut [Bit])
    requires inside { from + 16 ≤ length block.old }
    requires size { length block.old ≤ 504 }
    ensures { AreInverse Third from coded.now block.old → AreInverse Third (from + 16) coded.now block.new }
{
    let mut sums = [Bit::Zero; 48];
    for j in 0..48usize {
        sums[j] = sum_from(coded, 3 * from + j, &[12, 14, 16, 22, 23]);
    }
    for j in 0..16usize {
        block[from + j] = sums[3 * j];
    }
}

/// The sum of the bits at these distances from a place, modulo 2.
fn sum_from(bits: &CodedBits, from: usize, distances: &[usize]) -> Bit
    requires inside { from + 24 ≤ 1536 }
    requires few { length distances.now ≤ 9 }
    requires near { IsTrue (list_all (λ d. nat_le d 23) distances.now) }
    ensures { result ≡ sum_from bits.now from distances.now }
{
    let mut sum = 0;
    for d in distances {
        sum += u32::from(number(bits[from + *d]));
    }
    bit_at(sum, 0)
}

/// Whether more copies speak for each bit than against it.
fn are_decided(votes: &[Vote], bits: &[Bit]) -> bool
    requires { length votes.now ≤ length bits.now }
    ensures { IsTrue result ↔ AreDecided votes.now bits.now }
{
    let many = votes.len() / 16;
    for c in 0..many {
        if !some_decided(votes, 16 * c, bits) {
            return false;
        }
    }
    for j in 16 * many..votes.len() {
        if !is_decided(votes[j], bits[j]) {
            return false;
        }
    }
    true
}

/// Whether they do for sixteen of them.
fn some_decided(votes: &[Vote], from: usize, bits: &[Bit]) -> bool
    requires inside { from + 16 ≤ length votes.now }
    requires room { length votes.now ≤ length bits.now }
    ensures { IsTrue result ↔ ((j : ℕ) → from ≤ j → j < from + 16 →
        IsDecided (slice_index_or votes.now j no_votes) (slice_index_or bits.now j Zero)) }
{
    let mut decided = true;
    for j in 0..16usize {
        let next = is_decided(votes[from + j], bits[from + j]);
        decided = decided && next;
    }
    decided
}

fn is_decided(vote: Vote, bit: Bit) -> bool
    ensures { IsTrue result ↔ IsDecided vote bit }
{
    match bit {
        Bit::Zero => vote.ones < vote.zeros,
        Bit::One => vote.zeros < vote.ones,
    }
}
