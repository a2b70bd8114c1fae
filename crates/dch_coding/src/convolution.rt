ghost use Rattle.std.specs.Prelude.{◌≡◌, ℕ, List, ◌+◌, ◌-◌, ◌*◌, ◌%◌, ◌<◌, ◌≤◌, IsTrue, nat_le, length, sum_by, slice_index_or};
ghost use Rattle.std.specs.List.{list_all};
ghost use Rattle.dch_bits.specs.declared.bit.Bit.{Bit};
ghost use Rattle.dch_bits.specs.declared.bit.Bit.TheVariants.{Zero};
ghost use Rattle.dch_bits.specs.Bits.{bit_of_number};
ghost use Rattle.dch_coding.specs.declared.rate.Rate.TheVariants.{Half, Third};
ghost use Rattle.dch_coding.specs.Conv.{input, coded_length, encoded};
ghost use Rattle.dch_coding.specs.Inputs.{Feeds, IsCodedTo};

use crate::rate::Rate;
use dch_bits::{Bit, bit_at, number};

/// The longest code block, in bits.
const LONGEST: usize = 504;

/// The bits that the encoder takes in: eight zeros, by which it starts, the block, and the zeros of the tail.
type Inputs = [Bit; 8 + LONGEST + 8];

/// Encodes a block of 1 to 504 bits, ended by eight zero bits. The coded bits of each step stand side by side, in the
/// order of the generators (TS 25.212 4.2.3.1).
pub fn encode(rate: Rate, block: &[Bit], out: &mut [Bit])
    requires some { 1 ≤ length block.now }
    requires short { length block.now ≤ 504 }
    requires room { length out.old ≡ coded_length rate (length block.now) }
    ensures { out.new ≡ encoded rate block.now }
{
    let mut inputs = zeros();
    feed(block, &mut inputs);
    match rate {
        Rate::Half => encode_half(&inputs, out),
        Rate::Third => encode_third(&inputs, out),
    }
}

/// Writes the block that the encoder takes in, behind the eight zeros by which it starts.
fn feed(block: &[Bit], inputs: &mut Inputs)
    requires short { length block.now ≤ 504 }
    requires zeros { (i : ℕ) → slice_index_or inputs.old i Zero ≡ Zero }
    ensures { Feeds inputs.new block.now }
{
    for (i, bit) in block.iter().enumerate() {
        inputs[8 + i] = *bit;
    }
}

fn zeros() -> Inputs
    ensures { (i : ℕ) → slice_index_or result i Zero ≡ Zero }
{
    [Bit::Zero; 8 + LONGEST + 8]
}

/// Rate 1/2, by the generators 561 and 753 (octal).
fn encode_half(inputs: &Inputs, out: &mut [Bit])
    requires { length out.old ≤ 1024 }
    ensures { (block : List Bit) → Feeds inputs.now block → length out.old ≡ coded_length Half (length block) →
        out.new ≡ encoded Half block }
{
    let many = out.len() / 32;
    for c in 0..many {
        half_steps(inputs, 16 * c, out);
    }
    for k in 16 * many..out.len() / 2 {
        out[2 * k] = coded_bit(inputs, k, &[0, 2, 3, 4, 8]);
        out[2 * k + 1] = coded_bit(inputs, k, &[0, 1, 2, 3, 5, 7, 8]);
    }
}

/// Sixteen steps at rate 1/2, which are worked out side by side.
fn half_steps(inputs: &Inputs, from: usize, out: &mut [Bit])
    requires steps { from + 16 ≤ 512 }
    requires room { 2 * from + 32 ≤ length out.old }
    ensures { (block : List Bit) → Feeds inputs.now block → IsCodedTo Half block (2 * from) out.old →
        IsCodedTo Half block (2 * from + 32) out.new }
{
    let mut first = [Bit::Zero; 16];
    let mut second = [Bit::Zero; 16];
    for j in 0..16usize {
        first[j] = coded_bit(inputs, from + j, &[0, 2, 3, 4, 8]);
        second[j] = coded_bit(inputs, from + j, &[0, 1, 2, 3, 5, 7, 8]);
    }
    for j in 0..16usize {
        out[2 * (from + j)] = first[j];
        out[2 * (from + j) + 1] = second[j];
    }
}

/// Rate 1/3, by the generators 557, 663 and 711 (octal).
fn encode_third(inputs: &Inputs, out: &mut [Bit])
    requires { length out.old ≤ 1536 }
    ensures { (block : List Bit) → Feeds inputs.now block → length out.old ≡ coded_length Third (length block) →
        out.new ≡ encoded Third block }
{
    for k in 0..out.len() / 3 {
        out[3 * k] = coded_bit(inputs, k, &[0, 2, 3, 5, 6, 7, 8]);
        out[3 * k + 1] = coded_bit(inputs, k, &[0, 1, 3, 4, 7, 8]);
        out[3 * k + 2] = coded_bit(inputs, k, &[0, 1, 2, 5, 8]);
    }
}

/// The sum of the inputs at these distances back from step `k`, modulo 2.
fn coded_bit(inputs: &Inputs, k: usize, taps: &[usize]) -> Bit
    requires step { k < 512 }
    requires few { length taps.now ≤ 9 }
    requires near { IsTrue (list_all (λ d. nat_le d 8) taps.now) }
    ensures { (block : List Bit) → Feeds inputs.now block →
        result ≡ bit_of_number (sum_by (input block k) taps.now % 2) }
{
    let mut sum = 0;
    for d in taps {
        sum += u32::from(number(inputs[k + 8 - *d]));
    }
    bit_at(sum, 0)
}
