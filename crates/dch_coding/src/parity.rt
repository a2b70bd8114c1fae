ghost use Rattle.std.specs.Prelude.{◌≡◌, ◌+◌, ◌-◌, ◌^◌, ◌<◌, ◌≤◌, ◌↔◌, ◌∷◌, List, length, take, drop, reverse, IsTrue};
ghost use Rattle.dch_bits.specs.declared.bit.Bit.{Bit};
ghost use Rattle.dch_bits.specs.declared.bit.Bit.TheVariants.{One};
ghost use Rattle.dch_types.specs.declared.channel.Crc.{Crc};
ghost use Rattle.dch_types.specs.Lengths.{crc_size};
ghost use Rattle.dch_coding.specs.Parity.{IsParity, IsAttached, IsCheck, header_polynomial, payload_polynomial, bits_of_octets};
ghost use Rattle.dch_coding.specs.Register.{lowest_bits, terms_of, HoldsParity};

use crate::crc_words::crc_words;
use crate::iub_words::{header_words, payload_words};
use crate::words::{parity_of_bits, parity_of_octets};
use dch_bits::{Bit, bit_at};
use dch_types::Crc;

/// The number of parity bits of a transport block.
pub fn size(kind: Crc) -> usize
    ensures { result ≡ crc_size kind }
{
    usize::from(kind.size())
}

/// Writes a block, and after it its parity bits, the last one first (TS 25.212 4.2.1.2).
#[tactic(auto, using(crate::proofs::Attached::terms_are))]
pub fn attach(kind: Crc, block: &[Bit], out: &mut [Bit])
    requires { length out.old ≡ length block.now + crc_size kind }
    ensures { IsAttached kind block.now out.new }
{
    let (front, back) = out.split_at_mut(block.len());
    front.copy_from_slice(block);
    write_reversed(parity_of(kind, block), back);
}

/// Whether the bits end with the parity bits of the block before them.
pub fn check(kind: Crc, bits: &[Bit]) -> bool
    requires { crc_size kind ≤ length bits.now }
    ensures { IsTrue result ↔ IsAttached kind (take (length bits.now - crc_size kind) bits.now) bits.now }
{
    let (block, parity) = bits.split_at(bits.len() - size(kind));
    is_reversed(parity_of(kind, block), parity)
}

/// The seven check bits of an Iub frame's header, over the header's bits after them (TS 25.427).
pub fn header7(bits: &[Bit]) -> u8
    ensures check { IsCheck header_polynomial bits.now result }
    ensures small { result < 2 ^ 7 }
{
    (parity_of_bits(header_words(), bits) >> 25) as u8
}

/// The seven check bits of an Iub frame's header in octets, over all its bits after the first seven (TS 25.427).
pub fn header_check(octets: &[u8]) -> u8
    requires { 1 ≤ length octets.now }
    ensures check { IsCheck header_polynomial (drop 7 (bits_of_octets octets.now)) result }
    ensures small { result < 2 ^ 7 }
{
    (parity_of_octets(header_words(), octets[0] % 2, &octets[1..]) >> 25) as u8
}

/// The check of an Iub frame's payload, over the octets between the header and the check (TS 25.427).
pub fn payload16(octets: &[u8]) -> u16
    ensures { IsCheck payload_polynomial (bits_of_octets octets.now) result }
{
    (parity_of_octets(payload_words(), 0, octets) >> 16) as u16
}

/// The parity of a block, as a number.
fn parity_of(kind: Crc, block: &[Bit]) -> u32
    ensures { HoldsParity (crc_size kind) (terms_of kind) block.now result }
{
    parity_of_bits(crc_words(kind), block) >> (31 - kind.size()) >> 1
}

/// Writes the lowest bits of a number, the lowest first.
fn write_reversed(number: u32, out: &mut [Bit])
    requires { length out.old ≤ 32 }
    ensures { out.new ≡ reverse (lowest_bits (length out.new) number) }
{
    for i in 0..out.len() {
        out[i] = bit_at(number, i);
    }
}

/// Whether bits are the lowest ones of a number, the lowest first.
fn is_reversed(number: u32, bits: &[Bit]) -> bool
    requires { length bits.now ≤ 32 }
    ensures { IsTrue result ↔ (bits.now ≡ reverse (lowest_bits (length bits.now) number)) }
{
    for i in 0..bits.len() {
        if bits[i] != bit_at(number, i) {
            return false;
        }
    }
    true
}

/// A law: under a polynomial with a first term, each block has one parity and no other, and so it has one attached
/// form, which is longer by the number of parity bits.
pub fn one_parity()
    ensures some { (low block : List Bit) → (parity : List Bit) × IsParity (One ∷ low) block parity }
    ensures one { (low block parity other : List Bit) → IsParity (One ∷ low) block parity →
        IsParity (One ∷ low) block other → parity ≡ other }
    ensures attached { (kind : Crc) (block out other : List Bit) → IsAttached kind block out →
        IsAttached kind block other → out ≡ other }
    ensures length { (kind : Crc) (block out : List Bit) → IsAttached kind block out →
        length out ≡ length block + crc_size kind }
{}
