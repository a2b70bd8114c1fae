ghost use Rattle.std.specs.Prelude.{◌≡◌, ◌+◌, ◌*◌, ◌≤◌, ◌↔◌, List, length, take, IsTrue};
ghost use Rattle.dch_bits.specs.declared.bit.Bit.{Bit};
ghost use Rattle.dch_types.specs.Lengths.{crc_size};
ghost use Rattle.dch_coding.specs.Parity.{IsAttached};
ghost use Rattle.dch_coding.specs.Ttis.{part};

use dch_bits::Bit;
use dch_coding::{check, size};
use dch_types::Crc;

/// A received transport block, and whether its parity fits.
#[derive(Clone, Copy)]
pub struct TransportBlock<'a> {
    pub bits: &'a [Bit],
    pub good: bool,
}

/// Transport block `i` of joined bits, of so many bits without its parity (TS 25.212 4.2.1).
pub fn received(crc: Crc, bits: usize, joined: &[Bit], i: usize) -> TransportBlock<'_>
    requires { (i + 1) * (bits + crc_size crc) ≤ length joined.now }
    ensures bits { result.bits.now ≡ take bits (part i (bits + crc_size crc) joined.now) }
    ensures good { IsTrue result.good ↔ IsAttached crc result.bits.now (part i (bits + crc_size crc) joined.now) }
    ensures undamaged { (block : List Bit) → length block ≡ bits →
        IsAttached crc block (part i (bits + crc_size crc) joined.now) →
        (result.bits.now ≡ block) × IsTrue result.good }
{
    let width = bits + size(crc);
    let at = i * width;
    let attached = &joined[at..at + width];
    TransportBlock {
        bits: &attached[..bits],
        good: check(crc, attached),
    }
}
