ghost use Rattle.std.specs.Prelude.{◌≡◌, ◌+◌, ◌*◌, ◌==◌, ◌<◌, ◌≤◌, ℕ, length, take, if◌then◌else◌, slice_index, slice_index_or};
ghost use Rattle.std.specs.Int.{div_ceil};
ghost use Rattle.dch_bits.specs.declared.bit.Bit.TheVariants.{Zero};
ghost use Rattle.dch_types.specs.Limits.{IsSide};
ghost use Rattle.dch_types.specs.Parts.{channel_at, format_at};
ghost use Rattle.dch_accept.specs.HeldSets.{HasFormat, held_at};
ghost use Rattle.dch_accept.specs.Padded.{format_octets};
ghost use Rattle.dch_iub.specs.Forms.{mark_of};
ghost use Rattle.dch_iub.specs.Shape.{AreFormats, ForSet, format_in, blocks_end, header_octets, mark_count};
ghost use Rattle.dch_iub.specs.Steps.{AreCollected, AreListed, ArePacked, AreWritten, IsPacked};

use crate::shape::{block_octets, format_octets};
use dch_accept::{SetBlocks, TtiBlocks};
use dch_bits::{Bit, pack};
use dch_types::Side;

/// Writes bits as octets from a place on. The bits after them in the last octet are zeros.
pub fn write_bits(bits: &[Bit], at: usize, out: &mut [u8])
    requires { at + div_ceil (length bits.now) 8 ≤ length out.old }
    ensures packed { IsPacked out.new at (div_ceil (length bits.now) 8) bits.now }
    ensures before { take at out.new ≡ take at out.old }
{
    let end = at + bits.len().div_ceil(8);
    pack(bits, &mut out[at..end]);
}

/// Writes the blocks of a TTI, each in so many octets.
fn write_tti(blocks: &TtiBlocks, octets: usize, at: usize, out: &mut [u8])
    requires octets { octets ≡ div_ceil blocks.now.size 8 }
    requires room { at + length blocks.now.good * octets ≤ length out.old }
    ensures packed { ArePacked out.new at (length blocks.now.good) blocks.now }
    ensures before { take at out.new ≡ take at out.old }
{
    for b in 0..blocks.count() {
        write_bits(blocks.block(b), at + b * octets, out);
    }
}

/// Writes the blocks of a channel, if it belongs to a set, and answers the place after them.
fn write_channel(
    side: &Side,
    set: u8,
    channel: usize,
    blocks: &TtiBlocks,
    at: usize,
    out: &mut [u8],
) -> usize
    requires side { IsSide side.now }
    requires channel { channel < length side.now.channels }
    requires format { (channel_at side.now channel).set ≡ set → HasFormat (channel_at side.now channel) blocks.now }
    requires room { at + (if (channel_at side.now channel).set == set
        then format_octets (format_at (channel_at side.now channel) blocks.now.format) else 0) ≤ length out.old }
    ensures next { result ≡ at + (if (channel_at side.now channel).set == set
        then format_octets (format_at (channel_at side.now channel) blocks.now.format) else 0) }
    ensures packed { (channel_at side.now channel).set ≡ set →
        ArePacked out.new at (length blocks.now.good) blocks.now }
    ensures before { take at out.new ≡ take at out.old }
{
    if side.channel(channel).set == set {
        let format = side.channel(channel).format(usize::from(blocks.format()));
        write_tti(blocks, block_octets(format), at, out);
        at + format_octets(format)
    } else {
        at
    }
}

/// Writes the blocks of all channels of a set after the header.
pub fn write_blocks(
    side: &Side,
    set: u8,
    numbers: &[u8; 8],
    blocks: &SetBlocks,
    header: usize,
    out: &mut [u8],
)
    requires side { IsSide side.now }
    requires all { length blocks.now.blocks ≡ length side.now.channels }
    requires numbered { (i : ℕ) → i < length side.now.channels →
        slice_index numbers.now i ≡ (held_at blocks.now.blocks i).format }
    requires formats { ForSet side.now set (λ i. HasFormat (channel_at side.now i) (held_at blocks.now.blocks i)) }
    requires header { header ≡ header_octets side.now set }
    requires room { blocks_end side.now set numbers.now ≤ length out.old }
    ensures written { AreWritten side.now set out.new numbers.now blocks.now (length side.now.channels) }
    ensures before { take header out.new ≡ take header out.old }
{
    let mut at = header;
    for i in 0..side.channels.len() {
        at = write_channel(side, set, i, blocks.channel(i as u8), at, out);
    }
}

/// The bit that marks a block.
fn mark_of(good: bool) -> Bit
    ensures { result ≡ mark_of good }
{
    if good { Bit::Zero } else { Bit::One }
}

/// Lists the marks of the blocks of a TTI from a place on.
fn list_tti(blocks: &TtiBlocks, at: usize, out: &mut [Bit])
    requires { at + length blocks.now.good ≤ length out.old }
    ensures listed { AreListed out.new at (length blocks.now.good) blocks.now }
    ensures before { take at out.new ≡ take at out.old }
{
    for b in 0..blocks.count() {
        out[at + b] = mark_of(blocks.good(b));
    }
}

/// Lists the marks of the blocks of a channel, if it belongs to a set, and answers the place after them.
fn list_channel(
    side: &Side,
    set: u8,
    channel: usize,
    blocks: &TtiBlocks,
    at: usize,
    out: &mut [Bit],
) -> usize
    requires side { IsSide side.now }
    requires channel { channel < length side.now.channels }
    requires format { (channel_at side.now channel).set ≡ set → HasFormat (channel_at side.now channel) blocks.now }
    requires room { at + (if (channel_at side.now channel).set == set
        then (format_at (channel_at side.now channel) blocks.now.format).number else 0) ≤ length out.old }
    ensures next { result ≡ at + (if (channel_at side.now channel).set == set
        then (format_at (channel_at side.now channel) blocks.now.format).number else 0) }
    ensures listed { (channel_at side.now channel).set ≡ set →
        AreListed out.new at (length blocks.now.good) blocks.now }
    ensures before { take at out.new ≡ take at out.old }
{
    if side.channel(channel).set == set {
        list_tti(blocks, at, out);
        at + blocks.count()
    } else {
        at
    }
}

/// Lists the marks of the blocks of all channels of a set.
pub fn list_marks(side: &Side, set: u8, numbers: &[u8; 8], blocks: &SetBlocks, out: &mut [Bit])
    requires side { IsSide side.now }
    requires all { length blocks.now.blocks ≡ length side.now.channels }
    requires numbered { (i : ℕ) → i < length side.now.channels →
        slice_index numbers.now i ≡ (held_at blocks.now.blocks i).format }
    requires formats { ForSet side.now set (λ i. HasFormat (channel_at side.now i) (held_at blocks.now.blocks i)) }
    requires room { mark_count side.now set numbers.now ≤ length out.old }
    ensures { AreCollected side.now set out.new numbers.now blocks.now (length side.now.channels) }
{
    let mut at = 0;
    for i in 0..side.channels.len() {
        at = list_channel(side, set, i, blocks.channel(i as u8), at, out);
    }
}
