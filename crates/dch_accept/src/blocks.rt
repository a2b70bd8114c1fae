ghost use Rattle.std.specs.Prelude.{◌≡◌, ◌<◌, ◌≤◌, ◌*◌, ◌^◌, ◌+◌, ℕ, [], length, take, drop, slice_set, slice_index_or, IfOk, false};
ghost use Rattle.std.specs.Borrow.{sem};
ghost use Rattle.std.specs.Int.{div_ceil};
ghost use Rattle.dch_types.specs.Limits.{IsSide};
ghost use Rattle.dch_types.specs.Parts.{channel_at, format_at, side_of};
ghost use Rattle.dch_accept.specs.Blocks.{block_at, bits_of, zero_blocks, HoldsFormats, HoldsTtis};
ghost use Rattle.dch_accept.specs.Padded.{bits_from, format_octets, IsUnpacked};
ghost use Rattle.dch_accept.specs.BlockLending.{LendsBits, LendsBlock};
ghost use Rattle.dch_accept.specs.declared.blocks.TheConstants.{MOST_BLOCKS};

use crate::accepted::Accepted;
use crate::clear::clear;
use dch_bits::{Bit, NoMemory, unpack};
use dch_types::{Dir, Format, Side, Trch};
use std::alloc::Global;
use std::marker::Model;

/// The most transport blocks of a TTI.
const MOST_BLOCKS: usize = 64;

/// The transport blocks of a TTI of a channel with their format, and for each whether it is good, in memory for the
/// greatest TTI of a direction.
pub struct TtiBlocks {
    format: u8,
    count: usize,
    size: usize,
    bits: Vec<Bit>,
    marks: Vec<bool>,
    room: usize,
}

// By hand, so that whoever holds one drops it by one call.
impl Drop for TtiBlocks {
    fn drop(self) {
        let TtiBlocks {
            format: _format,
            count: _count,
            size: _size,
            bits: _bits,
            marks: _marks,
            room: _room,
        } = self;
    }
}

impl Model for TtiBlocks {
    ghost use Rattle.std.specs.Prelude.{◌*◌, length, take};
    ghost use Rattle.dch_accept.specs.Blocks.{Held};

    ghost Value = { Held };

    ghost view = { λ b. record {
      format = b.format;
      size = b.size;
      bits = take (b.count * b.size) b.bits.items;
      good = take b.count b.marks.items;
      room = b.room;
    } };

    ghost use Rattle.dch_accept.specs.BlockRoom.{HasBlockRoom};

    ghost invariant = { λ b. HasBlockRoom b.count b.size b.room (length b.bits.items) (length b.marks.items) };
}

impl TtiBlocks {
    /// Takes the memory for the TTIs of a direction. The new blocks are none, in format 0.
    pub fn open(alloc: Global, accepted: &Accepted, dir: Dir) -> Result<TtiBlocks, NoMemory>
        ensures format { IfOk result (λ blocks. blocks.format ≡ 0) }
        ensures none { IfOk result (λ blocks. blocks.good ≡ []) }
        ensures room { IfOk result (λ blocks. HoldsTtis (side_of accepted.now.config dir) blocks.room) }
    {
        let room = most_bits(accepted.config().side(dir));
        TtiBlocks::with_room(alloc, room)
    }

    /// Takes the memory for so many bits. The new blocks are none, in format 0.
    pub(crate) fn with_room(alloc: Global, room: usize) -> Result<TtiBlocks, NoMemory>
        ensures { IfOk result (λ blocks. blocks ≡ record { format = 0; size = 0; bits = []; good = []; room = room }) }
    {
        Ok(TtiBlocks {
            format: 0,
            count: 0,
            size: 0,
            bits: vec![in alloc; Bit::Zero; room]?,
            marks: vec![in alloc; false; MOST_BLOCKS]?,
            room,
        })
    }

    /// The number of the format.
    pub fn format(&self) -> u8
        ensures { result ≡ self.now.format }
    {
        self.format
    }

    /// How many blocks there are.
    pub fn count(&self) -> usize
        ensures { result ≡ length self.now.good }
    {
        self.count
    }

    /// The bits of all blocks, one block after another.
    pub fn bits(&self) -> &[Bit]
        ensures value { result.now ≡ self.now.bits }
        ensures long { length result.now ≡ length self.now.good * self.now.size }
    {
        &self.bits[..self.count * self.size]
    }

    /// The bits of block `i`.
    pub fn block(&self, i: usize) -> &[Bit]
        requires { i < length self.now.good }
        ensures value { result.now ≡ block_at self.now i }
        ensures long { length result.now ≡ self.now.size }
    {
        let from = i * self.size;
        &self.bits()[from..from + self.size]
    }

    /// Whether block `i` is good: its parity fits, or it has none.
    pub fn good(&self, i: usize) -> bool
        requires { i < length self.now.good }
        ensures { result ≡ slice_index_or self.now.good i false }
    {
        self.marks[i]
    }

    /// Takes a format of a channel, with as many blocks as it has. All are zeros and good.
    pub fn shape(&mut self, accepted: &Accepted, dir: Dir, channel: u8, format: u8)
        requires opened { HoldsTtis (side_of accepted.now.config dir) self.old.room }
        requires channel { channel < length (side_of accepted.now.config dir).channels }
        requires format { format < length (channel_at (side_of accepted.now.config dir) channel).formats }
        ensures { self.new ≡ zero_blocks format (format_at (channel_at (side_of accepted.now.config dir) channel)
            format) self.old.room }
    {
        let trch = accepted.config().side(dir).channel(usize::from(channel));
        self.clear(format, trch.format(usize::from(format)));
    }

    /// Takes a format, with as many blocks as it has. All are zeros and good.
    pub(crate) fn clear(&mut self, number: u8, format: &Format)
        requires few { format.now.number ≤ 64 }
        requires room { bits_of format.now ≤ self.old.room }
        ensures { self.new ≡ zero_blocks number format.now self.old.room }
    {
        self.resize(number, format);
        clear(&mut self.bits, self.count * self.size, Bit::Zero);
        clear(&mut self.marks, self.count, true);
    }

    /// Takes a format, with as many blocks as it has. What their bits and marks are is not told.
    pub fn resize(&mut self, number: u8, format: &Format)
        requires few { format.now.number ≤ 64 }
        requires room { bits_of format.now ≤ self.old.room }
        ensures format { self.new.format ≡ number }
        ensures size { self.new.size ≡ format.now.size }
        ensures count { length self.new.good ≡ format.now.number }
        ensures bits { length self.new.bits ≡ bits_of format.now }
        ensures room { self.new.room ≡ self.old.room }
    {
        self.format = number;
        self.count = usize::from(format.number);
        self.size = usize::from(format.size);
    }

    /// Takes a copy of other blocks.
    pub(crate) fn copy_from(&mut self, other: &TtiBlocks)
        requires { length other.now.bits ≤ self.old.room }
        ensures { self.new ≡ record other.now { room = self.old.room } }
    {
        let bits = other.bits();
        self.bits.slice_mut(..bits.len()).copy_from_slice(bits);
        self.marks
            .slice_mut(..other.count)
            .copy_from_slice(&other.marks[..other.count]);
        self.format = other.format;
        self.count = other.count;
        self.size = other.size;
    }

    /// Takes blocks in format `number` from octets in which each is padded to whole octets. All are good.
    pub(crate) fn unpack(&mut self, number: u8, format: &Format, octets: &[u8])
        requires few { format.now.number ≤ 64 }
        requires room { bits_of format.now ≤ self.old.room }
        requires long { length octets.now ≡ format_octets format.now }
        ensures unpacked { IsUnpacked number format.now octets.now self.new }
        ensures room { self.new.room ≡ self.old.room }
    {
        self.resize(number, format);
        clear(&mut self.marks, self.count, true);
        unpack_blocks(octets, self.size, self.count, &mut self.bits);
    }

    /// The bits of block `i`, to be written.
    pub fn block_mut(&mut self, i: usize) -> &mut [Bit]
        requires { i < length self.old.good }
        ensures* writes_back { sem 𝓛 (LendsBlock self.entry i result) }
        ensures value { result.now ≡ block_at self.old i }
        ensures long { length result.now ≡ self.old.size }
    {
        self.bits.slice_mut(i * self.size..(i + 1) * self.size)
    }

    /// The bits of all blocks, to be written.
    pub fn bits_mut(&mut self) -> &mut [Bit]
        ensures* writes_back { sem 𝓛 (LendsBits self.entry result) }
        ensures value { result.now ≡ self.old.bits }
    {
        self.bits.slice_mut(..self.count * self.size)
    }

    /// Marks block `i` as good or bad.
    pub fn mark(&mut self, i: usize, good: bool)
        requires { i < length self.old.good }
        ensures { self.new ≡ record self.old { good = slice_set self.old.good i good } }
    {
        self.marks[i] = good;
    }
}

/// Reads so many blocks of a size from octets in which each is padded to whole octets, to the front of `out`.
fn unpack_blocks(octets: &[u8], size: usize, count: usize, out: &mut [Bit])
    requires octets { length octets.now ≡ count * div_ceil size 8 }
    requires room { count * size ≤ length out.old }
    ensures { (b : ℕ) → b < count → take size (drop (b * size) out.new) ≡
        bits_from octets.now (8 * (b * div_ceil size 8)) size }
{
    let width = size.div_ceil(8);
    for b in 0..count {
        unpack_block(&octets[b * width..b * width + width], out, b * size, size);
    }
}

/// Reads a block from its octets to a place of `out`.
fn unpack_block(octets: &[u8], out: &mut [Bit], at: usize, size: usize)
    requires octets { length octets.now ≡ div_ceil size 8 }
    requires room { at + size ≤ length out.old }
    ensures block { take size (drop at out.new) ≡ bits_from octets.now 0 size }
    ensures before { take at out.new ≡ take at out.old }
{
    unpack(octets, &mut out[at..at + size]);
}

/// The most bits of a TTI of a direction.
fn most_bits(side: &Side) -> usize
    requires { IsSide side.now }
    ensures holds { HoldsTtis side.now result }
    ensures small { result < 2 ^ 32 }
{
    let mut most = 0;
    let channels = side.channels.as_slice();
    for i in 0..channels.len() {
        most = most.max(most_of_channel(&channels[i]));
    }
    most
}

pub(crate) fn most_of_channel(channel: &Trch) -> usize
    ensures holds { HoldsFormats channel.now (length channel.now.formats) result }
    ensures small { result < 2 ^ 32 }
{
    let mut most = 0;
    let formats = channel.formats.as_slice();
    for f in 0..formats.len() {
        most = most.max(bits_of(&formats[f]));
    }
    most
}

fn bits_of(format: &Format) -> usize
    ensures value { result ≡ bits_of format.now }
    ensures small { result < 2 ^ 32 }
{
    usize::from(format.number) * usize::from(format.size)
}
