ghost use Rattle.std.specs.Prelude.{◌≡◌, ◌≢◌, ◌+◌, ◌*◌, ◌^◌, ◌==◌, ◌<◌, ◌≤◌, ℕ, length, if◌then◌else◌, slice_index};
ghost use Rattle.dch_bits.specs.Octets.{bit_of_octets};
ghost use Rattle.dch_types.specs.Limits.{IsSide};
ghost use Rattle.dch_types.specs.Parts.{channel_at, format_at};
ghost use Rattle.dch_accept.specs.HeldSets.{AreRooms, held_at};
ghost use Rattle.dch_accept.specs.Padded.{format_octets};
ghost use Rattle.dch_iub.specs.Forms.{AreMarked, mark_of};
ghost use Rattle.dch_iub.specs.Shape.{AreFormats, blocks_end, header_octets, mark_count};
ghost use Rattle.dch_iub.specs.Taken.{AreAllGood, AreCounted, AreGood, AreMarksTaken, AreSet, AreTaken, IsKept, IsMarkedAs, IsTaken, Replaces};

use crate::shape::format_octets;
use dch_accept::SetBlocks;
use dch_bits::get_bits;
use dch_types::Side;

/// Takes the blocks of a channel of a set from a frame.
fn take_member(
    side: &Side,
    channel: usize,
    number: u8,
    frame: &[u8],
    at: usize,
    out: &mut SetBlocks,
)
    requires side { IsSide side.now }
    requires channel { channel < length side.now.channels }
    requires all { length out.old.blocks ≡ length side.now.channels }
    requires number { number < length (channel_at side.now channel).formats }
    requires room { format_octets (format_at (channel_at side.now channel) number) + at ≤ length frame.now }
    requires fits { AreRooms side.now (channel_at side.now channel).set (length side.now.channels) out.old.blocks }
    ensures taken { IsTaken (channel_at side.now channel) number frame.now at (held_at out.new.blocks channel) }
    ensures good { AreGood (held_at out.new.blocks channel) }
    ensures others { Replaces channel out.old out.new }
{
    let format = side.channel(channel).format(usize::from(number));
    let octets = &frame[at..at + format_octets(format)];
    out.unpack(channel as u8, number, format, octets);
}

/// Takes the blocks of a channel from a frame, if it belongs to a set, and answers the place after them.
fn take_channel(
    side: &Side,
    set: u8,
    channel: usize,
    number: u8,
    frame: &[u8],
    at: usize,
    out: &mut SetBlocks,
) -> usize
    requires side { IsSide side.now }
    requires channel { channel < length side.now.channels }
    requires all { length out.old.blocks ≡ length side.now.channels }
    requires number { (channel_at side.now channel).set ≡ set → number < length (channel_at side.now channel).formats }
    requires room { at + (if (channel_at side.now channel).set == set
        then format_octets (format_at (channel_at side.now channel) number) else 0) ≤ length frame.now }
    requires fits { AreRooms side.now set (length side.now.channels) out.old.blocks }
    ensures next { result ≡ at + (if (channel_at side.now channel).set == set
        then format_octets (format_at (channel_at side.now channel) number) else 0) }
    ensures taken { (channel_at side.now channel).set ≡ set →
        IsTaken (channel_at side.now channel) number frame.now at (held_at out.new.blocks channel) }
    ensures good { (channel_at side.now channel).set ≡ set → AreGood (held_at out.new.blocks channel) }
    ensures others { Replaces channel out.old out.new }
{
    if side.channel(channel).set == set {
        take_member(side, channel, number, frame, at, out);
        at + format_octets(side.channel(channel).format(usize::from(number)))
    } else {
        at
    }
}

/// Takes the blocks of all channels of a set from a frame.
pub fn take_blocks(
    side: &Side,
    set: u8,
    numbers: &[u8; 8],
    header: usize,
    frame: &[u8],
    out: &mut SetBlocks,
)
    requires side { IsSide side.now }
    requires all { length out.old.blocks ≡ length side.now.channels }
    requires formats { AreFormats side.now set numbers.now }
    requires header { header ≡ header_octets side.now set }
    requires room { blocks_end side.now set numbers.now ≤ length frame.now }
    requires fits { AreRooms side.now set (length side.now.channels) out.old.blocks }
    ensures taken { AreTaken side.now set frame.now numbers.now out.new (length side.now.channels) }
    ensures good { AreAllGood side.now set out.new (length side.now.channels) }
    ensures kept { IsKept out.old out.new }
{
    let mut at = header;
    for i in 0..side.channels.len() {
        at = take_channel(side, set, i, numbers[i], frame, at, out);
    }
}

/// Whether the block of a mark is good: the bit is zero.
fn mark_at(frame: &[u8], bit: usize) -> bool
    requires { bit < 8 * length frame.now }
    ensures { bit_of_octets frame.now bit ≡ mark_of result }
{
    get_bits(frame, bit, 1) == 0
}

/// Marks the blocks of a channel by the bits of a frame from a place on.
fn mark_member(channel: u8, count: usize, frame: &[u8], bit: usize, out: &mut SetBlocks)
    requires channel { channel < length out.old.blocks }
    requires count { count ≡ length (held_at out.old.blocks channel).good }
    requires room { bit + count ≤ 8 * length frame.now }
    requires small { bit + count < 2 ^ 32 }
    ensures marked { AreSet frame.now bit count (held_at out.new.blocks channel) }
    ensures same { IsMarkedAs (held_at out.old.blocks channel) (held_at out.new.blocks channel) }
    ensures others { Replaces channel out.old out.new }
{
    for b in 0..count {
        out.mark(channel, b, mark_at(frame, bit + b));
    }
}

/// Marks the blocks of a channel, if it belongs to a set, and answers the place after its marks.
fn mark_channel(
    side: &Side,
    set: u8,
    channel: usize,
    number: u8,
    frame: &[u8],
    bit: usize,
    out: &mut SetBlocks,
) -> usize
    requires side { IsSide side.now }
    requires channel { channel < length side.now.channels }
    requires all { length out.old.blocks ≡ length side.now.channels }
    requires number { (channel_at side.now channel).set ≡ set → number < length (channel_at side.now channel).formats }
    requires count { (channel_at side.now channel).set ≡ set →
        length (held_at out.old.blocks channel).good ≡ (format_at (channel_at side.now channel) number).number }
    requires room { bit + (if (channel_at side.now channel).set == set
        then (format_at (channel_at side.now channel) number).number else 0) ≤ 8 * length frame.now }
    requires small { bit + (if (channel_at side.now channel).set == set
        then (format_at (channel_at side.now channel) number).number else 0) < 2 ^ 32 }
    ensures next { result ≡ bit + (if (channel_at side.now channel).set == set
        then (format_at (channel_at side.now channel) number).number else 0) }
    ensures marked { (channel_at side.now channel).set ≡ set →
        AreMarked frame.now bit (held_at out.new.blocks channel) }
    ensures same { IsMarkedAs (held_at out.old.blocks channel) (held_at out.new.blocks channel) }
    ensures others { Replaces channel out.old out.new }
{
    if side.channel(channel).set == set {
        let count = usize::from(side.channel(channel).format(usize::from(number)).number);
        mark_member(channel as u8, count, frame, bit, out);
        bit + count
    } else {
        bit
    }
}

/// Marks the blocks of all channels of a set by the bits of a frame from a place on.
pub fn take_marks(
    side: &Side,
    set: u8,
    numbers: &[u8; 8],
    frame: &[u8],
    first: usize,
    out: &mut SetBlocks,
)
    requires side { IsSide side.now }
    requires all { length out.old.blocks ≡ length side.now.channels }
    requires formats { AreFormats side.now set numbers.now }
    requires taken { AreCounted side.now set numbers.now out.old }
    requires room { first + mark_count side.now set numbers.now ≤ 8 * length frame.now }
    requires small { first + mark_count side.now set numbers.now < 2 ^ 32 }
    ensures marked { AreMarksTaken side.now set frame.now first numbers.now out.new (length side.now.channels) }
    ensures same { (i : ℕ) → IsMarkedAs (held_at out.old.blocks i) (held_at out.new.blocks i) }
    ensures kept { IsKept out.old out.new }
{
    let mut bit = first;
    for i in 0..side.channels.len() {
        bit = mark_channel(side, set, i, numbers[i], frame, bit, out);
    }
}
