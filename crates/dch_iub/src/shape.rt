ghost use Rattle.std.specs.Prelude.{◌≡◌, ◌+◌, ◌*◌, ◌==◌, ◌<◌, ◌≤◌, ℕ, length, if◌then◌else◌, slice_index};
ghost use Rattle.dch_types.specs.Limits.{IsChannel, IsSide};
ghost use Rattle.dch_types.specs.Parts.{channel_at, format_at, side_of};
ghost use Rattle.dch_accept.specs.HeldSets.{held_at, IsSetOf};
ghost use Rattle.dch_accept.specs.Padded.{block_octets, format_octets};
ghost use Rattle.dch_iub.specs.Shape.{AreFormats, check_octets, format_in, formats_of, frame_octets, header_octets, mark_count, number_place, octets_before, sum_before, tail_octets};

use dch_accept::{Accepted, SetBlocks};
use dch_types::{Dir, Format, Side};

/// How many octets the header has, how many the blocks, and how many blocks there are.
#[derive(Clone, Copy)]
pub struct Shape {
    pub header: usize,
    pub octets: usize,
    pub marks: usize,
}

/// The octets of a block of a format.
pub fn block_octets(format: &Format) -> usize
    ensures value { result ≡ block_octets format.now }
    ensures least { format.now.size ≤ 8 * result }
    ensures most { 8 * result < format.now.size + 8 }
{
    usize::from(format.size).div_ceil(8)
}

/// The octets of all blocks of a format.
pub fn format_octets(format: &Format) -> usize
    requires few { format.now.number ≤ 64 }
    requires small { format.now.size ≤ 5000 }
    ensures value { result ≡ format_octets format.now }
    ensures small { result ≤ 40000 }
{
    usize::from(format.number) * block_octets(format)
}

/// What a channel adds to the shape of a frame of a set, in format `number`.
fn part_of(side: &Side, set: u8, channel: usize, number: u8) -> Shape
    requires side { IsSide side.now }
    requires channel { channel < length side.now.channels }
    requires number { (channel_at side.now channel).set ≡ set → number < length (channel_at side.now channel).formats }
    ensures header { result.header ≡ (if (channel_at side.now channel).set == set then 1 else 0) }
    ensures octets { result.octets ≡
        (if (channel_at side.now channel).set == set then format_octets (format_at (channel_at side.now channel) number)
        else 0) }
    ensures marks { result.marks ≡
        (if (channel_at side.now channel).set == set then (format_at (channel_at side.now channel) number).number
        else 0) }
    ensures one { result.header ≤ 1 }
    ensures small { result.octets ≤ 40000 }
    ensures few { result.marks ≤ 64 }
{
    if side.channel(channel).set == set {
        let format = side.channel(channel).format(usize::from(number));
        Shape {
            header: 1,
            octets: format_octets(format),
            marks: usize::from(format.number),
        }
    } else {
        Shape {
            header: 0,
            octets: 0,
            marks: 0,
        }
    }
}

/// The shape of a frame of a set, by the numbers of the channels' formats.
pub fn shape_of(side: &Side, set: u8, numbers: &[u8; 8]) -> Shape
    requires side { IsSide side.now }
    requires formats { AreFormats side.now set numbers.now }
    ensures header { result.header ≡ header_octets side.now set }
    ensures octets { result.octets ≡ octets_before side.now set numbers.now (length side.now.channels) }
    ensures marks { result.marks ≡ mark_count side.now set numbers.now }
    ensures short { result.header ≤ 10 }
    ensures small { result.octets ≤ 320000 }
    ensures few { result.marks ≤ 512 }
{
    let mut header = 2;
    let mut octets = 0;
    let mut marks = 0;
    for i in 0..side.channels.len() {
        let part = part_of(side, set, i, numbers[i]);
        header += part.header;
        octets += part.octets;
        marks += part.marks;
    }
    Shape {
        header,
        octets,
        marks,
    }
}

/// The numbers of the formats of a set's blocks.
pub fn numbers_of(side: &Side, blocks: &SetBlocks) -> [u8; 8]
    requires side { IsSide side.now }
    requires all { length blocks.now.blocks ≡ length side.now.channels }
    ensures { (i : ℕ) → i < length side.now.channels → slice_index result i ≡ (held_at blocks.now.blocks i).format }
{
    let mut numbers = [0; 8];
    for i in 0..side.channels.len() {
        numbers[i] = blocks.channel(i as u8).format();
    }
    numbers
}

/// The octets after the blocks.
pub fn tail_octets(dir: Dir, marks: usize) -> usize
    requires { marks ≤ 512 }
    ensures value { result ≡ tail_octets dir marks }
    ensures small { result ≤ 65 }
{
    match dir {
        Dir::Up => 1 + marks.div_ceil(8),
        Dir::Down => 0,
    }
}

/// The octets of the payload check.
pub fn check_octets(payload_check: bool) -> usize
    ensures value { result ≡ check_octets payload_check }
    ensures small { result ≤ 2 }
{
    if payload_check { 2 } else { 0 }
}

/// The octets of a frame of a set, by the numbers of the channels' formats.
pub fn frame_octets(accepted: &Accepted, dir: Dir, set: u8, numbers: &[u8; 8]) -> usize
    requires formats { AreFormats (side_of accepted.now.config dir) set numbers.now }
    ensures { result ≡ frame_octets accepted.now.config dir set numbers.now }
{
    let shape = shape_of(accepted.side(dir), set, numbers);
    shape.header
        + shape.octets
        + tail_octets(dir, shape.marks)
        + check_octets(accepted.config().payload_check)
}

/// The octets of the frame with these blocks of a set of a direction.
pub fn frame_len(accepted: &Accepted, dir: Dir, blocks: &SetBlocks) -> usize
    requires { IsSetOf accepted.now.config dir blocks.now.set blocks.now }
    ensures { result ≡ frame_octets accepted.now.config dir blocks.now.set (formats_of blocks.now) }
{
    let numbers = numbers_of(accepted.side(dir), blocks);
    frame_octets(accepted, dir, blocks.set(), &numbers)
}
