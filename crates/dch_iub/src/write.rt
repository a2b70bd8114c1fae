ghost use Rattle.std.specs.Prelude.{◌≡◌, ◌+◌, ◌<◌, ◌≤◌, ℕ, length, take, slice_index, true};
ghost use Rattle.std.specs.Int.{div_ceil};
ghost use Rattle.dch_types.specs.declared.channel.Dir.TheVariants.{Up, Down};
ghost use Rattle.dch_types.specs.Limits.{IsSide};
ghost use Rattle.dch_types.specs.Parts.{channel_at};
ghost use Rattle.dch_accept.specs.HeldSets.{HasFormat, IsSetOf, held_at};
ghost use Rattle.dch_iub.specs.Forms.{IsPayloadCheck, IsWrittenForm};
ghost use Rattle.dch_iub.specs.Shape.{AreFormats, ForSet, blocks_end, formats_of, frame_octets, check_octets, header_octets, mark_count, payload_end};
ghost use Rattle.dch_iub.specs.Steps.{IsFront, IsMarked};

use crate::blocks::{list_marks, write_bits, write_blocks};
use crate::check::write_check;
use crate::header::write_header;
use crate::shape::{Shape, numbers_of, shape_of, tail_octets};
use dch_accept::{Accepted, SetBlocks};
use dch_bits::Bit;
use dch_types::{Dir, Side};

/// The most blocks of a set.
const MOST_MARKS: usize = 512;

/// Writes the header and the blocks of a frame of a set, and answers their shape.
fn write_front(
    side: &Side,
    set: u8,
    cfn: u8,
    numbers: &[u8; 8],
    blocks: &SetBlocks,
    out: &mut [u8],
) -> Shape
    requires side { IsSide side.now }
    requires all { length blocks.now.blocks ≡ length side.now.channels }
    requires numbered { (i : ℕ) → i < length side.now.channels →
        slice_index numbers.now i ≡ (held_at blocks.now.blocks i).format }
    requires held { ForSet side.now set (λ i. HasFormat (channel_at side.now i) (held_at blocks.now.blocks i)) }
    requires formats { AreFormats side.now set numbers.now }
    requires room { blocks_end side.now set numbers.now ≤ length out.old }
    ensures header { result.header ≡ header_octets side.now set }
    ensures end { result.header + result.octets ≡ blocks_end side.now set numbers.now }
    ensures marks { result.marks ≡ mark_count side.now set numbers.now }
    ensures few { result.marks ≤ 512 }
    ensures front { IsFront side.now set out.new cfn numbers.now blocks.now }
{
    let header = write_header(side, set, cfn, numbers, out);
    write_blocks(side, set, numbers, blocks, header, out);
    shape_of(side, set, numbers)
}

/// Writes the marks of the blocks of a set from a place on (TS 25.427 6.2.3).
fn write_marks(
    side: &Side,
    set: u8,
    numbers: &[u8; 8],
    blocks: &SetBlocks,
    marks: usize,
    at: usize,
    out: &mut [u8],
)
    requires side { IsSide side.now }
    requires all { length blocks.now.blocks ≡ length side.now.channels }
    requires numbered { (i : ℕ) → i < length side.now.channels →
        slice_index numbers.now i ≡ (held_at blocks.now.blocks i).format }
    requires held { ForSet side.now set (λ i. HasFormat (channel_at side.now i) (held_at blocks.now.blocks i)) }
    requires marks { marks ≡ mark_count side.now set numbers.now }
    requires few { marks ≤ 512 }
    requires room { at + div_ceil marks 8 ≤ length out.old }
    ensures marked { IsMarked side.now set out.new at numbers.now blocks.now }
    ensures before { take at out.new ≡ take at out.old }
{
    let mut list = [Bit::Zero; MOST_MARKS];
    let bits = &mut list[..marks];
    list_marks(side, set, numbers, blocks, bits);
    write_bits(bits, at, out);
}

/// Fills `out` with a downlink frame.
fn fill_dl(
    side: &Side,
    payload_check: bool,
    set: u8,
    cfn: u8,
    numbers: &[u8; 8],
    blocks: &SetBlocks,
    out: &mut [u8],
)
    requires side { IsSide side.now }
    requires all { length blocks.now.blocks ≡ length side.now.channels }
    requires numbered { (i : ℕ) → i < length side.now.channels →
        slice_index numbers.now i ≡ (held_at blocks.now.blocks i).format }
    requires held { ForSet side.now set (λ i. HasFormat (channel_at side.now i) (held_at blocks.now.blocks i)) }
    requires formats { AreFormats side.now set numbers.now }
    requires room { length out.old ≡ payload_end Down side.now set numbers.now + check_octets payload_check }
    ensures front { IsFront side.now set out.new cfn numbers.now blocks.now }
    ensures check { payload_check ≡ true → IsPayloadCheck out.new (header_octets side.now set)
        (payload_end Down side.now set numbers.now) }
{
    let shape = write_front(side, set, cfn, numbers, blocks, out);
    let end = shape.header + shape.octets + tail_octets(Dir::Down, shape.marks);
    write_check(payload_check, shape.header, end, out);
}

/// Fills `out` with an uplink frame.
fn fill_ul(
    side: &Side,
    payload_check: bool,
    set: u8,
    cfn: u8,
    qe: u8,
    numbers: &[u8; 8],
    blocks: &SetBlocks,
    out: &mut [u8],
)
    requires side { IsSide side.now }
    requires all { length blocks.now.blocks ≡ length side.now.channels }
    requires numbered { (i : ℕ) → i < length side.now.channels →
        slice_index numbers.now i ≡ (held_at blocks.now.blocks i).format }
    requires held { ForSet side.now set (λ i. HasFormat (channel_at side.now i) (held_at blocks.now.blocks i)) }
    requires formats { AreFormats side.now set numbers.now }
    requires room { length out.old ≡ payload_end Up side.now set numbers.now + check_octets payload_check }
    ensures front { IsFront side.now set out.new cfn numbers.now blocks.now }
    ensures quality { slice_index out.new (blocks_end side.now set numbers.now) ≡ qe }
    ensures marked { IsMarked side.now set out.new (blocks_end side.now set numbers.now + 1) numbers.now blocks.now }
    ensures check { payload_check ≡ true → IsPayloadCheck out.new (header_octets side.now set)
        (payload_end Up side.now set numbers.now) }
{
    let shape = write_front(side, set, cfn, numbers, blocks, out);
    let end = shape.header + shape.octets;
    out[end] = qe;
    write_marks(side, set, numbers, blocks, shape.marks, end + 1, out);
    let tail = end + tail_octets(Dir::Up, shape.marks);
    write_check(payload_check, shape.header, tail, out);
}

/// Fills `out` with the downlink data frame of a set at a CFN (TS 25.427 6.2).
pub fn write_dl(accepted: &Accepted, set: u8, cfn: u8, blocks: &SetBlocks, out: &mut [u8])
    requires opened { IsSetOf accepted.now.config Down set blocks.now }
    requires room { length out.old ≡ frame_octets accepted.now.config Down set (formats_of blocks.now) }
    ensures { IsWrittenForm accepted.now.config Down set out.new cfn 0 blocks.now }
{
    let side = accepted.side(Dir::Down);
    let numbers = numbers_of(side, blocks);
    let on = accepted.config().payload_check;
    fill_dl(side, on, set, cfn, &numbers, blocks, out);
}

/// Fills `out` with the uplink data frame of a set at a CFN, with a quality estimate and the marks of the blocks
/// (TS 25.427 6.2).
pub fn write_ul(accepted: &Accepted, set: u8, cfn: u8, qe: u8, blocks: &SetBlocks, out: &mut [u8])
    requires opened { IsSetOf accepted.now.config Up set blocks.now }
    requires room { length out.old ≡ frame_octets accepted.now.config Up set (formats_of blocks.now) }
    ensures { IsWrittenForm accepted.now.config Up set out.new cfn qe blocks.now }
{
    let side = accepted.side(Dir::Up);
    let numbers = numbers_of(side, blocks);
    let on = accepted.config().payload_check;
    fill_ul(side, on, set, cfn, qe, &numbers, blocks, out);
}
