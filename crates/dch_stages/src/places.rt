ghost use Rattle.std.specs.Prelude.{◌≡◌, ◌<◌, ◌≤◌, ◌+◌, ◌*◌, IfSome, length};
ghost use Rattle.dch_types.specs.declared.channel.Dir.TheVariants.{Down, Up};
ghost use Rattle.dch_types.specs.Lengths.{coded_block, joined_bits, tti_bits};
ghost use Rattle.dch_types.specs.Parts.{channel_at, format_at, side_of};
ghost use Rattle.dch_frame.specs.Patterns.{IsWellFormed};
ghost use Rattle.dch_stages.specs.Places.{bit_if, bit_of, block_bit, cells_of_tti, cut_bit, kept_bit, outputs_of, padded_bit, shown_at};

use crate::tti_lines::{pattern_of, places_of};
use dch_accept::Accepted;
use dch_coding::{Plan, plan_of_tti, size};
use dch_frame::{Pattern, kept, origin};
use dch_inter::{equalise, first};
use dch_types::{Coding, Dir, Format, Trch};

/// A channel of a direction, and a format of it.
#[derive(Clone, Copy)]
pub struct TtiOf {
    pub dir: Dir,
    pub channel: u8,
    pub format: u8,
}

/// How many cells a TTI has.
#[tactic(auto, using(crate::proofs::Shown::padded_short))]
pub fn cells_of(accepted: &Accepted, tti: TtiOf) -> usize
    requires channel { tti.channel < length (side_of accepted.now.config tti.dir).channels }
    requires format { tti.format < length (channel_at (side_of accepted.now.config tti.dir) tti.channel).formats }
    ensures value { result ≡ cells_of_tti accepted.now tti.dir tti.channel tti.format }
    ensures few { result ≤ 460800 }
{
    // A good configuration has room for each format.
    let _config = accepted.config();
    let _plan = accepted.downlink_plan();
    match tti.dir {
        Dir::Up => {
            let channel = accepted.channel(Dir::Up, tti.channel);
            let bits = channel.tti_bits(channel.format(tti.format as usize));
            equalise(bits as usize, channel.frames as usize)
        }
        Dir::Down => places_of(accepted, tti.channel, tti.format),
    }
}

/// The bits of the transport blocks of a format.
pub fn blocks_bits(accepted: &Accepted, tti: TtiOf) -> usize
    requires channel { tti.channel < length (side_of accepted.now.config tti.dir).channels }
    requires format { tti.format < length (channel_at (side_of accepted.now.config tti.dir) tti.channel).formats }
    ensures value { result ≡ (format_at (channel_at (side_of accepted.now.config tti.dir) tti.channel)
        tti.format).number
        * (format_at (channel_at (side_of accepted.now.config tti.dir) tti.channel) tti.format).size }
    ensures few { result ≤ 131072 }
{
    let trch = accepted.channel(tti.dir, tti.channel);
    let format = trch.format(tti.format as usize);
    usize::from(format.number) * usize::from(format.size)
}

/// The coded bit that a place of the interleaved cells of a TTI shows, if it shows one.
#[tactic(auto, unfolding(crate::specs::Places::shown_at))]
pub fn shown_at(accepted: &Accepted, tti: TtiOf, place: usize) -> Option<u32>
    requires channel { tti.channel < length (side_of accepted.now.config tti.dir).channels }
    requires format { tti.format < length (channel_at (side_of accepted.now.config tti.dir) tti.channel).formats }
    requires place { place < cells_of_tti accepted.now tti.dir tti.channel tti.format }
    ensures value { result ≡ shown_at accepted.now tti.dir tti.channel tti.format place }
    ensures inside { IfSome result (λ n. n < tti_bits (channel_at (side_of accepted.now.config tti.dir) tti.channel)
        (format_at (channel_at (side_of accepted.now.config tti.dir) tti.channel) tti.format)) }
{
    let frames = usize::from(accepted.frames_of(tti.dir, tti.channel));
    let before = first(frames, cells_of(accepted, tti), place);
    match tti.dir {
        Dir::Up => {
            let channel = accepted.channel(Dir::Up, tti.channel);
            padded_bit(channel, channel.format(tti.format as usize), before)
        }
        Dir::Down => kept_bit(&pattern_of(accepted, tti.channel, tti.format), before),
    }
}

/// The coded bit at a place of an equalised TTI.
fn padded_bit(channel: &Trch, format: &Format, place: usize) -> Option<u32>
    requires limit { tti_bits channel.now format.now ≤ 131072 }
    ensures value { result ≡ padded_bit channel.now format.now place }
    ensures inside { IfSome result (λ n. n < tti_bits channel.now format.now) }
{
    if (place as u64) < channel.tti_bits(format) {
        Some(place as u32)
    } else {
        None
    }
}

/// The coded bit at a place of a TTI after rate matching.
#[tactic(auto, unfolding(dch_frame::specs::Stages::origin_of))]
fn kept_bit(pattern: &Pattern, place: usize) -> Option<u32>
    requires pattern { IsWellFormed pattern.now }
    ensures value { result ≡ kept_bit pattern.now place }
    ensures inside { IfSome result (λ n. n < pattern.now.len) }
{
    if place < kept(pattern) as usize {
        Some(origin(pattern, place as u32))
    } else {
        None
    }
}

/// How many coded bits a step of a code puts out.
fn outputs_of(coding: Coding) -> usize
    ensures value { result ≡ outputs_of coding }
    ensures some { 1 ≤ result }
{
    match coding {
        Coding::Uncoded => 1,
        Coding::Half => 2,
        Coding::Third => 3,
    }
}

/// The transport block bit at a place of the joined bits, in blocks of so many bits and so many with their parity.
#[tactic(auto, using(crate::proofs::PlaceBounds::block_bit_few), unfolding(crate::specs::Places::block_bit))]
fn block_bit(size: usize, attached: usize, place: usize) -> Option<u32>
    requires some { 0 < attached }
    requires size { size ≤ attached }
    requires few { place ≤ 131072 }
    ensures value { result ≡ block_bit size attached place }
{
    if place % attached < size {
        Some((place / attached * size + place % attached) as u32)
    } else {
        None
    }
}

/// The transport block bit at a place of the code blocks.
fn cut_bit(channel: &Trch, format: &Format, plan: &Plan, place: usize) -> Option<u32>
    requires some { 0 < joined_bits channel.now format.now }
    requires few { place ≤ 131072 }
    ensures value { result ≡ cut_bit channel.now format.now plan.now place }
{
    if place < plan.filler {
        None
    } else {
        let own = usize::from(format.size);
        block_bit(own, own + size(channel.crc), place - plan.filler)
    }
}

/// The transport block bit that came in where a coded bit was put out, if one did.
#[tactic(auto, unfolding(crate::specs::Places::bit_of))]
pub fn bit_of(channel: &Trch, format: &Format, coded: usize) -> Option<u32>
    requires limit { tti_bits channel.now format.now ≤ 131072 }
    requires inside { coded < tti_bits channel.now format.now }
    ensures value { result ≡ bit_of channel.now format.now coded }
{
    let plan = plan_of_tti(channel, format);
    let long = channel.coding.coded_block(plan.size as u64) as usize;
    let step = coded % long / outputs_of(channel.coding);
    if step < plan.size {
        cut_bit(channel, format, &plan, coded / long * plan.size + step)
    } else {
        None
    }
}

/// The transport block bit that came in where a coded bit of a TTI was put out, if there are both.
pub fn bit_at(accepted: &Accepted, tti: TtiOf, coded: Option<u32>) -> Option<u32>
    requires channel { tti.channel < length (side_of accepted.now.config tti.dir).channels }
    requires format { tti.format < length (channel_at (side_of accepted.now.config tti.dir) tti.channel).formats }
    requires coded { IfSome coded (λ n. n < tti_bits (channel_at (side_of accepted.now.config tti.dir) tti.channel)
        (format_at (channel_at (side_of accepted.now.config tti.dir) tti.channel) tti.format)) }
    ensures value { result ≡ bit_if (channel_at (side_of accepted.now.config tti.dir) tti.channel)
        (format_at (channel_at (side_of accepted.now.config tti.dir) tti.channel) tti.format) coded }
{
    let channel = accepted.channel(tti.dir, tti.channel);
    let format = channel.format(tti.format as usize);
    match coded {
        Some(coded) => bit_of(channel, format, coded as usize),
        None => None,
    }
}
