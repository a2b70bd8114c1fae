ghost use Rattle.std.specs.Prelude.{◌≡◌, ◌<◌, ◌≤◌, ◌+◌, ◌*◌, ◌++◌, codes, length};
ghost use Rattle.dch_types.specs.Lengths.{padded, tti_bits};
ghost use Rattle.dch_types.specs.declared.channel.Dir.TheVariants.{Down, Up};
ghost use Rattle.dch_types.specs.Limits.{IsFrames};
ghost use Rattle.dch_types.specs.Parts.{channel_at, format_at};
ghost use Rattle.dch_coding.specs.Chain.{coded_of};
ghost use Rattle.dch_coding.specs.Segments.{plan_of};
ghost use Rattle.dch_dlphy.specs.Loaded.{matching_of};
ghost use Rattle.dch_frame.specs.Patterns.{IsWellFormed, copies_below};
ghost use Rattle.dch_script.specs.Report.{cells_shown};
ghost use Rattle.dch_stages.specs.Cells.{equalised, filled, matched};
ghost use Rattle.dch_stages.specs.Coded.{AreCut};
ghost use Rattle.dch_stages.specs.Texts.{named_text};
ghost use Rattle.dch_stages.specs.TtiLines.{block_line, coded_line, coding_line, coding_lines, crc_line, last_line, tti_line};

use crate::cells::{equalise_front, fill_front, match_front};
use crate::coded::CodedTti;
use crate::texts::{put_named_cells, put_numbered_bits};
use dch_accept::Accepted;
use dch_bits::{Bit, Trit};
use dch_coding::plan;
use dch_frame::Pattern;
use dch_lines::Page;
use dch_tti::TtiBuffer;
use dch_types::{Dir, Format, Trch};

/// A TTI of a channel in a format, and what is loaded of it.
#[derive(Clone, Copy)]
pub struct Shown<'a> {
    pub accepted: &'a Accepted,
    pub channel: u8,
    pub format: u8,
    pub buffer: &'a TtiBuffer,
}

/// Adds the line of a transport block with its parity.
pub fn put_crc<P: Page>(page: &mut P, channel: &Trch, format: &Format, stages: &CodedTti, r: usize)
    requires stages { AreCut channel.now format.now stages.now }
    requires limit { tti_bits channel.now format.now ≤ 131072 }
    requires block { r < format.now.number }
    ensures text { P.writes page.old (crc_line channel.now format.now stages.now.joined r) page.new }
{
    let bits = stages.attached(channel, format, r);
    put_numbered_bits(page, b"crc", r as u64, bits);
}

/// Adds the line of a code block with its filler.
pub fn put_block<P: Page>(
    page: &mut P,
    channel: &Trch,
    format: &Format,
    stages: &CodedTti,
    r: usize,
)
    requires stages { AreCut channel.now format.now stages.now }
    requires limit { tti_bits channel.now format.now ≤ 131072 }
    requires block { r < (plan_of (length stages.now.joined) channel.now.coding).blocks }
    ensures text { P.writes page.old (block_line channel.now stages.now.joined r) page.new }
{
    let bits = stages.block(channel, format, r);
    put_numbered_bits(page, b"block", r as u64, bits);
}

/// Adds the line of the code of a code block.
pub fn put_coded<P: Page>(
    page: &mut P,
    channel: &Trch,
    format: &Format,
    stages: &CodedTti,
    r: usize,
)
    requires stages { AreCut channel.now format.now stages.now }
    requires limit { tti_bits channel.now format.now ≤ 131072 }
    requires block { r < (plan_of (length stages.now.joined) channel.now.coding).blocks }
    ensures text { P.writes page.old (coded_line channel.now stages.now.joined r) page.new }
{
    let bits = stages.coded_block(channel, format, r);
    put_numbered_bits(page, b"coded", r as u64, bits);
}

/// Adds the line of an equalised uplink TTI. `cells` is room for it.
pub fn put_equalised<P: Page>(page: &mut P, frames: usize, coded: &[Bit], cells: &mut [Trit])
    requires frames { IsFrames frames }
    requires short { length coded.now ≤ 131072 }
    requires cells { padded (length coded.now) frames ≤ length cells.old }
    ensures text { P.writes page.old (named_text (codes "equalised") (cells_shown (equalised frames coded.now)))
        page.new }
{
    let len = equalise_front(frames, coded, cells);
    put_named_cells(page, b"equalised", &cells[..len]);
}

/// Adds the line of a downlink TTI after rate matching. `shown` and `cells` are room for its cells before and after it.
pub fn put_matched<P: Page>(
    page: &mut P,
    pattern: &Pattern,
    coded: &[Bit],
    shown: &mut [Trit],
    cells: &mut [Trit],
)
    requires pattern { IsWellFormed pattern.now }
    requires coded { length coded.now ≡ pattern.now.len }
    requires shown { length coded.now ≤ length shown.old }
    requires cells { copies_below pattern.now.kind pattern.now.len ≤ length cells.old }
    ensures text { P.writes page.old (named_text (codes "matched") (cells_shown (matched pattern.now coded.now)))
        page.new }
{
    let len = match_front(pattern, coded, shown, cells);
    put_named_cells(page, b"matched", &cells[..len]);
}

/// Adds the line of a downlink TTI with the places in which nothing is sent, `count` in all.
pub fn put_filled<P: Page>(
    page: &mut P,
    pattern: &Pattern,
    count: usize,
    coded: &[Bit],
    shown: &mut [Trit],
    cells: &mut [Trit],
)
    requires pattern { IsWellFormed pattern.now }
    requires coded { length coded.now ≡ pattern.now.len }
    requires shown { length coded.now ≤ length shown.old }
    requires places { copies_below pattern.now.kind pattern.now.len ≤ count }
    requires cells { count ≤ length cells.old }
    ensures text { P.writes page.old (named_text (codes "dtx") (cells_shown (filled pattern.now count coded.now)))
        page.new }
{
    fill_front(pattern, coded, shown, cells, count);
    put_named_cells(page, b"dtx", &cells[..count]);
}

/// Adds the line of the interleaved cells that are loaded.
pub fn put_interleaved<P: Page>(page: &mut P, buffer: &TtiBuffer)
    ensures text { P.writes page.old (named_text (codes "interleaved") (cells_shown buffer.now.cells)) page.new }
{
    put_named_cells(page, b"interleaved", buffer.cells());
}

/// Adds line `k` of those that show the coding of a TTI.
#[tactic(auto, using(crate::proofs::Parts::joined_few), unfolding(crate::specs::TtiLines::coding_line))]
fn put_coding_line<P: Page>(
    page: &mut P,
    channel: &Trch,
    format: &Format,
    stages: &CodedTti,
    k: usize,
)
    requires stages { AreCut channel.now format.now stages.now }
    requires limit { tti_bits channel.now format.now ≤ 131072 }
    requires line { k < coding_lines channel.now format.now stages.now.joined }
    ensures text { P.writes page.old (coding_line channel.now format.now stages.now.joined k) page.new }
{
    let number = usize::from(format.number);
    let blocks = plan(stages.joined().len(), channel.coding).blocks;
    if k < number {
        put_crc(page, channel, format, stages, k);
    } else if k - number < blocks {
        put_block(page, channel, format, stages, k - number);
    } else {
        put_coded(page, channel, format, stages, k - number - blocks);
    }
}

/// How many lines show the coding of a TTI.
#[tactic(auto, using(crate::proofs::Parts::joined_few))]
pub fn coding_lines(channel: &Trch, format: &Format, stages: &CodedTti) -> usize
    requires stages { AreCut channel.now format.now stages.now }
    requires limit { tti_bits channel.now format.now ≤ 131072 }
    ensures { result ≡ coding_lines channel.now format.now stages.now.joined }
{
    usize::from(format.number) + 2 * plan(stages.joined().len(), channel.coding).blocks
}

/// Adds line `k` of an uplink TTI of a channel in a format. `cells` is room for the cells of the TTI.
#[tactic(auto, unfolding(crate::specs::TtiLines::tti_line))]
pub fn put_uplink_line<P: Page>(
    page: &mut P,
    shown: Shown<'_>,
    stages: &CodedTti,
    cells: &mut [Trit],
    k: usize,
)
    requires channel { shown.channel < length shown.accepted.now.config.uplink.side.channels }
    requires format { shown.format < length (channel_at shown.accepted.now.config.uplink.side shown.channel).formats }
    requires stages { AreCut (channel_at shown.accepted.now.config.uplink.side shown.channel)
        (format_at (channel_at shown.accepted.now.config.uplink.side shown.channel) shown.format) stages.now }
    requires cells { padded (length stages.now.coded) (channel_at shown.accepted.now.config.uplink.side
        shown.channel).frames ≤ length cells.old }
    ensures text { P.writes page.old (tti_line shown.entry.accepted.now Up shown.entry.channel shown.entry.format
        stages.now.joined shown.entry.buffer.now k) page.new }
{
    let channel = shown.accepted.channel(Dir::Up, shown.channel);
    let format = channel.format(shown.format as usize);
    let lines = coding_lines(channel, format, stages);
    if k < lines {
        put_coding_line(page, channel, format, stages, k);
    } else {
        put_uplink_end(page, shown, stages, cells, k - lines);
    }
}

/// Adds line `n` of those behind the coding of an uplink TTI.
#[tactic(auto, using(crate::proofs::Parts::coded_long))]
fn put_uplink_end<P: Page>(
    page: &mut P,
    shown: Shown<'_>,
    stages: &CodedTti,
    cells: &mut [Trit],
    n: usize,
)
    requires channel { shown.channel < length shown.accepted.now.config.uplink.side.channels }
    requires format { shown.format < length (channel_at shown.accepted.now.config.uplink.side shown.channel).formats }
    requires stages { AreCut (channel_at shown.accepted.now.config.uplink.side shown.channel)
        (format_at (channel_at shown.accepted.now.config.uplink.side shown.channel) shown.format) stages.now }
    requires cells { padded (length stages.now.coded) (channel_at shown.accepted.now.config.uplink.side
        shown.channel).frames ≤ length cells.old }
    ensures text { P.writes page.old (last_line shown.entry.accepted.now Up shown.entry.channel shown.entry.format
        (coded_of (channel_at shown.entry.accepted.now.config.uplink.side shown.entry.channel).coding stages.now.joined)
        shown.entry.buffer.now n) page.new }
{
    let channel = shown.accepted.channel(Dir::Up, shown.channel);
    let _format = channel.format(shown.format as usize);
    if n == 0 {
        put_equalised(page, channel.frames as usize, stages.coded(), cells);
    } else {
        put_interleaved(page, shown.buffer);
    }
}

/// Adds line `k` of a downlink TTI of a channel in a format. `space` is room for its coded bits as cells, and `cells`
/// for the cells of the TTI.
#[tactic(auto, unfolding(crate::specs::TtiLines::tti_line))]
pub fn put_downlink_line<P: Page>(
    page: &mut P,
    shown: Shown<'_>,
    stages: &CodedTti,
    space: &mut [Trit],
    cells: &mut [Trit],
    k: usize,
)
    requires channel { shown.channel < length shown.accepted.now.config.downlink.side.channels }
    requires format { shown.format < length (channel_at shown.accepted.now.config.downlink.side shown.channel).formats }
    requires stages { AreCut (channel_at shown.accepted.now.config.downlink.side shown.channel)
        (format_at (channel_at shown.accepted.now.config.downlink.side shown.channel) shown.format) stages.now }
    requires space { length stages.now.coded ≤ length space.old }
    requires cells { (channel_at shown.accepted.now.config.downlink.side shown.channel).frames *
        (matching_of shown.accepted.now shown.channel shown.format).cells ≤ length cells.old }
    ensures text { P.writes page.old (tti_line shown.entry.accepted.now Down shown.entry.channel shown.entry.format
        stages.now.joined shown.entry.buffer.now k) page.new }
{
    let channel = shown.accepted.channel(Dir::Down, shown.channel);
    let format = channel.format(shown.format as usize);
    let lines = coding_lines(channel, format, stages);
    if k < lines {
        put_coding_line(page, channel, format, stages, k);
    } else {
        put_downlink_end(page, shown, stages, space, cells, k - lines);
    }
}

/// Adds line `n` of those behind the coding of a downlink TTI.
#[tactic(auto, using(crate::proofs::Parts::coded_long))]
fn put_downlink_end<P: Page>(
    page: &mut P,
    shown: Shown<'_>,
    stages: &CodedTti,
    space: &mut [Trit],
    cells: &mut [Trit],
    n: usize,
)
    requires channel { shown.channel < length shown.accepted.now.config.downlink.side.channels }
    requires format { shown.format < length (channel_at shown.accepted.now.config.downlink.side shown.channel).formats }
    requires stages { AreCut (channel_at shown.accepted.now.config.downlink.side shown.channel)
        (format_at (channel_at shown.accepted.now.config.downlink.side shown.channel) shown.format) stages.now }
    requires space { length stages.now.coded ≤ length space.old }
    requires cells { (channel_at shown.accepted.now.config.downlink.side shown.channel).frames *
        (matching_of shown.accepted.now shown.channel shown.format).cells ≤ length cells.old }
    ensures text { P.writes page.old (last_line shown.entry.accepted.now Down shown.entry.channel shown.entry.format
        (coded_of (channel_at shown.entry.accepted.now.config.downlink.side shown.entry.channel).coding
        stages.now.joined) shown.entry.buffer.now n) page.new }
{
    let channel = shown.accepted.channel(Dir::Down, shown.channel);
    let _format = channel.format(shown.format as usize);
    let pattern = pattern_of(shown.accepted, shown.channel, shown.format);
    if n == 0 {
        put_matched(page, &pattern, stages.coded(), space, cells);
    } else if n == 1 {
        let places = places_of(shown.accepted, shown.channel, shown.format);
        put_filled(page, &pattern, places, stages.coded(), space, cells);
    } else {
        put_interleaved(page, shown.buffer);
    }
}

/// The rate matching of a downlink TTI of a channel in a format.
pub fn pattern_of(accepted: &Accepted, channel: u8, format: u8) -> Pattern
    requires channel { channel < length accepted.now.config.downlink.side.channels }
    requires format { format < length (channel_at accepted.now.config.downlink.side channel).formats }
    ensures value { result ≡ (matching_of accepted.now channel format).pattern }
    ensures formed { IsWellFormed result }
    ensures len { result.len ≡ tti_bits (channel_at accepted.now.config.downlink.side channel)
        (format_at (channel_at accepted.now.config.downlink.side channel) format) }
    ensures fits { copies_below result.kind result.len ≤
        (channel_at accepted.now.config.downlink.side channel).frames *
        (matching_of accepted.now channel format).cells }
{
    // A good configuration has room for each format.
    let _config = accepted.config();
    accepted.downlink_plan().pattern(channel, format)
}

/// The places of all radio frames of such a TTI.
pub fn places_of(accepted: &Accepted, channel: u8, format: u8) -> usize
    requires channel { channel < length accepted.now.config.downlink.side.channels }
    requires format { format < length (channel_at accepted.now.config.downlink.side channel).formats }
    ensures { result ≡ (channel_at accepted.now.config.downlink.side channel).frames *
        (matching_of accepted.now channel format).cells }
{
    // A good configuration has room for each format.
    let _config = accepted.config();
    let frames = usize::from(accepted.frames_of(Dir::Down, channel));
    frames * accepted.downlink_plan().cells(channel, format) as usize
}
