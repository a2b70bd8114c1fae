ghost use Rattle.std.specs.Prelude.{◌≡◌, ◌<◌, ◌≤◌, ◌+◌, ◌^◌, ◌++◌, List, codes, drop, length, slice_index, take};
ghost use Rattle.dch_types.specs.declared.channel.Dir.TheVariants.{Up};
ghost use Rattle.dch_accept.specs.Cells.{frame_cells};
ghost use Rattle.dch_accept.specs.Frames.{most_cells};
ghost use Rattle.dch_collision.specs.Plans.{plan_at};
ghost use Rattle.dch_tti.specs.Loaded.{AreFormats, Loaded};
ghost use Rattle.dch_ulphy.specs.Frames.{bits_before};
ghost use Rattle.dch_ulphy.specs.Loaded.{IsTtiOf};
ghost use Rattle.dch_types.specs.Sums.{total};
ghost use Rattle.dch_script.specs.Report.{cells_shown};
ghost use Rattle.dch_stages.specs.Texts.{named_text};
ghost use Rattle.dch_stages.specs.FrameLines.{channel_cells, frame_end, frame_line, joining_line, matched_line, multiplexed_cells};
ghost use Rattle.dch_stages.specs.Handlers.{HasRoom};

use crate::frame::multiplex_uplink;
use crate::frame_lines::{put_matched_segment, put_multiplexed, put_uplink_segment};
use crate::frame_room::{FrameAt, FrameRoom};
use crate::sent_lines::{Codes, SentFrame, put_sent_line};
use dch_accept::Accepted;
use dch_bits::Trit;
use dch_frame::UplinkPlan;
use dch_lines::Page;
use dch_types::Dir;
use dch_ulphy::{UlTti, write};

/// Adds line `k` of an uplink radio frame.
#[tactic(auto, unfolding(crate::specs::FrameLines::frame_line))]
pub fn put_uplink_frame_line<P: Page>(
    page: &mut P,
    accepted: &Accepted,
    tti: &UlTti,
    at: FrameAt,
    room: &mut FrameRoom,
    k: usize,
)
    requires opened { IsTtiOf accepted.now tti.now }
    requires combination { at.combination < length accepted.now.config.uplink.side.combinations }
    requires formats { AreFormats accepted.now.config.uplink.side at.combination tti.now }
    requires frame { HasRoom accepted.now.config Up room.old }
    ensures text { P.writes page.old (frame_line accepted.now Up tti.now at.cfn at.combination k) page.new }
    ensures frame { HasRoom accepted.now.config Up room.new }
{
    let channels = accepted.side(Dir::Up).channels.len();
    let joined = channels + (channels + 1);
    if k < channels {
        put_uplink_segment(page, accepted, tti, at.cfn, at.combination, k as u8);
    } else if k < joined {
        put_joined(page, accepted, tti, at, &mut room.cells, k - channels);
    } else {
        put_sent(page, accepted, tti, at, room, k - joined);
    }
}

/// Adds the line of what rate matching keeps of channel `k`, or behind these that of the multiplexed bits.
#[tactic(auto, unfolding(crate::specs::FrameLines::joining_line))]
fn put_joined<P: Page>(
    page: &mut P,
    accepted: &Accepted,
    tti: &UlTti,
    at: FrameAt,
    cells: &mut [Trit],
    k: usize,
)
    requires opened { IsTtiOf accepted.now tti.now }
    requires combination { at.combination < length accepted.now.config.uplink.side.combinations }
    requires formats { AreFormats accepted.now.config.uplink.side at.combination tti.now }
    requires cells { most_cells accepted.now.config Up ≤ length cells.old }
    ensures text { P.writes page.old (joining_line accepted.now Up tti.now at.cfn at.combination
        (length accepted.now.config.uplink.side.channels) k) page.new }
    ensures cells { length cells.new ≡ length cells.old }
{
    let channels = accepted.side(Dir::Up).channels.len();
    let len = multiplex_uplink(accepted, tti, at.cfn, at.combination, cells);
    if k < channels {
        put_kept(page, accepted, at, &cells[..len], k as u8);
    } else {
        put_all(page, accepted, at, &cells[..len]);
    }
}

/// Adds the line of the multiplexed bits.
fn put_all<P: Page>(page: &mut P, accepted: &Accepted, at: FrameAt, multiplexed: &[Trit])
    requires combination { at.combination < length accepted.now.config.uplink.side.combinations }
    requires whole { length multiplexed.now ≡ frame_cells accepted.now Up at.combination }
    ensures text { (tti : List Loaded) → multiplexed.now ≡
        multiplexed_cells accepted.now Up tti at.cfn at.combination (frame_cells accepted.now Up at.combination) →
        P.writes page.old (named_text (codes "multiplexed")
        (cells_shown (multiplexed_cells accepted.now Up tti at.cfn at.combination
        (total (channel_cells accepted.now Up at.combination) (length accepted.now.config.uplink.side.channels)))))
        page.new }
{
    // The bits of a radio frame are those of its channels.
    let _plan = accepted.uplink_plan(at.combination);
    put_multiplexed(page, multiplexed);
}

/// Adds the line of what rate matching keeps of channel `i`, by the multiplexed bits.
fn put_kept<P: Page>(page: &mut P, accepted: &Accepted, at: FrameAt, multiplexed: &[Trit], i: u8)
    requires combination { at.combination < length accepted.now.config.uplink.side.combinations }
    requires channel { i < length accepted.now.config.uplink.side.channels }
    requires whole { length multiplexed.now ≡ frame_cells accepted.now Up at.combination }
    ensures text { (tti : List Loaded) → multiplexed.now ≡
        multiplexed_cells accepted.now Up tti at.cfn at.combination (frame_cells accepted.now Up at.combination) →
        P.writes page.old (matched_line accepted.now tti at.cfn at.combination i) page.new }
{
    let n = at.cfn % accepted.frames_of(Dir::Up, i);
    let kept = kept_of(accepted, at.combination, multiplexed, i);
    put_matched_segment(page, kept, i, n);
}

/// The multiplexed bits of channel `i`, which follow those of the channels before it.
fn kept_of<'a>(accepted: &Accepted, combination: u16, multiplexed: &'a [Trit], i: u8) -> &'a [Trit]
    requires combination { combination < length accepted.now.config.uplink.side.combinations }
    requires channel { i < length accepted.now.config.uplink.side.channels }
    requires whole { length multiplexed.now ≡ frame_cells accepted.now Up combination }
    ensures kept { result.now ≡ take (slice_index (plan_at accepted.now.uplink combination).sent i)
        (drop (bits_before (plan_at accepted.now.uplink combination) i) multiplexed.now) }
    ensures inside { bits_before (plan_at accepted.now.uplink combination) i +
        slice_index (plan_at accepted.now.uplink combination).sent i ≤ frame_cells accepted.now Up combination }
{
    // An uplink has at most 8 channels, and a radio frame at most 57,600 bits.
    let _side = accepted.side(Dir::Up);
    let _most = accepted.most_cells(Dir::Up);
    let _cells = accepted.frame_cells(Dir::Up, combination);
    let plan = accepted.uplink_plan(combination);
    let from = bits_before(plan, i as usize);
    &multiplexed[from..from + plan.sent[i as usize] as usize]
}

/// The multiplexed bits of the channels before a channel.
fn bits_before(plan: &UplinkPlan, channel: usize) -> usize
    requires channel { channel ≤ 8 }
    requires small { bits_before plan.now channel < 2 ^ 32 }
    ensures { result ≡ bits_before plan.now channel }
{
    let mut bits = 0;
    for before in 0..channel {
        bits += plan.sent[before] as usize;
    }
    bits
}

/// Adds line `k` of those behind the multiplexed bits.
fn put_sent<P: Page>(
    page: &mut P,
    accepted: &Accepted,
    tti: &UlTti,
    at: FrameAt,
    room: &mut FrameRoom,
    k: usize,
)
    requires opened { IsTtiOf accepted.now tti.now }
    requires combination { at.combination < length accepted.now.config.uplink.side.combinations }
    requires formats { AreFormats accepted.now.config.uplink.side at.combination tti.now }
    requires frame { HasRoom accepted.now.config Up room.old }
    ensures text { P.writes page.old (frame_end accepted.now Up tti.now at.cfn at.combination k) page.new }
    ensures frame { HasRoom accepted.now.config Up room.new }
{
    let codes = Codes::of(accepted, Dir::Up, at.combination);
    let len = multiplex_uplink(accepted, tti, at.cfn, at.combination, &mut room.cells);
    write(accepted, tti, at.cfn, at.combination, &mut room.frame);
    let frame = SentFrame {
        multiplexed: &room.cells[..len],
        view: room.frame.view(),
        codes,
    };
    put_sent_line(page, Dir::Up, frame, k);
}
