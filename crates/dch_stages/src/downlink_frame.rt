ghost use Rattle.std.specs.Prelude.{◌≡◌, ◌<◌, ◌≤◌, ◌+◌, ◌++◌, length};
ghost use Rattle.dch_types.specs.declared.channel.Dir.TheVariants.{Down};
ghost use Rattle.dch_accept.specs.Cells.{frame_cells};
ghost use Rattle.dch_accept.specs.Frames.{most_cells};
ghost use Rattle.dch_tti.specs.Loaded.{AreFormats};
ghost use Rattle.dch_dlphy.specs.Frames.{bits_before};
ghost use Rattle.dch_dlphy.specs.Loaded.{IsTtiOf};
ghost use Rattle.dch_stages.specs.FrameLines.{frame_end, frame_line, joining_line};
ghost use Rattle.dch_stages.specs.Handlers.{HasRoom};

use crate::frame::multiplex_downlink;
use crate::frame_lines::{places_in_frame, put_downlink_segment, put_multiplexed, put_off};
use crate::frame_room::{FrameAt, FrameRoom};
use crate::sent_lines::{Codes, SentFrame, put_sent_line};
use dch_accept::Accepted;
use dch_bits::Trit;
use dch_dlphy::{DlTti, write};
use dch_lines::Page;
use dch_types::Dir;

/// Adds line `k` of an downlink radio frame.
#[tactic(auto, unfolding(crate::specs::FrameLines::frame_line))]
pub fn put_downlink_frame_line<P: Page>(
    page: &mut P,
    accepted: &Accepted,
    tti: &DlTti,
    at: FrameAt,
    room: &mut FrameRoom,
    k: usize,
)
    requires opened { IsTtiOf accepted.now tti.now }
    requires combination { at.combination < length accepted.now.config.downlink.side.combinations }
    requires formats { AreFormats accepted.now.config.downlink.side at.combination tti.now }
    requires frame { HasRoom accepted.now.config Down room.old }
    ensures text { P.writes page.old (frame_line accepted.now Down tti.now at.cfn at.combination k) page.new }
    ensures frame { HasRoom accepted.now.config Down room.new }
{
    let channels = accepted.side(Dir::Down).channels.len();
    let joined = channels + 2;
    if k < channels {
        put_downlink_segment(page, accepted, tti, at.cfn, at.combination, k as u8);
    } else if k < joined {
        put_joined(page, accepted, tti, at, &mut room.cells, k - channels);
    } else {
        put_sent(page, accepted, tti, at, room, k - joined);
    }
}

/// Adds the line of the multiplexed cells of the channels, or behind it that of the whole radio frame.
#[tactic(auto, unfolding(crate::specs::FrameLines::joining_line))]
fn put_joined<P: Page>(
    page: &mut P,
    accepted: &Accepted,
    tti: &DlTti,
    at: FrameAt,
    cells: &mut [Trit],
    k: usize,
)
    requires opened { IsTtiOf accepted.now tti.now }
    requires combination { at.combination < length accepted.now.config.downlink.side.combinations }
    requires formats { AreFormats accepted.now.config.downlink.side at.combination tti.now }
    requires cells { most_cells accepted.now.config Down ≤ length cells.old }
    ensures text { P.writes page.old (joining_line accepted.now Down tti.now at.cfn at.combination
        (length accepted.now.config.downlink.side.channels) k) page.new }
    ensures cells { length cells.new ≡ length cells.old }
{
    let len = multiplex_downlink(accepted, tti, at.cfn, at.combination, cells);
    if k == 0 {
        let places = places_of_frame(accepted, at.combination);
        put_multiplexed(page, &cells[..places]);
    } else {
        put_off(page, &cells[..len]);
    }
}

/// The places of all channels in a radio frame of a combination.
fn places_of_frame(accepted: &Accepted, combination: u16) -> usize
    requires combination { combination < length accepted.now.config.downlink.side.combinations }
    ensures value { result ≡ bits_before accepted.now combination (length accepted.now.config.downlink.side.channels) }
    ensures inside { result ≤ frame_cells accepted.now Down combination }
{
    // A radio frame has at most 57,600 cells.
    let _most = accepted.most_cells(Dir::Down);
    let mut places = 0;
    for i in 0..accepted.side(Dir::Down).channels.len() {
        places += places_in_frame(accepted, combination, i as u8);
    }
    places
}

/// Adds line `k` of those behind the multiplexed cells.
fn put_sent<P: Page>(
    page: &mut P,
    accepted: &Accepted,
    tti: &DlTti,
    at: FrameAt,
    room: &mut FrameRoom,
    k: usize,
)
    requires opened { IsTtiOf accepted.now tti.now }
    requires combination { at.combination < length accepted.now.config.downlink.side.combinations }
    requires formats { AreFormats accepted.now.config.downlink.side at.combination tti.now }
    requires frame { HasRoom accepted.now.config Down room.old }
    ensures text { P.writes page.old (frame_end accepted.now Down tti.now at.cfn at.combination k) page.new }
    ensures frame { HasRoom accepted.now.config Down room.new }
{
    let codes = Codes::of(accepted, Dir::Down, at.combination);
    let len = multiplex_downlink(accepted, tti, at.cfn, at.combination, &mut room.cells);
    write(accepted, tti, at.cfn, at.combination, &mut room.frame);
    let frame = SentFrame {
        multiplexed: &room.cells[..len],
        view: room.frame.view(),
        codes,
    };
    put_sent_line(page, Dir::Down, frame, k);
}
