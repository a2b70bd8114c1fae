ghost use Rattle.std.specs.Prelude.{◌≡◌, ◌<◌, ◌≤◌, ◌+◌, ◌*◌, ◌++◌, codes, length};
ghost use Rattle.dch_types.specs.declared.channel.Dir.TheVariants.{Down, Up};
ghost use Rattle.dch_types.specs.Lengths.{frame_bits};
ghost use Rattle.dch_types.specs.Limits.{IsSide};
ghost use Rattle.dch_types.specs.Parts.{channel_at};
ghost use Rattle.dch_frame.specs.Uplinks.{before_of, uplink_pattern};
ghost use Rattle.dch_collision.specs.Plans.{plan_at};
ghost use Rattle.dch_tti.specs.Loaded.{AreFormats, loaded_at};
ghost use Rattle.dch_ulphy.specs.Loaded.{IsTtiOf};
ghost use Rattle.dch_dlphy.specs.Frames.{bits_before, bits_per_frame};
ghost use Rattle.dch_dlphy.specs.Loaded.{IsTtiOf as IsDownlinkTti};
ghost use Rattle.dch_stages.specs.FrameLines.{segment_line};
ghost use Rattle.dch_script.specs.Report.{bits_shown, cells_shown, phy_text};
ghost use Rattle.dch_coding.specs.Ttis.{part};
ghost use Rattle.dch_stages.specs.Texts.{named_text, numbered_text, placed_text};

use crate::texts::{put_named_bits, put_named_cells, put_numbered_cells, put_placed_cells};
use dch_accept::Accepted;
use dch_bits::{Bit, Trit};
use dch_dlphy::DlTti;
use dch_frame::frame;
use dch_lines::{Page, put_line};
use dch_script::Line;
use dch_tti::TtiBuffer;
use dch_types::Dir;
use dch_ulphy::UlTti;

/// Adds the line of the segment of radio frame `n` of the TTI of channel `i`, which has so many cells.
pub fn put_segment<P: Page>(page: &mut P, buffer: &TtiBuffer, i: u8, n: u8, size: usize)
    requires inside { n * size + size ≤ length buffer.now.cells }
    ensures text { P.writes page.old (placed_text (codes "segment") i n (cells_shown (part n size buffer.now.cells)))
        page.new }
{
    let cells = part_of(buffer.cells(), size, n as usize);
    put_placed_cells(page, b"segment", i as u64, n as u64, cells);
}

/// Part `r` of cells that are cut into parts of one size.
fn part_of(cells: &[Trit], size: usize, r: usize) -> &[Trit]
    requires { r * size + size ≤ length cells.now }
    ensures part { result.now ≡ part r size cells.now }
{
    let from = r * size;
    &cells[from..from + size]
}

/// Adds the line of code `u` of the multiplexed cells of a radio frame, of which each has so many.
pub fn put_code<P: Page>(page: &mut P, multiplexed: &[Trit], size: usize, u: usize)
    requires inside { u * size + size ≤ length multiplexed.now }
    ensures text { P.writes page.old (numbered_text (codes "code") u (cells_shown (part u size multiplexed.now)))
        page.new }
{
    let cells = part_of(multiplexed, size, u);
    put_numbered_cells(page, b"code", u as u64, cells);
}

/// Adds the line of a code after the second interleaver.
pub fn put_interleaved_code<P: Page>(page: &mut P, sent: &[Trit], size: usize, u: usize)
    requires inside { u * size + size ≤ length sent.now }
    ensures text { P.writes page.old (numbered_text (codes "interleaved") u (cells_shown (part u size sent.now)))
        page.new }
{
    let cells = part_of(sent, size, u);
    put_numbered_cells(page, b"interleaved", u as u64, cells);
}

/// Adds the line of the cells of radio frame `n` of the TTI of channel `i` that rate matching keeps.
pub fn put_matched_segment<P: Page>(page: &mut P, cells: &[Trit], i: u8, n: u8)
    ensures text { P.writes page.old (placed_text (codes "matched") i n (cells_shown cells.now)) page.new }
{
    put_placed_cells(page, b"matched", i as u64, n as u64, cells);
}

/// Adds the line of the multiplexed cells of a radio frame.
pub fn put_multiplexed<P: Page>(page: &mut P, cells: &[Trit])
    ensures text { P.writes page.old (named_text (codes "multiplexed") (cells_shown cells.now)) page.new }
{
    put_named_cells(page, b"multiplexed", cells);
}

/// Adds the line of the multiplexed cells with the places behind them in which nothing is sent.
pub fn put_off<P: Page>(page: &mut P, cells: &[Trit])
    ensures text { P.writes page.old (named_text (codes "dtx") (cells_shown cells.now)) page.new }
{
    put_named_cells(page, b"dtx", cells);
}

/// Adds the line of the TFCI bits.
pub fn put_tfci<P: Page>(page: &mut P, tfci: &[Bit])
    ensures text { P.writes page.old (named_text (codes "tfci") (bits_shown tfci.now)) page.new }
{
    put_named_bits(page, b"tfci", tfci);
}

/// Adds the line of a radio frame.
pub fn put_radio_frame<P: Page>(page: &mut P, dir: Dir, tfci: &[Bit], cells: &[Trit])
    ensures text { P.writes page.old (phy_text dir tfci.now cells.now ++ codes "\n") page.new }
{
    put_line(page, &Line::Phy { dir, tfci, cells });
}

/// Adds the line of the segment of uplink channel `i` in the radio frame of a CFN in a combination.
pub fn put_uplink_segment<P: Page>(
    page: &mut P,
    accepted: &Accepted,
    tti: &UlTti,
    cfn: u8,
    combination: u16,
    i: u8,
)
    requires opened { IsTtiOf accepted.now tti.now }
    requires combination { combination < length accepted.now.config.uplink.side.combinations }
    requires formats { AreFormats accepted.now.config.uplink.side combination tti.now }
    requires channel { i < length accepted.now.config.uplink.side.channels }
    ensures text { P.writes page.old (segment_line accepted.now Up tti.now cfn combination i) page.new }
{
    let n = cfn % accepted.frames_of(Dir::Up, i);
    let size = segment_size(accepted, combination, i, n);
    put_segment(page, buffer_of(tti.tti_buffers(), i), i, n, size);
}

/// What is loaded of a channel.
pub fn buffer_of(tti_buffers: &[TtiBuffer], i: u8) -> &TtiBuffer
    requires { i < length tti_buffers.now }
    ensures { result.now ≡ loaded_at tti_buffers.now i }
{
    &tti_buffers[i as usize]
}

/// The cells of radio frame `n` of the TTI of an uplink channel in a combination.
fn segment_size(accepted: &Accepted, combination: u16, i: u8, n: u8) -> usize
    requires combination { combination < length accepted.now.config.uplink.side.combinations }
    requires channel { i < length accepted.now.config.uplink.side.channels }
    requires frame { n < (channel_at accepted.now.config.uplink.side i).frames }
    ensures value { result ≡ (uplink_pattern accepted.now.config.uplink.side combination
        (plan_at accepted.now.uplink combination).ndata i n).len }
    ensures before { result ≡ before_of accepted.now.config.uplink.side combination i }
    ensures side { IsSide accepted.now.config.uplink.side }
{
    let config = &accepted.config().uplink;
    let plan = accepted.uplink_plan(combination);
    frame(config, combination, plan, i, n).len as usize
}

/// Adds the line of the segment of downlink channel `i` in the radio frame of a CFN in a combination.
pub fn put_downlink_segment<P: Page>(
    page: &mut P,
    accepted: &Accepted,
    tti: &DlTti,
    cfn: u8,
    combination: u16,
    i: u8,
)
    requires opened { IsDownlinkTti accepted.now tti.now }
    requires combination { combination < length accepted.now.config.downlink.side.combinations }
    requires formats { AreFormats accepted.now.config.downlink.side combination tti.now }
    requires channel { i < length accepted.now.config.downlink.side.channels }
    ensures text { P.writes page.old (segment_line accepted.now Down tti.now cfn combination i) page.new }
{
    let n = cfn % accepted.frames_of(Dir::Down, i);
    let size = places_in_frame(accepted, combination, i);
    put_segment(page, buffer_of(tti.tti_buffers(), i), i, n, size);
}

/// The places of a downlink channel in a radio frame of a combination.
pub fn places_in_frame(accepted: &Accepted, combination: u16, i: u8) -> usize
    requires combination { combination < length accepted.now.config.downlink.side.combinations }
    requires channel { i < length accepted.now.config.downlink.side.channels }
    ensures value { result ≡ bits_per_frame accepted.now combination i }
    ensures side { IsSide accepted.now.config.downlink.side }
    ensures inside { bits_before accepted.now combination i + result ≤ frame_bits accepted.now.config.downlink }
{
    let side = &accepted.config().downlink.side;
    let format = side.tfi(combination as usize, i as usize);
    accepted.downlink_plan().cells(i, format) as usize
}
