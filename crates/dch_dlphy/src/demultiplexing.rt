ghost use Rattle.std.specs.Prelude.{◌≡◌, ◌≢◌, ◌<◌, ◌≤◌, ◌+◌, ◌*◌, ℕ, Some, None, length, slice_index_or};
ghost use Rattle.dch_bits.specs.declared.bit.Trit.TheVariants.{Off};
ghost use Rattle.dch_types.specs.declared.channel.Dir.TheVariants.{Down};
ghost use Rattle.dch_types.specs.Parts.{channel_at};
ghost use Rattle.dch_inter.specs.Places.{frame_of, place_of};
ghost use Rattle.dch_types.specs.Lengths.{frame_bits};
ghost use Rattle.dch_tti.specs.Formats.{IsFormatOf};
ghost use Rattle.dch_tti.specs.RxFrames.{IsKeptOf, IsReaderOf};
ghost use Rattle.dch_dlphy.specs.Frames.{bits_before, bits_per_frame};
ghost use Rattle.dch_dlphy.specs.Loaded.{matching_of};
ghost use Rattle.dch_dlphy.specs.Read.{received_cell, tti_cell};

use crate::parts::bits_in_frame;
use dch_accept::Accepted;
use dch_bits::Trit;
use dch_frame::put_segment;
use dch_tti::{ReceivedFrame, ReceivedFrames};
use dch_types::Dir;

/// Puts what the radio frames of a channel's TTI carried of it to its places before the first interleaver.
pub fn demultiplex_tti(
    accepted: &Accepted,
    rx_frames: &ReceivedFrames,
    channel: u8,
    format: u8,
    out: &mut [Trit],
)
    requires opened { IsReaderOf accepted.now Down rx_frames.now }
    requires channel { channel < length accepted.now.config.downlink.side.channels }
    requires format { IsFormatOf accepted.now.config.downlink.side rx_frames.now channel format }
    requires whole { length out.old ≡
        (matching_of accepted.now channel format).cells *
        (channel_at accepted.now.config.downlink.side channel).frames }
    ensures { (p : ℕ) → p < length out.new → slice_index_or out.new p Off ≡
        tti_cell accepted.now rx_frames.now channel (length out.new) p }
{
    let frames = accepted.frames_of(Dir::Down, channel);
    for n in 0..frames {
        demultiplex_frame(accepted, rx_frames.frame(frames, n), channel, n, out);
    }
}

/// Puts what frame `n` of a channel's TTI carried of it, by the frame's own combination.
fn demultiplex_frame(
    accepted: &Accepted,
    kept: &ReceivedFrame,
    channel: u8,
    n: u8,
    out: &mut [Trit],
)
    requires kept { IsKeptOf accepted.now Down kept.now }
    requires channel { channel < length accepted.now.config.downlink.side.channels }
    requires frame { n < (channel_at accepted.now.config.downlink.side channel).frames }
    requires there { kept.now.combination ≢ None }
    requires whole { (c : ℕ) → kept.now.combination ≡ Some c →
        length out.old ≡ bits_per_frame accepted.now c channel *
        (channel_at accepted.now.config.downlink.side channel).frames }
    ensures carried { (p : ℕ) → p < length out.new →
        frame_of (channel_at accepted.now.config.downlink.side channel).frames (length out.new) p ≡ n →
        slice_index_or out.new p Off ≡ received_cell accepted.now channel kept.now.combination kept.now.cells
        (place_of (channel_at accepted.now.config.downlink.side channel).frames (length out.new) p) }
    ensures same { (p : ℕ) → p < length out.new →
        frame_of (channel_at accepted.now.config.downlink.side channel).frames (length out.new) p ≢ n →
        slice_index_or out.new p Off ≡ slice_index_or out.old p Off }
{
    let Some(combination) = kept.combination() else {
        return;
    };
    let frames = accepted.frames_of(Dir::Down, channel) as usize;
    let segment = channel_cells(accepted, combination, channel, kept.cells());
    put_segment(frames, n as usize, segment, out);
}

/// The cells of a channel in a frame, which follow those of the channels before.
fn channel_cells<'a>(
    accepted: &Accepted,
    combination: u16,
    channel: u8,
    cells: &'a [Trit],
) -> &'a [Trit]
    requires combination { combination < length accepted.now.config.downlink.side.combinations }
    requires channel { channel < length accepted.now.config.downlink.side.channels }
    requires long { length cells.now ≡ frame_bits accepted.now.config.downlink }
    ensures cells { (m : ℕ) → m < length result.now →
        slice_index_or result.now m Off ≡
        slice_index_or cells.now (bits_before accepted.now combination channel + m) Off }
    ensures long { length result.now ≡ bits_per_frame accepted.now combination channel }
{
    // A radio frame of the downlink has at most 57,240 cells.
    let _cells = accepted.config().downlink.frame_bits();
    let from = bits_before(accepted, combination, channel);
    &cells[from..from + bits_in_frame(accepted, combination, channel)]
}

/// The places of the channels before a channel in a radio frame of a combination.
fn bits_before(accepted: &Accepted, combination: u16, channel: u8) -> usize
    requires combination { combination < length accepted.now.config.downlink.side.combinations }
    requires channel { channel < length accepted.now.config.downlink.side.channels }
    requires small { frame_bits accepted.now.config.downlink ≤ 57240 }
    ensures { result ≡ bits_before accepted.now combination channel }
{
    let mut places = 0;
    for before in 0..channel {
        places += bits_in_frame(accepted, combination, before);
    }
    places
}
