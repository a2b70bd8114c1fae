ghost use Rattle.std.specs.Prelude.{◌≡◌, ◌≢◌, ◌<◌, ◌≤◌, ◌+◌, ◌*◌, ◌^◌, ℕ, Some, None, length, slice_index, slice_index_or};
ghost use Rattle.dch_bits.specs.declared.bit.Vote.{Vote};
ghost use Rattle.dch_types.specs.declared.channel.Dir.TheVariants.{Up};
ghost use Rattle.dch_types.specs.Parts.{channel_at};
ghost use Rattle.dch_inter.specs.Places.{frame_of, place_of};
ghost use Rattle.dch_frame.specs.Uplinks.{before_of};
ghost use Rattle.dch_tti.specs.RxFrames.{IsKeptOf, IsReaderOf, frame_at};
ghost use Rattle.dch_ulphy.specs.Frames.{bits_before};
ghost use Rattle.dch_ulphy.specs.Read.{channel_cells, frame_votes, tti_votes};

use dch_accept::Accepted;
use dch_bits::{Trit, Vote};
use dch_frame::{UplinkPlan, frame, rate_dematch};
use dch_tti::{ReceivedFrame, ReceivedFrames};
use dch_types::Dir;

/// Counts the votes for the bits of a channel's TTI, padded to whole radio frames, in all of its frames. `counted` is
/// room for the votes of one frame.
pub fn demultiplex_tti(
    accepted: &Accepted,
    rx_frames: &ReceivedFrames,
    channel: u8,
    counted: &mut [Vote],
    votes: &mut [Vote],
)
    requires opened { IsReaderOf accepted.now Up rx_frames.now }
    requires channel { channel < length accepted.now.config.uplink.side.channels }
    requires there { (n : ℕ) → n < (channel_at accepted.now.config.uplink.side channel).frames →
        (frame_at accepted.now.config.uplink.side rx_frames.now channel n).combination ≢ None }
    requires counted { (n c : ℕ) → n < (channel_at accepted.now.config.uplink.side channel).frames →
        (frame_at accepted.now.config.uplink.side rx_frames.now channel n).combination ≡ Some c →
        length counted.old ≡ before_of accepted.now.config.uplink.side c channel }
    requires whole { length votes.old ≡
        length counted.old * (channel_at accepted.now.config.uplink.side channel).frames }
    ensures votes { (j : ℕ) (v : Vote) → j < length votes.new →
        slice_index_or votes.new j v ≡ tti_votes accepted.now rx_frames.now channel (length votes.new) j }
    ensures few { (j : ℕ) (v : Vote) → j < length votes.new →
        (slice_index_or votes.new j v).zeros + (slice_index_or votes.new j v).ones ≤ 57600 }
{
    let frames = accepted.frames_of(Dir::Up, channel);
    for n in 0..frames {
        demultiplex_frame(
            accepted,
            rx_frames.frame(frames, n),
            channel,
            n,
            counted,
            votes,
        );
    }
}

/// Counts the votes of frame `n` of a channel's TTI, by the plan of the frame's own combination.
fn demultiplex_frame(
    accepted: &Accepted,
    kept: &ReceivedFrame,
    channel: u8,
    n: u8,
    counted: &mut [Vote],
    votes: &mut [Vote],
)
    requires kept { IsKeptOf accepted.now Up kept.now }
    requires channel { channel < length accepted.now.config.uplink.side.channels }
    requires frame { n < (channel_at accepted.now.config.uplink.side channel).frames }
    requires there { kept.now.combination ≢ None }
    requires counted { (c : ℕ) → kept.now.combination ≡ Some c →
        length counted.old ≡ before_of accepted.now.config.uplink.side c channel }
    requires whole { length votes.old ≡
        length counted.old * (channel_at accepted.now.config.uplink.side channel).frames }
    ensures votes { (j : ℕ) (v : Vote) → j < length votes.new →
        frame_of (channel_at accepted.now.config.uplink.side channel).frames (length votes.new) j ≡ n →
        slice_index_or votes.new j v ≡ frame_votes accepted.now channel n kept.now.combination kept.now.cells
        (place_of (channel_at accepted.now.config.uplink.side channel).frames (length votes.new) j) }
    ensures few { (j : ℕ) (v : Vote) → j < length votes.new →
        frame_of (channel_at accepted.now.config.uplink.side channel).frames (length votes.new) j ≡ n →
        (slice_index_or votes.new j v).zeros + (slice_index_or votes.new j v).ones ≤ 57600 }
    ensures same { (j : ℕ) (v : Vote) → j < length votes.new →
        frame_of (channel_at accepted.now.config.uplink.side channel).frames (length votes.new) j ≢ n →
        slice_index_or votes.new j v ≡ slice_index_or votes.old j v }
{
    let Some(combination) = kept.combination() else {
        return;
    };
    let config = &accepted.config().uplink;
    let plan = accepted.uplink_plan(combination);
    let pattern = frame(config, combination, plan, channel, n);
    let frames = accepted.frames_of(Dir::Up, channel) as usize;
    let cells = channel_cells(plan, channel as usize, kept.cells());
    rate_dematch(frames, n as usize, &pattern, cells, counted, votes);
}

/// The cells of a channel in a frame, which follow those of the channels before.
fn channel_cells<'a>(plan: &UplinkPlan, channel: usize, cells: &'a [Trit]) -> &'a [Trit]
    requires channel { channel < 8 }
    requires room { bits_before plan.now channel + slice_index plan.now.sent channel ≤ length cells.now }
    requires small { length cells.now < 2 ^ 32 }
    ensures cells { result.now ≡ channel_cells plan.now channel cells.now }
    ensures long { length result.now ≡ slice_index plan.now.sent channel }
{
    let from = bits_before(plan, channel);
    &cells[from..from + plan.sent[channel] as usize]
}

/// The cells of the channels before a channel.
fn bits_before(plan: &UplinkPlan, channel: usize) -> usize
    requires channel { channel ≤ 8 }
    requires small { bits_before plan.now channel < 2 ^ 32 }
    ensures { result ≡ bits_before plan.now channel }
{
    let mut places = 0;
    for before in 0..channel {
        places += plan.sent[before] as usize;
    }
    places
}
