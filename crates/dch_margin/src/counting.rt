ghost use Rattle.std.specs.Prelude.{◌≡◌, ◌<◌, ◌≤◌, ℕ, List, length};
ghost use Rattle.dch_types.specs.Limits.{IsDownlink, IsUplink};
ghost use Rattle.dch_types.specs.Parts.{channel_at};
ghost use Rattle.dch_frame.specs.Patterns.{IsWellFormed, copies, copies_below};
ghost use Rattle.dch_frame.specs.Downlinks.{IsDownlinkPlan};
ghost use Rattle.dch_frame.specs.Uplinks.{IsPlan, before_of};
ghost use Rattle.dch_collision.specs.Copies.{bits_in, downlink_copies, frame_copies, padded_in, uplink_copies};
ghost use Rattle.dch_collision.specs.Plans.{AreAllPlans};
ghost use Rattle.dch_collision.specs.Sequences.{IsLegal};
ghost use Rattle.dch_margin.specs.Counts.{AreCounts};

use dch_bits::Vote;
use dch_frame::{DownlinkPlan, Pattern, UplinkPlan, Walk, frame, put_segment};
use dch_types::{Downlink, Uplink};

/// Counts the cells that carry each coded bit of a TTI of an uplink channel under a legal sequence of combinations, and
/// each place of padding: as many votes for Zero. `segment` is room for the bits of a radio frame.
pub fn count_uplink(
    config: &Uplink,
    plans: &[UplinkPlan],
    i: u8,
    f: u8,
    sequence: &[u16],
    segment: &mut [Vote],
    votes: &mut [Vote],
)
    requires good { IsUplink config.now }
    requires plans { AreAllPlans config.now plans.now }
    requires channel { i < length config.now.side.channels }
    requires legal { IsLegal config.now.side i f sequence.now }
    requires room { length votes.old ≤ length segment.old }
    requires whole { length votes.old ≡ padded_in config.now.side i f }
    ensures { AreCounts (uplink_copies config.now i f sequence.now) votes.new }
{
    let frames = sequence.len();
    let segment = &mut segment[..votes.len() / frames];
    for n in 0..frames {
        let c = sequence[n];
        count_frame(config, &plans[usize::from(c)], c, i, n as u8, segment);
        put_segment(frames, n, segment, votes);
    }
}

/// Counts the cells for each bit of a channel in radio frame `n` of its TTI, in a combination.
pub fn count_frame(config: &Uplink, plan: &UplinkPlan, c: u16, i: u8, n: u8, segment: &mut [Vote])
    requires good { IsUplink config.now }
    requires plan { IsPlan config.now c plan.now }
    requires channel { i < length config.now.side.channels }
    requires frame { n < (channel_at config.now.side i).frames }
    requires combination { c < length config.now.side.combinations }
    requires room { length segment.old ≡ before_of config.now.side c i }
    ensures { AreCounts (frame_copies config.now i n c) segment.new }
{
    count(&frame(config, c, plan, i, n), segment);
}

/// Counts the cells that carry each coded bit of a TTI of a downlink channel, whatever the sequence.
pub fn count_downlink(config: &Downlink, plan: &DownlinkPlan, i: u8, f: u8, votes: &mut [Vote])
    requires good { IsDownlink config.now }
    requires plan { IsDownlinkPlan config.now plan.now }
    requires channel { i < length config.now.side.channels }
    requires format { f < length (channel_at config.now.side i).formats }
    requires whole { length votes.old ≡ bits_in config.now.side i f }
    ensures { (sequence : List ℕ) → AreCounts (downlink_copies config.now i f sequence) votes.new }
{
    count(&plan.pattern(i, f), votes);
}

/// Counts the cells of each bit of a stream.
fn count(pattern: &Pattern, votes: &mut [Vote])
    requires formed { IsWellFormed pattern.now }
    requires whole { length votes.old ≡ pattern.now.len }
    requires few { copies_below pattern.now.kind pattern.now.len ≤ 460800 }
    ensures { AreCounts (copies pattern.now.kind) votes.new }
{
    let mut walk = Walk::new(pattern);
    for m in 0..votes.len() {
        votes[m] = Vote {
            zeros: walk.next(),
            ones: 0,
        };
    }
}
