ghost use Rattle.std.specs.Prelude.{◌≡◌, ◌<◌, ◌≤◌, ℕ, List, length};
ghost use Rattle.dch_types.specs.Limits.{IsUplink, IsDownlink};
ghost use Rattle.dch_types.specs.Parts.{channel_at, format_number};
ghost use Rattle.dch_frame.specs.Patterns.{IsWellFormed, copies};
ghost use Rattle.dch_frame.specs.Uplinks.{before_of};
ghost use Rattle.dch_frame.specs.Downlinks.{IsDownlinkPlan};
ghost use Rattle.dch_collision.specs.Sequences.{IsLegal};
ghost use Rattle.dch_collision.specs.Plans.{AreAllPlans};
ghost use Rattle.dch_collision.specs.Copies.{bits_in, padded_in, frame_copies, uplink_copies, downlink_copies, AreSentFlags};

use dch_frame::{DownlinkPlan, Pattern, UplinkPlan, Walk, frame, put_segment};
use dch_types::{Downlink, Uplink};

/// Which coded bits of a TTI of an uplink channel are sent at least once under a legal sequence, and which places of
/// padding.
/// `segment` is room for the bits of a radio frame.
pub fn uplink_sent_flags(
    config: &Uplink,
    plans: &[UplinkPlan],
    i: u8,
    f: u8,
    sequence: &[u16],
    segment: &mut [bool],
    sent_flags: &mut [bool],
)
    requires good { IsUplink config.now }
    requires plans { AreAllPlans config.now plans.now }
    requires channel { i < length config.now.side.channels }
    requires legal { IsLegal config.now.side i f sequence.now }
    requires room { length sent_flags.old ≤ length segment.old }
    requires whole { length sent_flags.old ≡ padded_in config.now.side i f }
    ensures { AreSentFlags (uplink_copies config.now i f sequence.now) sent_flags.new }
{
    let frames = sequence.len();
    let segment = &mut segment[..sent_flags.len() / frames];
    for n in 0..frames {
        flag_frame(config, plans, i, n as u8, sequence[n], segment);
        put_segment(frames, n, segment, sent_flags);
    }
}

/// Which bits of a channel radio frame `n` of its TTI sends in a combination.
fn flag_frame(config: &Uplink, plans: &[UplinkPlan], i: u8, n: u8, c: u16, segment: &mut [bool])
    requires good { IsUplink config.now }
    requires plans { AreAllPlans config.now plans.now }
    requires channel { i < length config.now.side.channels }
    requires frame { n < (channel_at config.now.side i).frames }
    requires combination { c < length config.now.side.combinations }
    requires room { length segment.old ≡ before_of config.now.side c i }
    ensures { AreSentFlags (frame_copies config.now i n c) segment.new }
{
    let pattern = frame(config, c, &plans[usize::from(c)], i, n);
    flag(&pattern, segment);
}

/// Which coded bits of a TTI of a downlink channel are sent at least once, whatever the sequence.
pub fn downlink_sent_flags(
    config: &Downlink,
    plan: &DownlinkPlan,
    i: u8,
    f: u8,
    sent_flags: &mut [bool],
)
    requires plan { IsDownlinkPlan config.now plan.now }
    requires channel { i < length config.now.side.channels }
    requires format { f < length (channel_at config.now.side i).formats }
    requires whole { length sent_flags.old ≡ bits_in config.now.side i f }
    ensures { (sequence : List ℕ) → AreSentFlags (downlink_copies config.now i f sequence) sent_flags.new }
{
    flag(&plan.pattern(i, f), sent_flags);
}

/// Which bits of a stream are sent.
fn flag(pattern: &Pattern, sent_flags: &mut [bool])
    requires formed { IsWellFormed pattern.now }
    requires whole { length sent_flags.old ≡ pattern.now.len }
    ensures { AreSentFlags (copies pattern.now.kind) sent_flags.new }
{
    let mut walk = Walk::new(pattern);
    for m in 0..sent_flags.len() {
        sent_flags[m] = walk.next() > 0;
    }
}
