ghost use Rattle.std.specs.Prelude.{◌≡◌, ◌<◌, ◌≤◌, ◌+◌, ℕ, length, slice_index_or};
ghost use Rattle.std.specs.Int.{div_ceil};
ghost use Rattle.dch_types.specs.Limits.{IsUplink};
ghost use Rattle.dch_types.specs.Parts.{channel_at, format_number};
ghost use Rattle.dch_frame.specs.Uplinks.{before_of};
ghost use Rattle.dch_trellis.specs.Distance.{copies_at};
ghost use Rattle.dch_trellis.specs.Search.{no_votes};
ghost use Rattle.dch_collision.specs.Copies.{bits_in, frame_copies, padded_in, uplink_copies};
ghost use Rattle.dch_collision.specs.Plans.{AreAllPlans};
ghost use Rattle.dch_margin.specs.Counts.{AreCounts};
ghost use Rattle.dch_margin.specs.Differ.{IsLeast};
ghost use Rattle.dch_margin.specs.Fewest.{AreFewest, IsCarriedIn, fewer};

use crate::counting::count_frame;
use dch_bits::Vote;
use dch_frame::{UplinkPlan, put_segment};
use dch_types::Uplink;

/// Counts the fewest cells that carry each coded bit of a TTI of an uplink channel, under any legal sequence of
/// combinations: those of its radio frame, in any combination in which the channel has the format. `first` is such a
/// combination. `counted` and `fewest` are room for the bits of a radio frame.
pub fn count_fewest(
    config: &Uplink,
    plans: &[UplinkPlan],
    i: u8,
    f: u8,
    first: u16,
    counted: &mut [Vote],
    fewest: &mut [Vote],
    votes: &mut [Vote],
)
    requires good { IsUplink config.now }
    requires plans { AreAllPlans config.now plans.now }
    requires channel { i < length config.now.side.channels }
    requires there { first < length config.now.side.combinations }
    requires has { format_number config.now.side first i ≡ f }
    requires counted { length votes.old ≤ length counted.old }
    requires fewest { length votes.old ≤ length fewest.old }
    requires whole { length votes.old ≡ padded_in config.now.side i f }
    ensures fewest { (j : ℕ) → j < length votes.new →
        IsLeast (IsCarriedIn config.now.side (uplink_copies config.now) i f j) (copies_at votes.new j) }
    ensures counts { AreCounts (copies_at votes.new) votes.new }
{
    let frames = usize::from(config.side.frames_of(usize::from(i)));
    let bits = votes.len() / frames;
    let counted = &mut counted[..bits];
    let fewest = &mut fewest[..bits];
    for n in 0..frames {
        fewest_in_frame(config, plans, i, f, n as u8, first, counted, fewest);
        put_segment(frames, n, fewest, votes);
    }
}

/// Counts the fewest cells for each bit of a channel in radio frame `n` of its TTI.
fn fewest_in_frame(
    config: &Uplink,
    plans: &[UplinkPlan],
    i: u8,
    f: u8,
    n: u8,
    first: u16,
    counted: &mut [Vote],
    fewest: &mut [Vote],
)
    requires good { IsUplink config.now }
    requires plans { AreAllPlans config.now plans.now }
    requires channel { i < length config.now.side.channels }
    requires frame { n < (channel_at config.now.side i).frames }
    requires there { first < length config.now.side.combinations }
    requires has { format_number config.now.side first i ≡ f }
    requires counted { length counted.old ≡
        div_ceil (bits_in config.now.side i f) (channel_at config.now.side i).frames }
    requires fewest { length fewest.old ≡
        div_ceil (bits_in config.now.side i f) (channel_at config.now.side i).frames }
    ensures { AreFewest config.now i f n (length config.now.side.combinations) fewest.new }
{
    count_in(config, plans, first, i, n, fewest);
    for c in 0..config.side.combinations.len() {
        take_fewer(config, plans, i, f, n, c as u16, counted, fewest);
    }
}

/// Looks at one combination more, where the channel has the format in it.
fn take_fewer(
    config: &Uplink,
    plans: &[UplinkPlan],
    i: u8,
    f: u8,
    n: u8,
    c: u16,
    counted: &mut [Vote],
    fewest: &mut [Vote],
)
    requires good { IsUplink config.now }
    requires plans { AreAllPlans config.now plans.now }
    requires channel { i < length config.now.side.channels }
    requires frame { n < (channel_at config.now.side i).frames }
    requires there { c < length config.now.side.combinations }
    requires counted { length counted.old ≡
        div_ceil (bits_in config.now.side i f) (channel_at config.now.side i).frames }
    requires fewest { length fewest.old ≡ length counted.old }
    requires before { AreFewest config.now i f n c fewest.old }
    ensures { AreFewest config.now i f n (c + 1) fewest.new }
{
    if config.side.tfi(usize::from(c), usize::from(i)) == f {
        count_in(config, plans, c, i, n, counted);
        keep_fewer(counted, fewest);
    }
}

/// Counts the cells for each bit of a channel in radio frame `n` of its TTI, in a combination.
fn count_in(config: &Uplink, plans: &[UplinkPlan], c: u16, i: u8, n: u8, counted: &mut [Vote])
    requires good { IsUplink config.now }
    requires plans { AreAllPlans config.now plans.now }
    requires channel { i < length config.now.side.channels }
    requires frame { n < (channel_at config.now.side i).frames }
    requires there { c < length config.now.side.combinations }
    requires counted { length counted.old ≡ before_of config.now.side c i }
    ensures { AreCounts (frame_copies config.now i n c) counted.new }
{
    count_frame(config, &plans[usize::from(c)], c, i, n, counted);
}

/// Keeps the fewer cells of each bit.
fn keep_fewer(counted: &[Vote], fewest: &mut [Vote])
    requires { length fewest.old ≡ length counted.now }
    ensures { (m : ℕ) → m < length fewest.new → slice_index_or fewest.new m no_votes ≡
        fewer (slice_index_or counted.now m no_votes) (slice_index_or fewest.old m no_votes) }
{
    for m in 0..fewest.len() {
        fewest[m] = fewer(counted[m], fewest[m]);
    }
}

fn fewer(counted: Vote, kept: Vote) -> Vote
    ensures { result ≡ fewer counted kept }
{
    if counted.zeros < kept.zeros {
        counted
    } else {
        kept
    }
}
