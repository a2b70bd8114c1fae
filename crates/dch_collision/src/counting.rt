ghost use Rattle.std.specs.Prelude.{◌≡◌, ◌<◌, ◌≤◌, ◌^◌, length};
ghost use Rattle.dch_types.specs.Limits.{IsDownlink, IsSide, IsUplink};
ghost use Rattle.dch_types.specs.Parts.{channel_at};
ghost use Rattle.dch_frame.specs.Downlinks.{IsDownlinkPlan};
ghost use Rattle.dch_types.specs.Sums.{total};
ghost use Rattle.dch_collision.specs.Plans.{AreAllPlans};
ghost use Rattle.dch_collision.specs.Counted.{blocks_in, uplink_count, downlink_count, over_formats, search_count};

use crate::puncturing::{downlink_punctures, uplink_punctures};
use dch_frame::{DownlinkPlan, UplinkPlan};
use dch_types::{Downlink, Side, Uplink};

/// How many code blocks may lose bits by rate matching. A block of the uplink counts once for each legal sequence of
/// its channel and format, which are not listed for that; a block of the downlink counts once.
pub fn count(
    uplink: &Uplink,
    plans: &[UplinkPlan],
    downlink: &Downlink,
    plan: &DownlinkPlan,
) -> u128
    requires uplink { IsUplink uplink.now }
    requires plans { AreAllPlans uplink.now plans.now }
    requires downlink { IsDownlink downlink.now }
    requires plan { IsDownlinkPlan downlink.now plan.now }
    ensures { result ≡ search_count uplink.now downlink.now }
{
    count_uplink(uplink, plans) + count_downlink(downlink, plan)
}

fn count_uplink(config: &Uplink, plans: &[UplinkPlan]) -> u128
    requires good { IsUplink config.now }
    requires plans { AreAllPlans config.now plans.now }
    ensures value { result ≡ over_formats config.now.side (uplink_count config.now) }
    ensures small { result ≤ 2 ^ 83 }
{
    let mut sum = 0;
    for i in 0..config.side.channels.len() {
        sum += count_uplink_channel(config, plans, i as u8);
    }
    sum
}

fn count_uplink_channel(config: &Uplink, plans: &[UplinkPlan], i: u8) -> u128
    requires good { IsUplink config.now }
    requires plans { AreAllPlans config.now plans.now }
    requires channel { i < length config.now.side.channels }
    ensures value { result ≡ total (uplink_count config.now i) (length (channel_at config.now.side i).formats) }
    ensures small { result ≤ 2 ^ 80 }
{
    let mut sum = 0;
    for f in 0..config.side.channel(usize::from(i)).formats.len() {
        sum += count_uplink_format(config, plans, i, f as u8);
    }
    sum
}

fn count_uplink_format(config: &Uplink, plans: &[UplinkPlan], i: u8, f: u8) -> u128
    requires good { IsUplink config.now }
    requires plans { AreAllPlans config.now plans.now }
    requires channel { i < length config.now.side.channels }
    requires format { f < length (channel_at config.now.side i).formats }
    ensures value { result ≡ uplink_count config.now i f }
    ensures small { result ≤ 2 ^ 75 }
{
    if !uplink_punctures(config, plans, i, f) {
        return 0;
    }
    let sequences = crate::legal_counting::count(&config.side, i, f);
    u128::from(sequences) * u128::from(blocks(&config.side, i, f))
}

fn count_downlink(config: &Downlink, plan: &DownlinkPlan) -> u128
    requires good { IsDownlink config.now }
    requires plan { IsDownlinkPlan config.now plan.now }
    ensures value { result ≡ over_formats config.now.side (downlink_count config.now) }
    ensures small { result ≤ 2 ^ 83 }
{
    let mut sum = 0;
    for i in 0..config.side.channels.len() {
        sum += count_downlink_channel(config, plan, i as u8);
    }
    sum
}

fn count_downlink_channel(config: &Downlink, plan: &DownlinkPlan, i: u8) -> u128
    requires good { IsDownlink config.now }
    requires plan { IsDownlinkPlan config.now plan.now }
    requires channel { i < length config.now.side.channels }
    ensures value { result ≡ total (downlink_count config.now i) (length (channel_at config.now.side i).formats) }
    ensures small { result ≤ 2 ^ 80 }
{
    let mut sum = 0;
    for f in 0..config.side.channel(usize::from(i)).formats.len() {
        sum += count_downlink_format(config, plan, i, f as u8);
    }
    sum
}

fn count_downlink_format(config: &Downlink, plan: &DownlinkPlan, i: u8, f: u8) -> u128
    requires good { IsDownlink config.now }
    requires plan { IsDownlinkPlan config.now plan.now }
    requires channel { i < length config.now.side.channels }
    requires format { f < length (channel_at config.now.side i).formats }
    ensures value { result ≡ downlink_count config.now i f }
    ensures small { result ≤ 2 ^ 75 }
{
    if downlink_punctures(config, plan, i, f) {
        u128::from(blocks(&config.side, i, f))
    } else {
        0
    }
}

/// The code blocks of a format.
fn blocks(side: &Side, i: u8, f: u8) -> u64
    requires good { IsSide side.now }
    requires channel { i < length side.now.channels }
    requires format { f < length (channel_at side.now i).formats }
    ensures value { result ≡ blocks_in side.now i f }
    ensures small { result ≤ 2 ^ 19 }
{
    let channel = side.channel(usize::from(i));
    let joined = channel.joined_bits(channel.format(usize::from(f)));
    channel.coding.block_count(joined)
}
