ghost use Rattle.std.specs.Prelude.{◌≡◌, ◌<◌, ◌≤◌, ◌==◌, ◌&&◌, length, nat_lt};
ghost use Rattle.dch_types.specs.Limits.{IsUplink, IsDownlink};
ghost use Rattle.dch_types.specs.Parts.{channel_at, format_number};
ghost use Rattle.dch_frame.specs.Patterns.{IsWellFormed};
ghost use Rattle.dch_frame.specs.Downlinks.{IsDownlinkPlan};
ghost use Rattle.dch_collision.specs.Plans.{AreAllPlans};
ghost use Rattle.dch_collision.specs.Counted.{removes, punctures_below, uplink_punctures, downlink_punctures};

use dch_frame::{DownlinkPlan, Pattern, UplinkPlan, is_used, kept};
use dch_types::{Downlink, Uplink};

/// Whether some legal sequence of the uplink removes bits of a channel in a format: where a combination with that
/// format sends fewer bits in a radio frame than there are.
pub fn uplink_punctures(config: &Uplink, plans: &[UplinkPlan], i: u8, f: u8) -> bool
    requires good { IsUplink config.now }
    requires plans { AreAllPlans config.now plans.now }
    requires channel { i < length config.now.side.channels }
    ensures { result ≡ uplink_punctures config.now i f }
{
    let mut punctures = false;
    for c in 0..config.side.combinations.len() {
        if gives_and_removes(config, plans, c, i, f) {
            punctures = true;
        }
    }
    punctures
}

/// Whether a combination gives a channel a format and removes bits of it.
fn gives_and_removes(config: &Uplink, plans: &[UplinkPlan], c: usize, i: u8, f: u8) -> bool
    requires good { IsUplink config.now }
    requires plans { AreAllPlans config.now plans.now }
    requires combination { c < length config.now.side.combinations }
    requires channel { i < length config.now.side.channels }
    ensures { result ≡ (format_number config.now.side c i == f && removes config.now i c) }
{
    config.side.tfi(c, usize::from(i)) == f && removes(config, plans, c, i)
}

/// Whether a radio frame of a combination sends fewer bits of a channel than there are.
fn removes(config: &Uplink, plans: &[UplinkPlan], c: usize, i: u8) -> bool
    requires good { IsUplink config.now }
    requires plans { AreAllPlans config.now plans.now }
    requires combination { c < length config.now.side.combinations }
    requires channel { i < length config.now.side.channels }
    ensures { result ≡ removes config.now i c }
{
    let plan = &plans[c];
    plan.sent[usize::from(i)] < plan.before[usize::from(i)]
}

/// Whether the pattern of a downlink format removes a bit of it, and the format stands in some combination.
pub fn downlink_punctures(config: &Downlink, plan: &DownlinkPlan, i: u8, f: u8) -> bool
    requires good { IsDownlink config.now }
    requires plan { IsDownlinkPlan config.now plan.now }
    requires channel { i < length config.now.side.channels }
    requires format { f < length (channel_at config.now.side i).formats }
    ensures { result ≡ downlink_punctures config.now i f }
{
    is_used(&config.side, usize::from(i), usize::from(f)) && punctures(&plan.pattern(i, f))
}

/// Whether a pattern removes a bit.
fn punctures(pattern: &Pattern) -> bool
    requires { IsWellFormed pattern.now }
    ensures { result ≡ punctures_below pattern.now.kind pattern.now.len }
{
    kept(pattern) < pattern.len
}
