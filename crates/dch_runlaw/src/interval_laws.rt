ghost use Rattle.std.specs.Prelude.{◌≡◌, ◌<◌, ◌%◌, ℕ, List, length};
ghost use Rattle.dch_accept.specs.Plans.{IsPlanned, Planned};
ghost use Rattle.dch_runlaw.specs.Intervals.{ArrivesDown, ArrivesUp, DownAsGiven, Tti, UpAsGiven};
ghost use Rattle.dch_linkcmd.specs.LinkLink.{LinkState};
ghost use Rattle.dch_runlaw.specs.Parts.{Begins};
ghost use Rattle.dch_runlaw.specs.Runs.{Event, Runs};
ghost use Rattle.dch_node.specs.Lines.{Line};
ghost use Rattle.dch_types.specs.Parts.{channel_at};
ghost use Rattle.dch_types.specs.Timing.{set_frames};

/// A law: let any part of a run, with any damage, come to a state in which a TTI starts. If in each radio frame of a
/// downlink channel's TTI the Node B sends a radio frame and it arrives as it was sent, then the terminal reads just
/// the blocks that the Node B has for the channel in all of these radio frames, in their format, and all are good;
/// nothing is asked of the Iub, or of the uplink. If in each radio frame of the TTI of a set of uplink channels the
/// terminal's radio frame arrives as it was sent, then the Node B sends the Iub frame of the set with just the blocks
/// that layer 2 of the terminal gave to its channels, in their formats, and all are good; nothing is asked of the
/// downlink.
///
/// So it is where the radio frames of the TTI arrive with little damage: of each few TFCI bits are wrong, four of 30 or
/// 20 of 120, and of each code block the wrong cells twice and the missing ones once are less than the cells in which
/// two blocks differ.
pub fn interval_law()
    ensures down { (planned : Planned) (i : ℕ) (events : List Event) (start mid new : LinkState) (lines : List Line) →
        IsPlanned planned → Begins planned start → Runs start events mid lines →
        i < length planned.config.downlink.side.channels →
        (t : Tti (channel_at planned.config.downlink.side i).frames mid new) →
        ArrivesDown planned i (channel_at planned.config.downlink.side i).frames mid new t →
        DownAsGiven planned i (channel_at planned.config.downlink.side i).frames mid new t }
    ensures up { (planned : Planned) (set : ℕ) (events : List Event) (start mid new : LinkState) (lines : List Line) →
        IsPlanned planned → Begins planned start → start.rnc.state.cfn % 8 ≡ 0 → Runs start events mid lines → set < 8 →
        (t : Tti (set_frames planned.config.uplink.side set) mid new) →
        ArrivesUp planned set (set_frames planned.config.uplink.side set) mid new t →
        UpAsGiven planned set (set_frames planned.config.uplink.side set) mid new t }
{}
