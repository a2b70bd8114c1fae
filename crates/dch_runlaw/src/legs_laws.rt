ghost use Rattle.std.specs.Prelude.{◌≡◌, ◌<◌, ◌%◌, ℕ, List, [], length};
ghost use Rattle.dch_types.specs.Parts.{channel_at};
ghost use Rattle.dch_accept.specs.Plans.{IsPlanned, Planned};
ghost use Rattle.dch_node.specs.Lines.{Line};
ghost use Rattle.dch_linkcmd.specs.LinkSoft.{SoftState};
ghost use Rattle.dch_linkcmd.specs.SoftStages.{AtStage};
ghost use Rattle.dch_linkcmd.specs.soft_stage.Stage.{Stage};
ghost use Rattle.dch_linkcmd.specs.soft_stage.Stage.TheVariants.{Combine};
ghost use Rattle.dch_runlaw.specs.Legs.{ArrivesAtLeg, Gets, OthersAreSent, TakesGiven, as_sent};
ghost use Rattle.dch_runlaw.specs.SoftRuns.{Move, Point, Runs, opened_point};
ghost use Rattle.dch_runlaw.specs.Ttis.{Tti};

/// A law: let any run in soft handover, with any damage on any leg, come to a point at which a TTI of an uplink channel
/// starts. In each of its radio frames leg k gets what the terminal sends as it was sent, or with little damage; and
/// the Iub frame of the channel's set that the leg sends for the TTI arrives as it was sent. Each good block that
/// another leg's frame has of the channel then is the one that the terminal sent, at its place and in its format. Then
/// the network controller takes an Iub frame of the set for the TTI, and takes of the channel just the blocks that
/// layer 2 of the terminal gave to it: its good blocks are these, at their places. Where their format has any blocks,
/// they are read in it, and none is bad; where it has none, nothing good comes of another leg, and the format may be
/// any one that a leg has.
///
/// Little damage is few wrong TFCI bits of each radio frame, four of 30 or 20 of 120, and few changed cells of each
/// code block of each channel of the set: the wrong cells twice and the missing ones once are less than the cells in
/// which two blocks differ.
pub fn leg_law()
    ensures { (planned : Planned) (first legs k i : ℕ) (moves : List Move) (mid last : Point) (new : SoftState)
        (lines own : List Line) →
        Runs (opened_point planned first legs) moves mid lines → IsPlanned planned → first % 8 ≡ 0 → k < legs →
        i < length planned.config.uplink.side.channels →
        (t : Tti (channel_at planned.config.uplink.side i).frames
        (channel_at planned.config.uplink.side i).set mid last) →
        ArrivesAtLeg planned k
        (channel_at planned.config.uplink.side i).frames (channel_at planned.config.uplink.side i).set mid last t →
        OthersAreSent (last.soft.frames (channel_at planned.config.uplink.side i).set) k i
        (as_sent (channel_at planned.config.uplink.side i) (last.soft.ue.state.layer.given i)) →
        AtStage (Combine (channel_at planned.config.uplink.side i).set) last.soft new own →
        TakesGiven planned (channel_at planned.config.uplink.side i).set i (last.soft.ue.state.layer.given i)
        (channel_at planned.config.uplink.side i).frames mid last t new }
{}

/// A law: where no damage waits on a leg, it gets what the terminal sends as it was sent, and what it sends itself
/// arrives so.
pub fn unharmed_law()
    ensures { (k set : ℕ) (stage : Stage) (old new : SoftState) → (old.legs k).damage ≡ [] → Gets k set stage old new }
{}
