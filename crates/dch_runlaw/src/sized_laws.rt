ghost use Rattle.std.specs.Prelude.{ℕ, List};
ghost use Rattle.dch_types.specs.declared.channel.Dir.{Dir};
ghost use Rattle.dch_types.specs.declared.config.Config.{Config};
ghost use Rattle.dch_types.specs.Parts.{side_of};
ghost use Rattle.dch_config.specs.Good.{IsGood};
ghost use Rattle.dch_accept.specs.Plans.{IsPlanned, Planned};
ghost use Rattle.dch_layer2.specs.Layers.{Layer, opened_layer};
ghost use Rattle.dch_node.specs.Lines.{Line};
ghost use Rattle.dch_linkcmd.specs.LinkLink.{LinkState};
ghost use Rattle.dch_runlaw.specs.Parts.{Begins};
ghost use Rattle.dch_runlaw.specs.Runs.{Event as LinkEvent, Runs};
ghost use Rattle.dch_runlaw.specs.SizedEnds.{Event, Reaches};
ghost use Rattle.dch_runlaw.specs.SizedLinks.{IsSized};
ghost use Rattle.dch_runlaw.specs.Sized.{AreGiven};

/// A law. Layer 2 of an end is opened with a good configuration, and units are offered, combinations are blocked and
/// free, timers tick, blocks come and TTIs start, in any order and as often as one likes. Then the blocks that each
/// channel was given for its running TTI have the size of their format, and bits, and all together they are as many
/// bits as the format has.
pub fn end_law()
    ensures { (config : Config) (out into : Dir) (events : List Event) (layer : Layer) → IsGood config →
        Reaches config out into (opened_layer config out) events layer → AreGiven (side_of config out) layer }
{}

/// A law. In every part of a run of three nodes with an accepted configuration, from opening or from a change on, with
/// any damage: after each start of TTIs the blocks of every channel of both ends have the size of their format, and
/// bits, and all together they are as many bits as the format has.
pub fn sized_law()
    ensures { (planned : Planned) (events : List LinkEvent) (start new : LinkState) (lines : List Line)
        (run : Runs start events new lines) → IsPlanned planned → Begins planned start →
        IsSized planned events start new lines run }
{}
