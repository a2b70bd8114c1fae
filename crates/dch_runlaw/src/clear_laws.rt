ghost use Rattle.std.specs.Prelude.{◌≡◌, ◌<◌, ◌%◌, ℕ, List, [], length};
ghost use Rattle.dch_accept.specs.Plans.{IsPlanned, Planned};
ghost use Rattle.dch_runlaw.specs.Clear.{AreHarmless, IsClear};
ghost use Rattle.dch_runlaw.specs.ClearSound.{AreSound};
ghost use Rattle.dch_runlaw.specs.HonestFits.{IsUndamaged};
ghost use Rattle.dch_linkcmd.specs.LinkLink.{LinkState};
ghost use Rattle.dch_runlaw.specs.Parts.{Begins};
ghost use Rattle.dch_runlaw.specs.Runs.{Event, Runs};
ghost use Rattle.dch_node.specs.Lines.{Line};

/// A law: in a part of a run that begins at a CFN that is a multiple of 8, at opening or with a change, and in which
/// each frame of the nodes arrives as it was sent, what is taken as good of each TTI of each channel is just what was
/// given for it. No line says that a radio frame isn't sent, that a TTI is lost, that a block is bad or another one
/// than was given, or that an Iub frame is refused.
pub fn clear_law()
    ensures undamaged { (planned : Planned) (up down : ℕ) (events : List Event) (start new : LinkState)
        (lines : List Line) (run : Runs start events new lines) →
        IsPlanned planned → Begins planned start → start.rnc.state.cfn % 8 ≡ 0 → IsClear events start new lines run →
        up < length planned.config.uplink.side.channels → down < length planned.config.downlink.side.channels →
        IsUndamaged planned up down events start new lines run }
    ensures sound { (planned : Planned) (events : List Event) (start new : LinkState) (lines : List Line)
        (run : Runs start events new lines) →
        IsPlanned planned → Begins planned start → start.rnc.state.cfn % 8 ≡ 0 → IsClear events start new lines run →
        AreSound lines }
{}

/// A law: where no damage waits, and no event of a run does damage, each frame of the nodes arrives as it was sent.
pub fn harmless_law()
    ensures { (events : List Event) (old new : LinkState) (lines : List Line) (run : Runs old events new lines) →
        old.damage ≡ [] → AreHarmless events → IsClear events old new lines run }
{}
