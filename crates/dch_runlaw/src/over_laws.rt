ghost use Rattle.std.specs.Prelude.{◌≡◌, ◌%◌, ℕ, List};
ghost use Rattle.dch_config.specs.Changes.{KeepsBearer};
ghost use Rattle.dch_accept.specs.Plans.{Planned};
ghost use Rattle.dch_types.specs.declared.channel.Dir.TheVariants.{Down, Up};
ghost use Rattle.dch_node.specs.Lines.{Differs, Line};
ghost use Rattle.dch_linkcmd.specs.LinkLink.{LinkState, opened_link};
ghost use Rattle.dch_runlaw.specs.Parts.{GoesOver};
ghost use Rattle.dch_runlaw.specs.Runs.{Event, Runs};
ghost use Rattle.dch_runlaw.specs.EndEvents.{end_events};
ghost use Rattle.dch_runlaw.specs.HonestBearers.{Both, HasHistoryOver, HasKnownDownOver, HasKnownUpOver, HasSomeDownOver, HasSomeUpOver, HasTmDown, HasTmUp, HasUmDown, HasUmUp, HasWholeHistory, IsAcknowledged, IsTransparent, IsUnacknowledged};
ghost use Rattle.dch_runlaw.specs.HonestFits.{IsUndamaged, IsUndamagedOn};
ghost use Rattle.dch_runlaw.specs.HonestSilent.{IsSilent, Lacks};

/// A law: a second configuration becomes active behind a first part of a run of three nodes, and a bearer that is
/// acknowledged goes on over other channels perhaps. With any damage, where no line of a part says of its two channels
/// in that part that a block was taken as good that was not given, the calls that its two ends got are one history over
/// both parts, with blocks in flight, in order, some of which are lost. All that are in flight at the change are. It is
/// safe, and all lines on the bearer are the units that are handed up. Where what is taken of each TTI in both parts is
/// just what was given for it, and all TTIs have ended at the change, nothing is lost.
pub fn link_over_law()
    ensures history { (planned second : Planned) (first b up down up_later down_later : ℕ) (before after : List Event)
        (start new : LinkState) (early late : List Line) (over : GoesOver planned second first before early start)
        (run : Runs start after new late) → KeepsBearer planned.config second.config b →
        IsAcknowledged planned b up down → IsAcknowledged second b up_later down_later → IsSilent up down early →
        IsSilent up_later down_later late →
        HasHistoryOver planned second first b (end_events before (opened_link planned first) over.last early over.run)
        (end_events after start new late run) over.last new }
    ensures whole { (planned second : Planned) (first b up down up_later down_later : ℕ) (before after : List Event)
        (start new : LinkState) (early late : List Line) (over : GoesOver planned second first before early start)
        (run : Runs start after new late) → KeepsBearer planned.config second.config b → start.rnc.state.cfn % 8 ≡ 0 →
        IsAcknowledged planned b up down → IsAcknowledged second b up_later down_later →
        IsUndamaged planned up down before (opened_link planned first) over.last early over.run →
        IsUndamaged second up_later down_later after start new late run →
        HasWholeHistory (Both planned second first (end_events before (opened_link planned first)
        over.last early over.run) (end_events after start new late run) over.last) b up_later down_later new }
{}

/// A law: and an unacknowledged bearer. With any damage some of the PDUs that were sent in both parts came, in order;
/// and where fewer than 128 successive PDUs were lost before each that came, those in flight at the change among them,
/// all lines on the bearer are the units that are known, in order. Where just what was given is taken in both parts,
/// handed up are just the accepted units, in order, whose length indicator was sent in TTIs that have ended.
pub fn um_over_law()
    ensures up { (planned second : Planned) (first b up up_later : ℕ) (before after : List Event)
        (start new : LinkState) (early late : List Line) (over : GoesOver planned second first before early start)
        (run : Runs start after new late) →
        IsUnacknowledged planned Up b up → IsUnacknowledged second Up b up_later → Lacks early (Differs Up up) →
        Lacks late (Differs Up up_later) →
        HasKnownUpOver planned second first b up up_later (end_events before (opened_link planned first)
        over.last early over.run) (end_events after start new late run) over.last new }
    ensures down { (planned second : Planned) (first b down down_later : ℕ) (before after : List Event)
        (start new : LinkState) (early late : List Line) (over : GoesOver planned second first before early start)
        (run : Runs start after new late) →
        IsUnacknowledged planned Down b down → IsUnacknowledged second Down b down_later →
        Lacks early (Differs Down down) → Lacks late (Differs Down down_later) →
        HasKnownDownOver planned second first b down down_later
        (end_events before (opened_link planned first) over.last early over.run) (end_events after start new late run)
        over.last new }
    ensures whole_up { (planned second : Planned) (first b up up_later : ℕ) (before after : List Event)
        (start new : LinkState) (early late : List Line) (over : GoesOver planned second first before early start)
        (run : Runs start after new late) → start.rnc.state.cfn % 8 ≡ 0 →
        IsUnacknowledged planned Up b up → IsUnacknowledged second Up b up_later →
        IsUndamagedOn planned Up up before (opened_link planned first) over.last early over.run →
        IsUndamagedOn second Up up_later after start new late run → HasUmUp second b up_later new }
    ensures whole_down { (planned second : Planned) (first b down down_later : ℕ) (before after : List Event)
        (start new : LinkState) (early late : List Line) (over : GoesOver planned second first before early start)
        (run : Runs start after new late) → start.rnc.state.cfn % 8 ≡ 0 →
        IsUnacknowledged planned Down b down → IsUnacknowledged second Down b down_later →
        IsUndamagedOn planned Down down before (opened_link planned first) over.last early over.run →
        IsUndamagedOn second Down down_later after start new late run → HasUmDown second b down_later new }
{}

/// A law: and a transparent one, of which the units of the blocks that came in both parts are handed up, some of those
/// that were accepted, in order, each at most once; and where just what was given is taken in both parts, all whose
/// block was sent in TTIs that have ended.
pub fn tm_over_law()
    ensures up { (planned second : Planned) (first b up up_later : ℕ) (before after : List Event)
        (start new : LinkState) (early late : List Line) (over : GoesOver planned second first before early start)
        (run : Runs start after new late) →
        IsTransparent planned Up b up → IsTransparent second Up b up_later → Lacks early (Differs Up up) →
        Lacks late (Differs Up up_later) →
        HasSomeUpOver planned second first b up up_later (end_events before (opened_link planned first)
        over.last early over.run) (end_events after start new late run) over.last new }
    ensures down { (planned second : Planned) (first b down down_later : ℕ) (before after : List Event)
        (start new : LinkState) (early late : List Line) (over : GoesOver planned second first before early start)
        (run : Runs start after new late) →
        IsTransparent planned Down b down → IsTransparent second Down b down_later → Lacks early (Differs Down down) →
        Lacks late (Differs Down down_later) →
        HasSomeDownOver planned second first b down down_later
        (end_events before (opened_link planned first) over.last early over.run) (end_events after start new late run)
        over.last new }
    ensures whole_up { (planned second : Planned) (first b up up_later : ℕ) (before after : List Event)
        (start new : LinkState) (early late : List Line) (over : GoesOver planned second first before early start)
        (run : Runs start after new late) → start.rnc.state.cfn % 8 ≡ 0 →
        IsTransparent planned Up b up → IsTransparent second Up b up_later →
        IsUndamagedOn planned Up up before (opened_link planned first) over.last early over.run →
        IsUndamagedOn second Up up_later after start new late run → HasTmUp second b up_later new }
    ensures whole_down { (planned second : Planned) (first b down down_later : ℕ) (before after : List Event)
        (start new : LinkState) (early late : List Line) (over : GoesOver planned second first before early start)
        (run : Runs start after new late) → start.rnc.state.cfn % 8 ≡ 0 →
        IsTransparent planned Down b down → IsTransparent second Down b down_later →
        IsUndamagedOn planned Down down before (opened_link planned first) over.last early over.run →
        IsUndamagedOn second Down down_later after start new late run → HasTmDown second b down_later new }
{}
