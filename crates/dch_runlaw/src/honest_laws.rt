ghost use Rattle.std.specs.Prelude.{◌<◌, ℕ, List, length};
ghost use Rattle.dch_types.specs.declared.channel.Dir.{Dir};
ghost use Rattle.dch_types.specs.declared.channel.Dir.TheVariants.{Down, Up};
ghost use Rattle.dch_types.specs.Parts.{side_of};
ghost use Rattle.dch_config.specs.Good.{IsGood};
ghost use Rattle.dch_accept.specs.Plans.{Planned};
ghost use Rattle.dch_node.specs.Lines.{Differs, Line};
ghost use Rattle.dch_linkcmd.specs.LinkLink.{LinkState, opened_link};
ghost use Rattle.dch_runlaw.specs.Parts.{Begins};
ghost use Rattle.dch_runlaw.specs.Runs.{Event, Runs};
ghost use Rattle.dch_runlaw.specs.EndEvents.{end_events};
ghost use Rattle.dch_runlaw.specs.HonestBearers.{Alone, HasHistory, HasKnownDown, HasKnownUp, HasSomeDown, HasSomeUp, HasTmDown, HasTmUp, HasUmDown, HasUmUp, HasWholeHistory, IsAcknowledged, IsTransparent, IsUnacknowledged};
ghost use Rattle.dch_runlaw.specs.HonestFits.{IsHonest, IsUndamaged, IsUndamagedOn};
ghost use Rattle.dch_runlaw.specs.HonestSilent.{IsSilent, Lacks};

/// A law: where no line of a part of a run of three nodes says of a channel that a block was taken as good that was not
/// given, in each radio frame that ends a TTI of it what was taken of it is some of what was given for it, in order.
pub fn honest_law()
    ensures { (planned : Planned) (dir : Dir) (i : ℕ) (events : List Event) (start new : LinkState) (lines : List Line)
        (run : Runs start events new lines) →
        IsGood planned.config → Begins planned start → i < length (side_of planned.config dir).channels →
        Lacks lines (Differs dir i) →
        IsHonest planned dir i events start new lines run }
{}

/// A law: in a run of three nodes, radio frame by radio frame and with any damage between them, no line says of the two
/// channels of an acknowledged bearer that a block was taken as good that was not given. Then the calls that the
/// bearer's two ends got are a history of two ends with blocks in flight, in order, some of which are lost. It is safe:
/// handed up are the accepted units in order, each once, as far as they came without a gap, but for those that were
/// discarded; and all lines on the bearer are the units that are handed up.
pub fn link_law()
    ensures { (planned : Planned) (first b up down : ℕ) (events : List Event) (new : LinkState) (lines : List Line)
        (run : Runs (opened_link planned first) events new lines) →
        IsAcknowledged planned b up down → IsSilent up down lines →
        HasHistory planned first b (end_events events (opened_link planned first) new lines run) new }
{}

/// A law: where what is taken as good of each TTI is just what was given for it, nothing is lost in this history.
/// Handed up at each end are just the accepted units of the other one, in order, whose length indicator was sent in
/// TTIs that have ended.
pub fn undamaged_law()
    ensures { (planned : Planned) (first b up down : ℕ) (events : List Event) (new : LinkState) (lines : List Line)
        (run : Runs (opened_link planned first) events new lines) →
        IsAcknowledged planned b up down →
        IsUndamaged planned up down events (opened_link planned first) new lines run →
        HasWholeHistory (Alone planned first (end_events events (opened_link planned first) new lines run))
        b up down new }
{}

/// A law: with any damage, where no line says of the channel of an unacknowledged bearer that a block was taken as good
/// that was not given: some of the PDUs that were sent came, in order; and where fewer than 128 successive PDUs were
/// lost before each that came, all lines on the bearer are the units that are known, in order. Nothing is asked of any
/// other channel.
pub fn um_link_law()
    ensures up { (planned : Planned) (first b up : ℕ) (events : List Event) (new : LinkState) (lines : List Line)
        (run : Runs (opened_link planned first) events new lines) →
        IsUnacknowledged planned Up b up → Lacks lines (Differs Up up) →
        HasKnownUp planned first b up (end_events events (opened_link planned first) new lines run) new }
    ensures down { (planned : Planned) (first b down : ℕ) (events : List Event) (new : LinkState) (lines : List Line)
        (run : Runs (opened_link planned first) events new lines) →
        IsUnacknowledged planned Down b down → Lacks lines (Differs Down down) →
        HasKnownDown planned first b down (end_events events (opened_link planned first) new lines run) new }
{}

/// A law: where what is taken as good of each TTI of its channel is just what was given for it, handed up of an
/// unacknowledged bearer are just the accepted units, in order, whose length indicator was sent in TTIs that have
/// ended. No other line is written on it.
pub fn um_undamaged_law()
    ensures up { (planned : Planned) (first b up : ℕ) (events : List Event) (new : LinkState) (lines : List Line)
        (run : Runs (opened_link planned first) events new lines) →
        IsUnacknowledged planned Up b up →
        IsUndamagedOn planned Up up events (opened_link planned first) new lines run → HasUmUp planned b up new }
    ensures down { (planned : Planned) (first b down : ℕ) (events : List Event) (new : LinkState) (lines : List Line)
        (run : Runs (opened_link planned first) events new lines) →
        IsUnacknowledged planned Down b down →
        IsUndamagedOn planned Down down events (opened_link planned first) new lines run →
        HasUmDown planned b down new }
{}

/// A law: with any damage, where no line says of the channel of a transparent bearer that a block was taken as good
/// that was not given, handed up of it are the units of the blocks that came, which are some of the accepted ones, in
/// order, each at most once. Nothing is asked of any other channel.
pub fn tm_link_law()
    ensures up { (planned : Planned) (first b up : ℕ) (events : List Event) (new : LinkState) (lines : List Line)
        (run : Runs (opened_link planned first) events new lines) →
        IsTransparent planned Up b up → Lacks lines (Differs Up up) →
        HasSomeUp planned first b up (end_events events (opened_link planned first) new lines run) new }
    ensures down { (planned : Planned) (first b down : ℕ) (events : List Event) (new : LinkState) (lines : List Line)
        (run : Runs (opened_link planned first) events new lines) →
        IsTransparent planned Down b down → Lacks lines (Differs Down down) →
        HasSomeDown planned first b down (end_events events (opened_link planned first) new lines run) new }
{}

/// A law: where what is taken as good of each TTI of its channel is just what was given for it, handed up of a
/// transparent bearer are just the accepted units, in order, whose block was sent in TTIs that have ended.
pub fn tm_undamaged_law()
    ensures up { (planned : Planned) (first b up : ℕ) (events : List Event) (new : LinkState) (lines : List Line)
        (run : Runs (opened_link planned first) events new lines) →
        IsTransparent planned Up b up → IsUndamagedOn planned Up up events (opened_link planned first) new lines run →
        HasTmUp planned b up new }
    ensures down { (planned : Planned) (first b down : ℕ) (events : List Event) (new : LinkState) (lines : List Line)
        (run : Runs (opened_link planned first) events new lines) →
        IsTransparent planned Down b down →
        IsUndamagedOn planned Down down events (opened_link planned first) new lines run →
        HasTmDown planned b down new }
{}
