ghost use Rattle.std.specs.Prelude.{◌≡◌, ◌%◌, ℕ, List};
ghost use Rattle.dch_accept.specs.Plans.{IsPlanned, Planned};
ghost use Rattle.dch_runlaw.specs.Clear.{IsClear};
ghost use Rattle.dch_linkcmd.specs.LinkLink.{LinkState, opened_link};
ghost use Rattle.dch_runlaw.specs.Runs.{Event, Runs};
ghost use Rattle.dch_node.specs.Lines.{Line};
ghost use Rattle.dch_runlaw.specs.Plain.{ArePlain};

/// A law: in a run from opening at a CFN that is a multiple of 8, in which each frame of the nodes arrives as it was
/// sent, no line tells of trouble: each line says that a unit is accepted or not, hands up a unit, or shows a frame
/// that is sent.
pub fn plain_law()
    ensures { (planned : Planned) (first : ℕ) (events : List Event) (new : LinkState) (lines : List Line)
        (run : Runs (opened_link planned first) events new lines) →
        IsPlanned planned → first % 8 ≡ 0 → IsClear events (opened_link planned first) new lines run → ArePlain lines }
{}
