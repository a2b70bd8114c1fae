ghost use Rattle.std.specs.Prelude.{◌≡◌, ◌%◌, ◌++◌, ℕ, List};
ghost use Rattle.dch_accept.specs.Plans.{IsPlanned, Planned};
ghost use Rattle.dch_runlaw.specs.Clear.{AreHarmless, IsClear};
ghost use Rattle.dch_linkcmd.specs.LinkLink.{LinkState, opened_link};
ghost use Rattle.dch_runlaw.specs.Parts.{GoesOver, KeepsAll};
ghost use Rattle.dch_runlaw.specs.Runs.{Event, Runs};
ghost use Rattle.dch_node.specs.Lines.{Line};
ghost use Rattle.dch_runlaw.specs.EndEvents.{end_events};
ghost use Rattle.dch_runlaw.specs.HonestBearers.{Alone, Both};
ghost use Rattle.dch_runlaw.specs.Undamaged.{CarriesAll};

/// A law: in a run from opening at a CFN that is a multiple of 8, in which each frame of the nodes arrives as it was
/// sent, no line tells of trouble. The rows of the run's text that hand up the units of a bearer in a direction, with
/// the rows of frames or without them, are just those of the accepted units, in order, whose length indicator, or for a
/// transparent bearer whose block, was sent in TTIs that have ended.
pub fn undamaged_run_law()
    ensures { (planned : Planned) (first : ℕ) (events : List Event) (new : LinkState) (lines : List Line)
        (run : Runs (opened_link planned first) events new lines) →
        IsPlanned planned → first % 8 ≡ 0 → IsClear events (opened_link planned first) new lines run →
        CarriesAll (Alone planned first (end_events events (opened_link planned first) new lines run)) new lines }
{}

/// A law: so it is where a second configuration, in which every bearer goes on, becomes active behind a first part of
/// the run, at a CFN that is a multiple of 8. All TTIs have ended then, so that nothing is in flight.
pub fn undamaged_over_law()
    ensures { (planned second : Planned) (first : ℕ) (before after : List Event) (start new : LinkState)
        (early late : List Line) (over : GoesOver planned second first before early start)
        (run : Runs start after new late) →
        IsPlanned planned → IsPlanned second → KeepsAll planned second → first % 8 ≡ 0 → start.rnc.state.cfn % 8 ≡ 0 →
        IsClear before (opened_link planned first) over.last early over.run → IsClear after start new late run →
        CarriesAll (Both planned second first (end_events before (opened_link planned first) over.last early over.run)
        (end_events after start new late run) over.last) new (early ++ late) }
{}

/// A law: so it is where no event of the run does damage.
pub fn harmless_run_law()
    ensures alone { (planned : Planned) (first : ℕ) (events : List Event) (new : LinkState) (lines : List Line)
        (run : Runs (opened_link planned first) events new lines) →
        IsPlanned planned → first % 8 ≡ 0 → AreHarmless events →
        CarriesAll (Alone planned first (end_events events (opened_link planned first) new lines run)) new lines }
    ensures over { (planned second : Planned) (first : ℕ) (before after : List Event) (start new : LinkState)
        (early late : List Line) (over : GoesOver planned second first before early start)
        (run : Runs start after new late) →
        IsPlanned planned → IsPlanned second → KeepsAll planned second → first % 8 ≡ 0 → start.rnc.state.cfn % 8 ≡ 0 →
        AreHarmless before → AreHarmless after →
        CarriesAll (Both planned second first (end_events before (opened_link planned first) over.last early over.run)
        (end_events after start new late run) over.last) new (early ++ late) }
{}
