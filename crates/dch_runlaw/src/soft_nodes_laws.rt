ghost use Rattle.std.specs.Prelude.{ℕ, List};
ghost use Rattle.dch_accept.specs.Plans.{Planned};
ghost use Rattle.dch_node.specs.Lines.{Line};
ghost use Rattle.dch_runlaw.specs.HonestBearers.{IsAcknowledged};
ghost use Rattle.dch_runlaw.specs.Nodes.{AreFaithful, Runs as NodesRun, opened_nodes};
ghost use Rattle.dch_runlaw.specs.SoftEndEvents.{AfterEach, HandsUp, IsListOf, after_all, events_of, end_events};
ghost use Rattle.dch_runlaw.specs.SoftRuns.{Move, Point, Runs, opened_point};
ghost use Rattle.dch_runlaw.specs.Told.{IsTold};

/// A law: all that happens at the terminal and the network controller in a run in soft handover, with any damage on any
/// leg and to whatever stage of a radio frame, is a list of events at a terminal and a network controller. It leads to
/// just these two nodes, with all lines that each of them has reported in the run. Where in the run two channels are
/// faithful after each of the events, they are so in the list.
pub fn soft_events_law()
    ensures events { (planned : Planned) (first legs : ℕ) (moves : List Move) (new : Point) (lines : List Line)
        (run : Runs (opened_point planned first legs) moves new lines) →
        IsListOf planned first (end_events moves (opened_point planned first legs) new lines run) new.soft }
    ensures faithful { (planned : Planned) (first legs up down : ℕ) (moves : List Move) (new : Point)
        (lines : List Line) (run : Runs (opened_point planned first legs) moves new lines) →
        AfterEach (AreFaithful up down) (opened_nodes planned first first)
        (end_events moves (opened_point planned first legs) new lines run) →
        NodesRun (AreFaithful up down) (opened_nodes planned first first)
        (events_of (end_events moves (opened_point planned first legs) new lines run))
        (after_all (opened_nodes planned first first)
        (end_events moves (opened_point planned first legs) new lines run)) }
{}

/// A law: in a run in soft handover, with any damage on any leg, both channels of an acknowledged bearer of a good
/// configuration are faithful after each event at the terminal and the network controller. Then the calls that its two
/// ends got are a history of two ends with blocks in flight, in order; and of the lines of the run, those on PDUs and
/// units of the bearer are just the units that this history hands up, in order.
pub fn soft_nodes_law()
    ensures { (planned : Planned) (first legs b up down : ℕ) (moves : List Move) (new : Point) (lines : List Line)
        (run : Runs (opened_point planned first legs) moves new lines) →
        IsAcknowledged planned b up down → AfterEach (AreFaithful up down) (opened_nodes planned first first)
        (end_events moves (opened_point planned first legs) new lines run) →
        HandsUp planned first b (end_events moves (opened_point planned first legs) new lines run) new.soft lines }
{}

/// A law: of the lines of a run in soft handover, those on units and PDUs of a bearer that went up are just those that
/// the network controller has reported on the bearer meanwhile, and those on what went down the terminal's.
pub fn soft_told_law()
    ensures { (old : Point) (moves : List Move) (new : Point) (lines : List Line) → Runs old moves new lines →
        IsTold old.soft new.soft lines }
{}
