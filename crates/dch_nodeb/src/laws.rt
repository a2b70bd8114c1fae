ghost use Rattle.std.specs.Prelude.{◌≡◌, ℕ, List};
ghost use Rattle.std.specs.List.{All};
ghost use Rattle.dch_accept.specs.Plans.{IsPlanned, Planned};
ghost use Rattle.dch_node.specs.Lines.{Line};
ghost use Rattle.dch_node.specs.Outputs.{IsSameOutput};
ghost use Rattle.dch_node.specs.Traces.{Reaches};
ghost use Rattle.dch_node.specs.Values.{Output};
ghost use Rattle.dch_nodeb.specs.Same.{BringsPlanned, IsSameState};
ghost use Rattle.dch_nodeb.specs.State.{DownlinkDue, Event, IubFrame, State, opened_state};
ghost use Rattle.dch_nodeb.specs.Steps.{Steps};

/// A law: the state of a Node B follows from what happened at it, and its answer to an Iub frame from its configuration
/// and the frame.
pub fn one_state_law()
    ensures step { (old new older newer : State) (event : Event) (output more : Output) →
        IsSameState old older → Steps old event new output → Steps older event newer more → IsSameState new newer }
    ensures history { (planned : Planned) (first : ℕ) (events : List Event) (state other : State) (last more : Output)
        (lines rest : List Line) →
        Reaches Steps (opened_state planned first) events state last lines →
        Reaches Steps (opened_state planned first) events other more rest →
        IsSameState state other }
    ensures arrival { (old new older newer : State) (set : ℕ) (octets : List ℕ) (output more : Output) →
        older.planned ≡ old.planned →
        Steps old (IubFrame set octets) new output → Steps older (IubFrame set octets) newer more → more ≡ output }
{}

/// A law: a step of a Node B has one output. From states that say the same, an event gives the same lines, the same
/// radio frame and the same Iub frame for each set; and so the same events give the same lines since opening, where
/// each configuration that becomes active is one that can be accepted.
pub fn one_output_law()
    ensures departure { (old new older newer : State) (output more : Output) →
        IsSameState old older → Steps old DownlinkDue new output → Steps older DownlinkDue newer more →
        IsSameOutput output more }
    ensures step { (old new older newer : State) (event : Event) (output more : Output) → IsPlanned old.planned →
        IsSameState old older →
        Steps old event new output → Steps older event newer more → IsSameOutput output more }
    ensures history { (planned : Planned) (first : ℕ) (events : List Event) (state other : State) (last more : Output)
        (lines rest : List Line) → IsPlanned planned → All BringsPlanned events →
        Reaches Steps (opened_state planned first) events state last lines →
        Reaches Steps (opened_state planned first) events other more rest → (rest ≡ lines) × IsSameOutput last more }
{}
