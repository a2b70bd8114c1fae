ghost use Rattle.std.specs.Prelude.{◌≡◌, ◌<◌, ℕ, List, length};
ghost use Rattle.std.specs.List.{All};
ghost use Rattle.dch_accept.specs.Plans.{IsPlanned, Planned};
ghost use Rattle.dch_layer2.specs.Layers.{Layer};
ghost use Rattle.dch_node.specs.Lines.{Line};
ghost use Rattle.dch_node.specs.Outputs.{IsSameOutput};
ghost use Rattle.dch_node.specs.Traces.{Reaches};
ghost use Rattle.dch_node.specs.Values.{Output, Radio};
ghost use Rattle.dch_ue.specs.Same.{BringsPlanned, IsSameState, ReadsSame};
ghost use Rattle.dch_ue.specs.State.{Event, State, Tick, opened_state};
ghost use Rattle.dch_ue.specs.Steps.{IsRadioFrame, Steps};

/// A law: a tick reads in one way. What is read of each downlink channel follows from the configuration, the CFN and
/// the radio frames that came alone, but for the room of the blocks.
pub fn one_reading_law()
    ensures { (old new older newer : State) (output more : Output) → IsPlanned old.planned →
        older.planned ≡ old.planned → older.cfn ≡ old.cfn → older.came ≡ old.came →
        ((k : ℕ) → older.frames k ≡ old.frames k) → Steps old Tick new output → Steps older Tick newer more → (i : ℕ) →
        ReadsSame (new.readings i) (newer.readings i) }
{}

/// A law: the uplink radio frame follows from the CFN, from the combination that runs, and from what layer 2 gave to
/// the uplink channels.
pub fn one_frame_law()
    ensures { (planned : Planned) (cfn : ℕ) (layer other : Layer) (sent more : Radio) → other.running ≡ layer.running →
        ((i : ℕ) → i < length planned.config.uplink.side.channels → other.given i ≡ layer.given i) →
        IsRadioFrame planned cfn layer sent → IsRadioFrame planned cfn other more → more ≡ sent }
{}

/// A law: a step of a terminal has one output. From states that say the same, an event leads to such states and gives
/// the same lines and the same radio frame; and so the same events give the same lines since opening, where each
/// configuration that becomes active is one that can be accepted.
pub fn one_output_law()
    ensures step { (old new older newer : State) (event : Event) (output more : Output) → IsPlanned old.planned →
        IsSameState old older →
        Steps old event new output → Steps older event newer more → IsSameState new newer × IsSameOutput output more }
    ensures history { (planned : Planned) (first : ℕ) (events : List Event) (state other : State) (last more : Output)
        (lines rest : List Line) →
        IsPlanned planned → All BringsPlanned events →
        Reaches Steps (opened_state planned first) events state last lines →
        Reaches Steps (opened_state planned first) events other more rest →
        IsSameState state other × ((rest ≡ lines) × IsSameOutput last more) }
{}
