ghost use Rattle.std.specs.Prelude.{◌≡◌, ◌<◌, ℕ, List, [], ◌∷◌, Option, length};
ghost use Rattle.dch_types.specs.declared.channel.Dir.TheVariants.{Up};
ghost use Rattle.dch_types.specs.declared.config.Config.{Config};
ghost use Rattle.dch_iub.specs.Answers.{IsCause};
ghost use Rattle.dch_iub.specs.declared.error.IubError.{IubError};
ghost use Rattle.dch_node.specs.IubFrames.{refusal_number};
ghost use Rattle.dch_node.specs.Lines.{IubBad, Line};
ghost use Rattle.dch_node.specs.Outputs.{IsSameOutput};
ghost use Rattle.dch_node.specs.Traces.{Reaches};
ghost use Rattle.dch_node.specs.Values.{Output, says};
ghost use Rattle.dch_accept.specs.Plans.{Planned};
ghost use Rattle.dch_layer2.specs.Layers.{Layer};
ghost use Rattle.dch_rnc.specs.Same.{IsSameState};
ghost use Rattle.dch_rnc.specs.State.{Event, IubFrame, State, no_readings, opened_state};
ghost use Rattle.dch_rnc.specs.Steps.{IsSent, Steps};

/// A law: an Iub frame is taken in one way. What layer 2 becomes and what is reported follow from the frame, the
/// configuration and layer 2 alone; and a frame that is refused changes nothing, but that its refusal is reported.
pub fn one_arrival_law()
    ensures arrival { (old new older newer : State) (set : ℕ) (octets : List ℕ) (output more : Output) →
        older.planned ≡ old.planned → older.layer ≡ old.layer →
        Steps old (IubFrame set octets) new output → Steps older (IubFrame set octets) newer more → (more ≡ output) ×
        (newer.layer ≡ new.layer) }
    ensures refusal { (old new : State) (set : ℕ) (octets : List ℕ) (output : Output) (error : IubError) →
        IsCause old.planned.config Up set octets error →
        Steps old (IubFrame set octets) new output → (new ≡ record old { readings = no_readings }) ×
        (output ≡ says (IubBad Up set (refusal_number error) ∷ [])) }
{}

/// A law: the Iub frame of a set, or that none is sent, follows from the CFN and from what layer 2 gave to the downlink
/// channels.
pub fn one_frame_law()
    ensures { (config : Config) (cfn : ℕ) (layer other : Layer) (set : ℕ) (sent more : Option (List ℕ)) →
        ((i : ℕ) → i < length config.downlink.side.channels → other.given i ≡ layer.given i) →
        IsSent config cfn layer set sent → IsSent config cfn other set more → more ≡ sent }
{}

/// A law: a step of a network controller has one output. From states that say the same, an event leads to such states
/// and gives the same lines and the same Iub frame for each set; and so the same events give the same lines since
/// opening.
pub fn one_output_law()
    ensures step { (old new older newer : State) (event : Event) (output more : Output) → IsSameState old older →
        Steps old event new output → Steps older event newer more → IsSameState new newer × IsSameOutput output more }
    ensures history { (planned : Planned) (first : ℕ) (events : List Event) (state other : State) (last more : Output)
        (lines rest : List Line) →
        Reaches Steps (opened_state planned first) events state last lines →
        Reaches Steps (opened_state planned first) events other more rest →
        IsSameState state other × ((rest ≡ lines) × IsSameOutput last more) }
{}
