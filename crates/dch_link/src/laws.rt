ghost use Rattle.std.specs.Prelude.{◌≡◌, List};
ghost use Rattle.dch_accept.specs.Plans.{IsPlanned, Planned};
ghost use Rattle.dch_node.specs.Lines.{Line};
ghost use Rattle.dch_link.specs.Changing.{Changes};
ghost use Rattle.dch_link.specs.Events.{Event, Happens};
ghost use Rattle.dch_link.specs.Link.{LinkState};
ghost use Rattle.dch_link.specs.Passing.{IsStage};
ghost use Rattle.dch_link.specs.Same.{ArePlanned, IsSameLink};
ghost use Rattle.dch_link.specs.Stages.{AtStage};
ghost use Rattle.dch_link.specs.declared.stage.Stage.{Stage};

/// A law: three nodes that run together have one text. From states that say the same, a stage of a radio frame leads to
/// such states and gives the same lines, those that compare blocks among them; and so does what a script says between
/// two radio frames, and a second configuration that becomes active. The configurations stay ones that can be accepted.
pub fn one_text_law()
    ensures stage { (stage : Stage) (old new older newer : LinkState) (lines rest : List Line) →
        IsStage stage → ArePlanned old → IsSameLink old older →
        AtStage stage old new lines → AtStage stage older newer rest →
        ArePlanned new × IsSameLink new newer × (rest ≡ lines) }
    ensures event { (event : Event) (old new older newer : LinkState) (lines rest : List Line) →
        ArePlanned old → IsSameLink old older →
        Happens old event new lines → Happens older event newer rest →
        ArePlanned new × IsSameLink new newer × (rest ≡ lines) }
    ensures change { (second : Planned) (old new older newer : LinkState) →
        IsPlanned second → ArePlanned old → IsSameLink old older →
        Changes second old new → Changes second older newer →
        ArePlanned new × IsSameLink new newer }
{}
