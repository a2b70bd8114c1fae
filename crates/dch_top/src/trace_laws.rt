ghost use Rattle.std.specs.Prelude.{ℕ, List, [], ◌∷◌, Bool};
ghost use Rattle.dch_io.specs.Ends.{End};
ghost use Rattle.dch_types.specs.declared.channel.Dir.TheVariants.{Down, Up};
ghost use Rattle.dch_node.specs.Lines.{IubBad};
ghost use Rattle.dch_nodecmd.specs.NodeBRules.{node_b_rules};
ghost use Rattle.dch_nodecmd.specs.RncRules.{rnc_rules};
ghost use Rattle.dch_top.specs.Benches.{Nodes};
ghost use Rattle.dch_top.specs.NodeRuns.{run_of};
ghost use Rattle.dch_top.specs.OneNode.{RunsNodeB, RunsRnc};
ghost use Rattle.dch_check.specs.declared.status.Status.TheVariants.{Ok};
ghost use Rattle.dch_top.specs.Traces.{Answers, HasLine, IsAnswer, IsAnsweredBad, LeavesNoTrace};

/// A law of `nodeb`. A run that answers 0 wrote the answer to the input that it took. And where a line of an input
/// brings an Iub frame and is answered by the line that says that it is refused, the input without this line is
/// answered by the same text, less the line that tells of the refusal.
pub fn node_b_trace_law()
    ensures answers { (start : ℕ) (quiet : Bool) (source sink : End) (nodes : Nodes) →
        RunsNodeB start quiet source sink nodes Ok → Answers node_b_rules start quiet source sink }
    ensures no_trace { (start : ℕ) (quiet : Bool) (input shorter written : List ℕ) (before after : List (List ℕ))
        (line : List ℕ) (set number : ℕ)
        → (answer : IsAnswer node_b_rules start quiet input written) → HasLine before line after input shorter
        → IsAnsweredBad node_b_rules Down (run_of node_b_rules start quiet answer.accepted) before line set number
        → LeavesNoTrace node_b_rules start quiet shorter (IubBad Down set number ∷ []) written }
{}

/// The same law of `rnc`.
pub fn rnc_trace_law()
    ensures answers { (start : ℕ) (quiet : Bool) (source sink : End) (nodes : Nodes) →
        RunsRnc start quiet source sink nodes Ok → Answers rnc_rules start quiet source sink }
    ensures no_trace { (start : ℕ) (quiet : Bool) (input shorter written : List ℕ) (before after : List (List ℕ))
        (line : List ℕ) (set number : ℕ)
        → (answer : IsAnswer rnc_rules start quiet input written) → HasLine before line after input shorter
        → IsAnsweredBad rnc_rules Up (run_of rnc_rules start quiet answer.accepted) before line set number
        → LeavesNoTrace rnc_rules start quiet shorter (IubBad Up set number ∷ []) written }
{}
