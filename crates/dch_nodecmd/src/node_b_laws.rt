ghost use Rattle.std.specs.Prelude.{◌++◌, ℕ, List, [], ◌∷◌};
ghost use Rattle.dch_types.specs.declared.channel.Dir.TheVariants.{Down};
ghost use Rattle.dch_iub.specs.declared.error.IubError.{IubError};
ghost use Rattle.dch_lines.specs.LineTexts.{HandlesLines};
ghost use Rattle.dch_node.specs.IubFrames.{refusal_number};
ghost use Rattle.dch_node.specs.Lines.{IubBad};
ghost use Rattle.dch_nodeb.specs.State.{Event, State};
ghost use Rattle.dch_nodecmd.specs.NodeBNoTrace.{BringsRefusedAfter};
ghost use Rattle.dch_nodecmd.specs.NodeBRules.{node_b_lines, node_b_rules};
ghost use Rattle.dch_nodecmd.specs.NoTrace.{LeavesNoTrace};
ghost use Rattle.dch_nodecmd.specs.Run.{Run};

/// A law: an Iub frame that is refused where the lines before it lead leaves no trace. Without its line the others of a
/// run do the same, and their text is the same, less the line that tells of the refusal.
pub fn no_trace_law()
    ensures { (run new : Run State Event) (before after : List (List ℕ)) (line text : List ℕ) (set : ℕ)
        (error : IubError) → BringsRefusedAfter run before line set error →
        HandlesLines node_b_lines run (before ++ line ∷ after) new text →
        LeavesNoTrace node_b_rules run new before after (IubBad Down set (refusal_number error) ∷ []) text }
{}
