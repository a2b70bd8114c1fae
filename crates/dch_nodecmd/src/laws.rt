ghost use Rattle.std.specs.Prelude.{◌++◌, ℕ, List, ◌∷◌};
ghost use Rattle.dch_lines.specs.LineTexts.{HandlesLines};
ghost use Rattle.dch_node.specs.Lines.{Line};
ghost use Rattle.dch_nodecmd.specs.NoTrace.{ChangesNothingAfter, LeavesNoTrace};
ghost use Rattle.dch_nodecmd.specs.Rules.{node_lines};
ghost use Rattle.dch_nodecmd.specs.Run.{Run};

use crate::node::CommandNode;

/// A law: a line that changes nothing where those before it lead leaves no trace. Without it the others of a run do the
/// same, and their text is the same, less the lines that answer it.
pub fn no_trace_law<N: CommandNode>()
    ensures { (run new : Run N.State N.Event) (before after : List (List ℕ)) (line text : List ℕ) (lines : List Line) →
        ChangesNothingAfter N.rules run before line lines →
        HandlesLines (node_lines N.rules) run (before ++ line ∷ after) new text →
        LeavesNoTrace N.rules run new before after lines text }
{}
