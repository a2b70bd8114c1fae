ghost use Rattle.std.specs.Prelude.{◌≤◌, ℕ, List};
ghost use Rattle.dch_lines.specs.LineTexts.{HandlesLines};
ghost use Rattle.dch_linkcmd.specs.SoftRules.{soft_lines};
ghost use Rattle.dch_linkcmd.specs.SoftRun.{Run};
ghost use Rattle.dch_runlaw.specs.SoftScripts.{IsAtRest, IsRunOf};

/// A law: the lines of a script of `soft` lead its nodes through a run of what they say: events between radio frames,
/// and radio frames, stage by stage. The text that is written is what is shown of the lines of the run, those of a leg
/// led by its number.
pub fn soft_script_law()
    ensures { (old : Run) (lines : List (List ℕ)) (new : Run) (text : List ℕ) → 1 ≤ old.soft.count → IsAtRest old →
        HandlesLines soft_lines old lines new text → IsRunOf old lines new text }
{}
