ghost use Rattle.std.specs.Prelude.{◌≡◌, ℕ, List, Bool, Option, IfSome};
ghost use Rattle.dch_accept.specs.Plans.{IsPlanned, Planned};
ghost use Rattle.dch_lines.specs.LineTexts.{HandlesLines};
ghost use Rattle.dch_linkcmd.specs.Rules.{link_lines};
ghost use Rattle.dch_linkcmd.specs.Run.{Run, opened_run};
ghost use Rattle.dch_linkcmd.specs.Same.{IsPlannedRun, IsSameRun};
ghost use Rattle.dch_lines.specs.declared.later.Later.{Later};

/// A law: a script of `link` has one text. From runs that say the same, lines that are handled lead to such runs and
/// add the same text, that of each radio frame and of the comparisons in it; and so a script that is run twice, for
/// configurations that can be accepted, gives the same text twice.
pub fn one_text_law()
    ensures lines { (old new older newer : Run) (lines : List (List ℕ)) (text more : List ℕ) →
        IsPlannedRun old → IsSameRun old older →
        HandlesLines link_lines old lines new text → HandlesLines link_lines older lines newer more →
        IsPlannedRun new × IsSameRun new newer × (more ≡ text) }
    ensures script { (began : Planned) (second : Option Later) (first : ℕ) (quiet : Bool) (new newer : Run)
        (lines : List (List ℕ)) (text more : List ℕ) →
        IsPlanned began → IfSome second (λ later. IsPlanned later.accepted) →
        HandlesLines link_lines (opened_run began second first quiet) lines new text →
        HandlesLines link_lines (opened_run began second first quiet) lines newer more → more ≡ text }
{}
