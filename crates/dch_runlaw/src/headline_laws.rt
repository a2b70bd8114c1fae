ghost use Rattle.std.specs.Prelude.{◌≡◌, ◌%◌, Bool, ℕ, List, Option, IfSome};
ghost use Rattle.dch_accept.specs.Plans.{IsPlanned, Planned};
ghost use Rattle.dch_lines.specs.LineTexts.{HandlesLines};
ghost use Rattle.dch_linkcmd.specs.Rules.{link_lines};
ghost use Rattle.dch_linkcmd.specs.Run.{Run, opened_run};
ghost use Rattle.dch_lines.specs.declared.later.Later.{Later};
ghost use Rattle.dch_runlaw.specs.Headline.{Carries, IsLater};

/// A law: lines of `link` behind a configuration that keeps its limits, and maybe behind a second one that can follow
/// it, lead three nodes through a run, radio frame by radio frame, and the text that they add is that of its lines. The
/// run has one part, or two where the second configuration becomes active. Where no damage has an effect, no line tells
/// of trouble, and all is handed up that was sent whole in TTIs that have ended.
///
/// Whatever damage comes between the nodes: a TTI whose radio frames all arrive as they were sent is read just as it
/// was given, all blocks good. Where no row of the text of a part says of an acknowledged bearer's two channels in that
/// part that a block was taken as good that was not given, the rows that hand up its units are those of the accepted
/// units, in order, each once and whole, as far as they came without a gap, but for those that were discarded. Where
/// none says so of the channel of another bearer, they are, for an unacknowledged one, those of the units whose octets
/// and length indicator all came and whose start is known, where fewer than 128 successive PDUs were lost; and for a
/// transparent one those of the blocks that came, some of the accepted units, in order, each at most once. What was in
/// flight at the change is lost.
pub fn headline_law()
    ensures { (planned : Planned) (second : Option Later) (first : ℕ) (quiet : Bool) (script : List (List ℕ))
        (new : Run) (text : List ℕ) → IsPlanned planned → IfSome second (IsLater planned) → first % 8 ≡ 0 →
        HandlesLines link_lines (opened_run planned second first quiet) script new text →
        Carries planned second first quiet script text }
{}
