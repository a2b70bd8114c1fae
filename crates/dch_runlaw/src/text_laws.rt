ghost use Rattle.std.specs.Prelude.{◌++◌, ℕ, List, Bool};
ghost use Rattle.dch_accept.specs.Plans.{Planned};
ghost use Rattle.dch_config.specs.Good.{IsGood};
ghost use Rattle.dch_linkcmd.specs.LinkLink.{LinkState, opened_link};
ghost use Rattle.dch_runlaw.specs.Parts.{Begins, GoesOver};
ghost use Rattle.dch_runlaw.specs.Runs.{Event, Runs};
ghost use Rattle.dch_node.specs.Lines.{Line};
ghost use Rattle.dch_script.specs.LineText.{text_of};
ghost use Rattle.dch_lines.specs.Shown.{shown};
ghost use Rattle.dch_runlaw.specs.TextTold.{IsRead, IsTold, ShowsUnits, TellsFalse};

/// A law: of the lines of a run, those on units and PDUs of a bearer that went up are just those that the network
/// controller has reported on the bearer meanwhile, and those on what went down the terminal's. The configurations
/// stay. Where bearers and channels are as few as in a good configuration, the bearers of units in lines, and the
/// channels in lines that blocks differ, have numbers below 2 ^ 64.
pub fn told_law()
    ensures { (old : LinkState) (events : List Event) (new : LinkState) (lines : List Line) →
        Runs old events new lines → IsTold old new lines }
{}

/// A law: the text of a run of a good configuration consists of whole rows, and its rows that begin with `got up B ` or
/// `got down B ` are just those of the lines on which the network controller, or the terminal, hands up units of bearer
/// B, in order.
pub fn read_law()
    ensures { (planned : Planned) (first : ℕ) (events : List Event) (new : LinkState) (lines : List Line) →
        Runs (opened_link planned first) events new lines → IsGood planned.config → IsRead new (text_of lines) }
{}

/// A law: so it is where the rows of frames are left out, since these hand up no unit, and where a second configuration
/// becomes active behind a first part of the run.
pub fn shown_read_law()
    ensures same { (quiet : Bool) (lines : List Line) → ShowsUnits quiet lines }
    ensures read { (quiet : Bool) (planned : Planned) (first : ℕ) (events : List Event) (new : LinkState)
        (lines : List Line) → Runs (opened_link planned first) events new lines → IsGood planned.config →
        IsRead new (shown quiet (text_of lines)) }
    ensures over { (quiet : Bool) (planned second : Planned) (first : ℕ) (before after : List Event)
        (start new : LinkState) (early late : List Line) → GoesOver planned second first before early start →
        Runs start after new late →
        IsGood planned.config → IsGood second.config → IsRead new (shown quiet (text_of (early ++ late))) }
{}

/// A law: the rows `false up I` and `false down I` of what is shown of a part of a run, in a good configuration, are
/// just those of the lines that tell of channel I that its blocks differ. So such a row is shown just where there is
/// the line.
pub fn false_law()
    ensures { (quiet : Bool) (planned : Planned) (events : List Event) (start new : LinkState) (lines : List Line) →
        Runs start events new lines → IsGood planned.config → Begins planned start →
        TellsFalse lines (shown quiet (text_of lines)) }
{}
