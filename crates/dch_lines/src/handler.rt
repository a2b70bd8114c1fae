ghost use Rattle.std.specs.Prelude.{◌≡◌, ◌<◌, ◌≤◌, ◌+◌, ℕ, false, OnOk, IfErr};
ghost use Rattle.dch_io.specs.Pieces.{LIMIT};
ghost use Rattle.dch_lines.specs.Semantics.{Adds, Does, IsFault, Leads, RefusesLong, Semantics, StandsForOne};
ghost use Rattle.dch_lines.specs.LineTexts.{is_empty};

use crate::page::Page;
use crate::stop::LineFault;

/// A command's work with the lines of its input.
pub trait LineHandler {
    /// The states of the command between lines.
    ghost State: { Type 0 };

    /// What the lines do and say.
    ghost semantics: { Semantics State };

    /// The states that a handler stands for.
    ghost represents: { State → Self → Type 0 };

    /// What a handler keeps at any time.
    ghost stands: { Self → Type 0 };

    /// How many lines the handler has counted so far, at most one for each.
    ghost handled: { Self → ℕ };

    /// Does what a line says that isn't empty, and writes its text to the page. Once a write has failed, a line may be
    /// left off in its midst. After a fault the handler stands for the states that it stood for.
    fn handle_line<P: Page>(&mut self, line: &[u8], page: &mut P) -> Result<(), LineFault>
        requires stands { stands self.old }
        requires words { is_empty line.now ≡ false }
        requires few { handled self.old < LIMIT }
        ensures ok { OnOk result (Leads represents self.old self.new (λ old new. Adds P.writes (Does semantics (P.broken page.new) old line.now new) page.old page.new)) }
        ensures err { IfErr result (λ fault. (state : State) → represents state self.old →
            IsFault semantics state line.now fault × represents state self.new) }
        ensures same { IfErr result (λ _. page.new ≡ page.old) }
        ensures stands { stands self.new }
        ensures handled { handled self.new ≤ handled self.old + 1 };

    /// Writes the last line of the report, after so many lines that aren't empty.
    fn close<P: Page>(&self, nonempty_lines: u64, page: &mut P)
        requires stands { stands self.now }
        ensures text { (state : State) → represents state self.now →
            P.writes page.old (semantics.closing state nonempty_lines) page.new };

    /// A line that is too long is malformed.
    ghost overlong: { RefusesLong semantics };

    /// At any time a handler stands for a state.
    ghost stood: { StandsForOne stands represents };
}
