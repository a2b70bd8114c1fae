ghost use Rattle.dch_indication.specs.Lines.{Line};
ghost use Rattle.dch_indication.specs.Told.{line_of};

use crate::indication::Indication;

/// Whoever a node tells what happens.
pub trait Indications {
    /// What a line makes of it: how it stands before and after.
    ghost shows: { Self → Line → Self → Type 0 };

    /// Takes an indication.
    fn indicate(&mut self, it: Indication<'_>)
        ensures { shows self.old (line_of it.entry) self.new };
}
