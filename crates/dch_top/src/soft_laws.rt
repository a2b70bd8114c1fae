ghost use Rattle.std.specs.Prelude.{ℕ, Bool};
ghost use Rattle.dch_io.specs.Ends.{End};
ghost use Rattle.dch_top.specs.Benches.{Nodes};
ghost use Rattle.dch_top.specs.Parses.{AreLegs};
ghost use Rattle.dch_top.specs.SoftRuns.{RunsSoft};
ghost use Rattle.dch_top.specs.SoftUnits.{CarriesHandover};
ghost use Rattle.dch_check.specs.declared.status.Status.TheVariants.{Ok};

/// A law of `soft`. Where a run answers 0 its lines led the terminal, the Node Bs of the legs and the network
/// controller through a run, of which the text is shown, whatever damage came on any leg. A TTI of which one leg gets
/// all as it was sent, or with little damage, and whose Iub frame of that leg arrives as it was sent, while no other
/// leg has another block as good, is taken by the network controller just as it was given. And where after each event
/// at the two ends both channels of an acknowledged bearer are faithful, the rows of the text are just the units that a
/// history of its two ends hands up.
pub fn soft_law()
    ensures { (legs start : ℕ) (quiet : Bool) (source sink : End) (nodes : Nodes) → AreLegs legs →
        RunsSoft legs start quiet source sink nodes Ok → CarriesHandover legs start quiet source sink }
{}
