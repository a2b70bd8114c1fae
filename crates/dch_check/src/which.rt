ghost use Rattle.std.specs.Prelude.{◌≡◌};
ghost use Rattle.dch_check.specs.Refusals.{which_word};

/// Which configuration of an input a refusal is about.
#[derive(Clone, Copy)]
pub enum Which {
    /// The first one, or the only one.
    First,
    /// The one that follows it at a radio frame.
    Second,
}

/// What stands behind the number of a refusal.
pub fn which_word(which: Which) -> &'static str
    ensures { result.now ≡ which_word which }
{
    match which {
        Which::First => "",
        Which::Second => " second",
    }
}
