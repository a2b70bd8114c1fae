ghost use Rattle.std.specs.Prelude.{◌≤◌, ℕ, List};
ghost use Rattle.dch_am.specs.Rules.{Rules};
ghost use Rattle.dch_amlaw.specs.Pair.{At, opened, after};
ghost use Rattle.dch_amlaw.specs.Lossless.{AreWhole, NoneLost};

/// A law. Two ends are opened with the same rules, each with PDUs of its own size, and units are offered, blocks are
/// built and delivered, and time passes at either end, in any order and as often as one likes. Blocks of one direction
/// stay in order, and no block is lost.
///
/// Then, in both directions: what was sent before the blocks that are still in flight has arrived, and handed up are,
/// in order, just the accepted units whose length indicator lies there.
pub fn lossless_law()
    ensures { (rules : Rules) (first second : ℕ) (events : List At) → rules.window ≤ 2048 → NoneLost events →
        AreWhole (after rules (opened rules first second) events) }
{}
