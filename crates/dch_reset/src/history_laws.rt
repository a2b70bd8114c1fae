ghost use Rattle.std.specs.Prelude.{◌≤◌, ℕ, List};
ghost use Rattle.dch_am.specs.Rules.{Rules};
ghost use Rattle.dch_reset.specs.Ends.{At, opened, after};
ghost use Rattle.dch_reset.specs.Law.{AreShort, IsSafe, handed};

/// A law. Two ends are opened with the same rules, each with PDUs of its own size; units are offered, blocks are built,
/// delivered and lost, time passes and resets begin at either end, in any order and as often as one likes. Blocks of
/// one direction stay in order.
///
/// Then, in both directions: all that an end took between two of its restarts was built by the other end between the
/// same two of its own; handed up in that time are, in order and each once, the units that the other end then held or
/// accepted whose length indicator lay below the first missing PDU, less the discarded ones; all that is handed up is,
/// in order and each at most once, some of the accepted units; a unit that is passed over had an octet built before a
/// restart of its sender or was discarded; no block is answered Outside; no end is more than one restart ahead of the
/// other; and no unit that is handed up is longer than 1,500 octets.
pub fn reset_law()
    ensures safe { (rules : Rules) (first second : ℕ) (events : List At) → rules.window ≤ 2048 →
        IsSafe rules (after rules (opened rules first second) events) }
    ensures short_near { (rules : Rules) (first second : ℕ) (events : List At) → rules.window ≤ 2048 →
        AreShort (handed (after rules (opened rules first second) events).near) }
    ensures short_far { (rules : Rules) (first second : ℕ) (events : List At) → rules.window ≤ 2048 →
        AreShort (handed (after rules (opened rules first second) events).far) }
{}
