ghost use Rattle.std.specs.Prelude.{◌≤◌, ℕ, List};
ghost use Rattle.dch_am.specs.Rules.{Rules};
ghost use Rattle.dch_amlaw.specs.Listed.{IsListedPair};
ghost use Rattle.dch_amlaw.specs.Pair.{At, opened, after};

/// A law. Two ends are opened with the same rules, each with PDUs of its own size, of 3 octets or more. Units are
/// offered, blocks are built, delivered and lost, and time passes at either end, in any order and as often as one
/// likes.
///
/// Then, in both directions, the PDUs that were built are those of the list of PDUs of the accepted units, and each
/// data PDU in flight, sent for the first time or again, has indicators and octets of the PDU of its number there.
pub fn listed_law()
    ensures { (rules : Rules) (first second : ℕ) (events : List At) →
        rules.window ≤ 2048 → 3 ≤ first → 3 ≤ second → IsListedPair (after rules (opened rules first second) events) }
{}
