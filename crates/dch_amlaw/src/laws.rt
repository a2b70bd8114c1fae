ghost use Rattle.std.specs.Prelude.{◌≤◌, ℕ, List};
ghost use Rattle.dch_am.specs.Rules.{Rules};
ghost use Rattle.dch_amlaw.specs.Pair.{At, opened, after, IsSafe};

/// A law. Two ends are opened with the same rules, each with PDUs of its own size, and units are offered, blocks are
/// built, delivered and lost, and time passes at either end, in any order and as often as one likes. Blocks of one
/// direction stay in order.
///
/// Then, in both directions: no number that is acknowledged has not arrived, unless an MRW passed it; the sender is
/// never more than a window ahead of it; handed up are, in order and each once, those accepted units whose length
/// indicator lay below the first missing PDU at a moment when no MRW had passed them; each accepted unit whose length
/// indicator lies below it is handed up or was discarded; and no block is answered Outside.
pub fn in_order_law()
    ensures { (rules : Rules) (first second : ℕ) (events : List At) → rules.window ≤ 2048 →
        IsSafe rules (after rules (opened rules first second) events) }
{}
