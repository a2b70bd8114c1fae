ghost use Rattle.std.specs.Prelude.{◌≡◌, ◌≤◌, List, ℕ, Ok, length};
ghost use Rattle.dch_am.specs.Entities.{pdu_of, receiver_by};
ghost use Rattle.dch_am.specs.Receiver.{Receiver, opened_receiver};
ghost use Rattle.dch_am.specs.Rules.{Rules};
ghost use Rattle.dch_rlcpdu.specs.Am.{am_reading};
ghost use Rattle.dch_rlcpdu.specs.declared.am.AmView.{AmView};
ghost use Rattle.dch_amlaw.specs.Bounded.{IsBoundedReceiver};

/// A law: what a receiver holds is limited at opening, and stays so whatever PDU of at most 126 octets comes (25.322,
/// 11.3.3).
pub fn bounded_law()
    ensures opened { (rules : Rules) → IsBoundedReceiver rules.window (opened_receiver rules) }
    ensures stays { (rules : Rules) (r : Receiver) (octets : List ℕ) (view : AmView) → length octets ≤ 126 →
        am_reading octets ≡ Ok view →
        IsBoundedReceiver rules.window r → IsBoundedReceiver rules.window (receiver_by rules (pdu_of view) r) }
{}
