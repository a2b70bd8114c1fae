ghost use Rattle.std.specs.Prelude.{◌≡◌, ℕ, List, is_some};
ghost use Rattle.dch_am.specs.Rules.{Rules};
ghost use Rattle.dch_reset.specs.Ends.{ResetEnd as End, Sent, builds, hears, offers, opened_reset_end, resets, ticks};
ghost use Rattle.dch_reset.specs.Law.{answers_outside};
ghost use Rattle.dch_reset.specs.Answers.{answer};
ghost use Rattle.dch_reset.specs.History.{IsAllHanded, handed_up, is_outside, pdu_sent, state_of};
ghost use Rattle.dch_reset.specs.State.{Build, Come, Offer, Reset, Tick, opened_state, step, turn, writes};

/// A law: what each call does to what an end keeps is what its event does to the end of a history. So the law over all
/// histories of two ends holds of ends that run: something is due where the history builds something, what comes is
/// taken with its units handed up at once, and a PDU is answered as outside just where it is in the history.
pub fn calls_law()
    ensures opens { (rules : Rules) (octets : ℕ) → state_of (opened_reset_end rules octets) ≡ opened_state rules }
    ensures offers { (rules : Rules) (e : End) (unit : List ℕ) →
        state_of (offers rules e unit) ≡ step rules e.sides.octets (state_of e) (Offer unit) }
    ensures ticks { (rules : Rules) (e : End) → state_of (ticks rules e) ≡ step rules e.sides.octets (state_of e) Tick }
    ensures resets { (rules : Rules) (e : End) → state_of (resets e) ≡ step rules e.sides.octets (state_of e) Reset }
    ensures builds { (rules : Rules) (e : End) → state_of (builds rules e).after ≡
        step rules e.sides.octets (state_of e) Build }
    ensures due { (rules : Rules) (e : End) → is_some (builds rules e).sent ≡ writes (turn rules (state_of e)) }
    ensures receives { (rules : Rules) (e : End) (s : Sent) → IsAllHanded (state_of e) →
        state_of (hears rules e s) ≡ handed_up (step rules e.sides.octets (state_of e) (Come (pdu_sent s))) }
    ensures answers { (rules : Rules) (e : End) (s : Sent) →
        is_outside (answer rules (state_of e) (pdu_sent s)) ≡ answers_outside rules e s }
{}
