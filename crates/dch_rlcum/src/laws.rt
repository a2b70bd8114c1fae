ghost use Rattle.std.specs.Prelude.{◌≡◌, ◌-◌, ◌≤◌, ℕ, List, Bool, true};
ghost use Rattle.dch_sar.specs.Pdus.{AreCuts, first_front, pdus};
ghost use Rattle.dch_rlcum.specs.Handing.{AreFewLost, AreRead, AreUnits, Sent, handed_up, known_units, sent_from};
ghost use Rattle.dch_rlcum.specs.History.{joined, sizes};
ghost use Rattle.dch_rlcum.specs.Received.{arrived_from, units_in};
ghost use Rattle.dch_rlcum.specs.Receiving.{opened};

/// A law: whichever PDUs of a sender arrive, a receiver hands up exactly the known units, in order, where fewer than
/// 128 successive PDUs are lost before each PDU that arrives.
pub fn known_units_law()
    ensures { (pdu : ℕ) (starts : Bool) (units : List (List ℕ)) (cuts : List ℕ) (arrives : ℕ → Bool) →
        3 ≤ pdu → pdu ≤ 125 → AreUnits units → AreCuts (pdu - 1) starts (sizes units) 0 first_front cuts →
        AreFewLost 0 (sent_from arrives 0 true (pdus (pdu - 1) starts (sizes units) cuts)) →
        handed_up pdu (joined units) 0 opened (sent_from arrives 0 true (pdus (pdu - 1) starts (sizes units) cuts))
        ≡ known_units (sent_from arrives 0 true (pdus (pdu - 1) starts (sizes units) cuts)) 0 units }
{}

/// A law: each PDU of a sender, as it is sent, is read as the PDU that the law above speaks of.
pub fn read_pdus_law()
    ensures { (pdu : ℕ) (starts : Bool) (units : List (List ℕ)) (cuts : List ℕ) →
        3 ≤ pdu → pdu ≤ 125 → AreUnits units → AreCuts (pdu - 1) starts (sizes units) 0 first_front cuts →
        AreRead pdu units 0 (pdus (pdu - 1) starts (sizes units) cuts) }
{}

/// A law: these are the units that end in the PDUs that arrive, of whatever list of PDUs.
pub fn arrived_units_law()
    ensures { (pdu : ℕ) (row : List ℕ) (xs : List Sent) →
        handed_up pdu row 0 opened xs ≡ units_in (arrived_from pdu row 0 xs) }
{}
