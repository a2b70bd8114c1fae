ghost use Rattle.std.specs.Prelude.{◌≡◌, ◌+◌, ◌-◌, ◌<◌, ◌≤◌, ℕ, Bool, IsFalse, IsTrue, None, Ok, length};
ghost use Rattle.dch_am.specs.Bodies.{Body, TxQueue, carried, indicators_of, next_body};
ghost use Rattle.dch_am.specs.Cuts.{AllFull};
ghost use Rattle.dch_am.specs.Short.{IsShort};
ghost use Rattle.dch_rlcpdu.specs.declared.am.AmView.TheVariants.{Payload};
ghost use Rattle.dch_rlcpdu.specs.declared.indicators.Mode.TheVariants.{Acknowledged};
ghost use Rattle.dch_rlcpdu.specs.Am.{am_pdu, am_reading};
ghost use Rattle.dch_rlcpdu.specs.Body.{fills};
ghost use Rattle.dch_rlcpdu.specs.Indicators.{are_indicators};
ghost use Rattle.dch_rlcpdu.specs.Parts.{has_status};
ghost use Rattle.dch_am.specs.Contents.{body_in};
ghost use Rattle.dch_txbuf.specs.Content.{content_of};

/// A law: a data PDU of at most 126 octets, of which `d` stand behind its header, is read as just the body that its
/// sender gave it.
pub fn payload_law()
    // what a sender builds says all that it holds
    ensures short { (d : ℕ) (q : TxQueue) → 1 ≤ d → AllFull q.units → IsShort d (next_body d q) }
    // it may be written
    ensures room { (d : ℕ) (b : Body) → IsShort d b → length (indicators_of d b) + length (carried b) ≤ d }
    ensures indicators { (d : ℕ) (b : Body) → d ≤ 124 → IsShort d b →
        IsTrue (are_indicators Acknowledged (d - length (indicators_of d b)) (indicators_of d b)) }
    ensures alone { (d : ℕ) (b : Body) → d ≤ 124 → IsShort d b → IsFalse (has_status (indicators_of d b)) }
    ensures full { (d : ℕ) (b : Body) → d ≤ 124 → IsShort d b →
        IsTrue (fills (indicators_of d b) (length (carried b)) (d - length (indicators_of d b))) }
    // and is read as it was written
    ensures reads { (sn d : ℕ) (poll : Bool) (b : Body) → sn < 4096 → d ≤ 124 → IsShort d b →
        am_reading (am_pdu sn poll (indicators_of d b) (carried b) (d + 2)) ≡
        Ok (Payload sn poll (content_of d b) None) }
    ensures size { (d : ℕ) (b : Body) → IsShort d b →
        length (content_of d b).indicators + length (content_of d b).octets ≡ d }
    ensures body { (d : ℕ) (b : Body) → d ≤ 124 → IsShort d b → body_in (content_of d b) ≡ b }
{}
