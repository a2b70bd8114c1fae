ghost use Rattle.std.specs.Prelude.{◌≡◌, ℕ, ◌+◌, ◌*◌, ◌<◌, ◌≤◌, false, length, true};
ghost use Rattle.dch_retx.specs.Flights.{ends_in};
ghost use Rattle.dch_amsend.specs.Scanning.{after_pdu, can_discard, indicator_of, is_often, is_old, last_in};

use crate::discard::SduDiscard;
use dch_retx::SentPdu;
use dch_types::AmRules;

/// An SDU that is discarded: its place among the SDUs that are held, its PDU's place among those in flight, and the
/// place of its length indicator there, 0 to 15.
#[derive(Clone, Copy)]
pub struct Overdue {
    pub sdu: u16,
    pub place: u16,
    pub indicator: u8,
}

/// How far a pass over the PDUs in flight has come.
#[derive(Clone, Copy)]
pub struct Scan {
    /// How many SDUs end in them.
    pub sdu: usize,
    /// The next of them began in a PDU that was requested after it was built often enough.
    pub begun: bool,
    /// The last that can be discarded.
    pub found: Option<Overdue>,
}

/// The pass goes over one more PDU. At most 256 SDUs end in each of 2048 of them, behind 65,535 others.
pub fn after_pdu(held: &SduDiscard, rules: &AmRules, pdu: &SentPdu, place: u16, scan: Scan) -> Scan
    requires { scan.sdu ≤ 65535 + 256 * 2048 }
    ensures { result ≡ after_pdu rules.now held.now place pdu.now scan }
{
    let often = is_often(rules, pdu);
    let found = last_in(held, rules, pdu, place, scan);
    let begun = often && pdu.continues() || pdu.ends() == 0 && scan.begun;
    Scan {
        sdu: scan.sdu + pdu.ends() as usize,
        begun,
        found,
    }
}

/// A PDU is requested and was built often enough.
fn is_often(rules: &AmRules, pdu: &SentPdu) -> bool
    ensures { result ≡ is_often rules.now pdu.now }
{
    rules.discard_sent > 0 && pdu.requested && pdu.builds >= rules.discard_sent
}

/// The last SDU that can be discarded, up to those that end in a PDU.
fn last_in(
    held: &SduDiscard,
    rules: &AmRules,
    pdu: &SentPdu,
    place: u16,
    scan: Scan,
) -> Option<Overdue>
    requires { scan.sdu ≤ 65535 + 256 * 2048 }
    ensures { result ≡ last_in rules.now held.now place pdu.now scan (ends_in pdu.now) }
{
    let mut found = scan.found;
    for j in 0..pdu.ends() {
        if can_discard(held, rules, pdu, scan, j) {
            found = Some(Overdue {
                sdu: (scan.sdu + j as usize) as u16,
                place,
                indicator: indicator_of(pdu, j) as u8,
            });
        }
    }
    found
}

/// One of the SDUs that end in a PDU can be discarded.
fn can_discard(held: &SduDiscard, rules: &AmRules, pdu: &SentPdu, scan: Scan, j: u16) -> bool
    requires { scan.sdu ≤ 65535 + 256 * 2048 }
    ensures answer { result ≡ can_discard rules.now held.now pdu.now scan j }
    ensures small { result ≡ true → (scan.sdu + j < 65535) × (indicator_of pdu.now j ≤ 15) }
{
    let sdu = scan.sdu + j as usize;
    if sdu >= held.len() || sdu < held.passed() || indicator_of(pdu, j) > 15 {
        return false;
    }
    is_old(held, rules, sdu) || is_often(rules, pdu) || j == 0 && scan.begun
}

/// An SDU is old enough. Where it isn't, none behind it is.
pub fn is_old(held: &SduDiscard, rules: &AmRules, sdu: usize) -> bool
    requires { sdu < length held.now.ages }
    ensures value { result ≡ is_old rules.now held.now sdu }
    ensures behind { result ≡ false → (i : ℕ) → sdu ≤ i → is_old rules.now held.now i ≡ false }
{
    rules.discard_age > 0 && held.age(sdu) >= rules.discard_age
}

/// The place of the length indicator of the SDU that ends in a PDU behind so many others.
fn indicator_of(pdu: &SentPdu, j: u16) -> u16
    requires { j < 65535 }
    ensures { result ≡ indicator_of pdu.now j }
{
    if pdu.full && j == 0 { 0 } else { j + 1 }
}
