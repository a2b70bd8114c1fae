ghost use Rattle.std.specs.Prelude.{◌≡◌, ◌+◌, ◌<◌, ◌≤◌, ℕ, false, IfSome, drop, length};
ghost use Rattle.dch_am.specs.Cuts.{IsCut};
ghost use Rattle.dch_am.specs.Building.{body_at};
ghost use Rattle.dch_am.specs.Discards.{discards};
ghost use Rattle.dch_am.specs.Rules.{Rules, rules_of};
ghost use Rattle.dch_am.specs.Sender.{Sender, vt_a};
ghost use Rattle.dch_retx.specs.Flights.{at, first_requested};
ghost use Rattle.dch_amsend.specs.DiscardStanding.{DiscardStands};
ghost use Rattle.dch_retx.specs.Standing.{Stands as LineStands};
ghost use Rattle.dch_amsend.specs.BufferStanding.{HasBody};
ghost use Rattle.dch_amsend.specs.Scanning.{ends_below, first_place, found_from, is_next_old, is_old, next_place, overdue, requested_place};
ghost use Rattle.dch_amsend.specs.Discarding.{discarded_by};

use crate::discard::SduDiscard;
use crate::outgoing::Outgoing;
use crate::scan::{Overdue, Scan, after_pdu, is_old};
use dch_retx::RetxBuffer;
use dch_types::AmRules;

/// The last SDU that can be discarded: it is held and was not discarded yet, its length indicator is built in a PDU in
/// flight with a place of four bits, and it is old enough or a PDU with octets of it was requested after it was built
/// often enough.
pub fn overdue(outgoing: &Outgoing, held: &SduDiscard, rules: &AmRules) -> Option<Overdue>
    ensures within { IfSome result (λ o. (o.place < length outgoing.now.line.in_flight) ×
        (o.sdu < length held.now.ages) × (o.indicator < 16) × (held.now.passed ≤ o.sdu)) }
    ensures history { (r : Rules) (buffer d : ℕ) (s : Sender) → r ≡ rules_of buffer rules.now →
        LineStands r outgoing.now.line s → DiscardStands r held.now s → IsCut s.accepted s.unsent s.bodies →
        ((i : ℕ) → i < length outgoing.now.line.in_flight →
        HasBody d (at outgoing.now.line.in_flight i) (body_at s.bodies (vt_a s + i))) →
        discards r s (length s.accepted) ≡ discarded_by result s }
{
    last(outgoing, held, *rules)
}

/// The same, by places.
fn last(outgoing: &Outgoing, held: &SduDiscard, rules: AmRules) -> Option<Overdue>
    ensures value { result ≡ overdue rules held.now outgoing.now.line.in_flight }
    ensures small { (rules.discard_age ≤ 65535) × (rules.discard_sent ≤ 255) }
{
    if held.passed() >= outgoing.ended() as usize {
        return None;
    }
    let first = first_place(outgoing, held, &rules);
    last_from(first, outgoing, held, &rules)
}

/// The same, where none is found before a place. The pass begins there.
fn last_from(first: u16, outgoing: &Outgoing, held: &SduDiscard, rules: &AmRules) -> Option<Overdue>
    requires inside { first ≤ length outgoing.now.line.in_flight }
    requires requested { 0 < rules.now.discard_sent → first ≤ first_requested outgoing.now.line.in_flight }
    requires young { (i : ℕ) → held.now.passed ≤ i → i < ends_below first outgoing.now.line.in_flight →
        is_old rules.now held.now i ≡ false }
    ensures { result ≡ overdue rules.now held.now outgoing.now.line.in_flight }
{
    let line = outgoing.line();
    let mut scan = Scan {
        sdu: 0,
        begun: false,
        found: None,
    };
    let mut place = first;
    while place < line.len() as u16 {
        scan.sdu = outgoing.ended_before(place) as usize;
        scan = after_pdu(held, rules, &line.at(place), place, scan);
        place = next_place(outgoing, held, rules, place + 1, &scan);
    }
    scan.found
}

/// Where the pass goes on: at the next PDU while an SDU goes on that began in a requested one, or where the next SDU is
/// old enough; at the next requested one otherwise. None that is passed over has an SDU that can be discarded.
fn next_place(
    outgoing: &Outgoing,
    held: &SduDiscard,
    rules: &AmRules,
    place: u16,
    scan: &Scan,
) -> u16
    requires inside { place ≤ length outgoing.now.line.in_flight }
    requires sdu { scan.now.sdu ≡ ends_below place outgoing.now.line.in_flight }
    ensures place { result ≡ next_place rules.now held.now place outgoing.now.line.in_flight scan.now }
    ensures from { place ≤ result }
    ensures within { result ≤ length outgoing.now.line.in_flight }
    ensures same { found_from rules.now held.now place outgoing.now.line.in_flight scan.now ≡
        found_from rules.now held.now result outgoing.now.line.in_flight scan.now }
{
    if scan.begun || is_next_old(held, rules, scan.sdu) {
        return place;
    }
    requested_place(outgoing.line(), rules, place)
}

/// Where the pass begins: at the first PDU in flight where the first SDU that was not discarded is old enough, since
/// those before it left with their PDUs or end in this one; at the first requested PDU otherwise.
fn first_place(outgoing: &Outgoing, held: &SduDiscard, rules: &AmRules) -> u16
    ensures place { result ≡ first_place rules.now held.now outgoing.now.line.in_flight }
    ensures within { result ≤ length outgoing.now.line.in_flight }
    ensures requested { 0 < rules.now.discard_sent → result ≤ first_requested outgoing.now.line.in_flight }
    ensures young { (i : ℕ) → held.now.passed ≤ i → i < ends_below result outgoing.now.line.in_flight →
        is_old rules.now held.now i ≡ false }
{
    if is_next_old(held, rules, held.passed()) {
        return 0;
    }
    requested_place(outgoing.line(), rules, 0)
}

/// The place of the first requested PDU from a place on, where one that was built often enough is discarded, or the
/// end.
fn requested_place(line: &RetxBuffer, rules: &AmRules, place: u16) -> u16
    requires { place ≤ length line.now.in_flight }
    ensures place { result ≡ requested_place rules.now place line.now.in_flight }
    ensures from { place ≤ result }
    ensures within { result ≤ length line.now.in_flight }
    ensures before { 0 < rules.now.discard_sent → result ≡ place + first_requested (drop place line.now.in_flight) }
{
    if rules.discard_sent > 0 {
        line.requested_from(place)
    } else {
        line.len() as u16
    }
}

/// The SDU behind so many others is held and old enough. Where it isn't, none behind it is.
fn is_next_old(held: &SduDiscard, rules: &AmRules, sdu: usize) -> bool
    ensures value { result ≡ is_next_old rules.now held.now sdu }
    ensures behind { result ≡ false → (i : ℕ) → sdu ≤ i → is_old rules.now held.now i ≡ false }
{
    sdu < held.len() && is_old(held, rules, sdu)
}
