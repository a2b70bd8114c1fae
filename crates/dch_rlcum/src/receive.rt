ghost use Rattle.std.specs.Prelude.{◌≡◌, ◌+◌, ◌<◌, ◌≤◌, ◌==◌, ◌++◌, ℕ, List, [], ◌∷◌, true, false, IfNone, IfOk, drop, length};
ghost use Rattle.dch_rlcpdu.specs.declared.um.UmView.{UmView};
ghost use Rattle.dch_rlcpdu.specs.Parts.{ends_of, parts_of};
ghost use Rattle.dch_rlcum.specs.Received.{IsReceiverOf, handed_after, units_in};
ghost use Rattle.dch_rlcum.specs.Receiving.{is_settled, opened, dropped, after_first, after_number, after_parts, after_pdu, after_unit, handed_of, written};

use dch_bits::NoMemory;
use dch_rlcpdu::{Body, Handed, UmView};
use dch_sar::Reassembler;
use std::alloc::Global;
use std::marker::Model;

/// The receiving side of an unacknowledged bearer. All memory is taken when it is opened.
#[derive(Drop)]
pub struct UmRecv {
    vr_us: u8,
    known: bool,
    units: Reassembler,
}

impl Model for UmRecv {
    ghost use Rattle.dch_rlcum.specs.Receiving.{Receiving};
    ghost use Rattle.dch_rlcum.specs.Stored.{receiving};

    ghost Value = { Receiving };

    ghost view = { λ r. receiving r.vr_us r.known r.units };
}

impl UmRecv {
    /// A receiver before its first PDU, whose number is then 0.
    pub fn open(alloc: Global) -> Result<UmRecv, NoMemory>
        ensures opened { IfOk result (λ receiver. receiver ≡ opened) }
        ensures history { IfOk result (λ receiver. IsReceiverOf [] 0 receiver) }
    {
        let units = Reassembler::open(alloc)?;
        Ok(UmRecv {
            vr_us: 0,
            known: true,
            units,
        })
    }

    /// No unit that ended waits.
    pub fn settled(&self) -> bool
        ensures settled { result ≡ is_settled self.now }
        ensures history { (pdus : List UmView) (handed : ℕ) → IsReceiverOf pdus handed self.now →
            result ≡ (handed == length (units_in pdus)) }
    {
        self.units.settled()
    }

    /// Takes a PDU of at most 125 octets. All units that ended before it have been handed up.
    pub fn pdu(&mut self, p: &UmView<'_>)
        requires settled { is_settled self.old ≡ true }
        requires number { p.now.sn < 128 }
        requires small { length p.now.body.indicators + length p.now.body.octets ≤ 124 }
        ensures after { self.new ≡ after_pdu p.now self.old }
        ensures history { (pdus : List UmView) (handed : ℕ) → IsReceiverOf pdus handed self.old →
            IsReceiverOf (pdus ++ p.now ∷ []) handed self.new }
    {
        self.take(p);
    }

    /// Takes it, by what waits.
    fn take(&mut self, p: &UmView<'_>)
        requires settled { is_settled self.old ≡ true }
        requires number { p.now.sn < 128 }
        requires small { length p.now.body.indicators + length p.now.body.octets ≤ 124 }
        ensures { self.new ≡ after_pdu p.now self.old }
    {
        if p.sn != self.vr_us {
            self.abandon(false);
        }
        self.take_body(&p.body);
        self.vr_us = (p.sn + 1) % 128;
    }

    /// Hands up the first unit that waits, at the front of `out`, which has 1,500 octets.
    pub fn next_unit(&mut self, out: &mut [u8]) -> Option<Handed>
        requires { length out.old ≡ 1500 }
        ensures answer { result ≡ handed_of self.old.waiting }
        ensures unit { out.new ≡ written self.old.waiting out.old }
        ensures rest { self.new ≡ after_unit self.old }
        ensures none { IfNone result (self.new ≡ self.old) }
        // it is the next of the units that ended in the PDUs that came
        ensures history { (pdus : List UmView) (handed : ℕ) → IsReceiverOf pdus handed self.old →
            IsReceiverOf pdus (handed_after result handed) self.new }
        ensures next { (pdus : List UmView) (handed : ℕ) → IsReceiverOf pdus handed self.old →
            result ≡ handed_of (drop handed (units_in pdus)) }
        ensures octets { (pdus : List UmView) (handed : ℕ) → IsReceiverOf pdus handed self.old →
            out.new ≡ written (drop handed (units_in pdus)) out.old }
    {
        self.hand_up(out)
    }

    /// Hands it up, by what waits.
    fn hand_up(&mut self, out: &mut [u8]) -> Option<Handed>
        requires { length out.old ≡ 1500 }
        ensures answer { result ≡ handed_of self.old.waiting }
        ensures unit { out.new ≡ written self.old.waiting out.old }
        ensures rest { self.new ≡ after_unit self.old }
    {
        self.units.next_unit(out)
    }

    /// Takes what a PDU carries: octets of units whose start is known.
    fn take_body(&mut self, body: &Body<'_>)
        requires settled { is_settled self.old ≡ true }
        requires small { length body.now.indicators + length body.now.octets ≤ 124 }
        ensures { self.new ≡ after_parts (parts_of body.now) (after_first body.now.indicators self.old) }
    {
        if body.starts() {
            self.begin(0, body);
        } else if self.known {
            self.units.take(body.previous_full(), 0, body);
        } else if body.previous_full() {
            self.begin(0, body);
        } else if body.ends() > 0 {
            self.begin(1, body);
        }
    }

    /// Takes what stands behind so many ends, where a unit starts. The unit in progress is dropped.
    fn begin(&mut self, dead: usize, body: &Body<'_>)
        requires settled { is_settled self.old ≡ true }
        requires dead { dead ≤ length (ends_of body.now.indicators) }
        requires small { length body.now.indicators + length body.now.octets ≤ 124 }
        ensures { self.new ≡ after_parts (drop dead (parts_of body.now)) (dropped true self.old) }
    {
        self.abandon(true);
        self.units.take(false, dead, body);
    }

    /// Drops the unit in progress. The start of what follows is known or isn't.
    fn abandon(&mut self, known: bool)
        ensures { self.new ≡ dropped known self.old }
    {
        self.units.abandon();
        self.known = known;
    }
}
