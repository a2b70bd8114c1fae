ghost use Rattle.std.specs.Prelude.{◌≡◌, ◌≢◌, ◌+◌, ◌-◌, ◌<◌, ◌≤◌, ◌&&◌, ◌||◌, ◌∷◌, ℕ, is_some, true, IfOk, IfSome, Some, length, nat_lt};
ghost use Rattle.dch_retx.specs.Flights.{at};
ghost use Rattle.dch_bits.specs.declared.offer.Offer.TheVariants.{Accepted};
ghost use Rattle.dch_am.specs.declared.answers.StatusTaken.TheVariants.{Taken};
ghost use Rattle.dch_am.specs.Acknowledging.{after_fields, status_answer};
ghost use Rattle.dch_am.specs.Building.{after_build, after_choice, available, body_of_choice, choice, gives, New};
ghost use Rattle.dch_am.specs.Bodies.{is_left, next_body};
ghost use Rattle.dch_am.specs.Discards.{after_mrw, discards_at, mrw_due};
ghost use Rattle.dch_am.specs.Numbers.{wrapped};
ghost use Rattle.dch_am.specs.Restart.{restarted_sender};
ghost use Rattle.dch_am.specs.Rules.{Rules, rules_of};
ghost use Rattle.dch_am.specs.Sender.{Discard, Sender, after_offer, vt_a, offered, opened_sender};
ghost use Rattle.dch_am.specs.Short.{IsShort};
ghost use Rattle.dch_retx.specs.RetxBuffer.{is_due, number_at};
ghost use Rattle.dch_retx.specs.Polling.{again_line, again_poll, last_line, last_poll};
ghost use Rattle.dch_retx.specs.Standing.{timed};
ghost use Rattle.dch_rlcpdu.specs.Fields.{mrw_fields};
ghost use Rattle.dch_rlcpdu.specs.Reading.{status_of};
ghost use Rattle.dch_rlcpdu.specs.Writing.{IsText, mrw_text};
ghost use Rattle.dch_am.specs.Texts.{next_pdu, pdu_of_choice};
ghost use Rattle.dch_amsend.specs.TxBuffer.{unsent_of};
ghost use Rattle.dch_amsend.specs.Scanning.{ends_below};
ghost use Rattle.dch_amsend.specs.Outgoing.{IsLast, IsOutgoing, available_of, can_build, HoldsSame, first_in_flight, pdu_in, with_line};

use crate::tx_buffer::TxBuffer;
use dch_am::StatusTaken;
use dch_bits::{NoMemory, Offer};
use dch_retx::{Pick, RetxBuffer, SentPdu};
use dch_rlcpdu::{StatusView, write_mrw};
use dch_txbuf::MOST_PDUS;
use dch_types::AmRules;
use std::alloc::Global;
use std::marker::Model;

/// What a sender has sent, and the units that wait to be sent.
#[derive(Drop)]
pub struct Outgoing {
    line: RetxBuffer,
    tx_buffer: TxBuffer,
    size: usize,
}

impl Model for Outgoing {
    ghost use Rattle.dch_amsend.specs.Scanning.{ends_below};
    ghost use Rattle.dch_amsend.specs.Outgoing.{IsRunning, Outgoing};

    ghost Value = { Outgoing };

    ghost view = { λ v. record { size = v.size; line = v.line; tx_buffer = v.tx_buffer } };

    ghost invariant = { λ v. IsRunning (record { size = v.size; line = v.line; tx_buffer = v.tx_buffer }) };
}

impl Outgoing {
    /// Nothing is sent, and nothing waits. PDUs have `pdu` octets, 6 to 126. All memory is taken here.
    pub fn open(
        alloc: Global,
        pdu: usize,
        buffer: u16,
        rules: AmRules,
    ) -> Result<Outgoing, NoMemory>
        requires from { 6 ≤ pdu }
        requires most { pdu ≤ 126 }
        requires window { rules.window ≤ 2048 }
        ensures size { IfOk result (λ v. v.size ≡ pdu) }
        ensures none { IfOk result (λ v. length v.tx_buffer.sdus ≡ 0) }
        ensures blocks { IfOk result (λ v. v.tx_buffer.blocks ≡ buffer) }
        ensures history { IfOk result (λ v. IsOutgoing (rules_of buffer rules) (pdu - 2) v opened_sender) }
    {
        let line = RetxBuffer::open(alloc, buffer, rules)?;
        let tx_buffer = TxBuffer::open(alloc, pdu, buffer)?;
        Ok(Outgoing {
            line,
            tx_buffer,
            size: pdu,
        })
    }

    /// Offers an SDU, which is accepted where it has 1 to 1,500 octets and its blocks find room.
    pub fn offer(&mut self, unit: &[u8]) -> Offer
        ensures size { self.new.size ≡ self.old.size }
        ensures blocks { self.new.tx_buffer.blocks ≡ self.old.tx_buffer.blocks }
        ensures refused { result ≢ Accepted → self.new ≡ self.old }
        ensures accepted { result ≡ Accepted → length self.new.tx_buffer.sdus ≡ length self.old.tx_buffer.sdus + 1 }
        ensures room { result ≡ Accepted → length self.old.tx_buffer.sdus < self.old.tx_buffer.blocks }
        ensures history { (rules : Rules) (d : ℕ) (s : Sender) → IsOutgoing rules d self.old s →
            (result ≡ offered rules s unit.now) × IsOutgoing rules d self.new (after_offer result s unit.now) }
    {
        self.tx_buffer.offer(unit)
    }

    /// How many PDUs could be built one after another, at most 64.
    pub fn available(&self) -> u16
        ensures value { result ≡ available_of self.now }
        ensures history { (rules : Rules) (d : ℕ) (s : Sender) → IsOutgoing rules d self.now s →
            result ≡ available rules d s }
    {
        self.count()
    }

    fn count(&self) -> u16
        ensures value { result ≡ available_of self.now }
    {
        let room = self.line.window() - self.line.len();
        let requested = self.line.requested(MOST_PDUS as usize);
        let fresh = room.min(self.tx_buffer.available() as usize);
        let builds = if requested + fresh > 0 {
            requested + fresh
        } else if self.line.is_owed() && self.line.len() > 0 {
            1
        } else {
            0
        };
        builds.min(MOST_PDUS as usize) as u16
    }

    /// A PDU can be built.
    pub fn is_due(&self) -> bool
        ensures value { result ≡ can_build self.now }
        ensures history { (rules : Rules) (d : ℕ) (s : Sender) → IsOutgoing rules d self.now s →
            result ≡ gives rules s }
    {
        self.can_build()
    }

    fn can_build(&self) -> bool
        ensures { result ≡ can_build self.now }
    {
        self.line.is_requested() || self.has_unrequested()
    }

    /// A PDU can be built that isn't requested: a new one, or the last one again.
    fn has_unrequested(&self) -> bool
        ensures { result ≡ ((nat_lt (length self.now.line.in_flight) self.now.line.window &&
            is_left (unsent_of self.now.tx_buffer)) || (self.now.line.owed &&
            nat_lt 0 (length self.now.line.in_flight))) }
    {
        self.has_new() || self.has_last()
    }

    /// A new PDU can be built: unsent matter is left, and the window has room.
    fn has_new(&self) -> bool
        ensures { result ≡ (nat_lt (length self.now.line.in_flight) self.now.line.window &&
            is_left (unsent_of self.now.tx_buffer)) }
    {
        self.line.len() < self.line.window() && self.tx_buffer.is_left()
    }

    /// The last PDU can be built again: a poll is owed.
    fn has_last(&self) -> bool
        ensures { result ≡ (self.now.line.owed && nat_lt 0 (length self.now.line.in_flight)) }
    {
        self.line.is_owed() && self.line.len() > 0
    }

    /// How many SDUs are held.
    pub fn sdus(&self) -> usize
        ensures { result ≡ length self.now.tx_buffer.sdus }
    {
        self.tx_buffer.len()
    }

    /// How many of the SDUs that are held end in a PDU in flight.
    pub fn ended(&self) -> u16
        ensures { result ≡ ends_below (length self.now.line.in_flight) self.now.line.in_flight }
    {
        self.tx_buffer.ended()
    }

    /// How many of the SDUs that are held end before the PDU in flight at a place.
    pub fn ended_before(&self, place: u16) -> u16
        requires { place < length self.now.line.in_flight }
        ensures value { result ≡ ends_below place self.now.line.in_flight }
        ensures small { result ≤ 65535 }
    {
        self.tx_buffer.ended_before(&self.line.at(place))
    }

    /// What was sent.
    pub fn line(&self) -> &RetxBuffer
        ensures { result.now ≡ self.now.line }
    {
        &self.line
    }

    /// Builds the next PDU.
    pub fn build(&mut self, out: &mut [u8])
        requires due { can_build self.old ≡ true }
        requires size { length out.old ≡ self.old.size }
        ensures size { self.new.size ≡ self.old.size }
        ensures same { HoldsSame self.old.tx_buffer self.new.tx_buffer }
        ensures history { (rules : Rules) (d : ℕ) (s : Sender) → IsOutgoing rules d self.old s →
            (out.new ≡ next_pdu rules d s) × IsOutgoing rules d self.new (after_build rules d s) ×
            IsShort d (body_of_choice (choice rules s) d s) }
    {
        match self.line.pick(self.tx_buffer.is_left()) {
            Pick::Again(place) => self.again(place, out),
            Pick::New => self.anew(out),
            Pick::Last(place) => self.last(place, out),
            Pick::NoPdu => {}
        }
    }

    /// The PDU at a place, which is requested, is built again.
    fn again(&mut self, place: u16, out: &mut [u8])
        requires place { place < length self.old.line.in_flight }
        requires size { length out.old ≡ self.old.size }
        ensures after { self.new ≡ with_line (again_line place self.old.line) self.old }
        ensures text { out.new ≡ pdu_in (number_at place self.old.line) (again_poll place self.old.line)
            (at self.old.line.in_flight place) self.old }
    {
        let number = self.line.number_at(place);
        let pdu = self.line.at(place);
        let poll = self.line.again(place);
        self.tx_buffer.write(&pdu, number, poll, out);
    }

    /// The last PDU is built again, for an owed poll.
    fn last(&mut self, place: u16, out: &mut [u8])
        requires last { IsLast self.old.line place }
        requires size { length out.old ≡ self.old.size }
        ensures after { self.new ≡ with_line (last_line place self.old.line) self.old }
        ensures text { out.new ≡ pdu_in (number_at place self.old.line) (last_poll place self.old.line)
            (at self.old.line.in_flight place) self.old }
    {
        let number = self.line.number_at(place);
        let pdu = self.line.at(place);
        let poll = self.line.last(place);
        self.tx_buffer.write(&pdu, number, poll, out);
    }

    /// A new PDU is built.
    fn anew(&mut self, out: &mut [u8])
        requires room { length self.old.line.in_flight < self.old.line.window }
        requires size { length out.old ≡ self.old.size }
        ensures size { self.new.size ≡ self.old.size }
        ensures same { HoldsSame self.old.tx_buffer self.new.tx_buffer }
        ensures history { (rules : Rules) (d : ℕ) (s : Sender) → IsOutgoing rules d self.old s →
            (out.new ≡ pdu_of_choice rules d s New) × IsOutgoing rules d self.new (after_choice New rules d s) ×
            IsShort d (next_body d s.unsent) }
    {
        let number = self.line.number_at(self.line.len() as u16);
        let pdu = self.tx_buffer.build();
        let left = self.tx_buffer.is_left();
        let poll = self.line.push(pdu, left);
        self.tx_buffer.write(&pdu, number, poll, out);
    }

    /// Hears a status.
    pub fn status(&mut self, status: &StatusView<'_>) -> StatusTaken
        ensures size { self.new.size ≡ self.old.size }
        ensures blocks { self.new.tx_buffer.blocks ≡ self.old.tx_buffer.blocks }
        ensures fewer { length self.new.tx_buffer.sdus ≤ length self.old.tx_buffer.sdus }
        ensures outside { result ≢ Taken → self.new ≡ self.old }
        ensures history { (rules : Rules) (d : ℕ) (s : Sender) → IsOutgoing rules d self.old s →
            (result ≡ status_answer rules s status.now) ×
            IsOutgoing rules d self.new (after_fields rules s status.now) }
    {
        let taken = self.line.hear(status);
        let first = first_in_flight(&self.line);
        self.tx_buffer.release(first);
        taken
    }

    /// One tick of the timers.
    pub fn tick(&mut self)
        ensures size { self.new.size ≡ self.old.size }
        ensures same { self.new.tx_buffer ≡ self.old.tx_buffer }
        ensures history { (rules : Rules) (d : ℕ) (s : Sender) → IsOutgoing rules d self.old s →
            IsOutgoing rules d self.new (timed s) }
    {
        self.line.tick()
    }

    /// A discard begins with the PDU at a place and its indicator.
    pub fn discard(&mut self, place: u16, indicator: u8)
        requires place { place < length self.old.line.in_flight }
        requires indicator { indicator < 16 }
        ensures size { self.new.size ≡ self.old.size }
        ensures same { self.new.tx_buffer ≡ self.old.tx_buffer }
        ensures history { (rules : Rules) (d : ℕ) (s : Sender) (i : ℕ) → IsOutgoing rules d self.old s →
            IsOutgoing rules d self.new (discards_at s i (Some (vt_a s + place, indicator))) }
    {
        self.line.discard(place, indicator)
    }

    /// A discard runs.
    pub fn is_discarding(&self) -> bool
        ensures { result ≡ is_some self.now.line.running }
    {
        self.line.is_discarding()
    }

    /// An MRW is due.
    pub fn mrw_due(&self) -> bool
        ensures value { result ≡ is_due self.now.line.running }
        ensures history { (rules : Rules) (d : ℕ) (s : Sender) → IsOutgoing rules d self.now s →
            result ≡ mrw_due s.discard }
    {
        self.line.mrw_due()
    }

    /// Writes the MRW that is due.
    pub fn write_mrw(&mut self, out: &mut [u8])
        requires due { is_due self.old.line.running ≡ true }
        requires size { length out.old ≡ self.old.size }
        ensures size { self.new.size ≡ self.old.size }
        ensures same { self.new.tx_buffer ≡ self.old.tx_buffer }
        ensures history { (rules : Rules) (d : ℕ) (s : Sender) (x : Discard) → IsOutgoing rules d self.old s →
            s.discard ≡ Some x →
            IsText out.new (0 ∷ mrw_text (wrapped x.k) x.n) ×
            (status_of out.new ≡ Some (mrw_fields (wrapped x.k) x.n)) ×
            IsOutgoing rules d self.new (after_mrw rules s x) }
    {
        let place = self.line.mrw();
        write_mrw(place.sn, place.n, out);
        self.line.write_mrw();
    }

    /// Begins anew with the units of which no octet was built. Answers how many they are.
    pub fn restart(&mut self) -> usize
        ensures size { self.new.size ≡ self.old.size }
        ensures blocks { self.new.tx_buffer.blocks ≡ self.old.tx_buffer.blocks }
        ensures last { result ≡ length self.new.tx_buffer.sdus }
        ensures few { length self.new.tx_buffer.sdus ≤ length self.old.tx_buffer.sdus }
        ensures history { (rules : Rules) (d : ℕ) (s : Sender) → IsOutgoing rules d self.old s →
            (result ≡ length (restarted_sender s).accepted) × IsOutgoing rules d self.new (restarted_sender s) }
    {
        self.line.restart();
        self.tx_buffer.restart()
    }
}

/// The first PDU in flight.
fn first_in_flight(line: &RetxBuffer) -> Option<SentPdu>
    ensures { result ≡ first_in_flight line.now.in_flight }
{
    if line.len() > 0 {
        Some(line.at(0))
    } else {
        None
    }
}
