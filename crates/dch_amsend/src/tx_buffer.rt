ghost use Rattle.std.specs.Prelude.{◌≡◌, ◌+◌, ◌-◌, ◌<◌, ◌≤◌, ℕ, IfOk, None, Some, length};
ghost use Rattle.dch_am.specs.Bodies.{carried, is_left, indicators_of, next_body};
ghost use Rattle.dch_am.specs.Building.{anew};
ghost use Rattle.dch_am.specs.Cuts.{IsCut};
ghost use Rattle.dch_am.specs.Restart.{restarted_sender};
ghost use Rattle.dch_am.specs.Rules.{Rules};
ghost use Rattle.dch_am.specs.Sender.{Sender, after_offer, offered, opened_sender, vt_a, vt_s};
ghost use Rattle.dch_rlcpdu.specs.Am.{am_pdu};
ghost use Rattle.dch_txbuf.specs.Cuts.{next_start};
ghost use Rattle.dch_amsend.specs.BufferStanding.{fills, HasBody, BufferStands, Takes};
ghost use Rattle.dch_amsend.specs.TxBuffer.{buffer_after_build, answer_of, body_in, cut_next, ended_before, next_in_flight, empty_buffer, IsHere, released_by, restarted_buffer, unsent_of};
ghost use Rattle.dch_amsend.specs.TxBuffer.{buffer_after_offer};

use crate::left::{count_pdus, is_left_at, room_for};
use dch_bits::{NoMemory, Offer};
use dch_retx::{Extent, SentPdu};
use dch_txbuf::{Cut, Header, LONGEST_SDU, SduBuffer, Start, next_cut, next_start, write_taken};
use std::alloc::Global;
use std::marker::Model;

/// The SDUs that are held, from the first that isn't acknowledged with all PDUs before its end, and where the next PDU
/// begins.
#[derive(Drop)]
pub struct TxBuffer {
    sdus: SduBuffer,
    start: Start,
    owed: bool,
    freed: u16,
    size: usize,
}

impl Model for TxBuffer {
    ghost use Rattle.dch_amsend.specs.TxBuffer.{IsBuffer, TxBuffer};

    ghost Value = { TxBuffer };

    ghost view = { λ u. record {
      sdus = u.sdus.items;
      blocks = u.sdus.capacity;
      start = u.start;
      owed = u.owed;
      freed = u.freed;
      size = u.size;
    } };

    ghost invariant = { λ u. IsBuffer u.sdus u.start u.freed u.size };
}

impl TxBuffer {
    /// No SDU is held. PDUs have `pdu` octets, 6 to 126, and SDUs at most `buffer` blocks of 64 octets. All memory is
    /// taken here.
    pub fn open(alloc: Global, pdu: usize, buffer: u16) -> Result<TxBuffer, NoMemory>
        requires from { 6 ≤ pdu }
        requires most { pdu ≤ 126 }
        ensures empty { IfOk result (λ u. u ≡ empty_buffer buffer pdu) }
        ensures history { IfOk result (λ u. BufferStands (pdu - 2) u opened_sender) }
    {
        let sdus = SduBuffer::open(alloc, buffer)?;
        Ok(TxBuffer {
            sdus,
            start: Start { sdu: 0, used: 0 },
            owed: false,
            freed: 0,
            size: pdu,
        })
    }

    /// Offers an SDU of 1 to 1,500 octets, which is accepted where its blocks find room beside those of the SDUs that
    /// are held.
    pub fn offer(&mut self, sdu: &[u8]) -> Offer
        ensures answer { result ≡ answer_of sdu.now self.old }
        ensures after { self.new ≡ buffer_after_offer result sdu.now self.old }
        ensures history { (rules : Rules) (d : ℕ) (s : Sender) → BufferStands d self.old s →
            IsCut s.accepted s.unsent s.bodies → self.old.blocks ≡ rules.buffer → (result ≡ offered rules s sdu.now) ×
            BufferStands d self.new (after_offer result s sdu.now) }
    {
        self.store(sdu)
    }

    /// The same, by places.
    fn store(&mut self, sdu: &[u8]) -> Offer
        ensures answer { result ≡ answer_of sdu.now self.old }
        ensures after { self.new ≡ buffer_after_offer result sdu.now self.old }
    {
        if sdu.is_empty() || sdu.len() > LONGEST_SDU {
            return Offer::WrongSize;
        }
        if !self.sdus.has_room(sdu.len()) {
            return Offer::Full;
        }
        self.sdus.push(sdu);
        Offer::Accepted
    }

    /// How many SDUs are held.
    pub fn len(&self) -> usize
        ensures { result ≡ length self.now.sdus }
    {
        self.sdus.len()
    }

    /// Something is left to be sent.
    pub fn is_left(&self) -> bool
        ensures left { result ≡ is_left (unsent_of self.now) }
        ensures history { (d : ℕ) (s : Sender) → BufferStands d self.now s → result ≡ is_left s.unsent }
    {
        is_left_at(&self.sdus, &self.start, self.owed)
    }

    /// How many PDUs could be filled one after another, at most 64.
    pub fn available(&self) -> u16
        ensures value { result ≡ fills 64 (self.now.size - 2) (unsent_of self.now) }
        ensures history { (d : ℕ) (s : Sender) → BufferStands d self.now s → result ≡ fills 64 d s.unsent }
    {
        count_pdus(&self.sdus, self.start, self.owed, self.size - 2)
    }

    /// What the next PDU takes of the SDUs. It isn't left any more.
    pub fn build(&mut self) -> SentPdu
        ensures after { self.new ≡ buffer_after_build self.old }
        ensures taken { result ≡ next_in_flight self.old }
        ensures history { (d : ℕ) (s : Sender) → BufferStands d self.old s → IsCut s.accepted s.unsent s.bodies →
            vt_a (anew d s) ≡ vt_a s →
            HasBody d result (next_body d s.unsent) × Takes (anew d s) (vt_s s) result.extent ×
            BufferStands d self.new (anew d s) }
    {
        self.take()
    }

    /// The same, by places.
    fn take(&mut self) -> SentPdu
        ensures after { self.new ≡ buffer_after_build self.old }
        ensures taken { result ≡ next_in_flight self.old }
        ensures small { (next_start self.old.start (cut_next self.old)).sdu ≤ 65535 }
    {
        let cut = next_cut(&self.sdus, &self.start, room_for(self.size - 2, self.owed));
        let extent = Extent {
            sdu: self.freed.wrapping_add(self.start.sdu),
            used: self.start.used,
            pieces: cut.pieces,
            rest: cut.rest,
        };
        let pdu = SentPdu::new(extent, self.owed, cut.padded);
        self.start = next_start(&self.start, &cut);
        self.owed = cut.owed;
        pdu
    }

    /// Writes a PDU in flight with its number and its poll bit, for the first time or again.
    pub fn write(&self, pdu: &SentPdu, number: u16, poll: bool, out: &mut [u8])
        requires here { IsHere self.now pdu.now }
        requires number { number < 4096 }
        requires size { length out.old ≡ self.now.size }
        ensures { out.new ≡ am_pdu number poll (indicators_of (self.now.size - 2) (body_in self.now pdu.now))
            (carried (body_in self.now pdu.now)) self.now.size }
    {
        let start = Start {
            sdu: pdu.extent.sdu.wrapping_sub(self.freed),
            used: pdu.extent.used,
        };
        let cut = Cut {
            pieces: pdu.extent.pieces,
            rest: pdu.extent.rest,
            owed: false,
            padded: pdu.padded,
        };
        let header = Header {
            number,
            poll,
            full: pdu.full,
        };
        write_taken(&self.sdus, &start, &cut, &header, out);
    }

    /// How many SDUs end in the PDUs that were built.
    pub fn ended(&self) -> u16
        ensures { result ≡ ended_before None self.now }
    {
        self.start.sdu.saturating_sub(u16::from(self.owed))
    }

    /// How many SDUs end before a PDU in flight.
    pub fn ended_before(&self, pdu: &SentPdu) -> u16
        ensures { result ≡ ended_before (Some pdu.now) self.now }
    {
        let sdu = pdu.extent.sdu.wrapping_sub(self.freed);
        sdu.saturating_sub(u16::from(pdu.full))
    }

    /// The SDUs that end before the first PDU in flight leave, or, where none is in flight, those that end in the PDUs
    /// that were built.
    pub fn release(&mut self, first: Option<SentPdu>)
        requires { ended_before first self.old ≤ self.old.start.sdu }
        ensures after { self.new ≡ released_by (ended_before first self.old) self.old }
    {
        let count = match first {
            None => self.ended(),
            Some(pdu) => self.ended_before(&pdu),
        };
        self.sdus.release(count as usize);
        self.start.sdu -= count;
        self.freed = self.freed.wrapping_add(count);
    }

    /// Begins anew with the SDUs of which no octet was built. Answers how many they are.
    pub fn restart(&mut self) -> usize
        ensures after { self.new ≡ restarted_buffer self.old }
        ensures count { result ≡ length self.new.sdus }
        ensures history { (d : ℕ) (s : Sender) → BufferStands d self.old s → IsCut s.accepted s.unsent s.bodies →
            (result ≡ length (restarted_sender s).accepted) × BufferStands d self.new (restarted_sender s) }
    {
        self.begin()
    }

    /// The same, by places.
    fn begin(&mut self) -> usize
        ensures after { self.new ≡ restarted_buffer self.old }
        ensures count { result ≡ length self.new.sdus }
    {
        let begun = self.start.sdu as usize + usize::from(self.start.used > 0);
        self.sdus.release(begun);
        self.start = Start { sdu: 0, used: 0 };
        self.owed = false;
        self.freed = 0;
        self.sdus.len()
    }
}
