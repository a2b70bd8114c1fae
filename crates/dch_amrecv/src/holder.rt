ghost use Rattle.std.specs.Prelude.{◌≡◌, ◌+◌, ◌*◌, ◌%◌, ◌<◌, ◌≤◌, ◌==◌, [], ◌∷◌, All, IfOk, Some, length, take, true};
ghost use Rattle.dch_sar.specs.Taking.{handed_of, written};
ghost use Rattle.dch_am.specs.Contents.{body_in};
ghost use Rattle.dch_am.specs.Status.{fits};
ghost use Rattle.dch_rlcpdu.specs.Reading.{status_of};
ghost use Rattle.dch_rlcpdu.specs.Writing.{IsText};
ghost use Rattle.dch_amrecv.specs.Holding.{after_answer, after_move, after_telling, after_tick, after_unit, answer, fields_told, is_due, lsn_told, move_answer, opened, pairs_told, plain_due};
ghost use Rattle.dch_amrecv.specs.Texts.{text_told};

use crate::buffer::RxBuffer;
use crate::telling::{most, number};
use dch_am::{MrwTaken, Taken};
use dch_bits::NoMemory;
use dch_rlcpdu::{Body, Handed, MrwPlace, NUMBERS, write_ack, write_mrw_ack, write_mrw_status};
use dch_types::AmRules;
use std::alloc::Global;
use std::marker::Model;

/// What a receiver holds, and what each event makes of it.
#[derive(Drop)]
pub struct Holder {
    rules: AmRules,
    pdu: usize,
    reply: usize,
    next: u16,
    buffer: RxBuffer,
    ack: Option<MrwPlace>,
    owed: bool,
    status_prohibit_timer: u16,
    period: u16,
}

impl Model for Holder {
    ghost use Rattle.std.specs.Prelude.{◌≡◌, ◌<◌, ◌≤◌, IfSome};
    ghost use Rattle.dch_amrecv.specs.Holding.{Holding};

    ghost Value = { Holding };

    ghost view = { λ h. record {
      rules = h.rules;
      pdu = h.pdu;
      reply = h.reply;
      next = h.next;
      kept = h.buffer.kept;
      ack = h.ack;
      owed = h.owed;
      status_prohibit_timer = h.status_prohibit_timer;
      period = h.period;
    } };

    ghost invariant = { λ h. (h.next < 4096) × (h.buffer.kept.capacity ≡ h.rules.window) × (h.rules.window ≤ 2048) ×
        (h.pdu ≤ 126) × (6 ≤ h.reply) × (h.reply ≤ 126) × IfSome h.ack (λ a. (a.0 < 4096) × (a.1 < 16)) ×
        (h.buffer.pdu ≡ h.pdu) };
}

impl Holder {
    /// At opening.
    pub fn open(alloc: Global, pdu: usize, reply: usize, rules: AmRules) -> Result<Holder, NoMemory>
        requires pdu { pdu ≤ 126 }
        requires least { 6 ≤ reply }
        requires most { reply ≤ 126 }
        requires window { rules.window ≤ 2048 }
        ensures { IfOk result (λ h. h ≡ opened rules pdu reply) }
    {
        let buffer = RxBuffer::open(alloc, rules.window as usize, pdu)?;
        let period = rules.status_period;
        Ok(Holder {
            rules,
            pdu,
            reply,
            next: 0,
            buffer,
            ack: None,
            owed: false,
            status_prohibit_timer: 0,
            period,
        })
    }

    /// No unit waits.
    pub fn settled(&self) -> bool
        ensures { result ≡ (length self.now.kept.units.waiting == 0) }
    {
        self.buffer.settled()
    }

    /// Takes a PDU.
    pub fn pdu(&mut self, sn: u16, poll: bool, body: &Body<'_>) -> Taken
        requires settled { self.old.kept.units.waiting ≡ [] }
        requires number { sn < 4096 }
        requires small { length body.now.indicators + length body.now.octets + 2 ≤ self.old.pdu }
        ensures value { result ≡ answer sn self.old }
        ensures after { self.new ≡ after_answer result sn poll (body_in body.now) self.old }
    {
        let ahead = (sn + NUMBERS - self.next) % NUMBERS;
        if ahead >= NUMBERS - self.rules.window || self.buffer.has(ahead as usize) {
            self.owed = self.owed || poll;
            return Taken::Duplicate;
        }
        if ahead >= self.rules.window {
            return Taken::Outside;
        }
        let missing = self.rules.missing && self.buffer.len() < ahead as usize;
        self.owed = self.owed || (poll || missing);
        let run = self.buffer.keep(ahead as usize, body);
        self.next = advanced(self.next, run);
        Taken::Kept
    }

    /// Obeys an MRW.
    pub fn obey(&mut self, sn: u16, n: u8) -> MrwTaken
        requires settled { self.old.kept.units.waiting ≡ [] }
        requires number { sn < 4096 }
        requires end { n < 16 }
        ensures value { result ≡ move_answer sn self.old }
        ensures after { self.new ≡ after_move result sn n self.old }
    {
        let ahead = (sn + NUMBERS - self.next) % NUMBERS;
        if ahead >= self.rules.window && ahead < NUMBERS - self.rules.window {
            return MrwTaken::Outside(sn);
        }
        let mut answer = MrwTaken::Old;
        if ahead < NUMBERS - self.rules.window {
            let run = self.buffer.pass(ahead as usize, n);
            self.next = advanced(advanced(self.next, ahead as usize), run);
            answer = MrwTaken::Obeyed;
        }
        self.ack = Some(MrwPlace {
            sn: self.next,
            n: if self.next == sn { n } else { 0 },
        });
        answer
    }

    /// Hands up the first unit that waits, at the front of `out`.
    pub fn next_unit(&mut self, out: &mut [u8]) -> Option<Handed>
        requires { length out.old ≡ 1500 }
        ensures answer { result ≡ handed_of self.old.kept.units.waiting }
        ensures unit { out.new ≡ written self.old.kept.units.waiting out.old }
        ensures rest { self.new ≡ after_unit self.old }
    {
        self.buffer.next_unit(out)
    }

    /// A status or an MRW_ACK is due.
    pub fn is_due(&self) -> bool
        ensures { result ≡ is_due self.now }
    {
        self.ack.is_some() || (self.owed && self.status_prohibit_timer == 0)
    }

    /// Goes back to what it held at opening.
    pub fn restart(&mut self)
        ensures { self.new ≡ opened self.old.rules self.old.pdu self.old.reply }
    {
        self.next = 0;
        self.buffer.clear();
        self.ack = None;
        self.owed = false;
        self.status_prohibit_timer = 0;
        self.period = self.rules.status_period;
    }

    /// One tick.
    pub fn tick(&mut self)
        ensures { self.new ≡ after_tick self.old }
    {
        let over = self.period == 1;
        self.status_prohibit_timer = self.status_prohibit_timer.saturating_sub(1);
        self.owed = self.owed || (self.rules.status_period > 0 && over);
        self.period = if over {
            self.rules.status_period
        } else {
            self.period.saturating_sub(1)
        };
    }

    /// Writes what is due.
    pub fn tell(&mut self, out: &mut [u8])
        requires due { is_due self.old ≡ true }
        requires size { length out.old ≡ self.old.reply }
        ensures fields { status_of out.new ≡ Some (fields_told self.old.ack (plain_due self.old)
            (8 * self.old.reply) self.old) }
        ensures text { IsText out.new (0 ∷ text_told self.old.ack (plain_due self.old) (8 * self.old.reply) self.old) }
        ensures after { self.new ≡ after_telling self.old }
    {
        self.write(out);
        if self.owed && self.status_prohibit_timer == 0 {
            self.owed = false;
            self.status_prohibit_timer = self.rules.status_prohibit;
            self.period = self.rules.status_period;
        }
        self.ack = None;
    }

    /// Writes an MRW_ACK, or a status, or both.
    fn write(&self, out: &mut [u8])
        requires due { is_due self.now ≡ true }
        requires size { length out.old ≡ self.now.reply }
        ensures fields { status_of out.new ≡ Some (fields_told self.now.ack (plain_due self.now)
            (8 * self.now.reply) self.now) }
        ensures text { IsText out.new (0 ∷ text_told self.now.ack (plain_due self.now) (8 * self.now.reply) self.now) }
    {
        match self.ack {
            None => {
                let mut pairs = [(0, 0); 62];
                let (count, lsn) = self.missing_runs(8 * self.reply, &mut pairs);
                write_ack(&pairs[..count], lsn, out);
            }
            Some(place) if self.owed && self.status_prohibit_timer == 0 => {
                let mut pairs = [(0, 0); 62];
                let (count, lsn) = self.missing_runs(8 * self.reply - 20, &mut pairs);
                write_mrw_status(place.n, place.sn, &pairs[..count], lsn, out);
            }
            Some(place) => write_mrw_ack(place.n, place.sn, out),
        }
    }

    /// The runs of missing numbers that fit so many bits, and the LSN.
    fn missing_runs(&self, bits: usize, pairs: &mut [(u16, u8)]) -> (usize, u16)
        requires least { 20 ≤ bits }
        requires bits { bits ≤ 1008 }
        requires room { length pairs.old ≡ 62 }
        ensures count { result.0 ≤ 62 }
        ensures pairs { take result.0 pairs.new ≡ pairs_told bits self.now }
        ensures fit { fits bits result.0 ≡ true }
        ensures small { All (λ p. (p.0 < 4096) × (p.1 < 16)) (take result.0 pairs.new) }
        ensures lsn { result.1 ≡ lsn_told bits self.now }
        ensures number { result.1 < 4096 }
    {
        let total = self.buffer.missing_runs(pairs);
        let count = most(bits, total);
        number(&mut pairs[..count], self.next);
        let ahead = if count == total { self.buffer.len() } else { 0 };
        (count, advanced(self.next, ahead))
    }
}

/// The number of 12 bits that is so many further.
fn advanced(number: u16, count: usize) -> u16
    requires { number < 4096 }
    ensures value { result ≡ (number + count) % 4096 }
    ensures small { result < 4096 }
{
    let numbers = NUMBERS as usize;
    ((number as usize + count % numbers) % numbers) as u16
}
