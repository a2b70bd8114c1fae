ghost use Rattle.std.specs.Prelude.{◌≡◌, ◌≢◌, ◌+◌, ◌-◌, ◌<◌, ◌≤◌, ◌++◌, ℕ, List, [], ◌∷◌, true, All, IfOk, length, nat_lt};
ghost use Rattle.dch_sar.specs.Filling.{IsCarried};
ghost use Rattle.dch_bits.specs.declared.offer.Offer.TheVariants.{Accepted};
ghost use Rattle.dch_txbuf.specs.Cuts.{led_by};
ghost use Rattle.dch_rlcum.specs.History.{IsAvailable, IsSenderOf, accepted, texts};
ghost use Rattle.dch_rlcum.specs.Queue.{IsPlace, units_at};
ghost use Rattle.dch_rlcum.specs.Sending.{after_build, after_offer, answer_of, builds, carried_by, is_due, is_unsent, leading, no_units, pdu_of, room_of};

use dch_bits::{NoMemory, Offer};
use dch_rlcpdu::{FILLED, STARTS};
use dch_txbuf::{LONGEST_SDU, MOST_PDUS, SduBuffer, Start, next_cut, next_start, write_um_taken};
use std::alloc::Global;
use std::marker::Model;

/// The sending side of an unacknowledged bearer. SDUs stand in blocks of 64 octets, which are taken when it is opened,
/// until their length indicator is built.
#[derive(Drop)]
pub struct UmSend {
    sdus: SduBuffer,
    start: Start,
    owed: bool,
    number: u8,
    pdu: usize,
    mark_start: bool,
}

impl Model for UmSend {
    ghost use Rattle.dch_am.specs.Bodies.{joined};
    ghost use Rattle.dch_txbuf.specs.Cuts.{left_at};
    ghost use Rattle.dch_rlcum.specs.Sending.{Sending};
    ghost use Rattle.dch_rlcum.specs.Queue.{IsFormat, IsQueue, units_at};

    ghost Value = { Sending };

    ghost view = { λ s. record {
      units = units_at s.sdus.items s.start s.owed;
      row = joined (left_at s.start s.sdus.items);
      number = s.number;
      pdu = s.pdu;
      buffer = s.sdus.capacity;
      mark_start = s.mark_start;
    } };

    ghost invariant = { λ s. IsQueue s.sdus.items s.start s.owed × IsFormat s.number s.pdu };
}

impl UmSend {
    /// A sender of PDUs of `pdu` octets, 3 to 125, in which units of at most `buffer` blocks of 64 octets wait. With
    /// `mark_start` the indicator 1111100 stands first where the first octet starts a unit.
    pub fn open(
        alloc: Global,
        pdu: usize,
        buffer: u16,
        mark_start: bool,
    ) -> Result<UmSend, NoMemory>
        requires from { 3 ≤ pdu }
        requires most { pdu ≤ 125 }
        ensures empty { IfOk result (λ s. s ≡ record {
          units = no_units;
          row = [];
          number = 0;
          pdu = pdu;
          buffer = buffer;
          mark_start = mark_start;
        }) }
        ensures history { IfOk result (λ s. IsSenderOf [] [] s) }
    {
        let sdus = SduBuffer::open(alloc, buffer)?;
        Ok(UmSend {
            sdus,
            start: Start { sdu: 0, used: 0 },
            owed: false,
            number: 0,
            pdu,
            mark_start,
        })
    }

    /// Offers a unit of 1 to 1,500 octets. It holds its blocks until the indicator of its end is built.
    pub fn offer(&mut self, unit: &[u8]) -> Offer
        ensures answer { result ≡ answer_of unit.now self.old }
        ensures after { self.new ≡ after_offer result unit.now self.old }
        ensures refused { result ≢ Accepted → self.new ≡ self.old }
        ensures history { (units : List (List ℕ)) (cuts : List ℕ) → IsSenderOf units cuts self.old →
            IsSenderOf (accepted result unit.now units) cuts self.new }
        // no PDU before is another one for it
        ensures built { (units : List (List ℕ)) (cuts : List ℕ) → IsSenderOf units cuts self.old →
            texts self.old.pdu self.old.mark_start (accepted result unit.now units) cuts ≡
            texts self.old.pdu self.old.mark_start units cuts }
    {
        if unit.is_empty() || unit.len() > LONGEST_SDU {
            return Offer::WrongSize;
        }
        if !self.sdus.has_room(unit.len()) {
            return Offer::Full;
        }
        self.sdus.push(unit);
        Offer::Accepted
    }

    /// How many PDUs could be built one after another, at most 64.
    pub fn available(&self) -> u16
        ensures count { result ≡ builds 64 self.now.pdu self.now.mark_start self.now.units }
        ensures some { nat_lt 0 result ≡ is_due self.now }
        // so many more PDUs of the list could follow
        ensures history { (units : List (List ℕ)) (cuts : List ℕ) → IsSenderOf units cuts self.now →
            IsAvailable 64 self.now.pdu self.now.mark_start units cuts result }
    {
        count_pdus(&self.sdus, self.start, self.owed, self.pdu, self.mark_start)
    }

    /// A PDU can be built.
    pub fn is_due(&self) -> bool
        ensures { result ≡ is_due self.now }
    {
        is_left(&self.sdus, &self.start, self.owed)
    }

    /// Writes the next PDU. There is one.
    pub fn build(&mut self, out: &mut [u8])
        requires due { is_due self.old ≡ true }
        requires size { length out.old ≡ self.old.pdu }
        ensures text { out.new ≡ pdu_of self.old }
        ensures after { self.new ≡ after_build self.old }
        // the octets are the most that find room with their indicators
        ensures most { IsCarried (room_of self.old.pdu self.old.mark_start self.old.units) 0 self.old.units.lengths
            (carried_by self.old) }
        ensures history { (units : List (List ℕ)) (cuts : List ℕ) → IsSenderOf units cuts self.old →
            IsSenderOf units (cuts ++ length units ∷ []) self.new }
        // it is the next of the list of PDUs
        ensures next { (units : List (List ℕ)) (cuts : List ℕ) → IsSenderOf units cuts self.old →
            texts self.old.pdu self.old.mark_start units (cuts ++ length units ∷ []) ≡
            texts self.old.pdu self.old.mark_start units cuts ++ out.new ∷ [] }
    {
        self.write_next(out);
    }

    /// Writes the next PDU, by what waits.
    fn write_next(&mut self, out: &mut [u8])
        requires due { is_due self.old ≡ true }
        requires size { length out.old ≡ self.old.pdu }
        ensures text { out.new ≡ pdu_of self.old }
        ensures after { self.new ≡ after_build self.old }
        // the octets are the most that find room with their indicators
        ensures most { IsCarried (room_of self.old.pdu self.old.mark_start self.old.units) 0 self.old.units.lengths
            (carried_by self.old) }
    {
        let lead = lead(&self.sdus, &self.start, self.owed, self.mark_start);
        let room = self.pdu - 1 - usize::from(lead.is_some());
        let cut = next_cut(&self.sdus, &self.start, room);
        write_um_taken(&self.sdus, &self.start, &cut, self.number, lead, out);
        let next = next_start(&self.start, &cut);
        let ahead = u16::from(cut.owed);
        self.sdus.release((next.sdu - ahead) as usize);
        self.start = Start {
            sdu: ahead,
            used: next.used,
        };
        self.owed = cut.owed;
        self.number = (self.number + 1) % 128;
    }
}

/// A PDU can be built of the SDUs from a place on.
fn is_left(sdus: &SduBuffer, start: &Start, owed: bool) -> bool
    requires { IsPlace sdus.now.items start.now owed }
    ensures { result ≡ is_unsent (units_at sdus.now.items start.now owed) }
{
    owed || (start.sdu as usize) < sdus.len()
}

/// The length indicator that stands first in a PDU of the SDUs from a place on.
fn lead(sdus: &SduBuffer, start: &Start, owed: bool, mark_start: bool) -> Option<u8>
    requires { IsPlace sdus.now.items start.now owed }
    ensures lead { led_by result ≡ leading mark_start (units_at sdus.now.items start.now owed) }
    ensures few { length (led_by result) ≤ 1 }
    ensures small { All (λ m. m < 128) (led_by result) }
{
    if owed {
        return Some(FILLED);
    }
    if mark_start && start.used == 0 && (start.sdu as usize) < sdus.len() {
        Some(STARTS)
    } else {
        None
    }
}

/// How many PDUs of so many octets could be built one after another of the SDUs from a place on, at most 64.
fn count_pdus(sdus: &SduBuffer, first: Start, first_owed: bool, pdu: usize, mark_start: bool) -> u16
    requires place { IsPlace sdus.now.items first first_owed }
    requires from { 3 ≤ pdu }
    requires most { pdu ≤ 125 }
    ensures { result ≡ builds 64 pdu mark_start (units_at sdus.now.items first first_owed) }
{
    let mut start = first;
    let mut owed = first_owed;
    for count in 0..MOST_PDUS {
        if !is_left(sdus, &start, owed) {
            return count;
        }
        let lead = lead(sdus, &start, owed, mark_start);
        let cut = next_cut(sdus, &start, pdu - 1 - usize::from(lead.is_some()));
        start = next_start(&start, &cut);
        owed = cut.owed;
    }
    MOST_PDUS
}
