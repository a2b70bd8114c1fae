ghost use Rattle.std.specs.Prelude.{◌≡◌, ◌+◌, ◌<◌, ◌≤◌, ◌++◌, [], ◌∷◌, false, IfOk, length, drop, min, nat_lt, slice_set};
ghost use Rattle.circular_buffer.specs.Buffer.{buffer};
ghost use Rattle.dch_retx.specs.Flights.{at, named_from, acknowledged, request_cleared, built, changed_below, first_requested, front_acked, requested_in, AreRequests, IsFirstRequested};

use crate::links::{acked_from, acknowledge_below};
use crate::places::{at_place, build_at, clear_request_at, name_at, one};
use crate::request_set::RequestSet;
use crate::sent_pdu::SentPdu;
use circular_buffer::HeapCircularBuffer;
use dch_bits::NoMemory;
use std::alloc::Global;
use std::marker::Model;

/// The PDUs in flight, the one of the lowest open number first. So many of them are requested as `count` says, at the
/// places in `requests`. So many acknowledged ones follow an open one as `skips` has at its place.
#[derive(Drop)]
pub struct Flight {
    ring: HeapCircularBuffer<SentPdu>,
    skips: HeapCircularBuffer<u16>,
    requests: RequestSet,
    count: usize,
}

impl Model for Flight {
    ghost use Rattle.circular_buffer.specs.Buffer.{Buffer};
    ghost use Rattle.dch_retx.specs.declared.sent_pdu.SentPdu.{SentPdu};
    ghost use Rattle.dch_retx.specs.Flights.{IsFlight};

    ghost Value = { Buffer SentPdu };

    ghost view = { λ f. f.ring };

    ghost invariant = { λ f. IsFlight f.ring f.skips f.requests f.count };
}

impl Flight {
    /// Room for so many PDUs, of which none is in flight. All memory is taken here.
    pub fn open(alloc: Global, window: u16) -> Result<Flight, NoMemory>
        requires { window ≤ 2048 }
        ensures { IfOk result (λ f. f ≡ buffer [] window) }
    {
        let ring = HeapCircularBuffer::with_capacity(alloc, window as usize)?;
        let skips = HeapCircularBuffer::with_capacity(alloc, window as usize)?;
        Ok(Flight {
            ring,
            skips,
            requests: RequestSet::new(),
            count: 0,
        })
    }

    /// How many PDUs are in flight.
    pub fn len(&self) -> usize
        ensures count { result ≡ length self.now.items }
    {
        self.ring.len()
    }

    /// The PDU at a place.
    pub fn at(&self, i: usize) -> SentPdu
        requires { i < length self.now.items }
        ensures { result ≡ at self.now.items i }
    {
        at_place(&self.ring, i)
    }

    /// A new PDU is in flight.
    pub fn push(&mut self, pdu: SentPdu)
        requires room { length self.old.items < self.old.capacity }
        requires new { pdu.requested ≡ false }
        requires is_open { pdu.acked ≡ false }
        ensures { self.new ≡ buffer (self.old.items ++ pdu ∷ []) self.old.capacity }
    {
        self.ring.push_back(pdu);
        self.skips.push_back(0);
    }

    /// A status names a PDU missing. Unless it is acknowledged, it is requested where it stands at `from` or behind,
    /// and marked where it stands before `to`.
    pub fn name(&mut self, i: usize, from: usize, to: usize)
        requires { i < length self.old.items }
        ensures { self.new ≡ buffer (slice_set self.old.items i (named_from from to i (at self.old.items i)))
            self.old.capacity }
    {
        if name_at(&mut self.ring, i, from, to) {
            self.requests.insert(i);
            self.count += 1;
        }
    }

    /// A PDU is built once more.
    pub fn build(&mut self, i: usize)
        requires { i < length self.old.items }
        ensures { self.new ≡ buffer (slice_set self.old.items i (built (at self.old.items i))) self.old.capacity }
    {
        let was = build_at(&mut self.ring, i);
        self.requests.remove(i);
        self.count -= one(was);
    }

    /// The PDUs before a place are acknowledged, but for those that are marked as named missing, which are unmarked.
    pub fn acknowledge(&mut self, to: usize)
        requires { to ≤ length self.old.items }
        ensures { self.new ≡ buffer (changed_below acknowledged to self.old.items) self.old.capacity }
    {
        let cleared = acknowledge_below(&mut self.ring, &mut self.skips, &mut self.requests, to);
        self.count -= cleared;
    }

    /// The PDUs before a place aren't requested any more.
    pub fn clear_request(&mut self, to: usize)
        requires { to ≤ length self.old.items }
        ensures { self.new ≡ buffer (changed_below request_cleared to self.old.items) self.old.capacity }
    {
        let cleared = clear_requests(&mut self.ring, &mut self.requests, to);
        self.count -= cleared;
    }

    /// The first PDU that is requested; their number where none is.
    pub fn lowest(&self) -> usize
        ensures place { IsFirstRequested self.now.items result }
        ensures first { result ≡ first_requested self.now.items }
    {
        if self.count > 0 {
            self.requests.next(0, self.ring.len())
        } else {
            self.ring.len()
        }
    }

    /// The place of the first requested PDU from a place on; their number where none is.
    pub fn requested_from(&self, place: usize) -> usize
        requires { place ≤ length self.now.items }
        ensures place { result ≡ place + first_requested (drop place self.now.items) }
        ensures within { result ≤ length self.now.items }
    {
        self.requests.next(place, self.ring.len())
    }

    /// A PDU is requested.
    pub fn is_requested(&self) -> bool
        ensures { result ≡ nat_lt 0 (requested_in self.now.items) }
    {
        self.count > 0
    }

    /// How many PDUs are requested, at most so many.
    pub fn requested(&self, most: usize) -> usize
        ensures { result ≡ min most (requested_in self.now.items) }
    {
        self.count.min(most)
    }

    /// How many PDUs from a place on are acknowledged, up to the first that isn't.
    pub fn acked_from(&self, from: usize) -> usize
        requires { from ≤ length self.now.items }
        ensures count { result ≡ front_acked (drop from self.now.items) }
        ensures within { from + result ≤ length self.now.items }
    {
        acked_from(&self.ring, from)
    }

    /// So many PDUs in front, which are acknowledged, leave.
    pub fn leave(&mut self, count: usize)
        requires { count ≤ front_acked self.old.items }
        ensures { self.new ≡ buffer (drop count self.old.items) self.old.capacity }
    {
        let kept = self.ring.len() - count;
        self.ring.truncate_front(kept);
        self.skips.truncate_front(kept);
        self.requests.leave(count);
    }

    /// All PDUs leave.
    pub fn clear(&mut self)
        ensures { self.new ≡ buffer [] self.old.capacity }
    {
        self.ring.clear();
        self.skips.clear();
        self.requests.clear();
        self.count = 0;
    }
}

/// The PDUs before a place aren't requested any more. Only those that were are looked at. Answers how many they were.
fn clear_requests(
    ring: &mut HeapCircularBuffer<SentPdu>,
    requests: &mut RequestSet,
    to: usize,
) -> usize
    requires to { to ≤ length ring.old.items }
    requires small { length ring.old.items ≤ 2048 }
    requires requests { AreRequests requests.old ring.old.items }
    ensures cleared { result + requested_in ring.new.items ≡ requested_in ring.old.items }
    ensures after { ring.new ≡ buffer (changed_below request_cleared to ring.old.items) ring.old.capacity }
    ensures requests { AreRequests requests.new ring.new.items }
{
    let mut cleared = 0;
    let mut i = requests.next(0, to);
    while i < to {
        clear_request_at(ring, i);
        requests.remove(i);
        cleared += 1;
        i = requests.next(i + 1, to);
    }
    cleared
}
