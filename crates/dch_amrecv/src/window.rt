ghost use Rattle.std.specs.Prelude.{◌≡◌, ◌+◌, ◌<◌, ◌≤◌, [], IfOk, Some, length, drop, slice_get, true, false};
ghost use Rattle.circular_buffer.specs.Buffer.{buffer};
ghost use Rattle.dch_am.specs.Status.{runs};
ghost use Rattle.dch_am.specs.Contents.{body_in};
ghost use Rattle.dch_amrecv.specs.Places.{front, is_kept, laid, put, vacant, with_ring};

use crate::missing_runs::write_missing_runs;
use crate::places::{count_front, first_of, give_front, is_taken, put_at};
use crate::stored::{store, stored};
use circular_buffer::HeapCircularBuffer;
use dch_bits::NoMemory;
use dch_pool::{Block, Pool};
use dch_rlcpdu::Body;
use std::alloc::Global;
use std::marker::Model;

/// The PDUs from the next expected one on, of which some have come. The last one has, or there is none. Each stands in
/// a block of a pool that has one for each place.
pub struct RxWindow {
    pool: Pool,
    ring: HeapCircularBuffer<Option<Block>>,
}

// By hand, since blocks are given back.
impl Drop for RxWindow {
    fn drop(self) {
        let RxWindow { mut pool, mut ring } = self;
        let count = ring.len();
        give_front(&mut pool, &mut ring, count);
        ring.destroy_empty();
        pool.close();
    }
}

impl Model for RxWindow {
    ghost use Rattle.dch_amrecv.specs.Places.{Places};
    ghost use Rattle.dch_amrecv.specs.Kept.{IsKept, kept};

    ghost Value = { Places };

    ghost view = { λ w. kept w.pool w.ring.items w.ring.capacity };

    ghost invariant = { λ w. IsKept w.pool w.ring.items w.ring.capacity };
}

impl RxWindow {
    /// Room for so many PDUs of `pdu` octets. All memory is taken here.
    pub fn open(alloc: Global, window: usize, pdu: usize) -> Result<RxWindow, NoMemory>
        ensures { IfOk result (λ w. w ≡ record { ring = buffer [] window; pdu = pdu }) }
    {
        let ring = HeapCircularBuffer::with_capacity(alloc, window)?;
        match Pool::open(alloc, window, pdu) {
            Ok(pool) => Ok(RxWindow { pool, ring }),
            Err(NoMemory) => {
                ring.destroy_empty();
                Err(NoMemory)
            }
        }
    }

    /// How many places there are, up to the last PDU that came.
    pub fn len(&self) -> usize
        ensures count { result ≡ length self.now.ring.items }
        ensures within { result ≤ self.now.ring.capacity }
    {
        self.ring.len()
    }

    /// The PDU of a place has come.
    pub fn has(&self, i: usize) -> bool
        ensures { result ≡ is_kept self.now.ring.items i }
    {
        is_taken(&self.ring, i)
    }

    /// How many PDUs in front have come without a gap.
    pub fn front(&self) -> usize
        ensures value { result ≡ front self.now.ring.items }
        ensures within { result ≤ length self.now.ring.items }
    {
        count_front(&self.ring)
    }

    /// Keeps a PDU at a place that has none. With its header it has at most `pdu` octets.
    pub fn keep(&mut self, i: usize, body: &Body<'_>)
        requires place { i < self.old.ring.capacity }
        requires vacant { is_kept self.old.ring.items i ≡ false }
        requires room { length body.now.indicators + length body.now.octets + 2 ≤ self.old.pdu }
        requires small { length body.now.indicators + length body.now.octets ≤ 124 }
        ensures { self.new ≡ with_ring (buffer (put i (body_in body.now) self.old.ring.items) self.old.ring.capacity)
            self.old }
    {
        if let Some(block) = store(&mut self.pool, body) {
            put_at(&mut self.pool, &mut self.ring, i, block);
        }
    }

    /// The first PDU, which has come.
    pub fn first(&self) -> Body<'_>
        requires { is_kept self.now.ring.items 0 ≡ true }
        ensures body { slice_get self.now.ring.items 0 ≡ Some (Some (body_in result)) }
        ensures small { length result.indicators + length result.octets ≤ 124 }
    {
        let block = first_of(&self.ring);
        stored(self.pool.bytes(block))
    }

    /// So many PDUs in front leave.
    pub fn leave(&mut self, count: usize)
        requires { count ≤ length self.old.ring.items }
        ensures { self.new ≡ with_ring (buffer (drop count self.old.ring.items) self.old.ring.capacity) self.old }
    {
        give_front(&mut self.pool, &mut self.ring, count);
    }

    /// All PDUs leave.
    pub fn clear(&mut self)
        ensures { self.new ≡ with_ring (buffer [] self.old.ring.capacity) self.old }
    {
        let count = self.ring.len();
        give_front(&mut self.pool, &mut self.ring, count);
    }

    /// The places without a PDU as runs of at most 16, from a place on that has none: the first of each run, counted
    /// from there, and how many follow it. As many are written as find room. Answers how many runs there are.
    pub fn missing_runs(&self, from: usize, out: &mut [(u16, u8)]) -> usize
        requires from { from ≤ length self.now.ring.items }
        requires first { front (drop from self.now.ring.items) ≡ 0 }
        requires few { self.now.ring.capacity ≤ 2048 }
        ensures count { result ≡ length (runs (vacant 0 (drop from self.now.ring.items))) }
        ensures runs { out.new ≡ laid (runs (vacant 0 (drop from self.now.ring.items))) out.old }
    {
        write_missing_runs(&self.ring, from, out)
    }
}
