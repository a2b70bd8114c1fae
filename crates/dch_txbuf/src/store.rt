ghost use Rattle.std.specs.Prelude.{◌≡◌, ◌+◌, ◌<◌, ◌≤◌, ◌++◌, ℕ, [], ◌∷◌, IfOk, drop, length, nat_le, slice_index_or, take};
ghost use Rattle.circular_buffer.specs.Buffer.{buffer};
ghost use Rattle.dch_txbuf.specs.Chunks.{blocks_for};
ghost use Rattle.dch_txbuf.specs.Sdus.{blocks_in, no_sdu};

use crate::octets::{blocks_for, copy_octets, pop_blocks, push_octets};
use crate::row::BlockRow;
use crate::sdu::Sdu;
use circular_buffer::HeapCircularBuffer;
use dch_bits::NoMemory;
use std::alloc::Global;
use std::marker::Model;

/// SDUs in blocks of 64 octets, the oldest first. Each has blocks of its own.
#[derive(Drop)]
pub struct SduBuffer {
    row: BlockRow,
    sdus: HeapCircularBuffer<Sdu>,
    freed: u16,
}

impl Model for SduBuffer {
    ghost use Rattle.std.specs.Prelude.{ℕ, List};
    ghost use Rattle.circular_buffer.specs.Buffer.{Buffer, buffer};
    ghost use Rattle.dch_txbuf.specs.Sdus.{IsStored, sdus_of};

    ghost Value = { Buffer (List ℕ) };

    ghost view = { λ b. buffer (sdus_of b.sdus.items b.row.items) b.row.capacity };

    ghost invariant = { λ b. IsStored b.row b.sdus b.freed };
}

impl SduBuffer {
    /// No SDU is stored, and so many blocks are spare. All memory is taken here.
    pub fn open(alloc: Global, blocks: u16) -> Result<SduBuffer, NoMemory>
        ensures { IfOk result (λ b. b ≡ buffer [] blocks) }
    {
        let row = BlockRow::open(alloc, blocks)?;
        let sdus = HeapCircularBuffer::with_capacity(alloc, blocks as usize)?;
        Ok(SduBuffer {
            row,
            sdus,
            freed: 0,
        })
    }

    /// How many SDUs are stored.
    pub fn len(&self) -> usize
        ensures count { result ≡ length self.now.items }
        ensures few { result ≤ 65535 }
        ensures sized { (i : ℕ) → length (slice_index_or self.now.items i []) ≤ 1500 }
    {
        self.sdus.len()
    }

    /// The blocks of an SDU of so many octets, at most 1,500, are spare.
    pub fn has_room(&self, octets: usize) -> bool
        requires { octets ≤ 1500 }
        ensures { result ≡ nat_le (blocks_in self.now.items + blocks_for octets) self.now.capacity }
    {
        blocks_for(octets) <= self.row.spare()
    }

    /// An SDU of 1 to 1,500 octets, whose blocks are spare, comes behind the others.
    pub fn push(&mut self, sdu: &[u8])
        requires from { 1 ≤ length sdu.now }
        requires most { length sdu.now ≤ 1500 }
        requires room { blocks_in self.old.items + blocks_for (length sdu.now) ≤ self.old.capacity }
        ensures { self.new ≡ buffer (self.old.items ++ sdu.now ∷ []) self.old.capacity }
    {
        let first = self.freed.wrapping_add(self.row.len() as u16);
        push_octets(&mut self.row, sdu);
        self.sdus.push_back(Sdu {
            first,
            octets: sdu.len() as u16,
        });
    }

    /// The octets of the SDU at a place.
    pub fn octets(&self, i: usize) -> u16
        requires { i < length self.now.items }
        ensures { result ≡ length (slice_index_or self.now.items i []) }
    {
        sdu_at(&self.sdus, i).octets
    }

    /// Copies octets of the SDU at a place, from one of them on.
    pub fn copy(&self, i: usize, from: usize, out: &mut [u8])
        requires there { i < length self.now.items }
        requires inside { from + length out.old ≤ length (slice_index_or self.now.items i []) }
        ensures { out.new ≡ take (length out.old) (drop from (slice_index_or self.now.items i [])) }
    {
        let sdu = sdu_at(&self.sdus, i);
        let block = sdu.first.wrapping_sub(self.freed) as usize;
        copy_octets(&self.row, block, from, out);
    }

    /// The first SDUs leave, so many. Their blocks are spare again.
    pub fn release(&mut self, count: usize)
        requires { count ≤ length self.old.items }
        ensures { self.new ≡ buffer (drop count self.old.items) self.old.capacity }
    {
        for _ in 0..count {
            self.release_first();
        }
    }

    /// The first SDU leaves.
    fn release_first(&mut self)
        requires { 0 < length self.old.items }
        ensures { self.new ≡ buffer (drop 1 self.old.items) self.old.capacity }
    {
        if let Some(sdu) = self.sdus.pop_front() {
            let blocks = blocks_for(sdu.octets as usize);
            self.freed = self.freed.wrapping_add(blocks as u16);
            pop_blocks(&mut self.row, blocks);
        }
    }
}

/// What is kept of the SDU at a place.
fn sdu_at(sdus: &HeapCircularBuffer<Sdu>, i: usize) -> Sdu
    requires { i < length sdus.now.items }
    ensures { result ≡ slice_index_or sdus.now.items i no_sdu }
{
    *sdus.get(i).unwrap()
}
