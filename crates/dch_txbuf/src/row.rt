ghost use Rattle.std.specs.Prelude.{◌≡◌, ◌+◌, ◌-◌, ◌<◌, ◌≤◌, ◌++◌, [], ◌∷◌, IfOk, drop, length, slice_index_or};
ghost use Rattle.circular_buffer.specs.Buffer.{buffer};
ghost use Rattle.dch_pool.specs.Blocks.{spare_of};
ghost use Rattle.dch_txbuf.specs.Rows.{IsRow, padded};

use circular_buffer::HeapCircularBuffer;
use dch_bits::NoMemory;
use dch_pool::{Block, Pool};
use std::alloc::Global;
use std::marker::Model;

/// The octets of a block.
pub const BLOCK: usize = 64;

/// Blocks of 64 octets in order, the oldest first. Those that aren't in the row are spare.
pub struct BlockRow {
    pool: Pool,
    blocks: HeapCircularBuffer<Block>,
}

impl Model for BlockRow {
    ghost use Rattle.std.specs.Prelude.{ℕ, List};
    ghost use Rattle.circular_buffer.specs.Buffer.{Buffer, buffer};
    ghost use Rattle.dch_txbuf.specs.Rows.{IsRow, texts_of};

    ghost Value = { Buffer (List ℕ) };

    ghost view = { λ r. buffer (texts_of r.pool r.blocks.items) r.blocks.capacity };

    ghost invariant = { λ r. IsRow r.pool r.blocks.items r.blocks.capacity };
}

impl BlockRow {
    /// No block is in the row, and so many are spare. All memory is taken here.
    pub fn open(alloc: Global, blocks: u16) -> Result<BlockRow, NoMemory>
        ensures { IfOk result (λ r. r ≡ buffer [] blocks) }
    {
        let blocks = blocks as usize;
        let pool = Pool::open(alloc, blocks, BLOCK)?;
        match HeapCircularBuffer::with_capacity(alloc, blocks) {
            Ok(blocks) => Ok(BlockRow { pool, blocks }),
            Err(_) => {
                pool.close();
                Err(NoMemory)
            }
        }
    }

    /// How many blocks are in the row.
    pub fn len(&self) -> usize
        ensures { result ≡ length self.now.items }
    {
        self.blocks.len()
    }

    /// How many blocks are spare.
    pub fn spare(&self) -> usize
        ensures { result ≡ self.now.capacity - length self.now.items }
    {
        self.pool.spare()
    }

    /// The octets of the block at a place.
    pub fn at(&self, i: usize) -> &[u8]
        requires { i < length self.now.items }
        ensures { result.now ≡ slice_index_or self.now.items i [] }
    {
        match self.blocks.get(i) {
            Some(block) => self.pool.bytes(block),
            None => &[],
        }
    }

    /// A spare block comes behind the others, with these octets in front and zeros behind them.
    pub fn push(&mut self, octets: &[u8])
        requires few { length octets.now ≤ 64 }
        requires room { length self.old.items < self.old.capacity }
        ensures { self.new ≡ buffer (self.old.items ++ padded octets.now ∷ []) self.old.capacity }
    {
        let Some(block) = self.pool.take() else {
            return;
        };
        self.pool.write(&block, 0, octets);
        if let Err(block) = self.blocks.try_push_back(block) {
            self.pool.give(block);
        }
    }

    /// The first block is spare again.
    pub fn pop(&mut self)
        requires { 0 < length self.old.items }
        ensures { self.new ≡ buffer (drop 1 self.old.items) self.old.capacity }
    {
        if let Some(block) = self.blocks.pop_front() {
            self.pool.give(block);
        }
    }
}

impl Drop for BlockRow {
    fn drop(self) {
        let BlockRow { pool, blocks } = self;
        let mut pool = pool;
        let mut blocks = blocks;
        give_all(&mut pool, &mut blocks);
        blocks.destroy_empty();
        pool.close();
    }
}

/// All blocks of the row are given back.
fn give_all(pool: &mut Pool, blocks: &mut HeapCircularBuffer<Block>)
    requires { IsRow pool.old blocks.old.items blocks.old.capacity }
    ensures none { blocks.new.items ≡ [] }
    ensures all { spare_of pool.new ≡ length pool.new.contents }
{
    for _ in 0..blocks.len() {
        if let Some(block) = blocks.pop_front() {
            pool.give(block);
        }
    }
}
