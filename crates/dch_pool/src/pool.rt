ghost use Rattle.std.specs.Prelude.{◌≡◌, ◌≤◌, ◌+◌, ℕ, List, length, replicate, None, IfOk, MatchOption};
ghost use Rattle.std.specs.Borrow.{sem};
ghost use Rattle.dch_pool.specs.Blocks.{spare_of, IsLent, octets_of, with_octets, written, without, Takes};
ghost use Rattle.dch_pool.specs.Lending.{LendsBlock, with_written};

use crate::parts::{clear, flags, numbers, octets, overwrite, part};
use dch_bits::NoMemory;
use std::alloc::Global;
use std::marker::Model;

/// The most blocks of a pool: their numbers have 16 bits.
const MOST_BLOCKS: usize = 65536;

/// Blocks of one size in one region of memory. It is not dropped, but closed.
pub struct Pool {
    size: usize,
    region: Vec<u8>,
    lent: Vec<bool>,
    spare: Vec<u16>,
}

impl Model for Pool {
    ghost use Rattle.std.specs.Prelude.{vec_capacity};
    ghost use Rattle.dch_pool.specs.Blocks.{Blocks};
    ghost use Rattle.dch_pool.specs.Held.{contents_of, IsHeld};

    ghost Value = { Blocks };

    ghost view = { λ p. record { size = p.size; contents = contents_of p.size p.region.items p.lent.items } };

    ghost invariant = { λ p. IsHeld p.size p.region.items p.lent.items p.spare.items (vec_capacity p.spare) };
}

/// A block that is lent. It is not dropped, but given back.
pub struct Block {
    number: u16,
}

impl Model for Block {
    ghost use Rattle.std.specs.Prelude.{ℕ};

    ghost Value = { ℕ };

    ghost view = { λ b. b.number };
}

impl Pool {
    /// A pool of so many blocks of `size` octets. All memory is taken here. For more than 65,536 blocks the answer is
    /// `NoMemory`.
    pub fn open(alloc: Global, blocks: usize, size: usize) -> Result<Pool, NoMemory>
        ensures { IfOk result (λ pool. pool ≡ record { size = size; contents = replicate blocks None }) }
    {
        if blocks > MOST_BLOCKS {
            return Err(NoMemory);
        }
        let region = octets(alloc, blocks, size)?;
        let lent = flags(alloc, blocks)?;
        let spare = numbers(alloc, blocks)?;
        Ok(Pool {
            size,
            region,
            lent,
            spare,
        })
    }

    /// Lends a spare block, whose octets are zeros; nothing where no block is spare.
    pub fn take(&mut self) -> Option<Block>
        ensures { MatchOption result ((spare_of self.old ≡ 0) × (self.new ≡ self.old)) (Takes self.old self.new) }
    {
        let Some(number) = self.spare.pop() else {
            return None;
        };
        self.lent[number as usize] = true;
        clear(&mut self.region, self.size, number as usize);
        Some(Block { number })
    }

    /// Takes a block of this pool back.
    pub fn give(&mut self, block: Block)
        requires { IsLent self.old block }
        ensures { self.new ≡ without self.old block }
    {
        let Block { number } = block;
        self.lent[number as usize] = false;
        self.spare.push(number).unwrap();
    }

    /// The octets of a block of this pool.
    pub fn bytes(&self, block: &Block) -> &[u8]
        requires { IsLent self.now block.now }
        ensures { result.now ≡ octets_of self.now block.now }
    {
        part(&self.region, self.size, block.number as usize)
    }

    /// Lends the octets of a block of this pool to be written. The other blocks stay.
    pub fn bytes_mut(&mut self, block: &Block) -> &mut [u8]
        requires { IsLent self.old block.now }
        ensures* writes_back { sem 𝓛 (LendsBlock self.entry block.now result) }
        ensures value { result.now ≡ octets_of self.old block.now }
        ensures size { length result.now ≡ self.old.size }
        ensures alone { (octets : List ℕ) → length octets ≡ self.old.size →
            with_written self.old block.now octets ≡ with_octets self.old block.now octets }
    {
        let at = block.number as usize * self.size;
        self.region.slice_mut(at..at + self.size)
    }

    /// Writes octets to a block of this pool, from place `at` of it on. Its other octets stay, and so do the other
    /// blocks.
    pub fn write(&mut self, block: &Block, at: usize, octets: &[u8])
        requires lent { IsLent self.old block.now }
        requires inside { at + length octets.now ≤ self.old.size }
        ensures { self.new ≡ written self.old block.now at octets.now }
    {
        let number = block.number as usize;
        overwrite(&mut self.region, self.size, number, at, octets);
    }

    /// How many blocks are spare.
    pub fn spare(&self) -> usize
        ensures { result ≡ spare_of self.now }
    {
        self.spare.len()
    }

    /// Ends the pool, to which every block was given back.
    pub fn close(self)
        requires { spare_of self ≡ length self.contents }
    {
        let Pool {
            size: _,
            region: _,
            lent: _,
            spare: _,
        } = self;
    }
}
