ghost use Rattle.std.specs.Prelude.{◌≡◌, ◌<◌, ℕ, None, Some, IsSome, IfOk, false, length, true};
ghost use Rattle.dch_types.specs.declared.channel.Dir.TheVariants.{Up};
ghost use Rattle.dch_accept.specs.HeldSets.{IsSetOf, held_at};
ghost use Rattle.dch_combine.specs.Combined.{HasGood, HasGoodBlock};
ghost use Rattle.dch_combine.specs.Legs.{blocks_in};
ghost use Rattle.dch_combine.specs.Values.{frame_of};

use dch_accept::{Accepted, SetBlocks, TtiBlocks};
use dch_bits::NoMemory;
use dch_types::Dir;
use std::alloc::Global;
use std::mem;

/// A receive buffer for the uplink Iub frame of a leg: the frame's quality estimate, if one was taken, and its blocks.
#[derive(Drop)]
pub struct LegBuffer {
    pub qe: Option<u8>,
    pub blocks: SetBlocks,
}

impl LegBuffer {
    /// Takes the memory for the blocks of a set. No frame is there.
    pub fn open(alloc: Global, accepted: &Accepted, set: u8) -> Result<LegBuffer, NoMemory>
        ensures empty { IfOk result (λ buffer. buffer.qe ≡ None) }
        ensures set { IfOk result (λ buffer. IsSetOf accepted.now.config Up set buffer.blocks) }
    {
        Ok(LegBuffer {
            qe: None,
            blocks: SetBlocks::open(alloc, accepted, Dir::Up, set)?,
        })
    }

    /// Takes a frame that was read, in place of the one before, whose memory it leaves for the next one.
    pub fn replace(&mut self, qe: u8, blocks: &mut SetBlocks)
        ensures taken { self.new ≡ record { qe = Some qe; blocks = blocks.old } }
        ensures left { blocks.new ≡ self.old.blocks }
    {
        self.qe = Some(qe);
        mem::swap(&mut self.blocks, blocks);
    }

    /// Whether a frame was taken.
    pub fn has_frame(&self) -> bool
        ensures yes { result ≡ true → IsSome (frame_of self.now) }
        ensures no { result ≡ false → ¬ IsSome (frame_of self.now) }
    {
        self.qe.is_some()
    }

    /// Whether a frame was taken that has a good block in a channel.
    pub fn has_good(&self, channel: u8) -> bool
        requires { channel < length self.now.blocks.blocks }
        ensures yes { result ≡ true → HasGood (blocks_in (frame_of self.now) channel) }
        ensures no { result ≡ false → ¬ HasGood (blocks_in (frame_of self.now) channel) }
    {
        self.qe.is_some() && is_any_good(self.blocks.channel(channel))
    }

    /// Whether a frame was taken that has a channel in this format, with block `b` good.
    pub fn has_good_block(&self, channel: u8, format: u8, b: usize) -> bool
        requires { channel < length self.now.blocks.blocks }
        ensures yes { result ≡ true → HasGoodBlock (blocks_in (frame_of self.now) channel) format b }
        ensures no { result ≡ false → ¬ HasGoodBlock (blocks_in (frame_of self.now) channel) format b }
    {
        self.qe.is_some() && is_good_in(self.blocks.channel(channel), format, b)
    }
}

/// Whether some block is good.
fn is_any_good(blocks: &TtiBlocks) -> bool
    ensures yes { result ≡ true → HasGood blocks.now }
    ensures no { result ≡ false → ¬ HasGood blocks.now }
{
    for b in 0..blocks.count() {
        if blocks.good(b) {
            return true;
        }
    }
    false
}

/// Whether blocks have this format, and block `b` is good.
fn is_good_in(blocks: &TtiBlocks, format: u8, b: usize) -> bool
    ensures yes { result ≡ true → HasGoodBlock blocks.now format b }
    ensures no { result ≡ false → ¬ HasGoodBlock blocks.now format b }
{
    blocks.format() == format && b < blocks.count() && blocks.good(b)
}
