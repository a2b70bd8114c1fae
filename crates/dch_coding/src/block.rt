ghost use Rattle.std.specs.Prelude.{◌≡◌, ◌≤◌, ◌+◌, ◌*◌, length, take};
ghost use Rattle.dch_types.specs.Lengths.{coded_block};
ghost use Rattle.dch_coding.specs.Chain.{IsCoded};
ghost use Rattle.dch_coding.specs.Segments.{plan_of};
ghost use Rattle.dch_coding.specs.declared.block.TheConstants.{ATTACHED, BLOCKS, CODED};

use crate::chain::{code_filled, coded_length};
use crate::cut::Plan;
use crate::cutting::plan;
use crate::memory::zeros;
use crate::parity::{attach, size};
use dch_bits::{Bit, NoMemory};
use dch_types::{Coding, Crc, MAX_BLOCK_BITS};
use std::alloc::Global;

/// The most bits of a transport block with its parity.
const ATTACHED: usize = MAX_BLOCK_BITS + 24;

/// The most bits of its code blocks, of which there are at most ten, with their filler.
const BLOCKS: usize = ATTACHED + 10;

/// The most bits of its code.
pub const CODED: usize = 3 * (BLOCKS + 8 * 10);

/// The room to code one transport block of at most 5,000 bits at a time.
#[derive(Drop)]
pub struct BlockCoder {
    blocks: Vec<Bit>,
    coded: Vec<Bit>,
    ghost blocks_room: { length blocks.items ≡ BLOCKS },
    ghost coded_room: { length coded.items ≡ CODED },
}

impl BlockCoder {
    /// Takes all memory that coding wants.
    pub fn open(alloc: Global) -> Result<BlockCoder, NoMemory> {
        Ok(BlockCoder {
            blocks: zeros(alloc, BLOCKS)?,
            coded: zeros(alloc, CODED)?,
        })
    }

    /// The coded bits of a transport block, to which its parity is attached first (TS 25.212 4.2.1 to 4.2.3).
    pub fn code(&mut self, coding: Coding, crc: Crc, bits: &[Bit]) -> &[Bit]
        requires { length bits.now ≤ 5000 }
        ensures coded { IsCoded coding crc bits.now result.now }
        ensures short { length result.now ≤ CODED }
    {
        let coded = code_into(coding, crc, bits, &mut self.blocks, &mut self.coded);
        &self.coded[..coded]
    }
}

/// Codes a transport block to the front of `out`, and answers how many coded bits there are. The block and its parity
/// are written straight behind the filler of their code blocks.
fn code_into(coding: Coding, crc: Crc, bits: &[Bit], blocks: &mut [Bit], out: &mut [Bit]) -> usize
    requires bits { length bits.now ≤ 5000 }
    requires blocks { length blocks.old ≡ BLOCKS }
    requires room { length out.old ≡ CODED }
    ensures fits { result ≤ CODED }
    ensures coded { IsCoded coding crc bits.now (take result out.new) }
{
    let plan = plan_of_block(coding, bits.len() + size(crc));
    let coded = plan.blocks * coded_length(coding, plan.size);
    let blocks = &mut blocks[..plan.blocks * plan.size];
    let (filler, joined) = blocks.split_at_mut(plan.filler);
    filler.fill(Bit::Zero);
    attach(crc, bits, joined);
    code_filled(coding, &plan, blocks, &mut out[..coded]);
    coded
}

/// How a transport block with its parity is cut.
fn plan_of_block(coding: Coding, joined: usize) -> Plan
    requires { joined ≤ ATTACHED }
    ensures value { result ≡ plan_of joined coding }
    ensures whole { result.filler + joined ≡ result.blocks * result.size }
    ensures few_blocks { result.blocks * result.size ≤ BLOCKS }
    ensures few_coded { result.blocks * coded_block coding result.size ≤ CODED }
{
    plan(joined, coding)
}
