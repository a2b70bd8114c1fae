ghost use Rattle.std.specs.Prelude.{◌≡◌, ◌≢◌, ◌<◌, ◌≤◌, ◌*◌, ◌^◌, ◌++◌, List, length, replicate};
ghost use Rattle.dch_bits.specs.declared.bit.Bit.{Bit};
ghost use Rattle.dch_bits.specs.declared.bit.Bit.TheVariants.{Zero};
ghost use Rattle.dch_types.specs.declared.channel.Coding.TheVariants.{Uncoded};
ghost use Rattle.dch_types.specs.Lengths.{block_count, block_size, coded_block, coded_bits};
ghost use Rattle.dch_coding.specs.Segments.{plan_of};
ghost use Rattle.dch_coding.specs.Chain.{coded_as, coded_blocks, coded_of};
ghost use Rattle.dch_coding.specs.Cuts.{HoldsBlocks};

use crate::convolution::encode;
use crate::cut::Plan;
use crate::cutting::{plan, split};
use crate::rate::Rate;
use dch_bits::Bit;
use dch_types::Coding;

/// Cuts joined bits into code blocks and codes each (TS 25.212 4.2.2 and 4.2.3). `blocks` is room for the code blocks
/// with their filler, and `out` gets the coded bits of all blocks, one block after another.
pub fn code(coding: Coding, joined: &[Bit], blocks: &mut [Bit], out: &mut [Bit])
    requires short { length joined.now ≤ 2 ^ 31 }
    requires blocks { length blocks.old ≡ block_count (length joined.now) coding * block_size (length joined.now)
        (block_count (length joined.now) coding) }
    requires room { length out.old ≡ coded_bits coding (length joined.now) }
    ensures { out.new ≡ coded_of coding joined.now }
{
    let plan = plan(joined.len(), coding);
    split(&plan, joined, blocks);
    code_filled(coding, &plan, blocks, out);
}

/// Codes the code blocks of joined bits, which stand in `blocks` behind their filler zeros.
pub fn code_filled(coding: Coding, plan: &Plan, blocks: &[Bit], out: &mut [Bit])
    requires plan { plan.now ≡ plan_of plan.now.bits coding }
    requires short { plan.now.bits ≤ 2 ^ 31 }
    requires blocks { length blocks.now ≡ plan.now.blocks * plan.now.size }
    requires room { length out.old ≡ plan.now.blocks * coded_block coding plan.now.size }
    ensures { (joined : List Bit) → length joined ≡ plan.now.bits →
        blocks.now ≡ replicate plan.now.filler Zero ++ joined → out.new ≡ coded_of coding joined }
{
    code_blocks(coding, plan, blocks, out);
}

fn code_blocks(coding: Coding, plan: &Plan, blocks: &[Bit], out: &mut [Bit])
    requires blocks { length blocks.now ≡ plan.now.blocks * plan.now.size }
    requires short { plan.now.size ≤ 2 ^ 32 }
    requires coded { coding ≢ Uncoded → plan.now.size ≤ 504 }
    requires some { 0 < plan.now.blocks → 0 < plan.now.size }
    requires room { length out.old ≡ plan.now.blocks * coded_block coding plan.now.size }
    ensures { (joined : List Bit) → HoldsBlocks plan.now joined blocks.now →
        out.new ≡ coded_blocks coding plan.now joined plan.now.blocks }
{
    let size = plan.size;
    let coded = coded_length(coding, size);
    for r in 0..plan.blocks {
        let from = r * size;
        let to = r * coded;
        code_block(coding, &blocks[from..from + size], &mut out[to..to + coded]);
    }
}

/// The coded bits of a code block.
pub fn coded_length(coding: Coding, size: usize) -> usize
    requires { size ≤ 2 ^ 32 }
    ensures { result ≡ coded_block coding size }
{
    coding.coded_block(size as u64) as usize
}

/// Codes one code block.
fn code_block(coding: Coding, block: &[Bit], out: &mut [Bit])
    requires some { 0 < length block.now }
    requires short { coding ≢ Uncoded → length block.now ≤ 504 }
    requires room { length out.old ≡ coded_block coding (length block.now) }
    ensures { out.new ≡ coded_as coding block.now }
{
    match coding {
        Coding::Uncoded => out.copy_from_slice(block),
        Coding::Half => encode(Rate::Half, block, out),
        Coding::Third => encode(Rate::Third, block, out),
    }
}
