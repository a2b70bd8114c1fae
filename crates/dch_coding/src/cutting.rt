ghost use Rattle.std.specs.Prelude.{◌≡◌, ◌≢◌, ◌+◌, ◌*◌, ◌^◌, ◌<◌, ◌≤◌, ◌++◌, ℕ, List, length, replicate, drop, slice_index_or};
ghost use Rattle.dch_bits.specs.declared.bit.Bit.{Bit};
ghost use Rattle.dch_bits.specs.declared.bit.Bit.TheVariants.{Zero};
ghost use Rattle.dch_types.specs.declared.channel.Coding.TheVariants.{Uncoded};
ghost use Rattle.dch_coding.specs.Segments.{plan_of, IsPlan, block_bit, place_of};

use crate::cut::Plan;
use dch_bits::Bit;
use dch_types::{Coding, block_size};

/// How `x` joined bits are cut. No bits are cut into no blocks.
pub fn plan(x: usize, coding: Coding) -> Plan
    requires { x ≤ 2 ^ 31 }
    ensures value { result ≡ plan_of x coding }
    ensures made { IsPlan result }
    ensures whole { result.filler + x ≡ result.blocks * result.size }
    ensures few { 0 < x → result.filler < result.size }
    ensures short { coding ≢ Uncoded → result.size ≤ 504 }
{
    let blocks = coding.block_count(x as u64);
    let size = block_size(x as u64, blocks);
    Plan {
        bits: x,
        blocks: blocks as usize,
        size: size as usize,
        filler: (blocks * size) as usize - x,
    }
}

/// The number of the code block that joined bit `i` lies in, and its place there. `None` past the joined bits.
pub fn place(plan: &Plan, i: usize) -> Option<(usize, usize)>
    requires { IsPlan plan.now }
    ensures { result ≡ place_of plan.now i }
{
    if i >= plan.bits {
        return None;
    }
    Some(((i + plan.filler) / plan.size, (i + plan.filler) % plan.size))
}

/// Cuts the joined bits into code blocks, which follow one another in `out`. The first one begins with the filler
/// zeros.
pub fn split(plan: &Plan, joined: &[Bit], out: &mut [Bit])
    requires plan { IsPlan plan.now }
    requires joined { length joined.now ≡ plan.now.bits }
    requires room { length out.old ≡ plan.now.blocks * plan.now.size }
    ensures bits { (r k : ℕ) → r < plan.now.blocks → k < plan.now.size →
        slice_index_or out.new (r * plan.now.size + k) Zero ≡ block_bit plan.now joined.now r k }
    ensures whole { out.new ≡ replicate plan.now.filler Zero ++ joined.now }
{
    let (filler, bits) = out.split_at_mut(plan.filler);
    filler.fill(Bit::Zero);
    bits.copy_from_slice(joined);
}

/// Joins code blocks, which follow one another, and leaves the filler bits out.
pub fn join(plan: &Plan, blocks: &[Bit], out: &mut [Bit])
    requires plan { IsPlan plan.now }
    requires blocks { length blocks.now ≡ plan.now.blocks * plan.now.size }
    requires room { length out.old ≡ plan.now.bits }
    ensures bits { out.new ≡ drop plan.now.filler blocks.now }
    ensures undoes_split { (joined : List Bit) → blocks.now ≡ replicate plan.now.filler Zero ++ joined →
        out.new ≡ joined }
{
    out.copy_from_slice(&blocks[plan.filler..]);
}
