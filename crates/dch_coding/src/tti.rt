ghost use Rattle.std.specs.Prelude.{◌≡◌, ◌+◌, ◌*◌, ◌≤◌, length, IfOk};
ghost use Rattle.dch_types.specs.Lengths.{crc_size, joined_bits, coded_block, tti_bits};
ghost use Rattle.dch_coding.specs.Segments.{plan_of};
ghost use Rattle.dch_coding.specs.Ttis.{ArePartsUpTo, IsCodedTti};

use crate::chain::code_filled;
use crate::cut::Plan;
use crate::cutting::plan;
use crate::memory::zeros;
use crate::parity::attach;
use dch_bits::{Bit, NoMemory};
use dch_types::{Crc, Format, Trch};
use std::alloc::Global;
use std::marker::Model;

/// The room to code all transport blocks of a TTI of up to so many coded bits. Contracts see that number. The code
/// blocks of a TTI with their filler are no more than its coded bits.
#[derive(Drop)]
pub struct TtiCoder {
    blocks: Vec<Bit>,
}

impl Model for TtiCoder {
    ghost use Rattle.std.specs.Prelude.{ℕ, length};

    ghost Value = { ℕ };

    ghost view = { λ c. length c.blocks.items };
}

impl TtiCoder {
    /// Takes the memory for TTIs of up to `most` coded bits. Nothing more is taken later.
    pub fn open(alloc: Global, most: usize) -> Result<TtiCoder, NoMemory>
        ensures { IfOk result (λ coder. coder ≡ most) }
    {
        Ok(TtiCoder {
            blocks: zeros(alloc, most)?,
        })
    }

    /// The coded bits of the transport blocks of a TTI, which stand one after another. Each gets its parity, and all
    /// are joined, cut and coded (TS 25.212 4.2.1 to 4.2.3).
    pub fn code(&mut self, channel: &Trch, format: &Format, blocks: &[Bit], out: &mut [Bit])
        requires limit { tti_bits channel.now format.now ≤ 131072 }
        requires fits { tti_bits channel.now format.now ≤ self.old }
        requires blocks { length blocks.now ≡ format.now.number * format.now.size }
        requires room { length out.old ≡ tti_bits channel.now format.now }
        ensures coded { IsCodedTti channel.now format.now blocks.now out.new }
        ensures kept { self.new ≡ self.old }
    {
        code_into(channel, format, blocks, &mut self.blocks, out);
    }
}

/// Codes the blocks of a TTI, which are written with their parity straight behind the filler of its code blocks.
fn code_into(channel: &Trch, format: &Format, blocks: &[Bit], cut: &mut [Bit], out: &mut [Bit])
    requires limit { tti_bits channel.now format.now ≤ 131072 }
    requires blocks { length blocks.now ≡ format.now.number * format.now.size }
    requires cut { tti_bits channel.now format.now ≤ length cut.old }
    requires room { length out.old ≡ tti_bits channel.now format.now }
    ensures { IsCodedTti channel.now format.now blocks.now out.new }
{
    let plan = plan_of_tti(channel, format);
    let cut = &mut cut[..plan.blocks * plan.size];
    let (filler, joined) = cut.split_at_mut(plan.filler);
    filler.fill(Bit::Zero);
    attach_each(channel.crc, format, blocks, joined);
    code_filled(channel.coding, &plan, cut, out);
}

/// How the joined bits of a TTI of a channel in a format are cut (TS 25.212 4.2.2.2).
#[tactic(auto, unfolding(dch_types::specs::Lengths::tti_bits))]
pub fn plan_of_tti(channel: &Trch, format: &Format) -> Plan
    requires { tti_bits channel.now format.now ≤ 131072 }
    ensures value { result ≡ plan_of (joined_bits channel.now format.now) channel.now.coding }
    ensures whole { result.filler + joined_bits channel.now format.now ≡ result.blocks * result.size }
    ensures coded { tti_bits channel.now format.now ≡ result.blocks * coded_block channel.now.coding result.size }
    ensures few { result.blocks * result.size ≤ tti_bits channel.now format.now }
{
    plan(channel.joined_bits(format) as usize, channel.coding)
}

/// Writes each transport block of a TTI with its parity, one after another (TS 25.212 4.2.1).
pub fn attach_each(kind: Crc, format: &Format, blocks: &[Bit], out: &mut [Bit])
    requires blocks { length blocks.now ≡ format.now.number * format.now.size }
    requires room { length out.old ≡ format.now.number * (format.now.size + crc_size kind) }
    ensures { ArePartsUpTo format.now.number kind format.now.size blocks.now out.new }
{
    let size = usize::from(format.size);
    let attached = size + crate::parity::size(kind);
    for i in 0..usize::from(format.number) {
        let from = i * size;
        let to = i * attached;
        attach(
            kind,
            &blocks[from..from + size],
            &mut out[to..to + attached],
        );
    }
}
