ghost use Rattle.std.specs.Prelude.{◌≡◌, ◌<◌, ◌≤◌, ◌+◌, ◌*◌, ◌++◌, length, replicate, take, IfOk};
ghost use Rattle.dch_bits.specs.declared.bit.Bit.TheVariants.{Zero};
ghost use Rattle.dch_types.specs.Lengths.{block_count, block_size, coded_bits, coded_block, crc_size, joined_bits, tti_bits};
ghost use Rattle.dch_coding.specs.Chain.{code_block, coded_as, coded_of};
ghost use Rattle.dch_coding.specs.Segments.{plan_of};
ghost use Rattle.dch_coding.specs.Ttis.{AreJoined, ArePartsUpTo, part};
ghost use Rattle.dch_stages.specs.Coded.{AreCut, IsCoded};

use dch_bits::{Bit, NoMemory};
use dch_coding::{attach_each, code, plan, plan_of_tti, size, split};
use dch_types::{Crc, Format, Trch, block_size};
use std::alloc::Global;
use std::marker::Model;

/// The transport blocks of a TTI with their parity, its code blocks with their filler, and its coded bits.
#[derive(Drop)]
pub struct CodedTti {
    joined: Vec<Bit>,
    blocks: Vec<Bit>,
    coded: Vec<Bit>,
    lengths: Lengths,
}

impl Model for CodedTti {
    ghost use Rattle.std.specs.Prelude.{◌≡◌, ◌≤◌, length, take};
    ghost use Rattle.dch_stages.specs.Coded.{Coded};

    ghost Value = { Coded };

    ghost view = { λ s. record {
      joined = take s.lengths.joined s.joined.items;
      blocks = take s.lengths.blocks s.blocks.items;
      coded = take s.lengths.coded s.coded.items;
      room =
          length s.joined.items;
    } };

    ghost invariant = { λ s. (s.lengths.joined ≤ length s.joined.items) × (s.lengths.blocks ≤ length s.blocks.items) ×
        (s.lengths.coded ≤ length s.coded.items) × (length s.blocks.items ≡ length s.joined.items) ×
        (length s.coded.items ≡ length s.joined.items) };
}

impl CodedTti {
    /// Takes the memory for TTIs of up to `most` coded bits. Nothing is coded.
    pub fn open(alloc: Global, most: usize) -> Result<CodedTti, NoMemory>
        ensures { IfOk result (λ tti. tti.room ≡ most) }
    {
        Ok(CodedTti {
            joined: vec![in alloc; Bit::Zero; most]?,
            blocks: vec![in alloc; Bit::Zero; most]?,
            coded: vec![in alloc; Bit::Zero; most]?,
            lengths: Lengths {
                joined: 0,
                blocks: 0,
                coded: 0,
            },
        })
    }

    /// Codes the transport blocks of a TTI, which stand one after another.
    pub fn code(&mut self, channel: &Trch, format: &Format, bits: &[Bit])
        requires limit { tti_bits channel.now format.now ≤ 131072 }
        requires fits { tti_bits channel.now format.now ≤ self.old.room }
        requires bits { length bits.now ≡ format.now.number * format.now.size }
        ensures coded { IsCoded channel.now format.now bits.now self.new }
        ensures cut { AreCut channel.now format.now self.new }
        ensures room { self.new.room ≡ self.old.room }
    {
        self.lengths = code_fronts(
            channel,
            format,
            bits,
            &mut self.joined,
            &mut self.blocks,
            &mut self.coded,
        );
    }

    /// The transport blocks with their parity, one after another.
    pub fn joined(&self) -> &[Bit]
        ensures { result.now ≡ self.now.joined }
    {
        &self.joined[..self.lengths.joined]
    }

    /// The code blocks with their filler, one after another.
    pub fn blocks(&self) -> &[Bit]
        ensures { result.now ≡ self.now.blocks }
    {
        &self.blocks[..self.lengths.blocks]
    }

    /// The coded bits.
    pub fn coded(&self) -> &[Bit]
        ensures { result.now ≡ self.now.coded }
    {
        &self.coded[..self.lengths.coded]
    }

    /// Transport block `r` with its parity.
    pub fn attached(&self, channel: &Trch, format: &Format, r: usize) -> &[Bit]
        requires cut { AreCut channel.now format.now self.now }
        requires limit { tti_bits channel.now format.now ≤ 131072 }
        requires block { r < format.now.number }
        ensures part { result.now ≡ part r (format.now.size + crc_size channel.now.crc) self.now.joined }
        ensures short { length result.now ≤ 131072 }
    {
        part_of(
            self.joined(),
            usize::from(format.size) + size(channel.crc),
            r,
        )
    }

    /// Code block `r` with its filler.
    pub fn block(&self, channel: &Trch, format: &Format, r: usize) -> &[Bit]
        requires cut { AreCut channel.now format.now self.now }
        requires limit { tti_bits channel.now format.now ≤ 131072 }
        requires block { r < (plan_of (length self.now.joined) channel.now.coding).blocks }
        ensures part { result.now ≡ code_block (plan_of (length self.now.joined) channel.now.coding) self.now.joined r }
        ensures short { length result.now ≤ 131072 }
    {
        part_of(self.blocks(), plan_of_tti(channel, format).size, r)
    }

    /// The code of code block `r`.
    pub fn coded_block(&self, channel: &Trch, format: &Format, r: usize) -> &[Bit]
        requires cut { AreCut channel.now format.now self.now }
        requires limit { tti_bits channel.now format.now ≤ 131072 }
        requires block { r < (plan_of (length self.now.joined) channel.now.coding).blocks }
        ensures part { result.now ≡ coded_as channel.now.coding
            (code_block (plan_of (length self.now.joined) channel.now.coding) self.now.joined r) }
        ensures short { length result.now ≤ 131072 }
    {
        let size = plan_of_tti(channel, format).size;
        let coded = channel.coding.coded_block(size as u64) as usize;
        part_of(self.coded(), coded, r)
    }
}

/// Part `r` of a list that is cut into parts of one size.
fn part_of(bits: &[Bit], size: usize, r: usize) -> &[Bit]
    requires { r * size + size ≤ length bits.now }
    ensures { result.now ≡ part r size bits.now }
{
    let from = r * size;
    &bits[from..from + size]
}

/// How many bits the blocks of a TTI have with their parity, its code blocks with their filler, and its code.
#[derive(Clone, Copy)]
struct Lengths {
    joined: usize,
    blocks: usize,
    coded: usize,
}

impl Lengths {
    #[tactic(auto, unfolding(dch_types::specs::Lengths::tti_bits))]
    fn of(channel: &Trch, format: &Format) -> Lengths
        requires { tti_bits channel.now format.now ≤ 131072 }
        ensures joined { result.joined ≡ joined_bits channel.now format.now }
        ensures blocks { result.blocks ≡ block_count result.joined channel.now.coding * block_size result.joined
            (block_count result.joined channel.now.coding) }
        ensures coded { result.coded ≡ coded_bits channel.now.coding result.joined }
        ensures whole { result.coded ≡ tti_bits channel.now format.now }
        ensures few_joined { result.joined ≤ result.coded }
        ensures few_blocks { result.blocks ≤ result.coded }
    {
        let joined = channel.joined_bits(format);
        let count = channel.coding.block_count(joined);
        Lengths {
            joined: joined as usize,
            blocks: (count * block_size(joined, count)) as usize,
            coded: channel.coding.coded_bits(joined) as usize,
        }
    }
}

/// Writes the blocks of a TTI with their parity, its code blocks and its code to the fronts of three lists, and answers
/// how long they are.
fn code_fronts(
    channel: &Trch,
    format: &Format,
    bits: &[Bit],
    joined: &mut [Bit],
    blocks: &mut [Bit],
    coded: &mut [Bit],
) -> Lengths
    requires limit { tti_bits channel.now format.now ≤ 131072 }
    requires bits { length bits.now ≡ format.now.number * format.now.size }
    requires joined { tti_bits channel.now format.now ≤ length joined.old }
    requires blocks { tti_bits channel.now format.now ≤ length blocks.old }
    requires coded { tti_bits channel.now format.now ≤ length coded.old }
    ensures joined { AreJoined channel.now format.now bits.now (take result.joined joined.new) }
    ensures blocks { take result.blocks blocks.new ≡ replicate
        (plan_of (length (take result.joined joined.new)) channel.now.coding).filler Zero ++
        take result.joined joined.new }
    ensures coded { take result.coded coded.new ≡ coded_of channel.now.coding (take result.joined joined.new) }
    ensures few_joined { result.joined ≤ length joined.new }
    ensures few_blocks { result.blocks ≤ length blocks.new }
    ensures few_coded { result.coded ≤ length coded.new }
{
    let lengths = Lengths::of(channel, format);
    code_into(
        channel,
        format,
        bits,
        &mut joined[..lengths.joined],
        &mut blocks[..lengths.blocks],
        &mut coded[..lengths.coded],
    );
    lengths
}

/// Writes the blocks of a TTI with their parity, its code blocks and its code.
fn code_into(
    channel: &Trch,
    format: &Format,
    bits: &[Bit],
    joined: &mut [Bit],
    blocks: &mut [Bit],
    coded: &mut [Bit],
)
    requires bits { length bits.now ≡ format.now.number * format.now.size }
    requires short { length joined.old ≤ 131072 }
    requires joined { length joined.old ≡ joined_bits channel.now format.now }
    requires blocks { length blocks.old ≡ block_count (joined_bits channel.now format.now)
        channel.now.coding * block_size (joined_bits channel.now format.now)
        (block_count (joined_bits channel.now format.now) channel.now.coding) }
    requires coded { length coded.old ≡ coded_bits channel.now.coding (joined_bits channel.now format.now) }
    ensures joined { AreJoined channel.now format.now bits.now joined.new }
    ensures blocks { blocks.new ≡ replicate (plan_of (length joined.new) channel.now.coding).filler Zero ++ joined.new }
    ensures coded { coded.new ≡ coded_of channel.now.coding joined.new }
{
    attach_each(channel.crc, format, bits, joined);
    code(channel.coding, joined, blocks, coded);
    split(&plan(joined.len(), channel.coding), joined, blocks);
}
