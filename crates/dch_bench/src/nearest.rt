ghost use Rattle.std.specs.Prelude.{◌≡◌, ◌≤◌, ◌+◌, ◌*◌, ◌<◌, ◌^◌, length, IfOk};
ghost use Rattle.dch_coding.specs.Conv.{coded_length};
ghost use Rattle.dch_trellis.specs.Nearest.{all_copies};

use crate::chance::Chance;
use crate::sum::Sum;
use crate::work::{Unit, Work};
use dch_bits::{Bit, NoMemory, Vote};
use dch_coding::{Rate, coded_len, encode};
use dch_trellis::Trellis;
use std::alloc::Global;

/// The bits of a code block.
const SIZE: usize = 504;

/// How many code blocks are read at once.
const BLOCKS: u32 = 4;

/// How the copies of coded bits arrive.
#[derive(Clone, Copy)]
pub enum Arrival {
    /// Of one bit in 16 all copies are wrong, and of the others less than half.
    Damaged,
    /// As they were sent.
    Undamaged,
}

/// The nearest blocks to received ones.
#[derive(Drop)]
pub struct NearestBlocks {
    trellis: Trellis,
    blocks: Vec<ReceivedBlock>,
    ghost most: { trellis ≡ 504 },
}

impl NearestBlocks {
    /// Blocks of a rate, of which so many copies of each coded bit arrive, at most 40.
    pub fn open(
        alloc: Global,
        rate: Rate,
        copies: u32,
        arrival: Arrival,
    ) -> Result<NearestBlocks, NoMemory>
        requires { copies ≤ 40 }
    {
        let mut blocks = Vec::new(alloc);
        for start in 0..BLOCKS {
            let block = ReceivedBlock::make(alloc, rate, copies, arrival, start)?;
            blocks.push(block)?;
        }
        Ok(NearestBlocks {
            trellis: Trellis::open(alloc, SIZE)?,
            blocks,
        })
    }
}

impl Work for NearestBlocks {
    fn unit(&self) -> Unit {
        Unit::Blocks
    }

    fn amount(&self) -> u64 {
        self.blocks.len() as u64
    }

    fn run(&mut self) {
        read_all(&mut self.trellis, &mut self.blocks);
    }

    fn sum(&self) -> u32 {
        let mut sum = Sum::new();
        for block in &self.blocks {
            sum.bits(&block.found);
            sum.number(block.differing);
        }
        sum.value()
    }
}

fn read_all(trellis: &mut Trellis, blocks: &mut [ReceivedBlock])
    requires { trellis.old ≡ 504 }
    ensures { trellis.new ≡ 504 }
{
    for block in blocks {
        block.read(trellis);
    }
}

/// A received block: the copies of its coded bits, and the nearest block, which differs from so many.
#[derive(Drop)]
struct ReceivedBlock {
    rate: Rate,
    votes: Vec<Vote>,
    found: Vec<Bit>,
    differing: u32,
    ghost coded: { length votes.items ≡ coded_length rate 504 },
    ghost few: { all_copies votes.items < 2 ^ 31 },
    ghost size: { length found.items ≡ 504 },
}

impl ReceivedBlock {
    /// Codes a block, of whose coded bits so many copies arrive.
    fn make(
        alloc: Global,
        rate: Rate,
        copies: u32,
        arrival: Arrival,
        start: u32,
    ) -> Result<ReceivedBlock, NoMemory>
        requires { copies ≤ 40 }
    {
        let mut chance = Chance::new(start);
        let mut block = vec![in alloc; Bit::Zero; SIZE]?;
        chance.fill(&mut block);
        let mut coded = vec![in alloc; Bit::Zero; coded_len(rate, SIZE)]?;
        encode(rate, &block, &mut coded);
        Ok(ReceivedBlock {
            rate,
            votes: received(alloc, &coded, copies, arrival, &mut chance)?,
            found: block,
            differing: 0,
        })
    }

    fn read(&mut self, trellis: &mut Trellis)
        requires { trellis.old ≡ 504 }
        ensures { trellis.new ≡ 504 }
    {
        self.differing = trellis.nearest(self.rate, &self.votes, 0, &mut self.found);
    }
}

/// So many copies of each coded bit.
fn received(
    alloc: Global,
    coded: &[Bit],
    copies: u32,
    arrival: Arrival,
    chance: &mut Chance,
) -> Result<Vec<Vote>, NoMemory>
    requires { copies ≤ 40 }
    ensures long { IfOk result (λ votes. length votes.items ≡ length coded.now) }
    ensures few { IfOk result (λ votes. all_copies votes.items ≤ length coded.now * 40) }
{
    let mut votes = Vec::new(alloc);
    for bit in coded {
        let wrong = wrong_copies(copies, arrival, chance.number());
        votes.push(copies_of(*bit, copies, wrong))?;
    }
    Ok(votes)
}

/// How many of the copies of a bit are wrong, by a number below 65,536.
fn wrong_copies(copies: u32, arrival: Arrival, number: u32) -> u32
    requires { copies ≤ 40 }
    ensures { result ≤ copies }
{
    match arrival {
        Arrival::Undamaged => 0,
        Arrival::Damaged if number < 4096 => copies,
        Arrival::Damaged => number % (copies / 2 + 1),
    }
}

/// The copies of a bit, so many of which are wrong.
fn copies_of(bit: Bit, copies: u32, wrong: u32) -> Vote
    requires all { copies ≤ 40 }
    requires wrong { wrong ≤ copies }
    ensures { result.zeros + result.ones ≤ 40 }
{
    let right = copies - wrong;
    match bit {
        Bit::Zero => Vote {
            zeros: right,
            ones: wrong,
        },
        Bit::One => Vote {
            zeros: wrong,
            ones: right,
        },
    }
}
