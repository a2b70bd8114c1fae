ghost use Rattle.std.specs.Prelude.{◌≡◌, length};
ghost use Rattle.dch_coding.specs.Conv.{coded_length};

use crate::chance::Chance;
use crate::sum::Sum;
use crate::work::{Unit, Work};
use dch_bits::{Bit, NoMemory};
use dch_coding::{Rate, coded_len, encode};
use std::alloc::Global;

/// The bits of a code block.
const SIZE: usize = 504;

/// How many code blocks are coded at once.
const BLOCKS: u32 = 16;

/// Code blocks that are coded.
#[derive(Drop)]
pub struct CodedBlocks {
    blocks: Vec<CodedBlock>,
}

impl CodedBlocks {
    /// Blocks by chance, of a rate.
    pub fn open(alloc: Global, rate: Rate) -> Result<CodedBlocks, NoMemory> {
        let mut chance = Chance::new(504);
        let mut blocks = Vec::new(alloc);
        for _ in 0..BLOCKS {
            blocks.push(CodedBlock::make(alloc, rate, &mut chance)?)?;
        }
        Ok(CodedBlocks { blocks })
    }
}

impl Work for CodedBlocks {
    fn unit(&self) -> Unit {
        Unit::Bits
    }

    fn amount(&self) -> u64 {
        u64::from(BLOCKS) * SIZE as u64
    }

    fn run(&mut self) {
        for block in &mut self.blocks {
            block.code();
        }
    }

    fn sum(&self) -> u32 {
        let mut sum = Sum::new();
        for block in &self.blocks {
            sum.bits(&block.coded);
        }
        sum.value()
    }
}

/// A code block, and its coded bits.
#[derive(Drop)]
struct CodedBlock {
    rate: Rate,
    bits: Vec<Bit>,
    coded: Vec<Bit>,
    ghost size: { length bits.items ≡ 504 },
    ghost room: { length coded.items ≡ coded_length rate 504 },
}

impl CodedBlock {
    fn make(alloc: Global, rate: Rate, chance: &mut Chance) -> Result<CodedBlock, NoMemory> {
        let mut bits = vec![in alloc; Bit::Zero; SIZE]?;
        chance.fill(&mut bits);
        Ok(CodedBlock {
            rate,
            bits,
            coded: vec![in alloc; Bit::Zero; coded_len(rate, SIZE)]?,
        })
    }

    fn code(&mut self) {
        encode(self.rate, &self.bits, &mut self.coded);
    }
}
