ghost use Rattle.std.specs.Prelude.{◌≡◌, ◌+◌, length};
ghost use Rattle.dch_types.specs.Lengths.{crc_size};

use crate::chance::Chance;
use crate::sum::Sum;
use crate::work::{Unit, Work};
use dch_bits::{Bit, NoMemory};
use dch_coding::{attach, size};
use dch_types::Crc;
use std::alloc::Global;

/// The bits of the transport block, the most that one has.
const BITS: usize = 5000;

/// A transport block to which its parity is attached.
#[derive(Drop)]
pub struct ParityBlock {
    kind: Crc,
    block: Vec<Bit>,
    attached: Vec<Bit>,
    ghost room: { length attached.items ≡ length block.items + crc_size kind },
    ghost long: { length block.items ≡ 5000 },
}

impl ParityBlock {
    /// A block by chance, and so many parity bits.
    pub fn open(alloc: Global, kind: Crc) -> Result<ParityBlock, NoMemory> {
        let mut block = vec![in alloc; Bit::Zero; BITS]?;
        Chance::new(5000).fill(&mut block);
        Ok(ParityBlock {
            kind,
            block,
            attached: vec![in alloc; Bit::Zero; BITS + size(kind)]?,
        })
    }
}

impl Work for ParityBlock {
    fn unit(&self) -> Unit {
        Unit::Bits
    }

    fn amount(&self) -> u64 {
        self.block.len() as u64
    }

    fn run(&mut self) {
        attach(self.kind, &self.block, &mut self.attached);
    }

    fn sum(&self) -> u32 {
        let mut sum = Sum::new();
        sum.bits(&self.attached);
        sum.value()
    }
}
