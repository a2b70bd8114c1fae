use crate::chance::Chance;
use crate::sum::Sum;
use crate::work::{Unit, Work};
use dch_bits::{Bit, NoMemory};
use dch_tfci::{Tfci, find};
use std::alloc::Global;

/// How many words are read at once.
const WORDS: u32 = 256;

/// The indexes nearest to received words of a TFCI.
#[derive(Drop)]
pub struct TfciWords {
    words: Vec<Word>,
}

/// The 30 bits that were received, and what was found.
#[derive(Clone, Copy)]
struct Word {
    received: [Bit; 30],
    found: Tfci,
}

impl TfciWords {
    /// Words of bits by chance.
    pub fn open(alloc: Global) -> Result<TfciWords, NoMemory> {
        let mut chance = Chance::new(30);
        let mut words = Vec::new(alloc);
        for _ in 0..WORDS {
            let mut word = Word {
                received: [Bit::Zero; 30],
                found: Tfci {
                    index: 0,
                    distance: 0,
                },
            };
            chance.fill(&mut word.received);
            words.push(word)?;
        }
        Ok(TfciWords { words })
    }
}

impl Work for TfciWords {
    fn unit(&self) -> Unit {
        Unit::Words
    }

    fn amount(&self) -> u64 {
        self.words.len() as u64
    }

    fn run(&mut self) {
        for word in &mut self.words {
            word.found = find(&word.received);
        }
    }

    fn sum(&self) -> u32 {
        let mut sum = Sum::new();
        for word in &self.words {
            sum.number(u32::from(word.found.index));
            sum.number(u32::from(word.found.distance));
        }
        sum.value()
    }
}
