ghost use Rattle.std.specs.Prelude.{◌≡◌, [], ◌∷◌, ◌++◌, MatchOption, drop, if◌then◌else◌, is_ok};

use dch_bits::NoMemory;
use std::alloc::Global;
use std::collections::VecDeque;
use std::marker::Model;

/// Blocks in flight to one end, in the order in which they were built. It takes memory as it grows.
#[derive(Drop)]
pub struct Line {
    alloc: Global,
    blocks: VecDeque<Vec<u8>>,
}

impl Model for Line {
    ghost use Rattle.std.specs.Prelude.{List, ℕ, map};

    ghost Value = { List (List ℕ) };

    ghost view = { λ l. map (λ b. b.items) l.blocks.items };
}

impl Line {
    /// No block.
    pub fn new(alloc: Global) -> Line
        ensures { result ≡ [] }
    {
        Line {
            alloc,
            blocks: VecDeque::new(alloc),
        }
    }

    /// One block more, behind the others.
    pub fn push(&mut self, block: &[u8]) -> Result<(), NoMemory>
        ensures { self.new ≡ (if is_ok result then self.old ++ block.now ∷ [] else self.old) }
    {
        let block = Vec::from_slice(self.alloc, block)?;
        self.blocks.push_back(block)?;
        Ok(())
    }

    /// Takes the first block, where there is one.
    pub fn pop(&mut self) -> Option<Vec<u8>>
        ensures first { MatchOption result (self.old ≡ []) (λ block. self.old ≡ block.items ∷ self.new) }
        ensures rest { self.new ≡ drop 1 self.old }
    {
        self.blocks.pop_front()
    }
}
