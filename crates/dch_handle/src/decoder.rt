ghost use Rattle.std.specs.Prelude.{◌≡◌, ◌+◌, ◌*◌, ◌<◌, ◌≤◌, ◌^◌, true, false, length, map, take, IfOk};
ghost use Rattle.dch_coding.specs.Conv.{coded_length};
ghost use Rattle.dch_trellis.specs.Nearest.{all_copies};
ghost use Rattle.dch_handle.specs.Decoding.{IsRead, Suits, vote_of, votes_of};

use dch_bits::{Bit, NoMemory, Vote, bits_text};
use dch_coding::{Rate, coded_len};
use dch_trellis::Trellis;
use std::alloc::Global;
use std::marker::Model;

/// The received copies of a coded bit, as C has them: how many are `0`, and how many `1`.
#[repr(C)]
#[derive(Clone, Copy, Debug, PartialEq, Eq)]
pub struct Copies {
    pub zeros: u32,
    pub ones: u32,
}

/// The decoder of code blocks of up to so many bits, with room for their copies. Contracts see that number.
#[derive(Drop)]
pub struct Decoder {
    most: usize,
    trellis: Trellis,
    votes: Vec<Vote>,
    bits: Vec<Bit>,
}

impl Model for Decoder {
    ghost use Rattle.std.specs.Prelude.{ℕ};
    ghost use Rattle.dch_handle.specs.DecoderRoom.{HasDecoderRoom};

    ghost Value = { ℕ };

    ghost view = { λ d. d.most };

    ghost invariant = { λ d. HasDecoderRoom d.most d.trellis d.votes.items d.bits.items };
}

impl Decoder {
    /// Takes the memory for code blocks of up to `most` bits, at most 504. Nothing more is taken later.
    pub fn open(alloc: Global, most: usize) -> Result<Decoder, NoMemory>
        requires { most ≤ 504 }
        ensures { IfOk result (λ decoder. decoder ≡ most) }
    {
        Ok(Decoder {
            most,
            trellis: Trellis::open(alloc, most)?,
            votes: vec![in alloc; Vote { zeros: 0, ones: 0 }; 3 * (most + 8)]?,
            bits: vec![in alloc; Bit::Zero; most]?,
        })
    }

    /// Whether such copies can be read as a block of so many bits with so much filler.
    pub fn suits(&self, rate: Rate, copies: &[Copies], filler: usize, size: usize) -> bool
        ensures yes { result ≡ true → Suits self.now rate copies.now filler size }
        ensures no { result ≡ false → ¬ Suits self.now rate copies.now filler size }
    {
        size != 0
            && size <= self.most
            && filler <= size
            && copies.len() == coded_len(rate, size)
            && are_few(copies)
    }

    /// Reads a block from the received copies of its coded bits (TS 25.212 4.2.3.1), and writes its letters. The answer
    /// is how many copies disagree with it.
    pub fn nearest(&mut self, rate: Rate, copies: &[Copies], filler: usize, block: &mut [u8]) -> u32
        requires { Suits self.old rate copies.now filler (length block.old) }
        ensures read { IsRead rate copies.now (length block.old) filler block.new result }
        ensures kept { self.new ≡ self.old }
    {
        write_votes(copies, self.votes.slice_mut(..copies.len()));
        let votes = &self.votes[..copies.len()];
        let bits = self.bits.slice_mut(..block.len());
        let disagreeing = self.trellis.nearest(rate, votes, filler, bits);
        bits_text(&self.bits[..block.len()], block);
        disagreeing
    }
}

/// Writes the copies as votes.
fn write_votes(copies: &[Copies], votes: &mut [Vote])
    requires { length votes.old ≡ length copies.now }
    ensures { votes.new ≡ votes_of copies.now }
{
    for (i, each) in copies.iter().enumerate() {
        votes[i] = vote(*each);
    }
}

fn vote(copies: Copies) -> Vote
    ensures { result ≡ vote_of copies }
{
    Vote {
        zeros: copies.zeros,
        ones: copies.ones,
    }
}

/// Whether there are fewer than 2^31 copies in all, of at most 2^16 coded bits.
fn are_few(copies: &[Copies]) -> bool
    requires { length copies.now ≤ 2 ^ 16 }
    ensures yes { result ≡ true → all_copies (votes_of copies.now) < 2 ^ 31 }
    ensures no { result ≡ false → ¬ (all_copies (votes_of copies.now) < 2 ^ 31) }
{
    let mut all = 0u64;
    for each in copies {
        all += u64::from(each.zeros) + u64::from(each.ones);
    }
    all < 1 << 31
}
