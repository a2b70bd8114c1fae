ghost use Rattle.std.specs.Prelude.{◌≡◌, ◌≢◌, ◌≤◌, true, false, length, IfOk};
ghost use Rattle.dch_types.specs.declared.channel.Coding.TheVariants.{Uncoded};
ghost use Rattle.dch_types.specs.Lengths.{coded_block};
ghost use Rattle.dch_coding.specs.Conv.{coded_length};
ghost use Rattle.dch_collision.specs.Hidden.{coding_of};
ghost use Rattle.dch_collision.specs.Collisions.{copies_kept, IsFirstCollision, NoneCollide};

use crate::coded::find_coded;
use crate::uncoded::find_uncoded;
use dch_bits::{Bit, NoMemory, Vote};
use dch_coding::Rate;
use dch_trellis::Trellis;
use dch_types::Coding;
use std::alloc::Global;
use std::marker::Model;

/// The memory of the search for code blocks that no receiver can tell apart, for blocks that are coded and have up to
/// so many bits. Contracts see that number.
#[derive(Drop)]
pub struct Collider {
    trellis: Trellis,
    votes: Vec<Vote>,
}

impl Model for Collider {
    ghost use Rattle.std.specs.Prelude.{◌≡◌, ◌+◌, ◌*◌, ℕ, length};

    ghost Value = { ℕ };

    ghost view = { λ c. c.trellis };

    ghost invariant = { λ c. length c.votes.items ≡ 3 * (c.trellis + 8) };
}

impl Collider {
    /// Takes the memory for coded blocks of up to `most` bits, at most 504. Nothing more is taken later.
    pub fn open(alloc: Global, most: usize) -> Result<Collider, NoMemory>
        requires { most ≤ 504 }
        ensures { IfOk result (λ collider. collider ≡ most) }
    {
        Ok(Collider {
            trellis: Trellis::open(alloc, most)?,
            votes: no_votes(alloc, 3 * (most + 8))?,
        })
    }

    /// Whether two different code blocks of the length of `out`, with so many zeros of filler in front, have equal
    /// coded bits wherever `sent_flags` tells that a copy is sent (TS 25.212 4.2.3 and 4.2.7). If so, `out` becomes the
    /// first block in text order, 0 before 1, that collides with the block of zeros; otherwise it holds no answer.
    pub fn find(
        &mut self,
        coding: Coding,
        filler: usize,
        sent_flags: &[bool],
        out: &mut [Bit],
    ) -> bool
        requires short { coding ≢ Uncoded → length out.old ≤ 504 }
        requires fits { coding ≢ Uncoded → length out.old ≤ self.old }
        requires filler { filler ≤ length out.old }
        requires coded { length sent_flags.now ≡ coded_block coding (length out.old) }
        ensures found { result ≡ true →
            IsFirstCollision coding (length out.old) filler (copies_kept sent_flags.now) out.new }
        ensures none { result ≡ false → NoneCollide coding (length out.old) filler (copies_kept sent_flags.now) }
        ensures kept { self.new ≡ self.old }
    {
        match coding {
            Coding::Uncoded => find_uncoded(filler, sent_flags, out),
            Coding::Half => self.find_at(Rate::Half, filler, sent_flags, out),
            Coding::Third => self.find_at(Rate::Third, filler, sent_flags, out),
        }
    }

    /// The same of blocks that are coded.
    fn find_at(&mut self, rate: Rate, filler: usize, sent_flags: &[bool], out: &mut [Bit]) -> bool
        requires short { length out.old ≤ 504 }
        requires fits { length out.old ≤ self.old }
        requires filler { filler ≤ length out.old }
        requires coded { length sent_flags.now ≡ coded_length rate (length out.old) }
        ensures found { result ≡ true → IsFirstCollision (coding_of rate)
            (length out.old) filler (copies_kept sent_flags.now) out.new }
        ensures none { result ≡ false → NoneCollide (coding_of rate)
            (length out.old) filler (copies_kept sent_flags.now) }
        ensures kept { self.new ≡ self.old }
    {
        find_coded(
            &mut self.trellis,
            rate,
            filler,
            sent_flags,
            &mut self.votes,
            out,
        )
    }
}

fn no_votes(alloc: Global, count: usize) -> Result<Vec<Vote>, NoMemory>
    ensures { IfOk result (λ votes. length votes.items ≡ count) }
{
    match vec![in alloc; Vote { zeros: 0, ones: 0 }; count] {
        Ok(votes) => Ok(votes),
        Err(_) => Err(NoMemory),
    }
}
