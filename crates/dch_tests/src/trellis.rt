ghost use Rattle.std.specs.Prelude.{◌≡◌, ◌≤◌, length};
ghost use Rattle.dch_trellis.specs.Nearest.{all_copies};
ghost use Rattle.dch_trellis.specs.Distance.{AreOfZeros};

use dch_bits::{Bit, Vote};
use dch_coding::{Rate, coded_len, encode};
use dch_trellis::Trellis;
use std::test::Fail;

/// All copies, of few enough votes.
fn copies_of(votes: &[Vote]) -> u64
    requires { length votes.now ≤ 1536 }
    ensures { result ≡ all_copies votes.now }
{
    let mut sum = 0u64;
    for vote in votes {
        sum += u64::from(vote.zeros) + u64::from(vote.ones);
    }
    sum
}

/// One copy of each letter as a bit.
fn votes_of(received: &[u8; 18]) -> [Vote; 18] {
    let mut votes = [Vote { zeros: 0, ones: 1 }; 18];
    for i in 0..18usize {
        if received[i] == b'0' {
            votes[i] = Vote { zeros: 1, ones: 0 };
        }
    }
    votes
}

/// The nearest block of one bit at half the rate, and how many copies it disagrees with.
fn nearest(trellis: &mut Trellis, received: &[u8; 18]) -> Option<(Bit, u32)>
    requires { trellis.old ≡ 1 }
    ensures { trellis.new ≡ 1 }
{
    let votes = votes_of(received);
    let mut out = [Bit::Zero];
    if coded_len(Rate::Half, 1) != 18 || copies_of(&votes) > 18 {
        return None;
    }
    let disagreement = trellis.nearest(Rate::Half, &votes, 0, &mut out);
    Some((out[0], disagreement))
}

// The code of 1 with one bit damaged, and as near to the code of 0.
#[test]
fn damaged_and_tied_blocks(rt: HostRuntime) -> Result<(), Fail> {
    let mut trellis = Trellis::open(rt.alloc(), 1)?;
    assert!(rt; nearest(&mut trellis, b"010111111001000111") == Some((Bit::One, 1)));
    assert!(rt; nearest(&mut trellis, b"000000011001000111") == Some((Bit::Zero, 6)));
    Ok(())
}

/// So many copies of each coded bit, all for Zero.
fn zeros_of(copies: &[u8; 28]) -> [Vote; 28]
    ensures { AreOfZeros result }
{
    let mut votes = [Vote { zeros: 0, ones: 0 }; 28];
    for i in 0..28usize {
        votes[i] = Vote {
            zeros: u32::from(copies[i]),
            ones: 0,
        };
    }
    votes
}

/// The coded bits of six at half the rate.
fn coded(number: usize) -> [Bit; 28] {
    let mut block = [Bit::Zero; 6];
    for i in 0..6usize {
        if (number >> i) % 2 == 1 {
            block[i] = Bit::One;
        }
    }
    let mut coded = [Bit::Zero; 28];
    encode(Rate::Half, &block, &mut coded);
    coded
}

/// In how many copies two blocks differ.
fn between(copies: &[u8; 28], a: usize, b: usize) -> u32 {
    let (first, second) = (coded(a), coded(b));
    let mut sum = 0u32;
    for i in 0..28usize {
        if first[i] != second[i] {
            sum = sum.saturating_add(u32::from(copies[i]));
        }
    }
    sum
}

/// In how many copies two of all blocks with so many zeros of filler differ at least.
fn least_of_pairs(copies: &[u8; 28], filler: usize) -> u32
    requires { filler ≤ 6 }
{
    let mut least = u32::MAX;
    for a in 0..64usize {
        for b in 0..a {
            let free = a % (1 << filler) == 0 && b % (1 << filler) == 0;
            if free {
                least = least.min(between(copies, a, b));
            }
        }
    }
    least
}

/// The same, by the search.
fn least(trellis: &mut Trellis, copies: &[u8; 28], filler: usize) -> Option<u32>
    requires { trellis.old ≡ 6 }
    ensures { trellis.new ≡ 6 }
{
    let votes = zeros_of(copies);
    if coded_len(Rate::Half, 6) != 28 || copies_of(&votes) > 10_000 || filler >= 6 {
        return None;
    }
    Some(trellis.least_distance(Rate::Half, &votes, 6, filler))
}

const ONCE: [u8; 28] = [1; 28];

// Some punctured and some repeated.
const MATCHED: [u8; 28] = [
    1, 0, 2, 1, 0, 3, 1, 1, 0, 1, 1, 2, 0, 0, 1, 1, 0, 2, 1, 1, 0, 3, 1, 1, 0, 0, 1, 2,
];

// More than half are punctured.
const FEW: [u8; 28] = [
    0, 0, 0, 0, 0, 1, 1, 0, 1, 1, 0, 1, 0, 0, 1, 1, 0, 1, 0, 0, 1, 0, 0, 1, 0, 0, 1, 1,
];

#[test]
fn least_distances(rt: HostRuntime) -> Result<(), Fail> {
    let mut trellis = Trellis::open(rt.alloc(), 6)?;
    assert!(rt; least(&mut trellis, &ONCE, 0) == Some(12) && least_of_pairs(&ONCE, 0) == 12);
    assert!(rt; least(&mut trellis, &MATCHED, 0) == Some(6) && least_of_pairs(&MATCHED, 0) == 6);
    assert!(rt; least(&mut trellis, &MATCHED, 2) == Some(7) && least_of_pairs(&MATCHED, 2) == 7);
    assert!(rt; least(&mut trellis, &FEW, 0) == Some(2) && least_of_pairs(&FEW, 0) == 2);
    Ok(())
}
