ghost use Rattle.std.specs.Prelude.{◌≡◌, ◌<◌, ◌≤◌, ◌+◌, ◌^◌, ℕ, length, slice_index};
ghost use Rattle.dch_types.specs.Limits.{IsSide};
ghost use Rattle.dch_collision.specs.Sequences.{frames_of};
ghost use Rattle.dch_collision.specs.SequenceCounts.{legal_count, TellsLegal, AreWays, ways_on};

use crate::fitting::{fits, frames};
use dch_types::Side;

/// How many legal sequences a channel and format have, at most 2^56. They are counted without a list: from the last
/// radio frame to the first, each combination gets the number of ways in which a sequence may go on after it.
pub fn count(side: &Side, channel: u8, format: u8) -> u64
    requires good { IsSide side.now }
    requires channel { channel < length side.now.channels }
    ensures value { result ≡ legal_count side.now channel format }
    ensures legal { TellsLegal side.now channel format }
    ensures small { result ≤ 2 ^ 56 }
{
    let mut ways = ones();
    let mut frame = frames(side, usize::from(channel));
    while frame > 1 {
        frame -= 1;
        ways = ways_before(side, channel, format, frame, &ways);
    }
    sum(side, channel, format, 0, 0, &ways)
}

/// One way to go on after the last radio frame, for each combination.
fn ones() -> [u64; 128]
    ensures { (a : ℕ) → a < 128 → slice_index result a ≡ 1 }
{
    [1; 128]
}

/// The ways to go on from a radio frame, after each combination, by those from the next radio frame.
fn ways_before(side: &Side, channel: u8, format: u8, frame: usize, after: &[u64; 128]) -> [u64; 128]
    requires good { IsSide side.now }
    requires channel { channel < length side.now.channels }
    requires frame { frame < frames_of side.now channel }
    requires after { AreWays side.now channel format (frame + 1) after.now }
    ensures { AreWays side.now channel format frame result }
{
    let mut ways = *after;
    for previous in 0..side.combinations.len() {
        ways[previous] = sum(side, channel, format, frame, previous, after);
    }
    ways
}

/// The ways to go on from a radio frame after a combination: those of all combinations that fit there.
fn sum(
    side: &Side,
    channel: u8,
    format: u8,
    frame: usize,
    previous: usize,
    after: &[u64; 128],
) -> u64
    requires good { IsSide side.now }
    requires channel { channel < length side.now.channels }
    requires frame { frame < frames_of side.now channel }
    requires previous { previous < length side.now.combinations }
    requires after { AreWays side.now channel format (frame + 1) after.now }
    ensures { result ≡ ways_on side.now channel format frame previous }
{
    let mut sum = 0;
    for combination in 0..side.combinations.len() {
        if fits(side, channel, format, frame, previous, combination) {
            sum += after[combination];
        }
    }
    sum
}
