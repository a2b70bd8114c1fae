ghost use Rattle.std.specs.Prelude.{◌≡◌, ◌<◌, ℕ, None, IfSome, IsSome, length};
ghost use Rattle.dch_combine.specs.Combined.{HasGood, HasGoodBlock, IsLeading};
ghost use Rattle.dch_combine.specs.Legs.{blocks_in};
ghost use Rattle.dch_combine.specs.Steps.{HaveChannel, HaveFrame, better};
ghost use Rattle.dch_combine.specs.Taken.{FindsBest, FindsLowest};
ghost use Rattle.dch_combine.specs.Values.{frames_in};

use crate::leg::LegBuffer;

/// The lowest leg with a frame.
fn first_frame(legs: &[LegBuffer]) -> Option<usize>
    ensures lowest { FindsLowest (λ k. IsSome (frames_in legs.now k)) result }
    ensures inside { IfSome result (λ k. k < length legs.now) }
{
    for k in 0..legs.len() {
        if legs[k].has_frame() {
            return Some(k);
        }
    }
    None
}

/// The lowest leg with a good block in a channel.
fn first_good(legs: &[LegBuffer], channel: u8) -> Option<usize>
    requires { HaveChannel channel legs.now }
    ensures lowest { FindsLowest (λ k. HasGood (blocks_in (frames_in legs.now k) channel)) result }
    ensures inside { IfSome result (λ k. k < length legs.now) }
{
    for k in 0..legs.len() {
        if legs[k].has_good(channel) {
            return Some(k);
        }
    }
    None
}

/// The lowest leg that has a channel in this format, with block `b` good.
pub fn first_good_block(legs: &[LegBuffer], channel: u8, format: u8, b: usize) -> Option<usize>
    requires { HaveChannel channel legs.now }
    ensures lowest { FindsLowest (λ k. HasGoodBlock (blocks_in (frames_in legs.now k) channel) format b) result }
    ensures inside { IfSome result (λ k. k < length legs.now) }
{
    for k in 0..legs.len() {
        if legs[k].has_good_block(channel, format, b) {
            return Some(k);
        }
    }
    None
}

/// The leading leg in a channel: the lowest with a good block there, or else the lowest with a frame.
pub fn leading(legs: &[LegBuffer], channel: u8) -> usize
    requires channel { HaveChannel channel legs.now }
    requires frame { HaveFrame (frames_in legs.now) }
    ensures leading { IsLeading (frames_in legs.now) channel result }
    ensures inside { result < length legs.now }
{
    match first_good(legs, channel) {
        Some(leg) => leg,
        None => first_frame(legs).unwrap_or(0),
    }
}

/// The best quality estimate of the frames, which is the least.
pub fn best_qe(legs: &[LegBuffer]) -> Option<u8>
    ensures { FindsBest (frames_in legs.now) result }
{
    let mut best = None;
    for k in 0..legs.len() {
        best = better(best, legs[k].qe);
    }
    best
}

/// The better one of two quality estimates, where both are there.
fn better(first: Option<u8>, second: Option<u8>) -> Option<u8>
    ensures { result ≡ better first second }
{
    match (first, second) {
        (Some(first), Some(second)) => Some(first.min(second)),
        (Some(first), None) => Some(first),
        (None, second) => second,
    }
}
