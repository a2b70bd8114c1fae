ghost use Rattle.std.specs.Prelude.{◌≡◌, ◌<◌, ◌≤◌, ◌-◌, ◌+◌, ℕ, List, None, IsTrue, false, length, slice_index, IfSome};
ghost use Rattle.dch_types.specs.Limits.{IsSide};
ghost use Rattle.dch_types.specs.Parts.{format_number};
ghost use Rattle.dch_collision.specs.Sequences.{frames_of, IsLegal, IsBefore, IsFirst, IsNext};
ghost use Rattle.dch_collision.specs.Steps.{NoneFits, IsLeastFit, previous_of, LeastFrom, NoneGreater, IsTurn};

use crate::fitting::{least, least_after};
use dch_types::Side;

/// The first legal sequence of a channel and format, in the order of lists of numbers. It is written to `out`, which
/// has a place for each radio frame of 10 ms of the channel's TTI. Where there is no legal sequence the answer is
/// false, and `out` stays.
pub fn first(side: &Side, channel: u8, format: u8, out: &mut [u16]) -> bool
    requires good { IsSide side.now }
    requires channel { channel < length side.now.channels }
    requires room { length out.old ≡ frames_of side.now channel }
    ensures found { IsTrue result → IsFirst side.now channel format out.new }
    ensures none { result ≡ false → (sequence : List ℕ) → ¬ IsLegal side.now channel format sequence }
    ensures same { result ≡ false → out.new ≡ out.old }
{
    match least(side, channel, format, 0, 0, 0) {
        None => false,
        Some(combination) => {
            out[0] = combination as u16;
            fill(side, channel, format, 1, out);
            true
        }
    }
}

/// The next legal sequence after this one, in its place. After the last one the answer is false, and the sequence
/// stays.
pub fn next(side: &Side, channel: u8, format: u8, sequence: &mut [u16]) -> bool
    requires good { IsSide side.now }
    requires channel { channel < length side.now.channels }
    requires legal { IsLegal side.now channel format sequence.old }
    ensures found { IsTrue result → IsNext side.now channel format sequence.old sequence.new }
    ensures last { result ≡ false → (other : List ℕ) → IsLegal side.now channel format other →
        ¬ IsBefore sequence.old other }
    ensures same { result ≡ false → sequence.new ≡ sequence.old }
{
    match find_turn(side, channel, format, sequence) {
        None => false,
        Some(turn) => {
            sequence[turn.frame] = turn.combination as u16;
            fill(side, channel, format, turn.frame + 1, sequence);
            true
        }
    }
}

/// The last radio frame that can take a greater combination, and the least such one.
#[derive(Clone, Copy)]
struct Turn {
    frame: usize,
    combination: usize,
}

fn find_turn(side: &Side, channel: u8, format: u8, sequence: &[u16]) -> Option<Turn>
    requires good { IsSide side.now }
    requires channel { channel < length side.now.channels }
    requires legal { IsLegal side.now channel format sequence.now }
    ensures some { IfSome result (λ t. IsTurn side.now channel format sequence.now t.frame t.combination) }
    ensures none { result ≡ None → NoneGreater side.now channel format sequence.now 0 }
{
    let mut after = sequence.len();
    while after > 0 {
        after -= 1;
        if let Some(combination) = greater(side, channel, format, sequence, after) {
            return Some(Turn {
                frame: after,
                combination,
            });
        }
    }
    None
}

/// The least combination above the one in a radio frame that fits in its place.
fn greater(side: &Side, channel: u8, format: u8, sequence: &[u16], frame: usize) -> Option<usize>
    requires good { IsSide side.now }
    requires channel { channel < length side.now.channels }
    requires legal { IsLegal side.now channel format sequence.now }
    requires frame { frame < length sequence.now }
    ensures some { IfSome result (λ c. IsLeastFit side.now channel format frame (previous_of sequence.now frame)
        (slice_index sequence.now frame + 1) c) }
    ensures none { result ≡ None → NoneFits side.now channel format frame (previous_of sequence.now frame)
        (slice_index sequence.now frame + 1) }
{
    let previous = match frame {
        0 => 0,
        _ => usize::from(sequence[frame - 1]),
    };
    let from = usize::from(sequence[frame]) + 1;
    least(side, channel, format, frame, previous, from)
}

/// Fills a sequence up from a radio frame on, with the least combination that fits in each.
fn fill(side: &Side, channel: u8, format: u8, from: usize, sequence: &mut [u16])
    requires good { IsSide side.now }
    requires channel { channel < length side.now.channels }
    requires some { 1 ≤ from }
    requires within { from ≤ length sequence.old }
    requires there { slice_index sequence.old (from - 1) < length side.now.combinations }
    requires format { format_number side.now (slice_index sequence.old (from - 1)) channel ≡ format }
    ensures same { (n : ℕ) → n < from → slice_index sequence.new n ≡ slice_index sequence.old n }
    ensures least { LeastFrom side.now channel format from sequence.new }
{
    for frame in from..sequence.len() {
        let previous = usize::from(sequence[frame - 1]);
        sequence[frame] = least_after(side, channel, format, frame, previous) as u16;
    }
}
