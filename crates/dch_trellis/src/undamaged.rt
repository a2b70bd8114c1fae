ghost use Rattle.std.specs.Prelude.{◌≡◌, ◌↔◌, ℕ, ◌+◌, ◌^◌, ◌<◌, ◌≤◌, IsTrue, IsSome, IfSome, length, slice_index, sum_by};
ghost use Rattle.dch_coding.specs.Conv.{outputs, coded_length};
ghost use Rattle.dch_trellis.specs.Nearest.{all_copies};
ghost use Rattle.dch_trellis.specs.Search.{branch_metric, is_free, best, found};
ghost use Rattle.dch_trellis.specs.Undamaged.{AreOutputs, fewest, step_fewest, input_metric, more_zeros, more_ones, CostsFewest, IsTold, LeadTo, IsFront};

use crate::steps::{after_input, step_votes};
use crate::table::Outputs;
use dch_bits::{Bit, Vote};
use dch_coding::Rate;
use std::simd::prelude::*;

/// The steps before the first one whose input its copies don't tell, and the state before each of them and after the
/// last.
#[derive(Drop)]
pub struct Front {
    pub steps: usize,
    pub states: [u8; 505],
}

impl Front {
    /// No steps.
    pub fn new() -> Self
        ensures { result.steps ≡ 0 }
    {
        Front {
            steps: 0,
            states: [0; 505],
        }
    }
}

/// Finds the nearest block where its coded bits all agree with most of their copies, and answers how many copies it
/// disagrees with. No block disagrees with fewer. None where a coded bit disagrees with most of its copies, or where no
/// copies tell an input: then `out` begins with the inputs of `front`.
pub fn nearest(
    rate: Rate,
    outputs: &Outputs,
    votes: &[Vote],
    filler: usize,
    front: &mut Front,
    out: &mut [Bit],
) -> Option<u32>
    requires outputs { AreOutputs rate outputs.now }
    requires size { length out.old ≤ 504 }
    requires coded { length votes.now ≡ coded_length rate (length out.old) }
    requires few { all_copies votes.now < 2 ^ 31 }
    ensures found { IsSome result → out.new ≡ found rate votes.now (length out.old) filler }
    ensures cost { IfSome result (λ copies. copies ≡ best (branch_metric rate votes.now)
        (is_free (length out.old) filler) (length out.old + 8) 0 0) }
    ensures front { IsFront rate votes.now (length out.old) filler out.new front.new }
{
    front.steps = walk(rate, outputs, votes, filler, &mut front.states, out);
    if front.steps < out.len() {
        return None;
    }
    let state = front.states[out.len()];
    if fits_tail(rate, outputs, votes, out.len(), state) {
        Some(fewest_of(votes))
    } else {
        None
    }
}

/// Goes forward from state zero, and writes the inputs that the copies tell, and the states. The answer is how many
/// steps it went.
fn walk(
    rate: Rate,
    outputs: &Outputs,
    votes: &[Vote],
    filler: usize,
    states: &mut [u8; 505],
    out: &mut [Bit],
) -> usize
    requires outputs { AreOutputs rate outputs.now }
    requires size { length out.old ≤ 504 }
    requires coded { length votes.now ≡ coded_length rate (length out.old) }
    ensures within { result ≤ length out.old }
    ensures leads { (k : ℕ) → k ≤ result →
        LeadTo rate votes.now (length out.old) filler k out.new (slice_index states.new k) }
{
    let mut state = 0u8;
    states[0] = state;
    for k in 0..out.len() {
        let step = step_votes(rate, votes, k);
        let Some(bit) = told(outputs[usize::from(state)], &step, filler <= k) else {
            return k;
        };
        out[k] = bit;
        state = after_input(state, bit);
        states[k + 1] = state;
    }
    out.len()
}

/// Whether the eight inputs of the tail fit after a state.
fn fits_tail(rate: Rate, outputs: &Outputs, votes: &[Vote], size: usize, mut state: u8) -> bool
    requires outputs { AreOutputs rate outputs.now }
    requires size { size ≤ 504 }
    requires coded { length votes.now ≡ coded_length rate size }
    ensures { IsTrue result → CostsFewest rate votes.now size size state }
{
    for k in size..size + 8 {
        let (zero, _) = fitting(outputs[usize::from(state)], &step_votes(rate, votes, k));
        if !zero {
            return false;
        }
        state = after_input(state, Bit::Zero);
    }
    true
}

/// The input that fits a step, in a state that puts these outputs out at input Zero. None where both inputs fit or
/// neither, or where it is One and that is not free.
fn told(outputs: u8, step: &[Vote; 3], free: bool) -> Option<Bit>
    requires { outputs < 8 }
    ensures told { IfSome result (λ bit. IsTold step.now outputs bit) }
    ensures free { result ≡ Some Bit.One → IsTrue free }
{
    let (zero, one) = fitting(outputs, step);
    if zero == one || !free && one {
        return None;
    }
    Some(if one { Bit::One } else { Bit::Zero })
}

/// Whether input Zero fits a step, and whether input One does: no coded bit disagrees with more copies than it agrees
/// with.
fn fitting(outputs: u8, step: &[Vote; 3]) -> (bool, bool)
    requires { outputs < 8 }
    ensures zero { IsTrue result.0 ↔ (input_metric step.now outputs Bit.Zero ≡ step_fewest step.now) }
    ensures one { IsTrue result.1 ↔ (input_metric step.now outputs Bit.One ≡ step_fewest step.now) }
{
    let zeros = more_zeros(step);
    let ones = more_ones(step);
    let agreed = outputs & (zeros + ones);
    (agreed == ones, agreed == zeros)
}

/// The outputs of a step of which more copies are Zero than One, as the bits of a number.
fn more_zeros(step: &[Vote; 3]) -> u8
    ensures { result ≡ more_zeros step.now }
{
    let [a, b, c] = *step;
    let zeros = u32x4::from_array([a.zeros, b.zeros, c.zeros, 0]);
    let ones = u32x4::from_array([a.ones, b.ones, c.ones, 0]);
    zeros.simd_gt(ones).to_bitmask() as u8
}

/// The outputs of a step of which more copies are One than Zero, as the bits of a number.
fn more_ones(step: &[Vote; 3]) -> u8
    ensures { result ≡ more_ones step.now }
{
    let [a, b, c] = *step;
    let zeros = u32x4::from_array([a.zeros, b.zeros, c.zeros, 0]);
    let ones = u32x4::from_array([a.ones, b.ones, c.ones, 0]);
    ones.simd_gt(zeros).to_bitmask() as u8
}

/// The fewest copies that coded bits can disagree with, whichever they are.
pub fn fewest_of(votes: &[Vote]) -> u32
    requires { all_copies votes.now < 2 ^ 31 }
    ensures { result ≡ sum_by fewest votes.now }
{
    let mut sum = 0;
    for vote in votes {
        sum += vote.zeros.min(vote.ones);
    }
    sum
}
