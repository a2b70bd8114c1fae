ghost use Rattle.std.specs.Prelude.{◌≡◌, ◌≢◌, ℕ, [], ◌+◌, ◌-◌, ◌*◌, ◌/◌, ◌^◌, ◌<◌, ◌≤◌, ◌&&◌, ◌++◌, length, min, take, nat_lt, slice_index, slice_index_or};
ghost use Rattle.dch_bits.specs.declared.bit.Bit.TheVariants.{Zero};
ghost use Rattle.dch_coding.specs.Conv.{outputs, coded_length};
ghost use Rattle.dch_trellis.specs.Nearest.{all_copies};
ghost use Rattle.dch_trellis.specs.Windows.{IsOutputs};
ghost use Rattle.dch_trellis.specs.Search.{branch_metric, is_free, best, found, choice, trace};
ghost use Rattle.dch_trellis.specs.Steps.{total, by_zero, by_one};
ghost use Rattle.dch_trellis.specs.Classes.{class_metric, by_zero_near, lesser_near, row_near};
ghost use Rattle.dch_trellis.specs.Tiny.{IsLight, IsLowered, IsLoweredFrom};
ghost use Rattle.dch_trellis.specs.Undamaged.{MeetsLeast, IsFront};

use crate::steps::{
    after_input, class_metrics, coded_before, is_free, near_of, step_votes, total_of,
};
use crate::table::{Table, classes_of};
use crate::undamaged::{Front, fewest_of};
use dch_bits::{Bit, Vote};
use dch_coding::Rate;
use std::simd::prelude::*;

/// The least cost from each state on, less what was taken off the row.
pub type PathMetrics = [u8; 256];

/// Finds the nearest block, which begins with inputs of `front`, and answers how many copies it disagrees with. A step
/// has at most 15 copies: any two states can meet after eight steps, so their costs are at most 120 apart, and eight
/// steps more add at most 120.
pub fn nearest(
    rate: Rate,
    table: &Table,
    votes: &[Vote],
    filler: usize,
    front: &Front,
    rows: &mut [PathMetrics],
    out: &mut [Bit],
) -> u32
    requires table { IsOutputs rate table.now }
    requires size { length out.old ≤ 504 }
    requires room { length out.old + 9 ≤ length rows.old }
    requires coded { length votes.now ≡ coded_length rate (length out.old) }
    requires light { IsLight rate votes.now }
    requires few { all_copies votes.now < 2 ^ 31 }
    requires front { IsFront rate votes.now (length out.old) filler out.old front.now }
    ensures found { out.new ≡ found rate votes.now (length out.old) filler }
    ensures cost { result ≡ best (branch_metric rate votes.now) (is_free (length out.old) filler)
        (length out.old + 8) 0 0 }
    ensures rows { length rows.new ≡ length rows.old }
{
    let Filled { from, taken } = fill(rate, table, votes, out.len(), filler, front, rows);
    let state = front.states[from];
    trace(rate, table, votes, filler, rows, from, state, out);
    let before = fewest_of(&votes[..coded_before(rate, from)]);
    before + (taken + u32::from(rows[from][usize::from(state)]))
}

/// The rows from a step on are filled, and so much was taken off the first of them.
#[derive(Clone, Copy)]
struct Filled {
    from: usize,
    taken: u32,
}

/// Goes back from the end of the tail: row `k` becomes the least costs from step `k` on, less a base. After each eight
/// steps the least cost of the row is taken off. It ends at the first step, or where the front has a state of no cost.
fn fill(
    rate: Rate,
    table: &Table,
    votes: &[Vote],
    size: usize,
    filler: usize,
    front: &Front,
    rows: &mut [PathMetrics],
) -> Filled
    requires table { IsOutputs rate table.now }
    requires size { size ≤ 504 }
    requires room { size + 9 ≤ length rows.old }
    requires coded { length votes.now ≡ coded_length rate size }
    requires light { IsLight rate votes.now }
    requires steps { front.now.steps ≤ size }
    requires states { (k : ℕ) → k ≤ front.now.steps → slice_index front.now.states k < 256 }
    ensures within { result.from ≤ front.now.steps }
    ensures rows { IsLoweredFrom rate votes.now size filler result.from rows.new }
    ensures first { IsLowered rate votes.now size filler result.from result.taken
        (slice_index_or rows.new result.from []) }
    ensures few { result.taken < 2 ^ 31 }
    ensures least { MeetsLeast rate votes.now size filler result.from (slice_index front.now.states result.from) }
{
    let classes = classes_of(table);
    let mut near = [0u8; 128];
    let mut taken = 0u32;
    rows[size + 8] = no_metrics();
    for done in 0..size + 8 {
        let next = size + 8 - done;
        if next <= front.steps && rows[next][usize::from(front.states[next])] == 0 {
            return Filled { from: next, taken };
        }
        let k = size + 7 - done;
        let step = step_votes(rate, votes, k);
        pair_metrics(&classes, &step, &mut near);
        fill_row(
            rows,
            k,
            &near,
            total_of(&step) as u8,
            is_free(size, filler, k),
        );
        if done % 8 == 7 {
            taken += u32::from(lower_row(rows, k));
        }
    }
    Filled { from: 0, taken }
}

/// A row before it is filled.
pub fn no_metrics() -> PathMetrics
    ensures { (s : ℕ) → slice_index result s ≡ 0 }
{
    [0; 256]
}

/// What input Zero costs in the even state of each pair.
fn pair_metrics(classes: &[u8; 128], step: &[Vote; 3], near: &mut [u8; 128])
    requires few { total step.now < 2 ^ 8 }
    requires classes { (i : ℕ) → i < 128 → slice_index classes.now i < 8 }
    ensures { (i : ℕ) → i < 128 → slice_index near.new i ≡ class_metric step.now (slice_index classes.now i) }
{
    let metrics = metric_lanes(step);
    for block in 0..8usize {
        look_up(metrics, classes, near, 16 * block);
    }
}

/// What input Zero costs by class. There are eight classes.
fn metric_lanes(step: &[Vote; 3]) -> u8x16
    requires { total step.now < 2 ^ 8 }
    ensures { (c : ℕ) → c < 8 → slice_index result c ≡ class_metric step.now c }
{
    let [a, b, c, d, e, f, g, h] = class_metrics(step);
    let (p, q, r, s) = (a as u8, b as u8, c as u8, d as u8);
    let (t, u, v, w) = (e as u8, f as u8, g as u8, h as u8);
    u8x16::from_array([p, q, r, s, t, u, v, w, 0, 0, 0, 0, 0, 0, 0, 0])
}

/// Looks sixteen branch metrics up.
fn look_up(metrics: u8x16, classes: &[u8], near: &mut [u8], at: usize)
    requires inside { at + 16 ≤ length classes.now }
    requires room { at + 16 ≤ length near.old }
    requires classes { (i : ℕ) → i < length classes.now → slice_index classes.now i < 8 }
    ensures here { (i : ℕ) → at ≤ i → i < at + 16 →
        slice_index near.new i ≡ slice_index metrics (slice_index classes.now i) }
    ensures before { (i : ℕ) → i < at → slice_index near.new i ≡ slice_index near.old i }
{
    metrics
        .swizzle_dyn(u8x16::from_slice(&classes[at..]))
        .copy_to_slice(&mut near[at..]);
}

/// Row `k` becomes the least costs by one step before those of the next row, with input One where it is free.
fn fill_row(rows: &mut [PathMetrics], k: usize, near: &[u8; 128], total: u8, free: bool)
    requires next { k + 1 < length rows.old }
    requires near { (i : ℕ) → i < 128 → slice_index near.now i ≤ total }
    requires room { (s : ℕ) → s < 256 → slice_index (slice_index_or rows.old (k + 1) []) s + total < 2 ^ 8 }
    ensures same { (j : ℕ) → j ≢ k → slice_index_or rows.new j [] ≡ slice_index_or rows.old j [] }
    ensures row { (s : ℕ) → s < 256 →
        slice_index (slice_index_or rows.new k []) s ≡
        row_near free (slice_index_or rows.old (k + 1) []) near.now total s }
{
    let (front, back) = rows.split_at_mut(k + 1);
    if free {
        least_metrics(&back[0], near, total, &mut front[k]);
    } else {
        zero_metrics(&back[0], near, total, &mut front[k]);
    }
}

/// Takes the least cost of a row off the row.
fn lower_row(rows: &mut [PathMetrics], k: usize) -> u8
    requires inside { k < length rows.old }
    ensures same { (j : ℕ) → j ≢ k → slice_index_or rows.new j [] ≡ slice_index_or rows.old j [] }
    ensures row { (s : ℕ) → s < 256 → slice_index (slice_index_or rows.new k []) s + result ≡
        slice_index (slice_index_or rows.old k []) s }
    ensures least { (s : ℕ) × (s < 256) × (slice_index (slice_index_or rows.new k []) s ≡ 0) }
{
    let row = &mut rows[k];
    let least = least_of(row);
    take_off(row, least);
    least
}

fn least_of(row: &PathMetrics) -> u8
    ensures most { (s : ℕ) → s < 256 → result ≤ slice_index row.now s }
    ensures held { (s : ℕ) × (s < 256) × (slice_index row.now s ≡ result) }
{
    let mut least = row[0];
    for i in 0..256usize {
        least = lesser_of(least, row[i]);
    }
    least
}

fn take_off(row: &mut PathMetrics, least: u8)
    requires { (s : ℕ) → s < 256 → least ≤ slice_index row.old s }
    ensures { (s : ℕ) → s < 256 → slice_index row.new s + least ≡ slice_index row.old s }
{
    for i in 0..256usize {
        row[i] -= least;
    }
}

fn lesser_of(a: u8, b: u8) -> u8
    ensures { result ≡ min a b }
{
    a.min(b)
}

fn least_metrics(later: &PathMetrics, near: &[u8; 128], total: u8, path_metrics: &mut PathMetrics)
    requires near { (i : ℕ) → i < 128 → slice_index near.now i ≤ total }
    requires room { (s : ℕ) → s < 256 → slice_index later.now s + total < 2 ^ 8 }
    ensures { (s : ℕ) → s < 256 → slice_index path_metrics.new s ≡ lesser_near later.now near.now total s }
{
    for block in 0..8usize {
        least_block(later, near, total, path_metrics, 16 * block);
    }
}

/// The least costs of sixteen pairs of states.
fn least_block(later: &[u8], near: &[u8], total: u8, path_metrics: &mut [u8], at: usize)
    requires inside { at + 16 ≤ 128 }
    requires later { length later.now ≡ 256 }
    requires metrics { length near.now ≡ 128 }
    requires path_metrics { length path_metrics.old ≡ 256 }
    requires near { (i : ℕ) → i < 128 → slice_index near.now i ≤ total }
    requires room { (s : ℕ) → s < 256 → slice_index later.now s + total < 2 ^ 8 }
    ensures even { (i : ℕ) → at ≤ i → i < at + 16 →
        slice_index path_metrics.new (2 * i) ≡ lesser_near later.now near.now total (2 * i) }
    ensures odd { (i : ℕ) → at ≤ i → i < at + 16 →
        slice_index path_metrics.new (2 * i + 1) ≡ lesser_near later.now near.now total (2 * i + 1) }
    ensures before { (s : ℕ) → s < 2 * at → slice_index path_metrics.new s ≡ slice_index path_metrics.old s }
{
    let near = lanes_at(near, at);
    let far = rest_of(total, near);
    let low = lanes_at(later, at);
    let high = lanes_at(later, 128 + at);
    let even = lesser_sums(low, near, high, far);
    let odd = lesser_sums(low, far, high, near);
    weave(even, odd, path_metrics, 2 * at);
}

fn lanes_at(numbers: &[u8], at: usize) -> u8x16
    requires { at + 16 ≤ length numbers.now }
    ensures long { length result ≡ 16 }
    ensures value { (i : ℕ) → i < 16 → slice_index result i ≡ slice_index numbers.now (at + i) }
{
    u8x16::from_slice(&numbers[at..])
}

fn rest_of(total: u8, near: u8x16) -> u8x16
    requires long { length near ≡ 16 }
    requires most { (i : ℕ) → i < 16 → slice_index near i ≤ total }
    ensures long { length result ≡ 16 }
    ensures value { (i : ℕ) → i < 16 → slice_index result i ≡ total - slice_index near i }
{
    u8x16::splat(total) - near
}

fn lesser_sums(a: u8x16, b: u8x16, c: u8x16, d: u8x16) -> u8x16
    requires long { (length a ≡ 16) × (length b ≡ 16) × (length c ≡ 16) × (length d ≡ 16) }
    requires first { (i : ℕ) → i < 16 → slice_index a i + slice_index b i < 2 ^ 8 }
    requires second { (i : ℕ) → i < 16 → slice_index c i + slice_index d i < 2 ^ 8 }
    ensures long { length result ≡ 16 }
    ensures value { (i : ℕ) → i < 16 → slice_index result i ≡ min (slice_index a i + slice_index b i)
        (slice_index c i + slice_index d i) }
{
    (a + b).simd_min(c + d)
}

fn weave(even: u8x16, odd: u8x16, path_metrics: &mut [u8], at: usize)
    requires long { (length even ≡ 16) × (length odd ≡ 16) }
    requires room { at + 32 ≤ length path_metrics.old }
    ensures even { (i : ℕ) → i < 16 → slice_index path_metrics.new (at + 2 * i) ≡ slice_index even i }
    ensures odd { (i : ℕ) → i < 16 → slice_index path_metrics.new (at + (2 * i + 1)) ≡ slice_index odd i }
    ensures before { (s : ℕ) → s < at → slice_index path_metrics.new s ≡ slice_index path_metrics.old s }
{
    let (first, second) = even.interleave(odd);
    first.copy_to_slice(&mut path_metrics[at..]);
    second.copy_to_slice(&mut path_metrics[at + 16..]);
}

#[inline(never)]
fn zero_metrics(later: &PathMetrics, near: &[u8; 128], total: u8, path_metrics: &mut PathMetrics)
    requires near { (i : ℕ) → i < 128 → slice_index near.now i ≤ total }
    requires room { (s : ℕ) → s < 256 → slice_index later.now s + total < 2 ^ 8 }
    ensures { (s : ℕ) → s < 256 → slice_index path_metrics.new s ≡ by_zero_near later.now near.now total s }
{
    for i in 0..128usize {
        let low = later[i];
        path_metrics[2 * i] = low + near[i];
        path_metrics[2 * i + 1] = low + (total - near[i]);
    }
}

/// Goes forward from a step and its state, and writes the inputs of least cost.
fn trace(
    rate: Rate,
    table: &Table,
    votes: &[Vote],
    filler: usize,
    rows: &[PathMetrics],
    from: usize,
    mut state: u8,
    out: &mut [Bit],
)
    requires table { IsOutputs rate table.now }
    requires size { length out.old ≤ 504 }
    requires room { length out.old + 9 ≤ length rows.now }
    requires coded { length votes.now ≡ coded_length rate (length out.old) }
    requires light { IsLight rate votes.now }
    requires from { from ≤ length out.old }
    requires path_metrics { IsLoweredFrom rate votes.now (length out.old) filler from rows.now }
    requires written { trace (branch_metric rate votes.now) (is_free (length out.old) filler) (length out.old + 8) 0 0 ≡
        take from out.old ++ trace (branch_metric rate votes.now) (is_free (length out.old) filler)
        (length out.old + 8 - from) from state }
    ensures { out.new ≡ found rate votes.now (length out.old) filler }
{
    let size = out.len();
    for k in from..size {
        let step = step_votes(rate, votes, k);
        let bit = choose(&rows[k + 1], table, &step, state, is_free(size, filler, k));
        out[k] = bit;
        state = after_input(state, bit);
    }
}

/// The input of least cost in a state, Zero where both cost the same or One is not free.
fn choose(later: &PathMetrics, table: &Table, step: &[Vote; 3], state: u8, free: bool) -> Bit
    requires { total step.now < 2 ^ 8 }
    ensures { result ≡ choice (free && nat_lt (by_one later.now table.now step.now state)
        (by_zero later.now table.now step.now state)) }
{
    let i = usize::from(state / 2);
    let near = near_of(table, step, i);
    let far = total_of(step) - near;
    let (zero, one) = if state % 2 == 0 {
        (near, far)
    } else {
        (far, near)
    };
    if free && u32::from(later[128 + i]) + one < u32::from(later[i]) + zero {
        Bit::One
    } else {
        Bit::Zero
    }
}
