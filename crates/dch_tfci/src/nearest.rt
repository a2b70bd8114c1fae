ghost use Rattle.std.specs.Prelude.{◌≡◌, ◌==◌, ℕ, List, ◌+◌, ◌-◌, ◌*◌, ◌/◌, ◌%◌, ◌<◌, ◌≤◌, if◌then◌else◌, length, min, slice_index, slice_index_or};
ghost use Rattle.dch_bits.specs.declared.bit.Bit.{Bit};
ghost use Rattle.dch_bits.specs.Bits.{distance};
ghost use Rattle.dch_tfci.specs.Tfci.{most_wrong, word_bit, sent, IsSize, IsNearest};
ghost use Rattle.dch_tfci.specs.Transform.{place, differs, place_cost, cell, shown, IsStage, IsRoomy, IsNext, IsNextCopies, IsLeastKey, IsPicked};

use dch_bits::{Bit, number};

/// The index that was found, and how many of the received bits differ from those that are sent for it.
#[derive(Clone, Copy, Debug, PartialEq, Eq)]
pub struct Tfci {
    pub index: u16,
    pub distance: u16,
}

/// A cost for each sum of the last four basis sequences.
type Lanes = [u8; 16];

/// Such costs for each position of a word, and in the end for each sum of the first five basis sequences.
type Costs = [Lanes; 32];

/// Finds the nearest of the 1024 indexes, and the least where several are as near (TS 25.212 4.3.3). The received bits
/// are 30 or 120. Where at most four bits of the 30 sent for an index are wrong, or 20 of 120, that index is found.
pub fn find(received: &[Bit]) -> Tfci
    requires { IsSize (length received.now) }
    ensures nearest { IsNearest received.now result.index result.distance }
    ensures corrected { (index : ℕ) → index < 1024 →
        distance received.now (sent index (length received.now)) ≤ most_wrong (length received.now) →
        (result.index ≡ index) × (result.distance ≡ distance received.now (sent index (length received.now))) }
{
    let mut other = empty_table();
    let mut table = empty_table();
    all_costs(received, &mut other, &mut table);
    pick(&table.costs, received.len() as u8)
}

/// Costs by rows, and the copies that stand in each row.
#[derive(Drop)]
struct Table {
    costs: Costs,
    copies: [u8; 32],
}

fn empty_table() -> Table {
    Table {
        costs: [[0; 16]; 32],
        copies: [0; 32],
    }
}

/// The distances of the indexes without the sixth basis sequence, by a fast Hadamard transform over the positions. They
/// come into the second table.
fn all_costs(received: &[Bit], other: &mut Table, table: &mut Table)
    requires { IsSize (length received.now) }
    ensures { (k m : ℕ) → k < 32 → m < 16 → cell table.new.costs k m ≡
        distance received.now (sent (k + 64 * m) (length received.now)) }
{
    first_table(received, other);
    next_table(other, table);
    next_table(table, other);
    next_table(other, table);
    next_table(table, other);
    next_table(other, table);
}

/// The costs of each position by itself.
fn first_table(received: &[Bit], table: &mut Table)
    requires { IsSize (length received.now) }
    ensures stage { IsStage received.now 1 32 table.new.costs table.new.copies }
    ensures room { IsRoomy 4 table.new.costs table.new.copies }
{
    let zero = by_place(&differing(received, 0));
    let one = by_place(&differing(received, 1));
    first_costs(&zero, &one, &mut table.costs);
    table.copies = first_copies(&zero, &one);
}

/// One step: neighbouring rows become their sum, and the sum with the second turned over.
fn next_table(old: &Table, table: &mut Table)
    requires { IsRoomy 64 old.now.costs old.now.copies }
    ensures costs { IsNext old.now.costs old.now.copies table.new.costs }
    ensures copies { IsNextCopies old.now.copies table.new.copies }
{
    next_costs(&old.costs, &old.copies, &mut table.costs);
    table.copies = next_copies(&old.copies);
}

/// One for each received bit that differs from a bit.
fn differing(received: &[Bit], bit: u8) -> [u8; 128]
    requires size { length received.now ≤ 120 }
    requires bit { bit < 2 }
    ensures { (k : ℕ) → k < 128 → slice_index result k ≡ differs received.now bit k }
{
    let mut out = nothing();
    for k in 0..received.len() {
        out[k] = (bit + number(received[k])) % 2;
    }
    out
}

fn nothing() -> [u8; 128]
    ensures { (k : ℕ) → slice_index result k ≡ 0 }
{
    [0; 128]
}

/// The sums over the copies of each place.
fn by_place(out: &[u8; 128]) -> [u8; 32]
    requires { (k : ℕ) → k < 128 → slice_index out.now k ≤ 1 }
    ensures { (i : ℕ) → i < 32 → slice_index result i ≡
        slice_index out.now i + slice_index out.now (32 + i) + slice_index out.now (64 + i) +
        slice_index out.now (96 + i) }
{
    let mut sums = [0u8; 32];
    for i in 0..32usize {
        sums[i] = out[i] + out[32 + i] + out[64 + i] + out[96 + i];
    }
    sums
}

/// The copies of the place at each position.
fn first_copies(zero: &[u8; 32], one: &[u8; 32]) -> [u8; 32]
    requires zero { (i : ℕ) → i < 32 → slice_index zero.now i ≤ 4 }
    requires one { (i : ℕ) → i < 32 → slice_index one.now i ≤ 4 }
    ensures { (x : ℕ) → x < 32 → slice_index result x ≡ slice_index zero.now (place x) + slice_index one.now (place x) }
{
    let mut copies = [0u8; 32];
    for x in 0..32usize {
        let i = place_at(x);
        copies[x] = zero[i] + one[i];
    }
    copies
}

/// The copies of the place at each position that differ from the sums of the last four basis sequences.
fn first_costs(zero: &[u8; 32], one: &[u8; 32], costs: &mut Costs)
    ensures { (x m : ℕ) → x < 32 → m < 16 → cell costs.new x m ≡
        (if word_bit (64 * m) (place x) == 1 then slice_index one.now (place x) else slice_index zero.now (place x)) }
{
    for x in 0..32usize {
        let i = place_at(x);
        costs[x] = chosen(zero[i], one[i], &sums_at(x));
    }
}

fn chosen(zero: u8, one: u8, bits: &Lanes) -> Lanes
    ensures { (m : ℕ) → m < 16 → slice_index result m ≡ (if slice_index bits.now m == 1 then one else zero) }
{
    let mut out = [0u8; 16];
    for m in 0..16usize {
        out[m] = if bits[m] == 1 { one } else { zero };
    }
    out
}

fn next_costs(old: &Costs, copies: &[u8; 32], new: &mut Costs)
    requires { IsRoomy 64 old.now copies.now }
    ensures { IsNext old.now copies.now new.new }
{
    for p in 0..16usize {
        new[p] = sum_of(&old[2 * p], &old[2 * p + 1]);
        new[16 + p] = rest_of(&old[2 * p], &old[2 * p + 1], copies[2 * p + 1]);
    }
}

fn sum_of(a: &Lanes, b: &Lanes) -> Lanes
    requires first { (m : ℕ) → m < 16 → slice_index a.now m ≤ 64 }
    requires second { (m : ℕ) → m < 16 → slice_index b.now m ≤ 64 }
    ensures { (m : ℕ) → m < 16 → slice_index result m ≡ slice_index a.now m + slice_index b.now m }
{
    let mut out = [0u8; 16];
    for m in 0..16usize {
        out[m] = a[m] + b[m];
    }
    out
}

fn rest_of(a: &Lanes, b: &Lanes, all: u8) -> Lanes
    requires first { (m : ℕ) → m < 16 → slice_index a.now m ≤ 64 }
    requires second { (m : ℕ) → m < 16 → slice_index b.now m ≤ all }
    requires few { all ≤ 64 }
    ensures { (m : ℕ) → m < 16 → slice_index result m ≡ slice_index a.now m + (all - slice_index b.now m) }
{
    let mut out = [0u8; 16];
    for m in 0..16usize {
        out[m] = a[m] + (all - b[m]);
    }
    out
}

fn next_copies(old: &[u8; 32]) -> [u8; 32]
    requires { (y : ℕ) → y < 32 → slice_index old.now y ≤ 64 }
    ensures { IsNextCopies old.now result }
{
    let mut new = [0u8; 32];
    for p in 0..16usize {
        let sum = old[2 * p] + old[2 * p + 1];
        new[p] = sum;
        new[16 + p] = sum;
    }
    new
}

/// The least cost of all indexes, and the first index that has it.
fn pick(costs: &Costs, size: u8) -> Tfci
    requires few { size ≤ 120 }
    requires most { (k m : ℕ) → k < 32 → m < 16 → cell costs.now k m ≤ size }
    ensures { IsPicked costs.now size result.index result.distance }
{
    let keys = least_keys(costs, size);
    let mut best = wide_key(keys[0], 0);
    for m in 0..16u32 {
        best = best.min(wide_key(keys[m as usize], m));
    }
    Tfci {
        index: (best % 1024) as u16,
        distance: (best / 1024) as u16,
    }
}

fn wide_key(key: u16, m: u32) -> u32
    requires { m < 16 }
    ensures { result ≡ 1024 * (key / 64) + 64 * m + key % 64 }
{
    1024 * u32::from(key / 64) + 64 * m + u32::from(key % 64)
}

/// The least key of each lane.
fn least_keys(costs: &Costs, size: u8) -> [u16; 16]
    requires few { size ≤ 120 }
    requires most { (k m : ℕ) → k < 32 → m < 16 → cell costs.now k m ≤ size }
    ensures { (m : ℕ) → m < 16 → IsLeastKey costs.now size m (slice_index result m) }
{
    let mut keys = keys_of(&costs[0]);
    for k in 0..32u16 {
        keys = lesser_keys(&keys, &costs[usize::from(k)], u16::from(size), k);
    }
    keys
}

fn keys_of(row: &Lanes) -> [u16; 16]
    requires { (m : ℕ) → m < 16 → slice_index row.now m ≤ 120 }
    ensures { (m : ℕ) → m < 16 → slice_index result m ≡ 64 * slice_index row.now m }
{
    let mut keys = [0u16; 16];
    for m in 0..16usize {
        keys[m] = 64 * u16::from(row[m]);
    }
    keys
}

// Called and not inlined, so that its lanes become one vector.
#[inline(never)]
fn lesser_keys(keys: &[u16; 16], row: &Lanes, size: u16, k: u16) -> [u16; 16]
    requires few { size ≤ 120 }
    requires row { (m : ℕ) → m < 16 → slice_index row.now m ≤ size }
    requires k { k < 32 }
    ensures { (m : ℕ) → m < 16 → slice_index result m ≡ min (slice_index keys.now m)
        (min (64 * slice_index row.now m + k) (64 * (size - slice_index row.now m) + 32 + k)) }
{
    let mut out = [0u16; 16];
    for m in 0..16usize {
        let cost = u16::from(row[m]);
        out[m] = lesser_of(
            keys[m],
            lesser_of(64 * cost + k, 64 * (size - cost) + 32 + k),
        );
    }
    out
}

fn lesser_of(a: u16, b: u16) -> u16
    ensures { result ≡ min a b }
{
    a.min(b)
}

/// The place at a position.
fn place_at(x: usize) -> usize
    requires { x < 32 }
    ensures place { result ≡ place x }
    ensures small { result < 32 }
{
    PLACES[x]
}

/// The sums of the last four basis sequences at a position.
fn sums_at(x: usize) -> Lanes
    requires { x < 32 }
    ensures { (m : ℕ) → m < 16 → slice_index result m ≡ word_bit (64 * m) (place x) }
{
    SUMS[x]
}

/// The places in an order in which M(i,0) to M(i,4) count.
static PLACES: [usize; 32] = [
    30, 0, 1, 2, 3, 4, 5, 6, 7, 8, 9, 10, 11, 12, 13, 14, 31, 15, 16, 17, 18, 19, 20, 21, 22, 23,
    24, 25, 26, 27, 28, 29,
];

/// Bit `i` of the word of index `64 * m`, for each position and `m`.
static SUMS: [Lanes; 32] = [
    [0, 0, 0, 0, 0, 0, 0, 0, 0, 0, 0, 0, 0, 0, 0, 0],
    [0, 0, 0, 0, 0, 0, 0, 0, 0, 0, 0, 0, 0, 0, 0, 0],
    [0, 1, 0, 1, 0, 1, 0, 1, 0, 1, 0, 1, 0, 1, 0, 1],
    [0, 0, 0, 0, 0, 0, 0, 0, 1, 1, 1, 1, 1, 1, 1, 1],
    [0, 1, 0, 1, 1, 0, 1, 0, 1, 0, 1, 0, 0, 1, 0, 1],
    [0, 0, 0, 0, 0, 0, 0, 0, 1, 1, 1, 1, 1, 1, 1, 1],
    [0, 0, 0, 0, 1, 1, 1, 1, 0, 0, 0, 0, 1, 1, 1, 1],
    [0, 0, 1, 1, 0, 0, 1, 1, 0, 0, 1, 1, 0, 0, 1, 1],
    [0, 0, 1, 1, 1, 1, 0, 0, 0, 0, 1, 1, 1, 1, 0, 0],
    [0, 1, 1, 0, 1, 0, 0, 1, 0, 1, 1, 0, 1, 0, 0, 1],
    [0, 1, 0, 1, 1, 0, 1, 0, 1, 0, 1, 0, 0, 1, 0, 1],
    [0, 0, 0, 0, 1, 1, 1, 1, 1, 1, 1, 1, 0, 0, 0, 0],
    [0, 0, 1, 1, 1, 1, 0, 0, 0, 0, 1, 1, 1, 1, 0, 0],
    [0, 0, 1, 1, 0, 0, 1, 1, 1, 1, 0, 0, 1, 1, 0, 0],
    [0, 1, 0, 1, 0, 1, 0, 1, 1, 0, 1, 0, 1, 0, 1, 0],
    [0, 1, 1, 0, 1, 0, 0, 1, 1, 0, 0, 1, 0, 1, 1, 0],
    [0, 1, 0, 1, 0, 1, 0, 1, 0, 1, 0, 1, 0, 1, 0, 1],
    [0, 1, 1, 0, 0, 1, 1, 0, 0, 1, 1, 0, 0, 1, 1, 0],
    [0, 1, 1, 0, 0, 1, 1, 0, 1, 0, 0, 1, 1, 0, 0, 1],
    [0, 1, 0, 1, 1, 0, 1, 0, 0, 1, 0, 1, 1, 0, 1, 0],
    [0, 0, 1, 1, 1, 1, 0, 0, 1, 1, 0, 0, 0, 0, 1, 1],
    [0, 0, 1, 1, 0, 0, 1, 1, 1, 1, 0, 0, 1, 1, 0, 0],
    [0, 0, 0, 0, 1, 1, 1, 1, 1, 1, 1, 1, 0, 0, 0, 0],
    [0, 0, 1, 1, 1, 1, 0, 0, 1, 1, 0, 0, 0, 0, 1, 1],
    [0, 0, 1, 1, 0, 0, 1, 1, 0, 0, 1, 1, 0, 0, 1, 1],
    [0, 1, 1, 0, 0, 1, 1, 0, 1, 0, 0, 1, 1, 0, 0, 1],
    [0, 1, 0, 1, 1, 0, 1, 0, 0, 1, 0, 1, 1, 0, 1, 0],
    [0, 1, 0, 1, 0, 1, 0, 1, 1, 0, 1, 0, 1, 0, 1, 0],
    [0, 0, 0, 0, 1, 1, 1, 1, 0, 0, 0, 0, 1, 1, 1, 1],
    [0, 1, 1, 0, 0, 1, 1, 0, 0, 1, 1, 0, 0, 1, 1, 0],
    [0, 1, 1, 0, 1, 0, 0, 1, 0, 1, 1, 0, 1, 0, 0, 1],
    [0, 1, 1, 0, 1, 0, 0, 1, 1, 0, 0, 1, 0, 1, 1, 0],
];
