ghost use Rattle.std.specs.Prelude.{◌≡◌, ◌+◌, ◌*◌, ◌%◌, ◌^◌, ◌<◌, ◌≤◌, ℕ, List, length, slice_index, slice_index_or, IfOk};
ghost use Rattle.dch_inter.specs.Places.{second_of, second_back_of};
ghost use Rattle.dch_frame.specs.Stages.{code_place, code_back};
ghost use Rattle.dch_frame.specs.Table.{IsTable};

use dch_bits::NoMemory;
use dch_inter::second;
use std::alloc::Global;
use std::marker::Model;

/// The second interleaver for codes of one length, as a table (TS 25.212 4.2.11). Contracts see that length in cells.
#[derive(Drop)]
pub struct Interleaver {
    places: Vec<u16>,
}

impl Model for Interleaver {
    ghost use Rattle.std.specs.Prelude.{ℕ, ◌≤◌, length};
    ghost use Rattle.dch_frame.specs.Table.{IsTable};

    ghost Value = { ℕ };

    ghost view = { λ interleaver. length interleaver.places.items };

    ghost invariant = { λ interleaver. IsTable interleaver.places.items };
}

impl Interleaver {
    /// Takes the memory for the table of codes of `len` cells.
    pub fn open(alloc: Global, len: usize) -> Result<Self, NoMemory>
        requires some { 0 < len }
        requires short { len ≤ 65536 }
        ensures { IfOk result (λ interleaver. interleaver ≡ len) }
    {
        let mut places = zeros(alloc, len)?;
        fill(&mut places);
        Ok(Interleaver { places })
    }

    /// Writes a frame's cells from the multiplexed bits or cells, one code after another.
    pub fn write<T: Copy>(&self, from: &[T], out: &mut [T])
        requires codes { length from.now % self.now ≡ 0 }
        requires room { length out.old ≡ length from.now }
        ensures { (k : ℕ) (d : T) → k < length out.new →
            slice_index_or out.new k d ≡ slice_index_or from.now (code_place self.now k) d }
    {
        gather_codes(&self.places, from, out);
    }

    /// Brings a received frame's cells back to multiplexed order.
    pub fn back<T: Copy>(&self, cells: &[T], out: &mut [T])
        requires codes { length cells.now % self.now ≡ 0 }
        requires room { length out.old ≡ length cells.now }
        ensures { (p : ℕ) (d : T) → p < length out.new →
            slice_index_or out.new p d ≡ slice_index_or cells.now (code_back self.now p) d }
    {
        scatter_codes(&self.places, cells, out);
    }
}

fn gather_codes<T: Copy>(places: &[u16], from: &[T], out: &mut [T])
    requires table { IsTable places.now }
    requires codes { length from.now % length places.now ≡ 0 }
    requires room { length out.old ≡ length from.now }
    ensures { (k : ℕ) (d : T) → k < length out.new →
        slice_index_or out.new k d ≡ slice_index_or from.now (code_place (length places.now) k) d }
{
    let len = places.len();
    for code in 0..out.len() / len {
        let at = code * len;
        gather(places, &from[at..at + len], &mut out[at..at + len]);
    }
}

fn scatter_codes<T: Copy>(places: &[u16], cells: &[T], out: &mut [T])
    requires table { IsTable places.now }
    requires codes { length cells.now % length places.now ≡ 0 }
    requires room { length out.old ≡ length cells.now }
    ensures { (p : ℕ) (d : T) → p < length out.new →
        slice_index_or out.new p d ≡ slice_index_or cells.now (code_back (length places.now) p) d }
{
    let len = places.len();
    for code in 0..out.len() / len {
        let at = code * len;
        scatter(places, &cells[at..at + len], &mut out[at..at + len]);
    }
}

/// The multiplexed place that cell `k` of a code shows.
fn place(places: &[u16], k: usize) -> usize
    requires table { IsTable places.now }
    requires inside { k < length places.now }
    ensures value { result ≡ second_of (length places.now) k }
    ensures inside { result < length places.now }
{
    places[k] as usize
}

/// Each place of `out` shows the place of `from` that the table names.
fn gather<T: Copy>(places: &[u16], from: &[T], out: &mut [T])
    requires table { IsTable places.now }
    requires from { length from.now ≡ length places.now }
    requires room { length out.old ≡ length places.now }
    ensures { (k : ℕ) (d : T) → k < length out.new →
        slice_index_or out.new k d ≡ slice_index_or from.now (second_of (length places.now) k) d }
{
    for k in 0..out.len() {
        out[k] = from[place(places, k)];
    }
}

/// The place of `out` that the table names shows each place of `cells`.
fn scatter<T: Copy>(places: &[u16], cells: &[T], out: &mut [T])
    requires table { IsTable places.now }
    requires cells { length cells.now ≡ length places.now }
    requires room { length out.old ≡ length places.now }
    ensures { (p : ℕ) (d : T) → p < length out.new →
        slice_index_or out.new p d ≡ slice_index_or cells.now (second_back_of (length places.now) p) d }
{
    for k in 0..cells.len() {
        out[place(places, k)] = cells[k];
    }
}

/// Writes the table for codes of its length.
fn fill(places: &mut [u16])
    requires { length places.old ≤ 65536 }
    ensures { (k : ℕ) → k < length places.new → slice_index places.new k ≡ second_of (length places.new) k }
{
    let len = places.len();
    for k in 0..len {
        places[k] = second(len, k) as u16;
    }
}

fn zeros(alloc: Global, count: usize) -> Result<Vec<u16>, NoMemory>
    ensures { IfOk result (λ places. length places.items ≡ count) }
{
    match vec![in alloc; 0; count] {
        Ok(places) => Ok(places),
        Err(_) => Err(NoMemory),
    }
}
