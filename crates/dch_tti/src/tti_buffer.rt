ghost use Rattle.std.specs.Prelude.{◌≡◌, ◌<◌, ◌≤◌, ◌+◌, ◌*◌, ◌%◌, ℕ, None, Some, length, slice_index_or, take, IfOk};
ghost use Rattle.dch_bits.specs.declared.bit.Trit.TheVariants.{Off};
ghost use Rattle.dch_inter.specs.Places.{first_of};
ghost use Rattle.dch_types.specs.Limits.{IsFrames};
ghost use Rattle.dch_types.specs.Parts.{side_of};
ghost use Rattle.dch_tti.specs.Loaded.{AreEmpty, AreInterleaved};

use dch_accept::{Accepted, TtiRoom};
use dch_bits::{NoMemory, Trit};
use dch_frame::segment;
use dch_types::Dir;
use std::alloc::Global;
use std::marker::Model;

/// The TTI of a channel as its radio frames carry it, in memory for the channel's greatest TTI.
pub struct TtiBuffer {
    format: Option<u8>,
    cells: Vec<Trit>,
    len: usize,
    silent: bool,
    room: TtiRoom,
}

// By hand, so that whoever holds one drops it by one call.
impl Drop for TtiBuffer {
    fn drop(self) {
        let TtiBuffer {
            format: _format,
            cells: _cells,
            len: _len,
            silent: _silent,
            room: _room,
        } = self;
    }
}

impl Model for TtiBuffer {
    ghost use Rattle.std.specs.Prelude.{take};
    ghost use Rattle.dch_tti.specs.Buffered.{IsBuffered};
    ghost use Rattle.dch_tti.specs.Loaded.{Loaded};

    ghost Value = { Loaded };

    ghost view = { λ s. record { format = s.format; cells = take s.len s.cells.items; room = s.room } };

    ghost invariant = { λ s. IsBuffered s.len s.silent s.cells.items s.room.cells };
}

impl TtiBuffer {
    /// Takes the memory for TTIs of that size. Nothing is loaded.
    pub fn open(alloc: Global, room: TtiRoom) -> Result<TtiBuffer, NoMemory>
        ensures none { IfOk result (λ buffer. buffer.format ≡ None) }
        ensures room { IfOk result (λ buffer. buffer.room ≡ room) }
    {
        Ok(TtiBuffer {
            format: None,
            cells: vec![in alloc; Trit::Off; room.cells]?,
            len: 0,
            silent: false,
            room,
        })
    }

    /// The number of the loaded format.
    pub fn format(&self) -> Option<u8>
        ensures { result ≡ self.now.format }
    {
        self.format
    }

    /// The cells of the TTI's radio frames, one frame after another.
    pub fn cells(&self) -> &[Trit]
        ensures { result.now ≡ self.now.cells }
    {
        &self.cells[..self.len]
    }

    /// Loads the cells of a TTI: interleaves them over its radio frames (TS 25.212 4.2.5).
    pub fn load(&mut self, format: u8, frames: usize, tti: &[Trit])
        requires frames { IsFrames frames }
        requires whole { length tti.now % frames ≡ 0 }
        requires fits { length tti.now ≤ self.old.room.cells }
        ensures format { self.new.format ≡ Some format }
        ensures cells { AreInterleaved frames tti.now self.new.cells }
        ensures room { self.new.room ≡ self.old.room }
    {
        self.len = interleave_to_front(frames, tti, &mut self.cells);
        self.silent = false;
        self.format = Some(format);
    }

    /// Loads a TTI of so many cells in which nothing is sent. Where the one before was such a TTI, it stays.
    pub fn load_silent(&mut self, format: u8, count: usize)
        requires fits { count ≤ self.old.room.cells }
        ensures format { self.new.format ≡ Some format }
        ensures long { length self.new.cells ≡ count }
        ensures off { (k : ℕ) → k < count → slice_index_or self.new.cells k Off ≡ Off }
        ensures room { self.new.room ≡ self.old.room }
    {
        if !self.silent || self.len != count {
            leave_front_off(&mut self.cells, count);
            self.len = count;
            self.silent = true;
        }
        self.format = Some(format);
    }
}

/// Writes the radio frames of a TTI to the front of `out`, and answers how many cells they have.
fn interleave_to_front(frames: usize, tti: &[Trit], out: &mut [Trit]) -> usize
    requires frames { IsFrames frames }
    requires whole { length tti.now % frames ≡ 0 }
    requires room { length tti.now ≤ length out.old }
    ensures fits { result ≤ length out.new }
    ensures cells { AreInterleaved frames tti.now (take result out.new) }
{
    interleave(frames, tti, &mut out[..tti.len()]);
    tti.len()
}

/// Nothing is sent in the first cells.
fn leave_front_off(cells: &mut [Trit], count: usize)
    requires { count ≤ length cells.old }
    ensures { (k : ℕ) → k < count → slice_index_or cells.new k Off ≡ Off }
{
    for k in 0..count {
        cells[k] = Trit::Off;
    }
}

/// Writes the radio frames of a TTI one after another.
fn interleave(frames: usize, tti: &[Trit], out: &mut [Trit])
    requires frames { IsFrames frames }
    requires whole { length tti.now % frames ≡ 0 }
    requires room { length out.old ≡ length tti.now }
    ensures { (k : ℕ) → k < length out.new → slice_index_or out.new k Off ≡
        slice_index_or tti.now (first_of frames (length out.new) k) Off }
{
    let rows = tti.len() / frames;
    for n in 0..frames {
        let from = n * rows;
        segment(frames, n, tti, &mut out[from..from + rows]);
    }
}

/// Takes the memory for the TTIs of the channels of a direction. Nothing is loaded.
pub fn tti_buffers(alloc: Global, accepted: &Accepted, dir: Dir) -> Result<Vec<TtiBuffer>, NoMemory>
    ensures { IfOk result (λ tti_buffers. AreEmpty accepted.now dir (length (side_of accepted.now.config dir).channels)
        tti_buffers.items) }
{
    let mut tti_buffers = Vec::new(alloc);
    for i in 0..accepted.side(dir).channels.len() {
        let room = accepted.tti_room(dir, i as u8);
        tti_buffers.push(TtiBuffer::open(alloc, room)?)?;
    }
    Ok(tti_buffers)
}
