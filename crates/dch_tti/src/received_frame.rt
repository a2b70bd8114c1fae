ghost use Rattle.std.specs.Prelude.{◌≡◌, ◌≤◌, ◌%◌, Some, None, length, take, IfOk};
ghost use Rattle.dch_tti.specs.RxFrames.{AreBack, IsHeld};

use dch_bits::{NoMemory, Trit};
use dch_frame::Interleaver;
use std::alloc::Global;
use std::marker::Model;

/// A place for a received radio frame, in memory for the longest one.
#[derive(Drop)]
pub struct ReceivedFrame {
    combination: Option<u16>,
    cells: Vec<Trit>,
    len: usize,
}

impl Model for ReceivedFrame {
    ghost use Rattle.std.specs.Prelude.{◌≤◌, length, take};
    ghost use Rattle.dch_tti.specs.RxFrames.{RxFrame};

    ghost Value = { RxFrame };

    ghost view = { λ k. record {
      combination = k.combination;
      cells = take k.len k.cells.items;
      room = length k.cells.items;
    } };

    ghost invariant = { λ k. k.len ≤ length k.cells.items };
}

impl ReceivedFrame {
    /// Takes the memory for one frame of so many cells. None is there.
    pub fn open(alloc: Global, room: usize) -> Result<ReceivedFrame, NoMemory>
        ensures { IfOk result (λ kept. (kept.combination ≡ None) × (kept.room ≡ room)) }
    {
        Ok(ReceivedFrame {
            combination: None,
            cells: vec![in alloc; Trit::Off; room]?,
            len: 0,
        })
    }

    /// The combination of the frame, if the frame is there.
    pub fn combination(&self) -> Option<u16>
        ensures { result ≡ self.now.combination }
    {
        self.combination
    }

    /// The cells of the frame in multiplexed order.
    pub fn cells(&self) -> &[Trit]
        ensures { result.now ≡ self.now.cells }
    {
        &self.cells[..self.len]
    }

    /// No frame is there.
    pub fn miss(&mut self)
        ensures { self.new ≡ record self.old { combination = None } }
    {
        self.combination = None;
    }

    /// Keeps a frame of a combination, its cells brought back to multiplexed order code by code.
    pub fn keep(&mut self, combination: u16, interleaver: &Interleaver, cells: &[Trit])
        requires room { length cells.now ≤ self.old.room }
        requires codes { length cells.now % interleaver.now ≡ 0 }
        ensures held { IsHeld combination interleaver.now cells.now self.new }
        ensures room { self.new.room ≡ self.old.room }
    {
        bring_back(interleaver, cells, &mut self.cells);
        self.len = cells.len();
        self.combination = Some(combination);
    }
}

/// Brings a frame's cells back to multiplexed order at the front of `out`.
fn bring_back(interleaver: &Interleaver, cells: &[Trit], out: &mut [Trit])
    requires codes { length cells.now % interleaver.now ≡ 0 }
    requires room { length cells.now ≤ length out.old }
    ensures { AreBack interleaver.now cells.now (take (length cells.now) out.new) }
{
    interleaver.back(cells, &mut out[..cells.len()]);
}
