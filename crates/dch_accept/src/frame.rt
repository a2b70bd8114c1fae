ghost use Rattle.std.specs.Prelude.{◌≡◌, ◌≤◌, ◌*◌, [], length, replicate, IfOk};
ghost use Rattle.dch_bits.specs.declared.bit.Bit.TheVariants.{Zero};
ghost use Rattle.dch_bits.specs.declared.bit.Trit.TheVariants.{Off};
ghost use Rattle.std.specs.Borrow.{sem};
ghost use Rattle.dch_accept.specs.Frames.{tfci_bits, IsOpenedFor};
ghost use Rattle.dch_accept.specs.FrameLending.{LendsTfci, LendsCells};
ghost use Rattle.dch_accept.specs.declared.frame.TheConstants.{MOST_TFCI};

use crate::accepted::Accepted;
use crate::clear::clear;
use dch_bits::{Bit, NoMemory, Trit};
use dch_types::Dir;
use std::alloc::Global;
use std::marker::Model;

/// The most TFCI bits of a radio frame.
const MOST_TFCI: usize = 120;

/// What was sent or received in a radio frame: its TFCI bits, and the cells of its codes one after another.
#[derive(Clone, Copy)]
pub struct FrameView<'a> {
    pub tfci: &'a [Bit],
    pub cells: &'a [Trit],
}

/// A radio frame, in memory for the longest one of a direction. It has as many TFCI bits as that direction sends.
#[derive(Drop)]
pub struct PhyFrame {
    tfci: Vec<Bit>,
    bits: usize,
    cells: Vec<Trit>,
    len: usize,
    room: usize,
}

impl Model for PhyFrame {
    ghost use Rattle.std.specs.Prelude.{◌≤◌, ◌+◌, length, take};
    ghost use Rattle.dch_accept.specs.Frames.{Frame};

    ghost Value = { Frame };

    ghost view = { λ f. record { tfci = take f.bits f.tfci.items; cells = take f.len f.cells.items; room = f.room } };

    ghost use Rattle.dch_accept.specs.FrameRoom.{HasRoom};

    ghost invariant = { λ f. HasRoom f.bits (length f.tfci.items) f.len f.room (length f.cells.items) };
}

impl PhyFrame {
    /// Takes the memory for the frames of a direction. A new frame has no cell, and its TFCI bits are zeros.
    pub fn open(alloc: Global, accepted: &Accepted, dir: Dir) -> Result<PhyFrame, NoMemory>
        ensures tfci { IfOk result (λ frame. frame.tfci ≡ replicate (tfci_bits accepted.now.config dir) Zero) }
        ensures empty { IfOk result (λ frame. frame.cells ≡ []) }
        ensures opened { IfOk result (IsOpenedFor accepted.now.config dir) }
    {
        let room = accepted.most_cells(dir);
        let bits = accepted.tfci_bits(dir);
        Ok(PhyFrame {
            tfci: vec![in alloc; Bit::Zero; MOST_TFCI]?,
            bits,
            cells: vec![in alloc; Trit::Off; 2 * room]?,
            len: 0,
            room,
        })
    }

    /// The frame as it is sent.
    pub fn view(&self) -> FrameView<'_>
        ensures tfci { result.tfci.now ≡ self.now.tfci }
        ensures cells { result.cells.now ≡ self.now.cells }
    {
        FrameView {
            tfci: &self.tfci[..self.bits],
            cells: &self.cells[..self.len],
        }
    }

    /// Gives the frame so many cells, which are Off. Its TFCI bits become zeros.
    pub fn shape(&mut self, cells: usize)
        requires { cells ≤ self.old.room }
        ensures { self.new ≡ record self.old {
          tfci = replicate (length self.old.tfci) Zero;
          cells = replicate cells Off;
        } }
    {
        clear(&mut self.tfci, self.bits, Bit::Zero);
        clear(&mut self.cells, cells, Trit::Off);
        self.len = cells;
    }

    /// Gives the frame so many cells. What they and its TFCI bits are is not told.
    pub fn resize(&mut self, cells: usize)
        requires { cells ≤ self.old.room }
        ensures tfci { length self.new.tfci ≡ length self.old.tfci }
        ensures cells { length self.new.cells ≡ cells }
        ensures room { self.new.room ≡ self.old.room }
    {
        self.len = cells;
    }

    /// The TFCI bits, to be written.
    pub fn tfci_mut(&mut self) -> &mut [Bit]
        ensures* writes_back { sem 𝓛 (LendsTfci self.entry result) }
        ensures value { result.now ≡ self.old.tfci }
    {
        self.tfci.slice_mut(..self.bits)
    }

    /// The cells, to be written.
    pub fn cells_mut(&mut self) -> &mut [Trit]
        ensures* writes_back { sem 𝓛 (LendsCells self.entry result) }
        ensures value { result.now ≡ self.old.cells }
    {
        self.cells.slice_mut(..self.len)
    }

    /// The cells, to be written, and behind them as many again as room for what is made of them on the way.
    pub fn workspace_mut(&mut self) -> &mut [Trit]
        ensures* writes_back { sem 𝓛 (LendsCells self.entry result) }
        ensures long { length result.now ≡ 2 * length self.old.cells }
    {
        self.cells.slice_mut(..2 * self.len)
    }
}
