ghost use Rattle.std.specs.Prelude.{◌≡◌, ◌≤◌, None, true, length, IfOk};
ghost use Rattle.dch_accept.specs.Frames.{most_cells, tfci_bits};
ghost use Rattle.dch_damage.specs.Buffers.{RadioArrival};
ghost use Rattle.dch_damage.specs.Lending.{radio_of};
ghost use Rattle.dch_damage.specs.Opened.{HoldsCells, IsQuietRadio, IsRadioDamageOf, IsWithinIf};
ghost use Rattle.dch_damage.specs.Tables.{flipped, radio_cleared, radio_through, received};

use crate::arrival::{Arrival, clear};
use crate::turned::{Turned, turn, turn_bits, turn_cells};
use dch_accept::{Accepted, FrameView};
use dch_bits::{Bit, NoMemory, Trit};
use dch_types::Dir;
use std::alloc::Global;
use std::marker::Model;

/// The damage that waits for the radio frame of a direction.
#[derive(Drop)]
pub struct RadioDamage {
    lost: bool,
    tfci: Vec<Turned>,
    cells: Vec<Turned>,
    touched: bool,
}

impl Model for RadioDamage {
    ghost use Rattle.dch_damage.specs.Tables.{RadioTables};
    ghost use Rattle.dch_damage.specs.Waiting.{AreNoTurns};

    ghost Value = { RadioTables };

    ghost view = { λ d. record { lost = d.lost; tfci = d.tfci.items; cells = d.cells.items } };

    ghost invariant = { λ d. AreNoTurns d.touched d.tfci.items × AreNoTurns d.touched d.cells.items };
}

impl RadioDamage {
    /// Takes the memory for the places of the radio frames of a direction, under each of two configurations. Nothing
    /// waits.
    pub fn open(
        alloc: Global,
        first: &Accepted,
        second: &Accepted,
        dir: Dir,
    ) -> Result<RadioDamage, NoMemory>
        ensures first { IfOk result (IsRadioDamageOf first.now dir) }
        ensures second { IfOk result (IsRadioDamageOf second.now dir) }
        ensures quiet { IfOk result IsQuietRadio }
    {
        let bits = first.tfci_bits(dir).max(second.tfci_bits(dir));
        let cells = longest_frame(first, dir).max(longest_frame(second, dir));
        Ok(RadioDamage {
            lost: false,
            tfci: vec![in alloc; Turned::Not; bits]?,
            cells: vec![in alloc; Turned::Not; cells]?,
            touched: false,
        })
    }

    /// How many TFCI bits a radio frame has.
    pub fn bits(&self) -> usize
        ensures { result ≡ length self.now.tfci }
    {
        self.tfci.len()
    }

    /// The most cells of a radio frame.
    pub fn most_cells(&self) -> usize
        ensures { result ≡ length self.now.cells }
    {
        self.cells.len()
    }

    /// Turns a TFCI bit or a cell over once more.
    pub fn flip(&mut self, tfci: bool, place: u16)
        ensures { self.new ≡ flipped self.old tfci place }
    {
        if tfci {
            turn(&mut self.tfci, place as usize);
        } else {
            turn(&mut self.cells, place as usize);
        }
        self.touched = true;
    }

    /// The next radio frame is lost.
    pub fn lose(&mut self)
        ensures { self.new ≡ record self.old { lost = true } }
    {
        self.lost = true;
    }

    /// Nothing waits any more.
    pub fn clear(&mut self)
        ensures { self.new ≡ radio_cleared self.old }
    {
        self.lost = false;
        if self.touched {
            clear(&mut self.tfci, Turned::Not);
            clear(&mut self.cells, Turned::Not);
            self.touched = false;
        }
    }
}

/// The cells of the longest radio frame of a direction, over its combinations.
fn longest_frame(accepted: &Accepted, dir: Dir) -> usize
    ensures holds { HoldsCells accepted.now dir result }
    ensures few { result ≤ most_cells accepted.now.config dir }
{
    let mut longest = 0;
    for c in 0..accepted.side(dir).combinations.len() {
        longest = longest.max(accepted.frame_cells(dir, c as u16));
    }
    longest
}

/// What became of the radio frame that was hit last, with memory for the longest one.
#[derive(Drop)]
pub struct RadioBuffer {
    arrival: Arrival,
    tfci: Vec<Bit>,
    bits: usize,
    cells: Vec<Trit>,
    len: usize,
}

impl Model for RadioBuffer {
    ghost use Rattle.std.specs.Prelude.{◌≤◌, length, take};
    ghost use Rattle.dch_damage.specs.Buffers.{RadioArrival};
    ghost use Rattle.dch_damage.specs.Tables.{instead_of};

    ghost Value = { RadioArrival };

    ghost view = { λ b. record {
      instead = instead_of b.arrival (record {
        tfci = take b.bits b.tfci.items;
        cells =
            take b.len b.cells.items;
      });
      tfci_room = length b.tfci.items;
      cells_room = length b.cells.items;
    } };

    ghost invariant = { λ b. (b.bits ≤ length b.tfci.items) × (b.len ≤ length b.cells.items) };
}

impl RadioBuffer {
    /// Takes the memory for so many TFCI bits and cells. Nothing was hit.
    pub fn open(alloc: Global, bits: usize, cells: usize) -> Result<RadioBuffer, NoMemory>
        ensures { IfOk result (λ buffer. buffer ≡ record { instead = None; tfci_room = bits; cells_room = cells }) }
    {
        Ok(RadioBuffer {
            arrival: Arrival::AsSent,
            tfci: vec![in alloc; Bit::Zero; bits]?,
            bits: 0,
            cells: vec![in alloc; Trit::Zero; cells]?,
            len: 0,
        })
    }

    /// What arrives of the radio frame that was hit last and is given once more: it is lent on where no damage waited
    /// for it.
    pub fn arriving<'a>(&'a self, sent: Option<FrameView<'a>>) -> Option<FrameView<'a>>
        ensures { radio_of result ≡ received self.now.instead (radio_of sent.entry) }
    {
        match self.arrival {
            Arrival::AsSent => sent,
            Arrival::Lost => None,
            Arrival::Damaged => Some(FrameView {
                tfci: &self.tfci[..self.bits],
                cells: &self.cells[..self.len],
            }),
        }
    }

    /// Takes what becomes of a radio frame that is hit by the damage. It is copied only where a bit or a cell may be
    /// turned over.
    pub fn receive(&mut self, damage: &RadioDamage, sent: Option<FrameView<'_>>)
        requires table { IsWithinIf damage.now (radio_of sent) }
        requires tfci { length damage.now.tfci ≤ self.old.tfci_room }
        requires cells { length damage.now.cells ≤ self.old.cells_room }
        ensures rooms { (self.new.tfci_room ≡ self.old.tfci_room) × (self.new.cells_room ≡ self.old.cells_room) }
        ensures arrives { received self.new.instead (radio_of sent.entry) ≡
            radio_through damage.now (radio_of sent.entry) }
    {
        self.arrival = Arrival::AsSent;
        if damage.lost {
            self.arrival = Arrival::Lost;
        } else if damage.touched {
            if let Some(frame) = sent {
                turn_bits(&damage.tfci, frame.tfci, &mut self.tfci);
                turn_cells(&damage.cells, frame.cells, &mut self.cells);
                self.bits = frame.tfci.len();
                self.len = frame.cells.len();
                self.arrival = Arrival::Damaged;
            }
        }
    }
}
