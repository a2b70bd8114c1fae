ghost use Rattle.std.specs.Prelude.{◌≡◌, ◌≤◌, ◌<◌, ◌⊎◌, ◌+◌, ◌*◌, ◌++◌, true, false, drop, length, map, OnOk, OnErr, IfErr};
ghost use Rattle.dch_bits.specs.Text.{cell_letter, letter_of};
ghost use Rattle.dch_accept.specs.Blocks.{bits_of as format_bits};
ghost use Rattle.dch_handle.specs.ChannelCalls.{AreShown, AreTooLong, IsToldBy, mark_of};
ghost use Rattle.dch_handle.specs.Codes.{bits_of, cells_of, has_bad_cell, has_bad_letter};
ghost use Rattle.dch_handle.specs.Statuses.{bad_letter, done, short};

use crate::letters::{read_cells, read_into};
use crate::status::{DONE, SHORT};
use crate::tti::Tti;
use dch_accept::{PhyFrame, TtiBlocks};
use dch_bits::{bits_text, trits_text};
use dch_types::Format;

/// The room for a radio frame of a direction, and for the blocks of a TTI.
#[derive(Drop)]
pub struct Room {
    pub frame: PhyFrame,
    pub blocks: TtiBlocks,
}

/// Reads the letters of the blocks of a format, one block after another.
#[tactic(auto, using(crate::proofs::Overwritten::overwritten_all))]
pub fn fill_blocks(
    blocks: &mut TtiBlocks,
    number: u8,
    format: &Format,
    letters: &[u8],
) -> Result<(), u8>
    requires few { format.now.number ≤ 64 }
    requires room { format_bits format.now ≤ blocks.old.room }
    requires long { length letters.now ≡ format_bits format.now }
    ensures ok { OnOk result ((blocks.new.bits ≡ bits_of letters.now) × (has_bad_letter letters.now ≡ false)) }
    ensures err { OnErr result (has_bad_letter letters.now ≡ true) }
    ensures status { IfErr result (λ status. status ≡ bad_letter) }
    ensures room { blocks.new.room ≡ blocks.old.room }
{
    blocks.resize(number, format);
    read_into(letters, blocks.bits_mut())
}

/// Reads the letters of a radio frame: those of its TFCI bits, and those of its cells.
#[tactic(auto, using(crate::proofs::Overwritten::overwritten_all))]
pub fn fill_frame(frame: &mut PhyFrame, tfci: &[u8], cells: &[u8]) -> Result<(), u8>
    requires tfci { length tfci.now ≡ length frame.old.tfci }
    requires cells { length cells.now ≤ frame.old.room }
    ensures tfci { OnOk result ((frame.new.tfci ≡ bits_of tfci.now) × (has_bad_letter tfci.now ≡ false)) }
    ensures cells { OnOk result ((frame.new.cells ≡ cells_of cells.now) × (has_bad_cell cells.now ≡ false)) }
    ensures err { OnErr result ((has_bad_letter tfci.now ≡ true) ⊎ (has_bad_cell cells.now ≡ true)) }
    ensures status { IfErr result (λ status. status ≡ bad_letter) }
    ensures long { length frame.new.tfci ≡ length frame.old.tfci }
    ensures room { frame.new.room ≡ frame.old.room }
{
    frame.resize(cells.len());
    read_into(tfci, frame.tfci_mut())?;
    read_cells(cells, frame.cells_mut())
}

/// Writes the letters of a radio frame.
pub fn show_frame(frame: &PhyFrame, tfci: &mut [u8], cells: &mut [u8])
    requires tfci { length tfci.old ≡ length frame.now.tfci }
    requires cells { length cells.old ≡ length frame.now.cells }
    ensures tfci { tfci.new ≡ map letter_of frame.now.tfci }
    ensures cells { cells.new ≡ map cell_letter frame.now.cells }
{
    let view = frame.view();
    bits_text(view.tfci, tfci);
    trits_text(view.cells, cells);
}

/// Tells the blocks of a TTI, each of so many bits, and writes their letters and marks at the front of two buffers,
/// where both are long enough.
pub fn show_blocks(
    held: &TtiBlocks,
    size: usize,
    letters: &mut [u8],
    marks: &mut [u8],
    tti: &mut Tti,
) -> u8
    requires { size ≡ held.now.size }
    ensures told { IsToldBy held.now tti.new }
    ensures status { (result ≡ done) ⊎ (result ≡ short) }
    ensures shown { result ≡ done → AreShown held.now letters.old marks.old letters.new marks.new }
    ensures long { result ≡ short → AreTooLong held.now letters.old marks.old }
    ensures same { result ≡ short → (letters.new ≡ letters.old) × (marks.new ≡ marks.old) }
{
    let (bits, count) = (held.bits(), held.count());
    *tti = Tti {
        format: held.format(),
        bad_frame: 0,
        blocks: count,
        size,
    };
    if letters.len() < bits.len() || marks.len() < count {
        return SHORT;
    }
    bits_text(bits, &mut letters[..bits.len()]);
    write_marks(held, &mut marks[..count]);
    DONE
}

/// Writes the marks of blocks.
fn write_marks(held: &TtiBlocks, marks: &mut [u8])
    requires { length marks.old ≡ length held.now.good }
    ensures { marks.new ≡ map mark_of held.now.good }
{
    for i in 0..marks.len() {
        marks[i] = if held.good(i) { 1 } else { 0 };
    }
}
