ghost use Rattle.std.specs.Prelude.{◌≡◌, length, map};
ghost use Rattle.dch_bits.specs.Text.{bit_of_letter};
ghost use Rattle.dch_accept.specs.Frames.{tfci_bits};
ghost use Rattle.dch_script.specs.Good.{IsPhy};
ghost use Rattle.dch_lines.specs.declared.line_texts.TheConstants.{CELLS, UNIT_BITS};
ghost use Rattle.dch_lines.specs.Texts.{cells_of};

use dch_accept::{Accepted, FrameView};
use dch_bits::{Bit, Trit};
use dch_lines::{read_cells, read_tfci};
use dch_types::Dir;

/// Reads the texts of a radio frame of a direction: its TFCI bits and its cells.
pub fn read_radio<'a>(
    accepted: &Accepted,
    dir: Dir,
    tfci: &[u8],
    letters: &[u8],
    bits: &'a mut [Bit],
    cells: &'a mut [Trit],
) -> FrameView<'a>
    requires texts { IsPhy accepted.now.config dir tfci.now letters.now }
    requires bits { length bits.old ≡ UNIT_BITS }
    requires cells { length cells.old ≡ CELLS }
    ensures tfci { result.tfci.now ≡ map bit_of_letter tfci.now }
    ensures cells { result.cells.now ≡ cells_of letters.now }
    ensures all { length result.tfci.now ≡ tfci_bits accepted.now.config dir }
{
    FrameView {
        tfci: read_tfci(tfci, &mut bits[..accepted.tfci_bits(dir)]),
        cells: read_cells(letters, cells),
    }
}
