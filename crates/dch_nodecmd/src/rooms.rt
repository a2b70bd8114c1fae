use dch_bits::{Bit, NoMemory, Trit};
use dch_lines::{CELLS, OCTETS, UNIT_BITS};
use std::alloc::Global;
use std::marker::Model;

/// Room for the texts of the longest line: the octets of an Iub frame or a unit, the bits of a unit or a TFCI, and the
/// cells of a radio frame.
#[derive(Drop)]
pub struct Rooms {
    pub(crate) octets: Vec<u8>,
    pub(crate) bits: Vec<Bit>,
    pub(crate) cells: Vec<Trit>,
}

impl Model for Rooms {
    ghost use Rattle.std.specs.Prelude.{◌≡◌, length};
    ghost use Rattle.dch_lines.specs.declared.line_texts.TheConstants.{CELLS, OCTETS, UNIT_BITS};

    ghost Value = { Unit {0} };

    ghost view = { λ _. tt };

    ghost invariant = { λ r. record {
      octets : length r.octets.items ≡ OCTETS;
      bits : length r.bits.items ≡ UNIT_BITS;
      cells : length r.cells.items ≡ CELLS;
    } };
}

impl Rooms {
    /// Takes all memory for the texts of lines.
    pub fn open(alloc: Global) -> Result<Rooms, NoMemory> {
        Ok(Rooms {
            octets: vec![in alloc; 0; OCTETS]?,
            bits: vec![in alloc; Bit::Zero; UNIT_BITS]?,
            cells: vec![in alloc; Trit::Off; CELLS]?,
        })
    }
}
