// Letters as bits and as cells.
ghost use Rattle.std.specs.Prelude.{◌≡◌, false, true, length, IfErr, OnErr, OnOk};
ghost use Rattle.dch_handle.specs.Letters.{bits_of, cells_of, has_bad_cell, has_bad_letter};
ghost use Rattle.dch_handle.specs.Statuses.{bad_letter};

use crate::status::BAD_LETTER;
use dch_bits::{Bit, Trit, read_bits_text, read_trits_text};

/// Reads a text of `0` and `1` into as many places.
pub fn read_into(text: &[u8], bits: &mut [Bit]) -> Result<(), u8>
    requires { length bits.old ≡ length text.now }
    ensures ok { OnOk result ((bits.new ≡ bits_of text.now) × (has_bad_letter text.now ≡ false)) }
    ensures err { OnErr result ((bits.new ≡ bits.old) × (has_bad_letter text.now ≡ true)) }
    ensures status { IfErr result (λ status. status ≡ bad_letter) }
{
    match read_bits_text(text, bits) {
        Ok(_) => Ok(()),
        Err(_) => Err(BAD_LETTER),
    }
}

/// Reads a text of `0`, `1` and `-` into as many places.
pub fn read_cells(text: &[u8], cells: &mut [Trit]) -> Result<(), u8>
    requires { length cells.old ≡ length text.now }
    ensures ok { OnOk result ((cells.new ≡ cells_of text.now) × (has_bad_cell text.now ≡ false)) }
    ensures err { OnErr result ((cells.new ≡ cells.old) × (has_bad_cell text.now ≡ true)) }
    ensures status { IfErr result (λ status. status ≡ bad_letter) }
{
    match read_trits_text(text, cells) {
        Ok(_) => Ok(()),
        Err(_) => Err(BAD_LETTER),
    }
}
