ghost use Rattle.std.specs.Prelude.{◌≡◌, ◌≤◌, ◌/◌, true, length, map};
ghost use Rattle.hex.specs.Hex.{decode_of};
ghost use Rattle.dch_bits.specs.Text.{bit_of_letter};
ghost use Rattle.dch_script.specs.Code.{is_bits, longest};
ghost use Rattle.dch_script.specs.Texts.{is_cells, is_unit, is_word_of_bits};
ghost use Rattle.dch_script.specs.Units.{mode_at};
ghost use Rattle.dch_lines.specs.Texts.{bits_of, cells_of, octets_if, octets_of, unit_bits, unit_octets};
ghost use Rattle.dch_lines.specs.declared.line_texts.TheConstants.{CELLS, OCTETS, UNIT_BITS};

use dch_bits::{Bit, Trit, read_bits_text, read_trits_text};
use dch_types::{Config, Mode};
use hex::decode_to_slice;

/// Room for the octets of the longest line.
pub const OCTETS: usize = 524_288;

/// Room for the bits of the longest unit of a transparent bearer.
pub const UNIT_BITS: usize = 5000;

/// Room for the cells of the longest text of cells.
pub const CELLS: usize = 57_600;

/// The octets of a hexadecimal text, where a dot stands for none, at the front of `octets`.
#[tactic(auto, unfolding(crate::specs::Texts::octets_of))]
pub fn read_octets<'a>(hex: &[u8], octets: &'a mut [u8]) -> &'a [u8]
    requires within { length hex.now ≤ longest }
    requires room { length octets.old ≡ OCTETS }
    ensures { result.now ≡ octets_of hex.now }
{
    match hex {
        b"." => &octets[..0],
        _ => decode(hex, &mut octets[..hex.len() / 2]),
    }
}

/// The octets of a hexadecimal text.
fn decode<'a>(hex: &[u8], octets: &'a mut [u8]) -> &'a [u8]
    requires { length octets.old ≡ length hex.now / 2 }
    ensures { result.now ≡ octets_if (decode_of hex.now) }
{
    match decode_to_slice(hex, octets) {
        Ok(()) => octets,
        Err(_) => &octets[..0],
    }
}

/// The bits of a text of letters, where a dot stands for none, at the front of `bits`.
#[tactic(auto, unfolding(crate::specs::Texts::bits_of))]
pub fn read_bits<'a>(text: &[u8], bits: &'a mut [Bit]) -> &'a [Bit]
    requires text { is_bits UNIT_BITS text.now ≡ true }
    requires room { length bits.old ≡ UNIT_BITS }
    ensures { result.now ≡ bits_of text.now }
{
    match text {
        b"." => &bits[..0],
        _ => match read_bits_text(text, bits) {
            Ok(count) => &bits[..count],
            Err(_) => &bits[..0],
        },
    }
}

/// The mode of a bearer.
#[tactic(auto, unfolding(dch_script::specs::Units::mode_at))]
fn mode_at(config: &Config, bearer: u8) -> Mode
    ensures { result ≡ mode_at config.now bearer }
{
    match config.bearers.as_slice().get(usize::from(bearer)) {
        Some(bearer) => bearer.mode,
        None => Mode::Tm,
    }
}

/// The octets and the bits of the text of a unit: bits for a transparent bearer, and octets for another one.
pub fn read_unit<'a>(
    config: &Config,
    bearer: u8,
    text: &[u8],
    octets: &'a mut [u8],
    bits: &'a mut [Bit],
) -> (&'a [u8], &'a [Bit])
    requires text { is_unit (mode_at config.now bearer) text.now ≡ true }
    requires octets { length octets.old ≡ OCTETS }
    requires bits { length bits.old ≡ UNIT_BITS }
    ensures octets { result.0.now ≡ unit_octets (mode_at config.now bearer) text.now }
    ensures bits { result.1.now ≡ unit_bits (mode_at config.now bearer) text.now }
{
    match mode_at(config, bearer) {
        Mode::Tm => (&octets[..0], read_bits(text, bits)),
        Mode::Um | Mode::Am => (read_octets(text, octets), &bits[..0]),
    }
}

/// The TFCI bits of a text of just so many letters as there is room for.
pub fn read_tfci<'a>(text: &[u8], tfci: &'a mut [Bit]) -> &'a [Bit]
    requires { is_word_of_bits (length tfci.old) text.now ≡ true }
    ensures bits { result.now ≡ map bit_of_letter text.now }
    ensures all { length result.now ≡ length tfci.old }
{
    match read_bits_text(text, tfci) {
        Ok(count) => &tfci[..count],
        Err(_) => unreachable!(),
    }
}

/// The cells of a text of letters, where a dot stands for none, at the front of `cells`.
#[tactic(auto, unfolding(crate::specs::Texts::cells_of))]
pub fn read_cells<'a>(text: &[u8], cells: &'a mut [Trit]) -> &'a [Trit]
    requires text { is_cells CELLS text.now ≡ true }
    requires room { length cells.old ≡ CELLS }
    ensures { result.now ≡ cells_of text.now }
{
    match text {
        b"." => &cells[..0],
        _ => match read_trits_text(text, cells) {
            Ok(count) => &cells[..count],
            Err(_) => &cells[..0],
        },
    }
}
