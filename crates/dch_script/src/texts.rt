ghost use Rattle.std.specs.Prelude.{◌≡◌, ◌==◌, ◌||◌};
ghost use Rattle.std.specs.List.{list_all};
ghost use Rattle.hex.specs.Hex.{is_hex_digit};
ghost use Rattle.dch_script.specs.Code.{is_bits};
ghost use Rattle.dch_script.specs.Texts.{are_cells, is_word_of_bits, is_cells, is_octets, is_unit};

use dch_types::{Dir, MAX_BLOCK_BITS, MAX_UPLINK_CELLS, Mode};

/// The most hexadecimal digits of a unit: those of 2,000 octets.
const LONGEST_UNIT: usize = 4000;

/// Whether a word is a text of 1 to `most` bits, or a dot for none.
pub fn is_bits(word: &[u8], most: usize) -> bool
    ensures { result ≡ is_bits most word.now }
{
    match word {
        b"." => true,
        [] => false,
        _ => word.len() <= most && are_bits(word),
    }
}

fn are_bits(word: &[u8]) -> bool
    ensures { result ≡ list_all (λ c. c == 48 || c == 49) word.now }
{
    word.iter().all(|c| *c == b'0' || *c == b'1')
}

/// Whether a word is just `count` bits.
#[tactic(auto, unfolding(crate::specs::Texts::is_word_of_bits))]
pub fn is_word_of_bits(word: &[u8], count: usize) -> bool
    ensures { result ≡ is_word_of_bits count word.now }
{
    word.len() == count && are_bits(word)
}

/// Whether a word is a text of 1 to `most` cells, where `-` is one that is off, or a dot for none.
#[tactic(auto, unfolding(crate::specs::Texts::is_cells))]
fn is_cells(word: &[u8], most: usize) -> bool
    ensures { result ≡ is_cells most word.now }
{
    match word {
        b"." => true,
        [] => false,
        _ => word.len() <= most && are_cell_letters(word),
    }
}

fn are_cell_letters(word: &[u8]) -> bool
    ensures { result ≡ list_all (λ c. c == 48 || (c == 49 || c == 45)) word.now }
{
    word.iter().all(|c| *c == b'0' || *c == b'1' || *c == b'-')
}

/// Whether a word is a text of cells of a radio frame of a direction: bits in the uplink.
#[tactic(auto, unfolding(crate::specs::Texts::are_cells))]
pub fn are_cells(dir: Dir, word: &[u8]) -> bool
    ensures { result ≡ are_cells dir word.now }
{
    match dir {
        Dir::Up => is_bits(word, MAX_UPLINK_CELLS),
        Dir::Down => is_cells(word, MAX_UPLINK_CELLS),
    }
}

/// Whether a word is the hexadecimal text of one octet or more, or a dot for none.
#[tactic(auto, unfolding(crate::specs::Texts::is_octets))]
pub fn is_octets(word: &[u8]) -> bool
    ensures { result ≡ is_octets word.now }
{
    match word {
        b"." => true,
        [] => false,
        _ => word.len() % 2 == 0 && are_hex_digits(word),
    }
}

fn are_hex_digits(word: &[u8]) -> bool
    ensures { result ≡ list_all is_hex_digit word.now }
{
    word.iter().all(|c| is_hex_digit(*c))
}

fn is_hex_digit(c: u8) -> bool
    ensures { result ≡ is_hex_digit c }
{
    b'A' <= c && c <= b'F' || b'a' <= c && c <= b'f' || b'0' <= c && c <= b'9'
}

/// Whether a word is the text of a unit of a bearer in a mode: bits in the transparent one, and otherwise octets.
#[tactic(auto, unfolding(crate::specs::Texts::is_unit))]
pub fn is_unit(mode: Mode, word: &[u8]) -> bool
    ensures { result ≡ is_unit mode word.now }
{
    match mode {
        Mode::Tm => is_bits(word, MAX_BLOCK_BITS),
        Mode::Um | Mode::Am => word.len() <= LONGEST_UNIT && is_octets(word),
    }
}
