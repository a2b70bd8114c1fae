ghost use Rattle.std.specs.Prelude.{◌≡◌, ◌==◌, ◌≤◌, IfOk};
ghost use Rattle.std.specs.List.{list_any};
ghost use Rattle.dch_script.specs.Forms.{one_shown};
ghost use Rattle.dch_script.specs.Parts.{combination_of, count_of, dir_of, iub_dir_of, mask_of, number_from, number_in, hex_of, part_of, set_of, tfci_letters, tfci_of};

use crate::event::LineError;
use crate::numbers::read_number;
use crate::texts::{is_octets, is_word_of_bits};
use dch_types::{Config, Dir};

/// The direction that a word names.
#[tactic(auto, unfolding(crate::specs::Parts::dir_of))]
pub fn read_dir(word: &[u8]) -> Result<Dir, LineError>
    ensures { result ≡ dir_of word.now }
{
    match word {
        b"up" => Ok(Dir::Up),
        b"down" => Ok(Dir::Down),
        _ => Err(LineError::Text),
    }
}

/// The direction of the Iub frames that a word names.
#[tactic(auto, unfolding(crate::specs::Parts::iub_dir_of))]
pub fn read_iub_dir(word: &[u8]) -> Result<Dir, LineError>
    ensures { result ≡ iub_dir_of word.now }
{
    if word == b"iubup".as_slice() {
        Ok(Dir::Up)
    } else if word == b"iubdown".as_slice() {
        Ok(Dir::Down)
    } else {
        Err(LineError::Text)
    }
}

/// Whether the part of a radio frame that a word names is its TFCI.
#[tactic(auto, unfolding(crate::specs::Parts::part_of))]
pub fn read_part(word: &[u8]) -> Result<bool, LineError>
    ensures { result ≡ part_of word.now }
{
    match word {
        b"t" => Ok(true),
        b"d" => Ok(false),
        _ => Err(LineError::Text),
    }
}

/// A number of at most `most`.
#[tactic(auto, unfolding(crate::specs::Parts::number_in))]
pub fn number_in(word: &[u8], most: u32) -> Result<u32, LineError>
    ensures value { result ≡ number_in most word.now }
    ensures within { IfOk result (λ number. number ≤ most) }
{
    match read_number(word, most) {
        Some(number) => Ok(number),
        None => Err(LineError::Number),
    }
}

/// The combination of a direction that a word names.
#[tactic(auto, unfolding(crate::specs::Parts::combination_of))]
pub fn read_combination(config: &Config, dir: Dir, word: &[u8]) -> Result<u16, LineError>
    ensures { result ≡ combination_of config.now dir word.now }
{
    let combination = number_in(word, 65535)?;
    if (combination as usize) < config.side(dir).combinations.len() {
        Ok(combination as u16)
    } else {
        Err(LineError::Number)
    }
}

/// The set of a direction that a word names.
#[tactic(auto, unfolding(crate::specs::Parts::set_of))]
pub fn read_set(config: &Config, dir: Dir, word: &[u8]) -> Result<u8, LineError>
    ensures { result ≡ set_of config.now dir word.now }
{
    let set = number_in(word, 255)? as u8;
    if config.side(dir).has_set(set) {
        Ok(set)
    } else {
        Err(LineError::Number)
    }
}

/// A number of at least `least` and at most `most`.
#[tactic(auto, unfolding(crate::specs::Parts::number_from))]
pub fn number_from(word: &[u8], least: u32, most: u32) -> Result<u32, LineError>
    ensures value { result ≡ number_from least most word.now }
    ensures within { IfOk result (λ number. number ≤ most) }
{
    let number = number_in(word, most)?;
    if least <= number {
        Ok(number)
    } else {
        Err(LineError::Number)
    }
}

/// A number of radio frames.
pub fn read_count(word: &[u8]) -> Result<u32, LineError>
    ensures { result ≡ count_of word.now }
{
    number_from(word, 1, 100_000)
}

/// The octet that two hexadecimal digits write.
#[tactic(auto, unfolding(crate::specs::Parts::mask_of))]
pub fn read_mask(word: &[u8]) -> Result<u8, LineError>
    ensures { result ≡ mask_of word.now }
{
    let mut octets = [0];
    match hex::decode_to_slice(word, &mut octets) {
        Ok(()) => Ok(octets[0]),
        Err(_) => Err(LineError::Text),
    }
}

/// The hexadecimal text of octets.
#[tactic(auto, unfolding(crate::specs::Parts::hex_of))]
pub fn read_hex(word: &[u8]) -> Result<&[u8], LineError>
    ensures { one_shown result ≡ hex_of word.entry.now }
{
    if is_octets(word) {
        Ok(word)
    } else {
        Err(LineError::Text)
    }
}

#[tactic(auto, unfolding(crate::specs::Parts::tfci_letters))]
fn tfci_letters(config: &Config, dir: Dir) -> usize
    ensures { result ≡ tfci_letters config.now dir }
{
    match dir {
        Dir::Down if config.downlink.sf < 128 => 120,
        Dir::Up | Dir::Down => 30,
    }
}

/// The TFCI text of a radio frame of a direction.
#[tactic(auto, unfolding(crate::specs::Parts::tfci_of))]
pub fn read_tfci<'a>(config: &Config, dir: Dir, word: &'a [u8]) -> Result<&'a [u8], LineError>
    ensures { one_shown result ≡ tfci_of config.now dir word.entry.now }
{
    if is_word_of_bits(word, tfci_letters(config, dir)) {
        Ok(word)
    } else {
        Err(LineError::Text)
    }
}
