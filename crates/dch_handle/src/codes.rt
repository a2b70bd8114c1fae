// What the numbers and letters of C stand for.
ghost use Rattle.std.specs.Prelude.{◌≡◌, ◌≢◌, ◌⊎◌, ◌<◌, ◌≤◌, false, true, length, IfOk, IfErr};
ghost use Rattle.dch_types.specs.Lengths.{crc_size};
ghost use Rattle.dch_coding.specs.Conv.{coded_length};
ghost use Rattle.dch_handle.specs.Coding.{IsCheckedAs};
ghost use Rattle.dch_handle.specs.Codes.{bits_of, coding_of, crc_of, dir_of, has_bad_letter, rate_of};
ghost use Rattle.dch_handle.specs.Statuses.{no_memory, bad_letter};

use crate::letters::read_into;
use crate::status::NO_MEMORY;
use dch_bits::Bit;
use dch_coding::{Rate, check, coded_len};
use dch_types::{Coding, Crc, Dir};
use std::alloc::Global;

/// The parity of so many bits.
pub fn crc_of(bits: u8) -> Option<Crc>
    ensures { result ≡ crc_of bits }
{
    match bits {
        0 => Some(Crc::C0),
        8 => Some(Crc::C8),
        12 => Some(Crc::C12),
        16 => Some(Crc::C16),
        24 => Some(Crc::C24),
        _ => None,
    }
}

/// The rate of so many coded bits for a bit.
pub fn rate_of(outputs: u8) -> Option<Rate>
    ensures { result ≡ rate_of outputs }
{
    match outputs {
        2 => Some(Rate::Half),
        3 => Some(Rate::Third),
        _ => None,
    }
}

/// Whether a code block has from 1 to 504 bits, and so many coded bits.
pub fn is_code_size(rate: Rate, bits: usize, coded: usize) -> bool
    ensures yes { result ≡ true → (0 < bits) × (bits ≤ 504) × (coded ≡ coded_length rate bits) }
    ensures no { result ≡ false → (bits ≡ 0) ⊎ (504 < bits) ⊎ (coded ≢ coded_length rate bits) }
{
    bits != 0 && bits <= 504 && coded == coded_len(rate, bits)
}

/// 1 where bits end with the parity of those before them, else 0.
pub fn checked(crc: Crc, attached: &[Bit]) -> u8
    requires { crc_size crc ≤ length attached.now }
    ensures { IsCheckedAs crc attached.now result }
{
    if check(crc, attached) { 1 } else { 0 }
}

/// The coding of so many coded bits for a bit.
pub fn coding_of(outputs: u8) -> Option<Coding>
    ensures { result ≡ coding_of outputs }
{
    match outputs {
        1 => Some(Coding::Uncoded),
        2 => Some(Coding::Half),
        3 => Some(Coding::Third),
        _ => None,
    }
}

/// The direction of a number: 0 is up, and 1 is down.
pub fn dir_of(direction: u8) -> Option<Dir>
    ensures { result ≡ dir_of direction }
{
    match direction {
        0 => Some(Dir::Up),
        1 => Some(Dir::Down),
        _ => None,
    }
}

/// So many zeros.
pub fn zeros(alloc: Global, count: usize) -> Result<Vec<Bit>, u8>
    ensures ok { IfOk result (λ bits. length bits.items ≡ count) }
    ensures err { IfErr result (λ status. status ≡ no_memory) }
{
    match vec![in alloc; Bit::Zero; count] {
        Ok(bits) => Ok(bits),
        Err(_) => Err(NO_MEMORY),
    }
}

/// The bits of a text of `0` and `1`.
pub fn read_bits(alloc: Global, text: &[u8]) -> Result<Vec<Bit>, u8>
    ensures ok { IfOk result (λ bits. (bits.items ≡ bits_of text.now) × (has_bad_letter text.now ≡ false)) }
    ensures err { IfErr result (λ status. (status ≡ no_memory) ⊎
        ((status ≡ bad_letter) × (has_bad_letter text.now ≡ true))) }
{
    let mut bits = zeros(alloc, text.len())?;
    read_into(text, &mut bits)?;
    Ok(bits)
}
