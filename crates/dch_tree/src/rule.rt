ghost use Rattle.std.specs.Prelude.{◌≡◌, find, ◌==◌, IfOk};
ghost use Rattle.toml.specs.View.{view};
ghost use Rattle.dch_tree.specs.Rules.{number_of, number_within, number_among, frames_of_time, frames_of_tti, crc_of, crc_of_bits, is_word, coding_of, coding_of_word, fixed_of, fixed_of_word, mode_of, mode_of_word, window_of, window_of_number, channel_of, formats_of, format_of, member_of, combination_of, combinations_of};

use dch_bits::NoMemory;
use dch_types::{Coding, Combination, Crc, Format, Mode, Sequence};
use std::alloc::Global;
use toml::Value;

fn number(value: &Value) -> Option<u64>
    ensures { result ≡ number_of (view value.now) }
{
    u64::try_from(value.as_integer()?).ok()
}

pub(crate) fn number_within(value: &Value, least: u16, most: u16) -> Option<u16>
    ensures { result ≡ number_within least most (view value.now) }
{
    let number = number(value)?;
    if u64::from(least) <= number && number <= u64::from(most) {
        Some(number as u16)
    } else {
        None
    }
}

pub(crate) fn octet_within(value: &Value, least: u8, most: u8) -> Option<u8>
    ensures { result ≡ number_within least most (view value.now) }
{
    let number = number(value)?;
    if u64::from(least) <= number && number <= u64::from(most) {
        Some(number as u8)
    } else {
        None
    }
}

pub(crate) fn number_among(value: &Value, allowed: &[u32]) -> Option<u32>
    ensures { result ≡ number_among allowed.now (view value.now) }
{
    let number = number(value)?;
    find_number(allowed, number)
}

fn find_number(allowed: &[u32], number: u64) -> Option<u32>
    ensures { result ≡ find (λ a. a == number) allowed.now }
{
    allowed.iter().copied().find(|a| u64::from(*a) == number)
}

pub(crate) fn frames(value: &Value) -> Option<u8>
    ensures { result ≡ frames_of_tti (view value.now) }
{
    frames_of_time(number(value)?)
}

/// The radio frames of a TTI of so many milliseconds.
fn frames_of_time(time: u64) -> Option<u8>
    ensures { result ≡ frames_of_time time }
{
    match time {
        10 => Some(1),
        20 => Some(2),
        40 => Some(4),
        80 => Some(8),
        _ => None,
    }
}

pub(crate) fn crc(value: &Value) -> Option<Crc>
    ensures { result ≡ crc_of (view value.now) }
{
    crc_of_bits(number(value)?)
}

/// The parity bits, by their number.
fn crc_of_bits(bits: u64) -> Option<Crc>
    ensures { result ≡ crc_of_bits bits }
{
    match bits {
        0 => Some(Crc::C0),
        8 => Some(Crc::C8),
        12 => Some(Crc::C12),
        16 => Some(Crc::C16),
        24 => Some(Crc::C24),
        _ => None,
    }
}

pub(crate) fn coding(value: &Value) -> Option<Coding>
    ensures { result ≡ coding_of (view value.now) }
{
    coding_of_word(value.as_str()?)
}

/// Whether a text is this word.
pub(crate) fn is_word(text: &str, word: &str) -> bool
    ensures { result ≡ is_word text.now word.now }
{
    text == word
}

fn coding_of_word(word: &str) -> Option<Coding>
    ensures { result ≡ coding_of_word word.now }
{
    if is_word(word, "none") {
        Some(Coding::Uncoded)
    } else if is_word(word, "half") {
        Some(Coding::Half)
    } else if is_word(word, "third") {
        Some(Coding::Third)
    } else {
        None
    }
}

/// Whether positions are fixed.
pub(crate) fn fixed(value: &Value) -> Option<bool>
    ensures { result ≡ fixed_of (view value.now) }
{
    fixed_of_word(value.as_str()?)
}

fn fixed_of_word(word: &str) -> Option<bool>
    ensures { result ≡ fixed_of_word word.now }
{
    if is_word(word, "fixed") {
        Some(true)
    } else if is_word(word, "flexible") {
        Some(false)
    } else {
        None
    }
}

pub(crate) fn mode(value: &Value) -> Option<Mode>
    ensures { result ≡ mode_of (view value.now) }
{
    mode_of_word(value.as_str()?)
}

fn mode_of_word(word: &str) -> Option<Mode>
    ensures { result ≡ mode_of_word word.now }
{
    if is_word(word, "tm") {
        Some(Mode::Tm)
    } else if is_word(word, "um") {
        Some(Mode::Um)
    } else if is_word(word, "am") {
        Some(Mode::Am)
    } else {
        None
    }
}

pub(crate) fn window(value: &Value) -> Option<u16>
    ensures { result ≡ window_of (view value.now) }
{
    Some(window_of_number(value.as_integer()?))
}

/// A whole number as a window: a negative one counts as 0, and one above the greatest u16 as that.
fn window_of_number(number: i64) -> u16
    ensures { result ≡ window_of_number number }
{
    number.clamp(0, 65535) as u16
}

/// The number of one of so many channels.
pub(crate) fn channel(value: &Value, count: usize) -> Option<Option<u8>>
    ensures { result ≡ channel_of count (view value.now) }
{
    let number = number(value)?;
    if number < count as u64 {
        Some(Some(number.min(255) as u8))
    } else {
        None
    }
}

fn format(value: &Value) -> Option<Format>
    ensures { result ≡ format_of (view value.now) }
{
    let items = value.as_array()?;
    let pair = items.as_slice();
    if pair.len() != 2 {
        return None;
    }
    let blocks = number(&pair[0])?;
    let size = number(&pair[1])?;
    Some(Format {
        number: blocks.min(65535) as u16,
        size: size.min(65535) as u16,
    })
}

pub(crate) fn formats(alloc: Global, value: &Value) -> Result<Option<Sequence<Format>>, NoMemory>
    ensures { IfOk result (λ formats. formats ≡ formats_of (view value.now)) }
{
    let Some(items) = value.as_array() else {
        return Ok(None);
    };
    let mut formats = Sequence::new(alloc);
    for item in items {
        let Some(format) = format(item) else {
            return Ok(None);
        };
        formats.push(format)?;
    }
    Ok(Some(formats))
}

/// The number of a format in a combination. One above the greatest u8 counts as that.
fn member(value: &Value) -> Option<u8>
    ensures { result ≡ member_of (view value.now) }
{
    Some(number(value)?.min(255) as u8)
}

fn combination(alloc: Global, value: &Value) -> Result<Option<Combination>, NoMemory>
    ensures { IfOk result (λ combination. combination ≡ combination_of (view value.now)) }
{
    let Some(items) = value.as_array() else {
        return Ok(None);
    };
    let mut formats = Sequence::new(alloc);
    for item in items {
        let Some(format) = member(item) else {
            return Ok(None);
        };
        formats.push(format)?;
    }
    Ok(Some(Combination { formats }))
}

pub(crate) fn combinations(
    alloc: Global,
    value: &Value,
) -> Result<Option<Sequence<Combination>>, NoMemory>
    ensures { IfOk result (λ combinations. combinations ≡ combinations_of (view value.now)) }
{
    let Some(items) = value.as_array() else {
        return Ok(None);
    };
    let mut combinations = Sequence::new(alloc);
    for item in items {
        let Some(combination) = combination(alloc, item)? else {
            return Ok(None);
        };
        combinations.push(combination)?;
    }
    Ok(Some(combinations))
}
