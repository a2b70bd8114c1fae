ghost use Rattle.std.specs.Prelude.{◌≡◌, ◌<◌, ◌≤◌, ◌^◌, ℕ, not, ◌||◌, length, take, position, IfSome, OnOk};
ghost use Rattle.std.specs.List.{list_any, range_with_len, slice_get};
ghost use Rattle.dch_types.specs.Limits.{idled};
ghost use Rattle.dch_types.specs.Parts.{combination_at};
ghost use Rattle.dch_config.specs.Refusals.{Judges};
ghost use Rattle.dch_config.specs.Sides.{channel_count_refusal, format_count_refusal, has_no_idle, idle_refusal, combination_count_refusal, is_within, names_formats, same_formats, is_wrong, combination_refusal, idled_format, lacks_idled, is_not_closed, closure_refusal, has_large, block_refusal, has_long, bits_refusal};

use crate::error::ConfigError;
use dch_types::{Combination, Dir, Format, Side, Trch};

pub(crate) fn channel_count(dir: Dir, side: &Side) -> Result<(), ConfigError>
    ensures judges { Judges (channel_count_refusal dir side.now) result }
    ensures few { OnOk result (length side.now.channels ≤ 8) }
{
    let count = side.channels.len();
    if 1 <= count && count <= 8 {
        Ok(())
    } else {
        Err(ConfigError::TrchCount(dir))
    }
}

fn position_of_formats(channels: &[Trch]) -> Option<usize>
    ensures { result ≡ position (λ channel. not (is_within 1 32 (length channel.formats))) channels.now }
{
    channels.iter().position(|channel| !(1 <= channel.formats.len() && channel.formats.len() <= 32))
}

pub(crate) fn format_count(dir: Dir, side: &Side) -> Result<(), ConfigError>
    requires { length side.now.channels ≤ 8 }
    ensures { Judges (format_count_refusal dir side.now) result }
{
    match position_of_formats(side.channels.as_slice()) {
        Some(i) => Err(ConfigError::FormatCount(dir, i as u8)),
        None => Ok(()),
    }
}

fn has_no_idle(channel: &Trch) -> bool
    ensures { result ≡ has_no_idle channel.now }
{
    channel.first_idle().is_none()
}

fn position_of_no_idle(channels: &[Trch]) -> Option<usize>
    ensures { result ≡ position has_no_idle channels.now }
{
    channels.iter().position(|channel| has_no_idle(channel))
}

pub(crate) fn idle(dir: Dir, side: &Side) -> Result<(), ConfigError>
    requires { length side.now.channels ≤ 8 }
    ensures { Judges (idle_refusal dir side.now) result }
{
    match position_of_no_idle(side.channels.as_slice()) {
        Some(i) => Err(ConfigError::NoIdleFormat(dir, i as u8)),
        None => Ok(()),
    }
}

pub(crate) fn combination_count(dir: Dir, side: &Side) -> Result<(), ConfigError>
    ensures judges { Judges (combination_count_refusal dir side.now) result }
    ensures few { OnOk result (length side.now.combinations ≤ 128) }
{
    let count = side.combinations.len();
    if 1 <= count && count <= 128 {
        Ok(())
    } else {
        Err(ConfigError::CombinationCount(dir))
    }
}

#[tactic(auto, using(crate::proofs::Combinations::other_length))]
fn names_formats(channels: &[Trch], formats: &[u8]) -> bool
    ensures { result ≡ names_formats channels.now formats.now }
{
    if channels.len() != formats.len() {
        return false;
    }
    for (i, channel) in channels.iter().enumerate() {
        if usize::from(formats[i]) >= channel.formats.len() {
            return false;
        }
    }
    true
}

fn has_same(combinations: &[Combination], formats: &[u8]) -> bool
    ensures { result ≡ list_any (λ other. same_formats formats.now other.formats) combinations.now }
{
    combinations
        .iter()
        .any(|other| formats == other.formats.as_slice())
}

fn is_wrong(side: &Side, c: usize) -> bool
    requires { c < length side.now.combinations }
    ensures { result ≡ is_wrong side.now c }
{
    let combinations = side.combinations.as_slice();
    let formats = combinations[c].formats.as_slice();
    !names_formats(side.channels.as_slice(), formats) || has_same(&combinations[..c], formats)
}

fn position_of_wrong(side: &Side) -> Option<usize>
    ensures value { result ≡ position (is_wrong side.now) (range_with_len 0 (length side.now.combinations)) }
    ensures within { IfSome result (λ c. c < length side.now.combinations) }
{
    (0..side.combinations.len()).position(|c| is_wrong(side, c))
}

pub(crate) fn combinations(dir: Dir, side: &Side) -> Result<(), ConfigError>
    requires { length side.now.combinations ≤ 128 }
    ensures { Judges (combination_refusal dir side.now) result }
{
    match position_of_wrong(side) {
        Some(c) => Err(ConfigError::NoSuchFormat(dir, c as u16)),
        None => Ok(()),
    }
}

/// The format of channel `i`, or its idle one where it has at most so many frames.
fn idled_format(frames: u8, channels: &[Trch], i: usize, format: u8) -> usize
    ensures { result ≡ idled_format frames (slice_get channels.now i) format }
{
    if i < channels.len() && channels[i].frames <= frames {
        channels[i].idle_format()
    } else {
        usize::from(format)
    }
}

/// Whether these are the formats with the channels of at most so many frames set to idle.
fn are_idled(frames: u8, channels: &[Trch], formats: &[u8], other: &[u8]) -> bool
    ensures { result ≡ same_formats other.now (idled frames channels.now formats.now) }
{
    if other.len() != formats.len() {
        return false;
    }
    for (i, format) in formats.iter().enumerate() {
        if usize::from(other[i]) != idled_format(frames, channels, i, *format) {
            return false;
        }
    }
    true
}

fn lacks_idled(side: &Side, c: usize, frames: u8) -> bool
    requires { c < length side.now.combinations }
    ensures { result ≡ lacks_idled side.now c frames }
{
    let combinations = side.combinations.as_slice();
    !has_idled(
        frames,
        side.channels.as_slice(),
        combinations[c].formats.as_slice(),
        combinations,
    )
}

fn has_idled(frames: u8, channels: &[Trch], formats: &[u8], combinations: &[Combination]) -> bool
    ensures { result
        ≡ list_any (λ other. same_formats other.formats (idled frames channels.now formats.now)) combinations.now }
{
    combinations.iter().any(|other| are_idled(frames, channels, formats, other.formats.as_slice()))
}

fn is_not_closed(side: &Side, c: usize) -> bool
    requires { c < length side.now.combinations }
    ensures { result ≡ is_not_closed side.now c }
{
    lacks_idled(side, c, 1)
        || lacks_idled(side, c, 2)
        || lacks_idled(side, c, 4)
        || lacks_idled(side, c, 8)
}

fn position_of_not_closed(side: &Side) -> Option<usize>
    ensures value { result ≡ position (is_not_closed side.now) (range_with_len 0 (length side.now.combinations)) }
    ensures within { IfSome result (λ c. c < length side.now.combinations) }
{
    (0..side.combinations.len()).position(|c| is_not_closed(side, c))
}

pub(crate) fn closure(dir: Dir, side: &Side) -> Result<(), ConfigError>
    requires { length side.now.combinations ≤ 128 }
    ensures { Judges (closure_refusal dir side.now) result }
{
    match position_of_not_closed(side) {
        Some(c) => Err(ConfigError::NotClosed(dir, c as u16)),
        None => Ok(()),
    }
}

pub(crate) fn block_size(dir: Dir, side: &Side) -> Result<(), ConfigError>
    requires { length side.now.channels ≤ 8 }
    ensures { Judges (block_refusal dir side.now) result }
{
    match position_of_large(side.channels.as_slice()) {
        Some(i) => Err(ConfigError::BlockSize(dir, i as u8)),
        None => Ok(()),
    }
}

fn has_large(channel: &Trch) -> bool
    ensures { result ≡ has_large channel.now }
{
    channel
        .formats
        .as_slice()
        .iter()
        .any(|format| format.size > 5000 || format.number > 64)
}

fn position_of_large(channels: &[Trch]) -> Option<usize>
    ensures { result ≡ position has_large channels.now }
{
    channels.iter().position(|channel| has_large(channel))
}

fn has_long(channel: &Trch) -> bool
    ensures { result ≡ has_long channel.now }
{
    channel
        .formats
        .as_slice()
        .iter()
        .any(|format| channel.tti_bits(format) > 131072)
}

fn position_of_long(channels: &[Trch]) -> Option<usize>
    ensures { result ≡ position has_long channels.now }
{
    channels.iter().position(|channel| has_long(channel))
}

pub(crate) fn tti_bits(dir: Dir, side: &Side) -> Result<(), ConfigError>
    requires { length side.now.channels ≤ 8 }
    ensures { Judges (bits_refusal dir side.now) result }
{
    match position_of_long(side.channels.as_slice()) {
        Some(i) => Err(ConfigError::TtiBits(dir, i as u8)),
        None => Ok(()),
    }
}
