ghost use Rattle.std.specs.Prelude.{◌≡◌, ◌<◌, ◌≤◌, ◌==◌, ◌^◌, not, length, count_by, map, filter, position, IfSome};
ghost use Rattle.std.specs.List.{list_all};
ghost use Rattle.dch_types.specs.Lengths.{crc_size};
ghost use Rattle.dch_types.specs.Limits.{is_idle};
ghost use Rattle.dch_types.specs.Parts.{channel_at, channel_number};
ghost use Rattle.dch_tree.specs.Bearers.{is_transparent};
ghost use Rattle.dch_config.specs.Refusals.{Judges};
ghost use Rattle.dch_config.specs.Bearers.{names, has_ct, has_no_check, lacks_check, check_refusal, first_size, have_one_size, is_pdu, is_pdu_bits, are_pdus, has_wrong_blocks, lacks_pdus, pdu_refusal, has_wrong_window, window_refusal};

use crate::error::ConfigError;
use dch_types::{Bearer, Config, Dir, Format, Mode, Side};

fn is_transparent(mode: Mode) -> bool
    ensures { result ≡ is_transparent mode }
{
    mode == Mode::Tm
}

fn has_no_check(side: &Side, channel: Option<u8>) -> bool
    ensures { result ≡ has_no_check side.now channel }
{
    match channel {
        None => false,
        Some(i) => crc_size(side, i) == 0,
    }
}

/// The parity bits of a channel; 0 where there is no such channel.
fn crc_size(side: &Side, i: u8) -> u8
    ensures { result ≡ crc_size (channel_at side.now i).crc }
{
    let channels = side.channels.as_slice();
    if usize::from(i) < channels.len() {
        channels[usize::from(i)].crc.size()
    } else {
        0
    }
}

fn lacks_check(config: &Config, bearer: &Bearer) -> bool
    ensures { result ≡ lacks_check config.now bearer.now }
{
    !is_transparent(bearer.mode)
        && (has_no_check(&config.uplink.side, bearer.up)
            || has_no_check(&config.downlink.side, bearer.down))
}

fn position_without_check(config: &Config) -> Option<usize>
    ensures value { result ≡ position (lacks_check config.now) config.now.bearers }
    ensures within { IfSome result (λ b. b < length config.now.bearers) }
{
    config
        .bearers
        .as_slice()
        .iter()
        .position(|bearer| lacks_check(config, bearer))
}

pub(crate) fn check(config: &Config) -> Result<(), ConfigError>
    requires { length config.now.bearers ≤ 16 }
    ensures { Judges (check_refusal config.now) result }
{
    match position_without_check(config) {
        Some(b) => Err(ConfigError::NoCheck(b as u8)),
        None => Ok(()),
    }
}

fn names(channel: Option<u8>, i: u8) -> bool
    ensures { result ≡ names channel i }
{
    match channel {
        None => false,
        Some(j) => j == i,
    }
}

fn count_naming(bearers: &[Bearer], dir: Dir, i: u8) -> usize
    ensures { result ≡ count_by (λ bearer. names (channel_number dir bearer) i) bearers.now }
{
    bearers
        .iter()
        .filter(|bearer| names(bearer.channel(dir), i))
        .count()
}

/// Whether a channel has the C/T field: exactly where two or more bearers name it (TS 25.321 9.2.1).
pub fn has_ct(config: &Config, dir: Dir, i: u8) -> bool
    ensures { result ≡ has_ct config.now dir i }
{
    count_naming(config.bearers.as_slice(), dir, i) > 1
}

/// The size of a channel's first block; `None` where it sends none.
pub(crate) fn first_size(formats: &[Format]) -> Option<u16>
    ensures { result ≡ first_size formats.now }
{
    formats
        .iter()
        .find(|format| !format.is_idle())
        .map(|format| format.size)
}

/// Whether all blocks of a channel have this size.
fn have_one_size(formats: &[Format], size: u16) -> bool
    ensures { result ≡ have_one_size formats.now size }
{
    formats
        .iter()
        .all(|format| format.is_idle() || format.size == size)
}

fn is_pdu(mode: Mode, octets: u16) -> bool
    ensures { result ≡ is_pdu mode octets }
{
    match mode {
        Mode::Tm => true,
        Mode::Um => 3 <= octets && octets <= 125,
        Mode::Am => 6 <= octets && octets <= 126,
    }
}

fn is_pdu_bits(mode: Mode, bits: u16) -> bool
    ensures { result ≡ is_pdu_bits mode bits }
{
    bits % 8 == 0 && is_pdu(mode, bits / 8)
}

fn are_pdus(mode: Mode, ct: bool, formats: &[Format]) -> bool
    ensures { result ≡ are_pdus mode ct formats.now }
{
    match first_size(formats) {
        None => false,
        Some(size) => have_one_size(formats, size)
            && is_pdu_bits(mode, size.saturating_sub(if ct { 4 } else { 0 })),
    }
}

fn has_wrong_blocks(config: &Config, mode: Mode, dir: Dir, channel: Option<u8>) -> bool
    ensures { result ≡ has_wrong_blocks config.now mode dir channel }
{
    match channel {
        None => false,
        Some(i) => !are_pdus_of(config.side(dir), mode, has_ct(config, dir, i), i),
    }
}

fn are_pdus_of(side: &Side, mode: Mode, ct: bool, i: u8) -> bool
    ensures { result ≡ are_pdus mode ct (channel_at side.now i).formats }
{
    let channels = side.channels.as_slice();
    if usize::from(i) < channels.len() {
        are_pdus(mode, ct, channels[usize::from(i)].formats.as_slice())
    } else {
        false
    }
}

fn lacks_pdus(config: &Config, bearer: &Bearer) -> bool
    ensures { result ≡ lacks_pdus config.now bearer.now }
{
    !is_transparent(bearer.mode)
        && (has_wrong_blocks(config, bearer.mode, Dir::Up, bearer.up)
            || has_wrong_blocks(config, bearer.mode, Dir::Down, bearer.down))
}

fn position_without_pdus(config: &Config) -> Option<usize>
    ensures value { result ≡ position (lacks_pdus config.now) config.now.bearers }
    ensures within { IfSome result (λ b. b < length config.now.bearers) }
{
    config
        .bearers
        .as_slice()
        .iter()
        .position(|bearer| lacks_pdus(config, bearer))
}

pub(crate) fn pdus(config: &Config) -> Result<(), ConfigError>
    requires { length config.now.bearers ≤ 16 }
    ensures { Judges (pdu_refusal config.now) result }
{
    match position_without_pdus(config) {
        Some(b) => Err(ConfigError::PduSize(b as u8)),
        None => Ok(()),
    }
}

fn position_of_window(bearers: &[Bearer]) -> Option<usize>
    ensures value { result ≡ position has_wrong_window bearers.now }
    ensures within { IfSome result (λ b. b < length bearers.now) }
{
    bearers.iter().position(|bearer| !(1 <= bearer.rules.window && bearer.rules.window <= 2048))
}

pub(crate) fn windows(config: &Config) -> Result<(), ConfigError>
    requires { length config.now.bearers ≤ 16 }
    ensures { Judges (window_refusal config.now) result }
{
    match position_of_window(config.bearers.as_slice()) {
        Some(b) => Err(ConfigError::Window(b as u8)),
        None => Ok(()),
    }
}
