ghost use Rattle.std.specs.Prelude.{◌≡◌, ◌-◌, ◌/◌, ◌≤◌, ◌||◌, ◌↔◌, length, IsTrue};
ghost use Rattle.std.specs.List.{list_all};
ghost use Rattle.dch_types.specs.Limits.{is_idle};
ghost use Rattle.dch_types.specs.Parts.{channel_at};
ghost use Rattle.dch_config.specs.Changes.{AreAlike, Changes, GoesOnAs, HaveSameSizes, KeepsBearer, SendsAlike, ct_bits, bearer_formats, formats_on, sends_size, pdu_octets};

use crate::bearer::{first_size, has_ct};
use crate::error::ChangeError;
use dch_types::{Bearer, Config, Dir, Format, Mode, Side};

/// Whether a second configuration can follow a first one while the channel runs (TS 25.331 8.2.2): every bearer goes on
/// as it is. Its mode, its directions, its buffer and its rules stay, and so do the octets of its PDUs, or in
/// transparent mode the sizes of its blocks. Channels, combinations, logical channels and priorities may be others.
pub fn change(first: &Config, second: &Config) -> Result<(), ChangeError>
    requires first { length first.now.bearers ≤ 16 }
    requires second { length second.now.bearers ≤ 16 }
    ensures { Changes first.now second.now result }
{
    let count = first.bearers.len().max(second.bearers.len());
    for b in 0..count {
        if !keeps_bearer(first, second, b) {
            return Err(ChangeError::Change(b as u8));
        }
    }
    Ok(())
}

/// Whether bearer `b` stands in both configurations and goes on, or in neither.
fn keeps_bearer(first: &Config, second: &Config, b: usize) -> bool
    ensures { IsTrue result ↔ KeepsBearer first.now second.now b }
{
    match (
        first.bearers.as_slice().get(b),
        second.bearers.as_slice().get(b),
    ) {
        (Some(one), Some(other)) => goes_on_as(first, second, one, other),
        (None, None) => true,
        (Some(_), None) | (None, Some(_)) => false,
    }
}

fn goes_on_as(first: &Config, second: &Config, one: &Bearer, other: &Bearer) -> bool
    ensures { IsTrue result ↔ GoesOnAs first.now second.now one.now other.now }
{
    are_alike(one, other)
        && sends_alike(first, second, Dir::Up, one, other)
        && sends_alike(first, second, Dir::Down, one, other)
}

/// Whether two bearers have the same mode, directions, buffer and rules.
fn are_alike(one: &Bearer, other: &Bearer) -> bool
    ensures { IsTrue result ↔ AreAlike one.now other.now }
{
    one.mode == other.mode
        && one.up.is_some() == other.up.is_some()
        && one.down.is_some() == other.down.is_some()
        && one.buffer == other.buffer
        && one.rules == other.rules
}

fn sends_alike(first: &Config, second: &Config, dir: Dir, one: &Bearer, other: &Bearer) -> bool
    ensures { IsTrue result ↔ SendsAlike one.now.mode first.now second.now dir one.now other.now }
{
    match one.mode {
        Mode::Tm => {
            have_same_sizes(
                bearer_formats(first, dir, one),
                bearer_formats(second, dir, other),
            )
        }
        Mode::Um | Mode::Am => pdu_octets(first, dir, one) == pdu_octets(second, dir, other),
    }
}

/// The octets of a bearer's PDUs in a direction; 0 where it sends none.
fn pdu_octets(config: &Config, dir: Dir, bearer: &Bearer) -> u16
    ensures { result ≡ pdu_octets config.now dir bearer.now }
{
    match first_size(bearer_formats(config, dir, bearer)) {
        None => 0,
        Some(size) => size.saturating_sub(ct_bits(config, dir, bearer.channel(dir))) / 8,
    }
}

/// The bits of the C/T field of a channel (TS 25.321 9.2.1).
fn ct_bits(config: &Config, dir: Dir, channel: Option<u8>) -> u16
    ensures { result ≡ ct_bits config.now dir channel }
{
    match channel {
        None => 0,
        Some(i) => if has_ct(config, dir, i) { 4 } else { 0 },
    }
}

fn bearer_formats<'a>(config: &'a Config, dir: Dir, bearer: &Bearer) -> &'a [Format]
    ensures { result.now ≡ bearer_formats config.entry.now dir bearer.now }
{
    formats_on(config, dir, bearer.channel(dir))
}

fn formats_on(config: &Config, dir: Dir, channel: Option<u8>) -> &[Format]
    ensures { result.now ≡ formats_on config.entry.now dir channel }
{
    match channel {
        None => &[],
        Some(i) => formats_at(config.side(dir), i),
    }
}

fn formats_at(side: &Side, i: u8) -> &[Format]
    ensures { result.now ≡ (channel_at side.entry.now i).formats }
{
    match side.channels.as_slice().get(usize::from(i)) {
        None => &[],
        Some(channel) => channel.formats.as_slice(),
    }
}

/// Whether blocks of a size are sent in some format.
fn sends_size(formats: &[Format], size: u16) -> bool
    ensures { result ≡ sends_size formats.now size }
{
    formats
        .iter()
        .any(|format| !format.is_idle() && format.size == size)
}

/// Whether all blocks of some formats have sizes that others have.
fn sends_sizes(formats: &[Format], others: &[Format]) -> bool
    ensures { result ≡ list_all (λ format. is_idle format || sends_size others.now format.size) formats.now }
{
    formats.iter().all(|format| format.is_idle() || sends_size(others, format.size))
}

fn have_same_sizes(formats: &[Format], others: &[Format]) -> bool
    ensures { IsTrue result ↔ HaveSameSizes formats.now others.now }
{
    sends_sizes(formats, others) && sends_sizes(others, formats)
}
