ghost use Rattle.std.specs.Prelude.{◌≡◌};
ghost use Rattle.dch_types.specs.Parts.{channel_number};
ghost use Rattle.dch_script.specs.Forms.{one_shown};
ghost use Rattle.dch_script.specs.ParsedLine.{parsed};
ghost use Rattle.dch_script.specs.Units.{bearer_of, has_channel, mode_at, unit_of, text_of};

use crate::event::{Event, LineError};
use crate::numbers::{is_numeral, read_number};
use crate::texts::is_unit;
use dch_types::{Bearer, Config, Dir, Mode};

#[tactic(auto, unfolding(crate::specs::Units::has_channel))]
fn has_channel(config: &Config, dir: Dir, bearer: u32) -> bool
    ensures { result ≡ has_channel config.now dir bearer }
{
    match config.bearers.as_slice().get(bearer as usize) {
        Some(bearer) => bearer.channel(dir).is_some(),
        None => false,
    }
}

/// The bearer with a channel in a direction that a word names.
#[tactic(auto, unfolding(crate::specs::Units::bearer_of))]
fn read_bearer(config: &Config, dir: Dir, word: &[u8]) -> Result<u8, LineError>
    ensures { result ≡ bearer_of config.now dir word.now }
{
    if !is_numeral(word) {
        return Err(LineError::Number);
    }
    match read_number(word, 255) {
        Some(bearer) if has_channel(config, dir, bearer) => Ok(bearer as u8),
        _ => Err(LineError::Bearer),
    }
}

/// The mode of a bearer.
#[tactic(auto, unfolding(crate::specs::Units::mode_at))]
fn mode_at(config: &Config, bearer: u8) -> Mode
    ensures { result ≡ mode_at config.now bearer }
{
    match config.bearers.as_slice().get(usize::from(bearer)) {
        Some(bearer) => bearer.mode,
        None => Mode::Tm,
    }
}

/// The text of a unit of a bearer in a mode.
#[tactic(auto, unfolding(crate::specs::Units::text_of))]
pub fn read_text(mode: Mode, word: &[u8]) -> Result<&[u8], LineError>
    ensures { one_shown result ≡ text_of mode word.entry.now }
{
    if is_unit(mode, word) {
        Ok(word)
    } else {
        Err(LineError::Text)
    }
}

/// `BEARER TEXT`
#[tactic(auto, unfolding(crate::specs::Units::unit_of))]
pub fn unit_event<'a>(
    config: &Config,
    dir: Dir,
    bearer: &[u8],
    text: &'a [u8],
) -> Result<Event<'a>, LineError>
    ensures { parsed result ≡ unit_of config.now dir bearer.now text.entry.now }
{
    let bearer = read_bearer(config, dir, bearer)?;
    let text = read_text(mode_at(config, bearer), text)?;
    Ok(Event::Unit { dir, bearer, text })
}
