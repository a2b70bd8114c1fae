ghost use Rattle.std.specs.Prelude.{◌≡◌, IfOk};
ghost use Rattle.dch_script.specs.Good.{IsOfSoft};
ghost use Rattle.dch_script.specs.LineWords.{later_words};
ghost use Rattle.dch_script.specs.ParsedLine.{parsed_of};
ghost use Rattle.dch_script.specs.Soft.{leg_of, leg_words, legless_words, parsed_leg, soft_meaning};

use crate::content::content_of;
use crate::event::{Event, LineError};
use crate::link::{damage_event, traffic_event};
use crate::parts::number_in;
use crate::words::{cut_word, is_word, next_word};
use dch_types::Config;

/// Reads a line of `soft` with so many legs under a configuration: the leg that damage is done to, and the event. The
/// lines are those of `link`, save that `flip`, `lose` and `spoil` stand after `leg K`, K below `legs`, and nothing
/// else does. The length of the line is as for `parse_in`; `LineError::When` is left to the caller.
pub fn parse_leg<'a>(
    legs: u8,
    config: &Config,
    line: &'a [u8],
) -> Result<(Option<u8>, Event<'a>), LineError>
    ensures says { parsed_leg result ≡ soft_meaning legs config.now line.entry.now }
    ensures good { IfOk result (λ answer. IsOfSoft legs config.now answer.0 (parsed_of answer.1)) }
{
    soft_line(legs, config, line)
}

#[tactic(auto, unfolding(crate::specs::Soft::soft_meaning))]
fn soft_line<'a>(
    legs: u8,
    config: &Config,
    line: &'a [u8],
) -> Result<(Option<u8>, Event<'a>), LineError>
    ensures { parsed_leg result ≡ soft_meaning legs config.now line.entry.now }
{
    let (first, words) = cut_word(content_of(line)?);
    if is_word(first, b"leg") {
        leg_event(legs, config, words)
    } else {
        legless_event(config, first, words)
    }
}

/// `leg K` and damage
#[tactic(auto, unfolding(crate::specs::Soft::leg_words))]
fn leg_event<'a>(
    legs: u8,
    config: &Config,
    words: Option<&'a [u8]>,
) -> Result<(Option<u8>, Event<'a>), LineError>
    ensures { parsed_leg result ≡ leg_words legs config.now (later_words words.entry) }
{
    let (leg, rest) = next_word(words)?;
    let (first, words) = next_word(rest)?;
    let leg = read_leg(legs, leg)?;
    let damage = damage_event(config, first, words)?;
    Ok((Some(leg), damage))
}

/// A line without a leg.
#[tactic(auto, unfolding(crate::specs::Soft::legless_words))]
fn legless_event<'a>(
    config: &Config,
    first: &[u8],
    words: Option<&'a [u8]>,
) -> Result<(Option<u8>, Event<'a>), LineError>
    ensures { parsed_leg result ≡ legless_words config.now first.now (later_words words.entry) }
{
    let event = traffic_event(config, first, words)?;
    Ok((None, event))
}

/// The leg that a word names.
#[tactic(auto, unfolding(crate::specs::Soft::leg_of))]
fn read_leg(legs: u8, word: &[u8]) -> Result<u8, LineError>
    ensures { result ≡ leg_of legs word.now }
{
    let leg = number_in(word, 255)? as u8;
    if leg < legs {
        Ok(leg)
    } else {
        Err(LineError::Number)
    }
}
