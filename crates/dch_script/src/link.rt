ghost use Rattle.std.specs.Prelude.{◌≡◌};
ghost use Rattle.dch_script.specs.Link.{damage_words, link_unit, link_block, link_free, link_flip, link_lose, link_spoil, link_frame, link_words, names_damage, traffic_words};
ghost use Rattle.dch_script.specs.ParsedLine.{parsed};
ghost use Rattle.dch_script.specs.LineWords.{later_words};

use crate::event::{Event, LineError};
use crate::parts::{
    number_in, read_combination, read_count, read_dir, read_iub_dir, read_mask, read_part, read_set,
};
use crate::units::unit_event;
use crate::words::{alone, four_words, is_word, one_word, three_words, two_words};
use dch_types::{Config, Dir};

/// What the words of a line of `link` say.
#[tactic(auto, unfolding(crate::specs::Link::link_words))]
pub fn link_event<'a>(
    config: &Config,
    first: &[u8],
    words: Option<&'a [u8]>,
) -> Result<Event<'a>, LineError>
    ensures { parsed result ≡ link_words config.now first.now (later_words words.entry) }
{
    if names_damage(first) {
        damage_event(config, first, words)
    } else {
        traffic_event(config, first, words)
    }
}

#[tactic(auto, unfolding(crate::specs::Link::names_damage))]
fn names_damage(first: &[u8]) -> bool
    ensures { result ≡ names_damage first.now }
{
    is_word(first, b"flip") || is_word(first, b"lose") || is_word(first, b"spoil")
}

/// What a line of units, combinations or radio frames says; any other first word is `Word`.
#[tactic(auto, unfolding(crate::specs::Link::traffic_words))]
pub fn traffic_event<'a>(
    config: &Config,
    first: &[u8],
    words: Option<&'a [u8]>,
) -> Result<Event<'a>, LineError>
    ensures { parsed result ≡ traffic_words config.now first.now (later_words words.entry) }
{
    if is_word(first, b"unit") {
        link_unit(config, words)
    } else if is_word(first, b"block") {
        link_block(config, words)
    } else if is_word(first, b"free") {
        link_free(config, words)
    } else if is_word(first, b"frame") {
        link_frame(words)
    } else {
        Err(LineError::Word)
    }
}

/// What a line of damage to the next frame says; any other first word is `Word`.
#[tactic(auto, unfolding(crate::specs::Link::damage_words))]
pub fn damage_event<'a>(
    config: &Config,
    first: &[u8],
    words: Option<&'a [u8]>,
) -> Result<Event<'a>, LineError>
    ensures { parsed result ≡ damage_words config.now first.now (later_words words.entry) }
{
    if is_word(first, b"flip") {
        link_flip(words)
    } else if is_word(first, b"lose") {
        link_lose(config, words)
    } else if is_word(first, b"spoil") {
        link_spoil(config, words)
    } else {
        Err(LineError::Word)
    }
}

/// `unit DIR BEARER TEXT`
#[tactic(auto, unfolding(crate::specs::Link::link_unit))]
fn link_unit<'a>(config: &Config, words: Option<&'a [u8]>) -> Result<Event<'a>, LineError>
    ensures { parsed result ≡ link_unit config.now (later_words words.entry) }
{
    let (dir, bearer, text) = three_words(words)?;
    let dir = read_dir(dir)?;
    unit_event(config, dir, bearer, text)
}

/// `block DIR COMBINATION`
#[tactic(auto, unfolding(crate::specs::Link::link_block))]
fn link_block<'a>(config: &Config, words: Option<&'a [u8]>) -> Result<Event<'a>, LineError>
    ensures { parsed result ≡ link_block config.now (later_words words.entry) }
{
    let (dir, combination) = two_words(words)?;
    let dir = read_dir(dir)?;
    let combination = read_combination(config, dir, combination)?;
    Ok(Event::Block { dir, combination })
}

/// `free DIR COMBINATION`
#[tactic(auto, unfolding(crate::specs::Link::link_free))]
fn link_free<'a>(config: &Config, words: Option<&'a [u8]>) -> Result<Event<'a>, LineError>
    ensures { parsed result ≡ link_free config.now (later_words words.entry) }
{
    let (dir, combination) = two_words(words)?;
    let dir = read_dir(dir)?;
    let combination = read_combination(config, dir, combination)?;
    Ok(Event::Free { dir, combination })
}

/// `flip DIR PART PLACE`
#[tactic(auto, unfolding(crate::specs::Link::link_flip))]
fn link_flip(words: Option<&[u8]>) -> Result<Event<'_>, LineError>
    ensures { parsed result ≡ link_flip (later_words words.entry) }
{
    let (dir, part, place) = three_words(words)?;
    let dir = read_dir(dir)?;
    let tfci = read_part(part)?;
    let place = number_in(place, 65535)? as u16;
    Ok(Event::Flip { dir, tfci, place })
}

/// `lose iubdown SET` and `lose iubup SET`, or `lose DIR`
#[tactic(auto, unfolding(crate::specs::Link::link_lose))]
fn link_lose<'a>(config: &Config, words: Option<&'a [u8]>) -> Result<Event<'a>, LineError>
    ensures { parsed result ≡ link_lose config.now (later_words words.entry) }
{
    match two_words(words) {
        Ok((dir, set)) => {
            let dir = read_iub_dir(dir)?;
            let set = read_set(config, dir, set)?;
            Ok(Event::LoseIub { dir, set })
        }
        Err(_) => {
            let dir = read_dir(one_word(words)?)?;
            Ok(Event::Lose { dir })
        }
    }
}

/// `spoil iubdown SET OCTET MASK` and `spoil iubup SET OCTET MASK`
#[tactic(auto, unfolding(crate::specs::Link::link_spoil))]
fn link_spoil<'a>(config: &Config, words: Option<&'a [u8]>) -> Result<Event<'a>, LineError>
    ensures { parsed result ≡ link_spoil config.now (later_words words.entry) }
{
    let (dir, set, octet, mask) = four_words(words)?;
    let dir = read_iub_dir(dir)?;
    let set = read_set(config, dir, set)?;
    let octet = number_in(octet, 65535)? as u16;
    let mask = read_mask(mask)?;
    Ok(Event::Spoil {
        dir,
        set,
        octet,
        mask,
    })
}

/// `frame N`, or `frame`
#[tactic(auto, unfolding(crate::specs::Link::link_frame))]
fn link_frame(words: Option<&[u8]>) -> Result<Event<'_>, LineError>
    ensures { parsed result ≡ link_frame (later_words words.entry) }
{
    match one_word(words) {
        Ok(count) => Ok(Event::Frame(read_count(count)?)),
        Err(_) => alone(words, Event::Frame(1)),
    }
}
