ghost use Rattle.std.specs.Prelude.{◌≡◌};
ghost use Rattle.dch_script.specs.Forms.{one_shown};
ghost use Rattle.dch_script.specs.Nodes.{cells_of, node_unit, node_block, node_free, node_iub, node_phy, none_of, ue_words, node_b_words, rnc_words};
ghost use Rattle.dch_script.specs.ParsedLine.{parsed};
ghost use Rattle.dch_script.specs.LineWords.{later_words};

use crate::event::{Event, LineError};
use crate::parts::{read_combination, read_hex, read_set, read_tfci};
use crate::texts::are_cells;
use crate::units::unit_event;
use crate::words::{alone, is_word, one_word, two_words};
use dch_types::{Config, Dir};

/// What the words of a line of `ue` say.
#[tactic(auto, unfolding(crate::specs::Nodes::ue_words))]
pub fn ue_event<'a>(
    config: &Config,
    first: &[u8],
    words: Option<&'a [u8]>,
) -> Result<Event<'a>, LineError>
    ensures { parsed result ≡ ue_words config.now first.now (later_words words.entry) }
{
    if is_word(first, b"unit") {
        node_unit(config, Dir::Up, words)
    } else if is_word(first, b"block") {
        node_block(config, Dir::Up, words)
    } else if is_word(first, b"free") {
        node_free(config, Dir::Up, words)
    } else if is_word(first, b"phy") {
        node_phy(config, Dir::Down, words)
    } else if is_word(first, b"tick") {
        alone(words, Event::Tick)
    } else if is_word(first, b"change") {
        alone(words, Event::Change)
    } else {
        Err(LineError::Word)
    }
}

/// What the words of a line of `nodeb` say.
#[tactic(auto, unfolding(crate::specs::Nodes::node_b_words))]
pub fn node_b_event<'a>(
    config: &Config,
    first: &[u8],
    words: Option<&'a [u8]>,
) -> Result<Event<'a>, LineError>
    ensures { parsed result ≡ node_b_words config.now first.now (later_words words.entry) }
{
    if is_word(first, b"iub") {
        node_iub(config, Dir::Down, words)
    } else if is_word(first, b"down") {
        alone(words, Event::Down)
    } else if is_word(first, b"phy") {
        node_phy(config, Dir::Up, words)
    } else if is_word(first, b"change") {
        alone(words, Event::Change)
    } else {
        Err(LineError::Word)
    }
}

/// What the words of a line of `rnc` say.
#[tactic(auto, unfolding(crate::specs::Nodes::rnc_words))]
pub fn rnc_event<'a>(
    config: &Config,
    first: &[u8],
    words: Option<&'a [u8]>,
) -> Result<Event<'a>, LineError>
    ensures { parsed result ≡ rnc_words config.now first.now (later_words words.entry) }
{
    if is_word(first, b"unit") {
        node_unit(config, Dir::Down, words)
    } else if is_word(first, b"block") {
        node_block(config, Dir::Down, words)
    } else if is_word(first, b"free") {
        node_free(config, Dir::Down, words)
    } else if is_word(first, b"iub") {
        node_iub(config, Dir::Up, words)
    } else if is_word(first, b"tick") {
        alone(words, Event::Tick)
    } else if is_word(first, b"change") {
        alone(words, Event::Change)
    } else {
        Err(LineError::Word)
    }
}

/// `unit BEARER TEXT`
#[tactic(auto, unfolding(crate::specs::Nodes::node_unit))]
fn node_unit<'a>(config: &Config, dir: Dir, words: Option<&'a [u8]>) -> Result<Event<'a>, LineError>
    ensures { parsed result ≡ node_unit config.now dir (later_words words.entry) }
{
    let (bearer, text) = two_words(words)?;
    unit_event(config, dir, bearer, text)
}

/// `block COMBINATION`
#[tactic(auto, unfolding(crate::specs::Nodes::node_block))]
fn node_block<'a>(
    config: &Config,
    dir: Dir,
    words: Option<&'a [u8]>,
) -> Result<Event<'a>, LineError>
    ensures { parsed result ≡ node_block config.now dir (later_words words.entry) }
{
    let combination = read_combination(config, dir, one_word(words)?)?;
    Ok(Event::Block { dir, combination })
}

/// `free COMBINATION`
#[tactic(auto, unfolding(crate::specs::Nodes::node_free))]
fn node_free<'a>(config: &Config, dir: Dir, words: Option<&'a [u8]>) -> Result<Event<'a>, LineError>
    ensures { parsed result ≡ node_free config.now dir (later_words words.entry) }
{
    let combination = read_combination(config, dir, one_word(words)?)?;
    Ok(Event::Free { dir, combination })
}

/// `iub SET HEX`
#[tactic(auto, unfolding(crate::specs::Nodes::node_iub))]
fn node_iub<'a>(config: &Config, dir: Dir, words: Option<&'a [u8]>) -> Result<Event<'a>, LineError>
    ensures { parsed result ≡ node_iub config.now dir (later_words words.entry) }
{
    let (set, hex) = two_words(words)?;
    let set = read_set(config, dir, set)?;
    let hex = read_hex(hex)?;
    Ok(Event::Iub { set, hex })
}

/// The text of the cells of a radio frame of a direction.
#[tactic(auto, unfolding(crate::specs::Nodes::cells_of))]
fn read_cells(dir: Dir, word: &[u8]) -> Result<&[u8], LineError>
    ensures { one_shown result ≡ cells_of dir word.entry.now }
{
    if are_cells(dir, word) {
        Ok(word)
    } else {
        Err(LineError::Text)
    }
}

/// `phy TFCI CELLS` or `phy TFCI BITS`, or `phy none`
#[tactic(auto, unfolding(crate::specs::Nodes::node_phy))]
fn node_phy<'a>(config: &Config, dir: Dir, words: Option<&'a [u8]>) -> Result<Event<'a>, LineError>
    ensures { parsed result ≡ node_phy config.now dir (later_words words.entry) }
{
    match two_words(words) {
        Ok((tfci, cells)) => {
            let tfci = read_tfci(config, dir, tfci)?;
            let cells = read_cells(dir, cells)?;
            Ok(Event::Phy { tfci, cells })
        }
        Err(_) => no_frame(one_word(words)?),
    }
}

fn no_frame(word: &[u8]) -> Result<Event<'static>, LineError>
    ensures { parsed result ≡ none_of word.now }
{
    match word {
        b"none" => Ok(Event::PhyNone),
        _ => Err(LineError::Text),
    }
}
