ghost use Rattle.std.specs.Prelude.{◌≡◌, IfOk};
ghost use Rattle.dch_script.specs.Pair.{IsOfPair, begins_with_ends, end_of, lone_end, pair_ends, pair_event, pair_meaning, pair_of, pair_offer, pair_words, parsed_pair};
ghost use Rattle.dch_script.specs.LineWords.{later_words};

use crate::content::content_of;
use crate::event::LineError;
use crate::parts::number_from;
use crate::units::read_text;
use crate::words::{cut_word, four_words, is_word, one_word, two_words};
use dch_types::Mode;

/// What a line of `pair` says; an end is 0 for `a` and 1 for `b`.
#[derive(Clone, Copy)]
pub enum PairLine<'a> {
    /// Open the two ends: the octets of the PDUs that `a` and `b` build, 6 to 126, the blocks of 64 octets that an end
    /// may hold, 1 to 4096, and the PDUs of the window, 1 to 2048.
    Ends {
        first: u16,
        second: u16,
        buffer: u16,
        window: u16,
    },
    /// Offer a unit to an end: `hex` is its hexadecimal text, of at most 2,000 octets, as it stands in the line, an
    /// empty one as `.`.
    Offer {
        end: u8,
        hex: &'a [u8],
    },
    /// Build the block that is due at an end.
    Build {
        end: u8,
    },
    /// Let the first block on the way to an end arrive.
    Arrive {
        end: u8,
    },
    /// Lose the first block on the way to an end.
    Lose {
        end: u8,
    },
    /// Let 10 ms pass at an end.
    Tick {
        end: u8,
    },
    /// Begin a reset at an end.
    Reset {
        end: u8,
    },
}

/// Reads a line of `pair` by itself, with its line feed where the input has one. Of a line that is too long, the first
/// 1,048,577 bytes are enough. Its place in the script and `LineError::When` are left to the caller.
pub fn parse_pair<'a>(line: &'a [u8]) -> Result<PairLine<'a>, LineError>
    ensures says { parsed_pair result ≡ pair_meaning line.entry.now }
    ensures good { IfOk result (λ parsed. IsOfPair (pair_of parsed)) }
{
    pair_line(line)
}

#[tactic(auto, unfolding(crate::specs::Pair::pair_meaning))]
fn pair_line(line: &[u8]) -> Result<PairLine<'_>, LineError>
    ensures { parsed_pair result ≡ pair_meaning line.entry.now }
{
    let (first, words) = cut_word(content_of(line)?);
    pair_words(first, words)
}

/// Whether the first word of a line of `pair` is `ends`; `Long` or `Cut` where it is no line.
#[tactic(auto, unfolding(crate::specs::Pair::begins_with_ends))]
pub fn begins_with_ends(line: &[u8]) -> Result<bool, LineError>
    ensures { result ≡ begins_with_ends line.now }
{
    let (first, _words) = cut_word(content_of(line)?);
    Ok(is_word(first, b"ends"))
}

#[tactic(auto, unfolding(crate::specs::Pair::pair_words))]
fn pair_words<'a>(first: &[u8], words: Option<&'a [u8]>) -> Result<PairLine<'a>, LineError>
    ensures { parsed_pair result ≡ pair_words first.now (later_words words.entry) }
{
    if is_word(first, b"ends") {
        pair_ends(words)
    } else {
        pair_event(first, words)
    }
}

#[tactic(auto, unfolding(crate::specs::Pair::pair_event))]
fn pair_event<'a>(first: &[u8], words: Option<&'a [u8]>) -> Result<PairLine<'a>, LineError>
    ensures { parsed_pair result ≡ pair_event first.now (later_words words.entry) }
{
    if is_word(first, b"offer") {
        pair_offer(words)
    } else if is_word(first, b"build") {
        Ok(PairLine::Build {
            end: lone_end(words)?,
        })
    } else if is_word(first, b"arrive") {
        Ok(PairLine::Arrive {
            end: lone_end(words)?,
        })
    } else if is_word(first, b"lose") {
        Ok(PairLine::Lose {
            end: lone_end(words)?,
        })
    } else if is_word(first, b"tick") {
        Ok(PairLine::Tick {
            end: lone_end(words)?,
        })
    } else if is_word(first, b"reset") {
        Ok(PairLine::Reset {
            end: lone_end(words)?,
        })
    } else {
        Err(LineError::Word)
    }
}

/// `ends P Q BUFFER WINDOW`
#[tactic(auto, unfolding(crate::specs::Pair::pair_ends))]
fn pair_ends(words: Option<&[u8]>) -> Result<PairLine<'_>, LineError>
    ensures { parsed_pair result ≡ pair_ends (later_words words.entry) }
{
    let (first, second, buffer, window) = four_words(words)?;
    let first = number_from(first, 6, 126)? as u16;
    let second = number_from(second, 6, 126)? as u16;
    let buffer = number_from(buffer, 1, 4096)? as u16;
    let window = number_from(window, 1, 2048)? as u16;
    Ok(PairLine::Ends {
        first,
        second,
        buffer,
        window,
    })
}

/// `offer END HEX`
#[tactic(auto, unfolding(crate::specs::Pair::pair_offer))]
fn pair_offer(words: Option<&[u8]>) -> Result<PairLine<'_>, LineError>
    ensures { parsed_pair result ≡ pair_offer (later_words words.entry) }
{
    let (end, hex) = two_words(words)?;
    let end = read_end(end)?;
    let hex = read_text(Mode::Am, hex)?;
    Ok(PairLine::Offer { end, hex })
}

/// The end that is the only word left.
#[tactic(auto, unfolding(crate::specs::Pair::lone_end))]
fn lone_end(words: Option<&[u8]>) -> Result<u8, LineError>
    ensures { result ≡ lone_end (later_words words.entry) }
{
    read_end(one_word(words)?)
}

/// The end that a word names.
#[tactic(auto, unfolding(crate::specs::Pair::end_of))]
fn read_end(word: &[u8]) -> Result<u8, LineError>
    ensures { result ≡ end_of word.now }
{
    match word {
        b"a" => Ok(0),
        b"b" => Ok(1),
        _ => Err(LineError::Text),
    }
}
