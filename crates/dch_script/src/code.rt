ghost use Rattle.std.specs.Prelude.{◌≡◌};
ghost use Rattle.dch_script.specs.Code.{IsSaid, meaning, line_words, code_words, code_of, coding_of, crc_of};
ghost use Rattle.dch_script.specs.LineWords.{words_of, later_words};

use crate::content::content_of;
use crate::event::{Command, Event, LineError};
use crate::texts::is_bits;
use crate::words::cut_word;
use dch_types::{Coding, Crc, MAX_BLOCK_BITS};

/// The most bytes of a line, its line feed apart.
pub const LONGEST_LINE: usize = 1_048_576;

/// Reads an event line of `encode`, with its line feed where the input has one. Of a line that is too long, the first
/// 1,048,577 bytes are enough. The lines of the other commands are read under a configuration, by `parse_in`.
#[tactic(auto, using(crate::proofs::Contents::meaning_by_content))]
pub fn parse<'a>(command: Command, line: &'a [u8]) -> Result<Event<'a>, LineError>
    requires { command ≡ Command.Encode }
    ensures { IsSaid (meaning line.entry.now) result }
{
    let Command::Encode = command else {
        unreachable!();
    };
    code_line(content_of(line)?)
}

pub fn code_line(content: &[u8]) -> Result<Event<'_>, LineError>
    ensures { IsSaid (line_words (words_of content.entry.now)) result }
{
    let (first, rest) = cut_word(content);
    match first {
        b"code" => code_event(rest),
        _ => Err(LineError::Word),
    }
}

fn code_event(words: Option<&[u8]>) -> Result<Event<'_>, LineError>
    ensures { IsSaid (code_words (later_words words.entry)) result }
{
    let Some(rest) = words else {
        return Err(LineError::Count);
    };
    let (coding, Some(rest)) = cut_word(rest) else {
        return Err(LineError::Count);
    };
    let (crc, Some(rest)) = cut_word(rest) else {
        return Err(LineError::Count);
    };
    match cut_word(rest) {
        (bits, None) => judged(coding, crc, bits),
        (_, Some(_more)) => Err(LineError::Count),
    }
}

fn judged<'a>(coding: &[u8], crc: &[u8], bits: &'a [u8]) -> Result<Event<'a>, LineError>
    ensures { IsSaid (code_of (coding_of coding.now) (crc_of crc.now) bits.entry.now) result }
{
    match (read_coding(coding), read_crc(crc)) {
        (Some(coding), Some(crc)) if is_bits(bits, MAX_BLOCK_BITS) => {
            Ok(Event::Code { coding, crc, bits })
        }
        _ => Err(LineError::Text),
    }
}

fn read_coding(word: &[u8]) -> Option<Coding>
    ensures { result ≡ coding_of word.now }
{
    match word {
        b"none" => Some(Coding::Uncoded),
        b"half" => Some(Coding::Half),
        b"third" => Some(Coding::Third),
        _ => None,
    }
}

fn read_crc(word: &[u8]) -> Option<Crc>
    ensures { result ≡ crc_of word.now }
{
    match word {
        b"0" => Some(Crc::C0),
        b"8" => Some(Crc::C8),
        b"12" => Some(Crc::C12),
        b"16" => Some(Crc::C16),
        b"24" => Some(Crc::C24),
        _ => None,
    }
}
