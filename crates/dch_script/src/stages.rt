ghost use Rattle.std.specs.Prelude.{◌≡◌, ◌<◌, length, IfOk};
ghost use Rattle.dch_types.specs.Parts.{side_of};
ghost use Rattle.dch_script.specs.Forms.{one_shown};
ghost use Rattle.dch_script.specs.LineWords.{later_words};
ghost use Rattle.dch_script.specs.Stages.{IsOfStages, blocks_of, channel_of, format_of, is_all_bits, parsed_stage, stage_frame, stage_load, stage_meaning, stage_of, stage_question, stage_words};

use crate::content::content_of;
use crate::event::LineError;
use crate::parts::{number_in, read_combination, read_dir};
use crate::texts::is_word_of_bits;
use crate::words::{cut_word, four_words, is_word, three_words, two_words};
use dch_types::{Config, Dir, Format, Trch};

/// What is asked of a TTI that is loaded.
#[derive(Clone, Copy)]
pub enum Question {
    /// Which bits a place of its interleaved cells shows.
    Where,
    /// Which of these places show a bit of its transport blocks.
    Cells,
}

/// What a line says of which the stages of coding are shown.
#[derive(Clone, Copy)]
pub enum StageLine<'a> {
    /// The transport blocks of the next TTI of a channel, in a format: `bits` is the text of all their bits, as it
    /// stands in the line, none as `.`.
    Load {
        dir: Dir,
        channel: u8,
        format: u8,
        bits: &'a [u8],
    },
    /// The next radio frame of a direction, in a combination.
    Frame {
        dir: Dir,
        combination: u16,
    },
    /// A question of the TTI that is loaded of a channel, and the number of the place or of the bit.
    Ask {
        question: Question,
        dir: Dir,
        channel: u8,
        number: u32,
    },
}

/// Reads a line under a configuration, with its line feed where the input has one. Of a line that is too long, the
/// first 1,048,577 bytes are enough. `LineError::When` is left to the caller, as is what depends on the TTI that is
/// loaded.
pub fn parse_stage<'a>(config: &Config, line: &'a [u8]) -> Result<StageLine<'a>, LineError>
    ensures says { parsed_stage result ≡ stage_meaning config.now line.entry.now }
    ensures good { IfOk result (λ parsed. IsOfStages config.now (stage_of parsed)) }
{
    stage_line(config, line)
}

#[tactic(auto, unfolding(crate::specs::Stages::stage_meaning))]
fn stage_line<'a>(config: &Config, line: &'a [u8]) -> Result<StageLine<'a>, LineError>
    ensures { parsed_stage result ≡ stage_meaning config.now line.entry.now }
{
    let (first, words) = cut_word(content_of(line)?);
    stage_words(config, first, words)
}

#[tactic(auto, unfolding(crate::specs::Stages::stage_words))]
fn stage_words<'a>(
    config: &Config,
    first: &[u8],
    words: Option<&'a [u8]>,
) -> Result<StageLine<'a>, LineError>
    ensures { parsed_stage result ≡ stage_words config.now first.now (later_words words.entry) }
{
    if is_word(first, b"load") {
        stage_load(config, words)
    } else if is_word(first, b"frame") {
        stage_frame(config, words)
    } else if is_word(first, b"where") {
        stage_question(Question::Where, config, words)
    } else if is_word(first, b"cells") {
        stage_question(Question::Cells, config, words)
    } else {
        Err(LineError::Word)
    }
}

/// `load DIR CHANNEL FORMAT BITS`
#[tactic(auto, unfolding(crate::specs::Stages::stage_load))]
fn stage_load<'a>(config: &Config, words: Option<&'a [u8]>) -> Result<StageLine<'a>, LineError>
    ensures { parsed_stage result ≡ stage_load config.now (later_words words.entry) }
{
    let (dir, channel, format, bits) = four_words(words)?;
    let dir = read_dir(dir)?;
    let channel = read_channel(config, dir, channel)?;
    let trch = config.side(dir).channel(channel as usize);
    let format = read_format(trch, format)?;
    let bits = read_blocks(trch.format(format as usize), bits)?;
    Ok(StageLine::Load {
        dir,
        channel,
        format,
        bits,
    })
}

/// `frame DIR COMBINATION`
#[tactic(auto, unfolding(crate::specs::Stages::stage_frame))]
fn stage_frame<'a>(config: &Config, words: Option<&'a [u8]>) -> Result<StageLine<'a>, LineError>
    ensures { parsed_stage result ≡ stage_frame config.now (later_words words.entry) }
{
    let (dir, combination) = two_words(words)?;
    let dir = read_dir(dir)?;
    let combination = read_combination(config, dir, combination)?;
    Ok(StageLine::Frame { dir, combination })
}

/// The words of a question behind the first: `DIR CHANNEL NUMBER`
#[tactic(auto, unfolding(crate::specs::Stages::stage_question))]
fn stage_question<'a>(
    question: Question,
    config: &Config,
    words: Option<&[u8]>,
) -> Result<StageLine<'a>, LineError>
    ensures { parsed_stage result ≡ stage_question question config.now (later_words words.entry) }
{
    let (dir, channel, number) = three_words(words)?;
    let dir = read_dir(dir)?;
    let channel = read_channel(config, dir, channel)?;
    let number = number_in(number, 460_799)?;
    Ok(StageLine::Ask {
        question,
        dir,
        channel,
        number,
    })
}

/// The channel of a direction that a word names.
#[tactic(auto, unfolding(crate::specs::Stages::channel_of))]
fn read_channel(config: &Config, dir: Dir, word: &[u8]) -> Result<u8, LineError>
    ensures value { result ≡ channel_of config.now dir word.now }
    ensures inside { IfOk result (λ channel. channel < length (side_of config.now dir).channels) }
{
    let channel = number_in(word, 255)? as u8;
    if (channel as usize) < config.side(dir).channels.len() {
        Ok(channel)
    } else {
        Err(LineError::Number)
    }
}

/// The format of a channel that a word names.
#[tactic(auto, unfolding(crate::specs::Stages::format_of))]
fn read_format(channel: &Trch, word: &[u8]) -> Result<u8, LineError>
    ensures value { result ≡ format_of channel.now word.now }
    ensures inside { IfOk result (λ format. format < length channel.now.formats) }
{
    let format = number_in(word, 255)? as u8;
    if (format as usize) < channel.formats.len() {
        Ok(format)
    } else {
        Err(LineError::Number)
    }
}

/// The text of the bits of all transport blocks of a format.
#[tactic(auto, unfolding(crate::specs::Stages::blocks_of))]
fn read_blocks<'a>(format: &Format, word: &'a [u8]) -> Result<&'a [u8], LineError>
    ensures { one_shown result ≡ blocks_of format.now word.entry.now }
{
    if are_all_bits(word, format.number as usize * format.size as usize) {
        Ok(word)
    } else {
        Err(LineError::Text)
    }
}

/// Whether a word is just `count` bits, or a dot for none.
#[tactic(auto, unfolding(crate::specs::Stages::is_all_bits))]
fn are_all_bits(word: &[u8], count: usize) -> bool
    ensures { result ≡ is_all_bits count word.now }
{
    if count == 0 {
        is_word(word, b".")
    } else {
        is_word_of_bits(word, count)
    }
}
