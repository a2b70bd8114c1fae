ghost use Rattle.std.specs.Prelude.{◌≡◌, IfOk};
ghost use Rattle.dch_script.specs.Good.{IsGood, IsWithin};
ghost use Rattle.dch_script.specs.Meaning.{command_words, meaning_in};
ghost use Rattle.dch_script.specs.ParsedLine.{parsed, parsed_of};
ghost use Rattle.dch_script.specs.LineWords.{words_of};

use crate::code::code_line;
use crate::content::content_of;
use crate::event::{Command, Event, LineError};
use crate::link::link_event;
use crate::nodes::{node_b_event, rnc_event, ue_event};
use crate::words::cut_word;
use dch_types::Config;

/// Reads an event line of a command under a configuration, with its line feed where the input has one. Of a line that
/// is too long, the first 1,048,577 bytes are enough. The events of `ue` name the uplink where they name a direction,
/// and those of `rnc` the downlink. `LineError::When` is left to the caller.
pub fn parse_in<'a>(
    command: Command,
    config: &Config,
    line: &'a [u8],
) -> Result<Event<'a>, LineError>
    ensures says { parsed result ≡ meaning_in command config.now line.entry.now }
    ensures good { IfOk result (λ event. IsGood command config.now (parsed_of event)) }
    ensures within { IfOk result (λ event. IsWithin (parsed_of event)) }
{
    line_event(command, config, line)
}

#[tactic(auto, unfolding(crate::specs::Meaning::meaning_in))]
fn line_event<'a>(command: Command, config: &Config, line: &'a [u8]) -> Result<Event<'a>, LineError>
    ensures { parsed result ≡ meaning_in command config.now line.entry.now }
{
    command_event(command, config, content_of(line)?)
}

#[tactic(auto, using(crate::proofs::Judged::code_is_parsed))]
fn command_event<'a>(
    command: Command,
    config: &Config,
    content: &'a [u8],
) -> Result<Event<'a>, LineError>
    ensures { parsed result ≡ command_words command config.now (words_of content.entry.now) }
{
    let (first, words) = cut_word(content);
    match command {
        Command::Encode => code_line(content),
        Command::Link => link_event(config, first, words),
        Command::Ue => ue_event(config, first, words),
        Command::NodeB => node_b_event(config, first, words),
        Command::Rnc => rnc_event(config, first, words),
    }
}
