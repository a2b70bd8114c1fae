ghost use Rattle.std.specs.Prelude.{◌≡◌, ◌≤◌, ℕ, List, IfOk, IfSome, IfNone, map, option_map, string_bytes};
ghost use Rattle.clap.specs.Words.{Text, found_of, rows_of};
ghost use Rattle.dch_top.specs.Line.{is_given};
ghost use Rattle.dch_top.specs.Parses.{AreLegs, IsCommand, IsCount, Means, Parses, subcommand_name};
ghost use Rattle.dch_top.specs.declared.arguments.Subcommand.TheVariants.{Soft};

use crate::line::line_command;
use crate::number::{read_number, read_number_or};
use clap::ArgMatches;
use clap::error::ErrorKind;
use clap::parser::ValueSource;
use dch_bits::NoMemory;
use std::alloc::Global;

/// What the program is to do.
#[derive(Clone, Copy)]
pub enum Subcommand {
    /// Judge a configuration.
    Check,
    /// Code transport blocks.
    Encode,
    /// Run a Node B.
    NodeB,
    /// Run a network controller.
    Rnc,
    /// Run a terminal.
    Ue,
    /// Run a network controller, a Node B and a terminal together.
    Link,
    /// Run all three through a script of the program's own, and sum up what they report.
    Gen,
    /// Run two ends of acknowledged mode that can be reset.
    Pair,
    /// Run a network controller, the Node Bs of a soft handover and a terminal together.
    Soft,
}

/// What the words of the command line say.
#[derive(Clone, Copy)]
pub struct Arguments {
    pub subcommand: Subcommand,
    /// How much is wanted, 1 to 100,000, and 1,000 where the words give no count; of `soft` how many legs, 1 to 6,
    /// which the words give.
    pub count: u32,
    /// An eighth of the first connection frame number, 0 to 31; 0 where the words give no start.
    pub start: u8,
    /// Whether the lines of Iub frames and radio frames are left out.
    pub quiet: bool,
}

/// Reads the words after the program's name: `COMMAND [COUNT] [--start N] [--quiet]`. `None` is words that are no
/// command.
pub fn parse_arguments(alloc: Global, words: &[String]) -> Result<Option<Arguments>, NoMemory>
    ensures says { IfOk result (λ read. IfSome read (Parses (map string_bytes words.now))) }
    ensures none { IfOk result (λ read. IfNone read (¬ IsCommand (map string_bytes words.now))) }
    ensures start { IfOk result (λ read. IfSome read (λ words. words.start ≤ 31)) }
    ensures count { IfOk result (λ read. IfSome read (λ words. words.count ≤ 100000)) }
    ensures legs { IfOk result (λ read. IfSome read (λ words. words.subcommand ≡ Soft → AreLegs words.count)) }
{
    let command = line_command(alloc)?;
    match command.try_get_matches_from(words) {
        Ok(matches) => Ok(meaning_of(&matches)),
        Err(error) if error.kind() == ErrorKind::OutOfMemory => Err(NoMemory),
        Err(_) => Ok(None),
    }
}

/// What the matches of a command line stand for.
fn meaning_of(matches: &ArgMatches<'_>) -> Option<Arguments>
    ensures some { IfSome result (Means (rows_of (found_of matches.now))) }
    ensures none { IfNone result ((words : Arguments) → ¬ Means (rows_of (found_of matches.now)) words) }
    ensures start { IfSome result (λ words. words.start ≤ 31) }
    ensures count { IfSome result (λ words. words.count ≤ 100000) }
    ensures legs { IfSome result (λ words. words.subcommand ≡ Soft → AreLegs words.count) }
{
    let subcommand = parse_subcommand(matches.get_str("command")?)?;
    let count = read_count(subcommand, matches.get_str("count"))?;
    let start = read_number_or(matches.get_str("start"), 0, 0, 31)?;
    Some(Arguments {
        subcommand,
        count,
        start: start as u8,
        quiet: is_given(matches, "quiet"),
    })
}

/// The count of a command: of `soft` how many legs, of all others a count that may be left out.
fn read_count(subcommand: Subcommand, text: Option<&str>) -> Option<u32>
    ensures some { IfSome result (λ n. IsCount subcommand (option_map (λ s. s.now) text.entry) n) }
    ensures none { IfNone result ((n : ℕ) → ¬ IsCount subcommand (option_map (λ s. s.now) text.entry) n) }
    ensures few { IfSome result (λ n. n ≤ 100000) }
    ensures legs { IfSome result (λ n. subcommand ≡ Soft → AreLegs n) }
{
    match subcommand {
        Subcommand::Soft => read_number(text?, 1, 6),
        _ => read_number_or(text, 1000, 1, 100_000),
    }
}

/// Whether the words give an argument, and not its default alone.
#[tactic(auto, using(crate::proofs::Rows::source_rows))]
fn is_given(matches: &ArgMatches<'_>, id: &str) -> bool
    ensures { result ≡ is_given id.now (rows_of (found_of matches.now)) }
{
    match matches.value_source(id) {
        Some(ValueSource::CommandLine) => true,
        Some(ValueSource::DefaultValue) | None => false,
    }
}

fn parse_subcommand(text: &str) -> Option<Subcommand>
    ensures some { IfSome result (λ subcommand. text.now ≡ subcommand_name subcommand) }
    ensures none { IfNone result ((subcommand : Subcommand) → ¬ (text.now ≡ subcommand_name subcommand)) }
{
    match text {
        "check" => Some(Subcommand::Check),
        "encode" => Some(Subcommand::Encode),
        "nodeb" => Some(Subcommand::NodeB),
        "rnc" => Some(Subcommand::Rnc),
        "ue" => Some(Subcommand::Ue),
        "link" => Some(Subcommand::Link),
        "gen" => Some(Subcommand::Gen),
        "pair" => Some(Subcommand::Pair),
        "soft" => Some(Subcommand::Soft),
        _ => None,
    }
}

/// A law: words say one thing at most.
pub fn one_meaning_law()
    ensures { (texts : List Text) (a b : Arguments) → Parses texts a → Parses texts b → a ≡ b }
{}
