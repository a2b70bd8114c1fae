ghost use Rattle.std.specs.Prelude.{◌≡◌, ◌≤◌, ◌-◌, length, drop, IfOk, OnOk};
ghost use Rattle.dch_io.specs.Ends.{end_of};
ghost use Rattle.dch_io.specs.Pieces.{LIMIT, PIECE};
ghost use Rattle.dch_script.specs.Lines.{lines_of};
ghost use Rattle.dch_check.specs.ConfigSection.{behind, gathered, settled};
ghost use Rattle.dch_check.specs.TakenConfigs.{TakesConfig, lines_before};

use crate::config_section::ConfigSection;
use dch_bits::NoMemory;
use dch_io::{InputOffset, Pending, ReadStop, Source, read_next};
use std::alloc::Global;

/// Why the configuration at the front of an input is not taken.
#[derive(Clone, Copy)]
pub enum ConfigFault {
    /// The source failed.
    ReadFault,
    /// Memory was wanted and not found.
    NoMemory,
    /// More than 67,108,864 bytes came in.
    TooLong,
}

/// The configuration at the front of an input, and what was read behind it.
#[derive(Drop)]
pub struct TakenConfig {
    pub section: ConfigSection,
    /// How many bytes were read in all.
    pub read: usize,
    /// What lies behind the line `---` in the last piece.
    pub pending: Pending,
}

impl TakenConfig {
    /// What came before the bytes that are pending: the configuration, and the line `---` where it came.
    pub fn offset(&self) -> InputOffset
        requires ordered { self.now.pending.from ≤ self.now.pending.to }
        requires inside { self.now.pending.to - self.now.pending.from ≤ self.now.read }
        requires few { length (settled self.now.section) ≤ LIMIT }
        ensures bytes { result.bytes ≡ self.now.read - (self.now.pending.to - self.now.pending.from) }
        ensures lines { result.lines ≡ lines_before self.now }
    {
        InputOffset {
            bytes: self.read - (self.pending.to - self.pending.from),
            lines: lines_in(self.section.text()) + u64::from(!self.pending.at_end),
        }
    }
}

/// How many whole lines a text has.
fn lines_in(text: &[u8]) -> u64
    requires { length text.now ≤ LIMIT }
    ensures value { result ≡ length (lines_of text.now) }
    ensures few { result ≤ length text.now }
{
    let mut lines = 0;
    for byte in text {
        if *byte == b'\n' {
            lines += 1;
        }
    }
    lines
}

/// Takes the configuration at the front of an input, piece by piece, up to the line `---` or the end of the input.
pub fn take_config<S: Source>(
    alloc: Global,
    source: &mut S,
    piece: &mut [u8],
) -> Result<TakenConfig, ConfigFault>
    requires { length piece.old ≡ PIECE }
    ensures { TakesConfig (end_of S.left S.faults source.old source.new) piece.new result }
{
    let mut section = ConfigSection::new(alloc);
    let mut count = 0;
    'pieces: loop {
        let read = match read_next(source, piece, count) {
            Ok(read) => read,
            Err(ReadStop::Failed) => return Err(ConfigFault::ReadFault),
            Err(ReadStop::TooLong) => return Err(ConfigFault::TooLong),
        };
        let from = match gather(&mut section, &piece[..read]) {
            Ok(from) => from,
            Err(NoMemory) => return Err(ConfigFault::NoMemory),
        };
        count += read;
        if section.is_complete() || read == 0 {
            let pending = Pending {
                from,
                to: read,
                at_end: read == 0,
            };
            return Ok(TakenConfig {
                section,
                read: count,
                pending,
            });
        }
    }
}

/// Goes on by the next piece, and answers where in it begins what follows the line `---`.
fn gather(section: &mut ConfigSection, piece: &[u8]) -> Result<usize, NoMemory>
    ensures section { OnOk result (section.new ≡ gathered section.old piece.now) }
    ensures inside { IfOk result (λ from. from ≤ length piece.now) }
    ensures behind { IfOk result (λ from. drop from piece.now ≡ behind section.old piece.now) }
{
    match section.take_section(piece) {
        Ok(left) => Ok(piece.len() - left.len()),
        Err(NoMemory) => Err(NoMemory),
    }
}
