ghost use Rattle.std.specs.Prelude.{IfOk};
ghost use Rattle.dch_margin.specs.Answers.{Answers};

use crate::lines::lines_of;
use crate::telling::Telling;
use dch_bits::NoMemory;
use dch_check::{Verdict, judge_single};
use std::alloc::Global;

/// The answer to a configuration.
#[derive(Drop)]
pub enum Report {
    /// It is accepted, and these are its lines.
    Lines(String),
    /// It is refused, by this line.
    Refused(String),
}

/// Judges the text of a configuration, and tells what is asked for.
pub fn answer_to(alloc: Global, telling: Telling, text: &[u8]) -> Result<Report, NoMemory>
    ensures { IfOk result (Answers telling text.now) }
{
    match judge_single(alloc, text)? {
        Verdict::Accepted(accepted) => Ok(Report::Lines(lines_of(alloc, telling, &accepted)?)),
        Verdict::Refused(line) => Ok(Report::Refused(line)),
    }
}
