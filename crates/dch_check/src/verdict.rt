ghost use Rattle.std.specs.Prelude.{◌≡◌, ℕ, List, IfOk};
ghost use Rattle.dch_config.specs.Good.{IsGood};
ghost use Rattle.dch_check.specs.Verdicts.{IsAccepted, Judges, JudgesAs, JudgesConfig, Refuses};

use crate::acceptance::acceptance_line;
use crate::refusal::refusal_line;
use crate::which::Which;
use dch_accept::{Accepted, accept};
use dch_bits::NoMemory;
use dch_config::read;
use dch_types::Config;
use std::alloc::Global;

/// The judgement of a configuration.
#[derive(Drop)]
pub enum Verdict {
    /// It is accepted.
    Accepted(Accepted),
    /// It is refused, by this line, which has its line feed.
    Refused(String),
}

/// Judges the text of a configuration: reads it, and accepts what it says.
pub fn judge(alloc: Global, text: &[u8]) -> Result<Verdict, NoMemory>
    ensures { IfOk result (Judges text.now) }
{
    judge_as(alloc, Which::First, text)
}

/// Judges the text of the first configuration of an input, or of the second one.
pub(crate) fn judge_as(alloc: Global, which: Which, text: &[u8]) -> Result<Verdict, NoMemory>
    ensures { IfOk result (JudgesAs which text.now) }
{
    match read(alloc, text) {
        Ok(config) => judge_config(alloc, which, config),
        Err(error) => {
            let line = refusal_line(alloc, which, &error)?;
            Ok(Verdict::Refused(line))
        }
    }
}

/// Judges a configuration that was read.
fn judge_config(alloc: Global, which: Which, config: Config) -> Result<Verdict, NoMemory>
    requires { IsGood config }
    ensures { IfOk result (JudgesConfig which config) }
{
    match accept(alloc, config) {
        Ok(accepted) => Ok(Verdict::Accepted(accepted)),
        Err(refusal) => {
            let line = acceptance_line(alloc, which, &refusal)?;
            Ok(Verdict::Refused(line))
        }
    }
}

/// A law: no text is both accepted and refused.
pub fn one_judgement_law()
    ensures { (text line other : List ℕ) → IsAccepted text line → ¬ Refuses text other }
{}
