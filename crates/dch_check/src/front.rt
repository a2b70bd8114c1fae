ghost use Rattle.std.specs.Prelude.{◌≡◌, IfOk};
ghost use Rattle.dch_check.specs.Fronts.{JudgesFront, judgement_of};

use crate::both::{Configurations, Judgement, judge_both};
use crate::single::judge_single;
use crate::verdict::Verdict;
use dch_bits::NoMemory;
use std::alloc::Global;

/// What may stand in front of the lines of a command.
#[derive(Clone, Copy)]
pub enum FrontKind {
    /// A configuration that stands alone: a second one, behind a line that begins with `--- `, is refused.
    Single,
    /// A configuration and, behind a line `--- N`, maybe a second one that is active from radio frame N on.
    Both,
}

/// Judges the text in front of the lines of a command.
pub fn judge_front(alloc: Global, text: &[u8], kind: FrontKind) -> Result<Judgement, NoMemory>
    ensures { IfOk result (JudgesFront kind text.now) }
{
    match kind {
        FrontKind::Single => Ok(alone(judge_single(alloc, text)?)),
        FrontKind::Both => judge_both(alloc, text),
    }
}

/// The judgement of one configuration.
fn alone(verdict: Verdict) -> Judgement
    ensures { result ≡ judgement_of verdict }
{
    match verdict {
        Verdict::Accepted(first) => Judgement::Accepted(Configurations {
            first,
            second: None,
        }),
        Verdict::Refused(line) => Judgement::Refused(line),
    }
}
