ghost use Rattle.std.specs.Prelude.{◌≡◌, List, ℕ, false, true, IfSome, IfNone, IfOk, codes, string_bytes};
ghost use Rattle.dch_check.specs.Singles.{IsSecondAt, JudgesSingle, RefusesSingle, has_second};
ghost use Rattle.dch_check.specs.Verdicts.{IsAccepted};

use crate::verdict::{Verdict, judge};
use dch_bits::NoMemory;
use std::alloc::Global;

/// Judges a text in which no second configuration may stand, behind a line that begins with `--- `: the first one is
/// judged, and a second one is refused.
pub fn judge_single(alloc: Global, text: &[u8]) -> Result<Verdict, NoMemory>
    ensures { IfOk result (JudgesSingle text.now) }
{
    let Some(at) = second_at(text) else {
        return judge(alloc, text);
    };
    match judge(alloc, &text[..at])? {
        Verdict::Accepted(accepted) => {
            // Its memory is given back before the line is made.
            drop(accepted);
            Ok(Verdict::Refused(second_line(alloc)?))
        }
        refused => Ok(refused),
    }
}

/// Where the first line begins that sets a second configuration apart.
pub(crate) fn second_at(text: &[u8]) -> Option<usize>
    ensures some { IfSome result (IsSecondAt text.now) }
    ensures none { IfNone result (has_second text.now ≡ false) }
{
    let mut begins = true;
    for i in 0..text.len() {
        if begins && text[i..].starts_with(b"--- ") {
            return Some(i);
        }
        begins = text[i] == b'\n';
    }
    None
}

/// The line that refuses what sets a second configuration apart.
pub(crate) fn second_line(alloc: Global) -> Result<String, NoMemory>
    ensures { IfOk result (λ line. string_bytes line ≡ codes "refused 28\n") }
{
    let line = format!(in alloc; "refused 28\n")?;
    Ok(line)
}

/// A law: no text in which no second configuration stands is both accepted and refused.
pub fn one_single_law()
    ensures { (text line other : List ℕ) → IsAccepted text line → has_second text ≡ false → ¬ RefusesSingle text other }
{}
