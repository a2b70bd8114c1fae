ghost use Rattle.std.specs.Prelude.{◌≡◌, ◌≤◌, ◌+◌, ◌++◌, length};
ghost use Rattle.dch_io.specs.Pieces.{LIMIT};
ghost use Rattle.dch_lines.specs.LineTexts.{reason, refusal};
ghost use Rattle.dch_lines.specs.declared.processor.TheConstants.{LEAST_ROOM};

use dch_script::{LineError, Report};

/// Adds the line that refuses a line after so many others.
#[tactic(auto, using(crate::proofs::Texts::decimal_short), unfolding(crate::specs::LineTexts::refusal))]
pub fn put_refusal(report: &mut Report, before: u64, why: LineError)
    requires few { before ≤ LIMIT }
    requires room { length report.old.text + LEAST_ROOM ≤ report.old.most }
    ensures text { report.new ≡ record report.old { text = report.old.text ++ refusal before why } }
    ensures fits { length report.new.text ≤ report.new.most }
{
    report.put_text(b"refused 50 line=");
    report.put_number(before + 1);
    report.put_text(b" why=");
    report.put_text(reason(why));
    report.put_text(b"\n");
}

/// The word for the reason of a refusal.
fn reason(why: LineError) -> &'static [u8]
    ensures word { result.now ≡ reason why }
    ensures short { length result.now ≤ 6 }
{
    match why {
        LineError::Long => b"long",
        LineError::Cut => b"cut",
        LineError::Word => b"word",
        LineError::Count => b"count",
        LineError::Number => b"number",
        LineError::Text => b"text",
        LineError::Bearer => b"bearer",
        LineError::When => b"when",
    }
}
