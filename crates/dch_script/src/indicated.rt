ghost use Rattle.std.specs.Prelude.{◌≡◌, ◌∷◌, []};
ghost use Rattle.dch_indication.specs.Told.{line_of};
ghost use Rattle.dch_script.specs.LineText.{text_of};
ghost use Rattle.dch_script.specs.Report.{line_text};
ghost use Rattle.dch_script.specs.Adding.{ShowsLine};

use crate::report::{Line, Report};
use dch_indication::{Indication, Indications};

/// A report takes indications as lines, as far as there is room.
impl Indications for Report {
    ghost shows = { ShowsLine };

    fn indicate(&mut self, it: Indication<'_>) {
        self.add_line(&line_on(it));
    }
}

/// The line of a report on an indication.
pub fn line_on(it: Indication<'_>) -> Line<'_>
    ensures { line_text result ≡ text_of (line_of it.entry ∷ []) }
{
    match it {
        Indication::Took { dir, bearer } => Line::Took { dir, bearer },
        Indication::Full { dir, bearer } => Line::Full { dir, bearer },
        Indication::Wrong { dir, bearer } => Line::Wrong { dir, bearer },
        Indication::Bad {
            dir,
            channel,
            block,
        } => Line::Bad {
            dir,
            channel,
            block,
        },
        Indication::Reserved { dir, channel } => Line::Reserved { dir, channel },
        Indication::NoBearer { dir, channel, ct } => Line::NoBearer { dir, channel, ct },
        Indication::Nobody { dir, channel } => Line::Nobody { dir, channel },
        Indication::PduBad {
            dir,
            bearer,
            number,
        } => Line::PduBad {
            dir,
            bearer,
            number,
        },
        Indication::Outside { dir, bearer } => Line::Outside { dir, bearer },
        Indication::Overlong { dir, bearer } => Line::Overlong { dir, bearer },
        Indication::Got {
            dir,
            bearer,
            octets,
        } => Line::GotOctets {
            dir,
            bearer,
            octets,
        },
        Indication::GotBits { dir, bearer, bits } => Line::GotBits { dir, bearer, bits },
        Indication::Iub { dir, set, frame } => Line::Iub { dir, set, frame },
        Indication::IubBad { dir, set, number } => Line::IubBad { dir, set, number },
        Indication::Phy { dir, tfci, cells } => Line::Phy { dir, tfci, cells },
        Indication::PhyNone => Line::PhyNone,
        Indication::BadTti {
            dir,
            channel,
            frame,
        } => Line::BadTti {
            dir,
            channel,
            frame,
        },
        Indication::Differs { dir, channel } => Line::Differs { dir, channel },
    }
}
