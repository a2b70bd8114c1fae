ghost use Rattle.std.specs.Prelude.{◌≡◌};
ghost use Rattle.dch_indication.specs.Told.{line_of};
ghost use Rattle.dch_lines.specs.Filtering.{ShowsSeen, is_frame};

use crate::page::Page;
use crate::text::put_line;
use dch_indication::{Indication, Indications};
use dch_script::line_on;

/// What stands between a node and a page: with `quiet` no frame is shown, and each line is led by the same words.
#[derive(Drop)]
pub struct Filter<'a, P> {
    pub quiet: bool,
    /// The words before each line: those of the leg that the lines are of, or none.
    pub lead: &'a [u8],
    pub page: &'a mut P,
}

impl<P: Page> Indications for Filter<'_, P> {
    ghost shows = { ShowsSeen P.writes };

    fn indicate(&mut self, it: Indication<'_>) {
        if !(self.quiet && is_frame(&it)) {
            self.page.put_text(self.lead);
            put_line(self.page, &line_on(it));
        }
    }
}

/// Whether an Iub frame or a radio frame is sent, or no radio frame is.
fn is_frame(it: &Indication<'_>) -> bool
    ensures { result ≡ is_frame (line_of it.now) }
{
    match it {
        Indication::Iub { .. } | Indication::Phy { .. } | Indication::PhyNone => true,
        _ => false,
    }
}
