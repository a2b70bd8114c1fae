ghost use Rattle.std.specs.Prelude.{◌≡◌, ◌<◌, ℕ, [], length, IfSome};
ghost use Rattle.dch_lines.specs.Shown.{shown};
ghost use Rattle.dch_link.specs.SoftEvents.{Happens};
ghost use Rattle.dch_link.specs.SoftPassing.{IsStage, leg_of};
ghost use Rattle.dch_link.specs.Soft.{SoftState};
ghost use Rattle.dch_link.specs.SoftStages.{AtStage};
ghost use Rattle.dch_link.specs.SoftNodes.{IsSoftOf, MayCome, Represents, event_of};
ghost use Rattle.dch_lines.specs.Led.{lead_of, led};
ghost use Rattle.dch_linkcmd.specs.SoftHandlers.{Shows};

use dch_accept::Accepted;
use dch_lines::{Filter, Page};
use dch_link::soft_stage::Stage;
use dch_link::{Soft, SoftEvent};

/// Something happens at the nodes of a soft handover between two radio frames.
pub fn happen<P: Page>(
    filter: &mut Filter<'_, P>,
    accepted: &Accepted,
    event: SoftEvent<'_>,
    soft: &mut Soft,
)
    requires opened { IsSoftOf accepted.now soft.old }
    requires event { MayCome accepted.now (length soft.old.legs) event }
    requires lead { filter.old.lead.now ≡ [] }
    ensures shows { (first : ℕ) (state : SoftState) → Represents accepted.now first state soft.old →
        Shows P.writes accepted.now first (shown filter.old.quiet) (Happens state (event_of event.entry)) soft.new
        filter.old.page.now filter.new.page.now }
    ensures opened { IsSoftOf accepted.now soft.new }
    ensures legs { length soft.new.legs ≡ length soft.old.legs }
    ensures same { filter.new.page.ghost_name ≡ filter.old.page.ghost_name }
{
    soft.happen(accepted, event, filter);
}

/// The nodes pass a stage of a radio frame, with the words before each line that lead those of its leg.
pub fn pass<P: Page>(filter: &mut Filter<'_, P>, accepted: &Accepted, stage: Stage, soft: &mut Soft)
    requires opened { IsSoftOf accepted.now soft.old }
    requires stage { IsStage (length soft.old.legs) stage }
    requires lead { filter.old.lead.now ≡ lead_of (leg_of stage) }
    ensures shows { (first : ℕ) (state : SoftState) → Represents accepted.now first state soft.old →
        Shows P.writes accepted.now first (λ text. led (leg_of stage) (shown filter.old.quiet text))
        (AtStage stage state)
        soft.new filter.old.page.now filter.new.page.now }
    ensures opened { IsSoftOf accepted.now soft.new }
    ensures legs { length soft.new.legs ≡ length soft.old.legs }
    ensures same { filter.new.page.ghost_name ≡ filter.old.page.ghost_name }
{
    soft.pass(accepted, stage, filter);
}

/// The words that lead the lines of a leg, and none for no leg.
pub fn lead(leg: Option<u8>) -> &'static [u8]
    requires { IfSome leg (λ k. k < 6) }
    ensures { result.now ≡ lead_of leg }
{
    match leg {
        None => b"",
        Some(0) => b"leg 0 ",
        Some(1) => b"leg 1 ",
        Some(2) => b"leg 2 ",
        Some(3) => b"leg 3 ",
        Some(4) => b"leg 4 ",
        Some(5) => b"leg 5 ",
        Some(_) => unreachable!(),
    }
}
