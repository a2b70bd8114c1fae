ghost use Rattle.std.specs.Prelude.{◌≡◌, ℕ, []};
ghost use Rattle.dch_accept.specs.Plans.{Planned};
ghost use Rattle.dch_link.specs.Events.{Happens};
ghost use Rattle.dch_link.specs.Link.{LinkState};
ghost use Rattle.dch_link.specs.Passing.{IsStage, cfn_after};
ghost use Rattle.dch_link.specs.Stages.{AtStage};
ghost use Rattle.dch_link.specs.LinkNodes.{HasNext, IsLinkOf, MayCome, Represents, event_of};
ghost use Rattle.dch_linkcmd.specs.Handlers.{Shows};

use dch_accept::Accepted;
use dch_lines::{Filter, Page};
use dch_link::{Link, LinkEvent, Stage};

/// Something happens at the nodes between two radio frames.
pub fn happen<P: Page>(
    filter: &mut Filter<'_, P>,
    accepted: &Accepted,
    event: LinkEvent<'_>,
    link: &mut Link,
)
    requires opened { IsLinkOf accepted.now link.old }
    requires event { MayCome accepted.now event }
    requires lead { filter.old.lead.now ≡ [] }
    ensures shows { (began : Planned) (first : ℕ) (nodes : LinkState) →
        Represents began accepted.now first nodes link.old →
        Shows P.writes began accepted.now first filter.old.quiet (Happens nodes (event_of event.entry)) link.new
        filter.old.page.now filter.new.page.now }
    ensures opened { IsLinkOf accepted.now link.new }
    ensures next { (second : Planned) → HasNext accepted.now second link.old → HasNext accepted.now second link.new }
    ensures cfn { link.new.ue.cfn ≡ link.old.ue.cfn }
    ensures same { filter.new.page.ghost_name ≡ filter.old.page.ghost_name }
{
    link.happen(accepted, event, filter);
}

/// The nodes pass a stage of a radio frame.
pub fn pass<P: Page>(filter: &mut Filter<'_, P>, accepted: &Accepted, stage: Stage, link: &mut Link)
    requires opened { IsLinkOf accepted.now link.old }
    requires stage { IsStage stage }
    requires lead { filter.old.lead.now ≡ [] }
    ensures shows { (began : Planned) (first : ℕ) (nodes : LinkState) →
        Represents began accepted.now first nodes link.old →
        Shows P.writes began accepted.now first filter.old.quiet (AtStage stage nodes) link.new
        filter.old.page.now filter.new.page.now }
    ensures opened { IsLinkOf accepted.now link.new }
    ensures next { (second : Planned) → HasNext accepted.now second link.old → HasNext accepted.now second link.new }
    ensures cfn { link.new.ue.cfn ≡ cfn_after stage link.old.ue.cfn }
    ensures same { filter.new.page.ghost_name ≡ filter.old.page.ghost_name }
{
    link.pass(accepted, stage, filter);
}
