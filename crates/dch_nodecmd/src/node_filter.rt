ghost use Rattle.std.specs.Prelude.{◌≡◌, ◌≤◌, []};
ghost use Rattle.dch_accept.specs.Plans.{Planned};
ghost use Rattle.dch_script.specs.Good.{IsGood, IsWithin};
ghost use Rattle.dch_script.specs.ParsedLine.{parsed_of};
ghost use Rattle.dch_nodecmd.specs.Handlers.{CanChange, Changes, ShowsLines, TakesAs, frames_of};

use crate::node::CommandNode;
use crate::rooms::Rooms;
use crate::taken::Taken;
use dch_accept::Accepted;
use dch_lines::{Filter, Page};
use dch_script::Event;

/// A node takes the event of a line.
pub fn take<P: Page, N: CommandNode>(
    filter: &mut Filter<'_, P>,
    accepted: &Accepted,
    event: Event<'_>,
    rooms: &mut Rooms,
    node: &mut N,
) -> Taken
    requires opened { N.is_opened accepted.now node.old }
    requires good { IsGood N.rules.command accepted.now.config (parsed_of event) }
    requires within { IsWithin (parsed_of event) }
    requires lead { filter.old.lead.now ≡ [] }
    ensures took { TakesAs N.rules N.represents N.shows accepted.now (parsed_of event.entry) node.old node.new
        (ShowsLines P.writes filter.old.quiet filter.old.page.now filter.new.page.now)
        (filter.new.page.now ≡ filter.old.page.now) result }
    ensures at_most { frames_of result ≤ 1 }
    ensures opened { N.is_opened accepted.now node.new }
    ensures next { (second : Planned) → N.has_next accepted.now second node.old →
        N.has_next accepted.now second node.new }
    ensures page { filter.new.page.ghost_name ≡ filter.old.page.ghost_name }
{
    node.take(
        accepted,
        event,
        &mut rooms.octets,
        &mut rooms.bits,
        &mut rooms.cells,
        filter,
    )
}

/// A node makes its second configuration active.
pub fn change<P: Page, N: CommandNode>(
    filter: &mut Filter<'_, P>,
    accepted: &Accepted,
    node: &mut N,
)
    requires opened { CanChange N.rules N.is_opened N.has_next N.represents accepted.now node.old }
    requires lead { filter.old.lead.now ≡ [] }
    ensures steps { Changes N.rules N.represents N.has_next N.shows accepted.now node.old node.new
        (ShowsLines P.writes filter.old.quiet filter.old.page.now filter.new.page.now) }
    ensures opened { N.is_opened accepted.now node.new }
    ensures page { filter.new.page.ghost_name ≡ filter.old.page.ghost_name }
{
    node.change(accepted, filter);
}
