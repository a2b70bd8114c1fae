ghost use Rattle.std.specs.Prelude.{◌≡◌, ◌≤◌, ◌%◌, ℕ, [], length, IfOk};
ghost use Rattle.dch_config.specs.Changes.{KeepsBearer};
ghost use Rattle.dch_accept.specs.Plans.{Planned};
ghost use Rattle.dch_node.specs.Standing.{Tells};
ghost use Rattle.dch_node.specs.Values.{Output};
ghost use Rattle.dch_script.specs.Good.{IsGood, IsWithin};
ghost use Rattle.dch_script.specs.ParsedLine.{parsed_of};
ghost use Rattle.dch_lines.specs.declared.line_texts.TheConstants.{CELLS, OCTETS, UNIT_BITS};
ghost use Rattle.dch_nodecmd.specs.NodeRules.{AreLasting, NodeRules};
ghost use Rattle.dch_nodecmd.specs.Handlers.{CanChange, Changes, RepresentsHistory, TakesAs, WasTold, frames_of};

use crate::taken::Taken;
use dch_accept::Accepted;
use dch_bits::{Bit, NoMemory, Trit};
use dch_indication::Indications;
use dch_script::{Command, Event as LineEvent};
use std::alloc::Global;

/// A node whose events are the lines of a command.
pub trait CommandNode {
    /// The states of the node.
    ghost State: { Type 0 };

    /// What happens at it.
    ghost Event: { Type 0 };

    /// What the lines say, and what the node does.
    ghost rules: { NodeRules State Event };

    /// A node was opened for a configuration, or that one is active since a change.
    ghost is_opened: { Planned → Self → Type 0 };

    /// A node of a configuration holds its parts for a second one.
    ghost has_next: { Planned → Planned → Self → Type 0 };

    /// The states that a node stands for where a configuration is active.
    ghost represents: { Planned → State → Self → Type 0 };

    /// A node shows what the last step sent.
    ghost shows: { Output → Self → Type 0 };

    /// The command whose lines they are.
    fn command() -> Command
        ensures { result ≡ rules.command };

    /// Takes all memory for a configuration. The first radio frame has this CFN.
    fn open(alloc: Global, accepted: &Accepted, first_cfn: u8) -> Result<Self, NoMemory>
        requires { first_cfn % 8 ≡ 0 }
        ensures opened { IfOk result (is_opened accepted.now) }
        ensures stands { IfOk result (RepresentsHistory rules represents shows accepted.now accepted.now first_cfn []
            []) };

    /// Takes all memory for a configuration and for a second one, in which every bearer goes on. The first radio frame
    /// has this CFN.
    fn open_both(
        alloc: Global,
        first: &Accepted,
        second: &Accepted,
        first_cfn: u8,
    ) -> Result<Self, NoMemory>
        requires cfn { first_cfn % 8 ≡ 0 }
        requires kept { (b : ℕ) → KeepsBearer first.now.config second.now.config b }
        ensures opened { IfOk result (is_opened first.now) }
        ensures next { IfOk result (has_next first.now second.now) }
        ensures stands { IfOk result (RepresentsHistory rules represents shows first.now first.now first_cfn [] []) };

    /// Takes the event of a line, and tells what the step does. Where the line asks for a change nothing is done yet.
    /// The texts of the line are read into the octets, bits and cells.
    fn take<U: Indications>(
        &mut self,
        accepted: &Accepted,
        event: LineEvent<'_>,
        octets: &mut [u8],
        bits: &mut [Bit],
        cells: &mut [Trit],
        user: &mut U,
    ) -> Taken
        requires opened { is_opened accepted.now self.old }
        requires good { IsGood rules.command accepted.now.config (parsed_of event) }
        requires within { IsWithin (parsed_of event) }
        requires octets { length octets.old ≡ OCTETS }
        requires bits { length bits.old ≡ UNIT_BITS }
        requires cells { length cells.old ≡ CELLS }
        ensures took { TakesAs rules represents shows accepted.now (parsed_of event.entry) self.old self.new
            (Tells U.shows user.old user.new) (user.new ≡ user.old) result }
        ensures told { WasTold U.shows user.old user.new }
        ensures at_most { frames_of result ≤ 1 }
        ensures opened { is_opened accepted.now self.new }
        ensures next { (second : Planned) → has_next accepted.now second self.old →
            has_next accepted.now second self.new };

    /// Makes the second configuration active, and tells what the step does.
    fn change<U: Indications>(&mut self, accepted: &Accepted, user: &mut U)
        requires { CanChange rules is_opened has_next represents accepted.now self.old }
        ensures steps { Changes rules represents has_next shows accepted.now self.old self.new
            (Tells U.shows user.old user.new) }
        ensures told { WasTold U.shows user.old user.new }
        ensures opened { is_opened accepted.now self.new };

    /// The configuration of each state that it stands for is the one that is active.
    ghost active: { (planned : Planned) (state : State) (node : Self) → represents planned state node →
        rules.planned state ≡ planned };

    /// The configuration stays from the opening on over the steps, but for a change; they go on from what is kept.
    ghost lasting: { AreLasting rules };
}
