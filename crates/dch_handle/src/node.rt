// What a session wants of its node.
ghost use Rattle.std.specs.Prelude.{◌≡◌, ◌%◌, ℕ, [], IfOk};
ghost use Rattle.dch_config.specs.Changes.{KeepsBearer};
ghost use Rattle.dch_accept.specs.Plans.{Planned};
ghost use Rattle.dch_accept.specs.Reports.{step_bytes};
ghost use Rattle.dch_node.specs.Standing.{Tells};
ghost use Rattle.dch_steptext.specs.Reports.{TellsFew};
ghost use Rattle.dch_handle.specs.NodeRules.{CanChange, Goes, KeepsTime, NodeRules, RepresentsHistory};

use dch_accept::Accepted;
use dch_bits::NoMemory;
use dch_indication::Indications;
use std::alloc::Global;

/// A node that a session can run.
pub trait SessionNode {
    /// The states of the node.
    ghost State: { Type 0 };

    /// What happens at it.
    ghost Event: { Type 0 };

    /// What it does.
    ghost rules: { NodeRules State Event Self };

    /// Takes all memory for a configuration. The first radio frame has this CFN.
    fn open(alloc: Global, accepted: &Accepted, first_cfn: u8) -> Result<Self, NoMemory>
        requires { first_cfn % 8 ≡ 0 }
        ensures opened { IfOk result (rules.is_opened accepted.now) }
        ensures stands { IfOk result (RepresentsHistory rules accepted.now accepted.now first_cfn [] []) };

    /// Takes all memory for a configuration and for a second one, in which every bearer goes on. The first radio frame
    /// has this CFN.
    fn open_both(
        alloc: Global,
        first: &Accepted,
        second: &Accepted,
        first_cfn: u8,
    ) -> Result<Self, NoMemory>
        requires eighth { first_cfn % 8 ≡ 0 }
        requires kept { (b : ℕ) → KeepsBearer first.now.config second.now.config b }
        ensures opened { IfOk result (rules.is_opened first.now) }
        ensures next { IfOk result (rules.has_next first.now second.now) }
        ensures stands { IfOk result (RepresentsHistory rules first.now first.now first_cfn [] []) };

    /// Makes the second configuration active, and tells what the step does.
    fn change<U: Indications>(&mut self, accepted: &Accepted, user: &mut U)
        requires { CanChange rules accepted.now self.old }
        ensures opened { rules.is_opened accepted.now self.new }
        ensures goes { (before : Planned) → rules.has_next before accepted.now self.old →
            Goes rules (rules.change accepted.now) before accepted.now self.old self.new
            (Tells U.shows user.old user.new) }
        ensures few { TellsFew U.shows (step_bytes accepted.now.config) user.old user.new };

    /// Its CFN goes on by the radio frames.
    ghost time: { KeepsTime rules };
}
