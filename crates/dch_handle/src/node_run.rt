// A node behind a handle, whatever its kind.
ghost use Rattle.std.specs.Prelude.{◌≡◌, ◌%◌, ◌≤◌, ◌<◌, ℕ, length, slice_get, Some, None, [], true, IfOk, IfSome};
ghost use Rattle.dch_accept.specs.Plans.{Planned};
ghost use Rattle.dch_accept.specs.Reports.{step_bytes};
ghost use Rattle.dch_config.specs.Changes.{KeepsBearer};
ghost use Rattle.dch_handle.specs.NodeRules.{CanChange, Goes, RepresentsHistory};
ghost use Rattle.dch_handle.specs.Runs.{AreAwaited, CanFollow, Changes, IsOpened, StartsTtis, is_due, is_idle};
ghost use Rattle.dch_handle.specs.Statuses.{IsRefused, done, nothing, short};
ghost use Rattle.dch_handle.specs.Telling.{HasRoomFor, IsPulled, IsToldAnew};
ghost use Rattle.dch_handle.specs.declared.told.Told.{Told as TheTold};

use crate::node::SessionNode;
use crate::queue::Queue;
use crate::run::{is_due, open_queue};
use crate::told::Told;
use dch_accept::Accepted;
use dch_bits::NoMemory;
use dch_check::{Configurations, Second};
use std::alloc::Global;
use std::marker::Model;

/// A node, the configuration that is active in it, a second one that is still to come, the radio frames since opening,
/// and what it told.
#[derive(Drop)]
pub struct NodeRun<N: SessionNode> {
    pub(crate) accepted: Accepted,
    pub(crate) later: Option<Second>,
    pub(crate) frames: u32,
    pub(crate) node: N,
    pub(crate) queue: Queue,
}

impl<N: SessionNode> Model for NodeRun<N> {
    ghost use Rattle.dch_handle.specs.Runs.{IsRun, Run};

    ghost Value = { Run N };

    ghost view = { λ r. record {
      planned = r.accepted;
      later = r.later;
      frames = r.frames;
      node = r.node;
      waiting = r.queue;
    } };

    ghost invariant = { λ r. IsRun N.rules (record {
      planned = r.accepted;
      later = r.later;
      frames = r.frames;
      node = r.node;
      waiting = r.queue;
    }) };
}

impl<N: SessionNode + Drop> NodeRun<N> {
    /// Opens a node at a CFN, for one configuration or two.
    pub fn open(
        alloc: Global,
        configurations: Configurations,
        first_cfn: u8,
    ) -> Result<NodeRun<N>, NoMemory>
        requires eighth { first_cfn % 8 ≡ 0 }
        requires follows { CanFollow configurations }
        requires whole { IfSome configurations.second StartsTtis }
        ensures { IfOk result (IsOpened N.rules configurations first_cfn) }
    {
        let queue = open_queue(alloc, &configurations)?;
        let Configurations { first, second } = configurations;
        let node = open_node(alloc, &first, &second, first_cfn)?;
        Ok(NodeRun {
            accepted: first,
            later: second,
            frames: 0,
            node,
            queue,
        })
    }
}

impl<N: SessionNode> NodeRun<N> {
    /// The configuration that is active.
    pub fn accepted(&self) -> &Accepted
        ensures { result.now ≡ self.now.planned }
    {
        &self.accepted
    }

    /// Whether all that was told was pulled.
    pub fn is_idle(&self) -> bool
        ensures { result ≡ is_idle self.now.waiting }
    {
        self.queue.is_empty()
    }

    /// Whether the second configuration is to become active now.
    pub fn is_due(&self) -> bool
        ensures { result ≡ is_due self.now.later self.now.frames }
    {
        is_due(&self.later, self.frames)
    }

    /// Makes the second configuration active.
    pub fn change(&mut self)
        requires { is_due self.old.later self.old.frames ≡ true }
        ensures { Changes N.rules self.old self.new }
    {
        if let Some(second) = self.later.take() {
            self.accepted = second.accepted;
            change(&self.accepted, &mut self.node, &mut self.queue);
        }
    }

    /// Pulls the next value, and copies its octets to the front of `out`.
    pub fn next(&mut self, told: &mut Told, out: &mut [u8]) -> u8
        ensures nothing { is_idle self.old.waiting ≡ true → (result ≡ nothing) × (told.new ≡ told.old) }
        ensures short { (first : TheTold) → slice_get self.old.waiting.told 0 ≡ Some first →
            length out.old < first.length → (result ≡ short) × (told.new ≡ first) }
        ensures done { (first : TheTold) → slice_get self.old.waiting.told 0 ≡ Some first →
            first.length ≤ length out.old →
            (result ≡ done) × IsPulled self.old.waiting self.new.waiting told.new out.old out.new }
        ensures others { self.new ≡ record self.old { waiting = self.new.waiting } }
        ensures same { IsRefused result → (self.new ≡ self.old) × (out.new ≡ out.old) }
    {
        self.queue.pull(told, out)
    }
}

/// Opens a node for one configuration or two.
fn open_node<N: SessionNode>(
    alloc: Global,
    first: &Accepted,
    second: &Option<Second>,
    first_cfn: u8,
) -> Result<N, NoMemory>
    requires eighth { first_cfn % 8 ≡ 0 }
    requires follows { IfSome second.now (λ second. (b : ℕ) → KeepsBearer first.now.config second.accepted.config b) }
    ensures opened { IfOk result (N.rules.is_opened first.now) }
    ensures next { IfOk result (λ node. IfSome second.now (λ second. N.rules.has_next first.now second.accepted node)) }
    ensures stands { IfOk result (RepresentsHistory N.rules first.now first.now first_cfn [] []) }
{
    match second {
        Some(second) => N::open_both(alloc, first, &second.accepted, first_cfn),
        None => N::open(alloc, first, first_cfn),
    }
}

/// Makes a second configuration active, of which just what that tells waits then.
fn change<N: SessionNode>(accepted: &Accepted, node: &mut N, queue: &mut Queue)
    requires ready { CanChange N.rules accepted.now node.old }
    requires room { HasRoomFor (step_bytes accepted.now.config) queue.old }
    ensures opened { N.rules.is_opened accepted.now node.new }
    ensures goes { (before : Planned) → N.rules.has_next before accepted.now node.old →
        Goes N.rules (N.rules.change accepted.now) before accepted.now node.old node.new (AreAwaited queue.new) }
    ensures told { IsToldAnew queue.old queue.new }
{
    queue.clear();
    node.change(accepted, queue);
}
