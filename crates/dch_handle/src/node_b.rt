// The Node B behind a handle: its steps, and its events with their conditions tested.
ghost use Rattle.std.specs.Prelude.{◌≡◌, None, Some};
ghost use Rattle.dch_types.specs.declared.channel.Dir.TheVariants.{Down, Up};
ghost use Rattle.dch_nodeb.specs.Opened.{HasNext, IsNodeOf};
ghost use Rattle.dch_nodeb.specs.Standing.{IsActiveBefore, IsReadyFor, KeepsNext, MayCome, event_of};
ghost use Rattle.dch_nodeb.specs.State.{DownlinkDue, IubFrame, UplinkFrame};
ghost use Rattle.dch_handle.specs.NodeRules.{Goes, IsPlain};
ghost use Rattle.dch_handle.specs.NodeBRules.{node_b_passes, node_b_rules, node_b_time};
ghost use Rattle.dch_handle.specs.Runs.{AreAwaited, Takes, if_idle, iub_status, phy_status, radio_read};
ghost use Rattle.dch_handle.specs.Statuses.{IsRefused, done};
ghost use Rattle.dch_handle.specs.Telling.{HasRoomFor, IsToldAnew};
ghost use Rattle.dch_accept.specs.Plans.{Planned};
ghost use Rattle.dch_accept.specs.Reports.{step_bytes};

use crate::node::SessionNode;
use crate::node_run::NodeRun;
use crate::queue::Queue;
use crate::run::frames_after;
use crate::session::{Session, read_frame, test_idle, test_iub};
use crate::status::DONE;
use dch_accept::{Accepted, FrameView};
use dch_bits::NoMemory;
use dch_indication::Indications;
use dch_nodeb::{NodeB, NodeBEvent};
use dch_types::Dir;
use std::alloc::Global;

/// The session of a Node B.
pub type NodeBSession = Session<NodeB>;

impl SessionNode for NodeB {
    ghost use Rattle.dch_nodeb.specs.State.{Event, State};

    ghost State = { State };

    ghost Event = { Event };

    ghost rules = { node_b_rules };

    fn open(alloc: Global, accepted: &Accepted, first_cfn: u8) -> Result<NodeB, NoMemory> {
        NodeB::open(alloc, accepted, first_cfn)
    }

    fn open_both(
        alloc: Global,
        first: &Accepted,
        second: &Accepted,
        first_cfn: u8,
    ) -> Result<NodeB, NoMemory> {
        NodeB::open_both(alloc, first, second, first_cfn)
    }

    fn change<U: Indications>(&mut self, accepted: &Accepted, user: &mut U) {
        self.step_with(accepted, NodeBEvent::Change, user);
    }

    ghost time = { node_b_time };
}

impl NodeRun<NodeB> {
    /// Takes an event that is no change.
    pub fn happen(&mut self, event: NodeBEvent<'_>)
        requires plain { IsPlain (IsNodeOf self.old.planned) (IsReadyFor self.old.planned event)
            (IsActiveBefore self.old.planned event self.old.planned) (KeepsNext self.old.planned event)
            (HasNext self.old.planned) }
        requires event { MayCome self.old.planned event }
        ensures { Takes node_b_rules (event_of self.old.planned event.entry) self.old self.new }
    {
        step(&self.accepted, event, &mut self.node, &mut self.queue);
        self.frames = frames_after(passes(event), self.frames);
    }
}

/// Takes an event, of which just what it tells waits then.
fn step(accepted: &Accepted, event: NodeBEvent<'_>, node: &mut NodeB, queue: &mut Queue)
    requires opened { IsNodeOf accepted.now node.old }
    requires plain { IsPlain (IsNodeOf accepted.now) (IsReadyFor accepted.now event)
        (IsActiveBefore accepted.now event accepted.now) (KeepsNext accepted.now event) (HasNext accepted.now) }
    requires event { MayCome accepted.now event }
    requires room { HasRoomFor (step_bytes accepted.now.config) queue.old }
    ensures opened { IsNodeOf accepted.now node.new }
    ensures next { (second : Planned) → HasNext accepted.now second node.old → HasNext accepted.now second node.new }
    ensures goes { Goes node_b_rules (event_of accepted.now event.entry) accepted.now accepted.now node.old node.new
        (AreAwaited queue.new) }
    ensures told { IsToldAnew queue.old queue.new }
{
    queue.clear();
    node.step_with(accepted, event, queue);
}

/// Whether a radio frame passes with an event.
fn passes(event: NodeBEvent<'_>) -> bool
    ensures { (planned : Planned) → result ≡ node_b_passes (event_of planned event.entry) }
{
    matches!(event, NodeBEvent::Phy { .. })
}

impl Session<NodeB> {
    /// A downlink Iub frame of a set comes.
    pub fn iub(&mut self, set: u8, frame: &[u8]) -> u8
        ensures status { result ≡ iub_status self.old.planned self.old.waiting Down set }
        ensures done { result ≡ done → Takes node_b_rules (IubFrame set frame.now) self.old self.new }
        ensures same { IsRefused result → self.new ≡ self.old }
    {
        if let Err(status) = test_iub(&self.run, Dir::Down, set) {
            return status;
        }
        self.run.happen(NodeBEvent::Iub { set, frame });
        DONE
    }

    /// The downlink radio frame of the CFN is due.
    pub fn down(&mut self) -> u8
        ensures status { result ≡ if_idle self.old.waiting done }
        ensures done { result ≡ done → Takes node_b_rules DownlinkDue self.old self.new }
        ensures same { IsRefused result → self.new ≡ self.old }
    {
        if let Err(status) = test_idle(&self.run) {
            return status;
        }
        self.run.happen(NodeBEvent::Down);
        DONE
    }

    /// The uplink radio frame of the CFN comes.
    pub fn phy(&mut self, tfci: &[u8], cells: &[u8]) -> u8
        ensures status { result ≡ phy_status self.old.planned self.old.waiting Up tfci.now cells.now }
        ensures done { result ≡ done →
            Takes node_b_rules (UplinkFrame (Some (radio_read tfci.now cells.now))) self.old self.new }
        ensures same { IsRefused result → self.new ≡ self.old }
    {
        let bits = self.bits.slice_mut(..);
        let trits = self.cells.slice_mut(..);
        if let Err(status) = read_frame(&self.run, Dir::Up, tfci, cells, bits, trits) {
            return status;
        }
        let frame = FrameView {
            tfci: &self.bits[..tfci.len()],
            cells: &self.cells[..cells.len()],
        };
        self.run.happen(NodeBEvent::Phy { frame: Some(frame) });
        DONE
    }

    /// The uplink radio frame of the CFN is missing.
    pub fn miss(&mut self) -> u8
        ensures status { result ≡ if_idle self.old.waiting done }
        ensures done { result ≡ done → Takes node_b_rules (UplinkFrame None) self.old self.new }
        ensures same { IsRefused result → self.new ≡ self.old }
    {
        if let Err(status) = test_idle(&self.run) {
            return status;
        }
        self.run.happen(NodeBEvent::Phy { frame: None });
        DONE
    }
}
