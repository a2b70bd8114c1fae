// The terminal behind a handle: its steps, and its events with their conditions tested.
ghost use Rattle.std.specs.Prelude.{◌≡◌, [], None, Some};
ghost use Rattle.dch_types.specs.declared.channel.Dir.TheVariants.{Down, Up};
ghost use Rattle.dch_ue.specs.Opened.{HasNext, IsNodeOf};
ghost use Rattle.dch_ue.specs.Standing.{IsActiveBefore, IsReadyFor, KeepsNext, MayCome, event_of};
ghost use Rattle.dch_ue.specs.State.{BlockedCombination, DownlinkFrame, OfferedUnit, Tick};
ghost use Rattle.dch_handle.specs.Letters.{bits_of};
ghost use Rattle.dch_handle.specs.NodeRules.{Goes, IsPlain};
ghost use Rattle.dch_handle.specs.UeRules.{ue_passes, ue_rules, ue_time};
ghost use Rattle.dch_handle.specs.Runs.{AreAwaited, Takes, block_status, if_idle, is_on, phy_status, radio_read, unit_bits_status, unit_status};
ghost use Rattle.dch_handle.specs.Statuses.{IsRefused, done};
ghost use Rattle.dch_handle.specs.Telling.{HasRoomFor, IsToldAnew};
ghost use Rattle.dch_accept.specs.Plans.{Planned};
ghost use Rattle.dch_accept.specs.Reports.{step_bytes};

use crate::node::SessionNode;
use crate::node_run::NodeRun;
use crate::queue::Queue;
use crate::run::frames_after;
use crate::session::{Session, read_frame, read_unit, test_block, test_idle, test_unit};
use crate::status::DONE;
use dch_accept::{Accepted, FrameView};
use dch_bits::NoMemory;
use dch_indication::Indications;
use dch_types::Dir;
use dch_ue::{Ue, UeEvent};
use std::alloc::Global;

/// The session of a terminal.
pub type UeSession = Session<Ue>;

impl SessionNode for Ue {
    ghost use Rattle.dch_ue.specs.State.{Event, State};

    ghost State = { State };

    ghost Event = { Event };

    ghost rules = { ue_rules };

    fn open(alloc: Global, accepted: &Accepted, first_cfn: u8) -> Result<Ue, NoMemory> {
        Ue::open(alloc, accepted, first_cfn)
    }

    fn open_both(
        alloc: Global,
        first: &Accepted,
        second: &Accepted,
        first_cfn: u8,
    ) -> Result<Ue, NoMemory> {
        Ue::open_both(alloc, first, second, first_cfn)
    }

    fn change<U: Indications>(&mut self, accepted: &Accepted, user: &mut U) {
        self.step_with(accepted, UeEvent::Change, user);
    }

    ghost time = { ue_time };
}

impl NodeRun<Ue> {
    /// Takes an event that is no change.
    pub fn happen(&mut self, event: UeEvent<'_>)
        requires plain { IsPlain (IsNodeOf self.old.planned) (IsReadyFor self.old.planned event)
            (IsActiveBefore self.old.planned event self.old.planned) (KeepsNext self.old.planned event)
            (HasNext self.old.planned) }
        requires event { MayCome self.old.planned event }
        ensures { Takes ue_rules (event_of self.old.planned event.entry) self.old self.new }
    {
        step(&self.accepted, event, &mut self.node, &mut self.queue);
        self.frames = frames_after(passes(event), self.frames);
    }
}

/// Takes an event, of which just what it tells waits then.
fn step(accepted: &Accepted, event: UeEvent<'_>, node: &mut Ue, queue: &mut Queue)
    requires opened { IsNodeOf accepted.now node.old }
    requires plain { IsPlain (IsNodeOf accepted.now) (IsReadyFor accepted.now event)
        (IsActiveBefore accepted.now event accepted.now) (KeepsNext accepted.now event) (HasNext accepted.now) }
    requires event { MayCome accepted.now event }
    requires room { HasRoomFor (step_bytes accepted.now.config) queue.old }
    ensures opened { IsNodeOf accepted.now node.new }
    ensures next { (second : Planned) → HasNext accepted.now second node.old → HasNext accepted.now second node.new }
    ensures goes { Goes ue_rules (event_of accepted.now event.entry) accepted.now accepted.now node.old node.new
        (AreAwaited queue.new) }
    ensures told { IsToldAnew queue.old queue.new }
{
    queue.clear();
    node.step_with(accepted, event, queue);
}

/// Whether a radio frame passes with an event.
fn passes(event: UeEvent<'_>) -> bool
    ensures { (planned : Planned) → result ≡ ue_passes (event_of planned event.entry) }
{
    matches!(event, UeEvent::Tick)
}

impl Session<Ue> {
    /// A unit of octets is offered to a bearer.
    pub fn unit(&mut self, bearer: u8, octets: &[u8]) -> u8
        ensures status { result ≡ unit_status self.old.planned self.old.waiting Up bearer }
        ensures done { result ≡ done → Takes ue_rules (OfferedUnit bearer octets.now []) self.old self.new }
        ensures same { IsRefused result → self.new ≡ self.old }
    {
        if let Err(status) = test_unit(&self.run, Dir::Up, bearer) {
            return status;
        }
        self.run.happen(UeEvent::Unit {
            bearer,
            octets,
            bits: &[],
        });
        DONE
    }

    /// A unit of bits is offered to a bearer.
    pub fn unit_bits(&mut self, bearer: u8, letters: &[u8]) -> u8
        ensures status { result ≡ unit_bits_status self.old.planned self.old.waiting Up bearer letters.now }
        ensures done { result ≡ done → Takes ue_rules (OfferedUnit bearer [] (bits_of letters.now)) self.old self.new }
        ensures same { IsRefused result → self.new ≡ self.old }
    {
        let bits = self.bits.slice_mut(..);
        if let Err(status) = read_unit(&self.run, Dir::Up, bearer, letters, bits) {
            return status;
        }
        self.run.happen(UeEvent::Unit {
            bearer,
            octets: &[],
            bits: &self.bits[..letters.len()],
        });
        DONE
    }

    /// An uplink combination is blocked (1), or free again (0).
    pub fn block(&mut self, combination: u16, on: u8) -> u8
        ensures status { result ≡ block_status self.old.planned self.old.waiting Up combination on }
        ensures done { result ≡ done → Takes ue_rules (BlockedCombination combination (is_on on)) self.old self.new }
        ensures same { IsRefused result → self.new ≡ self.old }
    {
        if let Err(status) = test_block(&self.run, Dir::Up, combination, on) {
            return status;
        }
        self.run.happen(UeEvent::Block {
            combination,
            on: on == 1,
        });
        DONE
    }

    /// The downlink radio frame of the CFN comes.
    pub fn phy(&mut self, tfci: &[u8], cells: &[u8]) -> u8
        ensures status { result ≡ phy_status self.old.planned self.old.waiting Down tfci.now cells.now }
        ensures done { result ≡ done →
            Takes ue_rules (DownlinkFrame (Some (radio_read tfci.now cells.now))) self.old self.new }
        ensures same { IsRefused result → self.new ≡ self.old }
    {
        let bits = self.bits.slice_mut(..);
        let trits = self.cells.slice_mut(..);
        if let Err(status) = read_frame(&self.run, Dir::Down, tfci, cells, bits, trits) {
            return status;
        }
        let frame = FrameView {
            tfci: &self.bits[..tfci.len()],
            cells: &self.cells[..cells.len()],
        };
        self.run.happen(UeEvent::Phy { frame: Some(frame) });
        DONE
    }

    /// The downlink radio frame of the CFN is missing.
    pub fn miss(&mut self) -> u8
        ensures status { result ≡ if_idle self.old.waiting done }
        ensures done { result ≡ done → Takes ue_rules (DownlinkFrame None) self.old self.new }
        ensures same { IsRefused result → self.new ≡ self.old }
    {
        if let Err(status) = test_idle(&self.run) {
            return status;
        }
        self.run.happen(UeEvent::Phy { frame: None });
        DONE
    }

    /// 10 ms have passed.
    pub fn tick(&mut self) -> u8
        ensures status { result ≡ if_idle self.old.waiting done }
        ensures done { result ≡ done → Takes ue_rules Tick self.old self.new }
        ensures same { IsRefused result → self.new ≡ self.old }
    {
        if let Err(status) = test_idle(&self.run) {
            return status;
        }
        self.run.happen(UeEvent::Tick);
        DONE
    }
}
