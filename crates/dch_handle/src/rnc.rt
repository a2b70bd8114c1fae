// The network controller behind a handle: its steps, and its events with their conditions tested.
ghost use Rattle.std.specs.Prelude.{◌≡◌, []};
ghost use Rattle.dch_types.specs.declared.channel.Dir.TheVariants.{Down, Up};
ghost use Rattle.dch_rnc.specs.Opened.{HasNext, IsNodeOf};
ghost use Rattle.dch_rnc.specs.Standing.{IsActiveBefore, IsReadyFor, KeepsNext, MayCome, event_of};
ghost use Rattle.dch_rnc.specs.State.{BlockedCombination, IubFrame, OfferedUnit, Tick};
ghost use Rattle.dch_handle.specs.Letters.{bits_of};
ghost use Rattle.dch_handle.specs.NodeRules.{Goes, IsPlain};
ghost use Rattle.dch_handle.specs.RncRules.{rnc_passes, rnc_rules, rnc_time};
ghost use Rattle.dch_handle.specs.Runs.{AreAwaited, Takes, block_status, if_idle, is_on, iub_status, unit_bits_status, unit_status};
ghost use Rattle.dch_handle.specs.Statuses.{IsRefused, done};
ghost use Rattle.dch_handle.specs.Telling.{HasRoomFor, IsToldAnew};
ghost use Rattle.dch_accept.specs.Plans.{Planned};
ghost use Rattle.dch_accept.specs.Reports.{step_bytes};

use crate::node::SessionNode;
use crate::node_run::NodeRun;
use crate::queue::Queue;
use crate::run::frames_after;
use crate::session::{Session, read_unit, test_block, test_idle, test_iub, test_unit};
use crate::status::DONE;
use dch_accept::Accepted;
use dch_bits::NoMemory;
use dch_indication::Indications;
use dch_rnc::{Rnc, RncEvent};
use dch_types::Dir;
use std::alloc::Global;

/// The session of a network controller.
pub type RncSession = Session<Rnc>;

impl SessionNode for Rnc {
    ghost use Rattle.dch_rnc.specs.State.{Event, State};

    ghost State = { State };

    ghost Event = { Event };

    ghost rules = { rnc_rules };

    fn open(alloc: Global, accepted: &Accepted, first_cfn: u8) -> Result<Rnc, NoMemory> {
        Rnc::open(alloc, accepted, first_cfn)
    }

    fn open_both(
        alloc: Global,
        first: &Accepted,
        second: &Accepted,
        first_cfn: u8,
    ) -> Result<Rnc, NoMemory> {
        Rnc::open_both(alloc, first, second, first_cfn)
    }

    fn change<U: Indications>(&mut self, accepted: &Accepted, user: &mut U) {
        self.step_with(accepted, RncEvent::Change, user);
    }

    ghost time = { rnc_time };
}

impl NodeRun<Rnc> {
    /// Takes an event that is no change.
    pub fn happen(&mut self, event: RncEvent<'_>)
        requires plain { IsPlain (IsNodeOf self.old.planned) (IsReadyFor self.old.planned event)
            (IsActiveBefore self.old.planned event self.old.planned) (KeepsNext self.old.planned event)
            (HasNext self.old.planned) }
        requires event { MayCome self.old.planned event }
        ensures { Takes rnc_rules (event_of self.old.planned event.entry) self.old self.new }
    {
        step(&self.accepted, event, &mut self.node, &mut self.queue);
        self.frames = frames_after(passes(event), self.frames);
    }
}

/// Takes an event, of which just what it tells waits then.
fn step(accepted: &Accepted, event: RncEvent<'_>, node: &mut Rnc, queue: &mut Queue)
    requires opened { IsNodeOf accepted.now node.old }
    requires plain { IsPlain (IsNodeOf accepted.now) (IsReadyFor accepted.now event)
        (IsActiveBefore accepted.now event accepted.now) (KeepsNext accepted.now event) (HasNext accepted.now) }
    requires event { MayCome accepted.now event }
    requires room { HasRoomFor (step_bytes accepted.now.config) queue.old }
    ensures opened { IsNodeOf accepted.now node.new }
    ensures next { (second : Planned) → HasNext accepted.now second node.old → HasNext accepted.now second node.new }
    ensures goes { Goes rnc_rules (event_of accepted.now event.entry) accepted.now accepted.now node.old node.new
        (AreAwaited queue.new) }
    ensures told { IsToldAnew queue.old queue.new }
{
    queue.clear();
    node.step_with(accepted, event, queue);
}

/// Whether a radio frame passes with an event.
fn passes(event: RncEvent<'_>) -> bool
    ensures { (planned : Planned) → result ≡ rnc_passes (event_of planned event.entry) }
{
    matches!(event, RncEvent::Tick)
}

impl Session<Rnc> {
    /// A unit of octets is offered to a bearer.
    pub fn unit(&mut self, bearer: u8, octets: &[u8]) -> u8
        ensures status { result ≡ unit_status self.old.planned self.old.waiting Down bearer }
        ensures done { result ≡ done → Takes rnc_rules (OfferedUnit bearer octets.now []) self.old self.new }
        ensures same { IsRefused result → self.new ≡ self.old }
    {
        if let Err(status) = test_unit(&self.run, Dir::Down, bearer) {
            return status;
        }
        self.run.happen(RncEvent::Unit {
            bearer,
            octets,
            bits: &[],
        });
        DONE
    }

    /// A unit of bits is offered to a bearer.
    pub fn unit_bits(&mut self, bearer: u8, letters: &[u8]) -> u8
        ensures status { result ≡ unit_bits_status self.old.planned self.old.waiting Down bearer letters.now }
        ensures done { result ≡ done → Takes rnc_rules (OfferedUnit bearer [] (bits_of letters.now)) self.old self.new }
        ensures same { IsRefused result → self.new ≡ self.old }
    {
        let bits = self.bits.slice_mut(..);
        if let Err(status) = read_unit(&self.run, Dir::Down, bearer, letters, bits) {
            return status;
        }
        self.run.happen(RncEvent::Unit {
            bearer,
            octets: &[],
            bits: &self.bits[..letters.len()],
        });
        DONE
    }

    /// A downlink combination is blocked (1), or free again (0).
    pub fn block(&mut self, combination: u16, on: u8) -> u8
        ensures status { result ≡ block_status self.old.planned self.old.waiting Down combination on }
        ensures done { result ≡ done → Takes rnc_rules (BlockedCombination combination (is_on on)) self.old self.new }
        ensures same { IsRefused result → self.new ≡ self.old }
    {
        if let Err(status) = test_block(&self.run, Dir::Down, combination, on) {
            return status;
        }
        self.run.happen(RncEvent::Block {
            combination,
            on: on == 1,
        });
        DONE
    }

    /// An uplink Iub frame of a set comes.
    pub fn iub(&mut self, set: u8, frame: &[u8]) -> u8
        ensures status { result ≡ iub_status self.old.planned self.old.waiting Up set }
        ensures done { result ≡ done → Takes rnc_rules (IubFrame set frame.now) self.old self.new }
        ensures same { IsRefused result → self.new ≡ self.old }
    {
        if let Err(status) = test_iub(&self.run, Dir::Up, set) {
            return status;
        }
        self.run.happen(RncEvent::Iub { set, frame });
        DONE
    }

    /// 10 ms have passed.
    pub fn tick(&mut self) -> u8
        ensures status { result ≡ if_idle self.old.waiting done }
        ensures done { result ≡ done → Takes rnc_rules Tick self.old self.new }
        ensures same { IsRefused result → self.new ≡ self.old }
    {
        if let Err(status) = test_idle(&self.run) {
            return status;
        }
        self.run.happen(RncEvent::Tick);
        DONE
    }
}
