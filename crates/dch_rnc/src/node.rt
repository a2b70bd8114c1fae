ghost use Rattle.std.specs.Prelude.{◌≡◌, ◌<◌, ◌≤◌, ◌+◌, ◌%◌, ℕ, List, [], None, length, IfOk, true};
ghost use Rattle.dch_types.specs.declared.channel.Dir.TheVariants.{Up, Down};
ghost use Rattle.dch_types.specs.Timing.{has_set};
ghost use Rattle.dch_config.specs.Changes.{KeepsBearer};
ghost use Rattle.dch_accept.specs.HeldSets.{held_at};
ghost use Rattle.dch_accept.specs.Plans.{Planned};
ghost use Rattle.dch_accept.specs.Reports.{step_bytes};
ghost use Rattle.dch_node.specs.Lines.{Line};
ghost use Rattle.dch_node.specs.Standing.{AreNone, Tells};
ghost use Rattle.dch_rnc.specs.Lending.{held_of};
ghost use Rattle.dch_rnc.specs.Opened.{CanChange, HasChannel, HasNext, IsNodeOf};
ghost use Rattle.dch_rnc.specs.Standing.{ExtendsHistory, IsActiveBefore, IsAt, IsReadyFor, KeepsNext, MayCome, NothingShown, Represents, RepresentsHistory, SendsDown, Stepped, event_of};
ghost use Rattle.dch_rnc.specs.State.{BlockedCombination, Change, Event, IubFrame, OfferedUnit, State, Tick};
ghost use Rattle.dch_rnc.specs.Values.{iub_shown, taken_shown};
ghost use Rattle.dch_script.specs.Adding.{AddsLines};
ghost use Rattle.dch_txframes.specs.Lending.{octets_of};
ghost use Rattle.dch_steptext.specs.Reports.{HasRoomFor, TellsFew};

use crate::downlink::send_sets;
use crate::event::RncEvent;
use crate::parts::{Next, Parts};
use crate::uplink::receive;
use dch_accept::{Accepted, TtiBlocks};
use dch_bits::{Bit, NoMemory};
use dch_indication::Indications;
use dch_layer2::{Layer2, tell_answer};
use dch_script::Report;
use dch_txframes::clear_sent;
use dch_types::Dir;
use std::alloc::Global;
use std::marker::Model;
use std::mem;

/// A network controller with one terminal. All its memory is taken at opening.
pub struct Rnc {
    cfn: u8,
    layer: Layer2,
    read: Option<u8>,
    parts: Parts,
    next: Option<Next>,
}

// By hand, so that whoever holds one drops it by one call.
impl Drop for Rnc {
    fn drop(self) {
        let Rnc {
            cfn: _cfn,
            layer: _layer,
            read: _read,
            parts: _parts,
            next: _next,
        } = self;
    }
}

impl Model for Rnc {
    ghost use Rattle.std.specs.Prelude.{◌≡◌, length, option_map};
    ghost use Rattle.dch_rnc.specs.Holding.{next_of, parts_of};
    ghost use Rattle.dch_rnc.specs.Values.{Node, node_of};

    ghost Value = { Node };

    ghost view = { λ n. node_of n.cfn n.layer n.read (parts_of n.parts) (option_map next_of n.next) };

    ghost invariant = { λ n. length n.parts.tx_buffers.items ≡ 8 };
}

impl Rnc {
    /// Takes all memory for a configuration. The TTIs that start with the first tick have this CFN, every channel runs
    /// its idle format, no combination is blocked, and no unit waits.
    pub fn open(alloc: Global, accepted: &Accepted, first_cfn: u8) -> Result<Rnc, NoMemory>
        requires { first_cfn % 8 ≡ 0 }
        ensures opened { IfOk result (IsNodeOf accepted.now) }
        ensures stands { IfOk result (RepresentsHistory accepted.now accepted.now first_cfn [] []) }
        ensures alone { IfOk result (λ node. node.next ≡ None) }
    {
        Ok(Rnc {
            cfn: first_cfn,
            layer: Layer2::open(alloc, accepted, Dir::Down, Dir::Up)?,
            read: None,
            parts: Parts::open(alloc, accepted)?,
            next: None,
        })
    }

    /// Opens a network controller for a first configuration, and takes all memory for a second one besides, which can
    /// follow it.
    pub fn open_both(
        alloc: Global,
        first: &Accepted,
        second: &Accepted,
        first_cfn: u8,
    ) -> Result<Rnc, NoMemory>
        requires eighth { first_cfn % 8 ≡ 0 }
        requires kept { (b : ℕ) → KeepsBearer first.now.config second.now.config b }
        ensures opened { IfOk result (IsNodeOf first.now) }
        ensures stands { IfOk result (RepresentsHistory first.now first.now first_cfn [] []) }
        ensures next { IfOk result (HasNext first.now second.now) }
    {
        Ok(Rnc {
            cfn: first_cfn,
            layer: Layer2::open(alloc, first, Dir::Down, Dir::Up)?,
            read: None,
            parts: Parts::open(alloc, first)?,
            next: Some(Next::open(alloc, second)?),
        })
    }

    /// Takes one event, and tells what it does, in the configuration that is active; for a change that is the second
    /// one.
    pub fn step_with<U: Indications>(
        &mut self,
        accepted: &Accepted,
        event: RncEvent<'_>,
        user: &mut U,
    )
        requires opened { IsReadyFor accepted.now event self.old }
        requires event { MayCome accepted.now event }
        ensures opened { IsNodeOf accepted.now self.new }
        ensures step { (before : Planned) (state : State) → IsActiveBefore accepted.now event.entry before self.old →
            Represents before state self.old →
            Stepped accepted.now state (event_of accepted.now event.entry) self.new (Tells U.shows user.old user.new) }
        ensures history { (began before : Planned) (first : ℕ) (events : List Event) (lines : List Line) →
            IsActiveBefore accepted.now event.entry before self.old →
            RepresentsHistory began before first events lines self.old →
            ExtendsHistory began accepted.now first events lines (event_of accepted.now event.entry) self.new
            (Tells U.shows user.old user.new) }
        ensures next { KeepsNext accepted.now event.entry self.old self.new }
        ensures few { TellsFew U.shows (step_bytes accepted.now.config) user.old user.new }
    {
        // What is told of an event is limited in a good configuration.
        let _config = accepted.config();
        self.happen(accepted, event, user);
    }

    /// Takes one event, and reports what it does, in the configuration that is active; for a change that is the second
    /// one. The report has room for what one step may write.
    pub fn step(&mut self, accepted: &Accepted, event: RncEvent<'_>, report: &mut Report)
        requires opened { IsReadyFor accepted.now event self.old }
        requires event { MayCome accepted.now event }
        requires room { HasRoomFor report.old (step_bytes accepted.now.config) }
        ensures opened { IsNodeOf accepted.now self.new }
        ensures step { (before : Planned) (state : State) → IsActiveBefore accepted.now event.entry before self.old →
            Represents before state self.old →
            Stepped accepted.now state (event_of accepted.now event.entry) self.new
            (AddsLines report.old.text report.new.text) }
        ensures history { (began before : Planned) (first : ℕ) (events : List Event) (lines : List Line) →
            IsActiveBefore accepted.now event.entry before self.old →
            RepresentsHistory began before first events lines self.old →
            ExtendsHistory began accepted.now first events lines (event_of accepted.now event.entry) self.new
            (AddsLines report.old.text report.new.text) }
        ensures next { KeepsNext accepted.now event.entry self.old self.new }
        ensures few { length report.new.text ≤ length report.old.text + step_bytes accepted.now.config }
        ensures most { report.new.most ≡ report.old.most }
    {
        self.step_with(accepted, event, report);
    }

    /// Gives all memory back.
    pub fn close(self) {}

    /// The downlink Iub frame of a set that the last step sent, if it sent one.
    pub fn iub(&self, set: u8) -> Option<&[u8]>
        requires { set < 8 }
        ensures { octets_of result ≡ iub_shown self.now set }
    {
        self.parts.tx_buffers[set as usize].octets()
    }

    /// The blocks that a downlink channel was given for its running TTI, with their format.
    pub fn given(&self, channel: u8) -> &TtiBlocks
        requires { HasChannel Down self.now channel }
        ensures { result.now ≡ held_at self.now.layer.given channel }
    {
        self.layer.given(channel)
    }

    /// The blocks of an uplink channel that the last step read, if it read that channel.
    pub fn taken(&self, channel: u8) -> Option<&TtiBlocks>
        requires { HasChannel Up self.now channel }
        ensures { held_of result ≡ taken_shown self.now channel }
    {
        let set = self.read?;
        if self.parts.channel_sets[channel as usize] == set {
            Some(self.parts.rx_sets[set as usize].channel(channel))
        } else {
            None
        }
    }

    /// Hides what the last step sent and read, and takes one event.
    fn happen<U: Indications>(&mut self, accepted: &Accepted, event: RncEvent<'_>, user: &mut U)
        requires opened { IsReadyFor accepted.now event self.old }
        requires event { MayCome accepted.now event }
        ensures opened { IsNodeOf accepted.now self.new }
        ensures step { (before : Planned) (state : State) → IsActiveBefore accepted.now event.entry before self.old →
            Represents before state self.old →
            Stepped accepted.now state (event_of accepted.now event.entry) self.new (Tells U.shows user.old user.new) }
        ensures next { KeepsNext accepted.now event.entry self.old self.new }
    {
        self.clear_shown();
        match event {
            RncEvent::Unit {
                bearer,
                octets,
                bits,
            } => self.offer(accepted, bearer, octets, bits, user),
            RncEvent::Block { combination, on } => self.block(accepted, combination, on),
            RncEvent::Iub { set, frame } => self.receive_iub(accepted, set, frame, user),
            RncEvent::Tick => self.tick(accepted, user),
            RncEvent::Change => self.change(accepted),
        }
    }

    /// Nothing is shown as sent or read.
    fn clear_shown(&mut self)
        ensures opened { (planned : Planned) → IsNodeOf planned self.old → IsNodeOf planned self.new }
        ensures quiet { NothingShown self.new }
        ensures stands { (planned : Planned) (state : State) → Represents planned state self.old →
            IsAt planned state self.new }
        ensures next { self.new.next ≡ self.old.next }
    {
        self.read = None;
        clear_sent(&mut self.parts.tx_buffers);
    }

    /// The second configuration becomes active, with what is held for it; what only the first one needs is given back.
    fn change(&mut self, accepted: &Accepted)
        requires opened { CanChange accepted.now self.old }
        requires quiet { NothingShown self.old }
        ensures opened { IsNodeOf accepted.now self.new }
        ensures step { (before : Planned) (state : State) → HasNext before accepted.now self.old →
            IsAt before state self.old →
            Stepped accepted.now state (Change accepted.now) self.new AreNone }
        ensures next { self.new.next ≡ None }
    {
        if let Some(mut next) = self.next.take() {
            self.layer.change(accepted, &mut next.layer);
            mem::swap(&mut self.parts, &mut next.parts);
        }
    }

    /// A unit is offered to a bearer.
    fn offer<U: Indications>(
        &mut self,
        accepted: &Accepted,
        bearer: u8,
        octets: &[u8],
        bits: &[Bit],
        user: &mut U,
    )
        requires opened { IsNodeOf accepted.now self.old }
        requires quiet { NothingShown self.old }
        requires bearer { SendsDown accepted.now.config bearer }
        ensures opened { IsNodeOf accepted.now self.new }
        ensures step { (state : State) → IsAt accepted.now state self.old →
            Stepped accepted.now state (OfferedUnit bearer octets.now bits.now) self.new
            (Tells U.shows user.old user.new) }
        ensures next { self.new.next ≡ self.old.next }
    {
        let answer = self.layer.offer(bearer, octets, bits);
        tell_answer(user, Dir::Down, bearer, answer);
    }

    /// A combination is blocked, or free again.
    fn block(&mut self, accepted: &Accepted, combination: u16, on: bool)
        requires opened { IsNodeOf accepted.now self.old }
        requires quiet { NothingShown self.old }
        requires combination { combination < length accepted.now.config.downlink.side.combinations }
        ensures opened { IsNodeOf accepted.now self.new }
        ensures step { (state : State) → IsAt accepted.now state self.old →
            Stepped accepted.now state (BlockedCombination combination on) self.new AreNone }
        ensures next { self.new.next ≡ self.old.next }
    {
        self.layer.block(combination, on);
    }

    /// An Iub frame arrives for a set.
    fn receive_iub<U: Indications>(
        &mut self,
        accepted: &Accepted,
        set: u8,
        frame: &[u8],
        user: &mut U,
    )
        requires opened { IsNodeOf accepted.now self.old }
        requires quiet { NothingShown self.old }
        requires set { has_set accepted.now.config.uplink.side set ≡ true }
        ensures opened { IsNodeOf accepted.now self.new }
        ensures step { (state : State) → IsAt accepted.now state self.old →
            Stepped accepted.now state (IubFrame set frame.now) self.new (Tells U.shows user.old user.new) }
        ensures next { self.new.next ≡ self.old.next }
    {
        // What is reported of an Iub frame is limited in a good configuration.
        let _config = accepted.config();
        if receive(
            accepted,
            set,
            frame,
            &mut self.parts.rx_sets,
            &mut self.layer,
            user,
        ) {
            self.read = Some(set);
        }
    }

    /// 10 ms have passed: the timers tick, TTIs start, and the Iub frames of the sets that start are sent. The CFN goes
    /// on.
    fn tick<U: Indications>(&mut self, accepted: &Accepted, user: &mut U)
        requires opened { IsNodeOf accepted.now self.old }
        requires quiet { NothingShown self.old }
        ensures opened { IsNodeOf accepted.now self.new }
        ensures step { (state : State) → IsAt accepted.now state self.old →
            Stepped accepted.now state Tick self.new (Tells U.shows user.old user.new) }
        ensures next { self.new.next ≡ self.old.next }
    {
        self.layer.tick();
        self.layer.start(accepted, self.cfn);
        send_sets(
            accepted,
            self.cfn,
            &self.layer,
            &mut self.parts.tx_buffers,
            user,
        );
        self.cfn = self.cfn.wrapping_add(1);
    }
}
