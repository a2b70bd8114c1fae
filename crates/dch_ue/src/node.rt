ghost use Rattle.std.specs.Prelude.{◌≡◌, ◌<◌, ◌≤◌, ◌+◌, ◌%◌, ℕ, List, None, [], length, IfOk};
ghost use Rattle.dch_types.specs.declared.channel.Dir.TheVariants.{Up, Down};
ghost use Rattle.dch_config.specs.Changes.{KeepsBearer};
ghost use Rattle.dch_accept.specs.HeldSets.{held_at};
ghost use Rattle.dch_accept.specs.Plans.{Planned};
ghost use Rattle.dch_accept.specs.Reports.{step_bytes};
ghost use Rattle.dch_tti.specs.RxFrames.{HasTfci};
ghost use Rattle.dch_script.specs.Adding.{AddsLines};
ghost use Rattle.dch_node.specs.Lines.{Line};
ghost use Rattle.dch_node.specs.Standing.{AreNone, Tells, TellsSuch};
ghost use Rattle.dch_txframes.specs.Lending.{radio_of};
ghost use Rattle.dch_steptext.specs.Reports.{HasRoomFor, TellsFew};
ghost use Rattle.dch_ue.specs.Lending.{held_of};
ghost use Rattle.dch_ue.specs.Moves.{AreLimitedLines};
ghost use Rattle.dch_ue.specs.Opened.{CanChange, HasChannel, HasNext, IsNodeOf};
ghost use Rattle.dch_ue.specs.Standing.{ExtendsHistory, IsActiveBefore, IsAt, IsReadyFor, KeepsNext, MayCome, NothingShown, Represents, RepresentsHistory, SendsUp, Stepped, event_of};
ghost use Rattle.dch_ue.specs.State.{BlockedCombination, Change, DownlinkFrame, Event, OfferedUnit, State, Tick};
ghost use Rattle.dch_ue.specs.Values.{radio_shown, taken_shown};

use crate::event::UeEvent;
use crate::next::NextParts;
use crate::receiver::DownlinkReceiver;
use crate::transmitter::UplinkTransmitter;
use dch_accept::{Accepted, FrameView, TtiBlocks};
use dch_bits::{Bit, NoMemory};
use dch_indication::Indications;
use dch_layer2::{Layer2, tell_answer};
use dch_script::Report;
use dch_types::Dir;
use std::alloc::Global;
use std::marker::Model;
use std::mem;

/// A terminal. All its memory is taken at opening.
pub struct Ue {
    cfn: u8,
    layer: Layer2,
    receiver: DownlinkReceiver,
    transmitter: UplinkTransmitter,
    next: Option<NextParts>,
}

// By hand, so that whoever holds one drops it by one call.
impl Drop for Ue {
    fn drop(self) {
        let Ue {
            cfn: _cfn,
            layer: _layer,
            receiver: _receiver,
            transmitter: _transmitter,
            next: _next,
        } = self;
    }
}

impl Model for Ue {
    ghost use Rattle.dch_ue.specs.Values.{Node};

    ghost Value = { Node };

    ghost view = { λ n. record {
      cfn = n.cfn;
      layer = n.layer;
      receiver = n.receiver;
      transmitter = n.transmitter;
      next = n.next;
    } };
}

impl Ue {
    /// Takes all memory for a configuration. The radio frames of the first tick have this CFN, every channel runs its
    /// idle format, no combination is blocked, no unit waits, and no radio frame came.
    pub fn open(alloc: Global, accepted: &Accepted, first_cfn: u8) -> Result<Ue, NoMemory>
        requires { first_cfn % 8 ≡ 0 }
        ensures opened { IfOk result (IsNodeOf accepted.now) }
        ensures stands { IfOk result (RepresentsHistory accepted.now accepted.now first_cfn [] []) }
        ensures alone { IfOk result (λ node. node.next ≡ None) }
    {
        // The TTIs of a good configuration have 1, 2, 4 or 8 radio frames.
        let _side = accepted.side(Dir::Up);
        Ok(Ue {
            cfn: first_cfn,
            layer: Layer2::open(alloc, accepted, Dir::Up, Dir::Down)?,
            receiver: DownlinkReceiver::open(alloc, accepted)?,
            transmitter: UplinkTransmitter::open(alloc, accepted)?,
            next: None,
        })
    }

    /// Takes all memory for a configuration, which is active first, and for a second one that can follow it.
    pub fn open_both(
        alloc: Global,
        first: &Accepted,
        second: &Accepted,
        first_cfn: u8,
    ) -> Result<Ue, NoMemory>
        requires kept { (b : ℕ) → KeepsBearer first.now.config second.now.config b }
        requires eighth { first_cfn % 8 ≡ 0 }
        ensures opened { IfOk result (IsNodeOf first.now) }
        ensures stands { IfOk result (RepresentsHistory first.now first.now first_cfn [] []) }
        ensures next { IfOk result (HasNext first.now second.now) }
    {
        let mut ue = Ue::open(alloc, first, first_cfn)?;
        ue.next = Some(NextParts::open(alloc, second)?);
        Ok(ue)
    }

    /// Takes one event, and tells what it does. The configuration is the active one; in a change it is the second one,
    /// which becomes active.
    pub fn step_with<U: Indications>(
        &mut self,
        accepted: &Accepted,
        event: UeEvent<'_>,
        user: &mut U,
    )
        requires opened { IsReadyFor accepted.now event self.old }
        requires event { MayCome accepted.now event }
        ensures opened { IsNodeOf accepted.now self.new }
        ensures step { (before : Planned) (state : State) → IsActiveBefore accepted.now event.entry before self.old →
            Represents before state self.old →
            Stepped accepted.now state (event_of accepted.now event.entry) self.new (Tells U.shows user.old user.new) }
        ensures history { (began before : Planned) (first : ℕ) (events : List Event) (lines : List Line) →
            IsActiveBefore accepted.now event.entry before self.old →
            RepresentsHistory began before first events lines self.old →
            ExtendsHistory began accepted.now first events lines (event_of accepted.now event.entry) self.new
            (Tells U.shows user.old user.new) }
        ensures next { KeepsNext accepted.now event.entry self.old self.new }
        ensures few { TellsFew U.shows (step_bytes accepted.now.config) user.old user.new }
    {
        // What layer 2 holds stays limited in a good configuration.
        let _config = accepted.config();
        self.happen(accepted, event, user);
    }

    /// Takes one event, and reports what it does. The report has room for what one step may write. The configuration is
    /// the active one; in a change it is the second one, which becomes active.
    pub fn step(&mut self, accepted: &Accepted, event: UeEvent<'_>, report: &mut Report)
        requires opened { IsReadyFor accepted.now event self.old }
        requires event { MayCome accepted.now event }
        requires room { HasRoomFor report.old (step_bytes accepted.now.config) }
        ensures opened { IsNodeOf accepted.now self.new }
        ensures step { (before : Planned) (state : State) → IsActiveBefore accepted.now event.entry before self.old →
            Represents before state self.old →
            Stepped accepted.now state (event_of accepted.now event.entry) self.new
            (AddsLines report.old.text report.new.text) }
        ensures history { (began before : Planned) (first : ℕ) (events : List Event) (lines : List Line) →
            IsActiveBefore accepted.now event.entry before self.old →
            RepresentsHistory began before first events lines self.old →
            ExtendsHistory began accepted.now first events lines (event_of accepted.now event.entry) self.new
            (AddsLines report.old.text report.new.text) }
        ensures next { KeepsNext accepted.now event.entry self.old self.new }
        ensures few { length report.new.text ≤ length report.old.text + step_bytes accepted.now.config }
        ensures most { report.new.most ≡ report.old.most }
    {
        self.step_with(accepted, event, report);
    }

    /// Gives all memory back.
    pub fn close(self) {}

    /// The uplink radio frame that the last step sent, if it sent one.
    pub fn sent(&self) -> Option<FrameView<'_>>
        ensures { radio_of result ≡ radio_shown self.now }
    {
        self.transmitter.view()
    }

    /// The blocks that an uplink channel was given for its running TTI, with their format.
    pub fn given(&self, channel: u8) -> &TtiBlocks
        requires { HasChannel Up self.now channel }
        ensures { result.now ≡ held_at self.now.layer.given channel }
    {
        self.layer.given(channel)
    }

    /// The blocks of a downlink channel that the last step read, if it read that channel.
    pub fn taken(&self, channel: u8) -> Option<&TtiBlocks>
        requires { HasChannel Down self.now channel }
        ensures { held_of result ≡ taken_shown self.now channel }
    {
        self.receiver.taken(channel)
    }

    /// Hides what the last step sent and read, and takes one event.
    fn happen<U: Indications>(&mut self, accepted: &Accepted, event: UeEvent<'_>, user: &mut U)
        requires opened { IsReadyFor accepted.now event self.old }
        requires event { MayCome accepted.now event }
        ensures opened { IsNodeOf accepted.now self.new }
        ensures step { (before : Planned) (state : State) → IsActiveBefore accepted.now event.entry before self.old →
            Represents before state self.old →
            Stepped accepted.now state (event_of accepted.now event.entry) self.new (Tells U.shows user.old user.new) }
        ensures next { KeepsNext accepted.now event.entry self.old self.new }
        ensures limited { TellsSuch U.shows (AreLimitedLines accepted.now.config) user.old user.new }
    {
        self.clear_shown();
        match event {
            UeEvent::Unit {
                bearer,
                octets,
                bits,
            } => self.offer(accepted, bearer, octets, bits, user),
            UeEvent::Block { combination, on } => self.block(accepted, combination, on),
            UeEvent::Phy { frame } => self.receive_radio(accepted, frame),
            UeEvent::Tick => self.tick(accepted, user),
            UeEvent::Change => self.change(accepted),
        }
    }

    /// Nothing is shown as sent or read.
    fn clear_shown(&mut self)
        ensures opened { (planned : Planned) → IsNodeOf planned self.old → IsNodeOf planned self.new }
        ensures quiet { NothingShown self.new }
        ensures stands { (planned : Planned) (state : State) → Represents planned state self.old →
            IsAt planned state self.new }
        ensures next { self.new.next ≡ self.old.next }
        ensures cfn { self.new.cfn ≡ self.old.cfn }
    {
        self.transmitter.clear_sent();
        self.receiver.clear_read();
    }

    /// A second configuration becomes active, for which the terminal holds its parts: they take the place of those for
    /// the first one.
    fn change(&mut self, accepted: &Accepted)
        requires { CanChange accepted.now self.old }
        ensures opened { IsNodeOf accepted.now self.new }
        ensures step { (before : Planned) (state : State) → HasNext before accepted.now self.old →
            IsAt before state self.old →
            Stepped accepted.now state (Change accepted.now) self.new AreNone }
        ensures next { self.new.next ≡ None }
    {
        // The TTIs of a good configuration have 1, 2, 4 or 8 radio frames.
        let _side = accepted.side(Dir::Up);
        if let Some(mut next) = self.next.take() {
            self.layer.change(accepted, &mut next.layer);
            mem::swap(&mut self.transmitter, &mut next.transmitter);
            mem::swap(&mut self.receiver, &mut next.receiver);
        }
    }

    /// A unit is offered to a bearer.
    fn offer<U: Indications>(
        &mut self,
        accepted: &Accepted,
        bearer: u8,
        octets: &[u8],
        bits: &[Bit],
        user: &mut U,
    )
        requires opened { IsNodeOf accepted.now self.old }
        requires quiet { NothingShown self.old }
        requires bearer { SendsUp accepted.now.config bearer }
        ensures opened { IsNodeOf accepted.now self.new }
        ensures next { self.new.next ≡ self.old.next }
        ensures step { (state : State) → IsAt accepted.now state self.old →
            Stepped accepted.now state (OfferedUnit bearer octets.now bits.now) self.new
            (Tells U.shows user.old user.new) }
        ensures limited { TellsSuch U.shows (AreLimitedLines accepted.now.config) user.old user.new }
    {
        let answer = self.layer.offer(bearer, octets, bits);
        tell_answer(user, Dir::Up, bearer, answer);
    }

    /// A combination is blocked, or free again.
    fn block(&mut self, accepted: &Accepted, combination: u16, on: bool)
        requires opened { IsNodeOf accepted.now self.old }
        requires quiet { NothingShown self.old }
        requires combination { combination < length accepted.now.config.uplink.side.combinations }
        ensures opened { IsNodeOf accepted.now self.new }
        ensures next { self.new.next ≡ self.old.next }
        ensures step { (state : State) → IsAt accepted.now state self.old →
            Stepped accepted.now state (BlockedCombination combination on) self.new AreNone }
    {
        self.layer.block(combination, on);
    }

    /// The downlink radio frame of the CFN comes, or is missing.
    fn receive_radio(&mut self, accepted: &Accepted, frame: Option<FrameView<'_>>)
        requires opened { IsNodeOf accepted.now self.old }
        requires quiet { NothingShown self.old }
        requires frame { HasTfci accepted.now Down frame }
        ensures opened { IsNodeOf accepted.now self.new }
        ensures next { self.new.next ≡ self.old.next }
        ensures step { (state : State) → IsAt accepted.now state self.old →
            Stepped accepted.now state (DownlinkFrame (radio_of frame.entry)) self.new AreNone }
    {
        self.receiver.push(accepted, self.cfn, frame);
    }

    /// 10 ms have passed: the timers tick, the downlink radio frame is taken and the channels whose TTI ends are read,
    /// TTIs start, and the uplink radio frame is sent. The CFN goes on.
    fn tick<U: Indications>(&mut self, accepted: &Accepted, user: &mut U)
        requires opened { IsNodeOf accepted.now self.old }
        requires quiet { NothingShown self.old }
        ensures opened { IsNodeOf accepted.now self.new }
        ensures next { self.new.next ≡ self.old.next }
        ensures step { (state : State) → IsAt accepted.now state self.old →
            Stepped accepted.now state Tick self.new (Tells U.shows user.old user.new) }
        ensures limited { TellsSuch U.shows (AreLimitedLines accepted.now.config) user.old user.new }
    {
        // What layer 2 holds stays limited in a good configuration.
        let _config = accepted.config();
        self.layer.tick();
        self.receiver
            .receive(accepted, self.cfn, &mut self.layer, user);
        self.layer.start(accepted, self.cfn);
        self.transmitter
            .transmit(accepted, self.cfn, &self.layer, user);
        self.cfn = self.cfn.wrapping_add(1);
    }
}
