ghost use Rattle.std.specs.Prelude.{◌≡◌, ◌<◌, ◌≤◌, ◌+◌, ◌%◌, ℕ, List, [], None, length, IfOk, true};
ghost use Rattle.dch_types.specs.declared.channel.Dir.TheVariants.{Up};
ghost use Rattle.dch_types.specs.Timing.{has_set};
ghost use Rattle.dch_config.specs.Changes.{KeepsBearer};
ghost use Rattle.dch_accept.specs.Plans.{Planned};
ghost use Rattle.dch_accept.specs.Reports.{step_bytes};
ghost use Rattle.dch_script.specs.Adding.{AddsLines};
ghost use Rattle.dch_tti.specs.RxFrames.{HasTfci};
ghost use Rattle.dch_node.specs.Lines.{Line};
ghost use Rattle.dch_node.specs.Standing.{AreNone, Tells, TellsSuch};
ghost use Rattle.dch_steptext.specs.Limits.{AreLimited};
ghost use Rattle.dch_steptext.specs.Reports.{HasRoomFor, TellsFew};
ghost use Rattle.dch_txframes.specs.Lending.{octets_of, radio_of};
ghost use Rattle.dch_nodeb.specs.Opened.{CanChange, HasNext, IsNodeOf};
ghost use Rattle.dch_nodeb.specs.Standing.{ExtendsHistory, IsActiveBefore, IsReadyFor, KeepsNext, MayCome, NothingSent, Represents, RepresentsHistory, Stepped, event_of};
ghost use Rattle.dch_nodeb.specs.State.{Change, DownlinkDue, Event, IubFrame, State, UplinkFrame};
ghost use Rattle.dch_nodeb.specs.Values.{iub_shown, radio_shown};

use crate::downlink::transmit;
use crate::event::NodeBEvent;
use crate::iub_rx_buffer::keep;
use crate::parts::Parts;
use crate::uplink::receive;
use dch_accept::{Accepted, FrameView};
use dch_bits::NoMemory;
use dch_indication::Indications;
use dch_script::Report;
use dch_txframes::clear_sent;
use dch_types::Dir;
use std::alloc::Global;
use std::marker::Model;

/// A Node B with one cell. All its memory is taken at opening.
pub struct NodeB {
    cfn: u8,
    parts: Parts,
    next: Option<Parts>,
}

// By hand, so that whoever holds one drops it by one call.
impl Drop for NodeB {
    fn drop(self) {
        let NodeB {
            cfn: _cfn,
            parts: _parts,
            next: _next,
        } = self;
    }
}

impl Model for NodeB {
    ghost use Rattle.std.specs.Prelude.{◌≡◌, length, option_map};
    ghost use Rattle.dch_nodeb.specs.Holding.{parts_of};
    ghost use Rattle.dch_nodeb.specs.Values.{Node, node_of};

    ghost Value = { Node };

    ghost view = { λ n. node_of n.cfn (parts_of n.parts) (option_map parts_of n.next) };

    ghost invariant = { λ n. length n.parts.tx_buffers.items ≡ 8 };
}

impl NodeB {
    /// Takes all memory for a configuration. The first radio frame has this CFN, every channel runs its idle format,
    /// and no frame is kept.
    pub fn open(alloc: Global, accepted: &Accepted, first_cfn: u8) -> Result<NodeB, NoMemory>
        requires { first_cfn % 8 ≡ 0 }
        ensures opened { IfOk result (IsNodeOf accepted.now) }
        ensures stands { IfOk result (RepresentsHistory accepted.now accepted.now first_cfn [] []) }
        ensures alone { IfOk result (λ node. node.next ≡ None) }
    {
        Ok(NodeB {
            cfn: first_cfn,
            parts: Parts::open(alloc, accepted)?,
            next: None,
        })
    }

    /// Opens a Node B for a first configuration, and takes all memory for a second one besides, which can follow it.
    pub fn open_both(
        alloc: Global,
        first: &Accepted,
        second: &Accepted,
        first_cfn: u8,
    ) -> Result<NodeB, NoMemory>
        requires eighth { first_cfn % 8 ≡ 0 }
        requires kept { (b : ℕ) → KeepsBearer first.now.config second.now.config b }
        ensures opened { IfOk result (IsNodeOf first.now) }
        ensures stands { IfOk result (RepresentsHistory first.now first.now first_cfn [] []) }
        ensures next { IfOk result (HasNext first.now second.now) }
    {
        Ok(NodeB {
            cfn: first_cfn,
            parts: Parts::open(alloc, first)?,
            next: Some(Parts::open(alloc, second)?),
        })
    }

    /// Takes one event, and tells what it does, in the configuration that is active; for a change that is the second
    /// one.
    pub fn step_with<U: Indications>(
        &mut self,
        accepted: &Accepted,
        event: NodeBEvent<'_>,
        user: &mut U,
    )
        requires opened { IsReadyFor accepted.now event self.old }
        requires event { MayCome accepted.now event }
        ensures opened { IsNodeOf accepted.now self.new }
        ensures step { (before : Planned) (state : State) → IsActiveBefore accepted.now event.entry before self.old →
            Represents before state self.old →
            Stepped accepted.now state (event_of accepted.now event.entry) self.new (Tells U.shows user.old user.new) }
        ensures history { (began before : Planned) (first : ℕ) (events : List Event) (lines : List Line) →
            IsActiveBefore accepted.now event.entry before self.old →
            RepresentsHistory began before first events lines self.old →
            ExtendsHistory began accepted.now first events lines (event_of accepted.now event.entry) self.new
            (Tells U.shows user.old user.new) }
        ensures next { KeepsNext accepted.now event.entry self.old self.new }
        ensures few { TellsFew U.shows 4000000 user.old user.new }
    {
        self.happen(accepted, event, user);
    }

    /// Takes one event, and reports what it does, in the configuration that is active; for a change that is the second
    /// one. The report has room for what one step may write.
    pub fn step(&mut self, accepted: &Accepted, event: NodeBEvent<'_>, report: &mut Report)
        requires opened { IsReadyFor accepted.now event self.old }
        requires event { MayCome accepted.now event }
        requires room { HasRoomFor report.old (step_bytes accepted.now.config) }
        ensures opened { IsNodeOf accepted.now self.new }
        ensures step { (before : Planned) (state : State) → IsActiveBefore accepted.now event.entry before self.old →
            Represents before state self.old →
            Stepped accepted.now state (event_of accepted.now event.entry) self.new
            (AddsLines report.old.text report.new.text) }
        ensures history { (began before : Planned) (first : ℕ) (events : List Event) (lines : List Line) →
            IsActiveBefore accepted.now event.entry before self.old →
            RepresentsHistory began before first events lines self.old →
            ExtendsHistory began accepted.now first events lines (event_of accepted.now event.entry) self.new
            (AddsLines report.old.text report.new.text) }
        ensures next { KeepsNext accepted.now event.entry self.old self.new }
        ensures few { length report.new.text ≤ length report.old.text + 4000000 }
        ensures most { report.new.most ≡ report.old.most }
    {
        self.step_with(accepted, event, report);
    }

    /// Gives all memory back.
    pub fn close(self) {}

    /// The downlink radio frame that the last step sent, if it sent one.
    pub fn sent(&self) -> Option<FrameView<'_>>
        ensures { radio_of result ≡ radio_shown self.now }
    {
        self.parts.transmitter.view()
    }

    /// The uplink Iub frame of a set that the last step sent, if it sent one.
    pub fn iub(&self, set: u8) -> Option<&[u8]>
        requires { set < 8 }
        ensures { octets_of result ≡ iub_shown self.now set }
    {
        self.parts.tx_buffers[set as usize].octets()
    }

    /// Hides what the last step sent, and takes one event.
    fn happen<U: Indications>(&mut self, accepted: &Accepted, event: NodeBEvent<'_>, user: &mut U)
        requires opened { IsReadyFor accepted.now event self.old }
        requires event { MayCome accepted.now event }
        ensures opened { IsNodeOf accepted.now self.new }
        ensures step { (before : Planned) (state : State) → IsActiveBefore accepted.now event.entry before self.old →
            Represents before state self.old →
            Stepped accepted.now state (event_of accepted.now event.entry) self.new (Tells U.shows user.old user.new) }
        ensures next { KeepsNext accepted.now event.entry self.old self.new }
        ensures limited { TellsSuch U.shows (AreLimited 8) user.old user.new }
    {
        self.clear_sent();
        match event {
            NodeBEvent::Iub { set, frame } => self.receive_iub(accepted, set, frame, user),
            NodeBEvent::Down => self.transmit_radio(accepted, user),
            NodeBEvent::Phy { frame } => self.receive_radio(accepted, frame, user),
            NodeBEvent::Change => self.change(accepted),
        }
    }

    /// Nothing is shown as sent.
    fn clear_sent(&mut self)
        ensures quiet { NothingSent self.new }
        ensures opened { (planned : Planned) → IsNodeOf planned self.old → IsNodeOf planned self.new }
        ensures stands { (planned : Planned) (state : State) → Represents planned state self.old →
            Represents planned state self.new }
        ensures next { self.new.next ≡ self.old.next }
    {
        self.parts.transmitter.clear_sent();
        clear_sent(&mut self.parts.tx_buffers);
    }

    /// The second configuration becomes active, with the parts that are held for it; those of the first one are given
    /// back.
    fn change(&mut self, accepted: &Accepted)
        requires { CanChange accepted.now self.old }
        ensures opened { IsNodeOf accepted.now self.new }
        ensures step { (before : Planned) (state : State) → HasNext before accepted.now self.old →
            Represents before state self.old →
            Stepped accepted.now state (Change accepted.now) self.new AreNone }
        ensures next { self.new.next ≡ None }
    {
        if let Some(parts) = self.next.take() {
            self.parts = parts;
        }
    }

    /// An Iub frame arrives for a set.
    fn receive_iub<U: Indications>(
        &mut self,
        accepted: &Accepted,
        set: u8,
        frame: &[u8],
        user: &mut U,
    )
        requires opened { IsNodeOf accepted.now self.old }
        requires quiet { NothingSent self.old }
        requires set { has_set accepted.now.config.downlink.side set ≡ true }
        ensures opened { IsNodeOf accepted.now self.new }
        ensures step { (state : State) → Represents accepted.now state self.old →
            Stepped accepted.now state (IubFrame set frame.now) self.new (Tells U.shows user.old user.new) }
        ensures next { self.new.next ≡ self.old.next }
        ensures limited { TellsSuch U.shows (AreLimited 8) user.old user.new }
    {
        keep(accepted, set, frame, &mut self.parts.rx_buffers, user);
    }

    /// The downlink radio frame is due.
    fn transmit_radio<U: Indications>(&mut self, accepted: &Accepted, user: &mut U)
        requires opened { IsNodeOf accepted.now self.old }
        requires quiet { NothingSent self.old }
        ensures opened { IsNodeOf accepted.now self.new }
        ensures step { (state : State) → Represents accepted.now state self.old →
            Stepped accepted.now state DownlinkDue self.new (Tells U.shows user.old user.new) }
        ensures next { self.new.next ≡ self.old.next }
        ensures limited { TellsSuch U.shows (AreLimited 8) user.old user.new }
    {
        // In a good configuration the channels of a set have TTIs of one length, and a radio frame has at most 57,240
        // cells.
        let _side = accepted.side(Dir::Down);
        let _config = accepted.config();
        transmit(
            accepted,
            self.cfn,
            &mut self.parts.rx_buffers,
            &mut self.parts.transmitter,
            user,
        );
    }

    /// The uplink radio frame came, or is missing. The CFN goes on.
    fn receive_radio<U: Indications>(
        &mut self,
        accepted: &Accepted,
        frame: Option<FrameView<'_>>,
        user: &mut U,
    )
        requires opened { IsNodeOf accepted.now self.old }
        requires quiet { NothingSent self.old }
        requires tfci { HasTfci accepted.now Up frame }
        ensures opened { IsNodeOf accepted.now self.new }
        ensures step { (state : State) → Represents accepted.now state self.old →
            Stepped accepted.now state (UplinkFrame (radio_of frame.entry)) self.new (Tells U.shows user.old user.new) }
        ensures next { self.new.next ≡ self.old.next }
        ensures limited { TellsSuch U.shows (AreLimited 8) user.old user.new }
    {
        // The blocks of a format are limited in a good configuration.
        let _side = accepted.side(Dir::Up);
        receive(
            accepted,
            self.cfn,
            frame,
            &mut self.parts.receiver,
            &mut self.parts.tx_buffers,
            user,
        );
        self.cfn = self.cfn.wrapping_add(1);
    }
}
