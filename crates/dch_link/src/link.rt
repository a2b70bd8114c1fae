ghost use Rattle.std.specs.Prelude.{◌≡◌, ◌<◌, ◌≤◌, ◌+◌, ◌%◌, ℕ, [], length, IfOk};
ghost use Rattle.dch_types.specs.declared.channel.Dir.TheVariants.{Down, Up};
ghost use Rattle.dch_config.specs.Changes.{KeepsBearer};
ghost use Rattle.dch_accept.specs.HeldSets.{held_at};
ghost use Rattle.dch_accept.specs.Plans.{Planned};
ghost use Rattle.dch_accept.specs.Reports.{step_bytes};
ghost use Rattle.dch_layer2.specs.Opening.{blocks_in};
ghost use Rattle.dch_node.specs.Standing.{Tells};
ghost use Rattle.dch_steptext.specs.Reports.{TellsFew};
ghost use Rattle.dch_damage.specs.Damage.{radio_after};
ghost use Rattle.dch_ue.specs.State.{DownlinkFrame};
ghost use Rattle.dch_ue.specs.Values.{taken_shown as ue_taken};
ghost use Rattle.dch_rnc.specs.Values.{taken_shown as rnc_taken};
ghost use Rattle.dch_link.specs.Comparing.{ComparesAll, good_of};
ghost use Rattle.dch_link.specs.Events.{Happens};
ghost use Rattle.dch_link.specs.Link.{LinkState, opened_link};
ghost use Rattle.dch_link.specs.Passing.{IsStage, cfn_after};
ghost use Rattle.dch_link.specs.Stages.{AtStage, UeGoes};
ghost use Rattle.dch_link.specs.LinkNodes.{AreNodesOf, CanChange, ChangesTo, HasNext, HaveHistories, IsLinkOf, LeadsTo, MayCome, Represents, event_of};
ghost use Rattle.dch_link.specs.Values.{Nodes};

use crate::check::compare;
use crate::event::LinkEvent;
use crate::stage::Stage;
use dch_accept::Accepted;
use dch_bits::NoMemory;
use dch_damage::Damage;
use dch_indication::Indications;
use dch_nodeb::{NodeB, NodeBEvent};
use dch_rnc::{Rnc, RncEvent};
use dch_types::Dir;
use dch_ue::{Ue, UeEvent};
use std::alloc::Global;
use std::marker::Model;

/// The most bytes of the lines that compare the blocks of all channels of a direction.
pub const CHECKS: usize = 2400;

/// A terminal, a Node B and a network controller that hand their frames on to each other, and the damage that waits for
/// the next radio frame. All memory is taken at opening.
pub struct Link {
    ue: Ue,
    node_b: NodeB,
    rnc: Rnc,
    damage: Damage,
}

// By hand, so that whoever holds one drops it by one call.
impl Drop for Link {
    fn drop(self) {
        let Link {
            ue: _ue,
            node_b: _node_b,
            rnc: _rnc,
            damage: _damage,
        } = self;
    }
}

impl Model for Link {
    ghost use Rattle.dch_link.specs.Values.{Nodes};

    ghost Value = { Nodes };

    ghost view = { λ l. record { ue = l.ue; node_b = l.node_b; rnc = l.rnc; damage = l.damage } };
}

impl Link {
    /// Opens the three nodes for a configuration. The first radio frame has this CFN, and no damage waits.
    pub fn open(alloc: Global, accepted: &Accepted, first_cfn: u8) -> Result<Link, NoMemory>
        requires { first_cfn % 8 ≡ 0 }
        ensures opened { IfOk result (IsLinkOf accepted.now) }
        ensures stands { IfOk result (Represents accepted.now accepted.now first_cfn
            (opened_link accepted.now first_cfn)) }
    {
        Ok(Link {
            ue: Ue::open(alloc, accepted, first_cfn)?,
            node_b: NodeB::open(alloc, accepted, first_cfn)?,
            rnc: Rnc::open(alloc, accepted, first_cfn)?,
            damage: Damage::open(alloc, accepted)?,
        })
    }

    /// Opens the three nodes for a first configuration, and takes all memory for a second one besides, which can follow
    /// it. The first radio frame has this CFN, and no damage waits.
    pub fn open_both(
        alloc: Global,
        first: &Accepted,
        second: &Accepted,
        first_cfn: u8,
    ) -> Result<Link, NoMemory>
        requires eighth { first_cfn % 8 ≡ 0 }
        requires kept { (b : ℕ) → KeepsBearer first.now.config second.now.config b }
        ensures opened { IfOk result (IsLinkOf first.now) }
        ensures stands { IfOk result (Represents first.now first.now first_cfn (opened_link first.now first_cfn)) }
        ensures next { IfOk result (HasNext first.now second.now) }
    {
        Ok(Link {
            ue: Ue::open_both(alloc, first, second, first_cfn)?,
            node_b: NodeB::open_both(alloc, first, second, first_cfn)?,
            rnc: Rnc::open_both(alloc, first, second, first_cfn)?,
            damage: Damage::open_both(alloc, first, second)?,
        })
    }

    /// The nodes, after the work.
    pub fn into_nodes(self) -> (Ue, NodeB, Rnc)
        ensures nodes { (result.0 ≡ self.ue) × (result.1 ≡ self.node_b) × (result.2 ≡ self.rnc) }
        ensures histories { (began planned : Planned) (first : ℕ) (link : LinkState) →
            Represents began planned first link self →
            HaveHistories began planned first link result.0 result.1 result.2 }
    {
        let Link {
            ue,
            node_b,
            rnc,
            damage: _damage,
        } = self;
        (ue, node_b, rnc)
    }

    /// Takes what a script does between two radio frames, and tells what the node says that takes it.
    pub fn happen<U: Indications>(
        &mut self,
        accepted: &Accepted,
        event: LinkEvent<'_>,
        user: &mut U,
    )
        requires opened { IsLinkOf accepted.now self.old }
        requires event { MayCome accepted.now event }
        ensures opened { IsLinkOf accepted.now self.new }
        ensures happens { (began : Planned) (first : ℕ) (link : LinkState) →
            Represents began accepted.now first link self.old →
            LeadsTo began accepted.now first (Happens link (event_of event.entry)) self.new
            (Tells U.shows user.old user.new) }
        ensures next { (second : Planned) → HasNext accepted.now second self.old →
            HasNext accepted.now second self.new }
        ensures few { TellsFew U.shows (step_bytes accepted.now.config) user.old user.new }
        ensures cfn { self.new.ue.cfn ≡ self.old.ue.cfn }
    {
        self.take_event(accepted, event, user);
    }

    /// Passes a stage of a radio frame, and tells what the nodes say, and where blocks that were taken aren't those
    /// that were given.
    pub fn pass<U: Indications>(&mut self, accepted: &Accepted, stage: Stage, user: &mut U)
        requires opened { IsLinkOf accepted.now self.old }
        requires stage { IsStage stage }
        ensures opened { IsLinkOf accepted.now self.new }
        ensures passes { (began : Planned) (first : ℕ) (link : LinkState) →
            Represents began accepted.now first link self.old →
            LeadsTo began accepted.now first (AtStage stage link) self.new (Tells U.shows user.old user.new) }
        ensures next { (second : Planned) → HasNext accepted.now second self.old →
            HasNext accepted.now second self.new }
        ensures few { TellsFew U.shows (step_bytes accepted.now.config + 2400) user.old user.new }
        ensures cfn { self.new.ue.cfn ≡ cfn_after stage self.old.ue.cfn }
    {
        self.run_stage(accepted, stage, user);
    }

    /// A radio frame is over: no damage waits any more.
    pub fn end_frame(&mut self, accepted: &Accepted)
        requires { IsLinkOf accepted.now self.old }
        ensures opened { IsLinkOf accepted.now self.new }
        ensures clear { (began : Planned) (first : ℕ) (link : LinkState) →
            Represents began accepted.now first link self.old →
            Represents began accepted.now first (record link { damage = [] }) self.new }
        ensures next { (second : Planned) → HasNext accepted.now second self.old →
            HasNext accepted.now second self.new }
        ensures cfn { self.new.ue.cfn ≡ self.old.ue.cfn }
    {
        self.damage.clear();
    }

    /// A second configuration becomes active at the network controller, the Node B and the terminal, after the last
    /// radio frame of all TTIs. Nothing is told of it, and the damage that waits stays for the next radio frame.
    pub fn change<U: Indications>(&mut self, accepted: &Accepted, user: &mut U)
        requires opened { CanChange accepted.now self.old }
        ensures opened { IsLinkOf accepted.now self.new }
        ensures changes { (began before : Planned) (first : ℕ) (link : LinkState) →
            Represents began before first link self.old → HasNext before accepted.now self.old →
            ChangesTo began accepted.now first link self.new }
        ensures same { user.new ≡ user.old }
        ensures cfn { self.new.ue.cfn ≡ self.old.ue.cfn }
    {
        self.change_nodes(accepted, user);
    }

    /// The second configuration becomes active at each node.
    fn change_nodes<U: Indications>(&mut self, accepted: &Accepted, user: &mut U)
        requires opened { CanChange accepted.now self.old }
        ensures opened { AreNodesOf accepted.now self.new }
        ensures changes { (began before : Planned) (first : ℕ) (link : LinkState) →
            Represents began before first link self.old → HasNext before accepted.now self.old →
            ChangesTo began accepted.now first link self.new }
        ensures same { user.new ≡ user.old }
    {
        self.rnc.step_with(accepted, RncEvent::Change, user);
        self.node_b.step_with(accepted, NodeBEvent::Change, user);
        self.ue.step_with(accepted, UeEvent::Change, user);
    }

    /// Takes an event at the node where it happens, or as damage that waits.
    fn take_event<U: Indications>(
        &mut self,
        accepted: &Accepted,
        event: LinkEvent<'_>,
        user: &mut U,
    )
        requires opened { IsLinkOf accepted.now self.old }
        requires event { MayCome accepted.now event }
        ensures opened { AreNodesOf accepted.now self.new }
        ensures happens { (began : Planned) (first : ℕ) (link : LinkState) →
            Represents began accepted.now first link self.old →
            LeadsTo began accepted.now first (Happens link (event_of event.entry)) self.new
            (Tells U.shows user.old user.new) }
        ensures next { (second : Planned) → HasNext accepted.now second self.old →
            HasNext accepted.now second self.new }
        ensures few { TellsFew U.shows (step_bytes accepted.now.config) user.old user.new }
    {
        match event {
            LinkEvent::Unit {
                dir,
                bearer,
                octets,
                bits,
            } => match dir {
                Dir::Up => self.ue.step_with(
                    accepted,
                    UeEvent::Unit {
                        bearer,
                        octets,
                        bits,
                    },
                    user,
                ),
                Dir::Down => self.rnc.step_with(
                    accepted,
                    RncEvent::Unit {
                        bearer,
                        octets,
                        bits,
                    },
                    user,
                ),
            },
            LinkEvent::Block {
                dir,
                combination,
                on,
            } => match dir {
                Dir::Up => self
                    .ue
                    .step_with(accepted, UeEvent::Block { combination, on }, user),
                Dir::Down => self
                    .rnc
                    .step_with(accepted, RncEvent::Block { combination, on }, user),
            },
            LinkEvent::Flip { dir, tfci, place } => self.damage.flip(dir, tfci, place),
            LinkEvent::Lose { dir } => self.damage.lose(dir),
            LinkEvent::LoseIub { dir, set } => {
                // There are eight sets at most.
                let _side = accepted.side(dir);
                self.damage.lose_iub(dir, set);
            }
            LinkEvent::Spoil {
                dir,
                set,
                octet,
                mask,
            } => {
                // There are eight sets at most.
                let _side = accepted.side(dir);
                self.damage.spoil(dir, set, octet, mask);
            }
        }
    }

    /// Does what a stage says, at the nodes where it is done.
    fn run_stage<U: Indications>(&mut self, accepted: &Accepted, stage: Stage, user: &mut U)
        requires opened { IsLinkOf accepted.now self.old }
        requires stage { IsStage stage }
        ensures opened { AreNodesOf accepted.now self.new }
        ensures passes { (began : Planned) (first : ℕ) (link : LinkState) →
            Represents began accepted.now first link self.old →
            LeadsTo began accepted.now first (AtStage stage link) self.new (Tells U.shows user.old user.new) }
        ensures next { (second : Planned) → HasNext accepted.now second self.old →
            HasNext accepted.now second self.new }
        ensures few { TellsFew U.shows (step_bytes accepted.now.config + 2400) user.old user.new }
    {
        match stage {
            Stage::RncTick => self.rnc.step_with(accepted, RncEvent::Tick, user),
            Stage::IubDown(set) => self.iub_down(accepted, set, user),
            Stage::RadioDown => self.node_b.step_with(accepted, NodeBEvent::Down, user),
            Stage::UeTick => self.tick_ue(accepted, user),
            Stage::RadioUp => self.radio_up(accepted, user),
            Stage::IubUp(set) => self.iub_up(accepted, set, user),
        }
    }

    /// The downlink Iub frame of a set arrives at the Node B, if one was sent and isn't lost.
    fn iub_down<U: Indications>(&mut self, accepted: &Accepted, set: u8, user: &mut U)
        requires opened { IsLinkOf accepted.now self.old }
        requires set { set < 8 }
        ensures opened { AreNodesOf accepted.now self.new }
        ensures passes { (began : Planned) (first : ℕ) (link : LinkState) →
            Represents began accepted.now first link self.old →
            LeadsTo began accepted.now first (AtStage (Stage.IubDown set) link) self.new
            (Tells U.shows user.old user.new) }
        ensures next { (second : Planned) → HasNext accepted.now second self.old →
            HasNext accepted.now second self.new }
        ensures few { TellsFew U.shows (step_bytes accepted.now.config) user.old user.new }
    {
        let sent = self.rnc.iub(set);
        self.damage.hit_iub(Dir::Down, set, sent);
        if let Some(frame) = self.damage.iub(sent) {
            self.node_b
                .step_with(accepted, NodeBEvent::Iub { set, frame }, user);
        }
    }

    /// The downlink radio frame arrives at the terminal, if one was sent and isn't lost, and 10 ms pass there.
    fn tick_ue<U: Indications>(&mut self, accepted: &Accepted, user: &mut U)
        requires opened { IsLinkOf accepted.now self.old }
        ensures opened { AreNodesOf accepted.now self.new }
        ensures passes { (began : Planned) (first : ℕ) (link : LinkState) →
            Represents began accepted.now first link self.old →
            LeadsTo began accepted.now first (AtStage Stage.UeTick link) self.new (Tells U.shows user.old user.new) }
        ensures next { (second : Planned) → HasNext accepted.now second self.old →
            HasNext accepted.now second self.new }
        ensures few { TellsFew U.shows (step_bytes accepted.now.config + 2400) user.old user.new }
    {
        self.radio_down(accepted, user);
        self.ue.step_with(accepted, UeEvent::Tick, user);
        self.compare_down(accepted, user);
    }

    /// The downlink radio frame arrives at the terminal, if one was sent and isn't lost. Nothing is told of it.
    fn radio_down<U: Indications>(&mut self, accepted: &Accepted, user: &mut U)
        requires opened { IsLinkOf accepted.now self.old }
        ensures opened { AreNodesOf accepted.now self.new }
        ensures comes { (began : Planned) (first : ℕ) (link : LinkState) →
            Represents began accepted.now first link self.old → (mid : LinkState) ×
            (UeGoes link (DownlinkFrame (radio_after link.damage Down link.node_b.last.sent)) mid ×
            Represents began accepted.now first mid self.new) }
        ensures next { (second : Planned) → HasNext accepted.now second self.old →
            HasNext accepted.now second self.new }
        ensures same { user.new ≡ user.old }
    {
        let sent = self.node_b.sent();
        self.damage.hit_radio(Dir::Down, sent);
        let frame = self.damage.radio(sent);
        self.ue.step_with(accepted, UeEvent::Phy { frame }, user);
    }

    /// The uplink radio frame arrives at the Node B, if one was sent and isn't lost.
    fn radio_up<U: Indications>(&mut self, accepted: &Accepted, user: &mut U)
        requires opened { IsLinkOf accepted.now self.old }
        ensures opened { AreNodesOf accepted.now self.new }
        ensures passes { (began : Planned) (first : ℕ) (link : LinkState) →
            Represents began accepted.now first link self.old →
            LeadsTo began accepted.now first (AtStage Stage.RadioUp link) self.new (Tells U.shows user.old user.new) }
        ensures next { (second : Planned) → HasNext accepted.now second self.old →
            HasNext accepted.now second self.new }
        ensures few { TellsFew U.shows (step_bytes accepted.now.config) user.old user.new }
    {
        let sent = self.ue.sent();
        self.damage.hit_radio(Dir::Up, sent);
        let frame = self.damage.radio(sent);
        self.node_b
            .step_with(accepted, NodeBEvent::Phy { frame }, user);
    }

    /// The uplink Iub frame of a set arrives at the network controller, if one was sent and isn't lost.
    fn iub_up<U: Indications>(&mut self, accepted: &Accepted, set: u8, user: &mut U)
        requires opened { IsLinkOf accepted.now self.old }
        requires set { set < 8 }
        ensures opened { AreNodesOf accepted.now self.new }
        ensures passes { (began : Planned) (first : ℕ) (link : LinkState) →
            Represents began accepted.now first link self.old →
            LeadsTo began accepted.now first (AtStage (Stage.IubUp set) link) self.new
            (Tells U.shows user.old user.new) }
        ensures next { (second : Planned) → HasNext accepted.now second self.old →
            HasNext accepted.now second self.new }
        ensures few { TellsFew U.shows (step_bytes accepted.now.config + 2400) user.old user.new }
    {
        let sent = self.node_b.iub(set);
        self.damage.hit_iub(Dir::Up, set, sent);
        if let Some(frame) = self.damage.iub(sent) {
            self.rnc
                .step_with(accepted, RncEvent::Iub { set, frame }, user);
            self.compare_up(accepted, user);
        }
    }

    /// Tells the downlink channels whose blocks, as the terminal took them, aren't some of those that the network
    /// controller gave.
    fn compare_down<U: Indications>(&self, accepted: &Accepted, user: &mut U)
        requires opened { AreNodesOf accepted.now self.now }
        ensures compared { ComparesAll Down (λ i. good_of (ue_taken self.now.ue i))
            (λ i. blocks_in (held_at self.now.rnc.layer.given i)) (length accepted.now.config.downlink.side.channels)
            (Tells U.shows user.old user.new) }
        ensures few { TellsFew U.shows 2401 user.old user.new }
    {
        let channels = accepted.side(Dir::Down).channels.len() as u8;
        'channels: for channel in 0..channels {
            let taken = self.ue.taken(channel);
            compare(user, Dir::Down, channel, taken, self.rnc.given(channel));
        }
    }

    /// Tells the uplink channels whose blocks, as the network controller took them, aren't some of those that the
    /// terminal gave.
    fn compare_up<U: Indications>(&self, accepted: &Accepted, user: &mut U)
        requires opened { AreNodesOf accepted.now self.now }
        ensures compared { ComparesAll Up (λ i. good_of (rnc_taken self.now.rnc i))
            (λ i. blocks_in (held_at self.now.ue.layer.given i)) (length accepted.now.config.uplink.side.channels)
            (Tells U.shows user.old user.new) }
        ensures few { TellsFew U.shows 2401 user.old user.new }
    {
        let channels = accepted.side(Dir::Up).channels.len() as u8;
        'channels: for channel in 0..channels {
            let taken = self.rnc.taken(channel);
            compare(user, Dir::Up, channel, taken, self.ue.given(channel));
        }
    }
}
