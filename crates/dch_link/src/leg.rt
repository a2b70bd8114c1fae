ghost use Rattle.std.specs.Prelude.{◌≡◌, ◌<◌, ◌≤◌, ◌+◌, ◌%◌, ℕ, Option, List, length, IfOk};
ghost use Rattle.dch_types.specs.declared.channel.Dir.TheVariants.{Down, Up};
ghost use Rattle.dch_accept.specs.Plans.{Planned};
ghost use Rattle.dch_damage.specs.Opened.{HasIubRoom, HasRadioRoom};
ghost use Rattle.dch_nodeb.specs.Values.{iub_shown, radio_shown};
ghost use Rattle.dch_txframes.specs.Lending.{octets_of, radio_of};
ghost use Rattle.dch_node.specs.Standing.{Tells};
ghost use Rattle.dch_steptext.specs.Reports.{TellsFew};
ghost use Rattle.dch_link.specs.Fitting.{MayFitIub, MayFitRadio};
ghost use Rattle.dch_link.specs.SoftEvents.{damaged};
ghost use Rattle.dch_link.specs.Hearing.{iub_heard, radio_heard};
ghost use Rattle.dch_link.specs.Legs.{LegState, ReceivesIub, ReceivesRadio, Transmits, iub_from, opened_leg, radio_from, undamaged};
ghost use Rattle.dch_link.specs.SoftNodes.{IsLegOf, IsStandingLeg, LegLeadsTo, MayHit, RepresentsLeg, damage_of};

use crate::soft_event::LegDamage;
use dch_accept::{Accepted, FrameView};
use dch_bits::NoMemory;
use dch_damage::Damage;
use dch_indication::Indications;
use dch_nodeb::{NodeB, NodeBEvent};
use dch_types::Dir;
use std::alloc::Global;
use std::marker::Model;

/// A leg of a soft handover: a Node B, and the damage that waits for the frames that pass it in the next radio frame.
pub struct Leg {
    node_b: NodeB,
    damage: Damage,
}

// By hand, so that whoever holds one drops it by one call.
impl Drop for Leg {
    fn drop(self) {
        let Leg {
            node_b: _node_b,
            damage: _damage,
        } = self;
    }
}

impl Model for Leg {
    ghost use Rattle.dch_link.specs.SoftValues.{LegParts};

    ghost Value = { LegParts };

    ghost view = { λ l. record { node_b = l.node_b; damage = l.damage } };
}

impl Leg {
    /// Opens the Node B for a configuration. The first radio frame has this CFN, and no damage waits.
    pub(crate) fn open(alloc: Global, accepted: &Accepted, first_cfn: u8) -> Result<Leg, NoMemory>
        requires { first_cfn % 8 ≡ 0 }
        ensures opened { IfOk result (IsLegOf accepted.now) }
        ensures stands { IfOk result (RepresentsLeg accepted.now first_cfn (opened_leg accepted.now first_cfn)) }
    {
        Ok(Leg {
            node_b: NodeB::open(alloc, accepted, first_cfn)?,
            damage: Damage::open(alloc, accepted)?,
        })
    }

    /// The Node B.
    pub fn node_b(&self) -> &NodeB
        ensures { result.now ≡ self.now.node_b }
    {
        &self.node_b
    }

    /// One more piece of damage waits.
    pub(crate) fn take_damage(&mut self, accepted: &Accepted, damage: LegDamage)
        requires { MayHit accepted.now damage }
        ensures opened { IsLegOf accepted.now self.old → IsLegOf accepted.now self.new }
        ensures waits { (first : ℕ) (leg : LegState) → RepresentsLeg accepted.now first leg self.old →
            RepresentsLeg accepted.now first (damaged leg (damage_of damage)) self.new }
    {
        match damage {
            LegDamage::Flip { dir, tfci, place } => self.damage.flip(dir, tfci, place),
            LegDamage::Lose { dir } => self.damage.lose(dir),
            LegDamage::LoseIub { dir, set } => {
                // There are eight sets at most.
                let _side = accepted.side(dir);
                self.damage.lose_iub(dir, set);
            }
            LegDamage::Spoil {
                dir,
                set,
                octet,
                mask,
            } => {
                // There are eight sets at most.
                let _side = accepted.side(dir);
                self.damage.spoil(dir, set, octet, mask);
            }
        }
    }

    /// The downlink Iub frame of a set arrives at the Node B, if one was sent and isn't lost.
    pub(crate) fn receive_iub<U: Indications>(
        &mut self,
        accepted: &Accepted,
        set: u8,
        sent: Option<&[u8]>,
        user: &mut U,
    )
        requires opened { IsStandingLeg accepted.now self.old }
        requires set { set < 8 }
        requires fits { MayFitIub accepted.now Down set (octets_of sent) }
        ensures opened { IsLegOf accepted.now self.new }
        ensures receives { (first : ℕ) (leg : LegState) → RepresentsLeg accepted.now first leg self.old →
            LegLeadsTo accepted.now first (ReceivesIub set (octets_of sent.entry) leg) self.new
            (Tells U.shows user.old user.new) }
        ensures few { TellsFew U.shows 4000000 user.old user.new }
    {
        self.damage.hit_iub(Dir::Down, set, sent);
        if let Some(frame) = self.damage.iub(sent) {
            self.node_b
                .step_with(accepted, NodeBEvent::Iub { set, frame }, user);
        }
    }

    /// The Node B sends its downlink radio frame.
    pub(crate) fn transmit<U: Indications>(&mut self, accepted: &Accepted, user: &mut U)
        requires opened { IsStandingLeg accepted.now self.old }
        ensures opened { IsLegOf accepted.now self.new }
        ensures transmits { (first : ℕ) (leg : LegState) → RepresentsLeg accepted.now first leg self.old →
            LegLeadsTo accepted.now first (Transmits leg) self.new (Tells U.shows user.old user.new) }
        ensures few { TellsFew U.shows 4000000 user.old user.new }
    {
        self.node_b.step_with(accepted, NodeBEvent::Down, user);
    }

    /// The uplink radio frame arrives at the Node B, if one was sent and isn't lost.
    pub(crate) fn receive_radio<U: Indications>(
        &mut self,
        accepted: &Accepted,
        sent: Option<FrameView<'_>>,
        user: &mut U,
    )
        requires opened { IsStandingLeg accepted.now self.old }
        requires fits { MayFitRadio accepted.now Up (radio_of sent) }
        ensures opened { IsLegOf accepted.now self.new }
        ensures receives { (first : ℕ) (leg : LegState) → RepresentsLeg accepted.now first leg self.old →
            LegLeadsTo accepted.now first (ReceivesRadio (radio_of sent.entry) leg) self.new
            (Tells U.shows user.old user.new) }
        ensures few { TellsFew U.shows 4000000 user.old user.new }
    {
        self.damage.hit_radio(Dir::Up, sent);
        let frame = self.damage.radio(sent);
        self.node_b
            .step_with(accepted, NodeBEvent::Phy { frame }, user);
    }

    /// Hits the downlink radio frame that the Node B sent last, if it sent one. `radio` then shows what arrives.
    pub(crate) fn hit_radio(&mut self)
        requires room { HasRadioRoom self.old.damage Down (radio_shown self.old.node_b) }
        ensures opened { (planned : Planned) → IsLegOf planned self.old → IsLegOf planned self.new }
        ensures arrives { (planned : Planned) (first : ℕ) (leg : LegState) → RepresentsLeg planned first leg self.old →
            RepresentsLeg planned first leg self.new × (radio_heard self.new ≡ radio_from leg) }
    {
        self.damage.hit_radio(Dir::Down, self.node_b.sent());
    }

    /// What arrives of the downlink radio frame, if anything does.
    pub(crate) fn radio(&self) -> Option<FrameView<'_>>
        ensures { radio_of result ≡ radio_heard self.now }
    {
        self.damage.radio(self.node_b.sent())
    }

    /// Hits the uplink Iub frame of a set that the Node B sent last, if it sent one. `iub` then shows what arrives.
    pub(crate) fn hit_iub(&mut self, set: u8)
        requires set { set < 8 }
        requires room { HasIubRoom self.old.damage Up set (iub_shown self.old.node_b set) }
        ensures opened { (planned : Planned) → IsLegOf planned self.old → IsLegOf planned self.new }
        ensures arrives { (planned : Planned) (first : ℕ) (leg : LegState) → RepresentsLeg planned first leg self.old →
            RepresentsLeg planned first leg self.new × (iub_heard self.new set ≡ iub_from leg set) }
    {
        self.damage.hit_iub(Dir::Up, set, self.node_b.iub(set));
    }

    /// What arrives of the uplink Iub frame of a set that was hit last, if anything does.
    pub(crate) fn iub(&self, set: u8) -> Option<&[u8]>
        requires { set < 8 }
        ensures { octets_of result ≡ iub_heard self.now set }
    {
        self.damage.iub(self.node_b.iub(set))
    }

    /// The radio frame is over: no damage waits any more.
    pub(crate) fn clear(&mut self)
        ensures opened { (planned : Planned) → IsLegOf planned self.old → IsLegOf planned self.new }
        ensures clear { (planned : Planned) (first : ℕ) (leg : LegState) → RepresentsLeg planned first leg self.old →
            RepresentsLeg planned first (undamaged leg) self.new }
    {
        self.damage.clear();
    }
}
