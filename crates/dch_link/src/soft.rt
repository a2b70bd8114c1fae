ghost use Rattle.std.specs.Prelude.{◌≡◌, ◌<◌, ◌≤◌, ◌+◌, ◌%◌, ℕ, None, length, IfOk, IfSome, true};
ghost use Rattle.dch_types.specs.Timing.{has_set};
ghost use Rattle.dch_accept.specs.Plans.{Planned};
ghost use Rattle.dch_accept.specs.Reports.{step_bytes};
ghost use Rattle.dch_combine.specs.Opened.{HoldsLongest, IsCombinerOf};
ghost use Rattle.dch_combine.specs.Values.{frames_of};
ghost use Rattle.dch_node.specs.Standing.{Tells};
ghost use Rattle.dch_steptext.specs.Reports.{TellsFew};
ghost use Rattle.dch_link.specs.SoftEvents.{Happens};
ghost use Rattle.dch_link.specs.Hearing.{IsHeard};
ghost use Rattle.dch_link.specs.Legs.{radio_from};
ghost use Rattle.dch_link.specs.SoftPassing.{IsStage};
ghost use Rattle.dch_link.specs.Rooms.{stage_bytes};
ghost use Rattle.dch_link.specs.Soft.{SoftState, framed, opened_soft, over};
ghost use Rattle.dch_link.specs.SoftStages.{AtStage, GivesFrame, Hears, TakesFrame};
ghost use Rattle.dch_link.specs.SoftNodes.{ArePartsOf, HaveHistories, IsSoftOf, LeadsTo, MayCome, Represents, event_of};
ghost use Rattle.dch_link.specs.declared.soft_stage.Stage.TheVariants.{Combine, IubDown, IubUp, RadioDown, RadioUp, UeTick};

use crate::hearing::{clear_damage, hit_radios, lowest_radio, open_legs};
use crate::leg::Leg;
use crate::refusal::tell_error;
use crate::soft_event::SoftEvent;
use crate::soft_stage::Stage;
use dch_accept::Accepted;
use dch_bits::NoMemory;
use dch_combine::Combiner;
use dch_indication::Indications;
use dch_iub::longest;
use dch_rnc::{Rnc, RncEvent};
use dch_txframes::tell_iub;
use dch_types::{Dir, SETS, ends, started};
use dch_ue::{Ue, UeEvent};
use std::alloc::Global;
use std::marker::Model;

/// The most bytes of the line of a combined Iub frame.
pub const COMBINED: usize = 300_000;

/// A terminal, the legs of its soft handover and a network controller that hand their frames on to each other, and the
/// damage that waits on each leg for the next radio frame. The terminal hears one leg at a time; the uplink Iub frames
/// of the legs are combined to one (TS
/// 25.427 6.2). All memory is taken at opening.
pub struct Soft {
    ue: Ue,
    rnc: Rnc,
    legs: Vec<Leg>,
    combiner: Combiner,
    out: Vec<u8>,
    cfn: u8,
}

// By hand, so that whoever holds one drops it by one call.
impl Drop for Soft {
    fn drop(self) {
        let Soft {
            ue: _ue,
            rnc: _rnc,
            legs: _legs,
            combiner: _combiner,
            out: _out,
            cfn: _cfn,
        } = self;
    }
}

impl Model for Soft {
    ghost use Rattle.std.specs.Prelude.{length};
    ghost use Rattle.dch_link.specs.SoftValues.{Parts};

    ghost Value = { Parts };

    ghost view = { λ s. record {
      ue = s.ue;
      rnc = s.rnc;
      legs = s.legs.items;
      combiner = s.combiner;
      room = length s.out.items;
      cfn = s.cfn;
    } };
}

impl Soft {
    /// Opens the nodes for a configuration, with so many legs, of which there are 1 to 6. The first radio frame has
    /// this CFN, and no damage waits.
    pub fn open(
        alloc: Global,
        accepted: &Accepted,
        first_cfn: u8,
        legs: u8,
    ) -> Result<Soft, NoMemory>
        requires first { first_cfn % 8 ≡ 0 }
        requires some { 1 ≤ legs }
        requires few { legs ≤ 6 }
        ensures opened { IfOk result (IsSoftOf accepted.now) }
        ensures stands { IfOk result (Represents accepted.now first_cfn (opened_soft accepted.now first_cfn legs)) }
    {
        let ue = Ue::open(alloc, accepted, first_cfn)?;
        let rnc = Rnc::open(alloc, accepted, first_cfn)?;
        let (combiner, out) = open_combiner(alloc, accepted, legs)?;
        let legs = open_legs(alloc, accepted, first_cfn, legs)?;
        Ok(Soft {
            ue,
            rnc,
            legs,
            combiner,
            out,
            cfn: first_cfn,
        })
    }

    /// The nodes, after the work: each leg has a Node B.
    pub fn into_nodes(self) -> (Ue, Vec<Leg>, Rnc)
        ensures nodes { (result.0 ≡ self.ue) × (result.1.items ≡ self.legs) × (result.2 ≡ self.rnc) }
        ensures histories { (planned : Planned) (first : ℕ) (soft : SoftState) → Represents planned first soft self →
            HaveHistories planned first soft result.0 result.1.items result.2 }
    {
        let Soft {
            ue,
            rnc,
            legs,
            combiner: _combiner,
            out: _out,
            cfn: _cfn,
        } = self;
        (ue, legs, rnc)
    }

    /// How many legs there are.
    pub fn legs(&self) -> u8
        requires { length self.now.legs ≤ 6 }
        ensures { result ≡ length self.now.legs }
    {
        self.legs.len() as u8
    }

    /// Takes what a script does between two radio frames, and tells what the node says that takes it.
    pub fn happen<U: Indications>(
        &mut self,
        accepted: &Accepted,
        event: SoftEvent<'_>,
        user: &mut U,
    )
        requires opened { IsSoftOf accepted.now self.old }
        requires event { MayCome accepted.now (length self.old.legs) event }
        ensures opened { IsSoftOf accepted.now self.new }
        ensures happens { (first : ℕ) (soft : SoftState) → Represents accepted.now first soft self.old →
            LeadsTo accepted.now first (Happens soft (event_of event.entry)) self.new
            (Tells U.shows user.old user.new) }
        ensures legs { length self.new.legs ≡ length self.old.legs }
        ensures few { TellsFew U.shows (step_bytes accepted.now.config) user.old user.new }
    {
        self.take_event(accepted, event, user);
    }

    /// Passes a stage of a radio frame, and tells what the nodes say, what is refused of a leg, and what the frames of
    /// the legs are combined to.
    pub fn pass<U: Indications>(&mut self, accepted: &Accepted, stage: Stage, user: &mut U)
        requires opened { IsSoftOf accepted.now self.old }
        requires stage { IsStage (length self.old.legs) stage }
        ensures opened { IsSoftOf accepted.now self.new }
        ensures passes { (first : ℕ) (soft : SoftState) → Represents accepted.now first soft self.old →
            LeadsTo accepted.now first (AtStage stage soft) self.new (Tells U.shows user.old user.new) }
        ensures legs { length self.new.legs ≡ length self.old.legs }
        ensures few { TellsFew U.shows (stage_bytes accepted.now.config stage) user.old user.new }
    {
        self.run_stage(accepted, stage, user);
    }

    /// A radio frame is over: no damage waits any more, and the CFN goes on.
    pub fn end_frame(&mut self, accepted: &Accepted)
        requires { IsSoftOf accepted.now self.old }
        ensures opened { IsSoftOf accepted.now self.new }
        ensures clear { (first : ℕ) (soft : SoftState) → Represents accepted.now first soft self.old →
            Represents accepted.now first (framed soft) self.new }
        ensures legs { length self.new.legs ≡ length self.old.legs }
    {
        clear_damage(&mut self.legs);
        self.cfn = self.cfn.wrapping_add(1);
    }

    /// Takes an event at the node where it happens, or as damage that waits on a leg.
    fn take_event<U: Indications>(
        &mut self,
        accepted: &Accepted,
        event: SoftEvent<'_>,
        user: &mut U,
    )
        requires opened { IsSoftOf accepted.now self.old }
        requires event { MayCome accepted.now (length self.old.legs) event }
        ensures opened { ArePartsOf accepted.now self.new }
        ensures happens { (first : ℕ) (soft : SoftState) → Represents accepted.now first soft self.old →
            LeadsTo accepted.now first (Happens soft (event_of event.entry)) self.new
            (Tells U.shows user.old user.new) }
        ensures legs { length self.new.legs ≡ length self.old.legs }
        ensures few { TellsFew U.shows (step_bytes accepted.now.config) user.old user.new }
    {
        match event {
            SoftEvent::Unit {
                dir,
                bearer,
                octets,
                bits,
            } => match dir {
                Dir::Up => self.ue.step_with(
                    accepted,
                    UeEvent::Unit {
                        bearer,
                        octets,
                        bits,
                    },
                    user,
                ),
                Dir::Down => self.rnc.step_with(
                    accepted,
                    RncEvent::Unit {
                        bearer,
                        octets,
                        bits,
                    },
                    user,
                ),
            },
            SoftEvent::Block {
                dir,
                combination,
                on,
            } => match dir {
                Dir::Up => self
                    .ue
                    .step_with(accepted, UeEvent::Block { combination, on }, user),
                Dir::Down => self
                    .rnc
                    .step_with(accepted, RncEvent::Block { combination, on }, user),
            },
            SoftEvent::Damage { leg, damage } => {
                self.legs[leg as usize].take_damage(accepted, damage);
            }
        }
    }

    /// Does what a stage says, at the nodes where it is done.
    fn run_stage<U: Indications>(&mut self, accepted: &Accepted, stage: Stage, user: &mut U)
        requires opened { IsSoftOf accepted.now self.old }
        requires stage { IsStage (length self.old.legs) stage }
        ensures opened { ArePartsOf accepted.now self.new }
        ensures passes { (first : ℕ) (soft : SoftState) → Represents accepted.now first soft self.old →
            LeadsTo accepted.now first (AtStage stage soft) self.new (Tells U.shows user.old user.new) }
        ensures legs { length self.new.legs ≡ length self.old.legs }
        ensures few { TellsFew U.shows (stage_bytes accepted.now.config stage) user.old user.new }
    {
        match stage {
            Stage::RncTick => self.rnc.step_with(accepted, RncEvent::Tick, user),
            Stage::IubDown { leg, set } => self.iub_down(accepted, leg, set, user),
            Stage::RadioDown(leg) => self.radio_down(accepted, leg, user),
            Stage::UeTick => self.tick_ue(accepted, user),
            Stage::RadioUp(leg) => self.radio_up(accepted, leg, user),
            Stage::IubUp { set, leg } => self.iub_up(accepted, set, leg, user),
            Stage::Combine(set) => self.combine(accepted, set, user),
        }
    }

    /// The downlink Iub frame of a set arrives at the Node B of a leg, if one was sent and isn't lost.
    fn iub_down<U: Indications>(&mut self, accepted: &Accepted, leg: u8, set: u8, user: &mut U)
        requires opened { IsSoftOf accepted.now self.old }
        requires leg { leg < length self.old.legs }
        requires set { set < 8 }
        ensures opened { ArePartsOf accepted.now self.new }
        ensures passes { (first : ℕ) (soft : SoftState) → Represents accepted.now first soft self.old →
            LeadsTo accepted.now first (AtStage (IubDown leg set) soft) self.new (Tells U.shows user.old user.new) }
        ensures legs { length self.new.legs ≡ length self.old.legs }
        ensures few { TellsFew U.shows 4000000 user.old user.new }
    {
        self.legs[leg as usize].receive_iub(accepted, set, self.rnc.iub(set), user);
    }

    /// The Node B of a leg sends its downlink radio frame.
    fn radio_down<U: Indications>(&mut self, accepted: &Accepted, leg: u8, user: &mut U)
        requires opened { IsSoftOf accepted.now self.old }
        requires leg { leg < length self.old.legs }
        ensures opened { ArePartsOf accepted.now self.new }
        ensures passes { (first : ℕ) (soft : SoftState) → Represents accepted.now first soft self.old →
            LeadsTo accepted.now first (AtStage (RadioDown leg) soft) self.new (Tells U.shows user.old user.new) }
        ensures legs { length self.new.legs ≡ length self.old.legs }
        ensures few { TellsFew U.shows 4000000 user.old user.new }
    {
        self.legs[leg as usize].transmit(accepted, user);
    }

    /// The downlink radio frame of the lowest leg of which one arrives comes to the terminal, and 10 ms pass there.
    fn tick_ue<U: Indications>(&mut self, accepted: &Accepted, user: &mut U)
        requires opened { IsSoftOf accepted.now self.old }
        ensures opened { ArePartsOf accepted.now self.new }
        ensures passes { (first : ℕ) (soft : SoftState) → Represents accepted.now first soft self.old →
            LeadsTo accepted.now first (AtStage UeTick soft) self.new (Tells U.shows user.old user.new) }
        ensures legs { length self.new.legs ≡ length self.old.legs }
        ensures few { TellsFew U.shows (step_bytes accepted.now.config) user.old user.new }
    {
        self.hear(accepted, user);
        self.ue.step_with(accepted, UeEvent::Tick, user);
    }

    /// The downlink radio frame of the lowest leg of which one arrives comes to the terminal. Nothing is told of it.
    fn hear<U: Indications>(&mut self, accepted: &Accepted, user: &mut U)
        requires opened { IsSoftOf accepted.now self.old }
        ensures opened { ArePartsOf accepted.now self.new }
        ensures hears { (first : ℕ) (soft : SoftState) → Represents accepted.now first soft self.old →
            (mid : SoftState) × (Hears soft mid × Represents accepted.now first mid self.new) }
        ensures legs { length self.new.legs ≡ length self.old.legs }
        ensures same { user.new ≡ user.old }
    {
        hit_radios(&mut self.legs);
        let frame = lowest_radio(&self.legs);
        self.ue.step_with(accepted, UeEvent::Phy { frame }, user);
    }

    /// The uplink radio frame arrives at the Node B of a leg, if one was sent and isn't lost.
    fn radio_up<U: Indications>(&mut self, accepted: &Accepted, leg: u8, user: &mut U)
        requires opened { IsSoftOf accepted.now self.old }
        requires leg { leg < length self.old.legs }
        ensures opened { ArePartsOf accepted.now self.new }
        ensures passes { (first : ℕ) (soft : SoftState) → Represents accepted.now first soft self.old →
            LeadsTo accepted.now first (AtStage (RadioUp leg) soft) self.new (Tells U.shows user.old user.new) }
        ensures legs { length self.new.legs ≡ length self.old.legs }
        ensures few { TellsFew U.shows 4000000 user.old user.new }
    {
        self.legs[leg as usize].receive_radio(accepted, self.ue.sent(), user);
    }

    /// The uplink Iub frame of a set from a leg is taken to be combined, where the TTI of the set is over.
    fn iub_up<U: Indications>(&mut self, accepted: &Accepted, set: u8, leg: u8, user: &mut U)
        requires opened { IsSoftOf accepted.now self.old }
        requires set { set < 8 }
        requires leg { leg < length self.old.legs }
        ensures opened { ArePartsOf accepted.now self.new }
        ensures passes { (first : ℕ) (soft : SoftState) → Represents accepted.now first soft self.old →
            LeadsTo accepted.now first (AtStage (IubUp set leg) soft) self.new (Tells U.shows user.old user.new) }
        ensures legs { length self.new.legs ≡ length self.old.legs }
        ensures few { TellsFew U.shows 4000000 user.old user.new }
    {
        if let Some(cfn) = self.ended(accepted, set) {
            self.take_frame(accepted, set, leg, cfn, user);
        }
    }

    /// The uplink Iub frame of a set from a leg is taken in the TTI that started at a CFN, if one was sent and isn't
    /// lost.
    fn take_frame<U: Indications>(
        &mut self,
        accepted: &Accepted,
        set: u8,
        leg: u8,
        cfn: u8,
        user: &mut U,
    )
        requires opened { IsSoftOf accepted.now self.old }
        requires set { set < 8 }
        requires there { has_set accepted.now.config.uplink.side set ≡ true }
        requires leg { leg < length self.old.legs }
        ensures opened { ArePartsOf accepted.now self.new }
        ensures takes { (first : ℕ) (soft : SoftState) → Represents accepted.now first soft self.old →
            LeadsTo accepted.now first (TakesFrame cfn set leg soft) self.new (Tells U.shows user.old user.new) }
        ensures legs { length self.new.legs ≡ length self.old.legs }
        ensures few { TellsFew U.shows 4000000 user.old user.new }
    {
        self.legs[leg as usize].hit_iub(set);
        if let Some(frame) = self.legs[leg as usize].iub(set) {
            if let Err(error) = self.combiner.take(accepted, set, leg, cfn, frame) {
                tell_error(user, set, error);
            }
        }
    }

    /// The frames of a set are combined to one, which the network controller takes, where the TTI of the set is over.
    fn combine<U: Indications>(&mut self, accepted: &Accepted, set: u8, user: &mut U)
        requires opened { IsSoftOf accepted.now self.old }
        requires set { set < 8 }
        ensures opened { ArePartsOf accepted.now self.new }
        ensures passes { (first : ℕ) (soft : SoftState) → Represents accepted.now first soft self.old →
            LeadsTo accepted.now first (AtStage (Combine set) soft) self.new (Tells U.shows user.old user.new) }
        ensures legs { length self.new.legs ≡ length self.old.legs }
        ensures few { TellsFew U.shows (step_bytes accepted.now.config + 300000) user.old user.new }
    {
        if let Some(cfn) = self.ended(accepted, set) {
            self.give_frame(accepted, set, cfn, user);
        }
    }

    /// The frames of a set are combined to one in the TTI that started at a CFN, if there is one. It is told, and the
    /// network controller takes it.
    fn give_frame<U: Indications>(&mut self, accepted: &Accepted, set: u8, cfn: u8, user: &mut U)
        requires opened { IsSoftOf accepted.now self.old }
        requires set { set < 8 }
        requires there { has_set accepted.now.config.uplink.side set ≡ true }
        ensures opened { ArePartsOf accepted.now self.new }
        ensures gives { (first : ℕ) (soft : SoftState) → Represents accepted.now first soft self.old →
            LeadsTo accepted.now first (GivesFrame cfn set soft) self.new (Tells U.shows user.old user.new) }
        ensures legs { length self.new.legs ≡ length self.old.legs }
        ensures few { TellsFew U.shows (step_bytes accepted.now.config + 300000) user.old user.new }
    {
        if let Some(len) = self.combiner.give(accepted, set, cfn, &mut self.out) {
            // The blocks of a format are limited in a good configuration.
            let _side = accepted.side(Dir::Up);
            let frame = &self.out[..len];
            tell_iub(user, Dir::Up, set, frame);
            self.rnc
                .step_with(accepted, RncEvent::Iub { set, frame }, user);
        }
    }

    /// The CFN at which the TTI of an uplink set started, where it ends with the radio frame that is on.
    fn ended(&self, accepted: &Accepted, set: u8) -> Option<u8>
        ensures value { result ≡ over accepted.now.config.uplink.side set self.now.cfn }
        ensures there { IfSome result (λ _. has_set accepted.now.config.uplink.side set ≡ true) }
    {
        let frames = accepted.side(Dir::Up).set_frames(set);
        if ends(frames, self.cfn) {
            Some(started(frames, self.cfn))
        } else {
            None
        }
    }
}

/// Takes the memory for the frames of so many legs, and for a combined one.
fn open_combiner(
    alloc: Global,
    accepted: &Accepted,
    legs: u8,
) -> Result<(Combiner, Vec<u8>), NoMemory>
    requires some { 1 ≤ legs }
    requires few { legs ≤ 6 }
    ensures opened { IfOk result (λ made. IsCombinerOf accepted.now made.0) }
    ensures legs { IfOk result (λ made. made.0.legs ≡ legs) }
    ensures empty { IfOk result (λ made. (s k : ℕ) → frames_of made.0 s k ≡ None) }
    ensures room { IfOk result (λ made. (s : ℕ) → s < 8 → HoldsLongest accepted.now.config s (length made.1.items)) }
{
    let combiner = Combiner::open(alloc, accepted, legs)?;
    let out = vec![in alloc; 0; longest_frame(accepted)]?;
    Ok((combiner, out))
}

/// The octets of the longest uplink Iub frame of all sets.
fn longest_frame(accepted: &Accepted) -> usize
    ensures { (s : ℕ) → s < 8 → HoldsLongest accepted.now.config s result }
{
    let mut octets = 0;
    for set in 0..SETS {
        let longest = longest(accepted, Dir::Up, set);
        if octets < longest {
            octets = longest;
        }
    }
    octets
}
