ghost use Rattle.std.specs.Prelude.{◌≡◌, ◌<◌, ℕ, IfOk, length};
ghost use Rattle.dch_types.specs.declared.config.Config.{Config};
ghost use Rattle.dch_config.specs.Changes.{KeepsBearer};
ghost use Rattle.dch_accept.specs.HeldSets.{held_at};
ghost use Rattle.dch_layer2.specs.Bearings.{answers};
ghost use Rattle.dch_layer2.specs.Layers.{Layer, blocks, changed_layer, offers, ticks};
ghost use Rattle.dch_layer2.specs.Changing.{CanGoOn, IsNextLayer};
ghost use Rattle.dch_layer2.specs.Standing.{AreTicked, CanOffer, HasStarted, IsLayerOf, IsOpened, IsSameEnd, Represents};

use crate::bearer::Bearer;
use crate::changing::{NextLayer, change_bearers};
use crate::choosing::{Moment, take_heads};
use crate::opening::{open_bearers, open_given, open_heads, open_unit};
use dch_accept::{Accepted, TtiBlocks};
use dch_bits::{Bit, NoMemory, Offer};
use dch_mac::{Chooser, Head};
use dch_types::Dir;
use std::alloc::Global;
use std::marker::Model;
use std::mem;

/// Layer 2 of an end that sends in one direction and receives in the other. All memory is taken when it is opened.
pub struct Layer2 {
    pub(crate) out: Dir,
    pub(crate) into: Dir,
    pub(crate) bearers: Vec<Bearer>,
    blocked: Vec<bool>,
    running: u16,
    given: Vec<TtiBlocks>,
    heads: Vec<Head>,
    chooser: Chooser,
    pub(crate) unit: Vec<u8>,
}

// By hand, so that whoever holds one drops it by one call.
impl Drop for Layer2 {
    fn drop(self) {
        let Layer2 {
            out: _out,
            into: _into,
            bearers: _bearers,
            blocked: _blocked,
            running: _running,
            given: _given,
            heads: _heads,
            chooser: _chooser,
            unit: _unit,
        } = self;
    }
}

impl Model for Layer2 {
    ghost use Rattle.dch_layer2.specs.Values.{LayerRunning};

    ghost Value = { LayerRunning };

    ghost view = { λ l. record {
      out = l.out;
      into = l.into;
      bearers = l.bearers.items;
      blocked = l.blocked.items;
      running = l.running;
      given = l.given.items;
      heads = l.heads.items;
      unit = l.unit.items;
    } };
}

impl Layer2 {
    /// Takes all memory for a configuration, at an end that sends in the direction `out` and receives in the direction
    /// `into`. No combination is blocked, and every channel runs its idle format.
    #[tactic(auto, using(crate::proofs::Bits::opened_bits))]
    pub fn open(alloc: Global, accepted: &Accepted, out: Dir, into: Dir) -> Result<Layer2, NoMemory>
        ensures { IfOk result (IsOpened accepted.now.config out into) }
    {
        // There is at least one combination.
        let combinations = accepted.side(out).combinations.len();
        Ok(Layer2 {
            out,
            into,
            bearers: open_bearers(alloc, accepted, out, into)?,
            blocked: vec![in alloc; false; combinations]?,
            running: 0,
            given: open_given(alloc, accepted, out)?,
            heads: open_heads(alloc, accepted)?,
            chooser: Chooser::open(alloc)?,
            unit: open_unit(alloc)?,
        })
    }

    /// Another configuration becomes active, in which each bearer is kept: no combination is blocked, and every channel
    /// runs its idle format.
    /// `next` gets the parts that are needed no more.
    pub fn change(&mut self, accepted: &Accepted, next: &mut NextLayer)
        requires bearers { CanGoOn accepted.now.config self.old }
        requires next { IsNextLayer accepted.now.config self.old.out next.old }
        ensures stands { (first : Config) (layer : Layer) → Represents first layer self.old →
            ((b : ℕ) → KeepsBearer first accepted.now.config b) →
            Represents accepted.now.config (changed_layer accepted.now.config self.old.out layer) self.new }
        ensures ends { IsSameEnd self.old self.new }
    {
        // There is at least one combination.
        let _side = accepted.side(self.out);
        change_bearers(accepted, self.out, &mut self.bearers);
        self.running = 0;
        mem::swap(&mut self.given, &mut next.given);
        mem::swap(&mut self.blocked, &mut next.blocked);
    }

    /// The blocks that a channel was given for its running TTI, with their format.
    pub fn given(&self, channel: u8) -> &TtiBlocks
        requires { channel < length self.now.given }
        ensures { result.now ≡ held_at self.now.given channel }
    {
        &self.given[channel as usize]
    }

    /// The combination that runs.
    pub fn running(&self) -> u16
        ensures { result ≡ self.now.running }
    {
        self.running
    }

    /// Offers a unit to a bearer: bits to a transparent one, octets to the others. It has a channel to send on.
    pub fn offer(&mut self, bearer: u8, octets: &[u8], bits: &[Bit]) -> Offer
        requires { CanOffer self.old bearer }
        ensures answer { (config : Config) (layer : Layer) → Represents config layer self.old →
            bearer < length config.bearers → result ≡
            answers config self.old.out bearer octets.now bits.now (layer.bearings bearer) }
        ensures stands { (config : Config) (layer : Layer) → Represents config layer self.old →
            Represents config (offers config self.old.out bearer octets.now bits.now layer).layer self.new }
        ensures ends { IsSameEnd self.old self.new }
    {
        self.bearers[bearer as usize].offer(octets, bits)
    }

    /// Blocks a combination, or frees it again.
    pub fn block(&mut self, combination: u16, on: bool)
        requires { combination < length self.old.blocked }
        ensures stands { (config : Config) (layer : Layer) → Represents config layer self.old →
            Represents config (blocks combination on layer) self.new }
        ensures ends { IsSameEnd self.old self.new }
    {
        self.blocked[combination as usize] = on;
    }

    /// One tick of 10 ms of the timers of all bearers.
    #[tactic(auto, using(crate::proofs::Bits::ticked_bits))]
    pub fn tick(&mut self)
        ensures stands { (config : Config) (layer : Layer) → Represents config layer self.old →
            Represents config (ticks config layer) self.new }
        ensures ends { IsSameEnd self.old self.new }
    {
        tick(&mut self.bearers);
    }

    /// The TTIs that start at a CFN: a combination is chosen (TS 25.321 11.4), and the blocks of the starting channels
    /// are built, by priority and then by bearer, with the C/T field where the channel has one.
    pub fn start(&mut self, accepted: &Accepted, cfn: u8)
        requires { IsLayerOf accepted.now.config self.old }
        ensures started { (layer : Layer) → Represents accepted.now.config layer self.old →
            HasStarted accepted.now.config cfn layer self.new }
        ensures ends { IsSameEnd self.old self.new }
    {
        // Each bearer's channels are there.
        let _config = accepted.config();
        take_heads(&self.bearers, &mut self.heads);
        let moment = Moment {
            accepted,
            out: self.out,
            cfn,
            running: self.running,
            heads: &self.heads,
            blocked: &self.blocked,
        };
        let combination = moment.choose(&mut self.chooser);
        moment.start_all(combination, &mut self.bearers, &mut self.given);
        self.running = combination;
    }
}

/// One tick of each bearer.
fn tick(bearers: &mut [Bearer])
    ensures { AreTicked bearers.old bearers.new }
{
    for b in 0..bearers.len() {
        bearers[b].tick();
    }
}
