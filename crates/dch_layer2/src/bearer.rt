ghost use Rattle.std.specs.Prelude.{◌≡◌, ◌<◌, ℕ, IfOk, length};
ghost use Rattle.dch_types.specs.declared.channel.Dir.{Dir};
ghost use Rattle.dch_types.specs.declared.config.Config.{Config};
ghost use Rattle.dch_config.specs.Changes.{KeepsBearer};
ghost use Rattle.dch_indication.specs.Told.{Told};
ghost use Rattle.dch_layer2.specs.Bearings.{Bearing, after_answer, answers, head_of, opened_bearing, ticked};
ghost use Rattle.dch_layer2.specs.Hearing.{hears};
ghost use Rattle.dch_layer2.specs.BearerStanding.{Built, CanBuild, CanGoOn, CanSend, CanTake, Represents};

use crate::am::AmBearer;
use crate::channel::bearer_of;
use crate::tm::TmBearer;
use crate::um::UmBearer;
use dch_accept::Accepted;
use dch_bits::{Bit, NoMemory, Offer};
use dch_indication::Indications;
use dch_mac::Head;
use dch_types::{Dir, Mode};
use std::alloc::Global;

/// A bearer at an end, in its mode (TS 25.322 4.2).
pub enum Bearer {
    Tm(TmBearer),
    Um(UmBearer),
    Am(AmBearer),
}

// By hand, so that whoever holds one drops it by one call.
impl Drop for Bearer {
    fn drop(self) {
        match self {
            Bearer::Tm(_tm) => {}
            Bearer::Um(_um) => {}
            Bearer::Am(_am) => {}
        }
    }
}

impl Bearer {
    /// Takes all memory of bearer `bearer` of a configuration, at an end that sends in the direction `out` and receives
    /// in the direction
    /// `into`.
    pub fn open(
        alloc: Global,
        accepted: &Accepted,
        out: Dir,
        into: Dir,
        bearer: u8,
    ) -> Result<Bearer, NoMemory>
        requires { bearer < length accepted.now.config.bearers }
        ensures { IfOk result (Represents accepted.now.config out into bearer
            (opened_bearing accepted.now.config out bearer)) }
    {
        match bearer_of(accepted, bearer).mode {
            Mode::Tm => Ok(Bearer::Tm(TmBearer::open(alloc, accepted, out, into, bearer)?)),
            Mode::Um => Ok(Bearer::Um(UmBearer::open(alloc, accepted, out, into, bearer)?)),
            Mode::Am => Ok(Bearer::Am(AmBearer::open(alloc, accepted, out, into, bearer)?)),
        }
    }

    /// Offers a unit: bits for a transparent bearer, octets for the others. It has a channel to send on.
    pub fn offer(&mut self, octets: &[u8], bits: &[Bit]) -> Offer
        requires { CanSend self.old }
        ensures answer { (config : Config) (out into : Dir) (b : ℕ) (old : Bearing) →
            Represents config out into b old self.old → result ≡ answers config out b octets.now bits.now old }
        ensures stands { (config : Config) (out into : Dir) (b : ℕ) (old : Bearing) →
            Represents config out into b old self.old →
            Represents config out into b (after_answer (answers config out b octets.now bits.now old)
            octets.now bits.now old) self.new }
    {
        match self {
            Bearer::Tm(bearer) => bearer.offer(bits),
            Bearer::Um(bearer) => bearer.offer(octets),
            Bearer::Am(bearer) => bearer.offer(octets),
        }
    }

    /// One tick of 10 ms of the timers.
    pub fn tick(&mut self)
        ensures { (config : Config) (out into : Dir) (b : ℕ) (old : Bearing) →
            Represents config out into b old self.old → Represents config out into b (ticked config b old) self.new }
    {
        match self {
            Bearer::Tm(_) => {}
            Bearer::Um(_) => {}
            Bearer::Am(bearer) => bearer.tick(),
        }
    }

    /// What it offers to send: the size of its next blocks in bits, and how many of them it could build one after
    /// another.
    pub fn head(&self) -> Head
        ensures { (config : Config) (out into : Dir) (b : ℕ) (now : Bearing) →
            Represents config out into b now self.now → result ≡ head_of config out b now }
    {
        match self {
            Bearer::Tm(bearer) => bearer.head(),
            Bearer::Um(bearer) => bearer.head(),
            Bearer::Am(bearer) => bearer.head(),
        }
    }

    /// Builds its next block. There is one, of the bits of `out`.
    pub fn build(&mut self, out: &mut [Bit])
        requires { CanBuild self.old (length out.old) }
        ensures { (config : Config) (dir into : Dir) (b : ℕ) (old : Bearing) →
            Represents config dir into b old self.old → Built config dir into b old out.new self.new }
    {
        match self {
            Bearer::Tm(bearer) => bearer.build(out),
            Bearer::Um(bearer) => bearer.build(out),
            Bearer::Am(bearer) => bearer.build(out),
        }
    }

    /// Takes the bits of a PDU that came, behind its C/T field, and hands up what is whole now, each unit by way of
    /// `unit`, which has 1,500 octets. It has a channel to receive from.
    pub fn take<U: Indications>(&mut self, bits: &[Bit], unit: &mut [u8], user: &mut U)
        requires unit { length unit.old ≡ 1500 }
        requires comes { CanTake self.old (length bits.now) }
        ensures told { (config : Config) (out into : Dir) (b : ℕ) (old : Bearing) →
            Represents config out into b old self.old →
            Told U.shows user.old (hears config into b bits.now old).lines user.new }
        ensures stands { (config : Config) (out into : Dir) (b : ℕ) (old : Bearing) →
            Represents config out into b old self.old →
            Represents config out into b (hears config into b bits.now old).bearing self.new }
    {
        match self {
            Bearer::Tm(bearer) => bearer.take(bits, user),
            Bearer::Um(bearer) => bearer.take(bits, unit, user),
            Bearer::Am(bearer) => bearer.take(bits, unit, user),
        }
    }

    /// Goes on in another configuration, in which it is kept, at an end that sends in the direction `out`: its units
    /// and its numbers stay, and from now on it sends the blocks of that configuration.
    pub fn change(&mut self, accepted: &Accepted, out: Dir)
        requires { CanGoOn accepted.now.config out self.old }
        ensures { (first : Config) (into : Dir) (b : ℕ) (old : Bearing) → Represents first out into b old self.old →
            KeepsBearer first accepted.now.config b → b < length accepted.now.config.bearers →
            Represents accepted.now.config out into b old self.new }
    {
        // A transparent bearer shares its channel with no other in a good configuration.
        let _config = accepted.config();
        match self {
            Bearer::Tm(_) => {}
            Bearer::Um(bearer) => bearer.change(accepted, out),
            Bearer::Am(bearer) => bearer.change(accepted, out),
        }
    }
}
