ghost use Rattle.std.specs.Prelude.{◌≡◌, ◌<◌, List, [], ◌∷◌, IfOk};
ghost use Rattle.dch_accept.specs.Plans.{Planned};
ghost use Rattle.dch_damage.specs.Damage.{Damage as OneDamage, Flip, Lose, LoseIub, Spoil, iub_after, radio_after};
ghost use Rattle.dch_damage.specs.Lending.{octets_of, radio_of};
ghost use Rattle.dch_damage.specs.Opened.{HasIubRoom, HasRadioRoom, IsDamageOf};
ghost use Rattle.dch_damage.specs.Tables.{iub_arrived, radio_arrived};
ghost use Rattle.dch_damage.specs.Waiting.{Waits};

use crate::iub::{
    IubBuffer, IubDamage, clear_sets, longest_of_sets, lose_set, open_sets, spoil_set,
};
use crate::radio::{RadioBuffer, RadioDamage};
use dch_accept::{Accepted, FrameView};
use dch_bits::NoMemory;
use dch_types::Dir;
use std::alloc::Global;
use std::marker::Model;

/// The damage that waits for the frames of the next radio frame (10 ms), and what arrives in place of those that it
/// hits.
pub struct Damage {
    up: RadioDamage,
    down: RadioDamage,
    up_sets: Vec<IubDamage>,
    down_sets: Vec<IubDamage>,
    radio: RadioBuffer,
    iub: IubBuffer,
}

// By hand, so that whoever holds one drops it by one call.
impl Drop for Damage {
    fn drop(self) {
        let Damage {
            up: _up,
            down: _down,
            up_sets: _up_sets,
            down_sets: _down_sets,
            radio: _radio,
            iub: _iub,
        } = self;
    }
}

impl Model for Damage {
    ghost use Rattle.dch_damage.specs.Buffers.{HoldsAll};
    ghost use Rattle.dch_damage.specs.Tables.{Tables};

    ghost Value = { Tables };

    ghost view = { λ d. record {
      up = d.up;
      down = d.down;
      up_sets = d.up_sets.items;
      down_sets = d.down_sets.items;
      radio = d.radio.instead;
      iub = d.iub.instead;
    } };

    ghost invariant = { λ d. HoldsAll d.up d.down d.up_sets.items d.down_sets.items d.radio d.iub };
}

impl Damage {
    /// Takes the memory for the damage to the frames of a configuration. Nothing waits.
    pub fn open(alloc: Global, accepted: &Accepted) -> Result<Damage, NoMemory>
        ensures opened { IfOk result (IsDamageOf accepted.now) }
        ensures none { IfOk result (Waits []) }
    {
        Damage::open_both(alloc, accepted, accepted)
    }

    /// Takes the memory for the damage to the frames of each of two configurations. Nothing waits.
    pub fn open_both(alloc: Global, first: &Accepted, second: &Accepted) -> Result<Damage, NoMemory>
        ensures first { IfOk result (IsDamageOf first.now) }
        ensures second { IfOk result (IsDamageOf second.now) }
        ensures none { IfOk result (Waits []) }
    {
        let up = RadioDamage::open(alloc, first, second, Dir::Up)?;
        let down = RadioDamage::open(alloc, first, second, Dir::Down)?;
        let up_sets = open_sets(alloc, first, second, Dir::Up)?;
        let down_sets = open_sets(alloc, first, second, Dir::Down)?;
        let bits = up.bits().max(down.bits());
        let cells = up.most_cells().max(down.most_cells());
        let octets = longest_of_sets(&up_sets).max(longest_of_sets(&down_sets));
        Ok(Damage {
            up,
            down,
            up_sets,
            down_sets,
            radio: RadioBuffer::open(alloc, bits, cells)?,
            iub: IubBuffer::open(alloc, octets)?,
        })
    }

    /// Turns over a TFCI bit, or else a cell, of the next radio frame of a direction. A place that the frame doesn't
    /// have has no effect.
    pub fn flip(&mut self, dir: Dir, tfci: bool, place: u16)
        ensures opened { (planned : Planned) → IsDamageOf planned self.old → IsDamageOf planned self.new }
        ensures waits { (damage : List OneDamage) → Waits damage self.old →
            Waits (Flip dir tfci place ∷ damage) self.new }
    {
        match dir {
            Dir::Up => self.up.flip(tfci, place),
            Dir::Down => self.down.flip(tfci, place),
        }
    }

    /// The next radio frame of a direction is lost.
    pub fn lose(&mut self, dir: Dir)
        ensures opened { (planned : Planned) → IsDamageOf planned self.old → IsDamageOf planned self.new }
        ensures waits { (damage : List OneDamage) → Waits damage self.old → Waits (Lose dir ∷ damage) self.new }
    {
        match dir {
            Dir::Up => self.up.lose(),
            Dir::Down => self.down.lose(),
        }
    }

    /// The Iub frame of a direction's set in the next radio frame is lost.
    pub fn lose_iub(&mut self, dir: Dir, set: u8)
        requires { set < 8 }
        ensures opened { (planned : Planned) → IsDamageOf planned self.old → IsDamageOf planned self.new }
        ensures waits { (damage : List OneDamage) → Waits damage self.old → Waits (LoseIub dir set ∷ damage) self.new }
    {
        match dir {
            Dir::Up => lose_set(&mut self.up_sets, set),
            Dir::Down => lose_set(&mut self.down_sets, set),
        }
    }

    /// Spoils an octet of the Iub frame of a direction's set in the next radio frame: the mask is joined to it by
    /// exclusive or. An octet that the frame doesn't have has no effect.
    pub fn spoil(&mut self, dir: Dir, set: u8, octet: u16, mask: u8)
        requires { set < 8 }
        ensures opened { (planned : Planned) → IsDamageOf planned self.old → IsDamageOf planned self.new }
        ensures waits { (damage : List OneDamage) → Waits damage self.old →
            Waits (Spoil dir set octet mask ∷ damage) self.new }
    {
        match dir {
            Dir::Up => spoil_set(&mut self.up_sets, set, octet, mask),
            Dir::Down => spoil_set(&mut self.down_sets, set, octet, mask),
        }
    }

    /// Hits a radio frame of a direction, if one is sent, with the damage that waits. `radio` then shows what arrives
    /// of it.
    pub fn hit_radio(&mut self, dir: Dir, sent: Option<FrameView<'_>>)
        requires room { HasRadioRoom self.old dir (radio_of sent) }
        ensures opened { (planned : Planned) → IsDamageOf planned self.old → IsDamageOf planned self.new }
        ensures arrives { (damage : List OneDamage) → Waits damage self.old → Waits damage self.new ×
            (radio_arrived self.new (radio_of sent.entry) ≡ radio_after damage dir (radio_of sent.entry)) }
    {
        match dir {
            Dir::Up => self.radio.receive(&self.up, sent),
            Dir::Down => self.radio.receive(&self.down, sent),
        }
    }

    /// What arrives of the radio frame that was hit last, given once more: it is lent on where no damage waited for it.
    pub fn radio<'a>(&'a self, sent: Option<FrameView<'a>>) -> Option<FrameView<'a>>
        ensures { radio_of result ≡ radio_arrived self.now (radio_of sent.entry) }
    {
        self.radio.arriving(sent)
    }

    /// Hits the Iub frame of a direction's set, if one is sent, with the damage that waits. `iub` then shows what
    /// arrives of it.
    pub fn hit_iub(&mut self, dir: Dir, set: u8, sent: Option<&[u8]>)
        requires set { set < 8 }
        requires room { HasIubRoom self.old dir set (octets_of sent) }
        ensures opened { (planned : Planned) → IsDamageOf planned self.old → IsDamageOf planned self.new }
        ensures arrives { (damage : List OneDamage) → Waits damage self.old → Waits damage self.new ×
            (iub_arrived self.new (octets_of sent.entry) ≡ iub_after damage dir set (octets_of sent.entry)) }
    {
        match dir {
            Dir::Up => self.iub.receive(&self.up_sets[set as usize], sent),
            Dir::Down => self.iub.receive(&self.down_sets[set as usize], sent),
        }
    }

    /// What arrives of the Iub frame that was hit last, given once more: it is lent on where no damage waited for it.
    pub fn iub<'a>(&'a self, sent: Option<&'a [u8]>) -> Option<&'a [u8]>
        ensures { octets_of result ≡ iub_arrived self.now (octets_of sent.entry) }
    {
        self.iub.arriving(sent)
    }

    /// The radio frame is over: nothing waits any more.
    pub fn clear(&mut self)
        ensures opened { (planned : Planned) → IsDamageOf planned self.old → IsDamageOf planned self.new }
        ensures none { Waits [] self.new }
    {
        self.up.clear();
        self.down.clear();
        clear_sets(&mut self.up_sets);
        clear_sets(&mut self.down_sets);
    }
}
