ghost use Rattle.std.specs.Prelude.{◌≡◌, ◌≤◌, ◌<◌, ℕ, None, true, length, take, slice_index, IfOk, bit_xor};
ghost use Rattle.dch_damage.specs.Damage.{each_changed};
ghost use Rattle.dch_damage.specs.Lending.{octets_of};
ghost use Rattle.dch_damage.specs.Opened.{AreClearedTo, AreNewSets, IsIubDamageOf, IsIubWithin, IsQuietSet};
ghost use Rattle.dch_damage.specs.Tables.{iub_cleared, iub_through, masked, received, set_in, with_set};

use crate::arrival::{Arrival, clear};
use dch_accept::Accepted;
use dch_bits::NoMemory;
use dch_iub::longest;
use dch_types::{Dir, SETS};
use std::alloc::Global;
use std::marker::Model;

/// The damage that waits for the Iub frame of a set.
#[derive(Drop)]
pub struct IubDamage {
    lost: bool,
    masks: Vec<u8>,
    touched: bool,
}

impl Model for IubDamage {
    ghost use Rattle.dch_damage.specs.Tables.{IubTables};
    ghost use Rattle.dch_damage.specs.Waiting.{AreNoMasks};

    ghost Value = { IubTables };

    ghost view = { λ d. record { lost = d.lost; masks = d.masks.items } };

    ghost invariant = { λ d. AreNoMasks d.touched d.masks.items };
}

impl IubDamage {
    /// Takes the memory for the octets of the frames of a set of a direction, under each of two configurations. Nothing
    /// waits.
    fn open(
        alloc: Global,
        first: &Accepted,
        second: &Accepted,
        dir: Dir,
        set: u8,
    ) -> Result<IubDamage, NoMemory>
        ensures first { IfOk result (IsIubDamageOf first.now dir set) }
        ensures second { IfOk result (IsIubDamageOf second.now dir set) }
        ensures quiet { IfOk result IsQuietSet }
    {
        let octets = longest(first, dir, set).max(longest(second, dir, set));
        Ok(IubDamage {
            lost: false,
            masks: vec![in alloc; 0; octets]?,
            touched: false,
        })
    }

    /// The octets of the longest Iub frame.
    fn most_octets(&self) -> usize
        ensures { result ≡ length self.now.masks }
    {
        self.masks.len()
    }

    /// The next Iub frame is lost.
    fn lose(&mut self)
        ensures { self.new ≡ record self.old { lost = true } }
    {
        self.lost = true;
    }

    /// Joins a mask to that of an octet. An octet past the end has no effect.
    fn spoil(&mut self, octet: u16, mask: u8)
        ensures { self.new ≡ record self.old { masks = masked self.old.masks octet mask } }
    {
        join_mask(&mut self.masks, octet as usize, mask);
        self.touched = true;
    }

    /// Nothing waits any more.
    fn clear(&mut self)
        ensures { self.new ≡ iub_cleared self.old }
    {
        self.lost = false;
        if self.touched {
            clear(&mut self.masks, 0);
            self.touched = false;
        }
    }
}

/// Joins a mask to that of an octet by exclusive or.
fn join_mask(masks: &mut [u8], octet: usize, mask: u8)
    ensures { masks.new ≡ masked masks.old octet mask }
{
    if octet < masks.len() {
        masks[octet] ^= mask;
    }
}

/// Writes octets to the front of `out`, each exclusive or its mask.
fn mask_octets(masks: &[u8], octets: &[u8], out: &mut [u8])
    requires table { length octets.now ≤ length masks.now }
    requires room { length octets.now ≤ length out.old }
    ensures { take (length octets.now) out.new ≡
        each_changed (λ k octet. bit_xor octet (slice_index masks.now k)) octets.now }
{
    for i in 0..octets.len() {
        out[i] = octets[i] ^ masks[i];
    }
}

/// Takes the memory for the damage to the Iub frames of all sets of a direction, under each of two configurations.
/// Nothing waits.
pub fn open_sets(
    alloc: Global,
    first: &Accepted,
    second: &Accepted,
    dir: Dir,
) -> Result<Vec<IubDamage>, NoMemory>
    ensures { IfOk result (λ sets. AreNewSets first.now second.now dir 8 sets.items) }
{
    let mut sets = Vec::new(alloc);
    for set in 0..SETS {
        sets.push(IubDamage::open(alloc, first, second, dir, set)?)?;
    }
    Ok(sets)
}

/// The octets of the longest Iub frame of all sets.
pub fn longest_of_sets(sets: &[IubDamage]) -> usize
    requires { length sets.now ≡ 8 }
    ensures { (s : ℕ) → s < 8 → length (set_in sets.now s).masks ≤ result }
{
    let mut longest = 0;
    for set in 0..SETS {
        longest = longest.max(sets[set as usize].most_octets());
    }
    longest
}

/// The next Iub frame of a set is lost.
pub fn lose_set(sets: &mut [IubDamage], set: u8)
    requires { set < length sets.old }
    ensures { sets.new ≡ with_set sets.old set (λ tables. record tables { lost = true }) }
{
    sets[set as usize].lose();
}

/// Joins a mask to that of an octet of a set.
pub fn spoil_set(sets: &mut [IubDamage], set: u8, octet: u16, mask: u8)
    requires { set < length sets.old }
    ensures { sets.new ≡ with_set sets.old set (λ tables. record tables { masks = masked tables.masks octet mask }) }
{
    sets[set as usize].spoil(octet, mask);
}

/// Nothing waits for any set any more.
pub fn clear_sets(sets: &mut [IubDamage])
    requires { length sets.old ≡ 8 }
    ensures { AreClearedTo 8 sets.old sets.new }
{
    for set in 0..SETS {
        sets[set as usize].clear();
    }
}

/// What became of the Iub frame that was hit last, with memory for the longest one.
#[derive(Drop)]
pub struct IubBuffer {
    arrival: Arrival,
    octets: Vec<u8>,
    len: usize,
}

impl Model for IubBuffer {
    ghost use Rattle.std.specs.Prelude.{◌≤◌, length, take};
    ghost use Rattle.dch_damage.specs.Buffers.{IubArrival};
    ghost use Rattle.dch_damage.specs.Tables.{instead_of};

    ghost Value = { IubArrival };

    ghost view = { λ b. record {
      instead = instead_of b.arrival (take b.len b.octets.items);
      room = length b.octets.items;
    } };

    ghost invariant = { λ b. b.len ≤ length b.octets.items };
}

impl IubBuffer {
    /// Takes the memory for so many octets. Nothing was hit.
    pub fn open(alloc: Global, octets: usize) -> Result<IubBuffer, NoMemory>
        ensures { IfOk result (λ buffer. buffer ≡ record { instead = None; room = octets }) }
    {
        Ok(IubBuffer {
            arrival: Arrival::AsSent,
            octets: vec![in alloc; 0; octets]?,
            len: 0,
        })
    }

    /// What arrives of the Iub frame that was hit last and is given once more: it is lent on where no damage waited for
    /// it.
    pub fn arriving<'a>(&'a self, sent: Option<&'a [u8]>) -> Option<&'a [u8]>
        ensures { octets_of result ≡ received self.now.instead (octets_of sent.entry) }
    {
        match self.arrival {
            Arrival::AsSent => sent,
            Arrival::Lost => None,
            Arrival::Damaged => Some(&self.octets[..self.len]),
        }
    }

    /// Takes what becomes of an Iub frame that is hit by the damage. It is copied only where an octet may be masked.
    pub fn receive(&mut self, damage: &IubDamage, sent: Option<&[u8]>)
        requires table { IsIubWithin damage.now (octets_of sent) }
        requires room { length damage.now.masks ≤ self.old.room }
        ensures room { self.new.room ≡ self.old.room }
        ensures arrives { received self.new.instead (octets_of sent.entry) ≡
            iub_through damage.now (octets_of sent.entry) }
    {
        self.arrival = Arrival::AsSent;
        if damage.lost {
            self.arrival = Arrival::Lost;
        } else if damage.touched {
            if let Some(octets) = sent {
                mask_octets(&damage.masks, octets, &mut self.octets);
                self.len = octets.len();
                self.arrival = Arrival::Damaged;
            }
        }
    }
}
