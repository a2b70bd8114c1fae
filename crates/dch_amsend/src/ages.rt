ghost use Rattle.std.specs.Prelude.{◌≡◌, ℕ, ◌-◌, ◌^◌, ◌<◌, ◌≤◌, ◌++◌, [], ◌∷◌, IfOk, drop, length, slice_index};
ghost use Rattle.circular_buffer.specs.Buffer.{buffer};
ghost use Rattle.dch_amsend.specs.Ages.{aged, ages_at, since};

use circular_buffer::HeapCircularBuffer;
use dch_bits::NoMemory;
use std::alloc::Global;
use std::marker::Model;

/// The ages of SDUs in ticks, at most 65,535, the oldest first. Kept is the tick at which each was accepted, counted up
/// to 65,536, and how many in front are 65,535 ticks old.
#[derive(Drop)]
pub struct Ages {
    kept: HeapCircularBuffer<u16>,
    tick: u16,
    oldest: usize,
}

impl Model for Ages {
    ghost use Rattle.std.specs.Prelude.{ℕ};
    ghost use Rattle.circular_buffer.specs.Buffer.{Buffer, buffer};
    ghost use Rattle.dch_amsend.specs.Ages.{AreAges, ages_at};

    ghost Value = { Buffer ℕ };

    ghost view = { λ u. buffer (ages_at u.oldest u.tick u.kept.items) u.kept.capacity };

    ghost invariant = { λ u. AreAges u.oldest u.tick u.kept.items };
}

impl Ages {
    /// Room for so many SDUs. All memory is taken here.
    pub fn open(alloc: Global, most: u16) -> Result<Ages, NoMemory>
        ensures { IfOk result (λ u. u ≡ buffer [] most) }
    {
        let kept = HeapCircularBuffer::with_capacity(alloc, most as usize)?;
        Ok(Ages {
            kept,
            tick: 0,
            oldest: 0,
        })
    }

    /// How many SDUs there are.
    pub fn len(&self) -> usize
        ensures len { result ≡ length self.now.items }
        ensures within { (result ≤ self.now.capacity) × (self.now.capacity < 2 ^ 63) }
    {
        self.kept.len()
    }

    /// The age at a place. Those behind it are no older.
    pub fn at(&self, i: usize) -> u16
        requires { i < length self.now.items }
        ensures value { result ≡ slice_index self.now.items i }
        ensures oldest { (j : ℕ) → i ≤ j → slice_index self.now.items j ≤ result }
    {
        if i < self.oldest {
            65535
        } else {
            since(self.tick, tick_at(&self.kept, i))
        }
    }

    /// An SDU that is accepted now comes behind the others.
    pub fn push(&mut self)
        requires { length self.old.items < self.old.capacity }
        ensures { self.new ≡ buffer (self.old.items ++ 0 ∷ []) self.old.capacity }
    {
        self.kept.push_back(self.tick);
    }

    /// Only the last ones stay, so many.
    pub fn truncate_front(&mut self, len: usize)
        ensures { self.new ≡ buffer (drop (length self.old.items - len) self.old.items) self.old.capacity }
    {
        let excess = self.kept.len().saturating_sub(len);
        self.kept.truncate_front(len);
        self.oldest = self.oldest.saturating_sub(excess);
    }

    /// All are one tick older.
    pub fn tick(&mut self)
        ensures { self.new ≡ buffer (aged self.old.items) self.old.capacity }
    {
        let now = self.tick.wrapping_add(1);
        self.oldest = oldest_from(&self.kept, now, self.oldest);
        self.tick = now;
    }
}

/// How many ticks ago that was, up to 65,535.
fn since(now: u16, at: u16) -> u16
    ensures { result ≡ since now at }
{
    now.wrapping_sub(at)
}

/// The tick that is kept at a place.
fn tick_at(kept: &HeapCircularBuffer<u16>, i: usize) -> u16
    requires { i < length kept.now.items }
    ensures { result ≡ slice_index kept.now.items i }
{
    *kept.get(i).unwrap()
}

/// How many SDUs in front are 65,535 ticks old, where so many were before.
fn oldest_from(kept: &HeapCircularBuffer<u16>, now: u16, before: usize) -> usize
    requires { before ≤ length kept.now.items }
    ensures within { result ≤ length kept.now.items }
    ensures same { ages_at result now kept.now.items ≡ ages_at before now kept.now.items }
    ensures younger { slice_index (ages_at before now kept.now.items) result < 65535 }
{
    for i in before..kept.len() {
        if since(now, tick_at(kept, i)) < 65535 {
            return i;
        }
    }
    kept.len()
}
