ghost use Rattle.std.specs.Prelude.{◌≡◌, ◌≤◌, ◌==◌, ◌∷◌, [], All, IfOk, IsSomeAnd, length, slice_get};
ghost use Rattle.std.specs.List.{list_any};
ghost use Rattle.dch_rlctm.specs.Waiting.{answer_of, after_offer, front_of};

use circular_buffer::HeapCircularBuffer;
use dch_bits::{Bit, NoMemory, Offer};
use std::alloc::Global;
use std::marker::Model;

/// The most units that an entity offers one after another.
const MOST_UNITS: u16 = 64;

/// The sending side of a transparent bearer: units that wait, each to be sent as one block. The bits of all units stand
/// in one ring and their sizes in another, and both are taken when it is opened.
#[derive(Drop)]
pub struct TmSend {
    sizes: HeapCircularBuffer<u16>,
    bits: HeapCircularBuffer<Bit>,
    most: u16,
}

impl Model for TmSend {
    ghost use Rattle.std.specs.Prelude.{◌≡◌, ◌*◌};
    ghost use Rattle.dch_rlctm.specs.Waiting.{Waiting, cut, IsStored};

    ghost Value = { Waiting };

    ghost view = { λ s. record { units = cut s.sizes.items s.bits.items; buffer = s.sizes.capacity; most = s.most } };

    ghost invariant = { λ s. IsStored s.sizes.items s.bits.items s.most ×
        (s.bits.capacity ≡ s.sizes.capacity * s.most) };
}

impl TmSend {
    /// A sender in which at most `buffer` units wait, each of at most `most` bits.
    pub fn open(alloc: Global, buffer: u16, most: u16) -> Result<TmSend, NoMemory>
        ensures { IfOk result (λ sender. sender ≡ record { units = []; buffer = buffer; most = most }) }
    {
        let bits = HeapCircularBuffer::with_capacity(alloc, buffer as usize * most as usize)?;
        let sizes = HeapCircularBuffer::with_capacity(alloc, buffer as usize)?;
        Ok(TmSend { sizes, bits, most })
    }

    /// Offers a unit, whose size must be one of `sizes`: those of the bearer's transport formats, in bits.
    pub fn offer(&mut self, sizes: &[u16], unit: &[Bit]) -> Offer
        requires { All (λ size. size ≤ self.old.most) sizes.now }
        ensures answer { result ≡ answer_of sizes.now unit.now self.old }
        ensures after { self.new ≡ after_offer result unit.now self.old }
    {
        if unit.is_empty() || !has_size(sizes, unit.len()) {
            return Offer::WrongSize;
        }
        match self.sizes.try_push_back(unit.len() as u16) {
            Ok(()) => {
                let _ = self.bits.fill_from_slice(unit);
                Offer::Accepted
            }
            Err(_) => Offer::Full,
        }
    }

    /// The size of the first unit in bits, and how many units in front have this size, at most 64. Both are 0 where no
    /// unit waits.
    pub fn available(&self) -> (u16, u16)
        ensures { result ≡ front_of self.now.units }
    {
        let Some(first) = self.sizes.front().copied() else {
            return (0, 0);
        };
        for k in 0..MOST_UNITS {
            if self.sizes.get(k as usize).copied() != Some(first) {
                return (first, k);
            }
        }
        (first, MOST_UNITS)
    }

    /// Takes the first unit, which must have as many bits as `out`.
    pub fn build(&mut self, out: &mut [Bit])
        requires { IsSomeAnd (slice_get self.old.units 0) (λ unit. length unit ≡ length out.old) }
        ensures { self.old ≡ record self.new { units = out.new ∷ self.new.units } }
    {
        let _ = self.sizes.pop_front();
        let _ = self.bits.read_into(out);
    }
}

fn has_size(sizes: &[u16], n: usize) -> bool
    ensures { result ≡ list_any (λ size. size == n) sizes.now }
{
    sizes.iter().any(|size| *size as usize == n)
}
