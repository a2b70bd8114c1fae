ghost use Rattle.std.specs.Prelude.{◌≡◌, ◌+◌, ◌*◌, ◌<◌, ◌≤◌, ◌-◌, ℕ, length, slice_index};
ghost use Rattle.dch_tree.specs.Bearers.{bearer_at};
ghost use Rattle.dch_mac.specs.Asked.{IsAsked, priority_of};
ghost use Rattle.dch_mac.specs.Offered.{given_by, waiting, waiting_at};

use crate::moment::Moment;
use dch_types::{Bearer, Format};

impl Moment<'_> {
    /// Writes the bits that channel `i` carries in a format for each priority. The result is how many blocks it doesn't
    /// find.
    pub(crate) fn carry(&self, i: usize, format: Format, carried: &mut [u32]) -> u32
        requires few { format.number ≤ 64 }
        requires short { format.size ≤ 5000 }
        requires eight { length carried.old ≡ 8 }
        ensures missing { result ≡ format.number - waiting self.now i format.size }
        ensures bits { (q : ℕ) → q < 8 → slice_index carried.new q ≡ given_by self.now i format (q + 1) * format.size }
        ensures small { (q : ℕ) → q < 8 → slice_index carried.new q ≤ 320000 }
    {
        let counts = self.counts(i, format.size);
        let mut left = u32::from(format.number);
        for q in 0..8usize {
            let blocks = left.min(counts[q]);
            carried[q] = bits(blocks, format.size);
            left -= blocks;
        }
        left
    }

    /// The blocks of this size that wait for channel `i` at each priority.
    fn counts(&self, i: usize, size: u16) -> [u32; 8]
        ensures counts { (q : ℕ) → q < 8 → slice_index result q ≡ waiting_at self.now i size (q + 1) }
        ensures asked { IsAsked self.now }
    {
        let mut counts = [0; 8];
        for bearer in 0..self.bearers.len() {
            let place = self.place(bearer);
            counts[place] += u32::from(self.offered(i, size, bearer));
        }
        counts
    }

    /// The place of a bearer's priority in a list for priorities 1 to 8.
    fn place(&self, bearer: usize) -> usize
        requires { bearer < length self.now.bearers }
        ensures value { result + 1 ≡ priority_of self.now bearer }
        ensures within { result < 8 }
    {
        priority(self.bearers, bearer) as usize - 1
    }
}

/// The bits of some blocks of this size.
pub(crate) fn bits(blocks: u32, size: u16) -> u32
    requires few { blocks ≤ 64 }
    requires short { size ≤ 5000 }
    ensures value { result ≡ blocks * size }
    ensures small { result ≤ 320000 }
{
    blocks * u32::from(size)
}

fn priority(bearers: &[Bearer], b: usize) -> u8
    requires { b < length bearers.now }
    ensures { result ≡ (bearer_at bearers.now b).priority }
{
    bearers[b].priority
}
