ghost use Rattle.std.specs.Prelude.{◌≡◌, ◌≢◌, ℕ, ◌+◌, ◌-◌, ◌/◌, ◌%◌, ◌<◌, ◌≤◌, ◌==◌, true, false, slice_index};
ghost use Rattle.std.specs.Int.{bit_at};
ghost use Rattle.dch_retx.specs.RequestSet.{is_in, has};

use std::marker::Model;

/// The bits of a word.
const BITS: usize = 64;

/// The words of a set. Their bits are as many as numbers are.
const WORDS: usize = 64;

/// The places of the PDUs in flight that are requested: a bit for each of 4,096 numbers, more than the largest window.
/// PDUs that leave in front move the first place and no bit.
#[derive(Drop)]
pub struct RequestSet {
    words: [u64; WORDS],
    first: usize,
}

impl Model for RequestSet {
    ghost use Rattle.std.specs.Prelude.{◌<◌};
    ghost use Rattle.dch_retx.specs.RequestSet.{RequestSet};

    ghost Value = { RequestSet };

    ghost view = { λ s. record { words = s.words; first = s.first } };

    ghost invariant = { λ s. s.first < 4096 };
}

impl RequestSet {
    /// No place is in it.
    pub fn new() -> RequestSet
        ensures { (i : ℕ) → is_in result i ≡ false }
    {
        RequestSet {
            words: [0; WORDS],
            first: 0,
        }
    }

    /// A place comes in.
    pub fn insert(&mut self, i: usize)
        requires { i < 4096 }
        ensures here { is_in self.new i ≡ true }
        ensures others { (j : ℕ) → j < 4096 → j ≢ i → is_in self.new j ≡ is_in self.old j }
    {
        let n = self.first + i;
        self.words[n / BITS % WORDS] |= 1 << (n % BITS);
    }

    /// A place goes.
    pub fn remove(&mut self, i: usize)
        requires { i < 4096 }
        ensures here { is_in self.new i ≡ false }
        ensures others { (j : ℕ) → j < 4096 → j ≢ i → is_in self.new j ≡ is_in self.old j }
    {
        let n = self.first + i;
        self.words[n / BITS % WORDS] &= !(1u64 << (n % BITS));
    }

    /// So many places in front leave. They stand behind all others then.
    pub fn leave(&mut self, count: usize)
        requires { count ≤ 4096 }
        ensures nearer { (i : ℕ) → count + i < 4096 → is_in self.new i ≡ is_in self.old (count + i) }
        ensures behind { (i : ℕ) → i < count → is_in self.new (4096 - count + i) ≡ is_in self.old i }
    {
        self.first = (self.first + count) % (BITS * WORDS);
    }

    /// No place is in it any more.
    pub fn clear(&mut self)
        ensures { (i : ℕ) → is_in self.new i ≡ false }
    {
        self.words = [0; WORDS];
    }

    /// The first place that is in it, from one on and before another; that other where none is. Goes word by word.
    pub fn next(&self, from: usize, to: usize) -> usize
        requires order { from ≤ to }
        requires most { to ≤ 4096 }
        ensures from { from ≤ result }
        ensures within { result ≤ to }
        ensures before { (j : ℕ) → from ≤ j → j < result → is_in self.now j ≡ false }
        ensures here { result < to → is_in self.now result ≡ true }
    {
        let mut i = from;
        while i < to {
            let n = self.first + i;
            let rest = rest_at(&self.words, n);
            if rest != 0 {
                return to.min(i + zeros(rest));
            }
            i += BITS - n % BITS;
        }
        to
    }
}

/// The bits of a word from that of a number on.
fn rest_at(words: &[u64; WORDS], n: usize) -> u64
    ensures bits { (k : ℕ) → n % 64 + k < 64 → (bit_at result k == 1) ≡ has words.now (n + k) }
    ensures above { (k : ℕ) → 64 ≤ n % 64 + k → bit_at result k ≡ 0 }
{
    words[n / BITS % WORDS] >> (n % BITS)
}

/// How many bits are 0 before the first that is 1.
fn zeros(rest: u64) -> usize
    requires { 0 < rest }
    ensures here { bit_at rest result ≡ 1 }
    ensures before { (k : ℕ) → k < result → bit_at rest k ≡ 0 }
    ensures few { result < 64 }
{
    rest.trailing_zeros() as usize
}
