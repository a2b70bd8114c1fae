ghost use Rattle.std.specs.Prelude.{◌≡◌, ◌<◌, [], ◌∷◌, ◌++◌, IfOk, Some, length, slice_get};

use dch_bits::NoMemory;
use std::alloc::Global;
use std::marker::Model;

/// Units, one after another. It takes memory as it grows.
#[derive(Drop)]
pub struct Store {
    octets: Vec<u8>,
    spans: Vec<(usize, usize)>,
}

impl Model for Store {
    ghost use Rattle.std.specs.Prelude.{List, ℕ, All, length, ◌≤◌};
    ghost use Rattle.dch_pair.specs.Spans.{spanned};

    ghost Value = { List (List ℕ) };

    ghost view = { λ s. spanned s.octets.items s.spans.items };

    ghost invariant = { λ s. All (λ p. (p.0 ≤ p.1) × (p.1 ≤ length s.octets.items)) s.spans.items };
}

impl Store {
    /// No unit.
    pub fn new(alloc: Global) -> Store
        ensures { result ≡ [] }
    {
        Store {
            octets: Vec::new(alloc),
            spans: Vec::new(alloc),
        }
    }

    /// How many units there are.
    pub fn len(&self) -> usize
        ensures { result ≡ length self.now }
    {
        self.spans.len()
    }

    /// Unit `i`.
    pub fn unit(&self, i: usize) -> &[u8]
        requires { i < length self.now }
        ensures { slice_get self.now i ≡ Some result.now }
    {
        let (start, end) = self.spans[i];
        &self.octets[start..end]
    }

    /// One unit more.
    pub fn push(&mut self, unit: &[u8]) -> Result<(), NoMemory>
        ensures { IfOk result (λ _. self.new ≡ self.old ++ unit.now ∷ []) }
    {
        let start = self.octets.len();
        self.octets.extend_from_slice(unit)?;
        self.spans.push((start, self.octets.len()))?;
        Ok(())
    }
}
