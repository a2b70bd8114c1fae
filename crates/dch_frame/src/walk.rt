ghost use Rattle.std.specs.Prelude.{◌≡◌, ◌<◌, ◌≤◌, ◌+◌, ◌-◌, ◌*◌, ◌^◌, ◌↔◌, if◌then◌else◌, IsTrue};
ghost use Rattle.dch_frame.specs.Patterns.{IsWellFormed, InRange, copies};

use crate::pattern::{Kind, Pattern, Steps};
use std::marker::Model;

/// A walk over the bits of a stream by the error counter (TS 25.212 4.2.7.5). It gives the number of copies of one bit
/// after another, in a step that neither divides nor multiplies.
#[derive(Drop)]
pub struct Walk {
    pattern: Pattern,
    bit: u32,
    counter: u64,
}

impl Model for Walk {
    ghost use Rattle.std.specs.Prelude.{◌≡◌, ◌≤◌};
    ghost use Rattle.dch_frame.specs.Patterns.{IsWellFormed};
    ghost use Rattle.dch_frame.specs.Walks.{Place, counter_at};

    ghost Value = { Place };

    ghost view = { λ w. record { pattern = w.pattern; bit = w.bit } };

    ghost invariant = { λ w. (w.counter ≡ counter_at w.pattern.kind w.bit) × (w.bit ≤ w.pattern.len) ×
        IsWellFormed w.pattern };
}

impl Walk {
    /// A walk that stands before the first bit.
    pub fn new(pattern: &Pattern) -> Self
        requires { IsWellFormed pattern.now }
        ensures pattern { result.pattern ≡ pattern.now }
        ensures first { result.bit ≡ 0 }
    {
        let counter = match &pattern.kind {
            Kind::Same => 0,
            Kind::Repeat(steps) => steps.e_ini,
            Kind::Puncture(steps) => steps.e_ini,
        };
        Walk {
            pattern: *pattern,
            bit: 0,
            counter,
        }
    }

    /// Whether all bits were passed.
    pub fn is_done(&self) -> bool
        ensures { IsTrue result ↔ (self.now.pattern.len ≤ self.now.bit) }
    {
        self.bit >= self.pattern.len
    }

    /// The number of copies of the next bit.
    pub fn next(&mut self) -> u32
        requires { self.old.bit < self.old.pattern.len }
        ensures copies { result ≡ copies self.old.pattern.kind self.old.bit }
        ensures moved { self.new ≡ record self.old { bit = self.old.bit + 1 } }
    {
        let (counter, copies) = match &self.pattern.kind {
            Kind::Same => (self.counter, 1),
            Kind::Repeat(steps) => {
                let (counter, added) = repeated(steps, self.counter);
                (counter, (1 + added) as u32)
            }
            Kind::Puncture(steps) => {
                let (counter, removed) = punctured(steps, self.counter);
                (counter, if removed { 0 } else { 1 })
            }
        };
        self.counter = counter;
        self.bit += 1;
        copies
    }
}

/// The counter after one bit that may be repeated, and the number of copies that are added.
fn repeated(steps: &Steps, counter: u64) -> (u64, u64)
    requires steps { InRange steps.now }
    requires positive { 1 ≤ counter }
    requires bounded { counter ≤ steps.now.e_plus }
    ensures step { result.0 + steps.now.e_minus ≡ counter + result.1 * steps.now.e_plus }
    ensures positive { 1 ≤ result.0 }
    ensures bounded { result.0 ≤ steps.now.e_plus }
{
    let mut after = counter;
    let mut added = 0;
    while after <= steps.e_minus {
        after += steps.e_plus;
        added += 1;
    }
    (after - steps.e_minus, added)
}

/// The counter after one bit that may be removed, and whether it is.
fn punctured(steps: &Steps, counter: u64) -> (u64, bool)
    requires steps { InRange steps.now }
    requires few { steps.now.e_minus ≤ steps.now.e_plus }
    requires positive { 1 ≤ counter }
    requires bounded { counter ≤ steps.now.e_plus }
    ensures step { result.0 + steps.now.e_minus ≡ counter + (if result.1 then 1 else 0) * steps.now.e_plus }
    ensures positive { 1 ≤ result.0 }
    ensures bounded { result.0 ≤ steps.now.e_plus }
{
    if counter <= steps.e_minus {
        (counter + steps.e_plus - steps.e_minus, true)
    } else {
        (counter - steps.e_minus, false)
    }
}
