ghost use Rattle.std.specs.Prelude.{◌≡◌, ◌<◌, ◌≤◌, ℕ, length, slice_index_or};
ghost use Rattle.dch_frame.specs.declared.pattern.Kind.TheVariants.{Repeat, Puncture};
ghost use Rattle.dch_frame.specs.Patterns.{InRange, IsWellFormed, copies_below};
ghost use Rattle.dch_frame.specs.Stages.{AreKept, origin_of};

use crate::pattern::{Kind, Pattern, Steps};

/// Writes each bit as often as rate matching keeps it (TS 25.212 4.2.7.5).
pub fn rate_match<T: Copy>(pattern: &Pattern, bits: &[T], out: &mut [T])
    requires pattern { IsWellFormed pattern.now }
    requires bits { length bits.now ≡ pattern.now.len }
    requires room { length out.old ≡ copies_below pattern.now.kind pattern.now.len }
    ensures { (k : ℕ) (d : T) → k < length out.new →
        slice_index_or out.new k d ≡ slice_index_or bits.now (origin_of pattern.now k) d }
{
    match &pattern.kind {
        Kind::Same => out.copy_from_slice(bits),
        Kind::Repeat(steps) => repeat_bits(steps, bits, out),
        Kind::Puncture(steps) => puncture_bits(steps, bits, out),
    }
}

/// Writes each bit, and again as often as the error counter says.
fn repeat_bits<T: Copy>(steps: &Steps, bits: &[T], out: &mut [T])
    requires steps { InRange steps.now }
    requires room { length out.old ≡ copies_below (Repeat steps.now) (length bits.now) }
    ensures { AreKept (Repeat steps.now) bits.now out.new (length out.new) }
{
    let mut counter = steps.e_ini;
    let mut at = 0;
    for bit in bits {
        out[at] = *bit;
        at += 1;
        while counter <= steps.e_minus {
            out[at] = *bit;
            at += 1;
            counter += steps.e_plus;
        }
        counter -= steps.e_minus;
    }
}

/// Writes the bits that the error counter doesn't remove.
fn puncture_bits<T: Copy>(steps: &Steps, bits: &[T], out: &mut [T])
    requires steps { InRange steps.now }
    requires once { steps.now.e_minus ≤ steps.now.e_plus }
    requires room { length out.old ≡ copies_below (Puncture steps.now) (length bits.now) }
    ensures { AreKept (Puncture steps.now) bits.now out.new (length out.new) }
{
    let mut counter = steps.e_ini;
    let mut at = 0;
    for bit in bits {
        if counter <= steps.e_minus {
            counter += steps.e_plus;
        } else {
            out[at] = *bit;
            at += 1;
        }
        counter -= steps.e_minus;
    }
}
