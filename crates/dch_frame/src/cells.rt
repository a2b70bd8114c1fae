ghost use Rattle.std.specs.Prelude.{◌≡◌, ◌<◌, ℕ, length, slice_index_or};
ghost use Rattle.dch_bits.specs.declared.bit.Bit.TheVariants.{Zero};
ghost use Rattle.dch_bits.specs.declared.bit.Trit.TheVariants.{Off};
ghost use Rattle.dch_frame.specs.Stages.{as_cell};

use dch_bits::{Bit, Trit};

/// Writes the cells that show bits.
pub fn show(bits: &[Bit], out: &mut [Trit])
    requires { length out.old ≡ length bits.now }
    ensures { (k : ℕ) → k < length out.new → slice_index_or out.new k Off ≡ as_cell (slice_index_or bits.now k Zero) }
{
    for k in 0..out.len() {
        out[k] = match bits[k] {
            Bit::Zero => Trit::Zero,
            Bit::One => Trit::One,
        };
    }
}
