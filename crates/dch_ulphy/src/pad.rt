ghost use Rattle.std.specs.Prelude.{◌≡◌, ◌<◌, ◌≤◌, ◌+◌, ◌*◌, ◌%◌, ℕ, length, slice_index_or};
ghost use Rattle.dch_bits.specs.declared.bit.Bit.TheVariants.{Zero};
ghost use Rattle.dch_bits.specs.declared.bit.Trit.TheVariants.{Off};
ghost use Rattle.dch_types.specs.Limits.{IsFrames};
ghost use Rattle.dch_frame.specs.Stages.{as_cell};
ghost use Rattle.dch_types.specs.Lengths.{padded};

use dch_bits::{Bit, Trit};
use dch_frame::show;
use dch_inter::equalise;

/// Writes the coded bits of a TTI to the front of `out` as cells, with zeros behind them up to whole radio frames, and
/// answers how many cells there are (TS 25.212 4.2.4).
pub fn pad(frames: usize, coded: &[Bit], out: &mut [Trit]) -> usize
    requires frames { IsFrames frames }
    requires short { length coded.now ≤ 131072 }
    requires room { padded (length coded.now) frames ≤ length out.old }
    ensures long { result ≡ padded (length coded.now) frames }
    ensures whole { result % frames ≡ 0 }
    ensures fits { result ≤ length out.new }
    ensures cells { (p : ℕ) → p < result → slice_index_or out.new p Off ≡ as_cell (slice_index_or coded.now p Zero) }
{
    let len = equalise(coded.len(), frames);
    show_padded(coded, &mut out[..len]);
    len
}

/// Writes coded bits as cells, with zeros behind them.
fn show_padded(coded: &[Bit], out: &mut [Trit])
    requires room { length coded.now ≤ length out.old }
    ensures { (p : ℕ) → p < length out.new → slice_index_or out.new p Off ≡ as_cell (slice_index_or coded.now p Zero) }
{
    let (bits, padding) = out.split_at_mut(coded.len());
    show(coded, bits);
    padding.fill(Trit::Zero);
}
