ghost use Rattle.std.specs.Prelude.{◌≡◌, ◌<◌, ◌≤◌, ℕ, length, slice_index_or};
ghost use Rattle.dch_bits.specs.declared.bit.Trit.TheVariants.{Off};
ghost use Rattle.dch_frame.specs.Patterns.{IsWellFormed, copies_below};
ghost use Rattle.dch_dlphy.specs.Loaded.{filled_cell};

use dch_bits::{Bit, Trit};
use dch_frame::{Pattern, kept, rate_match, show};

/// Writes the cells of a TTI before the first interleaver: its coded bits after rate matching, and places in which
/// nothing is sent (TS 25.212 4.2.7.5, 4.2.9.1). `shown` is room for the coded bits as cells.
fn fill(pattern: &Pattern, coded: &[Bit], shown: &mut [Trit], out: &mut [Trit])
    requires pattern { IsWellFormed pattern.now }
    requires coded { length coded.now ≡ pattern.now.len }
    requires shown { length shown.old ≡ length coded.now }
    requires room { copies_below pattern.now.kind pattern.now.len ≤ length out.old }
    ensures { (p : ℕ) → p < length out.new → slice_index_or out.new p Off ≡ filled_cell pattern.now coded.now p }
{
    show(coded, shown);
    let (sent, rest) = out.split_at_mut(kept(pattern) as usize);
    rate_match(pattern, shown, sent);
    leave_off(rest);
}

/// Fills the first `count` places of a TTI.
pub fn fill_front(
    pattern: &Pattern,
    coded: &[Bit],
    shown: &mut [Trit],
    tti: &mut [Trit],
    count: usize,
)
    requires pattern { IsWellFormed pattern.now }
    requires coded { length coded.now ≡ pattern.now.len }
    requires shown { length coded.now ≤ length shown.old }
    requires fits { copies_below pattern.now.kind pattern.now.len ≤ count }
    requires room { count ≤ length tti.old }
    ensures { (p : ℕ) → p < count → slice_index_or tti.new p Off ≡ filled_cell pattern.now coded.now p }
{
    fill(pattern, coded, &mut shown[..coded.len()], &mut tti[..count]);
}

/// Makes each cell one in which nothing is sent.
pub fn leave_off(cells: &mut [Trit])
    ensures { (k : ℕ) → k < length cells.new → slice_index_or cells.new k Off ≡ Off }
{
    for k in 0..cells.len() {
        cells[k] = Trit::Off;
    }
}
