ghost use Rattle.std.specs.Prelude.{◌≡◌, ◌<◌, ◌≤◌, ◌+◌, ◌*◌, ◌%◌, ℕ, length, take, slice_index_or};
ghost use Rattle.dch_bits.specs.declared.bit.Trit.TheVariants.{Off};
ghost use Rattle.dch_types.specs.Lengths.{padded};
ghost use Rattle.dch_types.specs.Limits.{IsFrames};
ghost use Rattle.dch_frame.specs.Patterns.{IsWellFormed, copies_below};
ghost use Rattle.dch_dlphy.specs.Loaded.{filled_cell};
ghost use Rattle.dch_stages.specs.Cells.{equalised, equalised_cell, filled, matched, matched_cell};

use dch_bits::{Bit, Trit};
use dch_frame::{Pattern, kept, rate_match, show};
use dch_inter::equalise;

/// Writes the coded bits of an uplink TTI of so many radio frames to the front of `out`, with zeros behind them up to
/// whole radio frames, and answers how many cells there are (TS 25.212 4.2.4).
pub fn equalise_front(frames: usize, coded: &[Bit], out: &mut [Trit]) -> usize
    requires frames { IsFrames frames }
    requires short { length coded.now ≤ 131072 }
    requires room { padded (length coded.now) frames ≤ length out.old }
    ensures cells { take result out.new ≡ equalised frames coded.now }
    ensures long { result ≡ padded (length coded.now) frames }
    ensures fits { result ≤ length out.new }
{
    let len = equalise(coded.len(), frames);
    equalise_into(coded, &mut out[..len]);
    len
}

/// Writes coded bits as cells, with zeros behind them.
fn equalise_into(coded: &[Bit], out: &mut [Trit])
    requires room { length coded.now ≤ length out.old }
    ensures { (p : ℕ) → p < length out.new → slice_index_or out.new p Off ≡ equalised_cell coded.now p }
{
    let (bits, zeros) = out.split_at_mut(coded.len());
    show(coded, bits);
    zeros.fill(Trit::Zero);
}

/// Writes the coded bits of a downlink TTI that rate matching keeps to the front of `out`, and answers how many cells
/// these are (TS 25.212 4.2.7). `shown` is room for the coded bits as cells.
pub fn match_front(pattern: &Pattern, coded: &[Bit], shown: &mut [Trit], out: &mut [Trit]) -> usize
    requires pattern { IsWellFormed pattern.now }
    requires coded { length coded.now ≡ pattern.now.len }
    requires shown { length coded.now ≤ length shown.old }
    requires room { copies_below pattern.now.kind pattern.now.len ≤ length out.old }
    ensures cells { take result out.new ≡ matched pattern.now coded.now }
    ensures sum { result ≡ copies_below pattern.now.kind pattern.now.len }
    ensures fits { result ≤ length out.new }
{
    let len = kept(pattern) as usize;
    match_into(pattern, coded, &mut shown[..coded.len()], &mut out[..len]);
    len
}

fn match_into(pattern: &Pattern, coded: &[Bit], shown: &mut [Trit], out: &mut [Trit])
    requires pattern { IsWellFormed pattern.now }
    requires coded { length coded.now ≡ pattern.now.len }
    requires shown { length shown.old ≡ length coded.now }
    requires room { length out.old ≡ copies_below pattern.now.kind pattern.now.len }
    ensures { (p : ℕ) → p < length out.new → slice_index_or out.new p Off ≡ matched_cell pattern.now coded.now p }
{
    show(coded, shown);
    rate_match(pattern, shown, out);
}

/// Writes the coded bits of a downlink TTI that rate matching keeps to the front of `out`, with places behind them in
/// which nothing is sent, `count` in all (TS 25.212 4.2.9.1). `shown` is room for the coded bits as cells.
pub fn fill_front(
    pattern: &Pattern,
    coded: &[Bit],
    shown: &mut [Trit],
    out: &mut [Trit],
    count: usize,
)
    requires pattern { IsWellFormed pattern.now }
    requires coded { length coded.now ≡ pattern.now.len }
    requires shown { length coded.now ≤ length shown.old }
    requires fits { copies_below pattern.now.kind pattern.now.len ≤ count }
    requires room { count ≤ length out.old }
    ensures cells { take count out.new ≡ filled pattern.now count coded.now }
{
    fill_into(pattern, coded, &mut shown[..coded.len()], &mut out[..count]);
}

#[tactic(auto, unfolding(dch_dlphy::specs::Loaded::filled_cell))]
fn fill_into(pattern: &Pattern, coded: &[Bit], shown: &mut [Trit], out: &mut [Trit])
    requires pattern { IsWellFormed pattern.now }
    requires coded { length coded.now ≡ pattern.now.len }
    requires shown { length shown.old ≡ length coded.now }
    requires room { copies_below pattern.now.kind pattern.now.len ≤ length out.old }
    ensures { (p : ℕ) → p < length out.new → slice_index_or out.new p Off ≡ filled_cell pattern.now coded.now p }
{
    let (sent, rest) = out.split_at_mut(kept(pattern) as usize);
    match_into(pattern, coded, shown, sent);
    rest.fill(Trit::Off);
}
