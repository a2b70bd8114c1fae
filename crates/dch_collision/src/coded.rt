ghost use Rattle.std.specs.Prelude.{◌≡◌, ℕ, ◌<◌, ◌≤◌, ◌+◌, ◌*◌, List, false, true, length, slice_index_or};
ghost use Rattle.dch_bits.specs.declared.bit.Bit.{Bit};
ghost use Rattle.dch_coding.specs.Conv.{coded_length, outputs};
ghost use Rattle.dch_collision.specs.Collisions.{copies_kept, IsFirstCollision, NoneCollide};
ghost use Rattle.dch_collision.specs.Hidden.{coding_of, is_punctured, IsHidden, IsFirstHidden};

use crate::votes::{fill, removed};
use dch_bits::{Bit, Vote};
use dch_coding::Rate;
use dch_trellis::Trellis;

/// Whether two blocks of a rate collide. The first of them is looked for only where two quicker tests let it.
pub fn find_coded(
    trellis: &mut Trellis,
    rate: Rate,
    filler: usize,
    sent_flags: &[bool],
    votes: &mut [Vote],
    out: &mut [Bit],
) -> bool
    requires longest { length out.old ≤ trellis.old }
    requires short { length out.old ≤ 504 }
    requires filler { filler ≤ length out.old }
    requires coded { length sent_flags.now ≡ coded_length rate (length out.old) }
    requires votes { length sent_flags.now ≤ length votes.old }
    ensures found { result ≡ true → IsFirstCollision (coding_of rate)
        (length out.old) filler (copies_kept sent_flags.now) out.new }
    ensures none { result ≡ false → NoneCollide (coding_of rate) (length out.old) filler (copies_kept sent_flags.now) }
    ensures same { trellis.new ≡ trellis.old }
{
    let votes = &mut votes[..sent_flags.len()];
    if !has_punctured_step(rate, filler, out.len(), sent_flags) {
        return false;
    }
    if !may_collide(trellis, rate, filler, sent_flags, votes, out) {
        return false;
    }
    last_start(trellis, rate, filler, sent_flags, votes, out)
}

/// Whether some block may look like zeros. A sent bit votes for Zero with more weight than all lost bits have together,
/// and a lost bit votes for One. Zeros cost as much as there are lost bits, and a block that looks like them costs
/// less.
fn may_collide(
    trellis: &mut Trellis,
    rate: Rate,
    filler: usize,
    sent_flags: &[bool],
    votes: &mut [Vote],
    out: &mut [Bit],
) -> bool
    requires longest { length out.old ≤ trellis.old }
    requires some { 1 ≤ length out.old }
    requires short { length out.old ≤ 504 }
    requires filler { filler ≤ length out.old }
    requires coded { length sent_flags.now ≡ coded_length rate (length out.old) }
    requires votes { length votes.old ≡ length sent_flags.now }
    ensures none { result ≡ false → NoneCollide (coding_of rate) (length out.old) filler (copies_kept sent_flags.now) }
    ensures same { trellis.new ≡ trellis.old }
{
    let removed = removed(sent_flags);
    fill(sent_flags, removed + 1, 1, votes);
    trellis.nearest(rate, votes, filler, out) < removed
}

/// Whether after the filler no output of some step is sent.
fn has_punctured_step(rate: Rate, filler: usize, size: usize, sent_flags: &[bool]) -> bool
    requires short { size ≤ 504 }
    requires coded { length sent_flags.now ≡ coded_length rate size }
    ensures some { result ≡ true → 1 ≤ size }
    ensures none { result ≡ false → (k : ℕ) → filler ≤ k → k < size → is_punctured rate sent_flags.now k ≡ false }
{
    for k in filler..size {
        if is_punctured(rate, sent_flags, k) {
            return true;
        }
    }
    false
}

/// Whether no output of step `k` is sent.
fn is_punctured(rate: Rate, sent_flags: &[bool], k: usize) -> bool
    requires short { k < 504 }
    requires inside { outputs rate * (k + 1) ≤ length sent_flags.now }
    ensures { result ≡ is_punctured rate sent_flags.now k }
{
    match rate {
        Rate::Half => !sent_flags[2 * k] && !sent_flags[2 * k + 1],
        Rate::Third => !sent_flags[3 * k] && !sent_flags[3 * k + 1] && !sent_flags[3 * k + 2],
    }
}

/// Looks for a block that is not shown from zeros, with its first One as late as possible.
fn last_start(
    trellis: &mut Trellis,
    rate: Rate,
    filler: usize,
    sent_flags: &[bool],
    votes: &mut [Vote],
    out: &mut [Bit],
) -> bool
    requires longest { length out.old ≤ trellis.old }
    requires short { length out.old ≤ 504 }
    requires filler { filler ≤ length out.old }
    requires coded { length sent_flags.now ≡ coded_length rate (length out.old) }
    requires votes { length votes.old ≡ length sent_flags.now }
    ensures found { result ≡ true → IsFirstCollision (coding_of rate)
        (length out.old) filler (copies_kept sent_flags.now) out.new }
    ensures none { result ≡ false → NoneCollide (coding_of rate) (length out.old) filler (copies_kept sent_flags.now) }
    ensures same { trellis.new ≡ trellis.old }
{
    let size = out.len();
    for done in 0..size - filler {
        if starts(trellis, rate, size - 1 - done, sent_flags, votes, out) {
            return true;
        }
    }
    false
}

/// Whether a block with its first One at bit `k` is not shown from zeros; `out` becomes the first such block. All
/// outputs of that step are the bit itself, so none is sent, and a vote asks for a One in the first.
fn starts(
    trellis: &mut Trellis,
    rate: Rate,
    k: usize,
    sent_flags: &[bool],
    votes: &mut [Vote],
    out: &mut [Bit],
) -> bool
    requires longest { length out.old ≤ trellis.old }
    requires inside { k < length out.old }
    requires short { length out.old ≤ 504 }
    requires coded { length sent_flags.now ≡ coded_length rate (length out.old) }
    requires votes { length votes.old ≡ length sent_flags.now }
    ensures found { result ≡ true → IsFirstHidden rate sent_flags.now (length out.old) k out.new }
    ensures none { result ≡ false → (other : List Bit) → IsHidden rate sent_flags.now (length out.old) k other → ⊥ }
    ensures same { trellis.new ≡ trellis.old }
{
    if !is_punctured(rate, sent_flags, k) {
        return false;
    }
    let at = first_output(rate, k);
    fill(sent_flags, 1, 0, votes);
    votes[at] = Vote { zeros: 0, ones: 1 };
    trellis.nearest(rate, votes, k, out) == 0
}

/// The place of the first coded bit of step `k`.
fn first_output(rate: Rate, k: usize) -> usize
    requires { k < 504 }
    ensures { result ≡ outputs rate * k }
{
    match rate {
        Rate::Half => 2 * k,
        Rate::Third => 3 * k,
    }
}
