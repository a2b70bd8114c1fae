ghost use Rattle.std.specs.Prelude.{◌≡◌, ◌+◌, ◌^◌, ◌<◌, ◌≤◌, ℕ, List, length, slice_index_or};
ghost use Rattle.dch_bits.specs.declared.bit.Bit.{Bit};
ghost use Rattle.dch_bits.specs.declared.bit.Bit.TheVariants.{Zero};
ghost use Rattle.dch_bits.specs.declared.bit.Trit.TheVariants.{Off};
ghost use Rattle.dch_bits.specs.declared.bit.Vote.{Vote};
ghost use Rattle.dch_frame.specs.declared.pattern.Kind.TheVariants.{Repeat, Puncture};
ghost use Rattle.dch_frame.specs.Patterns.{InRange, IsWellFormed, copies, copies_below};
ghost use Rattle.dch_frame.specs.Stages.{as_cell, origin_of};
ghost use Rattle.dch_frame.specs.Votes.{AreCounted, vote_of, votes_of, copies_as_votes};

use crate::pattern::{Kind, Pattern, Steps};
use dch_bits::{Trit, Vote};

/// Counts the votes for each bit of a stream: the received cells that show its copies. Off is no vote.
pub fn count_votes(pattern: &Pattern, cells: &[Trit], out: &mut [Vote])
    requires pattern { IsWellFormed pattern.now }
    requires cells { length cells.now ≡ copies_below pattern.now.kind pattern.now.len }
    requires room { length out.old ≡ pattern.now.len }
    ensures votes { (m : ℕ) (v : Vote) → m < length out.new →
        slice_index_or out.new m v ≡ votes_of pattern.now cells.now m }
    ensures few { (m : ℕ) (v : Vote) → m < length out.new →
        (slice_index_or out.new m v).zeros + (slice_index_or out.new m v).ones ≤ copies pattern.now.kind m }
    ensures undamaged { (bits : List Bit) →
        ((k : ℕ) → k < length cells.now → slice_index_or cells.now k Off ≡
        as_cell (slice_index_or bits (origin_of pattern.now k) Zero)) →
        (m : ℕ) (v : Vote) → m < length out.new → slice_index_or out.new m v ≡
        copies_as_votes (slice_index_or bits m Zero) (copies pattern.now.kind m) }
{
    count(pattern, cells, out);
}

fn count(pattern: &Pattern, cells: &[Trit], out: &mut [Vote])
    requires pattern { IsWellFormed pattern.now }
    requires cells { length cells.now ≡ copies_below pattern.now.kind pattern.now.len }
    requires room { length out.old ≡ pattern.now.len }
    ensures { AreCounted pattern.now.kind cells.now out.new (length out.new) }
{
    match &pattern.kind {
        Kind::Same => count_same(cells, out),
        Kind::Repeat(steps) => count_repeated(steps, cells, out),
        Kind::Puncture(steps) => count_punctured(steps, cells, out),
    }
}

/// Counts the votes for bits that have one cell each.
fn count_same(cells: &[Trit], out: &mut [Vote])
    requires { length cells.now ≡ length out.old }
    ensures { (m : ℕ) (v : Vote) → m < length out.new →
        slice_index_or out.new m v ≡ vote_of (slice_index_or cells.now m Off) }
{
    for m in 0..out.len() {
        out[m] = vote_of(cells[m]);
    }
}

/// Counts the votes for bits that are repeated by the error counter (TS 25.212 4.2.7.5).
fn count_repeated(steps: &Steps, cells: &[Trit], out: &mut [Vote])
    requires steps { InRange steps.now }
    requires cells { length cells.now ≡ copies_below (Repeat steps.now) (length out.old) }
    requires few { length cells.now < 2 ^ 32 }
    ensures { AreCounted (Repeat steps.now) cells.now out.new (length out.new) }
{
    let mut counter = steps.e_ini;
    let mut at = 0;
    for m in 0..out.len() {
        let mut vote = vote_of(cells[at]);
        at += 1;
        while counter <= steps.e_minus {
            vote = with_cell(vote, cells[at]);
            at += 1;
            counter += steps.e_plus;
        }
        counter -= steps.e_minus;
        out[m] = vote;
    }
}

/// Counts the votes for bits of which the error counter removes some (TS 25.212 4.2.7.5): those have none.
fn count_punctured(steps: &Steps, cells: &[Trit], out: &mut [Vote])
    requires steps { InRange steps.now }
    requires once { steps.now.e_minus ≤ steps.now.e_plus }
    requires cells { length cells.now ≡ copies_below (Puncture steps.now) (length out.old) }
    ensures { AreCounted (Puncture steps.now) cells.now out.new (length out.new) }
{
    let mut counter = steps.e_ini;
    let mut at = 0;
    for m in 0..out.len() {
        if counter <= steps.e_minus {
            out[m] = Vote { zeros: 0, ones: 0 };
            counter += steps.e_plus;
        } else {
            out[m] = vote_of(cells[at]);
            at += 1;
        }
        counter -= steps.e_minus;
    }
}

/// The votes of the cells Zero, One and Off.
static VOTES: [Vote; 3] = [
    Vote { zeros: 1, ones: 0 },
    Vote { zeros: 0, ones: 1 },
    Vote { zeros: 0, ones: 0 },
];

fn vote_of(cell: Trit) -> Vote
    ensures { result ≡ vote_of cell }
{
    VOTES[cell as usize]
}

/// A vote with that of one cell more.
fn with_cell(vote: Vote, cell: Trit) -> Vote
    requires { vote.zeros + vote.ones + 1 < 2 ^ 32 }
    ensures zeros { result.zeros ≡ vote.zeros + (vote_of cell).zeros }
    ensures ones { result.ones ≡ vote.ones + (vote_of cell).ones }
{
    let more = vote_of(cell);
    Vote {
        zeros: vote.zeros + more.zeros,
        ones: vote.ones + more.ones,
    }
}
