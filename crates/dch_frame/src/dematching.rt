ghost use Rattle.std.specs.Prelude.{◌≡◌, ◌≢◌, ◌+◌, ◌*◌, ◌<◌, ◌≤◌, ℕ, List, length, slice_index_or};
ghost use Rattle.dch_bits.specs.declared.bit.Bit.{Bit};
ghost use Rattle.dch_bits.specs.declared.bit.Bit.TheVariants.{Zero};
ghost use Rattle.dch_bits.specs.declared.bit.Trit.TheVariants.{Off};
ghost use Rattle.dch_bits.specs.declared.bit.Vote.{Vote};
ghost use Rattle.dch_inter.specs.Places.{frame_of, place_of};
ghost use Rattle.dch_types.specs.Limits.{IsFrames};
ghost use Rattle.dch_frame.specs.Patterns.{IsWellFormed, copies, copies_below};
ghost use Rattle.dch_frame.specs.Stages.{as_cell, origin_of};
ghost use Rattle.dch_frame.specs.Votes.{votes_of, copies_as_votes};

use crate::pattern::Pattern;
use crate::segments::put_segment;
use crate::votes::count_votes;
use dch_bits::{Trit, Vote};

/// Counts the votes of what radio frame `frame` carried of a TTI of so many radio frames, and puts them to the places
/// of the TTI. The other places stay. `counted` is room for the votes of one radio frame.
pub fn rate_dematch(
    frames: usize,
    frame: usize,
    pattern: &Pattern,
    cells: &[Trit],
    counted: &mut [Vote],
    votes: &mut [Vote],
)
    requires pattern { IsWellFormed pattern.now }
    requires cells { length cells.now ≡ copies_below pattern.now.kind pattern.now.len }
    requires counted { length counted.old ≡ pattern.now.len }
    requires frames { IsFrames frames }
    requires inside { frame < frames }
    requires whole { length votes.old ≡ pattern.now.len * frames }
    ensures votes { (i : ℕ) (v : Vote) → i < length votes.new → frame_of frames (length votes.new) i ≡ frame →
        slice_index_or votes.new i v ≡ votes_of pattern.now cells.now (place_of frames (length votes.new) i) }
    ensures few { (i : ℕ) (v : Vote) → i < length votes.new → frame_of frames (length votes.new) i ≡ frame →
        (slice_index_or votes.new i v).zeros + (slice_index_or votes.new i v).ones ≤ length cells.now }
    ensures undamaged { (bits : List Bit) →
        ((k : ℕ) → k < length cells.now → slice_index_or cells.now k Off ≡
        as_cell (slice_index_or bits (origin_of pattern.now k) Zero)) →
        (i : ℕ) (v : Vote) → i < length votes.new → frame_of frames (length votes.new) i ≡ frame →
        slice_index_or votes.new i v ≡
        copies_as_votes (slice_index_or bits (place_of frames (length votes.new) i) Zero)
        (copies pattern.now.kind (place_of frames (length votes.new) i)) }
    ensures same { (i : ℕ) (v : Vote) → i < length votes.new → frame_of frames (length votes.new) i ≢ frame →
        slice_index_or votes.new i v ≡ slice_index_or votes.old i v }
{
    count_votes(pattern, cells, counted);
    put_segment(frames, frame, counted, votes);
}
