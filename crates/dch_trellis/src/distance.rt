ghost use Rattle.std.specs.Prelude.{◌≡◌, ℕ, [], ◌+◌, ◌*◌, ◌^◌, ◌<◌, ◌≤◌, length, slice_index, slice_index_or};
ghost use Rattle.dch_bits.specs.declared.bit.Bit.TheVariants.{One};
ghost use Rattle.dch_coding.specs.Conv.{outputs, coded_length};
ghost use Rattle.dch_trellis.specs.Nearest.{all_copies};
ghost use Rattle.dch_trellis.specs.Windows.{IsOutputs};
ghost use Rattle.dch_trellis.specs.Search.{branch_metric};
ghost use Rattle.dch_trellis.specs.Distance.{copies_at, AreOfZeros, IsLeastDistance};

use crate::steps::{step_votes, total_of};
use crate::table::Table;
use crate::undamaged::Front;
use crate::wide::{PathMetrics, fill, lesser_of};
use dch_bits::Vote;
use dch_coding::Rate;

/// The least copies in which two blocks differ. The code is linear, so these are the least in which a block differs
/// from zeros: what the search pays from the first One on, for the step at which that costs least.
pub fn least(
    rate: Rate,
    table: &Table,
    votes: &[Vote],
    size: usize,
    filler: usize,
    rows: &mut [PathMetrics],
) -> u32
    requires table { IsOutputs rate table.now }
    requires size { size ≤ 504 }
    requires filler { filler < size }
    requires room { size + 9 ≤ length rows.old }
    requires coded { length votes.now ≡ coded_length rate size }
    requires zeros { AreOfZeros votes.now }
    requires few { all_copies votes.now < 2 ^ 31 }
    ensures least { IsLeastDistance rate size filler (copies_at votes.now) result }
    ensures rows { length rows.new ≡ length rows.old }
{
    fill(rate, table, votes, size, filler, &Front::new(), rows);
    let mut least = away_from(rate, votes, rows, filler);
    for k in filler + 1..size {
        least = lesser_of(least, away_from(rate, votes, rows, k));
    }
    least
}

/// What a block costs whose first One is at step `k`: all outputs of that step are ones.
fn away_from(rate: Rate, votes: &[Vote], rows: &[PathMetrics], k: usize) -> u32
    requires row { k + 1 < length rows.now }
    requires step { outputs rate * (k + 1) ≤ length votes.now }
    requires zeros { AreOfZeros votes.now }
    requires few { all_copies votes.now < 2 ^ 31 }
    requires room { slice_index (slice_index_or rows.now (k + 1) []) 128 ≤ all_copies votes.now }
    ensures { result ≡ branch_metric rate votes.now k 0 One + slice_index (slice_index_or rows.now (k + 1) []) 128 }
{
    total_of(&step_votes(rate, votes, k)) + rows[k + 1][128]
}
