ghost use Rattle.std.specs.Prelude.{◌≡◌, ◌≢◌, ◌+◌, ◌^◌, ◌<◌, ◌≤◌, ℕ, length, map, slice_index_or};
ghost use Rattle.dch_bits.specs.declared.bit.Vote.{Vote};
ghost use Rattle.dch_types.specs.declared.channel.Coding.TheVariants.{Uncoded};
ghost use Rattle.dch_types.specs.Lengths.{coded_block};
ghost use Rattle.dch_tti.specs.JoinedBits.{majority, IsRead};

use dch_bits::{Bit, Vote};
use dch_coding::Rate;
use dch_trellis::Trellis;
use dch_types::Coding;

/// Reads a code block that begins with so much filler from the votes for its coded bits.
pub fn read_block(
    trellis: &mut Trellis,
    coding: Coding,
    votes: &[Vote],
    filler: usize,
    out: &mut [Bit],
)
    requires room { coding ≢ Uncoded → length out.old ≤ trellis.old }
    requires some { 1 ≤ length out.old }
    requires short { coding ≢ Uncoded → length out.old ≤ 504 }
    requires filler { filler ≤ length out.old }
    requires coded { length votes.now ≡ coded_block coding (length out.old) }
    requires few { (j : ℕ) (v : Vote) → j < length votes.now →
        (slice_index_or votes.now j v).zeros + (slice_index_or votes.now j v).ones ≤ 460800 }
    ensures read { IsRead coding votes.now filler out.new }
    ensures kept { trellis.new ≡ trellis.old }
{
    match coding {
        Coding::Uncoded => read_bits(votes, out),
        Coding::Half => {
            let _copies = trellis.nearest(Rate::Half, votes, filler, out);
        }
        Coding::Third => {
            let _copies = trellis.nearest(Rate::Third, votes, filler, out);
        }
    }
}

/// Reads bits that are not coded.
fn read_bits(votes: &[Vote], out: &mut [Bit])
    requires { length votes.now ≡ length out.old }
    ensures { out.new ≡ map majority votes.now }
{
    for j in 0..out.len() {
        out[j] = if votes[j].zeros < votes[j].ones {
            Bit::One
        } else {
            Bit::Zero
        };
    }
}
