ghost use Rattle.std.specs.Prelude.{◌≡◌, ◌<◌, ◌≤◌, ℕ, drop, length, slice_index, take};
ghost use Rattle.dch_types.specs.declared.channel.Dir.TheVariants.{Up};
ghost use Rattle.dch_accept.specs.HeldSets.{IsSetOf};
ghost use Rattle.dch_iub.specs.Forms.{IsWrittenForm};
ghost use Rattle.dch_combine.specs.Opened.{HoldsLongest};

use dch_accept::{Accepted, SetBlocks};
use dch_iub::{frame_len, write_ul};
use dch_types::Dir;

/// Writes the uplink Iub frame of a set's blocks to the front of `out`, and answers how many octets it has (TS 25.427
/// 6.2).
pub fn write_frame(
    accepted: &Accepted,
    set: u8,
    cfn: u8,
    qe: u8,
    blocks: &SetBlocks,
    out: &mut [u8],
) -> usize
    requires blocks { IsSetOf accepted.now.config Up set blocks.now }
    requires room { HoldsLongest accepted.now.config set (length out.old) }
    ensures fits { result ≤ length out.new }
    ensures octets { (k : ℕ) → k < length (take result out.new) → slice_index (take result out.new) k < 256 }
    ensures written { IsWrittenForm accepted.now.config Up set (take result out.new) cfn qe blocks.now }
    ensures rest { drop result out.new ≡ drop result out.old }
{
    let len = frame_len(accepted, Dir::Up, blocks);
    write_ul(accepted, set, cfn, qe, blocks, &mut out[..len]);
    len
}
