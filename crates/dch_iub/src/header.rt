ghost use Rattle.std.specs.Prelude.{◌≡◌, ◌+◌, ◌==◌, ◌<◌, ◌≤◌, ℕ, length, take, if◌then◌else◌, slice_index};
ghost use Rattle.dch_types.specs.Limits.{IsSide};
ghost use Rattle.dch_types.specs.Parts.{channel_at};
ghost use Rattle.dch_iub.specs.Forms.{IsHeader};
ghost use Rattle.dch_iub.specs.Shape.{AreFormats, header_octets};
ghost use Rattle.dch_iub.specs.Steps.{AreNamed};

use crate::check::header_check;
use dch_types::Side;

/// Writes the format number of a channel, if it belongs to a set, and answers the place after it.
fn write_number(
    side: &Side,
    set: u8,
    channel: usize,
    number: u8,
    at: usize,
    out: &mut [u8],
) -> usize
    requires side { IsSide side.now }
    requires channel { channel < length side.now.channels }
    requires room { at + (if (channel_at side.now channel).set == set then 1 else 0) ≤ length out.old }
    ensures next { result ≡ at + (if (channel_at side.now channel).set == set then 1 else 0) }
    ensures most { result ≤ at + 1 }
    ensures named { (channel_at side.now channel).set ≡ set → slice_index out.new at ≡ number }
    ensures before { take at out.new ≡ take at out.old }
{
    if side.channel(channel).set == set {
        out[at] = number;
        at + 1
    } else {
        at
    }
}

/// Writes the format numbers of the channels of a set after the first two octets, and answers the place after them.
fn write_numbers(side: &Side, set: u8, numbers: &[u8; 8], out: &mut [u8]) -> usize
    requires side { IsSide side.now }
    requires room { header_octets side.now set ≤ length out.old }
    ensures place { result ≡ header_octets side.now set }
    ensures few { result ≤ 10 }
    ensures named { AreNamed side.now set out.new numbers.now (length side.now.channels) }
    ensures before { take 2 out.new ≡ take 2 out.old }
{
    let mut at = 2;
    for i in 0..side.channels.len() {
        at = write_number(side, set, i, numbers[i], at, out);
    }
    at
}

/// Writes the header of a data frame of a set, and answers the place after it (TS 25.427 6.2.2).
pub fn write_header(side: &Side, set: u8, cfn: u8, numbers: &[u8; 8], out: &mut [u8]) -> usize
    requires side { IsSide side.now }
    requires formats { AreFormats side.now set numbers.now }
    requires room { header_octets side.now set ≤ length out.old }
    ensures place { result ≡ header_octets side.now set }
    ensures header { IsHeader side.now set out.new cfn numbers.now }
    ensures named { AreNamed side.now set out.new numbers.now (length side.now.channels) }
{
    out[0] = 0;
    out[1] = cfn;
    let header = write_numbers(side, set, numbers, out);
    out[0] = 2 * header_check(out, header);
    header
}
