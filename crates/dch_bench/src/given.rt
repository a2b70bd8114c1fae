ghost use Rattle.std.specs.Prelude.{◌≡◌, ◌≢◌, ◌<◌, ◌*◌, ℕ, true, None, Some, length, slice_index_or};
ghost use Rattle.dch_types.specs.Limits.{IsSide};
ghost use Rattle.dch_types.specs.Parts.{channel_at, format_at, format_number, side_of};
ghost use Rattle.dch_accept.specs.Blocks.{HoldsTtis, bits_of};

use crate::chance::Chance;
use dch_accept::{Accepted, TtiBlocks};
use dch_bits::Bit;
use dch_types::{Dir, Side};

/// No format is noted.
pub fn nothing() -> [Option<u8>; 8]
    ensures { (i : ℕ) → slice_index_or result i None ≡ None }
{
    [None; 8]
}

/// Notes the format of a channel.
pub fn note(noted: &mut [Option<u8>], channel: u8, format: u8)
    requires { channel < length noted.old }
    ensures it { slice_index_or noted.new channel None ≡ Some format }
    ensures same { (i : ℕ) → i ≢ channel → slice_index_or noted.new i None ≡ slice_index_or noted.old i None }
    ensures long { length noted.new ≡ length noted.old }
{
    noted[channel as usize] = Some(format);
}

/// Whether the channels are noted in the formats of a combination.
pub fn fits(side: &Side, combination: u16, noted: &[Option<u8>]) -> bool
    requires side { IsSide side.now }
    requires combination { combination < length side.now.combinations }
    requires eight { length noted.now ≡ 8 }
    ensures { result ≡ true → (i : ℕ) → i < length side.now.channels →
        slice_index_or noted.now i None ≡ Some (format_number side.now combination i) }
{
    for i in 0..side.channels.len() {
        if noted[i] != Some(side.tfi(combination as usize, i)) {
            return false;
        }
    }
    true
}

/// Gives a channel the blocks for the TTI that starts at a CFN.
pub fn give(
    accepted: &Accepted,
    dir: Dir,
    start: u8,
    channel: u8,
    format: u8,
    given: &mut TtiBlocks,
)
    requires given { HoldsTtis (side_of accepted.now.config dir) given.old.room }
    requires channel { channel < length (side_of accepted.now.config dir).channels }
    requires format { format < length (channel_at (side_of accepted.now.config dir) channel).formats }
    ensures room { given.new.room ≡ given.old.room }
    ensures long { length given.new.good * given.new.size ≡
        bits_of (format_at (channel_at (side_of accepted.now.config dir) channel) format) }
{
    given.shape(accepted, dir, channel, format);
    Chance::new(u32::from(start) * 8 + u32::from(channel)).fill(given.bits_mut());
}

/// Whether blocks are those that were given in a format, and all good.
pub fn are_given(read: &TtiBlocks, format: u8, given: &TtiBlocks) -> bool {
    read.format() == format && read.bits() == given.bits() && are_good(read)
}

/// Whether all blocks are good.
fn are_good(blocks: &TtiBlocks) -> bool {
    for i in 0..blocks.count() {
        if !blocks.good(i) {
            return false;
        }
    }
    true
}
