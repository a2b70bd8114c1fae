ghost use Rattle.std.specs.Prelude.{◌≡◌, ◌<◌, ◌≤◌, ℕ, length, slice_index};
ghost use Rattle.dch_types.specs.Limits.{IsSide};
ghost use Rattle.dch_types.specs.Parts.{channel_at, format_at};
ghost use Rattle.dch_iub.specs.Longest.{IsGreatest, IsLongest, weight};

use crate::shape::{format_octets, frame_octets};
use dch_accept::Accepted;
use dch_types::{Dir, Format, Side};

/// The bits that the blocks of a format take in a frame, and in the uplink their marks.
fn weight(dir: Dir, format: &Format) -> usize
    requires few { format.now.number ≤ 64 }
    requires small { format.now.size ≤ 5000 }
    ensures { result ≡ weight dir format.now }
{
    let octets = 8 * format_octets(format);
    match dir {
        Dir::Up => octets + usize::from(format.number),
        Dir::Down => octets,
    }
}

/// The number of a channel's format that takes the most bits.
fn longest_format(dir: Dir, side: &Side, channel: usize) -> u8
    requires side { IsSide side.now }
    requires channel { channel < length side.now.channels }
    ensures { IsGreatest dir (channel_at side.now channel) (length (channel_at side.now channel).formats) result }
{
    let mut longest = 0;
    for f in 0..side.channel(channel).formats.len() {
        let number = f as u8;
        let least = weight(dir, side.channel(channel).format(usize::from(longest)));
        if least < weight(dir, side.channel(channel).format(usize::from(number))) {
            longest = number;
        }
    }
    longest
}

/// The numbers of the formats that take the most bits, for each channel.
fn longest_formats(dir: Dir, side: &Side) -> [u8; 8]
    requires { IsSide side.now }
    ensures { (i : ℕ) → i < length side.now.channels →
        IsGreatest dir (channel_at side.now i) (length (channel_at side.now i).formats) (slice_index result i) }
{
    let mut numbers = [0; 8];
    for i in 0..side.channels.len() {
        numbers[i] = longest_format(dir, side, i);
    }
    numbers
}

/// The octets of the longest frame of a set of a direction, over all formats of its channels.
pub fn longest(accepted: &Accepted, dir: Dir, set: u8) -> usize
    ensures { IsLongest accepted.now.config dir set result }
{
    let numbers = longest_formats(dir, accepted.side(dir));
    frame_octets(accepted, dir, set, &numbers)
}
