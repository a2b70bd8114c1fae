ghost use Rattle.std.specs.Prelude.{◌<◌, length};
ghost use Rattle.dch_types.specs.Limits.{IsSide};
ghost use Rattle.dch_types.specs.Parts.{channel_at};
ghost use Rattle.dch_margin.specs.Sizes.{AreSizes};

use dch_coding::{Plan, plan};
use dch_inter::equalise;
use dch_types::{Coding, Side};

/// The sizes of a format of a channel: its code blocks, and the coded bits of a TTI before and after padding.
#[derive(Clone, Copy)]
pub struct Sizes {
    pub coding: Coding,
    pub plan: Plan,
    pub bits: usize,
    pub padded: usize,
}

/// The sizes of format `f` of channel `i`.
pub fn sizes_of(side: &Side, i: u8, f: u8) -> Sizes
    requires good { IsSide side.now }
    requires channel { i < length side.now.channels }
    requires format { f < length (channel_at side.now i).formats }
    ensures { AreSizes side.now i f result }
{
    let channel = side.channel(usize::from(i));
    let format = channel.format(usize::from(f));
    let joined = channel.joined_bits(format) as usize;
    let bits = channel.tti_bits(format) as usize;
    Sizes {
        coding: channel.coding,
        plan: plan(joined, channel.coding),
        bits,
        padded: equalise(bits, usize::from(channel.frames)),
    }
}
