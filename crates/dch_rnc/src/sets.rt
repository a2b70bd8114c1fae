ghost use Rattle.std.specs.Prelude.{◌≡◌, ◌<◌, ◌+◌, IfOk, length, slice_index, true};
ghost use Rattle.dch_types.specs.Limits.{IsSide};
ghost use Rattle.dch_types.specs.Timing.{has_set};
ghost use Rattle.dch_rnc.specs.Opened.{AreChannelSets};

use dch_accept::Accepted;
use dch_bits::NoMemory;
use dch_types::{Dir, Side};
use std::alloc::Global;

/// The place of a set that the uplink has.
pub fn place_of(accepted: &Accepted, set: u8) -> usize
    requires { has_set accepted.now.config.uplink.side set ≡ true }
    ensures value { result ≡ set }
    ensures inside { result < 8 }
{
    // A set's number is at most 7 in a good configuration.
    let _few = accepted.side(Dir::Up).has_set(set);
    set as usize
}

/// The set of each channel of a direction.
pub fn channel_sets(alloc: Global, side: &Side) -> Result<Vec<u8>, NoMemory>
    requires { IsSide side.now }
    ensures { IfOk result (λ sets. AreChannelSets side.now sets.items) }
{
    let mut sets = Vec::new(alloc);
    for i in 0..side.channels.len() {
        sets.push(side.channel(i).set)?;
    }
    Ok(sets)
}
