ghost use Rattle.std.specs.Prelude.{◌≡◌, ◌<◌, IfOk, length, true};
ghost use Rattle.dch_types.specs.declared.channel.Dir.TheVariants.{Up};
ghost use Rattle.dch_types.specs.Timing.{has_set};
ghost use Rattle.dch_accept.specs.HeldSets.{IsSetOf};
ghost use Rattle.dch_layer2.specs.Bounded.{HasLayer};
ghost use Rattle.dch_rnc.specs.Moves.{Receives, TakesSet};
ghost use Rattle.dch_rnc.specs.Opened.{AreNewRxSets, AreRxSetsOf};

use crate::sets::place_of;
use dch_accept::{Accepted, SetBlocks};
use dch_bits::NoMemory;
use dch_indication::Indications;
use dch_iub::read_ul;
use dch_layer2::Layer2;
use dch_txframes::tell_refusal;
use dch_types::{Dir, SETS};
use std::alloc::Global;

/// Takes the memory for the uplink blocks of all sets.
pub fn rx_sets(alloc: Global, accepted: &Accepted) -> Result<Vec<SetBlocks>, NoMemory>
    ensures { IfOk result (λ rx_sets. AreNewRxSets accepted.now 8 rx_sets.items) }
{
    let mut rx_sets = Vec::new(alloc);
    for set in 0..SETS {
        rx_sets.push(SetBlocks::open(alloc, accepted, Dir::Up, set)?)?;
    }
    Ok(rx_sets)
}

/// Reads the Iub frame of a set, and gives its blocks to layer 2; or tells why it is refused. Answers whether it was
/// read.
pub fn receive<U: Indications>(
    accepted: &Accepted,
    set: u8,
    frame: &[u8],
    rx_sets: &mut [SetBlocks],
    layer: &mut Layer2,
    user: &mut U,
) -> bool
    requires rx_sets { AreRxSetsOf accepted.now rx_sets.old }
    requires set { has_set accepted.now.config.uplink.side set ≡ true }
    requires layer { HasLayer accepted.now.config layer.old }
    requires receives { layer.old.into ≡ Up }
    ensures { Receives U.shows accepted.now set frame.now result rx_sets.new layer.old layer.new user.old user.new }
{
    let blocks = &mut rx_sets[place_of(accepted, set)];
    match read_ul(accepted, set, frame, blocks) {
        Ok(_) => {
            take_set(accepted, set, blocks, layer, user);
            true
        }
        Err(error) => {
            tell_refusal(user, Dir::Up, set, error);
            false
        }
    }
}

/// Gives the blocks of the channels of a set to layer 2, in rising order of channels.
fn take_set<U: Indications>(
    accepted: &Accepted,
    set: u8,
    blocks: &SetBlocks,
    layer: &mut Layer2,
    user: &mut U,
)
    requires blocks { IsSetOf accepted.now.config Up set blocks.now }
    requires layer { HasLayer accepted.now.config layer.old }
    requires receives { layer.old.into ≡ Up }
    ensures { TakesSet U.shows accepted.now set blocks.now layer.old layer.new user.old user.new }
{
    let side = accepted.side(Dir::Up);
    for i in 0..side.channels.len() {
        if side.channel(i).set == set {
            layer.take(accepted, i as u8, blocks.channel(i as u8), user);
        }
    }
}
