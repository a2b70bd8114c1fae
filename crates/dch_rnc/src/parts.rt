ghost use Rattle.std.specs.Prelude.{IfOk};
ghost use Rattle.dch_rnc.specs.Opened.{AreNew, IsNext};
ghost use Rattle.dch_rnc.specs.Holding.{next_of, parts_of};

use crate::sets::channel_sets;
use crate::uplink::rx_sets;
use dch_accept::{Accepted, SetBlocks};
use dch_bits::NoMemory;
use dch_layer2::NextLayer;
use dch_txframes::{IubTxBuffer, tx_buffers};
use dch_types::Dir;
use std::alloc::Global;

/// The parts of a network controller beside layer 2 that are made for a configuration.
#[derive(Drop)]
pub struct Parts {
    pub channel_sets: Vec<u8>,
    pub rx_sets: Vec<SetBlocks>,
    pub tx_buffers: Vec<IubTxBuffer>,
}

impl Parts {
    /// Takes all memory for a configuration. No frame was sent.
    pub fn open(alloc: Global, accepted: &Accepted) -> Result<Parts, NoMemory>
        ensures { IfOk result (λ parts. AreNew accepted.now (parts_of parts)) }
    {
        Ok(Parts {
            channel_sets: channel_sets(alloc, accepted.side(Dir::Up))?,
            rx_sets: rx_sets(alloc, accepted)?,
            tx_buffers: tx_buffers(alloc, accepted, Dir::Down)?,
        })
    }
}

/// What a network controller needs for a configuration that is to follow another one.
#[derive(Drop)]
pub struct Next {
    pub layer: NextLayer,
    pub parts: Parts,
}

impl Next {
    /// Takes all memory for a configuration. No combination is blocked, every channel runs its idle format, and no
    /// frame was sent.
    pub fn open(alloc: Global, accepted: &Accepted) -> Result<Next, NoMemory>
        ensures { IfOk result (λ next. IsNext accepted.now (next_of next)) }
    {
        Ok(Next {
            layer: NextLayer::open(alloc, accepted, Dir::Down)?,
            parts: Parts::open(alloc, accepted)?,
        })
    }
}
