ghost use Rattle.std.specs.Prelude.{IfOk};
ghost use Rattle.dch_nodeb.specs.Opened.{AreNew};
ghost use Rattle.dch_nodeb.specs.Holding.{parts_of};

use crate::downlink::load;
use crate::iub_rx_buffer::{IubRxBuffer, rx_buffers};
use crate::receiver::UplinkReceiver;
use crate::transmitter::DownlinkTransmitter;
use dch_accept::Accepted;
use dch_bits::NoMemory;
use dch_txframes::{IubTxBuffer, tx_buffers};
use dch_types::Dir;
use std::alloc::Global;

/// The parts of a Node B that are made for a configuration.
#[derive(Drop)]
pub struct Parts {
    pub rx_buffers: Vec<IubRxBuffer>,
    pub transmitter: DownlinkTransmitter,
    pub receiver: UplinkReceiver,
    pub tx_buffers: Vec<IubTxBuffer>,
}

impl Parts {
    /// Takes all memory for a configuration. Every channel runs its idle format, and no frame is kept.
    pub fn open(alloc: Global, accepted: &Accepted) -> Result<Parts, NoMemory>
        ensures { IfOk result (λ parts. AreNew accepted.now (parts_of parts)) }
    {
        // The channels of a set have TTIs of one length in a good configuration.
        let _side = accepted.side(Dir::Down);
        let rx_buffers = rx_buffers(alloc, accepted)?;
        let mut transmitter = DownlinkTransmitter::open(alloc, accepted)?;
        // The TTIs of all channels start at CFN 0.
        load(accepted, 0, &rx_buffers, &mut transmitter);
        Ok(Parts {
            rx_buffers,
            transmitter,
            receiver: UplinkReceiver::open(alloc, accepted)?,
            tx_buffers: tx_buffers(alloc, accepted, Dir::Up)?,
        })
    }
}
