ghost use Rattle.std.specs.Prelude.{length};
ghost use Rattle.dch_nodeb.specs.Moves.{AreGiven, Transmits};
ghost use Rattle.dch_nodeb.specs.Opened.{AreNoted, AreRxBuffersOf, IsTransmitterOf};

use crate::iub_rx_buffer::{IubRxBuffer, blocks_of, ready};
use crate::transmitter::DownlinkTransmitter;
use dch_accept::Accepted;
use dch_indication::Indications;
use dch_types::{Dir, starts};

/// Loads the blocks that the receive buffers have for the channels whose TTI starts at a CFN.
pub fn load(
    accepted: &Accepted,
    cfn: u8,
    rx_buffers: &[IubRxBuffer],
    transmitter: &mut DownlinkTransmitter,
)
    requires rx_buffers { AreRxBuffersOf accepted.now rx_buffers.now }
    requires transmitter { IsTransmitterOf accepted.now transmitter.old }
    ensures { AreGiven accepted.now cfn (length accepted.now.config.downlink.side.channels)
        rx_buffers.now transmitter.old transmitter.new }
{
    let side = accepted.side(Dir::Down);
    for i in 0..side.channels.len() {
        let channel = side.channel(i);
        if starts(channel.frames, cfn) {
            transmitter.load(
                accepted,
                i as u8,
                blocks_of(rx_buffers, channel.set, i as u8),
            );
        }
    }
}

/// Sends the downlink radio frame of a CFN: each channel whose TTI starts takes the blocks of the Iub frame that is
/// kept for that CFN, or those of its idle format.
pub fn transmit<U: Indications>(
    accepted: &Accepted,
    cfn: u8,
    rx_buffers: &mut [IubRxBuffer],
    transmitter: &mut DownlinkTransmitter,
    user: &mut U,
)
    requires rx_buffers { AreRxBuffersOf accepted.now rx_buffers.old }
    requires transmitter { IsTransmitterOf accepted.now transmitter.old }
    requires noted { AreNoted accepted.now transmitter.old.formats transmitter.old.running }
    ensures { Transmits U.shows accepted.now cfn rx_buffers.old rx_buffers.new transmitter.old transmitter.new user.old
        user.new }
{
    ready(accepted, cfn, rx_buffers);
    load(accepted, cfn, rx_buffers, transmitter);
    transmitter.send(accepted, cfn, user);
}
