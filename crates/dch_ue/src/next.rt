ghost use Rattle.std.specs.Prelude.{IfOk};
ghost use Rattle.dch_ue.specs.Opened.{IsNextOf};

use crate::receiver::DownlinkReceiver;
use crate::transmitter::UplinkTransmitter;
use dch_accept::Accepted;
use dch_bits::NoMemory;
use dch_layer2::NextLayer;
use dch_types::Dir;
use std::alloc::Global;
use std::marker::Model;

/// What a terminal needs for a configuration that is to follow another one.
#[derive(Drop)]
pub struct NextParts {
    pub(crate) layer: NextLayer,
    pub(crate) receiver: DownlinkReceiver,
    pub(crate) transmitter: UplinkTransmitter,
}

impl Model for NextParts {
    ghost use Rattle.dch_ue.specs.Values.{NextParts};

    ghost Value = { NextParts };

    ghost view = { λ n. record { layer = n.layer; receiver = n.receiver; transmitter = n.transmitter } };
}

impl NextParts {
    /// Takes all memory that the configuration wants. Nothing came, and nothing is read or sent.
    pub fn open(alloc: Global, accepted: &Accepted) -> Result<NextParts, NoMemory>
        ensures { IfOk result (IsNextOf accepted.now) }
    {
        Ok(NextParts {
            layer: NextLayer::open(alloc, accepted, Dir::Up)?,
            receiver: DownlinkReceiver::open(alloc, accepted)?,
            transmitter: UplinkTransmitter::open(alloc, accepted)?,
        })
    }
}
