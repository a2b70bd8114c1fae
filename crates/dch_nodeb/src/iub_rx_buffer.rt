ghost use Rattle.std.specs.Prelude.{◌≡◌, ◌<◌, None, Some, length, IfErr, IfOk, OnErr, true};
ghost use Rattle.dch_types.specs.declared.channel.Dir.TheVariants.{Down};
ghost use Rattle.dch_types.specs.Timing.{has_set};
ghost use Rattle.dch_accept.specs.HeldSets.{IsIdleSet, IsSetOf, held_at};
ghost use Rattle.dch_iub.specs.Answers.{IsCause};
ghost use Rattle.dch_nodeb.specs.Moves.{AreReady, IsFilled, IsReady, Keeps};
ghost use Rattle.dch_nodeb.specs.Opened.{AreNewRxBuffers, AreRxBuffersOf};
ghost use Rattle.dch_nodeb.specs.Values.{rx_buffer_at};

use crate::sets::rx_buffer_of;
use dch_accept::{Accepted, SetBlocks, TtiBlocks};
use dch_bits::NoMemory;
use dch_indication::Indications;
use dch_iub::{IubError, read_dl};
use dch_txframes::tell_refusal;
use dch_types::{Dir, SETS, starts};
use std::alloc::Global;
use std::marker::Model;

/// A receive buffer for the downlink Iub frame of a set: the CFN of the frame, if one is kept, and its blocks.
#[derive(Drop)]
pub struct IubRxBuffer {
    cfn: Option<u8>,
    blocks: SetBlocks,
}

impl Model for IubRxBuffer {
    ghost use Rattle.dch_nodeb.specs.Values.{IubRxBuffer};

    ghost Value = { IubRxBuffer };

    ghost view = { λ p. record { cfn = p.cfn; held = p.blocks } };
}

impl IubRxBuffer {
    /// Takes the memory for the blocks of a set, which are those of the idle formats. No frame is kept.
    pub fn open(alloc: Global, accepted: &Accepted, set: u8) -> Result<IubRxBuffer, NoMemory>
        ensures empty { IfOk result (λ rx_buffer. rx_buffer.cfn ≡ None) }
        ensures idle { IfOk result (λ rx_buffer. IsIdleSet accepted.now.config Down set rx_buffer.held) }
    {
        Ok(IubRxBuffer {
            cfn: None,
            blocks: SetBlocks::open(alloc, accepted, Dir::Down, set)?,
        })
    }

    /// The blocks.
    pub fn blocks(&self) -> &SetBlocks
        ensures { result.now ≡ self.now.held }
    {
        &self.blocks
    }

    /// Keeps a frame in place of the one before. One that is refused changes nothing.
    pub fn keep(&mut self, accepted: &Accepted, set: u8, frame: &[u8]) -> Result<(), IubError>
        requires { IsSetOf accepted.now.config Down set self.old.held }
        ensures ok { IfOk result (λ _. IsFilled accepted.now set frame.now self.new) }
        ensures err { IfErr result (IsCause accepted.now.config Down set frame.now) }
        ensures same { OnErr result (self.new ≡ self.old) }
        ensures opened { IsSetOf accepted.now.config Down set self.new.held }
    {
        let cfn = read_dl(accepted, set, frame, &mut self.blocks)?;
        self.cfn = Some(cfn);
        Ok(())
    }

    /// Makes the blocks ready for a TTI that starts at a CFN: those of the idle formats, unless the frame is the one of
    /// this CFN. No frame is kept any more.
    pub fn ready(&mut self, cfn: u8)
        ensures { IsReady cfn self.old self.new }
    {
        if self.cfn != Some(cfn) {
            self.blocks.clear();
        }
        self.cfn = None;
    }
}

/// Takes the memory for a receive buffer of each set.
pub fn rx_buffers(alloc: Global, accepted: &Accepted) -> Result<Vec<IubRxBuffer>, NoMemory>
    ensures { IfOk result (λ rx_buffers. AreNewRxBuffers accepted.now 8 rx_buffers.items) }
{
    let mut rx_buffers = Vec::new(alloc);
    for set in 0..SETS {
        rx_buffers.push(IubRxBuffer::open(alloc, accepted, set)?)?;
    }
    Ok(rx_buffers)
}

/// The blocks of a channel in the receive buffer of its set.
pub fn blocks_of(rx_buffers: &[IubRxBuffer], set: u8, channel: u8) -> &TtiBlocks
    requires eight { length rx_buffers.now ≡ 8 }
    requires set { set < 8 }
    requires channel { channel < length (rx_buffer_at rx_buffers.now set).held.blocks }
    ensures { result.now ≡ held_at (rx_buffer_at rx_buffers.now set).held.blocks channel }
{
    rx_buffers[set as usize].blocks().channel(channel)
}

/// Keeps the Iub frame of a set, or tells why it is refused.
pub fn keep<U: Indications>(
    accepted: &Accepted,
    set: u8,
    frame: &[u8],
    rx_buffers: &mut [IubRxBuffer],
    user: &mut U,
)
    requires rx_buffers { AreRxBuffersOf accepted.now rx_buffers.old }
    requires set { has_set accepted.now.config.downlink.side set ≡ true }
    ensures { Keeps U.shows accepted.now set frame.now rx_buffers.old rx_buffers.new user.old user.new }
{
    match rx_buffers[rx_buffer_of(accepted, set)].keep(accepted, set, frame) {
        Ok(()) => {}
        Err(error) => tell_refusal(user, Dir::Down, set, error),
    }
}

/// Makes the receive buffers of the sets ready whose TTI starts at a CFN.
pub fn ready(accepted: &Accepted, cfn: u8, rx_buffers: &mut [IubRxBuffer])
    requires { AreRxBuffersOf accepted.now rx_buffers.old }
    ensures { AreReady accepted.now cfn 8 rx_buffers.old rx_buffers.new }
{
    let side = accepted.side(Dir::Down);
    for set in 0..SETS {
        if starts(side.set_frames(set), cfn) {
            rx_buffers[set as usize].ready(cfn);
        }
    }
}
