ghost use Rattle.std.specs.Prelude.{◌≡◌, ◌<◌, ◌≤◌, None, length, take, IfOk};
ghost use Rattle.std.specs.Borrow.{sem};
ghost use Rattle.dch_accept.specs.HeldSets.{IsSetOf};
ghost use Rattle.dch_iub.specs.Forms.{IsWrittenForm};
ghost use Rattle.dch_iub.specs.Longest.{IsLongest};
ghost use Rattle.dch_iub.specs.Shape.{formats_of, frame_octets};
ghost use Rattle.dch_txframes.specs.BlockLending.{LendsBlocks};
ghost use Rattle.dch_txframes.specs.Lending.{octets_of};
ghost use Rattle.dch_txframes.specs.Octets.{AreOctets};
ghost use Rattle.dch_txframes.specs.Opened.{IsTxBufferOf};
ghost use Rattle.dch_txframes.specs.Sending.{AreCleared, AreNewTxBuffers, SendsFrame, qe_sent};

use crate::telling::tell_iub;
use dch_accept::{Accepted, SetBlocks};
use dch_bits::NoMemory;
use dch_indication::Indications;
use dch_iub::{frame_len, longest, write_dl, write_ul};
use dch_types::{Dir, SETS};
use std::alloc::Global;
use std::marker::Model;

/// The Iub frame of a set of a direction, in memory for the longest one. The last step of the node may have sent it.
#[derive(Drop)]
pub struct IubTxBuffer {
    blocks: SetBlocks,
    octets: Vec<u8>,
    len: usize,
    sent: bool,
}

impl Model for IubTxBuffer {
    ghost use Rattle.std.specs.Prelude.{◌≤◌, length, take};
    ghost use Rattle.dch_txframes.specs.Values.{IubTxBuffer, octets_if};

    ghost Value = { IubTxBuffer };

    ghost view = { λ l. record {
      held = l.blocks;
      sent = octets_if l.sent (take l.len l.octets.items);
      room = length l.octets.items;
    } };

    ghost invariant = { λ l. l.len ≤ length l.octets.items };
}

impl IubTxBuffer {
    /// Takes the memory for the frames of a set of a direction. None is sent.
    pub fn open(
        alloc: Global,
        accepted: &Accepted,
        dir: Dir,
        set: u8,
    ) -> Result<IubTxBuffer, NoMemory>
        ensures opened { IfOk result (IsTxBufferOf accepted.now dir set) }
        ensures quiet { IfOk result (λ tx_buffer. tx_buffer.sent ≡ None) }
    {
        Ok(IubTxBuffer {
            blocks: SetBlocks::open(alloc, accepted, dir, set)?,
            octets: vec![in alloc; 0; longest(accepted, dir, set)]?,
            len: 0,
            sent: false,
        })
    }

    /// The blocks of the next frame, to be filled.
    pub fn blocks_mut(&mut self) -> &mut SetBlocks
        ensures* writes_back { sem 𝓛 (LendsBlocks self.entry result) }
        ensures value { result.now ≡ self.old.held }
    {
        &mut self.blocks
    }

    /// The octets of the frame that was sent last, unless it is hidden.
    pub fn octets(&self) -> Option<&[u8]>
        ensures { octets_of result ≡ self.now.sent }
    {
        if self.sent {
            Some(&self.octets[..self.len])
        } else {
            None
        }
    }

    /// Hides the last frame.
    pub fn clear_sent(&mut self)
        ensures { self.new ≡ record self.old { sent = None } }
    {
        self.sent = false;
    }

    /// Sends the blocks in an Iub frame with the CFN at which their TTI starts (TS 25.427 6.2), and tells of it.
    pub fn send<U: Indications>(
        &mut self,
        accepted: &Accepted,
        dir: Dir,
        set: u8,
        cfn: u8,
        user: &mut U,
    )
        requires { IsTxBufferOf accepted.now dir set self.old }
        ensures { SendsFrame U.shows accepted.now dir set cfn self.old self.new user.old user.new }
    {
        let len = write_frame(accepted, dir, set, cfn, &self.blocks, &mut self.octets);
        self.len = len;
        self.sent = true;
        tell_iub(user, dir, set, &self.octets[..len]);
    }
}

/// Writes the frame of a set's blocks to the front of `out`, and answers its length.
fn write_frame(
    accepted: &Accepted,
    dir: Dir,
    set: u8,
    cfn: u8,
    blocks: &SetBlocks,
    out: &mut [u8],
) -> usize
    requires blocks { IsSetOf accepted.now.config dir set blocks.now }
    requires room { IsLongest accepted.now.config dir set (length out.old) }
    ensures written { IsWrittenForm accepted.now.config dir set (take result out.new) cfn
        (qe_sent accepted.now.config dir) blocks.now }
    ensures octets { AreOctets (take result out.new) }
    ensures fits { result ≤ length out.old }
{
    let len = frame_len(accepted, dir, blocks);
    write(accepted, dir, set, cfn, blocks, &mut out[..len]);
    len
}

/// Fills `out` with the frame of a set's blocks.
fn write(accepted: &Accepted, dir: Dir, set: u8, cfn: u8, blocks: &SetBlocks, out: &mut [u8])
    requires blocks { IsSetOf accepted.now.config dir set blocks.now }
    requires room { length out.old ≡ frame_octets accepted.now.config dir set (formats_of blocks.now) }
    ensures { IsWrittenForm accepted.now.config dir set out.new cfn (qe_sent accepted.now.config dir) blocks.now }
{
    match dir {
        Dir::Up => write_ul(accepted, set, cfn, accepted.config().qe, blocks, out),
        Dir::Down => write_dl(accepted, set, cfn, blocks, out),
    }
}

/// Takes the memory for the Iub frames of all sets of a direction.
pub fn tx_buffers(
    alloc: Global,
    accepted: &Accepted,
    dir: Dir,
) -> Result<Vec<IubTxBuffer>, NoMemory>
    ensures { IfOk result (λ tx_buffers. AreNewTxBuffers accepted.now dir 8 tx_buffers.items) }
{
    let mut tx_buffers = Vec::new(alloc);
    for set in 0..SETS {
        tx_buffers.push(IubTxBuffer::open(alloc, accepted, dir, set)?)?;
    }
    Ok(tx_buffers)
}

/// Hides the last frames of all sets.
pub fn clear_sent(tx_buffers: &mut [IubTxBuffer])
    requires { length tx_buffers.old ≡ 8 }
    ensures { AreCleared tx_buffers.old tx_buffers.new }
{
    for set in 0..SETS {
        tx_buffers[set as usize].clear_sent();
    }
}
