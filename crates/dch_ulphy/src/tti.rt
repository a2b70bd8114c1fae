ghost use Rattle.std.specs.Prelude.{◌≡◌, ◌≢◌, ◌<◌, ◌≤◌, ℕ, length, IfOk};
ghost use Rattle.dch_types.specs.Lengths.{tti_bits};
ghost use Rattle.dch_types.specs.Limits.{IsChannel};
ghost use Rattle.dch_types.specs.Parts.{channel_at, format_at};
ghost use Rattle.dch_accept.specs.Blocks.{bits_of};
ghost use Rattle.dch_tti.specs.Loaded.{IsLong, loaded_at};
ghost use Rattle.dch_ulphy.specs.Loaded.{IsLoaded, IsPadded, IsTtiOf, padded_cells};

use crate::pad::pad;
use dch_accept::Accepted;
use dch_bits::{Bit, NoMemory, Trit};
use dch_coding::TtiCoder;
use dch_tti::{TtiBuffer, tti_buffers};
use dch_types::{Dir, Trch};
use std::alloc::Global;
use std::marker::Model;

/// The running TTIs of all uplink channels, coded and ready to be sent.
pub struct UlTti {
    coder: TtiCoder,
    coded: Vec<Bit>,
    padded: Vec<Trit>,
    tti_buffers: Vec<TtiBuffer>,
}

// By hand, so that whoever holds one drops it by one call.
impl Drop for UlTti {
    fn drop(self) {
        let UlTti {
            coder: _coder,
            coded: _coded,
            padded: _padded,
            tti_buffers: _tti_buffers,
        } = self;
    }
}

impl Model for UlTti {
    ghost use Rattle.std.specs.Prelude.{◌≡◌, List, length};
    ghost use Rattle.dch_tti.specs.Loaded.{AreWithin, Loaded};

    ghost Value = { List Loaded };

    ghost view = { λ t. t.tti_buffers.items };

    ghost invariant = { λ t. (t.coder ≡ length t.coded.items) ×
        AreWithin (length t.coded.items) (length t.padded.items) t.tti_buffers.items };
}

impl UlTti {
    /// Takes all memory that coding and sending want. Nothing is loaded.
    pub fn open(alloc: Global, accepted: &Accepted) -> Result<UlTti, NoMemory>
        ensures { IfOk result (IsTtiOf accepted.now) }
    {
        let room = accepted.most_room(Dir::Up);
        Ok(UlTti {
            coder: TtiCoder::open(alloc, room.coding.bits)?,
            coded: vec![in alloc; Bit::Zero; room.coding.bits]?,
            padded: vec![in alloc; Trit::Off; room.cells]?,
            tti_buffers: tti_buffers(alloc, accepted, Dir::Up)?,
        })
    }

    /// Loads the blocks of a channel for its next TTI: as many as the format has, one after another. They replace those
    /// that were loaded for that channel.
    pub fn load(&mut self, accepted: &Accepted, channel: u8, format: u8, blocks: &[Bit])
        requires opened { IsTtiOf accepted.now self.old }
        requires channel { channel < length accepted.now.config.uplink.side.channels }
        requires format { format < length (channel_at accepted.now.config.uplink.side channel).formats }
        requires blocks { length blocks.now ≡
            bits_of (format_at (channel_at accepted.now.config.uplink.side channel) format) }
        ensures opened { IsTtiOf accepted.now self.new }
        ensures loaded { IsLoaded accepted.now channel format blocks.now (loaded_at self.new channel) }
        ensures same { (i : ℕ) → i ≢ channel → loaded_at self.new i ≡ loaded_at self.old i }
    {
        let trch = accepted.channel(Dir::Up, channel);
        let buffer = &mut self.tti_buffers[channel as usize];
        load(
            &mut self.coder,
            trch,
            format,
            blocks,
            &mut self.coded,
            &mut self.padded,
            buffer,
        );
    }
}

impl UlTti {
    /// What is loaded of each channel.
    pub fn tti_buffers(&self) -> &[TtiBuffer]
        ensures { result.now ≡ self.now }
    {
        &self.tti_buffers
    }
}

/// Codes the blocks of a channel and loads them.
fn load(
    coder: &mut TtiCoder,
    channel: &Trch,
    format: u8,
    blocks: &[Bit],
    coded: &mut [Bit],
    padded: &mut [Trit],
    buffer: &mut TtiBuffer,
)
    requires channel { IsChannel channel.now }
    requires format { format < length channel.now.formats }
    requires blocks { length blocks.now ≡ bits_of (format_at channel.now format) }
    requires coder { tti_bits channel.now (format_at channel.now format) ≤ coder.old }
    requires room { tti_bits channel.now (format_at channel.now format) ≤ length coded.old }
    requires padded { padded_cells channel.now format ≤ length padded.old }
    requires fits { padded_cells channel.now format ≤ buffer.old.room.cells }
    ensures loaded { IsPadded channel.now buffer.old.room format blocks.now buffer.new }
    ensures long { IsLong channel.now (padded_cells channel.now) buffer.new }
    ensures kept { coder.new ≡ coder.old }
{
    let kind = channel.format(format as usize);
    let coded = &mut coded[..channel.tti_bits(kind) as usize];
    coder.code(channel, kind, blocks, coded);
    let frames = channel.frames as usize;
    let len = pad(frames, coded, padded);
    buffer.load(format, frames, &padded[..len]);
}
