ghost use Rattle.std.specs.Prelude.{◌≡◌, ◌≢◌, ◌<◌, ◌≤◌, ◌*◌, ℕ, length, take, IfOk};
ghost use Rattle.dch_types.specs.Limits.{IsChannel};
ghost use Rattle.dch_types.specs.Lengths.{tti_bits};
ghost use Rattle.dch_types.specs.Parts.{channel_at, format_at};
ghost use Rattle.dch_frame.specs.Patterns.{IsWellFormed, copies_below};
ghost use Rattle.dch_coding.specs.Ttis.{IsCodedTti};
ghost use Rattle.dch_accept.specs.Blocks.{bits_of};
ghost use Rattle.dch_tti.specs.Loaded.{loaded_at};
ghost use Rattle.dch_dlphy.specs.Loaded.{IsLoaded, IsMatched, IsTtiOf};

use crate::fill::fill_front;
use crate::parts::{bits_per_frame, pattern_of};
use dch_accept::Accepted;
use dch_bits::{Bit, NoMemory, Trit};
use dch_coding::TtiCoder;
use dch_frame::{Pattern, kept};
use dch_tti::{TtiBuffer, tti_buffers};
use dch_types::{Dir, Format, Trch};
use std::alloc::Global;
use std::marker::Model;

/// The room in which a TTI is coded and filled.
struct Room {
    coder: TtiCoder,
    coded: Vec<Bit>,
    shown: Vec<Trit>,
    tti: Vec<Trit>,
    ghost coder_room: { coder ≡ length coded.items },
    ghost shown_room: { length shown.items ≡ length coded.items },
}

// By hand, so that whoever holds one drops it by one call.
impl Drop for Room {
    fn drop(self) {
        let Room {
            coder: _coder,
            coded: _coded,
            shown: _shown,
            tti: _tti,
        } = self;
    }
}

impl Room {
    /// Takes the memory for TTIs of so many coded bits and cells.
    fn open(alloc: Global, bits: usize, cells: usize) -> Result<Room, NoMemory>
        ensures bits { IfOk result (λ room. length room.coded.items ≡ bits) }
        ensures cells { IfOk result (λ room. length room.tti.items ≡ cells) }
    {
        Ok(Room {
            coder: TtiCoder::open(alloc, bits)?,
            coded: vec![in alloc; Bit::Zero; bits]?,
            shown: vec![in alloc; Trit::Off; bits]?,
            tti: vec![in alloc; Trit::Off; cells]?,
        })
    }

    /// Codes the blocks of a channel, fills their TTI, and loads it.
    fn load(
        &mut self,
        channel: &Trch,
        format: u8,
        pattern: &Pattern,
        places: u32,
        blocks: &[Bit],
        buffer: &mut TtiBuffer,
    )
        requires channel { IsChannel channel.now }
        requires format { format < length channel.now.formats }
        requires blocks { length blocks.now ≡ bits_of (format_at channel.now format) }
        requires pattern { IsWellFormed pattern.now }
        requires len { pattern.now.len ≡ tti_bits channel.now (format_at channel.now format) }
        requires fits { copies_below pattern.now.kind pattern.now.len ≤ channel.now.frames * places }
        requires coded { tti_bits channel.now (format_at channel.now format) ≤ length self.old.coded.items }
        requires room { channel.now.frames * places ≤ length self.old.tti.items }
        requires buffer { channel.now.frames * places ≤ buffer.old.room.cells }
        ensures loaded { IsMatched channel.now buffer.old.room format (record {
          pattern = pattern.now;
          cells = places;
        }) blocks.now buffer.new }
        ensures bits { length self.new.coded.items ≡ length self.old.coded.items }
        ensures cells { length self.new.tti.items ≡ length self.old.tti.items }
    {
        let kind = channel.format(format as usize);
        let bits = code_front(&mut self.coder, channel, kind, blocks, &mut self.coded);
        let frames = channel.frames as usize;
        let count = frames * places as usize;
        if kept(pattern) == 0 {
            buffer.load_silent(format, count);
        } else {
            fill_front(
                pattern,
                &self.coded[..bits],
                &mut self.shown,
                &mut self.tti,
                count,
            );
            buffer.load(format, frames, &self.tti[..count]);
        }
    }
}

/// Writes the coded bits of a TTI to the front of `out`, and answers how many there are.
fn code_front(
    coder: &mut TtiCoder,
    channel: &Trch,
    format: &Format,
    blocks: &[Bit],
    out: &mut [Bit],
) -> usize
    requires limit { tti_bits channel.now format.now ≤ 131072 }
    requires blocks { length blocks.now ≡ bits_of format.now }
    requires fits { tti_bits channel.now format.now ≤ coder.old }
    requires room { tti_bits channel.now format.now ≤ length out.old }
    ensures long { result ≡ tti_bits channel.now format.now }
    ensures coded { IsCodedTti channel.now format.now blocks.now (take result out.new) }
    ensures kept { coder.new ≡ coder.old }
{
    let bits = channel.tti_bits(format) as usize;
    coder.code(channel, format, blocks, &mut out[..bits]);
    bits
}

/// The running TTIs of all downlink channels, coded and ready to be sent.
pub struct DlTti {
    room: Room,
    tti_buffers: Vec<TtiBuffer>,
}

// By hand, so that whoever holds one drops it by one call.
impl Drop for DlTti {
    fn drop(self) {
        let DlTti {
            room: _room,
            tti_buffers: _tti_buffers,
        } = self;
    }
}

impl Model for DlTti {
    ghost use Rattle.std.specs.Prelude.{List, length};
    ghost use Rattle.dch_tti.specs.Loaded.{AreWithin, Loaded};

    ghost Value = { List Loaded };

    ghost view = { λ t. t.tti_buffers.items };

    ghost invariant = { λ t. AreWithin (length t.room.coded.items) (length t.room.tti.items) t.tti_buffers.items };
}

impl DlTti {
    /// Takes all memory that coding and sending want. Nothing is loaded.
    pub fn open(alloc: Global, accepted: &Accepted) -> Result<DlTti, NoMemory>
        ensures { IfOk result (IsTtiOf accepted.now) }
    {
        let room = accepted.most_room(Dir::Down);
        Ok(DlTti {
            room: Room::open(alloc, room.coding.bits, room.cells)?,
            tti_buffers: tti_buffers(alloc, accepted, Dir::Down)?,
        })
    }

    /// Loads the blocks of a channel for its next TTI: as many as the format has, one after another. They replace those
    /// that were loaded for that channel.
    pub fn load(&mut self, accepted: &Accepted, channel: u8, format: u8, blocks: &[Bit])
        requires opened { IsTtiOf accepted.now self.old }
        requires channel { channel < length accepted.now.config.downlink.side.channels }
        requires format { format < length (channel_at accepted.now.config.downlink.side channel).formats }
        requires blocks { length blocks.now ≡
            bits_of (format_at (channel_at accepted.now.config.downlink.side channel) format) }
        ensures opened { IsTtiOf accepted.now self.new }
        ensures loaded { IsLoaded accepted.now channel format blocks.now (loaded_at self.new channel) }
        ensures same { (i : ℕ) → i ≢ channel → loaded_at self.new i ≡ loaded_at self.old i }
    {
        let trch = accepted.channel(Dir::Down, channel);
        let pattern = pattern_of(accepted, channel, format);
        let places = bits_per_frame(accepted, channel, format);
        let buffer = &mut self.tti_buffers[channel as usize];
        self.room
            .load(trch, format, &pattern, places, blocks, buffer);
    }
}

impl DlTti {
    /// What is loaded of each channel.
    pub fn tti_buffers(&self) -> &[TtiBuffer]
        ensures { result.now ≡ self.now }
    {
        &self.tti_buffers
    }
}
