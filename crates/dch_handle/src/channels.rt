// The transport channels of a configuration behind a handle.
ghost use Rattle.std.specs.Prelude.{◌≡◌, ◌<◌, ◌≤◌, ◌≢◌, ◌⊎◌, ℕ, true, false, None, Some, length, IfErr, IfOk, IfSome, IfNone, OnOk};
ghost use Rattle.dch_types.specs.Limits.{IsSide};
ghost use Rattle.dch_types.specs.Parts.{channel_at, format_at, side_of};
ghost use Rattle.dch_accept.specs.Blocks.{HoldsTtis};
ghost use Rattle.dch_tti.specs.Formats.{IsBadFrame};
ghost use Rattle.dch_tti.specs.Loaded.{AreFormats};
ghost use Rattle.dch_tti.specs.Read.{IsTtiRead};
ghost use Rattle.dch_tti.specs.RxFrames.{IsReaderOf};
ghost use Rattle.dch_handle.specs.ChannelCalls.{AreLoadedFor, IsFormatTold, IsLongAs, IsReadInto, IsReadPast, IsWritten, Loads, Takes, TakesText, has_format, load_status, take_status};
ghost use Rattle.dch_handle.specs.Channels.{heard_in};
ghost use Rattle.dch_handle.specs.Codes.{bits_of};
ghost use Rattle.dch_handle.specs.Statuses.{IsRefused, bad_code, bad_size, bad_tti, done, not_loaded, short};

use crate::room::{Room, fill_blocks, fill_frame, show_blocks, show_frame};
use crate::status::{BAD_CODE, BAD_SIZE, BAD_TTI, DONE, NOT_LOADED};
use crate::tti::{Tti, TtiFormat};
use dch_accept::{Accepted, PhyFrame, TtiBlocks};
use dch_bits::NoMemory;
use dch_dlphy::{DlReader, DlTti};
use dch_tti::{CountVotes, TtiBuffer, TtiOutcome, TtiReader};
use dch_types::{Dir, Format, Side};
use dch_ulphy::{UlReader, UlTti};
use std::alloc::Global;
use std::marker::Model;

/// The transport channels of a configuration, in both directions: what is loaded of them to be sent, and the radio
/// frames that were received last. All memory is taken at opening.
pub struct Channels {
    accepted: Accepted,
    up: UlTti,
    down: DlTti,
    heard_up: UlReader,
    heard_down: DlReader,
    up_room: Room,
    down_room: Room,
}

// By hand, so that whoever holds one drops it by one call.
impl Drop for Channels {
    fn drop(self) {
        let Channels {
            accepted: _accepted,
            up: _up,
            down: _down,
            heard_up: _heard_up,
            heard_down: _heard_down,
            up_room: _up_room,
            down_room: _down_room,
        } = self;
    }
}

impl Model for Channels {
    ghost use Rattle.dch_types.specs.declared.channel.Dir.TheVariants.{Up, Down};
    ghost use Rattle.dch_handle.specs.Channels.{AreOpened, IsRoomFor, Trchs};

    ghost Value = { Trchs };

    ghost view = { λ c. record {
      planned = c.accepted;
      up = c.up;
      down = c.down;
      heard_up = c.heard_up;
      heard_down = c.heard_down;
    } };

    ghost invariant = { λ c. AreOpened (record {
      planned = c.accepted;
      up = c.up;
      down = c.down;
      heard_up = c.heard_up;
      heard_down = c.heard_down;
    }) × IsRoomFor c.accepted.config Up c.up_room.frame c.up_room.blocks ×
        IsRoomFor c.accepted.config Down c.down_room.frame c.down_room.blocks };
}

impl Channels {
    /// Takes all memory that the channels of a configuration want. No radio frame was received.
    pub fn open(alloc: Global, accepted: Accepted) -> Result<Channels, NoMemory>
        ensures { IfOk result (λ channels. channels.planned ≡ accepted) }
    {
        Ok(Channels {
            up: UlTti::open(alloc, &accepted)?,
            down: DlTti::open(alloc, &accepted)?,
            heard_up: UlReader::open(alloc, &accepted)?,
            heard_down: DlReader::open(alloc, &accepted)?,
            up_room: Room {
                frame: PhyFrame::open(alloc, &accepted, Dir::Up)?,
                blocks: TtiBlocks::open(alloc, &accepted, Dir::Up)?,
            },
            down_room: Room {
                frame: PhyFrame::open(alloc, &accepted, Dir::Down)?,
                blocks: TtiBlocks::open(alloc, &accepted, Dir::Down)?,
            },
            accepted,
        })
    }

    /// How many TFCI bits and cells a radio frame of a combination has.
    pub fn frame_size(&self, dir: Dir, combination: u16) -> Option<(usize, usize)>
        ensures some { IfSome result (λ sizes.
            (combination < length (side_of self.now.planned.config dir).combinations) ×
            IsLongAs self.now.planned dir combination sizes.0 sizes.1) }
        ensures none { IfNone result (length (side_of self.now.planned.config dir).combinations ≤ combination) }
    {
        if self.accepted.side(dir).combinations.len() <= usize::from(combination) {
            return None;
        }
        let cells = self.accepted.frame_cells(dir, combination);
        Some((self.accepted.tfci_bits(dir), cells))
    }

    /// A format of a channel, if there is one.
    pub fn format(&self, dir: Dir, channel: u8, format: u8) -> Option<TtiFormat>
        ensures some { IfSome result (λ it. (has_format self.now.planned dir channel format ≡ true) ×
            IsFormatTold self.now.planned dir channel format it) }
        ensures none { IfNone result (has_format self.now.planned dir channel format ≡ false) }
    {
        let kind = format_of(self.accepted.side(dir), channel, format)?;
        Some(TtiFormat {
            frames: self.accepted.frames_of(dir, channel),
            blocks: kind.number,
            size: kind.size,
        })
    }

    /// Loads the letters of the blocks of a channel for its next TTI, one block after another.
    pub fn load(&mut self, dir: Dir, channel: u8, format: u8, letters: &[u8]) -> u8
        ensures status { result ≡ load_status self.old.planned dir channel format letters.now }
        ensures done { result ≡ done → Loads dir channel format (bits_of letters.now) self.old self.new }
        ensures same { IsRefused result → self.new ≡ self.old }
    {
        let Some(kind) = format_of(self.accepted.side(dir), channel, format) else {
            return BAD_CODE;
        };
        if letters.len() != usize::from(kind.number) * usize::from(kind.size) {
            return BAD_SIZE;
        }
        match dir {
            Dir::Up => {
                if let Err(status) = fill_blocks(&mut self.up_room.blocks, format, &kind, letters) {
                    return status;
                }
                let bits = self.up_room.blocks.bits();
                self.up.load(&self.accepted, channel, format, bits);
            }
            Dir::Down => {
                if let Err(status) = fill_blocks(
                    &mut self.down_room.blocks,
                    format,
                    &kind,
                    letters,
                ) {
                    return status;
                }
                let bits = self.down_room.blocks.bits();
                self.down.load(&self.accepted, channel, format, bits);
            }
        }
        DONE
    }

    /// Writes the letters of the radio frame of a CFN in a combination.
    pub fn write(
        &mut self,
        dir: Dir,
        cfn: u8,
        combination: u16,
        tfci: &mut [u8],
        cells: &mut [u8],
    ) -> u8
        ensures code { length (side_of self.old.planned.config dir).combinations ≤ combination → result ≡ bad_code }
        ensures size { combination < length (side_of self.old.planned.config dir).combinations →
            ¬ IsLongAs self.old.planned dir combination (length tfci.old) (length cells.old) → result ≡ bad_size }
        ensures loaded { combination < length (side_of self.old.planned.config dir).combinations →
            IsLongAs self.old.planned dir combination (length tfci.old) (length cells.old) →
            ¬ AreLoadedFor self.old dir combination → result ≡ not_loaded }
        ensures written { combination < length (side_of self.old.planned.config dir).combinations →
            IsLongAs self.old.planned dir combination (length tfci.old) (length cells.old) →
            AreLoadedFor self.old dir combination →
            (result ≡ done) × IsWritten self.old dir cfn combination tfci.new cells.new }
        ensures same { IsRefused result → (tfci.new ≡ tfci.old) × (cells.new ≡ cells.old) }
        ensures kept { self.new ≡ self.old }
    {
        let Some((bits, places)) = self.frame_size(dir, combination) else {
            return BAD_CODE;
        };
        if tfci.len() != bits || cells.len() != places {
            return BAD_SIZE;
        }
        let side = self.accepted.side(dir);
        match dir {
            Dir::Up => {
                if !are_formats(side, combination, self.up.tti_buffers()) {
                    return NOT_LOADED;
                }
                let frame = &mut self.up_room.frame;
                dch_ulphy::write(&self.accepted, &self.up, cfn, combination, frame);
                show_frame(&self.up_room.frame, tfci, cells);
            }
            Dir::Down => {
                if !are_formats(side, combination, self.down.tti_buffers()) {
                    return NOT_LOADED;
                }
                let frame = &mut self.down_room.frame;
                dch_dlphy::write(&self.accepted, &self.down, cfn, combination, frame);
                show_frame(&self.down_room.frame, tfci, cells);
            }
        }
        DONE
    }

    /// Takes the letters of the radio frame of a CFN that was received.
    pub fn take(&mut self, dir: Dir, cfn: u8, tfci: &[u8], cells: &[u8]) -> u8
        ensures status { result ≡ take_status self.old.planned dir tfci.now cells.now }
        ensures done { result ≡ done → TakesText dir cfn tfci.now cells.now self.old self.new }
        ensures same { IsRefused result → self.new ≡ self.old }
    {
        if tfci.len() != self.accepted.tfci_bits(dir)
            || self.accepted.most_cells(dir) < cells.len()
        {
            return BAD_SIZE;
        }
        match dir {
            Dir::Up => {
                if let Err(status) = fill_frame(&mut self.up_room.frame, tfci, cells) {
                    return status;
                }
                let frame = self.up_room.frame.view();
                self.heard_up.push(&self.accepted, cfn, Some(frame));
            }
            Dir::Down => {
                if let Err(status) = fill_frame(&mut self.down_room.frame, tfci, cells) {
                    return status;
                }
                let frame = self.down_room.frame.view();
                self.heard_down.push(&self.accepted, cfn, Some(frame));
            }
        }
        DONE
    }

    /// Takes that the radio frame of a CFN is missing.
    pub fn miss(&mut self, dir: Dir, cfn: u8)
        ensures { Takes dir cfn None self.old self.new }
    {
        match dir {
            Dir::Up => self.heard_up.push(&self.accepted, cfn, None),
            Dir::Down => self.heard_down.push(&self.accepted, cfn, None),
        }
    }

    /// Reads the TTI of a channel that the last radio frame ends, and writes the letters and the marks of its blocks at
    /// the front of two buffers.
    pub fn read(
        &mut self,
        dir: Dir,
        channel: u8,
        letters: &mut [u8],
        marks: &mut [u8],
        tti: &mut Tti,
    ) -> u8
        ensures code { length (side_of self.old.planned.config dir).channels ≤ channel →
            (result ≡ bad_code) × (tti.new ≡ tti.old) }
        ensures status { channel < length (side_of self.old.planned.config dir).channels →
            (result ≡ done) ⊎ ((result ≡ short) ⊎ (result ≡ bad_tti)) }
        ensures done { result ≡ done →
            IsReadInto self.old dir channel letters.old marks.old letters.new marks.new tti.new }
        ensures short { result ≡ short → IsReadPast self.old dir channel letters.old marks.old tti.new }
        ensures bad { result ≡ bad_tti →
            IsBadFrame (side_of self.old.planned.config dir) (heard_in self.old dir) channel tti.new.bad_frame ×
            (tti.new ≡ record tti.old { bad_frame = tti.new.bad_frame }) }
        ensures same { IsRefused result → (letters.new ≡ letters.old) × (marks.new ≡ marks.old) }
        ensures kept { self.new ≡ self.old }
    {
        if self.accepted.side(dir).channels.len() <= usize::from(channel) {
            return BAD_CODE;
        }
        match dir {
            Dir::Up => {
                let held = &mut self.up_room.blocks;
                match read_tti(&self.accepted, &mut self.heard_up, channel, held) {
                    Ok(size) => show_blocks(held, size, letters, marks, tti),
                    Err(n) => tell_bad(n, tti),
                }
            }
            Dir::Down => {
                let held = &mut self.down_room.blocks;
                match read_tti(&self.accepted, &mut self.heard_down, channel, held) {
                    Ok(size) => show_blocks(held, size, letters, marks, tti),
                    Err(n) => tell_bad(n, tti),
                }
            }
        }
    }
}

/// Tells the first bad radio frame of a TTI.
fn tell_bad(n: u8, tti: &mut Tti) -> u8
    ensures status { result ≡ bad_tti }
    ensures told { tti.new ≡ record tti.old { bad_frame = n } }
{
    tti.bad_frame = n;
    BAD_TTI
}

/// Reads the TTI of a channel that the last radio frame ends, and answers how many bits each of its blocks has, or its
/// first bad radio frame.
fn read_tti<R: CountVotes + Drop>(
    accepted: &Accepted,
    reader: &mut TtiReader<R>,
    channel: u8,
    held: &mut TtiBlocks,
) -> Result<usize, u8>
    requires opened { IsReaderOf accepted.now R.dir reader.old }
    requires blocks { HoldsTtis (side_of accepted.now.config R.dir) held.old.room }
    requires channel { channel < length (side_of accepted.now.config R.dir).channels }
    ensures size { IfOk result (λ size. size ≡ held.new.size) }
    ensures read { OnOk result (IsTtiRead accepted.now R.dir (R.counts accepted.now) reader.old channel held.new) }
    ensures bad { IfErr result (λ n. IsBadFrame (side_of accepted.now.config R.dir) reader.old channel n) }
    ensures room { held.new.room ≡ held.old.room }
    ensures kept { reader.new ≡ reader.old }
{
    match reader.read(accepted, channel, held) {
        TtiOutcome::Blocks => {
            let trch = accepted.channel(R::dir(), channel);
            Ok(usize::from(trch.format(usize::from(held.format())).size))
        }
        TtiOutcome::BadFrame(n) => Err(n),
    }
}

/// A format of a channel, if there is one.
fn format_of(side: &Side, channel: u8, format: u8) -> Option<Format>
    requires { IsSide side.now }
    ensures some { IfSome result (λ it. (channel < length side.now.channels) ×
        (format < length (channel_at side.now channel).formats) ×
        (it ≡ format_at (channel_at side.now channel) format) × (it.number ≤ 64)) }
    ensures none { IfNone result (channel < length side.now.channels →
        length (channel_at side.now channel).formats ≤ format) }
{
    let trch = side.channels.as_slice().get(usize::from(channel))?;
    trch.formats.as_slice().get(usize::from(format)).copied()
}

/// Whether the loaded formats are those of a combination.
fn are_formats(side: &Side, combination: u16, tti_buffers: &[TtiBuffer]) -> bool
    requires side { IsSide side.now }
    requires combination { combination < length side.now.combinations }
    requires all { length tti_buffers.now ≡ length side.now.channels }
    ensures yes { result ≡ true → AreFormats side.now combination tti_buffers.now }
    ensures no { result ≡ false → ¬ AreFormats side.now combination tti_buffers.now }
{
    for i in 0..side.channels.len() {
        if tti_buffers[i].format() != Some(side.tfi(usize::from(combination), i)) {
            return false;
        }
    }
    true
}
