ghost use Rattle.std.specs.Prelude.{◌≡◌, ◌<◌, ◌≤◌, ◌+◌, ℕ, List, length, slice_index_or, IfOk};
ghost use Rattle.dch_bits.specs.declared.bit.Bit.{Bit};
ghost use Rattle.dch_bits.specs.declared.bit.Vote.{Vote};
ghost use Rattle.dch_types.specs.declared.channel.Dir.{Dir};
ghost use Rattle.dch_types.specs.Parts.{side_of};
ghost use Rattle.dch_accept.specs.Blocks.{Held, HoldsTtis};
ghost use Rattle.dch_accept.specs.declared.room.TtiRoom.{TtiRoom};
ghost use Rattle.dch_accept.specs.Frames.{most_cells};
ghost use Rattle.dch_accept.specs.Plans.{Planned};
ghost use Rattle.dch_tti.specs.Received.{ArrivesAs};
ghost use Rattle.dch_tti.specs.Formats.{IsFormatOf};
ghost use Rattle.dch_tti.specs.Outcomes.{GivesItsFormat, IsOutcome, IsSentBack};
ghost use Rattle.dch_tti.specs.Pushed.{IsPushed};
ghost use Rattle.dch_tti.specs.Read.{AreVotesOf, IsTtiRead, coded_in, votes_in};
ghost use Rattle.dch_tti.specs.RxFrames.{AreMissing, HasTfci, IsReaderOf, RxFrames};

use crate::decoder::Decoder;
use crate::outcome::TtiOutcome;
use crate::received_frames::ReceivedFrames;
use dch_accept::{Accepted, FrameView, TtiBlocks, TtiRoom};
use dch_bits::{NoMemory, Vote};
use dch_types::Dir;
use std::alloc::Global;
use std::marker::Model;

/// How a direction counts the votes for the coded bits of a channel's TTI in the radio frames that are kept of it.
pub trait CountVotes {
    ghost dir: { Dir };

    // The votes for the coded bits of a channel's TTI in a format.
    ghost counts: { Planned → RxFrames → ℕ → ℕ → List Vote → Type 0 };

    // Blocks of a channel in a format were sent, and the radio frames of their TTI are kept in the combinations in
    // which they were written, with so few cells changed that the blocks can be told.
    ghost damaged: { Planned → RxFrames → ℕ → ℕ → List Bit → Type 0 };

    // How much room there is to count, and how much of it TTIs of that size want.
    ghost size: { Self → ℕ };

    ghost size_for: { TtiRoom → ℕ };

    /// The direction.
    fn dir() -> Dir
        ensures { result ≡ dir };

    /// Takes all memory that counting the votes of TTIs of that size wants.
    fn open(alloc: Global, room: &TtiRoom) -> Result<Self, NoMemory>
        ensures { IfOk result (λ scratch. size scratch ≡ size_for room.now) };

    /// Counts the votes for the coded bits of a channel's TTI in a format that all of its radio frames give it, at the
    /// front of
    /// `out`.
    fn count(
        &mut self,
        accepted: &Accepted,
        rx_frames: &ReceivedFrames,
        channel: u8,
        format: u8,
        out: &mut [Vote],
    )
        requires opened { IsReaderOf accepted.now dir rx_frames.now }
        requires channel { channel < length (side_of accepted.now.config dir).channels }
        requires format { IsFormatOf (side_of accepted.now.config dir) rx_frames.now channel format }
        requires scratch { size self.old ≡ size_for rx_frames.now.room }
        requires room { length out.old ≡ rx_frames.now.room.coding.bits }
        ensures counted { counts accepted.now rx_frames.now channel format
            (votes_in (side_of accepted.now.config dir) channel format out.new) }
        ensures few { (j : ℕ) (v : Vote) → j < coded_in (side_of accepted.now.config dir) channel format →
            (slice_index_or out.new j v).zeros + (slice_index_or out.new j v).ones ≤ 460800 }
        ensures corrected { (blocks : List Bit) → damaged accepted.now rx_frames.now channel format blocks →
            AreVotesOf (side_of accepted.now.config dir) channel format blocks
            (votes_in (side_of accepted.now.config dir) channel format out.new) }
        ensures kept { size self.new ≡ size self.old };

    /// The radio frames of such a TTI give the channel the format in which its blocks were sent.
    ghost gives: { GivesItsFormat dir damaged };
}

/// Received radio frames of a direction, and the room to read the TTIs of its channels from them.
pub struct TtiReader<R: CountVotes> {
    rx_frames: ReceivedFrames,
    scratch: R,
    votes: Vec<Vote>,
    decoder: Decoder,
}

// By hand, so that whoever holds one drops it by one call.
impl<R: CountVotes + Drop> Drop for TtiReader<R> {
    fn drop(self) {
        let TtiReader {
            rx_frames: _rx_frames,
            scratch: _scratch,
            votes: _votes,
            decoder: _decoder,
        } = self;
    }
}

impl<R: CountVotes> Model for TtiReader<R> {
    ghost use Rattle.std.specs.Prelude.{◌≡◌, length};
    ghost use Rattle.dch_tti.specs.RxFrames.{RxFrames};

    ghost Value = { RxFrames };

    ghost view = { λ r. r.rx_frames };

    ghost invariant = { λ r. (R.size r.scratch ≡ R.size_for r.rx_frames.room) ×
        (length r.votes.items ≡ r.rx_frames.room.coding.bits) × (r.decoder ≡ r.rx_frames.room.coding) };
}

impl<R: CountVotes + Drop> TtiReader<R> {
    /// Takes all memory that receiving wants. No frame is there.
    pub fn open(alloc: Global, accepted: &Accepted) -> Result<TtiReader<R>, NoMemory>
        ensures missing { IfOk result (λ reader. AreMissing (most_cells accepted.now.config R.dir) 8 reader.frames) }
        ensures opened { IfOk result (IsReaderOf accepted.now R.dir) }
    {
        let dir = R::dir();
        let room = accepted.most_room(dir);
        Ok(TtiReader {
            rx_frames: ReceivedFrames::open(alloc, accepted.most_cells(dir), room)?,
            scratch: R::open(alloc, &room)?,
            votes: vec![in alloc; Vote { zeros: 0, ones: 0 }; room.coding.bits]?,
            decoder: Decoder::open(alloc, room.coding)?,
        })
    }

    /// Takes the radio frame of the next CFN, or that it is missing. The last 8 are held. A frame is kept where its
    /// TFCI names a combination of the list and it is as long as the frames of that one (TS 25.212 4.3.3, 4.3.5);
    /// otherwise it counts as missing.
    pub fn push(&mut self, accepted: &Accepted, cfn: u8, frame: Option<FrameView<'_>>)
        requires opened { IsReaderOf accepted.now R.dir self.old }
        requires tfci { HasTfci accepted.now R.dir frame }
        ensures pushed { IsPushed accepted.now R.dir cfn frame.entry self.old self.new }
        ensures opened { IsReaderOf accepted.now R.dir self.new }
    {
        self.rx_frames.push(accepted, R::dir(), cfn, frame);
    }

    /// Reads the TTI of a channel that the last frame ends (TS 25.212 4.2.1 to 4.2.12, read backwards). A bad frame
    /// leaves the blocks as they were. Just the blocks that were sent are read, all good, where each radio frame is
    /// kept in its combination and few cells of each code block are changed: the wrong bits twice and the missing ones
    /// once are less than the copies in which two blocks differ. With a copy of each coded bit five bits may be wrong
    /// at rate 1/2, and eight at rate 1/3.
    pub fn read(&mut self, accepted: &Accepted, channel: u8, out: &mut TtiBlocks) -> TtiOutcome
        requires opened { IsReaderOf accepted.now R.dir self.old }
        requires blocks { HoldsTtis (side_of accepted.now.config R.dir) out.old.room }
        requires channel { channel < length (side_of accepted.now.config R.dir).channels }
        ensures outcome { IsOutcome (side_of accepted.now.config R.dir)
            (IsTtiRead accepted.now R.dir (R.counts accepted.now)) self.old channel out.old result out.new }
        ensures corrected { (format : ℕ) (blocks : List Bit) → R.damaged accepted.now self.old channel format blocks →
            IsSentBack format blocks result out.new }
        ensures room { out.new.room ≡ out.old.room }
        ensures kept { self.new ≡ self.old }
    {
        match self.rx_frames.format_of_tti(accepted, R::dir(), channel) {
            Ok(format) => {
                self.read_blocks(accepted, channel, format, out);
                TtiOutcome::Blocks
            }
            Err(n) => TtiOutcome::BadFrame(n),
        }
    }

    /// Reads the blocks of a channel's TTI in a format that all of its radio frames give it.
    fn read_blocks(&mut self, accepted: &Accepted, channel: u8, format: u8, out: &mut TtiBlocks)
        requires opened { IsReaderOf accepted.now R.dir self.old }
        requires blocks { HoldsTtis (side_of accepted.now.config R.dir) out.old.room }
        requires channel { channel < length (side_of accepted.now.config R.dir).channels }
        requires format { IsFormatOf (side_of accepted.now.config R.dir) self.old channel format }
        ensures read { IsTtiRead accepted.now R.dir (R.counts accepted.now) self.old channel out.new }
        ensures corrected { (blocks : List Bit) → R.damaged accepted.now self.old channel format blocks →
            ArrivesAs blocks out.new }
        ensures number { out.new.format ≡ format }
        ensures room { out.new.room ≡ out.old.room }
        ensures kept { self.new ≡ self.old }
    {
        self.scratch.count(accepted, &self.rx_frames, channel, format, &mut self.votes);
        let trch = accepted.channel(R::dir(), channel);
        let kind = trch.format(format as usize);
        let votes = &self.votes[..trch.tti_bits(kind) as usize];
        self.decoder.read(trch, format, kind, votes, out);
    }
}
