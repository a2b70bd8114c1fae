use crate::demultiplexing::demultiplex_tti;
use crate::parts::{bits_per_frame, pattern_of};
use dch_accept::{Accepted, TtiRoom};
use dch_bits::{NoMemory, Trit, Vote};
use dch_frame::{count_votes, kept};
use dch_tti::{CountVotes, ReceivedFrames, TtiReader};
use dch_types::Dir;
use std::alloc::Global;

/// Received downlink radio frames, from which the TTIs of the channels are read: where the places of a channel lie in a
/// radio frame is told by its own combination.
pub type DlReader = TtiReader<DlScratch>;

/// The room to gather the cells of a TTI.
#[derive(Drop)]
pub struct DlScratch {
    cells: Vec<Trit>,
}

impl CountVotes for DlScratch {
    ghost use Rattle.std.specs.Prelude.{length};
    ghost use Rattle.dch_types.specs.declared.channel.Dir.TheVariants.{Down};
    ghost use Rattle.dch_dlphy.specs.Damaged.{WasDamaged};
    ghost use Rattle.dch_dlphy.specs.Given.{gives_its_format};
    ghost use Rattle.dch_dlphy.specs.Read.{AreVotes};

    ghost dir = { Down };

    ghost counts = { AreVotes };

    ghost damaged = { WasDamaged };

    fn dir() -> Dir {
        Dir::Down
    }

    ghost size = { λ s. length s.cells.items };

    ghost size_for = { λ room. room.cells };

    fn open(alloc: Global, room: &TtiRoom) -> Result<DlScratch, NoMemory> {
        Ok(DlScratch {
            cells: vec![in alloc; Trit::Off; room.cells]?,
        })
    }

    fn count(
        &mut self,
        accepted: &Accepted,
        rx_frames: &ReceivedFrames,
        channel: u8,
        format: u8,
        out: &mut [Vote],
    ) {
        // A radio frame has room for the places of its channels in each combination.
        let _config = accepted.config();
        let pattern = pattern_of(accepted, channel, format);
        let places = bits_per_frame(accepted, channel, format) as usize;
        let frames = accepted.frames_of(Dir::Down, channel) as usize;
        let room = self.cells.slice_mut(..places * frames);
        demultiplex_tti(accepted, rx_frames, channel, format, room);
        let cells = &self.cells[..kept(&pattern) as usize];
        count_votes(&pattern, cells, &mut out[..pattern.len as usize]);
    }

    ghost gives = { gives_its_format };
}
