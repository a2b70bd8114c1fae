use crate::demultiplexing::demultiplex_tti;
use dch_accept::{Accepted, TtiRoom};
use dch_bits::{NoMemory, Vote};
use dch_tti::{CountVotes, ReceivedFrames, TtiReader};
use dch_types::Dir;
use std::alloc::Global;

/// The room to count the votes of a radio frame.
#[derive(Drop)]
pub struct UlScratch {
    counted: Vec<Vote>,
}

impl CountVotes for UlScratch {
    ghost use Rattle.std.specs.Prelude.{length};
    ghost use Rattle.dch_types.specs.declared.channel.Dir.TheVariants.{Up};
    ghost use Rattle.dch_ulphy.specs.Damaged.{WasDamaged};
    ghost use Rattle.dch_ulphy.specs.Given.{gives_its_format};
    ghost use Rattle.dch_ulphy.specs.Read.{AreVotes};

    ghost size = { λ s. length s.counted.items };

    ghost size_for = { λ room. room.frame_bits };

    fn open(alloc: Global, room: &TtiRoom) -> Result<UlScratch, NoMemory> {
        let none = Vote { zeros: 0, ones: 0 };
        Ok(UlScratch {
            counted: vec![in alloc; none; room.frame_bits]?,
        })
    }

    ghost dir = { Up };

    ghost counts = { AreVotes };

    ghost damaged = { WasDamaged };

    fn dir() -> Dir {
        Dir::Up
    }

    fn count(
        &mut self,
        accepted: &Accepted,
        rx_frames: &ReceivedFrames,
        channel: u8,
        format: u8,
        out: &mut [Vote],
    ) {
        // Each radio frame has the plan of its combination.
        let _config = accepted.config();
        let trch = accepted.channel(Dir::Up, channel);
        let bits = trch.tti_bits(trch.format(format as usize)) as usize;
        let frames = trch.frames as usize;
        let rows = bits.div_ceil(frames);
        let votes = &mut out[..rows * frames];
        demultiplex_tti(
            accepted,
            rx_frames,
            channel,
            self.counted.slice_mut(..rows),
            votes,
        );
    }

    ghost gives = { gives_its_format };
}

/// Received uplink radio frames, from which the TTIs of the channels are read: each radio frame by the plan of its own
/// combination.
pub type UlReader = TtiReader<UlScratch>;
