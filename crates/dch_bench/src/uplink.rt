ghost use Rattle.std.specs.Prelude.{IfOk};

use crate::ends::Ends;
use dch_accept::{Accepted, PhyFrame, TtiBlocks};
use dch_bits::{Bit, NoMemory};
use dch_tti::TtiOutcome;
use dch_types::Dir;
use dch_ulphy::{UlReader, UlTti, write};
use std::alloc::Global;

/// Both ends of the uplink.
#[derive(Drop)]
pub struct UplinkEnds {
    tti: UlTti,
    reader: UlReader,
}

impl UplinkEnds {
    /// Takes all memory. Nothing is loaded, and no frame is there.
    pub fn open(alloc: Global, accepted: &Accepted) -> Result<UplinkEnds, NoMemory>
        ensures { IfOk result (⟦<UplinkEnds as Ends>⟧.opened accepted.now) }
    {
        Ok(UplinkEnds {
            tti: UlTti::open(alloc, accepted)?,
            reader: UlReader::open(alloc, accepted)?,
        })
    }
}

impl Ends for UplinkEnds {
    ghost use Rattle.dch_types.specs.declared.channel.Dir.TheVariants.{Up};
    ghost use Rattle.dch_tti.specs.RxFrames.{IsReaderOf};
    ghost use Rattle.dch_ulphy.specs.Loaded.{IsTtiOf};

    ghost dir = { Up };

    ghost loaded = { λ ends. ends.tti };

    ghost opened = { λ planned ends. IsTtiOf planned ends.tti × IsReaderOf planned Up ends.reader };

    fn dir() -> Dir {
        Dir::Up
    }

    fn load(&mut self, accepted: &Accepted, channel: u8, format: u8, blocks: &[Bit]) {
        self.tti.load(accepted, channel, format, blocks);
    }

    fn write(&self, accepted: &Accepted, cfn: u8, combination: u16, out: &mut PhyFrame) {
        // A frame is at most as long as the longest one.
        let _plan = accepted.uplink_plan(combination);
        write(accepted, &self.tti, cfn, combination, out);
    }

    fn receive(&mut self, accepted: &Accepted, cfn: u8, frame: &PhyFrame) {
        self.reader.push(accepted, cfn, Some(frame.view()));
    }

    fn read(&mut self, accepted: &Accepted, channel: u8, out: &mut TtiBlocks) -> TtiOutcome {
        self.reader.read(accepted, channel, out)
    }
}
