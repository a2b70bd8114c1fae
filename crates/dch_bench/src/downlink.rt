ghost use Rattle.std.specs.Prelude.{IfOk};

use crate::ends::Ends;
use dch_accept::{Accepted, PhyFrame, TtiBlocks};
use dch_bits::{Bit, NoMemory};
use dch_dlphy::{DlReader, DlTti, write};
use dch_tti::TtiOutcome;
use dch_types::Dir;
use std::alloc::Global;

/// Both ends of the downlink.
#[derive(Drop)]
pub struct DownlinkEnds {
    tti: DlTti,
    reader: DlReader,
}

impl DownlinkEnds {
    /// Takes all memory. Nothing is loaded, and no frame is there.
    pub fn open(alloc: Global, accepted: &Accepted) -> Result<DownlinkEnds, NoMemory>
        ensures { IfOk result (⟦<DownlinkEnds as Ends>⟧.opened accepted.now) }
    {
        Ok(DownlinkEnds {
            tti: DlTti::open(alloc, accepted)?,
            reader: DlReader::open(alloc, accepted)?,
        })
    }
}

impl Ends for DownlinkEnds {
    ghost use Rattle.dch_types.specs.declared.channel.Dir.TheVariants.{Down};
    ghost use Rattle.dch_tti.specs.RxFrames.{IsReaderOf};
    ghost use Rattle.dch_dlphy.specs.Loaded.{IsTtiOf};

    ghost dir = { Down };

    ghost loaded = { λ ends. ends.tti };

    ghost opened = { λ planned ends. IsTtiOf planned ends.tti × IsReaderOf planned Down ends.reader };

    fn dir() -> Dir {
        Dir::Down
    }

    fn load(&mut self, accepted: &Accepted, channel: u8, format: u8, blocks: &[Bit]) {
        self.tti.load(accepted, channel, format, blocks);
    }

    fn write(&self, accepted: &Accepted, cfn: u8, combination: u16, out: &mut PhyFrame) {
        write(accepted, &self.tti, cfn, combination, out);
    }

    fn receive(&mut self, accepted: &Accepted, cfn: u8, frame: &PhyFrame) {
        self.reader.push(accepted, cfn, Some(frame.view()));
    }

    fn read(&mut self, accepted: &Accepted, channel: u8, out: &mut TtiBlocks) -> TtiOutcome {
        self.reader.read(accepted, channel, out)
    }
}
