ghost use Rattle.std.specs.Prelude.{◌≡◌, ◌≢◌, ◌<◌, ℕ, length, IfErr, IfOk};
ghost use Rattle.dch_types.specs.declared.channel.Dir.TheVariants.{Up};
ghost use Rattle.dch_types.specs.Parts.{channel_at};
ghost use Rattle.dch_accept.specs.Frames.{most_cells};
ghost use Rattle.dch_accept.specs.HeldSets.{IsSetOf, held_at};
ghost use Rattle.dch_tti.specs.Formats.{IsBadFrame};
ghost use Rattle.dch_ulphy.specs.Read.{IsTtiRead};
ghost use Rattle.dch_tti.specs.RxFrames.{AreMissing, HasTfci};
ghost use Rattle.dch_txframes.specs.Lending.{radio_of};
ghost use Rattle.dch_nodeb.specs.Moves.{Hears};
ghost use Rattle.dch_nodeb.specs.Opened.{IsReceiverOf};
ghost use Rattle.dch_nodeb.specs.Steps.{AreRead, IsBadTti};

use dch_accept::{Accepted, FrameView, SetBlocks, TtiBlocks};
use dch_bits::NoMemory;
use dch_types::Dir;
use dch_ulphy::{TtiOutcome, UlReader};
use std::alloc::Global;
use std::marker::Model;

/// A channel whose TTI can't be read, and the first bad radio frame of that.
#[derive(Clone, Copy)]
pub struct BadTti {
    pub channel: u8,
    pub frame: u8,
}

/// What receives the uplink's radio frames, with room for the blocks of a TTI.
#[derive(Drop)]
pub struct UplinkReceiver {
    reader: UlReader,
    tti: TtiBlocks,
}

impl Model for UplinkReceiver {
    ghost use Rattle.dch_nodeb.specs.Values.{UplinkReceiver};

    ghost Value = { UplinkReceiver };

    ghost view = { λ r. record { rx_frames = r.reader; tti = r.tti } };
}

impl UplinkReceiver {
    /// Takes all memory that receiving wants. No frame is there.
    pub fn open(alloc: Global, accepted: &Accepted) -> Result<UplinkReceiver, NoMemory>
        ensures opened { IfOk result (IsReceiverOf accepted.now) }
        ensures missing { IfOk result (λ receiver. AreMissing (most_cells accepted.now.config Up)
            8 receiver.rx_frames.frames) }
    {
        Ok(UplinkReceiver {
            reader: UlReader::open(alloc, accepted)?,
            tti: TtiBlocks::open(alloc, accepted, Dir::Up)?,
        })
    }

    /// Takes the radio frame of the next CFN, or that it is missing.
    pub fn push(&mut self, accepted: &Accepted, cfn: u8, frame: Option<FrameView<'_>>)
        requires opened { IsReceiverOf accepted.now self.old }
        requires tfci { HasTfci accepted.now Up frame }
        ensures hears { Hears accepted.now cfn (radio_of frame.entry) self.old.rx_frames self.new.rx_frames }
        ensures opened { IsReceiverOf accepted.now self.new }
    {
        self.reader.push(accepted, cfn, frame);
    }

    /// Reads the TTIs of the channels of a set, which the last radio frame ends.
    pub fn read_set(
        &mut self,
        accepted: &Accepted,
        set: u8,
        blocks: &mut SetBlocks,
    ) -> Result<(), BadTti>
        requires opened { IsReceiverOf accepted.now self.old }
        requires blocks { IsSetOf accepted.now.config Up set blocks.old }
        ensures read { IfOk result (λ _. AreRead accepted.now self.old.rx_frames set blocks.new) }
        ensures bad { IfErr result (λ bad. IsBadTti accepted.now.config.uplink.side self.old.rx_frames set bad.channel
            bad.frame) }
        ensures blocks { IsSetOf accepted.now.config Up set blocks.new }
        ensures opened { IsReceiverOf accepted.now self.new }
        ensures same { self.new.rx_frames ≡ self.old.rx_frames }
    {
        let side = accepted.side(Dir::Up);
        for i in 0..side.channels.len() {
            let channel = i as u8;
            if side.channel(i).set == set {
                match self.read(accepted, set, channel, blocks) {
                    Ok(()) => {}
                    Err(bad) => return Err(bad),
                }
            }
        }
        Ok(())
    }

    /// Reads the TTI of a channel of a set.
    fn read(
        &mut self,
        accepted: &Accepted,
        set: u8,
        channel: u8,
        blocks: &mut SetBlocks,
    ) -> Result<(), BadTti>
        requires opened { IsReceiverOf accepted.now self.old }
        requires blocks { IsSetOf accepted.now.config Up set blocks.old }
        requires channel { channel < length accepted.now.config.uplink.side.channels }
        requires member { (channel_at accepted.now.config.uplink.side channel).set ≡ set }
        ensures read { IfOk result (λ _. IsTtiRead accepted.now self.old.rx_frames channel
            (held_at blocks.new.blocks channel)) }
        ensures bad { IfErr result (λ bad. (bad.channel ≡ channel) ×
            IsBadFrame accepted.now.config.uplink.side self.old.rx_frames channel bad.frame) }
        ensures others { (j : ℕ) → j ≢ channel → held_at blocks.new.blocks j ≡ held_at blocks.old.blocks j }
        ensures blocks { IsSetOf accepted.now.config Up set blocks.new }
        ensures opened { IsReceiverOf accepted.now self.new }
        ensures same { self.new.rx_frames ≡ self.old.rx_frames }
    {
        match self.reader.read(accepted, channel, &mut self.tti) {
            TtiOutcome::Blocks => {
                blocks.add(channel, &self.tti);
                Ok(())
            }
            TtiOutcome::BadFrame(frame) => Err(BadTti { channel, frame }),
        }
    }
}
