ghost use Rattle.std.specs.Prelude.{◌≡◌, ◌<◌, ◌≤◌, ℕ, None, true, false, length, IfOk};
ghost use Rattle.dch_types.specs.declared.channel.Dir.TheVariants.{Down};
ghost use Rattle.dch_types.specs.Parts.{channel_at};
ghost use Rattle.dch_types.specs.Timing.{ends};
ghost use Rattle.dch_accept.specs.Blocks.{HoldsTtis};
ghost use Rattle.dch_accept.specs.Frames.{most_cells};
ghost use Rattle.dch_tti.specs.RxFrames.{AreMissing, HasTfci, IsReaderOf};
ghost use Rattle.dch_layer2.specs.Bounded.{HasRead, IsTti};
ghost use Rattle.dch_layer2.specs.Standing.{IsLayerOf};
ghost use Rattle.dch_txframes.specs.Lending.{radio_of};
ghost use Rattle.dch_ue.specs.Lending.{held_of};
ghost use Rattle.dch_ue.specs.Moves.{AreClearedTo, AreReadTo, Comes, Completes, Gives, Receives};
ghost use Rattle.dch_ue.specs.Opened.{AreNewTtis, AreTtisOf, IsReceiverOf};
ghost use Rattle.dch_ue.specs.Steps.{IsReading};
ghost use Rattle.dch_ue.specs.Values.{blocks_read, reading_of, readings_of, tti_at};

use dch_accept::{Accepted, FrameView, TtiBlocks};
use dch_bits::NoMemory;
use dch_dlphy::{DlReader, TtiOutcome};
use dch_indication::Indications;
use dch_layer2::Layer2;
use dch_txframes::tell_bad_tti;
use dch_types::{Dir, ends};
use std::alloc::Global;
use std::marker::Model;

/// Room for the blocks of a TTI of a channel, and what the last step read there, if the TTI ended.
#[derive(Drop)]
struct RxTti {
    blocks: TtiBlocks,
    outcome: Option<TtiOutcome>,
}

impl Model for RxTti {
    ghost use Rattle.dch_ue.specs.Values.{RxTti};

    ghost Value = { RxTti };

    ghost view = { λ t. record { held = t.blocks; outcome = t.outcome } };
}

impl RxTti {
    /// Nothing is shown as read.
    fn clear_read(&mut self)
        ensures { self.new ≡ record self.old { outcome = None } }
    {
        self.outcome = None;
    }

    /// Reads the TTI of a channel, which the last radio frame ends.
    fn read(&mut self, accepted: &Accepted, channel: u8, reader: &mut DlReader)
        requires opened { IsReaderOf accepted.now Down reader.old }
        requires blocks { HoldsTtis accepted.now.config.downlink.side self.old.held.room }
        requires channel { channel < length accepted.now.config.downlink.side.channels }
        requires over { ends (channel_at accepted.now.config.downlink.side channel).frames reader.old.cfn ≡ true }
        ensures reading { IsReading accepted.now reader.old channel (reading_of self.new) }
        ensures room { self.new.held.room ≡ self.old.held.room }
        ensures kept { reader.new ≡ reader.old }
    {
        let outcome = reader.read(accepted, channel, &mut self.blocks);
        self.outcome = Some(outcome);
    }

    /// Gives what was read of a channel to layer 2, and tells it where the TTI can't be read.
    fn give<U: Indications>(
        &self,
        accepted: &Accepted,
        channel: u8,
        layer: &mut Layer2,
        user: &mut U,
    )
        requires channel { channel < length accepted.now.config.downlink.side.channels }
        requires tti { IsTti accepted.now.config Down channel (reading_of self.now) }
        requires layer { IsLayerOf accepted.now.config layer.old }
        requires receives { layer.old.into ≡ Down }
        ensures { Gives U.shows accepted.now.config channel (reading_of self.now)
            layer.old layer.new user.old user.new }
    {
        match self.outcome {
            None => {}
            Some(TtiOutcome::Blocks) => layer.take(accepted, channel, &self.blocks, user),
            Some(TtiOutcome::BadFrame(frame)) => tell_bad_tti(user, Dir::Down, channel, frame),
        }
    }
}

/// What receives the downlink's radio frames, and reads the TTIs of the channels.
#[derive(Drop)]
pub struct DownlinkReceiver {
    reader: DlReader,
    pushed: bool,
    ttis: Vec<RxTti>,
}

impl Model for DownlinkReceiver {
    ghost use Rattle.dch_ue.specs.Values.{DownlinkReceiver};

    ghost Value = { DownlinkReceiver };

    ghost view = { λ r. record { rx_frames = r.reader; pushed = r.pushed; ttis = r.ttis.items } };
}

impl DownlinkReceiver {
    /// Takes all memory that receiving wants. No frame is there, and nothing is read.
    pub fn open(alloc: Global, accepted: &Accepted) -> Result<DownlinkReceiver, NoMemory>
        ensures opened { IfOk result (IsReceiverOf accepted.now) }
        ensures missing { IfOk result (λ receiver. AreMissing (most_cells accepted.now.config Down)
            8 receiver.rx_frames.frames) }
        ensures none { IfOk result (λ receiver. receiver.pushed ≡ false) }
        ensures quiet { IfOk result (λ receiver. AreNewTtis accepted.now
            (length accepted.now.config.downlink.side.channels) receiver.ttis) }
    {
        Ok(DownlinkReceiver {
            reader: DlReader::open(alloc, accepted)?,
            pushed: false,
            ttis: rx_ttis(alloc, accepted)?,
        })
    }

    /// The blocks of a channel that the last step read, if it read that channel.
    pub fn taken(&self, channel: u8) -> Option<&TtiBlocks>
        requires { channel < length self.now.ttis }
        ensures { held_of result ≡ blocks_read (readings_of self.now.ttis channel) }
    {
        let tti = &self.ttis[channel as usize];
        match tti.outcome {
            Some(TtiOutcome::Blocks) => Some(&tti.blocks),
            _ => None,
        }
    }

    /// Nothing is shown as read.
    pub fn clear_read(&mut self)
        ensures cleared { AreClearedTo (length self.old.ttis) self.old.ttis self.new.ttis }
        ensures rx_frames { self.new.rx_frames ≡ self.old.rx_frames }
        ensures pushed { self.new.pushed ≡ self.old.pushed }
    {
        clear_ttis(&mut self.ttis);
    }

    /// The radio frame of a CFN comes, or is missing, in place of one that came for it before.
    pub fn push(&mut self, accepted: &Accepted, cfn: u8, frame: Option<FrameView<'_>>)
        requires opened { IsReceiverOf accepted.now self.old }
        requires tfci { HasTfci accepted.now Down frame }
        ensures { Comes accepted.now cfn (radio_of frame.entry) self.old self.new }
    {
        self.reader.push(accepted, cfn, frame);
        self.pushed = true;
    }

    /// Takes the radio frame of a CFN, and reads the channels whose TTI ends with it: good blocks go up to layer 2, and
    /// what can't be read is told.
    pub fn receive<U: Indications>(
        &mut self,
        accepted: &Accepted,
        cfn: u8,
        layer: &mut Layer2,
        user: &mut U,
    )
        requires opened { IsReceiverOf accepted.now self.old }
        requires quiet { (i : ℕ) → (tti_at self.old.ttis i).outcome ≡ None }
        requires last { self.old.pushed ≡ true → self.old.rx_frames.cfn ≡ cfn }
        requires layer { IsLayerOf accepted.now.config layer.old }
        requires receives { layer.old.into ≡ Down }
        ensures { Receives U.shows accepted.now cfn self.old self.new layer.old layer.new user.old user.new }
    {
        // A TTI has at most 8 radio frames in a good configuration.
        let _side = accepted.side(Dir::Down);
        self.complete(accepted, cfn);
        read_ttis(accepted, cfn, &mut self.reader, &mut self.ttis);
        give_ttis(accepted, &self.ttis, layer, user);
    }

    /// Where no radio frame came for a CFN, it is missing. For the next CFN none came yet.
    fn complete(&mut self, accepted: &Accepted, cfn: u8)
        requires { IsReceiverOf accepted.now self.old }
        ensures { Completes accepted.now cfn self.old self.new }
    {
        if !self.pushed {
            self.push(accepted, cfn, None);
        }
        self.pushed = false;
    }
}

/// Takes the memory for the TTIs of all channels.
fn rx_ttis(alloc: Global, accepted: &Accepted) -> Result<Vec<RxTti>, NoMemory>
    ensures { IfOk result (λ ttis. AreNewTtis accepted.now (length accepted.now.config.downlink.side.channels)
        ttis.items) }
{
    let channels = accepted.side(Dir::Down).channels.len();
    let mut ttis = Vec::new(alloc);
    for _ in 0..channels {
        ttis.push(RxTti {
            blocks: TtiBlocks::open(alloc, accepted, Dir::Down)?,
            outcome: None,
        })?;
    }
    Ok(ttis)
}

/// Nothing is shown as read of the channels.
fn clear_ttis(ttis: &mut [RxTti])
    ensures { AreClearedTo (length ttis.old) ttis.old ttis.new }
{
    for i in 0..ttis.len() {
        ttis[i].clear_read();
    }
}

/// Reads the channels whose TTI ends with the radio frame of a CFN, which is the last one.
fn read_ttis(accepted: &Accepted, cfn: u8, reader: &mut DlReader, ttis: &mut [RxTti])
    requires opened { IsReaderOf accepted.now Down reader.old }
    requires last { reader.old.cfn ≡ cfn }
    requires ttis { AreTtisOf accepted.now ttis.old }
    requires quiet { (i : ℕ) → (tti_at ttis.old i).outcome ≡ None }
    ensures read { AreReadTo accepted.now reader.old (length accepted.now.config.downlink.side.channels) ttis.new }
    ensures kept { reader.new ≡ reader.old }
{
    // A direction has at most 8 channels.
    let side = accepted.side(Dir::Down);
    for i in 0..side.channels.len() {
        if ends(side.channel(i).frames, cfn) {
            ttis[i].read(accepted, i as u8, reader);
        }
    }
}

/// Gives what was read of the channels to layer 2, in rising order of channels.
fn give_ttis<U: Indications>(accepted: &Accepted, ttis: &[RxTti], layer: &mut Layer2, user: &mut U)
    requires ttis { AreTtisOf accepted.now ttis.now }
    requires read { (i : ℕ) → i < length accepted.now.config.downlink.side.channels →
        IsTti accepted.now.config Down i (readings_of ttis.now i) }
    requires layer { IsLayerOf accepted.now.config layer.old }
    requires receives { layer.old.into ≡ Down }
    ensures { HasRead U.shows accepted.now.config Down (readings_of ttis.now)
        (length accepted.now.config.downlink.side.channels) layer.old layer.new user.old user.new }
{
    let side = accepted.side(Dir::Down);
    for i in 0..side.channels.len() {
        ttis[i].give(accepted, i as u8, layer, user);
    }
}
