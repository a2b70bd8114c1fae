ghost use Rattle.std.specs.Prelude.{◌≡◌, ◌<◌, false, length, IfOk};
ghost use Rattle.dch_types.specs.declared.channel.Dir.TheVariants.{Up};
ghost use Rattle.dch_tti.specs.Loaded.{AreFormats};
ghost use Rattle.dch_ulphy.specs.Loaded.{IsTtiOf};
ghost use Rattle.dch_layer2.specs.Standing.{IsLayerOf};
ghost use Rattle.dch_txframes.specs.Lending.{radio_of};
ghost use Rattle.dch_txframes.specs.Values.{radio_sent};
ghost use Rattle.dch_ue.specs.Moves.{AreLoadedTo, Sends, Transmits};
ghost use Rattle.dch_ue.specs.Opened.{AreGivenAs, AreNoted, IsTransmitterOf};

use dch_accept::{Accepted, FrameView};
use dch_bits::NoMemory;
use dch_indication::Indications;
use dch_layer2::Layer2;
use dch_txframes::{RadioTxBuffer, tell_radio};
use dch_types::{Dir, starts};
use dch_ulphy::{UlTti, write};
use std::alloc::Global;
use std::marker::Model;

/// What sends the uplink's radio frames: the running TTIs, and the last frame, which the last step may have sent.
#[derive(Drop)]
pub struct UplinkTransmitter {
    tti: UlTti,
    radio: RadioTxBuffer,
}

impl Model for UplinkTransmitter {
    ghost use Rattle.dch_ue.specs.Values.{UplinkTransmitter};

    ghost Value = { UplinkTransmitter };

    ghost view = { λ s. record { running = s.tti; radio = s.radio } };
}

impl UplinkTransmitter {
    /// Takes all memory that sending wants. Nothing is loaded or sent.
    pub fn open(alloc: Global, accepted: &Accepted) -> Result<UplinkTransmitter, NoMemory>
        ensures opened { IfOk result (IsTransmitterOf accepted.now) }
        ensures quiet { IfOk result (λ transmitter. transmitter.radio.sent ≡ false) }
    {
        Ok(UplinkTransmitter {
            tti: UlTti::open(alloc, accepted)?,
            radio: RadioTxBuffer::open(alloc, accepted, Dir::Up)?,
        })
    }

    /// The radio frame that was sent last, unless it is hidden.
    pub fn view(&self) -> Option<FrameView<'_>>
        ensures { radio_of result ≡ radio_sent self.now.radio }
    {
        self.radio.view()
    }

    /// Hides the last radio frame.
    pub fn clear_sent(&mut self)
        ensures { self.new ≡ record self.old { radio = record self.old.radio { sent = false } } }
    {
        self.radio.clear_sent();
    }

    /// Loads what layer 2 gave to the channels whose TTI starts at a CFN, and sends the radio frame of that CFN in the
    /// combination that runs.
    pub fn transmit<U: Indications>(
        &mut self,
        accepted: &Accepted,
        cfn: u8,
        layer: &Layer2,
        user: &mut U,
    )
        requires opened { IsTransmitterOf accepted.now self.old }
        requires layer { IsLayerOf accepted.now.config layer.now }
        requires sends { layer.now.out ≡ Up }
        requires given { AreGivenAs accepted.now cfn layer.now }
        requires noted { AreNoted accepted.now cfn layer.now.running self.old.running }
        ensures { Transmits U.shows accepted.now cfn layer.now self.old self.new user.old user.new }
    {
        load(accepted, cfn, layer, &mut self.tti);
        self.send(accepted, cfn, layer.running(), user);
    }

    /// Sends the radio frame of a CFN in a combination, and tells it.
    fn send<U: Indications>(&mut self, accepted: &Accepted, cfn: u8, combination: u16, user: &mut U)
        requires opened { IsTransmitterOf accepted.now self.old }
        requires combination { combination < length accepted.now.config.uplink.side.combinations }
        requires formats { AreFormats accepted.now.config.uplink.side combination self.old.running }
        ensures { Sends U.shows accepted.now cfn combination self.old self.new user.old user.new }
    {
        // A frame has at most 57,600 cells in a good configuration.
        let _config = accepted.config();
        let _plan = accepted.uplink_plan(combination);
        write(accepted, &self.tti, cfn, combination, &mut self.radio.frame);
        self.radio.sent = true;
        tell_radio(user, Dir::Up, self.radio.frame.view());
    }
}

/// Loads what layer 2 gave to the channels whose TTI starts at a CFN.
fn load(accepted: &Accepted, cfn: u8, layer: &Layer2, tti: &mut UlTti)
    requires tti { IsTtiOf accepted.now tti.old }
    requires layer { IsLayerOf accepted.now.config layer.now }
    requires sends { layer.now.out ≡ Up }
    ensures { AreLoadedTo accepted.now cfn (length accepted.now.config.uplink.side.channels) layer.now tti.old tti.new }
{
    let side = accepted.side(Dir::Up);
    for i in 0..side.channels.len() {
        if starts(side.channel(i).frames, cfn) {
            let given = layer.given(i as u8);
            tti.load(accepted, i as u8, given.format(), given.bits());
        }
    }
}
