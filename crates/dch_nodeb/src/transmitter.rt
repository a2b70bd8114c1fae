ghost use Rattle.std.specs.Prelude.{◌≡◌, ◌<◌, false, true, length, IfOk};
ghost use Rattle.dch_types.specs.Limits.{IsSide};
ghost use Rattle.dch_types.specs.Parts.{channel_at};
ghost use Rattle.dch_accept.specs.HeldSets.{HasFormat};
ghost use Rattle.dch_nodeb.specs.Moves.{FindsFirst, IsFirst, Loads, RunsIn, Sends};
ghost use Rattle.dch_nodeb.specs.Opened.{AreNoted, IsTransmitterOf};
ghost use Rattle.dch_txframes.specs.Lending.{radio_of};
ghost use Rattle.dch_txframes.specs.Values.{radio_sent};

use dch_accept::{Accepted, FrameView, TtiBlocks};
use dch_bits::NoMemory;
use dch_dlphy::{DlTti, write};
use dch_indication::Indications;
use dch_txframes::{RadioTxBuffer, tell_no_radio, tell_radio};
use dch_types::{Dir, Side};
use std::alloc::Global;
use std::marker::Model;

/// What sends the downlink's radio frames: the running TTIs, the format of each, and the last frame, which the last
/// step of the Node B may have sent.
#[derive(Drop)]
pub struct DownlinkTransmitter {
    tti: DlTti,
    formats: [u8; 8],
    radio: RadioTxBuffer,
}

impl Model for DownlinkTransmitter {
    ghost use Rattle.dch_nodeb.specs.Values.{DownlinkTransmitter};

    ghost Value = { DownlinkTransmitter };

    ghost view = { λ s. record { running = s.tti; formats = s.formats; radio = s.radio } };
}

impl DownlinkTransmitter {
    /// Takes all memory that sending wants. Nothing is loaded or sent.
    pub fn open(alloc: Global, accepted: &Accepted) -> Result<DownlinkTransmitter, NoMemory>
        ensures opened { IfOk result (IsTransmitterOf accepted.now) }
        ensures quiet { IfOk result (λ transmitter. transmitter.radio.sent ≡ false) }
    {
        Ok(DownlinkTransmitter {
            tti: DlTti::open(alloc, accepted)?,
            formats: [0; 8],
            radio: RadioTxBuffer::open(alloc, accepted, Dir::Down)?,
        })
    }

    /// The radio frame that was sent last, unless it is hidden.
    pub fn view(&self) -> Option<FrameView<'_>>
        ensures { radio_of result ≡ radio_sent self.now.radio }
    {
        self.radio.view()
    }

    /// Hides the last radio frame.
    pub fn clear_sent(&mut self)
        ensures { self.new ≡ record self.old { radio = record self.old.radio { sent = false } } }
    {
        self.radio.clear_sent();
    }

    /// Loads the blocks of a channel for the TTI that starts.
    pub fn load(&mut self, accepted: &Accepted, channel: u8, blocks: &TtiBlocks)
        requires opened { IsTransmitterOf accepted.now self.old }
        requires channel { channel < length accepted.now.config.downlink.side.channels }
        requires eighth { channel < 8 }
        requires format { HasFormat (channel_at accepted.now.config.downlink.side channel) blocks.now }
        ensures { Loads accepted.now channel blocks.now self.old self.new }
    {
        self.tti
            .load(accepted, channel, blocks.format(), blocks.bits());
        self.formats[channel as usize] = blocks.format();
    }

    /// Sends the radio frame of a CFN in the combination of the formats that run, and tells of it; where none has them,
    /// no frame is sent (TS 25.212 4.3).
    pub fn send<U: Indications>(&mut self, accepted: &Accepted, cfn: u8, user: &mut U)
        requires opened { IsTransmitterOf accepted.now self.old }
        requires noted { AreNoted accepted.now self.old.formats self.old.running }
        ensures { Sends U.shows accepted.now cfn self.old self.new user.old user.new }
    {
        match first_combination(accepted.side(Dir::Down), &self.formats) {
            Some(combination) => self.write(accepted, cfn, combination, user),
            None => {
                self.radio.clear_sent();
                tell_no_radio(user);
            }
        }
    }

    /// Writes the radio frame of a CFN in a combination, and tells of it.
    fn write<U: Indications>(
        &mut self,
        accepted: &Accepted,
        cfn: u8,
        combination: u16,
        user: &mut U,
    )
        requires opened { IsTransmitterOf accepted.now self.old }
        requires noted { AreNoted accepted.now self.old.formats self.old.running }
        requires first { IsFirst accepted.now.config.downlink.side self.old.formats combination }
        ensures { Sends U.shows accepted.now cfn self.old self.new user.old user.new }
    {
        write(accepted, &self.tti, cfn, combination, &mut self.radio.frame);
        self.radio.sent = true;
        tell_radio(user, Dir::Down, self.radio.frame.view());
    }
}

/// The first combination in which the channels have these formats.
fn first_combination(side: &Side, formats: &[u8]) -> Option<u16>
    requires side { IsSide side.now }
    requires eight { length formats.now ≡ 8 }
    ensures { FindsFirst side.now formats.now result }
{
    for c in 0..side.combinations.len() {
        if runs_in(side, c as u16, formats) {
            return Some(c as u16);
        }
    }
    None
}

/// Whether the channels have these formats in a combination.
fn runs_in(side: &Side, combination: u16, formats: &[u8]) -> bool
    requires side { IsSide side.now }
    requires combination { combination < length side.now.combinations }
    requires eight { length formats.now ≡ 8 }
    ensures yes { result ≡ true → RunsIn side.now combination formats.now }
    ensures no { result ≡ false → ¬ RunsIn side.now combination formats.now }
{
    for i in 0..side.channels.len() {
        if formats[i] != side.tfi(usize::from(combination), i) {
            return false;
        }
    }
    true
}
