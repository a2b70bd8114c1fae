ghost use Rattle.std.specs.Prelude.{◌≡◌, ◌≢◌, ◌<◌, ◌*◌, ℕ, IfOk, None, Some, length, replicate};
ghost use Rattle.dch_types.specs.Parts.{channel_at, format_at};
ghost use Rattle.dch_tti.specs.Loaded.{loaded_at};
ghost use Rattle.dch_dlphy.specs.Loaded.{IsLoaded, IsTtiOf};
ghost use Rattle.dch_stages.specs.Handlers.{format_in};

use crate::loads::Loads;
use dch_accept::Accepted;
use dch_bits::{Bit, NoMemory};
use dch_dlphy::DlTti;
use dch_types::Dir;
use std::alloc::Global;

/// What is loaded of the downlink channels.
#[derive(Drop)]
pub struct DownlinkLoads {
    pub tti: DlTti,
    pub loads: Loads,
}

impl DownlinkLoads {
    /// Takes the memory for the TTIs of all channels. Nothing is loaded.
    pub fn open(alloc: Global, accepted: &Accepted) -> Result<DownlinkLoads, NoMemory>
        ensures opened { IfOk result (λ loaded. IsTtiOf accepted.now loaded.tti) }
        ensures formats { IfOk result (λ loaded. loaded.loads.formats.items ≡
            replicate (length accepted.now.config.downlink.side.channels) None) }
        ensures cfn { IfOk result (λ loaded. loaded.loads.cfn ≡ 0) }
    {
        Ok(DownlinkLoads {
            tti: DlTti::open(alloc, accepted)?,
            loads: Loads::open(alloc, accepted.side(Dir::Down).channels.len())?,
        })
    }

    /// Loads the transport blocks of a channel in a format.
    pub fn load(&mut self, accepted: &Accepted, channel: u8, format: u8, bits: &[Bit])
        requires opened { IsTtiOf accepted.now self.old.tti }
        requires all { length self.old.loads.formats.items ≡ length accepted.now.config.downlink.side.channels }
        requires channel { channel < length accepted.now.config.downlink.side.channels }
        requires format { format < length (channel_at accepted.now.config.downlink.side channel).formats }
        requires bits { length bits.now ≡
            (format_at (channel_at accepted.now.config.downlink.side channel) format).number *
            (format_at (channel_at accepted.now.config.downlink.side channel) format).size }
        ensures opened { IsTtiOf accepted.now self.new.tti }
        ensures loaded { IsLoaded accepted.now channel format bits.now (loaded_at self.new.tti channel) }
        ensures others { (i : ℕ) → i ≢ channel → loaded_at self.new.tti i ≡ loaded_at self.old.tti i }
        ensures format { format_in self.new.loads.formats.items channel ≡ Some format }
        ensures same { (i : ℕ) → i ≢ channel → format_in self.new.loads.formats.items i ≡
            format_in self.old.loads.formats.items i }
        ensures all { length self.new.loads.formats.items ≡ length self.old.loads.formats.items }
        ensures cfn { self.new.loads.cfn ≡ self.old.loads.cfn }
    {
        self.tti.load(accepted, channel, format, bits);
        self.loads.formats[channel as usize] = Some(format);
    }
}
