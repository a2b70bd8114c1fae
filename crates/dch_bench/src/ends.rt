ghost use Rattle.std.specs.Prelude.{◌≡◌, ◌≢◌, ◌<◌, ◌≤◌, ℕ, List, Some, length};
ghost use Rattle.dch_types.specs.declared.channel.Dir.{Dir};
ghost use Rattle.dch_types.specs.Parts.{channel_at, format_at, side_of};
ghost use Rattle.dch_accept.specs.Blocks.{HoldsTtis, bits_of};
ghost use Rattle.dch_accept.specs.Frames.{IsOpenedFor};
ghost use Rattle.dch_accept.specs.Plans.{Planned};
ghost use Rattle.dch_tti.specs.Loaded.{AreFormats, Loaded, loaded_at};

use dch_accept::{Accepted, PhyFrame, TtiBlocks};
use dch_bits::Bit;
use dch_tti::TtiOutcome;
use dch_types::Dir;

/// Both ends of a direction: the TTIs that are loaded to be sent, and the radio frames that were received.
pub trait Ends {
    ghost dir: { Dir };

    // What is loaded of each channel.
    ghost loaded: { Self → List Loaded };

    // Whether the ends were opened for a configuration.
    ghost opened: { Planned → Self → Type 0 };

    /// The direction.
    fn dir() -> Dir
        ensures { result ≡ dir };

    /// Loads the blocks of a channel for its next TTI.
    fn load(&mut self, accepted: &Accepted, channel: u8, format: u8, blocks: &[Bit])
        requires opened { opened accepted.now self.old }
        requires channel { channel < length (side_of accepted.now.config dir).channels }
        requires format { format < length (channel_at (side_of accepted.now.config dir) channel).formats }
        requires blocks { length blocks.now ≡
            bits_of (format_at (channel_at (side_of accepted.now.config dir) channel) format) }
        ensures opened { opened accepted.now self.new }
        ensures loaded { (loaded_at (loaded self.new) channel).format ≡ Some format }
        ensures same { (i : ℕ) → i ≢ channel → loaded_at (loaded self.new) i ≡ loaded_at (loaded self.old) i };

    /// Writes the radio frame of a CFN in a combination.
    fn write(&self, accepted: &Accepted, cfn: u8, combination: u16, out: &mut PhyFrame)
        requires opened { opened accepted.now self.now }
        requires frame { IsOpenedFor accepted.now.config dir out.old }
        requires combination { combination < length (side_of accepted.now.config dir).combinations }
        requires formats { AreFormats (side_of accepted.now.config dir) combination (loaded self.now) }
        ensures frame { IsOpenedFor accepted.now.config dir out.new }
        ensures fits { length out.new.cells ≤ out.new.room };

    /// Takes the radio frame of a CFN.
    fn receive(&mut self, accepted: &Accepted, cfn: u8, frame: &PhyFrame)
        requires opened { opened accepted.now self.old }
        requires frame { IsOpenedFor accepted.now.config dir frame.now }
        ensures opened { opened accepted.now self.new }
        ensures same { loaded self.new ≡ loaded self.old };

    /// Reads the TTI of a channel that the last frame ends.
    fn read(&mut self, accepted: &Accepted, channel: u8, out: &mut TtiBlocks) -> TtiOutcome
        requires opened { opened accepted.now self.old }
        requires blocks { HoldsTtis (side_of accepted.now.config dir) out.old.room }
        requires channel { channel < length (side_of accepted.now.config dir).channels }
        ensures opened { opened accepted.now self.new }
        ensures same { loaded self.new ≡ loaded self.old }
        ensures room { out.new.room ≡ out.old.room };
}
