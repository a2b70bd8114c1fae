ghost use Rattle.std.specs.Prelude.{◌≡◌, ◌<◌, ◌≤◌, ◌+◌, ◌*◌, length};
ghost use Rattle.dch_types.specs.Lengths.{frame_bits, tti_bits};
ghost use Rattle.dch_types.specs.Parts.{channel_at, format_at};
ghost use Rattle.dch_frame.specs.Patterns.{IsWellFormed, copies_below};
ghost use Rattle.dch_dlphy.specs.Frames.{bits_before, bits_per_frame};
ghost use Rattle.dch_dlphy.specs.Loaded.{matching_of};

use dch_accept::Accepted;
use dch_frame::Pattern;

/// The rate matching of a TTI of a channel in a format.
pub fn pattern_of(accepted: &Accepted, channel: u8, format: u8) -> Pattern
    requires channel { channel < length accepted.now.config.downlink.side.channels }
    requires format { format < length (channel_at accepted.now.config.downlink.side channel).formats }
    ensures value { result ≡ (matching_of accepted.now channel format).pattern }
    ensures formed { IsWellFormed result }
    ensures len { result.len ≡ tti_bits (channel_at accepted.now.config.downlink.side channel)
        (format_at (channel_at accepted.now.config.downlink.side channel) format) }
{
    accepted.downlink_plan().pattern(channel, format)
}

/// The places of a channel in each radio frame of a TTI in a format.
pub fn bits_per_frame(accepted: &Accepted, channel: u8, format: u8) -> u32
    requires channel { channel < length accepted.now.config.downlink.side.channels }
    requires format { format < length (channel_at accepted.now.config.downlink.side channel).formats }
    ensures value { result ≡ (matching_of accepted.now channel format).cells }
    ensures fits { copies_below (matching_of accepted.now channel format).pattern.kind
        (matching_of accepted.now channel format).pattern.len ≤
        (channel_at accepted.now.config.downlink.side channel).frames * result }
    ensures room { (channel_at accepted.now.config.downlink.side channel).frames * result ≤ 457920 }
{
    // A good configuration has room for each format.
    let _config = accepted.config();
    accepted.downlink_plan().cells(channel, format)
}

/// The places of a channel in a radio frame of a combination. With those of the channels before it they lie within the
/// frame.
pub fn bits_in_frame(accepted: &Accepted, combination: u16, channel: u8) -> usize
    requires combination { combination < length accepted.now.config.downlink.side.combinations }
    requires channel { channel < length accepted.now.config.downlink.side.channels }
    ensures value { result ≡ bits_per_frame accepted.now combination channel }
    ensures inside { bits_before accepted.now combination channel + result ≤ frame_bits accepted.now.config.downlink }
{
    let side = &accepted.config().downlink.side;
    let format = side.tfi(combination as usize, channel as usize);
    accepted.downlink_plan().cells(channel, format) as usize
}
