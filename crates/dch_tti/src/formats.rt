ghost use Rattle.std.specs.Prelude.{◌≡◌, ◌<◌, ℕ, Some, length};
ghost use Rattle.dch_types.specs.Limits.{IsSide};
ghost use Rattle.dch_types.specs.Parts.{channel_at, side_of};
ghost use Rattle.dch_tti.specs.Formats.{AreListed, FindsFormat, tti_format};
ghost use Rattle.dch_tti.specs.RxFrames.{IsReaderOf};

use crate::received_frames::ReceivedFrames;
use dch_accept::Accepted;
use dch_types::{Dir, Side};

impl ReceivedFrames {
    /// The format that all radio frames of a channel's TTI give it, or the first frame that is missing or gives it
    /// another one than frame 0 does.
    pub fn format_of_tti(&self, accepted: &Accepted, dir: Dir, channel: u8) -> Result<u8, u8>
        requires opened { IsReaderOf accepted.now dir self.now }
        requires channel { channel < length (side_of accepted.now.config dir).channels }
        ensures found { FindsFormat (side_of accepted.now.config dir) self.now channel result }
        ensures some { 0 < (channel_at (side_of accepted.now.config dir) channel).frames }
    {
        format_of_tti(accepted.side(dir), self, channel)
    }
}

/// The same, of a direction.
fn format_of_tti(side: &Side, rx_frames: &ReceivedFrames, channel: u8) -> Result<u8, u8>
    requires side { IsSide side.now }
    requires listed { AreListed side.now rx_frames.now }
    requires channel { channel < length side.now.channels }
    ensures found { FindsFormat side.now rx_frames.now channel result }
    ensures some { 0 < (channel_at side.now channel).frames }
{
    let frames = side.frames_of(channel as usize);
    let Some(format) = format_in_frame(side, rx_frames, channel, 0) else {
        return Err(0);
    };
    for n in 1..frames {
        match format_in_frame(side, rx_frames, channel, n) {
            Some(other) if other == format => {}
            _ => return Err(n),
        }
    }
    Ok(format)
}

/// The format that frame `n` of its TTI gives a channel, if that frame is there.
fn format_in_frame(side: &Side, rx_frames: &ReceivedFrames, channel: u8, n: u8) -> Option<u8>
    requires side { IsSide side.now }
    requires listed { AreListed side.now rx_frames.now }
    requires channel { channel < length side.now.channels }
    ensures value { result ≡ tti_format side.now rx_frames.now channel n }
    ensures inside { (f : ℕ) → result ≡ Some f → f < length (channel_at side.now channel).formats }
{
    let combination = rx_frames
        .frame(side.frames_of(channel as usize), n)
        .combination()?;
    Some(side.tfi(combination as usize, channel as usize))
}
