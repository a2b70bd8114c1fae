ghost use Rattle.std.specs.Prelude.{◌≡◌, ◌<◌, length};
ghost use Rattle.dch_types.specs.Limits.{IsChannel, IsDownlink, IsFormat, IsFrames, IsSide, IsUplink};
ghost use Rattle.dch_types.specs.Parts.{channel_at, format_at, format_number, side_of};

use crate::channel::{Dir, Format, Side, Trch};
use crate::config::Config;

impl Config {
    /// The channels and combinations of a direction.
    pub fn side(&self, dir: Dir) -> &Side
        ensures value { result.now ≡ side_of self.now dir }
        ensures good { IsUplink self.now.uplink → IsDownlink self.now.downlink → IsSide result.now }
    {
        match dir {
            Dir::Up => &self.uplink.side,
            Dir::Down => &self.downlink.side,
        }
    }
}

impl Side {
    /// Channel `i`.
    pub fn channel(&self, i: usize) -> &Trch
        requires { i < length self.now.channels }
        ensures value { result.now ≡ channel_at self.now i }
        ensures good { IsSide self.now → IsChannel result.now }
    {
        &self.channels.as_slice()[i]
    }

    /// The radio frames of the TTI of channel `i`: 1, 2, 4 or 8.
    pub fn frames_of(&self, i: usize) -> u8
        requires good { IsSide self.now }
        requires channel { i < length self.now.channels }
        ensures value { result ≡ (channel_at self.now i).frames }
        ensures some { 0 < result }
        ensures frames { IsFrames result }
    {
        self.channel(i).frames
    }

    /// The transport format indicator (TFI) of channel `i` in combination `c`: the number of its format (TS 25.302
    /// 7.1.8).
    pub fn tfi(&self, c: usize, i: usize) -> u8
        requires good { IsSide self.now }
        requires combination { c < length self.now.combinations }
        requires channel { i < length self.now.channels }
        ensures value { result ≡ format_number self.now c i }
        ensures inside { result < length (channel_at self.now i).formats }
    {
        self.combinations.as_slice()[c].formats.as_slice()[i]
    }
}

impl Trch {
    /// Format `f`.
    pub fn format(&self, f: usize) -> &Format
        requires { f < length self.now.formats }
        ensures value { result.now ≡ format_at self.now f }
        ensures good { IsChannel self.now → IsFormat self.now result.now }
    {
        &self.formats.as_slice()[f]
    }
}
