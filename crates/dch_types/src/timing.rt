ghost use Rattle.std.specs.Prelude.{◌≡◌, ◌<◌, ◌≤◌, true};
ghost use Rattle.dch_types.specs.Limits.{IsSide};
ghost use Rattle.dch_types.specs.Timing.{ends, has_set, set_frames, started, starts};

use crate::channel::Side;

impl Side {
    /// Whether some channel belongs to an Iub frame set.
    pub fn has_set(&self, set: u8) -> bool
        ensures value { result ≡ has_set self.now set }
        ensures small { IsSide self.now → result ≡ true → set ≤ 7 }
    {
        let mut found = false;
        for i in 0..self.channels.len() {
            found = found || self.channels.as_slice()[i].set == set;
        }
        found
    }

    /// The radio frames of a TTI of the channels of an Iub frame set; 0 where no channel belongs to it.
    pub fn set_frames(&self, set: u8) -> u8
        ensures { result ≡ set_frames self.now set }
    {
        let mut frames = 0;
        for i in 0..self.channels.len() {
            let channel = &self.channels.as_slice()[i];
            if channel.set == set {
                frames = channel.frames;
            }
        }
        frames
    }
}

/// Whether a TTI of so many radio frames starts with the frame of a CFN.
pub fn starts(frames: u8, cfn: u8) -> bool
    ensures value { result ≡ starts frames cfn }
    ensures some { result ≡ true → 0 < frames }
{
    frames > 0 && cfn % frames == 0
}

/// Whether a TTI of so many radio frames ends with the frame of a CFN.
pub fn ends(frames: u8, cfn: u8) -> bool
    ensures value { result ≡ ends frames cfn }
    ensures some { result ≡ true → 0 < frames }
{
    frames > 0 && (u16::from(cfn) + 1) % u16::from(frames) == 0
}

/// The CFN at which the TTI of so many radio frames started that is on at a CFN.
pub fn started(frames: u8, cfn: u8) -> u8
    requires { 0 < frames }
    ensures { result ≡ started frames cfn }
{
    cfn / frames * frames
}
