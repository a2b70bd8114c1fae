ghost use Rattle.std.specs.Prelude.{◌≡◌, ◌<◌, ◌≤◌, ◌+◌, ◌-◌, ◌*◌, ◌%◌, ◌^◌};
ghost use Rattle.dch_types.specs.Limits.{IsFrames};
ghost use Rattle.dch_frame.specs.Matched.{change, matched, remainder, frame_start, frame_pattern};
ghost use Rattle.dch_frame.specs.Patterns.{IsWellFormed, copies_below};

use crate::pattern::{Kind, Pattern, Steps};
use crate::shifts::{average_distance, column_shift};
use dch_inter::column;

/// |dN|: how many bits are removed or added.
fn change(n: u64, sent: u64) -> u64
    requires short { n ≤ 131072 }
    requires sent { sent < 2 ^ 31 }
    ensures value { result ≡ change n sent }
    ensures small { result < 2 ^ 31 }
{
    if n < sent { sent - n } else { n - sent }
}

/// What is done with `n` bits so that `sent` are left, where the counter starts at `e_ini`.
pub fn matched(n: u64, sent: u64, e_ini: u64) -> Kind
    requires short { n ≤ 131072 }
    requires sent { sent < 2 ^ 31 }
    ensures { result ≡ matched n sent e_ini }
{
    if n == 0 || sent == n {
        return Kind::Same;
    }
    let steps = Steps {
        e_ini,
        e_plus: 2 * n,
        e_minus: 2 * change(n, sent),
    };
    if n < sent {
        Kind::Repeat(steps)
    } else {
        Kind::Puncture(steps)
    }
}

/// Where the counter starts in the frame that carries a column (TS 25.212 4.2.7.1.2).
fn frame_start(n: u64, sent: u64, frames: u64, column: u64) -> u64
    requires some { 0 < n }
    requires short { n ≤ 131072 }
    requires sent { sent < 2 ^ 31 }
    requires frames { IsFrames frames }
    requires column { column < frames }
    ensures value { result ≡ frame_start n sent frames column }
    ensures least { 1 ≤ result }
    ensures most { result ≤ 2 * n }
{
    let column_shift = column_shift(average_distance(n, sent % n), frames, column);
    (2 * column_shift * change(n, sent) + 1) % (2 * n)
}

/// The pattern of frame `at` of a TTI of an uplink channel, where each frame has `n` bits and sends `sent` of them.
pub fn frame_pattern(n: u32, sent: u32, frames: u64, at: u64) -> Pattern
    requires short { n ≤ 131072 }
    requires sent { sent < 2 ^ 31 }
    requires frames { IsFrames frames }
    requires inside { at < frames }
    requires none { n ≡ 0 → sent ≡ 0 }
    ensures value { result ≡ frame_pattern n sent frames at }
    ensures len { result.len ≡ n }
    ensures formed { IsWellFormed result }
    ensures kept { copies_below result.kind result.len ≡ sent }
{
    if n == 0 {
        return Pattern {
            len: 0,
            kind: Kind::Same,
        };
    }
    let column = column(frames as usize, at as usize) as u64;
    let e_ini = frame_start(n as u64, sent as u64, frames, column);
    Pattern {
        len: n,
        kind: matched(n as u64, sent as u64, e_ini),
    }
}
