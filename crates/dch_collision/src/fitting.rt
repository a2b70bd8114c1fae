ghost use Rattle.std.specs.Prelude.{◌≡◌, ◌<◌, ◌≤◌, ℕ, None, length, IfSome};
ghost use Rattle.dch_types.specs.Limits.{IsSide};
ghost use Rattle.dch_types.specs.Parts.{format_number};
ghost use Rattle.dch_collision.specs.Sequences.{frames_of};
ghost use Rattle.dch_collision.specs.Steps.{stays, fits, NoneFits, IsLeastFit};

use dch_types::Side;

/// The number of the format that channel `i` has in a combination.
fn number(side: &Side, combination: usize, i: usize) -> u8
    requires good { IsSide side.now }
    requires combination { combination < length side.now.combinations }
    requires channel { i < length side.now.channels }
    ensures { result ≡ format_number side.now combination i }
{
    side.combinations.as_slice()[combination].formats.as_slice()[i]
}

/// The radio frames of a TTI of channel `i`.
pub(crate) fn frames(side: &Side, i: usize) -> usize
    requires good { IsSide side.now }
    requires channel { i < length side.now.channels }
    ensures value { result ≡ frames_of side.now i }
    ensures some { 1 ≤ result }
{
    usize::from(side.channels.as_slice()[i].frames)
}

/// Whether channel `i` may have its format of a combination in a radio frame: a TTI of the channel starts, or the
/// format stays.
fn stays(side: &Side, frame: usize, previous: usize, combination: usize, i: usize) -> bool
    requires good { IsSide side.now }
    requires previous { previous < length side.now.combinations }
    requires combination { combination < length side.now.combinations }
    requires channel { i < length side.now.channels }
    ensures { result ≡ stays side.now frame previous combination i }
{
    frame % frames(side, i) == 0 || number(side, combination, i) == number(side, previous, i)
}

/// Whether a combination may stand in a radio frame after the previous one: the channel has the format,
/// and no channel changes its format within a TTI.
pub(crate) fn fits(
    side: &Side,
    channel: u8,
    format: u8,
    frame: usize,
    previous: usize,
    combination: usize,
) -> bool
    requires good { IsSide side.now }
    requires channel { channel < length side.now.channels }
    requires previous { previous < length side.now.combinations }
    requires combination { combination < length side.now.combinations }
    ensures { result ≡ fits side.now channel format frame previous combination }
{
    if number(side, combination, usize::from(channel)) != format {
        return false;
    }
    for i in 0..side.channels.len() {
        if !stays(side, frame, previous, combination, i) {
            return false;
        }
    }
    true
}

/// The least combination, from a number on, that fits after the previous one. `None` where none does.
pub(crate) fn least(
    side: &Side,
    channel: u8,
    format: u8,
    frame: usize,
    previous: usize,
    from: usize,
) -> Option<usize>
    requires good { IsSide side.now }
    requires channel { channel < length side.now.channels }
    requires previous { previous < length side.now.combinations }
    ensures some { IfSome result (λ c. IsLeastFit side.now channel format frame previous from c) }
    ensures none { result ≡ None → NoneFits side.now channel format frame previous from }
{
    for combination in from..side.combinations.len() {
        if fits(side, channel, format, frame, previous, combination) {
            return Some(combination);
        }
    }
    None
}

/// The least combination that fits after the previous one, which fits itself.
pub(crate) fn least_after(
    side: &Side,
    channel: u8,
    format: u8,
    frame: usize,
    previous: usize,
) -> usize
    requires good { IsSide side.now }
    requires channel { channel < length side.now.channels }
    requires previous { previous < length side.now.combinations }
    requires format { format_number side.now previous channel ≡ format }
    ensures { IsLeastFit side.now channel format frame previous 0 result }
{
    for combination in 0..previous {
        if fits(side, channel, format, frame, previous, combination) {
            return combination;
        }
    }
    previous
}
