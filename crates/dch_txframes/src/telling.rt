ghost use Rattle.std.specs.Prelude.{◌≡◌};
ghost use Rattle.dch_node.specs.IubFrames.{refusal_number};
ghost use Rattle.dch_indication.specs.Lines.{BadTti, Iub, IubBad, Phy, PhyNone};

use dch_accept::FrameView;
use dch_indication::{Indication, Indications};
use dch_iub::IubError;
use dch_types::Dir;

/// Tells an Iub frame of a set of a direction.
pub fn tell_iub<U: Indications>(user: &mut U, dir: Dir, set: u8, frame: &[u8])
    ensures shown { U.shows user.old (Iub dir set frame.now) user.new }
{
    user.indicate(Indication::Iub { dir, set, frame });
}

/// Tells the cause for which an Iub frame of a direction is refused.
pub fn tell_refusal<U: Indications>(user: &mut U, dir: Dir, set: u8, error: IubError)
    ensures shown { U.shows user.old (IubBad dir set (refusal_number error)) user.new }
{
    user.indicate(Indication::IubBad {
        dir,
        set,
        number: refusal_number(error),
    });
}

/// The number of a refusal.
fn refusal_number(error: IubError) -> u8
    ensures { result ≡ refusal_number error }
{
    match error {
        IubError::Short => 1,
        IubError::HeaderCheck => 2,
        IubError::Control => 3,
        IubError::Format(_) => 4,
        IubError::Length => 5,
        IubError::PayloadCheck => 6,
    }
}

/// Tells that the TTI of a channel of a direction can't be read, with the first bad radio frame of it.
pub fn tell_bad_tti<U: Indications>(user: &mut U, dir: Dir, channel: u8, frame: u8)
    ensures shown { U.shows user.old (BadTti dir channel frame) user.new }
{
    user.indicate(Indication::BadTti {
        dir,
        channel,
        frame,
    });
}

/// Tells a radio frame of a direction.
pub fn tell_radio<U: Indications>(user: &mut U, dir: Dir, frame: FrameView<'_>)
    ensures shown { U.shows user.old (Phy dir frame.entry.tfci.now frame.entry.cells.now) user.new }
{
    user.indicate(Indication::Phy {
        dir,
        tfci: frame.tfci,
        cells: frame.cells,
    });
}

/// Tells that no downlink radio frame is sent.
pub fn tell_no_radio<U: Indications>(user: &mut U)
    ensures shown { U.shows user.old PhyNone user.new }
{
    user.indicate(Indication::PhyNone);
}
