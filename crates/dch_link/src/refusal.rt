ghost use Rattle.dch_types.specs.declared.channel.Dir.TheVariants.{Up};
ghost use Rattle.dch_node.specs.Lines.{IubBad};
ghost use Rattle.dch_link.specs.Errors.{error_number};

use dch_combine::CombineError;
use dch_indication::{Indication, Indications};
use dch_txframes::tell_refusal;
use dch_types::Dir;

/// The number of the cause that a frame is one of another TTI than was asked for.
const OTHER_CFN: u8 = 7;

/// Tells the cause for which the uplink Iub frame of a leg isn't taken for a set.
pub fn tell_error<U: Indications>(user: &mut U, set: u8, error: CombineError)
    ensures { U.shows user.old (IubBad Up set (error_number error)) user.new }
{
    match error {
        CombineError::Frame(error) => tell_refusal(user, Dir::Up, set, error),
        CombineError::Cfn(_) => user.indicate(Indication::IubBad {
            dir: Dir::Up,
            set,
            number: OTHER_CFN,
        }),
    }
}
