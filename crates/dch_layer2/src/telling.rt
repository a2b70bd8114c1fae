ghost use Rattle.std.specs.Prelude.{◌≡◌, ◌≤◌, length};
ghost use Rattle.dch_indication.specs.Lines.{GotBits, Outside, PduBad};
ghost use Rattle.dch_indication.specs.Told.{Told};
ghost use Rattle.dch_layer2.specs.Bearings.{line_of_answer};
ghost use Rattle.dch_rlcpdu.specs.Errors.{error_number};
ghost use Rattle.dch_layer2.specs.UnitLines.{line_if};
ghost use Rattle.dch_layer2.specs.Handing.{IsWithin, handed_line};

use dch_bits::{Bit, Offer};
use dch_indication::{Indication, Indications};
use dch_rlcpdu::{Handed, PduError};
use dch_types::Dir;

/// Hands up a unit that ended, which stands at the front of `room`, or tells that it is overlong.
pub fn tell_handed<U: Indications>(user: &mut U, dir: Dir, bearer: u8, handed: Handed, room: &[u8])
    requires { IsWithin handed (length room.now) }
    ensures { U.shows user.old (handed_line dir bearer handed room.now) user.new }
{
    match handed {
        Handed::Whole(size) => user.indicate(Indication::Got {
            dir,
            bearer,
            octets: &room[..size],
        }),
        Handed::Overlong => user.indicate(Indication::Overlong { dir, bearer }),
    }
}

/// Hands up a unit of a transparent bearer.
pub fn tell_bits<U: Indications>(user: &mut U, dir: Dir, bearer: u8, bits: &[Bit])
    ensures { U.shows user.old (GotBits dir bearer bits.now) user.new }
{
    user.indicate(Indication::GotBits { dir, bearer, bits });
}

/// Tells that a PDU is refused.
pub fn tell_bad<U: Indications>(user: &mut U, dir: Dir, bearer: u8, error: PduError)
    ensures { U.shows user.old (PduBad dir bearer (error_number error)) user.new }
{
    user.indicate(Indication::PduBad {
        dir,
        bearer,
        number: error.number(),
    });
}

/// Tells that a PDU or a status is outside the window, if it is.
pub fn tell_outside_if<U: Indications>(user: &mut U, outside: bool, dir: Dir, bearer: u8)
    ensures { Told U.shows user.old (line_if outside (Outside dir bearer)) user.new }
{
    if outside {
        user.indicate(Indication::Outside { dir, bearer });
    }
}

/// Tells what a bearer answers to a unit that travels in a direction.
pub fn tell_answer<U: Indications>(user: &mut U, dir: Dir, bearer: u8, answer: Offer)
    ensures shown { U.shows user.old (line_of_answer dir bearer answer) user.new }
{
    match answer {
        Offer::Accepted => user.indicate(Indication::Took { dir, bearer }),
        Offer::Full => user.indicate(Indication::Full { dir, bearer }),
        Offer::WrongSize => user.indicate(Indication::Wrong { dir, bearer }),
    }
}
