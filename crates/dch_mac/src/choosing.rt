ghost use Rattle.std.specs.Prelude.{◌≡◌, ◌<◌, length};
ghost use Rattle.dch_types.specs.Parts.{side_of};
ghost use Rattle.dch_mac.specs.Asked.{asked_of};
ghost use Rattle.dch_mac.specs.Best.{IsBest};

use crate::head::Head;
use crate::moment::Moment;
use crate::row::Row;
use crate::table::{ROWS, no_row};
use dch_accept::Accepted;
use dch_bits::NoMemory;
use dch_types::Dir;
use std::alloc::Global;
use std::marker::Model;

/// Chooses the combination of a radio frame (TS 25.321 11.4). It keeps the formats of channels whose TTI goes on, and
/// each channel whose TTI starts finds the blocks of its format. Of these combinations, less the blocked ones, that one
/// is chosen which carries the most bits of priority 1, then of priority 2 and so on; then the one with the fewest
/// bits; then the first. The combination in which all that start are idle may always be chosen.
///
/// `running` is the combination of the frame before, `offers` has one member for each bearer, and `blocked` one for
/// each combination.
pub fn choose(
    accepted: &Accepted,
    dir: Dir,
    cfn: u8,
    running: u16,
    offers: &[Head],
    blocked: &[bool],
) -> u16
    requires running { running < length (side_of accepted.now.config dir).combinations }
    requires offers { length offers.now ≡ length accepted.now.config.bearers }
    requires blocked { length blocked.now ≡ length (side_of accepted.now.config dir).combinations }
    ensures { IsBest (asked_of accepted.now.config dir cfn running offers.now blocked.now) result }
{
    let mut rows = [no_row(); ROWS];
    moment(accepted, dir, cfn, running, offers, blocked).best(&mut rows)
}

/// What a combination is chosen with for frame after frame: room for what combinations need of all formats.
#[derive(Drop)]
pub struct Chooser {
    rows: Vec<Row>,
}

impl Model for Chooser {
    ghost use Rattle.std.specs.Prelude.{ℕ, ◌≡◌, length};

    ghost Value = { ℕ };

    ghost view = { λ chooser. length chooser.rows.items };

    ghost invariant = { λ chooser. length chooser.rows.items ≡ 256 };
}

impl Chooser {
    /// Takes the memory in which combinations are chosen.
    pub fn open(alloc: Global) -> Result<Chooser, NoMemory> {
        Ok(Chooser {
            rows: vec![in alloc; no_row(); ROWS]?,
        })
    }

    /// Chooses the combination that `choose` does, in the memory that was taken.
    pub fn choose(
        &mut self,
        accepted: &Accepted,
        dir: Dir,
        cfn: u8,
        running: u16,
        offers: &[Head],
        blocked: &[bool],
    ) -> u16
        requires running { running < length (side_of accepted.now.config dir).combinations }
        requires offers { length offers.now ≡ length accepted.now.config.bearers }
        requires blocked { length blocked.now ≡ length (side_of accepted.now.config dir).combinations }
        ensures { IsBest (asked_of accepted.now.config dir cfn running offers.now blocked.now) result }
    {
        moment(accepted, dir, cfn, running, offers, blocked).best(&mut self.rows)
    }
}

/// The radio frame for which a combination is chosen.
fn moment<'a>(
    accepted: &'a Accepted,
    dir: Dir,
    cfn: u8,
    running: u16,
    offers: &'a [Head],
    blocked: &'a [bool],
) -> Moment<'a>
    requires running { running < length (side_of accepted.now.config dir).combinations }
    requires offers { length offers.now ≡ length accepted.now.config.bearers }
    requires blocked { length blocked.now ≡ length (side_of accepted.now.config dir).combinations }
    ensures { result ≡ asked_of accepted.now.config dir cfn running offers.now blocked.now }
{
    let config = accepted.config();
    Moment {
        dir,
        side: config.side(dir),
        bearers: config.bearers.as_slice(),
        cfn,
        running,
        offers,
        blocked,
    }
}
