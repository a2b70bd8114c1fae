ghost use Rattle.std.specs.Prelude.{◌≡◌};
ghost use Rattle.dch_txbuf.specs.Cuts.{IsSmall, next_start};

use crate::taken::{Cut, Start};

/// The most PDUs that an entity offers to build one after another.
pub const MOST_PDUS: u16 = 64;

/// Where the next PDU begins.
pub fn next_start(start: &Start, cut: &Cut) -> Start
    requires { IsSmall (next_start start.now cut.now) }
    ensures { result ≡ next_start start.now cut.now }
{
    let sdu = start.sdu + cut.pieces as u16;
    let rest = cut.rest as u16;
    if cut.owed {
        return Start {
            sdu: sdu + 1,
            used: 0,
        };
    }
    Start {
        sdu,
        used: if cut.pieces > 0 {
            rest
        } else {
            start.used + rest
        },
    }
}
