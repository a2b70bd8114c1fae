ghost use Rattle.std.specs.Prelude.{◌≡◌, ◌+◌, ◌-◌, ◌<◌, ◌≤◌, length, slice_index_or};
ghost use Rattle.dch_txbuf.specs.Cuts.{IsSmall, IsStart, cut_of, left_at, next_start};

use crate::store::SduBuffer;

/// Where a PDU begins: at an SDU of the buffer, of which so many octets stand in PDUs before.
#[derive(Clone, Copy)]
pub struct Start {
    pub sdu: u16,
    pub used: u16,
}

/// What a PDU takes of the SDUs from its start on: so many end in it with their length indicators, and so many octets
/// of the next one stand behind them. Where these are all of that one its length indicator is owed to the next PDU.
#[derive(Clone, Copy)]
pub struct Cut {
    pub pieces: u8,
    pub rest: u8,
    pub owed: bool,
    /// Octets are left behind them, which a length indicator of padding tells.
    pub padded: bool,
}

/// What a new PDU takes, in so many octets for SDUs and length indicators.
pub fn next_cut(sdus: &SduBuffer, start: &Start, room: usize) -> Cut
    requires start { IsStart sdus.now.items start.now }
    requires small { room ≤ 126 }
    ensures cut { result ≡ cut_of room (left_at start.now sdus.now.items) }
    ensures few { result.pieces + result.rest ≤ room }
    ensures next { IsSmall (next_start start.now result) }
{
    let first = start.sdu as usize;
    let mut free = room;
    let mut used = start.used as usize;
    for i in first..sdus.len() {
        let left = sdus.octets(i) as usize - used;
        if left >= free {
            return Cut {
                pieces: (i - first) as u8,
                rest: free as u8,
                owed: left == free,
                padded: false,
            };
        }
        free -= left + 1;
        used = 0;
    }
    Cut {
        pieces: (sdus.len() - first) as u8,
        rest: 0,
        owed: false,
        padded: free > 0,
    }
}
