ghost use Rattle.std.specs.Prelude.{◌≡◌, ◌≤◌};
ghost use Rattle.dch_am.specs.Bodies.{is_left, room_for};
ghost use Rattle.dch_txbuf.specs.Cuts.{IsStart};
ghost use Rattle.dch_amsend.specs.BufferStanding.{fills};
ghost use Rattle.dch_amsend.specs.TxBuffer.{unsent_at};

use dch_txbuf::{MOST_PDUS, SduBuffer, Start, next_cut, next_start};

/// Something is left to be sent from a place on.
pub fn is_left_at(sdus: &SduBuffer, start: &Start, owed: bool) -> bool
    requires { IsStart sdus.now.items start.now }
    ensures { result ≡ is_left (unsent_at start.now owed sdus.now.items) }
{
    owed || (start.sdu as usize) < sdus.len()
}

/// The octets of a PDU for SDUs and their length indicators, of so many behind the header.
pub fn room_for(octets: usize, owed: bool) -> usize
    requires { 1 ≤ octets }
    ensures value { result ≡ room_for octets owed }
    ensures few { result ≤ octets }
{
    if owed { octets - 1 } else { octets }
}

/// How many PDUs of so many octets behind the header could be filled one after another, at most 64.
pub fn count_pdus(sdus: &SduBuffer, first: Start, first_owed: bool, octets: usize) -> u16
    requires start { IsStart sdus.now.items first }
    requires from { 1 ≤ octets }
    requires most { octets ≤ 124 }
    ensures { result ≡ fills 64 octets (unsent_at first first_owed sdus.now.items) }
{
    let mut start = first;
    let mut owed = first_owed;
    for count in 0..MOST_PDUS {
        if !is_left_at(sdus, &start, owed) {
            return count;
        }
        let cut = next_cut(sdus, &start, room_for(octets, owed));
        start = next_start(&start, &cut);
        owed = cut.owed;
    }
    MOST_PDUS
}
