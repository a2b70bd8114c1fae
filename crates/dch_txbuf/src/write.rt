ghost use Rattle.std.specs.Prelude.{◌≡◌, ◌+◌, ◌-◌, ◌<◌, ◌≤◌, [], ◌∷◌, All, length, if◌then◌else◌};
ghost use Rattle.dch_am.specs.Bodies.{carried, indicators_of};
ghost use Rattle.dch_am.specs.Short.{IsShort};
ghost use Rattle.dch_rlcpdu.specs.Am.{am_pdu};
ghost use Rattle.dch_rlcpdu.specs.Um.{um_pdu};
ghost use Rattle.dch_txbuf.specs.Cuts.{IsStart, IsThere, body_of, has_padding, is_padded, led_by, left_at, indicators_with, octets_of};

use crate::body::write_body;
use crate::store::SduBuffer;
use crate::taken::{Cut, Start};
use dch_rlcpdu::FILLED;

/// The number of a PDU of acknowledged mode, 0 to 4,095, its poll bit, and whether the length indicator 0 stands first.
#[derive(Clone, Copy)]
pub struct Header {
    pub number: u16,
    pub poll: bool,
    pub full: bool,
}

/// Writes the PDU of acknowledged mode that takes this of the SDUs.
pub fn write_taken(sdus: &SduBuffer, start: &Start, cut: &Cut, header: &Header, out: &mut [u8])
    requires start { IsStart sdus.now.items start.now }
    requires there { IsThere cut.now (left_at start.now sdus.now.items) }
    requires number { header.now.number < 4096 }
    requires least { 2 ≤ length out.old }
    requires most { length out.old ≤ 126 }
    requires short { IsShort (length out.old - 2) (body_of header.now.full cut.now (left_at start.now sdus.now.items)) }
    requires padded { cut.now.padded ≡ has_padding (length out.old - 2)
        (body_of header.now.full cut.now (left_at start.now sdus.now.items)) }
    ensures { out.new ≡ am_pdu header.now.number header.now.poll (indicators_of (length out.old - 2)
        (body_of header.now.full cut.now (left_at start.now sdus.now.items)))
        (carried (body_of header.now.full cut.now (left_at start.now sdus.now.items))) (length out.old) }
{
    let lead = lead_of(header.full);
    let (front, body) = out.split_at_mut(2);
    let more = write_body(sdus, start, cut, lead, body);
    front[0] = 128 + (header.number / 32) as u8;
    front[1] = 8 * (header.number % 32) as u8 + 4 * u8::from(header.poll) + more;
}

/// The length indicator 0, where it stands first.
fn lead_of(full: bool) -> Option<u8>
    ensures { led_by result ≡ (if full then 0 ∷ [] else []) }
{
    if full { Some(FILLED) } else { None }
}

/// Writes the PDU of unacknowledged mode that takes this of the SDUs: `number` is 0 to 127, and `lead` the length
/// indicator that stands first, if there is one.
pub fn write_um_taken(
    sdus: &SduBuffer,
    start: &Start,
    cut: &Cut,
    number: u8,
    lead: Option<u8>,
    out: &mut [u8],
)
    requires start { IsStart sdus.now.items start.now }
    requires there { IsThere cut.now (left_at start.now sdus.now.items) }
    requires number { number < 128 }
    requires lead { All (λ m. m < 128) (led_by lead) }
    requires least { 1 ≤ length out.old }
    requires most { length out.old ≤ 126 }
    requires few { length (led_by lead) + length (octets_of cut.now (left_at start.now sdus.now.items)) +
        cut.now.pieces ≤ length out.old - 1 }
    requires padded { cut.now.padded ≡ is_padded (length out.old - 1) lead cut.now (left_at start.now sdus.now.items) }
    ensures { out.new ≡ um_pdu number (indicators_with lead (length out.old - 1) cut.now
        (left_at start.now sdus.now.items)) (octets_of cut.now (left_at start.now sdus.now.items)) (length out.old) }
{
    let (front, body) = out.split_at_mut(1);
    let more = write_body(sdus, start, cut, lead, body);
    front[0] = 2 * number + more;
}
