ghost use Rattle.std.specs.Prelude.{◌≡◌, ◌+◌, ◌-◌, ◌*◌, ◌<◌, ◌≤◌, ◌↔◌, ℕ, length, take, true, IsTrue};
ghost use Rattle.dch_coding.specs.Parity.{IsCheck, header_polynomial, payload_polynomial};
ghost use Rattle.dch_accept.specs.Padded.{bits_from};
ghost use Rattle.dch_iub.specs.Forms.{IsHeaderCheck, IsPayloadCheck};

use dch_coding::payload16;

/// The check of a header of so many octets (TS 25.427 7.2).
pub fn header_check(frame: &[u8], header: usize) -> u8
    requires some { 1 ≤ header }
    requires inside { header ≤ length frame.now }
    ensures check { IsCheck header_polynomial (bits_from frame.now 7 (8 * header - 7)) result }
    ensures small { result < 128 }
{
    dch_coding::header_check(&frame[..header])
}

/// Whether the first seven bits of a header are its check.
pub fn header_fits(frame: &[u8], header: usize) -> bool
    requires some { 1 ≤ header }
    requires inside { header ≤ length frame.now }
    ensures { IsTrue result ↔ IsHeaderCheck frame.now header }
{
    header_check(frame, header) == frame[0] / 2
}

/// The check of the octets of a frame between two places (TS 25.427 7.2).
fn payload_check(frame: &[u8], from: usize, end: usize) -> u16
    requires order { from ≤ end }
    requires inside { end ≤ length frame.now }
    ensures { IsCheck payload_polynomial (bits_from frame.now (8 * from) (8 * (end - from))) result }
{
    payload16(&frame[from..end])
}

/// Whether the two octets after a payload are its check.
pub fn payload_fits(frame: &[u8], from: usize, end: usize) -> bool
    requires order { from ≤ end }
    requires inside { end + 2 ≤ length frame.now }
    ensures { IsTrue result ↔ IsPayloadCheck frame.now from end }
{
    payload_check(frame, from, end) == 256 * u16::from(frame[end]) + u16::from(frame[end + 1])
}

/// Writes the check of a payload after it, where payload checks are on.
pub fn write_check(on: bool, from: usize, end: usize, out: &mut [u8])
    requires order { from ≤ end }
    requires inside { on ≡ true → end + 2 ≤ length out.old }
    ensures check { on ≡ true → IsPayloadCheck out.new from end }
    ensures before { take end out.new ≡ take end out.old }
{
    if on {
        let check = payload_check(out, from, end);
        out[end] = (check / 256) as u8;
        out[end + 1] = (check % 256) as u8;
    }
}
