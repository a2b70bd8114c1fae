ghost use Rattle.std.specs.Prelude.{◌≡◌, ◌≤◌, ◌<◌, ◌⊎◌, ◌++◌, drop, length, string_bytes};
ghost use Rattle.dch_handle.specs.Opening.{digit_at, number_in};
ghost use Rattle.dch_handle.specs.Statuses.{refused, short};

use crate::status::{REFUSED, SHORT};

/// A refusal as C has it: its number, and the length of its line.
#[repr(C)]
#[derive(Clone, Copy, Debug, PartialEq, Eq)]
pub struct Refusal {
    pub number: u16,
    pub length: usize,
}

/// Tells a refusal, and writes its line where the buffer is long enough.
pub fn refuse(line: &str, why: &mut [u8], refusal: &mut Refusal) -> u8
    ensures number { refusal.new.number ≡ number_in line.now }
    ensures long { refusal.new.length ≡ length line.now }
    ensures fits { length line.now ≤ length why.old →
        (result ≡ refused) × (why.new ≡ line.now ++ drop (length line.now) why.old) }
    ensures short { length why.old < length line.now → (result ≡ short) × (why.new ≡ why.old) }
{
    let line = line.as_bytes();
    *refusal = Refusal {
        number: 10 * digit_at(line, 8) + digit_at(line, 9),
        length: line.len(),
    };
    if why.len() < line.len() {
        return SHORT;
    }
    why[..line.len()].copy_from_slice(line);
    REFUSED
}

/// The value of the digit at a place of a line.
fn digit_at(line: &[u8], i: usize) -> u16
    ensures value { result ≡ digit_at line.now i }
    ensures small { result ≤ 255 }
{
    match line.get(i) {
        Some(digit) => u16::from(digit.saturating_sub(b'0')),
        None => 0,
    }
}
