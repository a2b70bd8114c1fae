ghost use Rattle.std.specs.Prelude.{◌≡◌, ◌+◌, ◌*◌, ◌<◌, ◌≤◌, length, drop, slice_index, slice_index_or, false};
ghost use Rattle.dch_rlcpdu.specs.Fields.{bits_of, pairs_of};
ghost use Rattle.dch_rlcpdu.specs.Halves.{halves};
ghost use Rattle.dch_rlcpdu.specs.Reading.{field_of, is_last, size_by, size_of, whole_size};
ghost use Rattle.dch_rlcpdu.specs.Sufis.{sufi_of, IsInRange};

use crate::half::{bit_of, half, number};
use crate::sufi::Sufi;

/// How many half octets the field at a place has, 0 where none is known.
pub(crate) fn size_at(octets: &[u8], at: usize) -> usize
    requires { at < 2 * length octets.now }
    ensures value { result ≡ size_of (drop at (halves octets.now)) }
    ensures small { result < 100 }
{
    size_of_kind(half(octets, at, 0), count_at(octets, at))
}

/// The half octet behind the type of a field, 0 where the octets end before.
fn count_at(octets: &[u8], at: usize) -> u8
    requires { at < 2 * length octets.now }
    ensures value { result ≡ slice_index (drop at (halves octets.now)) 1 }
    ensures small { result < 16 }
{
    if at + 1 < 2 * octets.len() {
        half(octets, at, 1)
    } else {
        0
    }
}

fn size_of_kind(kind: u8, count: u8) -> usize
    requires { count < 16 }
    ensures value { result ≡ size_by kind count }
    ensures small { result < 100 }
{
    let count = count as usize;
    match kind {
        0 => 1,
        1 | 2 => 4,
        3 if count > 0 => 2 + 4 * count,
        4 => 7 + 2 * count,
        6 if count > 0 => 3 + 3 * count,
        7 => 5,
        _ => 0,
    }
}

/// How many half octets the field at a place has, if a known one stands there whole.
pub(crate) fn whole_size_at(octets: &[u8], at: usize) -> Option<usize>
    requires { at < 2 * length octets.now }
    ensures { result ≡ whole_size (drop at (halves octets.now)) }
{
    let size = size_at(octets, at);
    if size == 0 {
        return None;
    }
    if 2 * octets.len() - at < size {
        None
    } else {
        Some(size)
    }
}

/// The field at a place ends the list.
pub(crate) fn ends_at(octets: &[u8], at: usize) -> bool
    requires { at < 2 * length octets.now }
    ensures { result ≡ is_last (drop at (halves octets.now)) }
{
    let kind = half(octets, at, 0);
    kind == 0 || kind == 2
}

/// The field at a place, which stands there whole.
pub(crate) fn sufi_at(octets: &[u8], at: usize) -> Sufi
    requires known { 0 < size_of (drop at (halves octets.now)) }
    requires whole { at + size_of (drop at (halves octets.now)) ≤ 2 * length octets.now }
    ensures value { result ≡ sufi_of (field_of (drop at (halves octets.now))) }
    ensures range { IsInRange result }
{
    match half(octets, at, 0) {
        0 => Sufi::NoMore,
        1 => Sufi::Window(number(octets, at, 1)),
        2 => Sufi::Ack(number(octets, at, 1)),
        3 => Sufi::List {
            pairs: half(octets, at, 1),
        },
        4 => Sufi::Bitmap {
            first: number(octets, at, 2),
            bits: 8 + 8 * half(octets, at, 1) as u16,
        },
        6 => {
            let count = half(octets, at, 1) as usize;
            Sufi::Mrw {
                last: number(octets, at, 3 * count - 1),
                n: half(octets, at, 3 * count + 2),
            }
        }
        _ => Sufi::MrwAck {
            n: half(octets, at, 1),
            sn: number(octets, at, 2),
        },
    }
}

/// Pair `j` of the LIST at a place.
pub(crate) fn pair_at(octets: &[u8], at: usize, j: usize) -> (u16, u8)
    requires whole { at + size_of (drop at (halves octets.now)) ≤ 2 * length octets.now }
    requires pair { j < length (pairs_of (field_of (drop at (halves octets.now)))) }
    ensures value { result ≡ slice_index_or (pairs_of (field_of (drop at (halves octets.now)))) j (0, 0) }
    ensures number { result.0 < 4096 }
    ensures more { result.1 < 16 }
{
    (number(octets, at, 4 * j + 2), half(octets, at, 4 * j + 5))
}

/// Bit `j` of the BITMAP at a place.
pub(crate) fn bit_at(octets: &[u8], at: usize, j: usize) -> bool
    requires whole { at + size_of (drop at (halves octets.now)) ≤ 2 * length octets.now }
    requires bit { j < length (bits_of (field_of (drop at (halves octets.now)))) }
    ensures { result ≡ slice_index_or (bits_of (field_of (drop at (halves octets.now)))) j false }
{
    bit_of(half(octets, at, j / 4 + 5), j % 4)
}
