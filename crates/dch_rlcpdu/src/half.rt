ghost use Rattle.std.specs.Prelude.{◌≡◌, ◌+◌, ◌*◌, ◌<◌, ◌≤◌, length, drop, slice_index};
ghost use Rattle.dch_rlcpdu.specs.Halves.{halves, half_bit, number_at};

/// The half octet `i` behind a place. Places are counted in half octets, the higher half first.
pub(crate) fn half(octets: &[u8], at: usize, i: usize) -> u8
    requires { at + i < 2 * length octets.now }
    ensures value { result ≡ slice_index (drop at (halves octets.now)) i }
    ensures small { result < 16 }
{
    half_at(octets, at + i)
}

fn half_at(octets: &[u8], at: usize) -> u8
    requires { at < 2 * length octets.now }
    ensures value { result ≡ slice_index (halves octets.now) at }
    ensures small { result < 16 }
{
    let octet = octets[at / 2];
    if at % 2 == 0 { octet / 16 } else { octet % 16 }
}

/// The number of twelve bits from the half octet `i` behind a place on.
pub(crate) fn number(octets: &[u8], at: usize, i: usize) -> u16
    requires { at + i + 3 ≤ 2 * length octets.now }
    ensures value { result ≡ number_at (drop at (halves octets.now)) i }
    ensures small { result < 4096 }
{
    let high = half(octets, at, i) as u16;
    let middle = half(octets, at, i + 1) as u16;
    256 * high + 16 * middle + half(octets, at, i + 2) as u16
}

/// Bit `j` of a half octet, the highest first.
pub(crate) fn bit_of(half: u8, j: usize) -> bool
    requires { j < 4 }
    ensures { result ≡ half_bit half j }
{
    match j {
        0 => half / 8 % 2 == 1,
        1 => half / 4 % 2 == 1,
        2 => half / 2 % 2 == 1,
        _ => half % 2 == 1,
    }
}
