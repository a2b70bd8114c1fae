ghost use Rattle.std.specs.Prelude.{◌≡◌, ◌+◌, ◌<◌, ◌≤◌, ◌++◌, All, drop, length, map, take};
ghost use Rattle.dch_am.specs.Status.{fits, most};
ghost use Rattle.dch_amrecv.specs.Holding.{numbered};

use dch_rlcpdu::NUMBERS;

/// The greatest number of runs, at most all of these, that fit so many bits.
pub fn most(bits: usize, runs: usize) -> usize
    requires bits { bits ≤ 1008 }
    ensures value { result ≡ most bits runs }
    ensures within { result ≤ runs }
    ensures few { result ≤ 62 }
{
    let mut count = runs;
    while count > 0 {
        if count <= 62 && 20 + 8 * ((count + 14) / 15) + 16 * count <= bits {
            return count;
        }
        count -= 1;
    }
    0
}

/// Gives runs their numbers of 12 bits.
pub fn number(pairs: &mut [(u16, u8)], next: u16)
    ensures { pairs.new ≡ map (numbered next) pairs.old }
{
    for i in 0..pairs.len() {
        let (first, more) = pairs[i];
        let number = (next as u32 + first as u32) % NUMBERS as u32;
        pairs[i] = (number as u16, more);
    }
}
