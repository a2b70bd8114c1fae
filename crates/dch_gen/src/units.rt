ghost use Rattle.std.specs.Prelude.{◌≡◌, ◌<◌, ◌≤◌, ◌+◌, ◌*◌, ◌^◌, IfSome, length};
ghost use Rattle.dch_gen.specs.Sizes.{IsShort, size_of};
ghost use Rattle.dch_gen.specs.Units.{bit_of, number_of, unit_bits, unit_octets};

use dch_bits::Bit;
use dch_types::Dir;

/// How long a unit is: in bits for a transparent bearer, and in octets for the others.
#[derive(Clone, Copy)]
pub enum UnitSize {
    Bits(usize),
    Octets(usize),
}

/// The most bits of a unit.
pub const MOST_BITS: usize = 103;

/// The most octets of a unit.
pub const MOST_OCTETS: usize = 400;

/// The size of the unit that is offered to a bearer before a radio frame, of so many in all, if one is.
pub fn unit_size(bearer: u8, frame: u32, frames: u32) -> Option<UnitSize>
    requires { frame + 50 < 2 ^ 32 }
    ensures value { result ≡ size_of frames frame bearer }
    ensures short { IfSome result IsShort }
{
    match bearer {
        0 => (frame % 2 == 0).then_some(UnitSize::Bits(81)),
        1 => (frame % 2 == 0).then_some(UnitSize::Bits(103)),
        2 => (frame % 2 == 0).then_some(UnitSize::Bits(60)),
        3 => (frame % 80 == 20).then_some(UnitSize::Octets(10)),
        4 => (frame % 40 == 0).then_some(UnitSize::Octets(14)),
        5 => (frame + 50 < frames).then_some(UnitSize::Octets(400)),
        _ => None,
    }
}

fn dir_number(dir: Dir) -> u32
    ensures value { result ≡ number_of dir }
    ensures few { result ≤ 1 }
{
    match dir {
        Dir::Up => 0,
        Dir::Down => 1,
    }
}

/// Fills in the octets of a unit.
pub fn fill_octets(octets: &mut [u8], dir: Dir, bearer: u8, frame: u32)
    requires frame { frame < 100000 }
    requires few { length octets.old ≤ 400 }
    ensures { octets.new ≡ unit_octets frame dir bearer (length octets.old) }
{
    let first = 7 * frame + 31 * u32::from(bearer) + 101 * dir_number(dir);
    for (j, octet) in octets.iter_mut().enumerate() {
        *octet = ((first + 13 * j as u32) % 256) as u8;
    }
}

/// Fills in the bits of a unit.
pub fn fill_bits(bits: &mut [Bit], dir: Dir, bearer: u8, frame: u32)
    requires frame { frame < 100000 }
    requires few { length bits.old ≤ 103 }
    ensures { bits.new ≡ unit_bits frame dir bearer (length bits.old) }
{
    let first = 3 * frame + 5 * u32::from(bearer) + dir_number(dir);
    for (j, bit) in bits.iter_mut().enumerate() {
        *bit = bit_of(first + j as u32);
    }
}

/// Three zeros and three ones in turn.
fn bit_of(number: u32) -> Bit
    ensures { result ≡ bit_of number }
{
    if number / 3 % 2 == 0 {
        Bit::Zero
    } else {
        Bit::One
    }
}
