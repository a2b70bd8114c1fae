ghost use Rattle.std.specs.Prelude.{◌≡◌, ◌+◌, ◌*◌, ◌^◌, ◌<◌, ◌≤◌, ◌++◌, ◌%◌, ℕ, suc, List, length, take, drop};
ghost use Rattle.dch_bits.specs.declared.bit.Bit.{Bit};
ghost use Rattle.dch_bits.specs.Bits.{number_of};
ghost use Rattle.dch_coding.specs.Parity.{bits_of_octets};
ghost use Rattle.dch_coding.specs.Register.{lowest_bits, HoldsParity, HoldsWord, AreWords};

use dch_bits::{Bit, number};

/// The parities, under a polynomial of degree 32, of words of 32 bits in which at most one octet is not zero. Place
/// `256 * t + n` is for the octet `n` with `t` octets of zeros after it.
pub type Words = [u32; 1024];

/// The parity of a block.
pub fn parity_of_bits(words: &Words, bits: &[Bit]) -> u32
    ensures { (terms : ℕ) → terms < 2 ^ 32 → AreWords terms words.now 1024 →
        HoldsParity 32 (2 ^ 32 + terms) bits.now result }
{
    let (front, rest) = bits.split_at(bits.len() % 32);
    after_bits(words, of_word(words, few_bits(front)), rest)
}

/// The register after these bits, 32 of them at a time.
fn after_bits(words: &Words, register: u32, bits: &[Bit]) -> u32
    requires { length bits.now % 32 ≡ 0 }
    ensures { (terms : ℕ) (a : List Bit) → terms < 2 ^ 32 → AreWords terms words.now 1024 →
        HoldsParity 32 (2 ^ 32 + terms) a register → HoldsParity 32 (2 ^ 32 + terms) (a ++ bits.now) result }
{
    let mut register = register;
    for i in 0..bits.len() / 32 {
        register = of_word(words, register ^ word_of(&bits[32 * i..32 * i + 32]));
    }
    register
}

/// Fewer than 32 bits as one number, the first the highest.
fn few_bits(bits: &[Bit]) -> u32
    requires { length bits.now < 32 }
    ensures small { result < 2 ^ length bits.now }
    ensures bits { lowest_bits (length bits.now) result ≡ bits.now }
{
    let mut value = 0;
    for bit in bits {
        value = value * 2 + u32::from(number(*bit));
    }
    value
}

/// The parity of octets, the highest bit of each first, after the octet `first`.
pub fn parity_of_octets(words: &Words, first: u8, octets: &[u8]) -> u32
    ensures { (terms : ℕ) → terms < 2 ^ 32 → AreWords terms words.now 1024 →
        HoldsParity 32 (2 ^ 32 + terms) (lowest_bits 8 first ++ bits_of_octets octets.now) result }
{
    let (front, rest) = octets.split_at(octets.len() % 4);
    after_octets(words, of_word(words, few_octets(first, front)), rest)
}

/// The register after these octets, four of them at a time.
fn after_octets(words: &Words, register: u32, octets: &[u8]) -> u32
    requires { length octets.now % 4 ≡ 0 }
    ensures { (terms : ℕ) (a : List Bit) → terms < 2 ^ 32 → AreWords terms words.now 1024 →
        HoldsParity 32 (2 ^ 32 + terms) a register →
        HoldsParity 32 (2 ^ 32 + terms) (a ++ bits_of_octets octets.now) result }
{
    let mut register = register;
    for i in 0..octets.len() / 4 {
        let word = joined(
            octets[4 * i],
            octets[4 * i + 1],
            octets[4 * i + 2],
            octets[4 * i + 3],
        );
        register = of_word(words, register ^ word);
    }
    register
}

/// At most four octets as one number, the highest first.
fn few_octets(first: u8, octets: &[u8]) -> u32
    requires { length octets.now < 4 }
    ensures small { result < 2 ^ (8 + 8 * length octets.now) }
    ensures bits { lowest_bits (8 + 8 * length octets.now) result ≡ lowest_bits 8 first ++ bits_of_octets octets.now }
{
    let mut number = u32::from(first);
    for octet in octets {
        number = number * 256 + u32::from(*octet);
    }
    number
}

/// The parity of a word.
fn of_word(words: &Words, word: u32) -> u32
    ensures { (terms : ℕ) → terms < 2 ^ 32 → AreWords terms words.now 1024 → HoldsWord terms word result }
{
    let mut sum = 0;
    for t in 0..4usize {
        sum ^= words[256 * t + (word >> (8 * t)) as usize % 256];
    }
    sum
}

fn word_of(bits: &[Bit]) -> u32
    requires { length bits.now ≡ 32 }
    ensures { lowest_bits 32 result ≡ bits.now }
{
    joined(
        octet_of(&bits[..8]),
        octet_of(&bits[8..16]),
        octet_of(&bits[16..24]),
        octet_of(&bits[24..]),
    )
}

/// Four octets as one number, the highest first.
fn joined(a: u8, b: u8, c: u8, d: u8) -> u32
    ensures { lowest_bits 32 result ≡ lowest_bits 8 a ++ lowest_bits 8 b ++ lowest_bits 8 c ++ lowest_bits 8 d }
{
    ((u32::from(a) * 256 + u32::from(b)) * 256 + u32::from(c)) * 256 + u32::from(d)
}

/// Eight bits as an octet, the first one the highest. The factor moves bit `j` of the eight octets to place `63 - j`,
/// and no two of its products share a place.
fn octet_of(bits: &[Bit]) -> u8
    requires { length bits.now ≡ 8 }
    ensures { lowest_bits 8 result ≡ bits.now }
{
    let side_by_side = at_octet(bits[0], 0)
        + at_octet(bits[1], 1)
        + at_octet(bits[2], 2)
        + at_octet(bits[3], 3)
        + at_octet(bits[4], 4)
        + at_octet(bits[5], 5)
        + at_octet(bits[6], 6)
        + at_octet(bits[7], 7);
    (side_by_side.wrapping_mul(0x8040_2010_0804_0201) >> 56) as u8
}

fn at_octet(bit: Bit, place: u32) -> u64
    requires { place < 8 }
    ensures { result ≡ number_of bit * 2 ^ (8 * place) }
{
    u64::from(number(bit)) << (8 * place)
}
