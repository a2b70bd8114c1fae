ghost use Rattle.std.specs.Prelude.{◌≡◌, ℕ, ◌*◌, ◌<◌, length, slice_index_or};
ghost use Rattle.std.specs.Int.{bit_at};
ghost use Rattle.dch_tfci.specs.Tfci.{basis, word_bit, sent, IsSize};

use dch_bits::{Bit, bit_at};

/// The basis sequences by columns: bit `i` of column `n` is M(i,n) (TS 25.212 4.3.3, table 8).
static COLUMNS: [u32; 10] = [
    0x2aaa_d555,
    0x3333_6666,
    0x3c3c_7878,
    0x3fc0_7f80,
    0xbfff_8000,
    0xffff_ffff,
    0xbb83_e30a,
    0x38ed_d9c0,
    0x3536_4fa8,
    0x22bd_761c,
];

/// The word of an index below 1024. Bit `i` of the answer, from the lowest, is output bit `b_i` (TS 25.212 4.3.3).
pub fn word(index: u16) -> u32
    requires { index < 1024 }
    ensures { (i : ℕ) → i < 32 → bit_at result i ≡ word_bit index i }
{
    let mut word = 0;
    for n in 0..10usize {
        word ^= column(index, n);
    }
    word
}

/// Column `n` where bit `n` of the index is set, and zeros otherwise.
fn column(index: u16, n: usize) -> u32
    requires { n < 10 }
    ensures { (i : ℕ) → i < 32 → bit_at result i ≡ bit_at index n * basis i n }
{
    if (index >> n) % 2 == 1 { COLUMNS[n] } else { 0 }
}

/// Writes the bits that are sent for an index below 1024: the first 30 of its word, or 120 bits that repeat the word of
/// 32 (TS 25.212 4.3.5).
pub fn send(index: u16, out: &mut [Bit])
    requires index { index < 1024 }
    requires size { IsSize (length out.old) }
    ensures { out.new ≡ sent index (length out.old) }
{
    let word = word(index);
    let period = if out.len() == 30 { 30 } else { 32 };
    for k in 0..out.len() {
        out[k] = bit_at(word, k % period);
    }
}
