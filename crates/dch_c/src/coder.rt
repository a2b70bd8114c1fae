//! The coder for C (TS 25.212 4.2.1 to 4.2.3, 4.3.3).
ghost use Rattle.std.specs.Prelude.{◌≡◌, ◌≢◌, ◌+◌, ◌++◌, ◌<◌, ◌≤◌, ◌^◌, ℕ, None, Some, if◌then◌else◌, length, map, drop, replicate};
ghost use Rattle.std.specs.Int.{bit_at};
ghost use Rattle.dch_bits.specs.Text.{letter_of};
ghost use Rattle.dch_coding.specs.Conv.{coded_length, encoded};
ghost use Rattle.dch_coding.specs.declared.rate.Rate.{Rate as TheRate};
ghost use Rattle.dch_tfci.specs.Tfci.{IsNearest, word_bit};
ghost use Rattle.dch_types.specs.declared.channel.Crc.{Crc as TheCrc};
ghost use Rattle.dch_types.specs.Lengths.{crc_size};
ghost use Rattle.dch_handle.specs.Codes.{bits_of, coding_of, crc_of, has_bad_letter, rate_of};
ghost use Rattle.dch_bits.specs.declared.bit.Bit.TheVariants.{Zero};
ghost use Rattle.dch_coding.specs.Segments.{plan_of};
ghost use Rattle.dch_types.specs.declared.channel.Coding.{Coding as TheCoding};
ghost use Rattle.dch_handle.specs.Coding.{IsAttachedText, IsCheckedAs};
ghost use Rattle.dch_c.specs.Cuts.{cut_of};
ghost use Rattle.dch_handle.specs.Statuses.{IsRefused, IsUnlessMemory, bad_code, bad_letter, bad_size, done};

use dch_bits::bits_text;
use dch_coding::{Plan, attach, encode, join, plan, size, split};
use dch_handle::{
    BAD_CODE, BAD_SIZE, DONE, checked, coding_of, crc_of, is_code_size, rate_of, read_bits, zeros,
};
use std::alloc::Global;

/// Into how many code blocks bits are cut, the bits of each, and how many zeros of filler the first one begins with.
#[repr(C)]
#[derive(Clone, Copy, Debug, PartialEq, Eq)]
pub struct Cut {
    pub blocks: usize,
    pub size: usize,
    pub filler: usize,
}

/// Writes a transport block and behind it its parity (TS 25.212 4.2.1).
#[unsafe(no_mangle)]
pub extern "C" fn dch_parity_attach(
    alloc: Global,
    parity_bits: u8,
    block: &[u8],
    out: &mut [u8],
) -> u8
    ensures code { crc_of parity_bits ≡ None → result ≡ bad_code }
    ensures size { (crc : TheCrc) → crc_of parity_bits ≡ Some crc → length out.old ≢ length block.now + crc_size crc →
        result ≡ bad_size }
    ensures status { (crc : TheCrc) → crc_of parity_bits ≡ Some crc → length out.old ≡ length block.now + crc_size crc →
        IsUnlessMemory (if has_bad_letter block.now then bad_letter else done) result }
    ensures done { (crc : TheCrc) → crc_of parity_bits ≡ Some crc → result ≡ done →
        IsAttachedText crc block.now out.new }
    ensures same { IsRefused result → out.new ≡ out.old }
{
    let Some(crc) = crc_of(parity_bits) else {
        return BAD_CODE;
    };
    if out.len() < block.len() || out.len() - block.len() != size(crc) {
        return BAD_SIZE;
    }
    let bits = match read_bits(alloc, block) {
        Ok(bits) => bits,
        Err(status) => return status,
    };
    let mut attached = match zeros(alloc, out.len()) {
        Ok(attached) => attached,
        Err(status) => return status,
    };
    attach(crc, &bits, &mut attached);
    bits_text(&attached, out);
    DONE
}

/// Whether a block ends with the parity of the bits before it (TS 25.212 4.2.1).
#[unsafe(no_mangle)]
pub extern "C" fn dch_parity_check(
    alloc: Global,
    parity_bits: u8,
    attached: &[u8],
    is_good: &mut u8,
) -> u8
    ensures code { crc_of parity_bits ≡ None → result ≡ bad_code }
    ensures size { (crc : TheCrc) → crc_of parity_bits ≡ Some crc → length attached.now < crc_size crc →
        result ≡ bad_size }
    ensures status { (crc : TheCrc) → crc_of parity_bits ≡ Some crc → crc_size crc ≤ length attached.now →
        IsUnlessMemory (if has_bad_letter attached.now then bad_letter else done) result }
    ensures done { (crc : TheCrc) → crc_of parity_bits ≡ Some crc → result ≡ done →
        IsCheckedAs crc (bits_of attached.now) is_good.new }
    ensures same { IsRefused result → is_good.new ≡ is_good.old }
{
    let Some(crc) = crc_of(parity_bits) else {
        return BAD_CODE;
    };
    if attached.len() < size(crc) {
        return BAD_SIZE;
    }
    let bits = match read_bits(alloc, attached) {
        Ok(bits) => bits,
        Err(status) => return status,
    };
    *is_good = checked(crc, &bits);
    DONE
}

/// Encodes a code block by the convolutional code of rate 1/2 or 1/3 (TS 25.212 4.2.3.1).
#[unsafe(no_mangle)]
pub extern "C" fn dch_code(alloc: Global, outputs: u8, block: &[u8], out: &mut [u8]) -> u8
    ensures code { rate_of outputs ≡ None → result ≡ bad_code }
    ensures empty { (rate : TheRate) → rate_of outputs ≡ Some rate → length block.now ≡ 0 → result ≡ bad_size }
    ensures long { (rate : TheRate) → rate_of outputs ≡ Some rate → 504 < length block.now → result ≡ bad_size }
    ensures size { (rate : TheRate) → rate_of outputs ≡ Some rate →
        length out.old ≢ coded_length rate (length block.now) → result ≡ bad_size }
    ensures status { (rate : TheRate) → rate_of outputs ≡ Some rate → 0 < length block.now → length block.now ≤ 504 →
        length out.old ≡ coded_length rate (length block.now) →
        IsUnlessMemory (if has_bad_letter block.now then bad_letter else done) result }
    ensures done { (rate : TheRate) → rate_of outputs ≡ Some rate → result ≡ done →
        out.new ≡ map letter_of (encoded rate (bits_of block.now)) }
    ensures same { IsRefused result → out.new ≡ out.old }
{
    let Some(rate) = rate_of(outputs) else {
        return BAD_CODE;
    };
    if !is_code_size(rate, block.len(), out.len()) {
        return BAD_SIZE;
    }
    let bits = match read_bits(alloc, block) {
        Ok(bits) => bits,
        Err(status) => return status,
    };
    let mut coded = match zeros(alloc, out.len()) {
        Ok(coded) => coded,
        Err(status) => return status,
    };
    encode(rate, &bits, &mut coded);
    bits_text(&coded, out);
    DONE
}

/// Cuts the joined bits of a TTI into code blocks, which follow one another (TS 25.212 4.2.2.2).
#[unsafe(no_mangle)]
pub extern "C" fn dch_blocks_cut(
    alloc: Global,
    outputs: u8,
    joined: &[u8],
    out: &mut [u8],
    cut: &mut Cut,
) -> u8
    ensures code { coding_of outputs ≡ None → (result ≡ bad_code) × (cut.new ≡ cut.old) }
    ensures long { (coding : TheCoding) → coding_of outputs ≡ Some coding → 2 ^ 31 < length joined.now →
        (result ≡ bad_size) × (cut.new ≡ cut.old) }
    ensures cut { (coding : TheCoding) → coding_of outputs ≡ Some coding → length joined.now ≤ 2 ^ 31 →
        cut.new ≡ cut_of (plan_of (length joined.now) coding) }
    ensures size { (coding : TheCoding) → coding_of outputs ≡ Some coding → length joined.now ≤ 2 ^ 31 →
        length out.old ≢ (plan_of (length joined.now) coding).filler + length joined.now → result ≡ bad_size }
    ensures status { (coding : TheCoding) → coding_of outputs ≡ Some coding → length joined.now ≤ 2 ^ 31 →
        length out.old ≡ (plan_of (length joined.now) coding).filler + length joined.now →
        IsUnlessMemory (if has_bad_letter joined.now then bad_letter else done) result }
    ensures done { (coding : TheCoding) → coding_of outputs ≡ Some coding → result ≡ done →
        out.new ≡ map letter_of (replicate cut.new.filler Zero ++ bits_of joined.now) }
    ensures same { IsRefused result → out.new ≡ out.old }
{
    let Some(coding) = coding_of(outputs) else {
        return BAD_CODE;
    };
    if 1 << 31 < joined.len() {
        return BAD_SIZE;
    }
    let plan = plan(joined.len(), coding);
    *cut = cut_of(&plan);
    if out.len() < joined.len() || out.len() - joined.len() != plan.filler {
        return BAD_SIZE;
    }
    let bits = match read_bits(alloc, joined) {
        Ok(bits) => bits,
        Err(status) => return status,
    };
    let mut blocks = match zeros(alloc, out.len()) {
        Ok(blocks) => blocks,
        Err(status) => return status,
    };
    split(&plan, &bits, &mut blocks);
    bits_text(&blocks, out);
    DONE
}

/// Joins such code blocks again, and leaves the filler out.
#[unsafe(no_mangle)]
pub extern "C" fn dch_blocks_join(alloc: Global, outputs: u8, blocks: &[u8], out: &mut [u8]) -> u8
    ensures code { coding_of outputs ≡ None → result ≡ bad_code }
    ensures long { (coding : TheCoding) → coding_of outputs ≡ Some coding → 2 ^ 31 < length out.old →
        result ≡ bad_size }
    ensures size { (coding : TheCoding) → coding_of outputs ≡ Some coding → length out.old ≤ 2 ^ 31 →
        length blocks.now ≢ (plan_of (length out.old) coding).filler + length out.old → result ≡ bad_size }
    ensures status { (coding : TheCoding) → coding_of outputs ≡ Some coding → length out.old ≤ 2 ^ 31 →
        length blocks.now ≡ (plan_of (length out.old) coding).filler + length out.old →
        IsUnlessMemory (if has_bad_letter blocks.now then bad_letter else done) result }
    ensures done { (coding : TheCoding) → coding_of outputs ≡ Some coding → result ≡ done →
        out.new ≡ map letter_of (drop (plan_of (length out.old) coding).filler (bits_of blocks.now)) }
    ensures same { IsRefused result → out.new ≡ out.old }
{
    let Some(coding) = coding_of(outputs) else {
        return BAD_CODE;
    };
    if 1 << 31 < out.len() {
        return BAD_SIZE;
    }
    let plan = plan(out.len(), coding);
    if blocks.len() < out.len() || blocks.len() - out.len() != plan.filler {
        return BAD_SIZE;
    }
    let bits = match read_bits(alloc, blocks) {
        Ok(bits) => bits,
        Err(status) => return status,
    };
    let mut joined = match zeros(alloc, out.len()) {
        Ok(joined) => joined,
        Err(status) => return status,
    };
    join(&plan, &bits, &mut joined);
    bits_text(&joined, out);
    DONE
}

/// What C sees of the code blocks into which bits are cut.
fn cut_of(plan: &Plan) -> Cut
    ensures { result ≡ cut_of plan.now }
{
    Cut {
        blocks: plan.blocks,
        size: plan.size,
        filler: plan.filler,
    }
}

/// The TFCI word of an index below 1024: bit i of it, from the lowest, is output bit i (TS 25.212 4.3.3).
#[unsafe(no_mangle)]
pub extern "C" fn dch_tfci_word(index: u16, word: &mut u32) -> u8
    ensures code { 1024 ≤ index → (result ≡ bad_code) × (word.new ≡ word.old) }
    ensures done { index < 1024 → (result ≡ done) × ((i : ℕ) → i < 32 → bit_at word.new i ≡ word_bit index i) }
{
    if 1024 <= index {
        return BAD_CODE;
    }
    *word = dch_tfci::word(index);
    DONE
}

/// The nearest index to 30 or 120 received bits, and how many of them differ (TS 25.212 4.3.3, 4.3.5).
#[unsafe(no_mangle)]
pub extern "C" fn dch_tfci_nearest(
    alloc: Global,
    received: &[u8],
    index: &mut u16,
    distance: &mut u16,
) -> u8
    ensures size { length received.now ≢ 30 → length received.now ≢ 120 → result ≡ bad_size }
    ensures short { length received.now ≡ 30 →
        IsUnlessMemory (if has_bad_letter received.now then bad_letter else done) result }
    ensures long { length received.now ≡ 120 →
        IsUnlessMemory (if has_bad_letter received.now then bad_letter else done) result }
    ensures done { result ≡ done → IsNearest (bits_of received.now) index.new distance.new }
    ensures same { IsRefused result → (index.new ≡ index.old) × (distance.new ≡ distance.old) }
{
    if received.len() != 30 && received.len() != 120 {
        return BAD_SIZE;
    }
    let bits = match read_bits(alloc, received) {
        Ok(bits) => bits,
        Err(status) => return status,
    };
    let found = dch_tfci::find(&bits);
    *index = found.index;
    *distance = found.distance;
    DONE
}
