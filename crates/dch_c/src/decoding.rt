//! The decoder for C.
ghost use Rattle.std.specs.Prelude.{◌≡◌, ◌<◌, ◌≤◌, ℕ, None, Some, false, length};
ghost use Rattle.dch_coding.specs.declared.rate.Rate.{Rate as TheRate};
ghost use Rattle.dch_handle.specs.Codes.{rate_of};
ghost use Rattle.dch_handle.specs.Decoding.{IsRead, Suits};
ghost use Rattle.dch_handle.specs.declared.held.Held.{Held};
ghost use Rattle.dch_handle.specs.declared.held.Held.TheVariants.{Decoder as HeldDecoder};
ghost use Rattle.dch_c.specs.Kinds.{is_decoder};
ghost use Rattle.dch_handle.specs.Statuses.{IsRefused, IsUnlessMemory, done, busy, closed, bad_code, bad_size, other_kind};

use dch_handle::{
    BAD_CODE, BAD_SIZE, BUSY, CLOSED, Copies, DONE, Decoder, Handle, Held, NO_MEMORY, OTHER_KIND,
    hold, put, rate_of, take,
};
use std::alloc::Global;

/// Opens a decoder for code blocks of up to so many bits, at most 504.
#[unsafe(no_mangle)]
pub extern "C" fn dch_decoder_open(alloc: Global, handle: &mut Handle, most: usize) -> u8
    ensures busy { (held : Held) → handle.old.raw.value ≡ Some held → result ≡ busy }
    ensures size { handle.old.raw.value ≡ None → 504 < most → result ≡ bad_size }
    ensures opens { handle.old.raw.value ≡ None → most ≤ 504 → IsUnlessMemory done result }
    ensures done { result ≡ done → handle.new.raw.value ≡ Some (HeldDecoder most) }
    ensures same { IsRefused result → handle.new.raw.value ≡ handle.old.raw.value }
{
    if handle.is_open {
        return BUSY;
    }
    if 504 < most {
        return BAD_SIZE;
    }
    let Ok(decoder) = Decoder::open(alloc, most) else {
        return NO_MEMORY;
    };
    hold(alloc, Held::Decoder(decoder), handle)
}

/// The code block that disagrees with the fewest received copies of its coded bits (TS 25.212 4.2.3.1).
#[unsafe(no_mangle)]
pub extern "C" fn dch_decoder_nearest(
    alloc: Global,
    handle: &mut Handle,
    outputs: u8,
    votes: &[Copies],
    filler: usize,
    block: &mut [u8],
    copies: &mut u32,
) -> u8
    ensures closed { handle.old.raw.value ≡ None → result ≡ closed }
    ensures other { (held : Held) → handle.old.raw.value ≡ Some held → is_decoder held ≡ false → result ≡ other_kind }
    ensures code { (most : ℕ) → handle.old.raw.value ≡ Some (HeldDecoder most) → rate_of outputs ≡ None →
        result ≡ bad_code }
    ensures size { (most : ℕ) (rate : TheRate) → handle.old.raw.value ≡ Some (HeldDecoder most) →
        rate_of outputs ≡ Some rate →
        ¬ Suits most rate votes.now filler (length block.old) → result ≡ bad_size }
    ensures read { (most : ℕ) (rate : TheRate) → handle.old.raw.value ≡ Some (HeldDecoder most) →
        rate_of outputs ≡ Some rate →
        Suits most rate votes.now filler (length block.old) → (result ≡ done) ×
        IsRead rate votes.now (length block.old) filler block.new copies.new }
    ensures same { IsRefused result → (block.new ≡ block.old) × (copies.new ≡ copies.old) }
    ensures kept { handle.new.raw.value ≡ handle.old.raw.value }
{
    let Some(mut held) = take(alloc, handle) else {
        return CLOSED;
    };
    let status = match &mut *held {
        Held::Decoder(decoder) => nearest(decoder, outputs, votes, filler, block, copies),
        Held::Channels(_) | Held::Rnc(_) | Held::Ue(_) | Held::NodeB(_) => OTHER_KIND,
    };
    put(handle, held);
    status
}

/// Reads a block, where that can be.
fn nearest(
    decoder: &mut Decoder,
    outputs: u8,
    votes: &[Copies],
    filler: usize,
    block: &mut [u8],
    copies: &mut u32,
) -> u8
    ensures code { rate_of outputs ≡ None → result ≡ bad_code }
    ensures size { (rate : TheRate) → rate_of outputs ≡ Some rate →
        ¬ Suits decoder.old rate votes.now filler (length block.old) → result ≡ bad_size }
    ensures read { (rate : TheRate) → rate_of outputs ≡ Some rate →
        Suits decoder.old rate votes.now filler (length block.old) →
        (result ≡ done) × IsRead rate votes.now (length block.old) filler block.new copies.new }
    ensures same { IsRefused result → (block.new ≡ block.old) × (copies.new ≡ copies.old) }
    ensures kept { decoder.new ≡ decoder.old }
{
    let Some(rate) = rate_of(outputs) else {
        return BAD_CODE;
    };
    if !decoder.suits(rate, votes, filler, block.len()) {
        return BAD_SIZE;
    }
    *copies = decoder.nearest(rate, votes, filler, block);
    DONE
}

/// Closes a handle of any kind, and gives its memory back.
#[unsafe(no_mangle)]
pub extern "C" fn dch_close(alloc: Global, handle: &mut Handle)
    ensures { handle.new.raw.value ≡ None }
{
    drop(take(alloc, handle));
}
