//! The transport channels of a configuration are opened (TS 25.212 4.2).
ghost use Rattle.std.specs.Prelude.{◌≡◌, false, None, Some};
ghost use Rattle.dch_check.specs.Singles.{RefusesSingle, has_second};
ghost use Rattle.dch_check.specs.Verdicts.{IsAcceptedAs};
ghost use Rattle.dch_handle.specs.declared.held.Held.{Held};
ghost use Rattle.dch_c.specs.HeldChannels.{HoldsChannels};
ghost use Rattle.dch_handle.specs.Opening.{IsOpening, IsRefusedInto, IsRefusedPast};
ghost use Rattle.dch_handle.specs.Statuses.{IsRefused, busy, done, no_memory, refused, short};

use dch_check::{Verdict, judge_single};
use dch_handle::{BUSY, Channels, Handle, Held, NO_MEMORY, Refusal, hold, refuse};
use std::alloc::Global;

/// Opens the transport channels of a configuration's text, in both directions.
#[unsafe(no_mangle)]
pub extern "C" fn dch_channels_open(
    alloc: Global,
    handle: &mut Handle,
    text: &[u8],
    why: &mut [u8],
    refusal: &mut Refusal,
) -> u8
    ensures busy { (held : Held) → handle.old.raw.value ≡ Some held → result ≡ busy }
    ensures opens { handle.old.raw.value ≡ None → IsOpening result }
    ensures done { result ≡ done →
        HoldsChannels (λ channels. IsAcceptedAs text.now channels.planned) handle.new.raw.value ×
        (has_second text.now ≡ false) }
    ensures refused { result ≡ refused → IsRefusedInto RefusesSingle text.now why.old why.new refusal.new }
    ensures short { result ≡ short → IsRefusedPast RefusesSingle text.now why.old why.new refusal.new }
    ensures same { IsRefused result → handle.new.raw.value ≡ handle.old.raw.value }
    ensures busy_same { result ≡ busy → (why.new ≡ why.old) × (refusal.new ≡ refusal.old) }
    ensures done_same { result ≡ done → (why.new ≡ why.old) × (refusal.new ≡ refusal.old) }
    ensures memory_same { result ≡ no_memory → (why.new ≡ why.old) × (refusal.new ≡ refusal.old) }
{
    if handle.is_open {
        return BUSY;
    }
    match judge_single(alloc, text) {
        Ok(Verdict::Accepted(accepted)) => match Channels::open(alloc, accepted) {
            Ok(channels) => hold(alloc, Held::Channels(channels), handle),
            Err(_) => NO_MEMORY,
        },
        Ok(Verdict::Refused(line)) => refuse(&line, why, refusal),
        Err(_) => NO_MEMORY,
    }
}
