ghost use Rattle.std.specs.Prelude.{◌≡◌, ◌+◌, ◌<◌, ◌≤◌, ◌&&◌, not, IfSome, drop, length, slice_index, slice_set};
ghost use Rattle.circular_buffer.specs.Buffer.{buffer};
ghost use Rattle.dch_retx.specs.Flights.{at, acknowledged, before_next, changed_below, front_acked, joined, requested_in, AreLinked, AreRequests};

use crate::places::{acknowledge_at, is_acked, one};
use crate::request_set::RequestSet;
use crate::sent_pdu::SentPdu;
use circular_buffer::HeapCircularBuffer;

/// How many PDUs from a place on are acknowledged, up to the first that isn't.
pub fn acked_from(ring: &HeapCircularBuffer<SentPdu>, from: usize) -> usize
    requires { from ≤ length ring.now.items }
    ensures count { result ≡ front_acked (drop from ring.now.items) }
    ensures within { from + result ≤ length ring.now.items }
{
    for i in from..ring.len() {
        if !is_acked(ring, i) {
            return i - from;
        }
    }
    ring.len() - from
}

/// How many acknowledged PDUs follow the open one at a place.
fn skip_at(skips: &HeapCircularBuffer<u16>, i: usize) -> usize
    requires { i < length skips.now.items }
    ensures { result ≡ slice_index skips.now.items i }
{
    *skips.get(i).unwrap() as usize
}

/// So many follow it.
fn set_skip(skips: &mut HeapCircularBuffer<u16>, i: usize, skip: u16)
    requires { i < length skips.old.items }
    ensures { skips.new ≡ buffer (slice_set skips.old.items i skip) skips.old.capacity }
{
    if let Some(old) = skips.get_mut(i) {
        *old = skip;
    }
}

/// The PDUs before a place are acknowledged, but for those that are marked, which are unmarked. Only open ones are
/// looked at. Answers how many of them aren't requested any more, whose places go.
pub fn acknowledge_below(
    ring: &mut HeapCircularBuffer<SentPdu>,
    skips: &mut HeapCircularBuffer<u16>,
    requests: &mut RequestSet,
    to: usize,
) -> usize
    requires to { to ≤ length ring.old.items }
    requires small { length ring.old.items ≤ 2048 }
    requires linked { AreLinked ring.old.items skips.old.items }
    requires requests { AreRequests requests.old ring.old.items }
    ensures cleared { result + requested_in ring.new.items ≡ requested_in ring.old.items }
    ensures after { ring.new ≡ buffer (changed_below acknowledged to ring.old.items) ring.old.capacity }
    ensures linked { AreLinked ring.new.items skips.new.items }
    ensures requests { AreRequests requests.new ring.new.items }
    ensures room { skips.new.capacity ≡ skips.old.capacity }
{
    let mut cleared = 0;
    let mut before = None;
    let mut i = acked_from(ring, 0);
    while i < to {
        let next = i + 1 + skip_at(skips, i);
        cleared += one(acknowledge_one(ring, requests, i));
        before = join(ring, skips, before, i, next);
        i = next;
    }
    cleared
}

/// A PDU is acknowledged, or unmarked where it is marked. Answers whether it was requested and isn't any more. Its
/// place goes then.
fn acknowledge_one(
    ring: &mut HeapCircularBuffer<SentPdu>,
    requests: &mut RequestSet,
    i: usize,
) -> bool
    requires inside { i < length ring.old.items }
    requires small { i < 4096 }
    requires requests { AreRequests requests.old ring.old.items }
    ensures cleared { result ≡ ((at ring.old.items i).requested && not (acknowledged (at ring.old.items i)).requested) }
    ensures after { ring.new ≡ buffer (slice_set ring.old.items i (acknowledged (at ring.old.items i)))
        ring.old.capacity }
    ensures requests { AreRequests requests.new ring.new.items }
{
    if !acknowledge_at(ring, i) {
        return false;
    }
    requests.remove(i);
    true
}

/// The open PDU before the next one, where the one at a place was acknowledged or left open.
fn join(
    ring: &HeapCircularBuffer<SentPdu>,
    skips: &mut HeapCircularBuffer<u16>,
    before: Option<usize>,
    i: usize,
    next: usize,
) -> Option<usize>
    requires inside { i < length ring.now.items }
    requires before { IfSome before (λ o. (o < next) × (o < length skips.old.items)) }
    requires small { next ≤ 65536 }
    ensures before { result ≡ before_next (at ring.now.items i).acked before i }
    ensures after { skips.new ≡ buffer (joined (at ring.now.items i).acked before next skips.old.items)
        skips.old.capacity }
{
    if !is_acked(ring, i) {
        return Some(i);
    }
    if let Some(open) = before {
        set_skip(skips, open, (next - open - 1) as u16);
    }
    before
}
