ghost use Rattle.std.specs.Prelude.{◌≡◌, ◌<◌, ◌≤◌, ◌&&◌, not, length, slice_set, if◌then◌else◌};
ghost use Rattle.circular_buffer.specs.Buffer.{buffer};
ghost use Rattle.dch_retx.specs.Flights.{at, named_from, acknowledged, request_cleared, built};

use crate::sent_pdu::SentPdu;
use circular_buffer::HeapCircularBuffer;

/// The PDU at a place.
pub fn at_place(ring: &HeapCircularBuffer<SentPdu>, i: usize) -> SentPdu
    requires { i < length ring.now.items }
    ensures { result ≡ at ring.now.items i }
{
    *ring.get(i).unwrap()
}

/// It is acknowledged.
pub fn is_acked(ring: &HeapCircularBuffer<SentPdu>, i: usize) -> bool
    requires { i < length ring.now.items }
    ensures { result ≡ (at ring.now.items i).acked }
{
    ring.get(i).unwrap().acked
}

/// Unless it is acknowledged, it is requested where it stands at `from` or behind, and marked where it stands before
/// `to`. Answers whether it is requested since.
pub fn name_at(ring: &mut HeapCircularBuffer<SentPdu>, i: usize, from: usize, to: usize) -> bool
    requires { i < length ring.old.items }
    ensures newly { result ≡ (not (at ring.old.items i).requested &&
        (named_from from to i (at ring.old.items i)).requested) }
    ensures after { ring.new ≡ buffer (slice_set ring.old.items i (named_from from to i (at ring.old.items i)))
        ring.old.capacity }
{
    let Some(pdu) = ring.get_mut(i) else {
        return false;
    };
    let was = pdu.requested;
    if !pdu.acked {
        pdu.named = pdu.named || i < to;
        pdu.requested = pdu.requested || from <= i;
    }
    !was && pdu.requested
}

/// It is acknowledged, or unmarked where it is marked. Answers whether it was requested and isn't any more.
pub fn acknowledge_at(ring: &mut HeapCircularBuffer<SentPdu>, i: usize) -> bool
    requires { i < length ring.old.items }
    ensures cleared { result ≡ ((at ring.old.items i).requested && not (acknowledged (at ring.old.items i)).requested) }
    ensures after { ring.new ≡ buffer (slice_set ring.old.items i (acknowledged (at ring.old.items i)))
        ring.old.capacity }
{
    let Some(pdu) = ring.get_mut(i) else {
        return false;
    };
    let was = pdu.requested;
    if pdu.named {
        pdu.named = false;
    } else {
        pdu.acked = true;
        pdu.requested = false;
    }
    was && !pdu.requested
}

/// It isn't requested any more.
pub fn clear_request_at(ring: &mut HeapCircularBuffer<SentPdu>, i: usize)
    requires { i < length ring.old.items }
    ensures { ring.new ≡ buffer (slice_set ring.old.items i (request_cleared (at ring.old.items i))) ring.old.capacity }
{
    if let Some(pdu) = ring.get_mut(i) {
        pdu.requested = false;
    }
}

/// It is built once more. More than 255 times are not counted. Answers whether it was requested.
pub fn build_at(ring: &mut HeapCircularBuffer<SentPdu>, i: usize) -> bool
    requires { i < length ring.old.items }
    ensures cleared { result ≡ (at ring.old.items i).requested }
    ensures after { ring.new ≡ buffer (slice_set ring.old.items i (built (at ring.old.items i))) ring.old.capacity }
{
    let Some(pdu) = ring.get_mut(i) else {
        return false;
    };
    let was = pdu.requested;
    pdu.requested = false;
    pdu.builds = pdu.builds.saturating_add(1);
    was
}

/// One or none.
pub fn one(is: bool) -> usize
    ensures value { result ≡ (if is then 1 else 0) }
    ensures few { result ≤ 1 }
{
    if is { 1 } else { 0 }
}
