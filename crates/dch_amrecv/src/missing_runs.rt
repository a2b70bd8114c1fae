ghost use Rattle.std.specs.Prelude.{◌≡◌, ◌<◌, ◌+◌, ◌≤◌, ◌&&◌, ◌==◌, drop, length, nat_lt, slice_set};
ghost use Rattle.dch_am.specs.Status.{runs};
ghost use Rattle.dch_amrecv.specs.Places.{front, laid, vacant};

use crate::places::is_taken;
use circular_buffer::HeapCircularBuffer;
use dch_pool::Block;

/// The vacant places as runs of at most 16, of which as many are written as find room: the first place, and how many
/// follow it. Answers how many runs there are. Places are counted from one on, which is vacant.
pub fn write_missing_runs(
    ring: &HeapCircularBuffer<Option<Block>>,
    from: usize,
    out: &mut [(u16, u8)],
) -> usize
    requires from { from ≤ length ring.now.items }
    requires first { front (drop from ring.now.items) ≡ 0 }
    requires few { length ring.now.items ≤ 2048 }
    ensures count { result ≡ length (runs (vacant 0 (drop from ring.now.items))) }
    ensures runs { out.new ≡ laid (runs (vacant 0 (drop from ring.now.items))) out.old }
{
    let places = ring.len() - from;
    if places == 0 {
        return 0;
    }
    let mut count = 0;
    let mut first = 0;
    let mut more = 0;
    for i in 1..places {
        if !is_taken(ring, from + i) {
            if continues(first, more, i) {
                more += 1;
            } else {
                write_missing_run(out, count, first, more);
                count += 1;
                first = i;
                more = 0;
            }
        }
    }
    write_missing_run(out, count, first, more);
    count + 1
}

/// A run of a place and some that follow it goes on with another.
fn continues(first: usize, more: usize, i: usize) -> bool
    requires { first + more < 2048 }
    ensures { result ≡ ((i == first + more + 1) && nat_lt more 15) }
{
    i == first + more + 1 && more < 15
}

fn write_missing_run(out: &mut [(u16, u8)], i: usize, first: usize, more: usize)
    requires first { first < 2048 }
    requires more { more < 16 }
    ensures { out.new ≡ slice_set out.old i (first, more) }
{
    if i < out.len() {
        out[i] = (first as u16, more as u8);
    }
}
