ghost use Rattle.std.specs.Prelude.{◌≡◌, ◌+◌, ◌*◌, ◌<◌, ◌≤◌, ◌++◌, [], drop, length, slice_index_or, take};
ghost use Rattle.circular_buffer.specs.Buffer.{buffer};
ghost use Rattle.dch_txbuf.specs.Chunks.{AreWhole, blocks_for, chunked, joined};

use crate::row::{BLOCK, BlockRow};

/// The blocks of 64 octets that so many octets take.
pub fn blocks_for(octets: usize) -> usize
    requires { octets ≤ 1500 }
    ensures { result ≡ blocks_for octets }
{
    (octets + BLOCK - 1) / BLOCK
}

/// The octets come behind the others, in blocks of their own.
pub fn push_octets(row: &mut BlockRow, octets: &[u8])
    requires most { length octets.now ≤ 1500 }
    requires room { length row.old.items + blocks_for (length octets.now) ≤ row.old.capacity }
    ensures { row.new ≡ buffer (row.old.items ++ chunked (blocks_for (length octets.now)) octets.now) row.old.capacity }
{
    for i in 0..blocks_for(octets.len()) {
        let from = BLOCK * i;
        let to = octets.len().min(from + BLOCK);
        row.push(&octets[from..to]);
    }
}

/// Copies the octets of the row from a place on, counted from the front of a block. At most 65,535 blocks are in the
/// row.
pub fn copy_octets(row: &BlockRow, block: usize, from: usize, out: &mut [u8])
    requires whole { AreWhole row.now.items }
    requires few { length row.now.items ≤ 65535 }
    requires small { from + length out.old ≤ 1500 }
    requires inside { 64 * block + from + length out.old ≤ 64 * length row.now.items }
    ensures { out.new ≡ take (length out.old) (drop from (joined (drop block row.now.items))) }
{
    let mut done = 0;
    for i in from / BLOCK..(from + out.len() + BLOCK - 1) / BLOCK {
        let at = from + done - BLOCK * i;
        let count = (BLOCK - at).min(out.len() - done);
        copy_piece(row, block + i, at, count, done, out);
        done += count;
    }
}

/// Copies so many octets of one block, from a place of it on, to a place of `out`.
fn copy_piece(row: &BlockRow, block: usize, at: usize, count: usize, done: usize, out: &mut [u8])
    requires block { block < length row.now.items }
    requires piece { at + count ≤ length (slice_index_or row.now.items block []) }
    requires small { at + count ≤ 64 }
    requires room { done + count ≤ length out.old }
    ensures { out.new ≡ take done out.old ++ (take count (drop at (slice_index_or row.now.items block [])) ++
        drop (done + count) out.old) }
{
    out[done..done + count].copy_from_slice(&row.at(block)[at..at + count]);
}

/// The first blocks are spare again, so many.
pub fn pop_blocks(row: &mut BlockRow, count: usize)
    requires { count ≤ length row.old.items }
    ensures { row.new ≡ buffer (drop count row.old.items) row.old.capacity }
{
    for _ in 0..count {
        row.pop();
    }
}
