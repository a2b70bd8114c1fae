ghost use Rattle.std.specs.Prelude.{◌≡◌, ◌+◌, ◌<◌, ◌≤◌, ◌++◌, ◌∷◌, [], drop, length, slice_get, slice_set, true, false, IfSome, Some, None};
ghost use Rattle.circular_buffer.specs.Buffer.{buffer};
ghost use Rattle.dch_pool.specs.Blocks.{IsLent};
ghost use Rattle.dch_amrecv.specs.Kept.{Left, Lends, blocks_in, given};
ghost use Rattle.dch_amrecv.specs.Places.{front, is_kept, pad, put};

use circular_buffer::HeapCircularBuffer;
use dch_pool::{Block, Pool};

/// A place is there, and taken.
pub fn is_taken(ring: &HeapCircularBuffer<Option<Block>>, i: usize) -> bool
    ensures { result ≡ is_kept ring.now.items i }
{
    match ring.get(i) {
        Some(place) => place.is_some(),
        None => false,
    }
}

/// How many places in front are taken.
pub fn count_front(ring: &HeapCircularBuffer<Option<Block>>) -> usize
    ensures value { result ≡ front ring.now.items }
    ensures within { result ≤ length ring.now.items }
{
    for i in 0..ring.len() {
        if !is_taken(ring, i) {
            return i;
        }
    }
    ring.len()
}

/// The block of the first place.
pub fn first_of(ring: &HeapCircularBuffer<Option<Block>>) -> &Block
    requires { is_kept ring.now.items 0 ≡ true }
    ensures { slice_get ring.now.items 0 ≡ Some (Some result.now) }
{
    ring.get(0).unwrap().as_ref().unwrap()
}

/// Gives a block back, if there is one.
pub fn give_back(pool: &mut Pool, block: Option<Block>)
    requires { IfSome block (λ b. IsLent pool.old b) }
    ensures { pool.new ≡ given block pool.old }
{
    if let Some(block) = block {
        pool.give(block);
    }
}

/// A block comes to a place that is vacant.
pub fn put_at(pool: &mut Pool, ring: &mut HeapCircularBuffer<Option<Block>>, i: usize, block: Block)
    requires place { i < ring.old.capacity }
    requires vacant { is_kept ring.old.items i ≡ false }
    ensures ring { ring.new ≡ buffer (put i block ring.old.items) ring.old.capacity }
    ensures pool { pool.new ≡ pool.old }
{
    let _ = ring.capacity();
    pad_to(pool, ring, i + 1);
    give_back(pool, set_at(ring, i, block));
}

/// So many places in front leave, and their blocks are given back.
pub fn give_front(pool: &mut Pool, ring: &mut HeapCircularBuffer<Option<Block>>, count: usize)
    requires within { count ≤ length ring.old.items }
    requires blocks { Lends pool.old (blocks_in ring.old.items) }
    ensures ring { ring.new ≡ buffer (drop count ring.old.items) ring.old.capacity }
    ensures left { Left pool.old pool.new (drop count ring.old.items) }
{
    for done in 0..count {
        give_back(pool, ring.pop_front().flatten());
    }
}

fn pad_to(pool: &mut Pool, ring: &mut HeapCircularBuffer<Option<Block>>, to: usize)
    requires room { to ≤ ring.old.capacity }
    requires few { length ring.old.items ≤ ring.old.capacity }
    ensures ring { ring.new ≡ buffer (pad to ring.old.items) ring.old.capacity }
    ensures pool { pool.new ≡ pool.old }
{
    let len = ring.len();
    for i in len..to.max(len) {
        give_back(pool, push(ring));
    }
}

/// One vacant place more, for which there is room. No block has to give way.
fn push(ring: &mut HeapCircularBuffer<Option<Block>>) -> Option<Block>
    requires { length ring.old.items < ring.old.capacity }
    ensures ring { ring.new ≡ buffer (ring.old.items ++ None ∷ []) ring.old.capacity }
    ensures none { result ≡ None }
{
    ring.push_back(None).flatten()
}

/// Puts a block to a vacant place. No other block has to give way.
fn set_at(ring: &mut HeapCircularBuffer<Option<Block>>, i: usize, block: Block) -> Option<Block>
    requires place { i < length ring.old.items }
    requires vacant { is_kept ring.old.items i ≡ false }
    ensures ring { ring.new ≡ buffer (slice_set ring.old.items i (Some block)) ring.old.capacity }
    ensures none { result ≡ None }
{
    match ring.get_mut(i) {
        Some(place) => place.replace(block),
        None => Some(block),
    }
}
