ghost use Rattle.std.specs.Prelude.{◌≤◌, ◌≡◌, ◌↔◌, IsTrue, length};
ghost use Rattle.dch_node.specs.Standing.{Tells};
ghost use Rattle.dch_layer2.specs.Opening.{blocks_in};
ghost use Rattle.dch_steptext.specs.Reports.{TellsFew};
ghost use Rattle.dch_link.specs.Checks.{IsSublist, good_blocks, good_from};
ghost use Rattle.dch_link.specs.Comparing.{Compares, FindsNext, IsNextGood, blocks_from, good_of};
ghost use Rattle.dch_ue.specs.Lending.{held_of};

use dch_accept::TtiBlocks;
use dch_bits::Bit;
use dch_indication::{Indication, Indications};
use dch_types::Dir;

/// Tells a channel of a direction whose good blocks, as they were taken in a TTI, are not some of those that it was
/// given, in order. Blocks without bits don't count.
pub fn compare<U: Indications>(
    user: &mut U,
    dir: Dir,
    channel: u8,
    taken: Option<&TtiBlocks>,
    given: &TtiBlocks,
)
    ensures compared { Compares dir channel (good_of (held_of taken.entry)) (blocks_in given.now)
        (Tells U.shows user.old user.new) }
    ensures few { TellsFew U.shows 301 user.old user.new }
{
    let Some(taken) = taken else {
        return;
    };
    if !is_sublist(taken, given) {
        user.indicate(Indication::Differs { dir, channel });
    }
}

/// Whether the good blocks of a TTI are some of those that were given, in order.
fn is_sublist(taken: &TtiBlocks, given: &TtiBlocks) -> bool
    ensures { IsTrue result ↔ IsSublist (good_blocks taken.now) (blocks_in given.now) }
{
    taken.bits().is_empty() || are_some(taken, given, count_with_bits(given))
}

/// How many blocks have bits.
fn count_with_bits(blocks: &TtiBlocks) -> usize
    ensures value { blocks_in blocks.now ≡ blocks_from blocks.now 0 result }
    ensures within { result ≤ length blocks.now.good }
{
    if blocks.bits().is_empty() {
        0
    } else {
        blocks.count()
    }
}

/// Whether the good blocks of a TTI are some of the first ones that were given, in order.
fn are_some(taken: &TtiBlocks, given: &TtiBlocks, count: usize) -> bool
    requires { count ≤ length given.now.good }
    ensures { IsTrue result ↔ IsSublist (good_from taken.now 0 (length taken.now.good))
        (blocks_from given.now 0 count) }
{
    let mut i = next_good(taken, 0);
    'given: for k in 0..count {
        i = find_next(taken, i, given.block(k));
    }
    i == taken.count()
}

/// The good block after block `i` where this is the same as another block, and else block `i` again.
fn find_next(taken: &TtiBlocks, i: usize, block: &[Bit]) -> usize
    requires { i ≤ length taken.now.good }
    ensures next { FindsNext taken.now i block.now result }
    ensures within { result ≤ length taken.now.good }
{
    if i < taken.count() && taken.block(i) == block {
        next_good(taken, i + 1)
    } else {
        i
    }
}

/// The first good block from block `i` on, or the number of blocks where there is none.
fn next_good(taken: &TtiBlocks, i: usize) -> usize
    requires { i ≤ length taken.now.good }
    ensures { IsNextGood taken.now i result }
{
    let mut at = i;
    'bad: while at < taken.count() && !taken.good(at) {
        at += 1;
    }
    at
}
