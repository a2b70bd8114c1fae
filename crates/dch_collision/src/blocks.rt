ghost use Rattle.std.specs.Prelude.{◌≡◌, ◌≢◌, ◌<◌, ◌≤◌, ◌*◌, ◌^◌, None, true, false, length, take, IfSome};
ghost use Rattle.dch_types.specs.declared.channel.Coding.TheVariants.{Uncoded};
ghost use Rattle.dch_types.specs.Lengths.{coded_block};
ghost use Rattle.dch_collision.specs.Collisions.{copies_kept};
ghost use Rattle.dch_collision.specs.Clear.{IsClearBlock, AreClearBlocks};
ghost use Rattle.dch_collision.specs.Found.{IsFirstInBlock, IsFirstBlock};

use crate::collider::Collider;
use crate::shape::Shape;
use dch_bits::Bit;
use dch_coding::Plan;
use dch_types::Coding;

/// The first code block of a format in whose place two blocks collide, where the flags tell which coded bits are sent.
/// The first block in text order that collides with zeros is left at the front of `block`.
pub(crate) fn first_collision(
    collider: &mut Collider,
    shape: &Shape,
    sent_flags: &[bool],
    block: &mut [Bit],
) -> Option<usize>
    requires filler { shape.now.plan.filler ≤ shape.now.plan.size }
    requires short { shape.now.coding ≢ Uncoded → shape.now.plan.size ≤ 504 }
    requires fits { shape.now.coding ≢ Uncoded → shape.now.plan.size ≤ collider.old }
    requires size { shape.now.plan.size ≤ 131072 }
    requires sent_flags { shape.now.plan.blocks * coded_block shape.now.coding shape.now.plan.size ≤
        length sent_flags.now }
    requires room { shape.now.plan.size ≤ length block.old }
    ensures some { IfSome result (λ r. IsFirstBlock shape.now.coding shape.now.plan (copies_kept sent_flags.now) r
        (take shape.now.plan.size block.new)) }
    ensures none { result ≡ None → AreClearBlocks shape.now.coding shape.now.plan (copies_kept sent_flags.now) }
    ensures kept { collider.new ≡ collider.old }
{
    let block = &mut block[..shape.plan.size];
    first_block(collider, shape.coding, &shape.plan, sent_flags, block)
}

/// The first code block of a TTI in whose place two blocks collide, where the flags tell which coded bits are sent. The
/// first block in text order that collides with zeros is left at the front of `block`.
fn first_block(
    collider: &mut Collider,
    coding: Coding,
    plan: &Plan,
    sent_flags: &[bool],
    block: &mut [Bit],
) -> Option<usize>
    requires plan { plan.now.filler ≤ plan.now.size }
    requires short { coding ≢ Uncoded → plan.now.size ≤ 504 }
    requires fits { coding ≢ Uncoded → plan.now.size ≤ collider.old }
    requires size { plan.now.size ≤ 131072 }
    requires sent_flags { plan.now.blocks * coded_block coding plan.now.size ≤ length sent_flags.now }
    requires room { length block.old ≡ plan.now.size }
    ensures some { IfSome result (λ r. IsFirstBlock coding plan.now (copies_kept sent_flags.now) r block.new) }
    ensures none { result ≡ None → AreClearBlocks coding plan.now (copies_kept sent_flags.now) }
    ensures kept { collider.new ≡ collider.old }
{
    for r in 0..plan.blocks {
        if collides(collider, coding, plan, r, sent_flags, block) {
            return Some(r);
        }
    }
    None
}

/// Whether two blocks in the place of code block `r` collide.
fn collides(
    collider: &mut Collider,
    coding: Coding,
    plan: &Plan,
    r: usize,
    sent_flags: &[bool],
    block: &mut [Bit],
) -> bool
    requires plan { plan.now.filler ≤ plan.now.size }
    requires short { coding ≢ Uncoded → plan.now.size ≤ 504 }
    requires fits { coding ≢ Uncoded → plan.now.size ≤ collider.old }
    requires size { plan.now.size ≤ 131072 }
    requires sent_flags { plan.now.blocks * coded_block coding plan.now.size ≤ length sent_flags.now }
    requires room { length block.old ≡ plan.now.size }
    requires there { r < plan.now.blocks }
    ensures found { result ≡ true → IsFirstInBlock coding plan.now (copies_kept sent_flags.now) r block.new }
    ensures none { result ≡ false → IsClearBlock coding plan.now (copies_kept sent_flags.now) r }
    ensures kept { collider.new ≡ collider.old }
{
    let coded = coding.coded_block(plan.size as u64) as usize;
    let from = r * coded;
    collider.find(
        coding,
        plan.filler_of(r),
        &sent_flags[from..from + coded],
        block,
    )
}
