ghost use Rattle.std.specs.Prelude.{◌≡◌, ◌≢◌, ◌<◌, ◌≤◌, ℕ, List, None, length, take, IfSome};
ghost use Rattle.dch_types.specs.declared.channel.Coding.TheVariants.{Uncoded};
ghost use Rattle.dch_types.specs.Limits.{IsDownlink};
ghost use Rattle.dch_types.specs.Parts.{channel_at, format_at};
ghost use Rattle.dch_coding.specs.Rooms.{Holds, format_room};
ghost use Rattle.dch_frame.specs.Downlinks.{IsDownlinkPlan};
ghost use Rattle.dch_collision.specs.Sequences.{frames_of};
ghost use Rattle.dch_collision.specs.Copies.{downlink_copies, AreSentFlags};
ghost use Rattle.dch_collision.specs.Clear.{IsClearUnder, IsClearFormat};
ghost use Rattle.dch_collision.specs.Shapes.{IsFirstUnder, IsCollisionInFormat, IsShape};

use crate::blocks::first_collision;
use crate::collider::Collider;
use crate::flagging::downlink_sent_flags;
use crate::found::{FormatCollision, format_collision};
use crate::legal_sequences::first;
use crate::puncturing::downlink_punctures;
use crate::search::Room;
use crate::shape::{Shape, shape_of};
use dch_bits::Bit;
use dch_frame::DownlinkPlan;
use dch_types::Downlink;

/// The first collision in a format: under its first legal sequence, since the others remove the same bits.
pub(crate) fn first_in_format(
    room: &mut Room,
    config: &Downlink,
    plan: &DownlinkPlan,
    i: u8,
    f: u8,
    sequence: &mut [u16],
    block: &mut [Bit],
) -> Option<FormatCollision>
    requires good { IsDownlink config.now }
    requires plan { IsDownlinkPlan config.now plan.now }
    requires channel { i < length config.now.side.channels }
    requires format { f < length (channel_at config.now.side i).formats }
    requires room { length sequence.old ≡ frames_of config.now.side i }
    requires fits { Holds room.old (format_room (channel_at config.now.side i)
        (format_at (channel_at config.now.side i) f)) }
    requires block { length block.old ≡ room.old.bits }
    ensures some { IfSome result (λ hit. IsCollisionInFormat config.now.side (downlink_copies config.now)
        i f sequence.new block.new hit) }
    ensures none { result ≡ None → IsClearFormat config.now.side (downlink_copies config.now) i f }
    ensures kept { room.new ≡ room.old }
{
    if !downlink_punctures(config, plan, i, f) {
        return None;
    }
    if !first(&config.side, i, f, sequence) {
        return None;
    }
    let shape = shape_of(&config.side, i, f);
    if let Some(r) = removed(
        &mut room.collider,
        &mut room.sent_flags,
        config,
        plan,
        i,
        f,
        &shape,
        block,
    ) {
        return Some(format_collision(f, r, &shape));
    }
    None
}

/// The first code block with a collision, whatever the sequence.
fn removed(
    collider: &mut Collider,
    sent_flags: &mut [bool],
    config: &Downlink,
    plan: &DownlinkPlan,
    i: u8,
    f: u8,
    shape: &Shape,
    block: &mut [Bit],
) -> Option<usize>
    requires good { IsDownlink config.now }
    requires plan { IsDownlinkPlan config.now plan.now }
    requires channel { i < length config.now.side.channels }
    requires format { f < length (channel_at config.now.side i).formats }
    requires shape { IsShape config.now.side i f shape.now }
    requires fits { shape.now.coding ≢ Uncoded → shape.now.plan.size ≤ collider.old }
    requires sent_flags { shape.now.padded ≤ length sent_flags.old }
    requires block { shape.now.padded ≤ length block.old }
    ensures some { IfSome result (λ r. (sequence : List ℕ) →
        IsFirstUnder config.now.side (downlink_copies config.now) i f sequence r (take shape.now.plan.size block.new)) }
    ensures none { result ≡ None → (sequence : List ℕ) →
        IsClearUnder config.now.side (downlink_copies config.now) i f sequence }
    ensures kept { collider.new ≡ collider.old }
{
    flag(config, plan, i, f, shape, sent_flags);
    first_collision(collider, shape, sent_flags, block)
}

/// Flags the coded bits that are sent, at the front of `sent_flags`.
fn flag(
    config: &Downlink,
    plan: &DownlinkPlan,
    i: u8,
    f: u8,
    shape: &Shape,
    sent_flags: &mut [bool],
)
    requires plan { IsDownlinkPlan config.now plan.now }
    requires channel { i < length config.now.side.channels }
    requires format { f < length (channel_at config.now.side i).formats }
    requires shape { IsShape config.now.side i f shape.now }
    requires room { shape.now.padded ≤ length sent_flags.old }
    ensures { (sequence : List ℕ) → AreSentFlags (downlink_copies config.now i f sequence)
        (take shape.now.bits sent_flags.new) }
{
    let sent_flags = &mut sent_flags[..shape.bits];
    downlink_sent_flags(config, plan, i, f, sent_flags);
}
