ghost use Rattle.std.specs.Prelude.{◌≡◌, ◌<◌, ◌≤◌, None, length, take, IfSome};
ghost use Rattle.dch_types.specs.Limits.{IsUplink};
ghost use Rattle.dch_types.specs.Parts.{channel_at, format_at};
ghost use Rattle.dch_coding.specs.Rooms.{Holds, format_room};
ghost use Rattle.dch_collision.specs.Sequences.{frames_of, IsLegal};
ghost use Rattle.dch_collision.specs.Plans.{AreAllPlans};
ghost use Rattle.dch_collision.specs.Copies.{uplink_copies, AreSentFlags};
ghost use Rattle.dch_collision.specs.Clear.{IsClearUnder, IsClearFormat};
ghost use Rattle.dch_collision.specs.Shapes.{Fits, IsFirstUnder, IsCollisionInFormat, IsShape};

use crate::blocks::first_collision;
use crate::flagging::uplink_sent_flags;
use crate::found::{FormatCollision, format_collision};
use crate::legal_sequences::{first, next};
use crate::puncturing::uplink_punctures;
use crate::search::Room;
use crate::shape::{Shape, shape_of};
use dch_bits::Bit;
use dch_frame::UplinkPlan;
use dch_types::Uplink;

/// The first collision in a format: under each legal sequence, if some of them removes bits.
pub(crate) fn first_in_format(
    room: &mut Room,
    config: &Uplink,
    plans: &[UplinkPlan],
    i: u8,
    f: u8,
    sequence: &mut [u16],
    block: &mut [Bit],
) -> Option<FormatCollision>
    requires good { IsUplink config.now }
    requires plans { AreAllPlans config.now plans.now }
    requires channel { i < length config.now.side.channels }
    requires format { f < length (channel_at config.now.side i).formats }
    requires room { length sequence.old ≡ frames_of config.now.side i }
    requires fits { Holds room.old (format_room (channel_at config.now.side i)
        (format_at (channel_at config.now.side i) f)) }
    requires block { length block.old ≡ room.old.bits }
    ensures some { IfSome result (λ hit. IsCollisionInFormat config.now.side (uplink_copies config.now)
        i f sequence.new block.new hit) }
    ensures none { result ≡ None → IsClearFormat config.now.side (uplink_copies config.now) i f }
    ensures kept { room.new ≡ room.old }
{
    if !uplink_punctures(config, plans, i, f) {
        return None;
    }
    if !first(&config.side, i, f, sequence) {
        return None;
    }
    let shape = shape_of(&config.side, i, f);
    'sequences: loop {
        if let Some(r) = first_under_sequence(room, config, plans, i, f, &shape, sequence, block) {
            return Some(format_collision(f, r, &shape));
        }
        if !next(&config.side, i, f, sequence) {
            return None;
        }
    }
}

/// The first code block with a collision under a legal sequence.
fn first_under_sequence(
    room: &mut Room,
    config: &Uplink,
    plans: &[UplinkPlan],
    i: u8,
    f: u8,
    shape: &Shape,
    sequence: &[u16],
    block: &mut [Bit],
) -> Option<usize>
    requires good { IsUplink config.now }
    requires plans { AreAllPlans config.now plans.now }
    requires channel { i < length config.now.side.channels }
    requires format { f < length (channel_at config.now.side i).formats }
    requires shape { IsShape config.now.side i f shape.now }
    requires legal { IsLegal config.now.side i f sequence.now }
    requires fits { Fits room.old shape.now }
    requires block { shape.now.padded ≤ length block.old }
    ensures some { IfSome result (λ r. IsFirstUnder config.now.side (uplink_copies config.now) i f sequence.now r
        (take shape.now.plan.size block.new)) }
    ensures none { result ≡ None → IsClearUnder config.now.side (uplink_copies config.now) i f sequence.now }
    ensures kept { room.new ≡ room.old }
{
    flag(
        config,
        plans,
        i,
        f,
        shape,
        sequence,
        &mut room.segment,
        &mut room.sent_flags,
    );
    first_collision(&mut room.collider, shape, &room.sent_flags, block)
}

/// Flags the coded bits that are sent under a legal sequence, at the front of `sent_flags`.
fn flag(
    config: &Uplink,
    plans: &[UplinkPlan],
    i: u8,
    f: u8,
    shape: &Shape,
    sequence: &[u16],
    segment: &mut [bool],
    sent_flags: &mut [bool],
)
    requires good { IsUplink config.now }
    requires plans { AreAllPlans config.now plans.now }
    requires channel { i < length config.now.side.channels }
    requires shape { IsShape config.now.side i f shape.now }
    requires legal { IsLegal config.now.side i f sequence.now }
    requires segment { shape.now.padded ≤ length segment.old }
    requires room { shape.now.padded ≤ length sent_flags.old }
    ensures { AreSentFlags (uplink_copies config.now i f sequence.now) (take shape.now.padded sent_flags.new) }
{
    let sent_flags = &mut sent_flags[..shape.padded];
    uplink_sent_flags(config, plans, i, f, sequence, segment, sent_flags);
}
