ghost use Rattle.std.specs.Prelude.{◌≡◌, ◌<◌, None, length, IfSome};
ghost use Rattle.dch_types.specs.Limits.{IsSide};
ghost use Rattle.dch_types.specs.Parts.{channel_at, format_at};
ghost use Rattle.dch_coding.specs.Rooms.{Holds, format_room};
ghost use Rattle.dch_collision.specs.Sequences.{frames_of};
ghost use Rattle.dch_collision.specs.Clear.{IsClearFormat};
ghost use Rattle.dch_collision.specs.Directions.{IsPlanned, copies_in, side_in};
ghost use Rattle.dch_collision.specs.Shapes.{IsCollisionInFormat};

use crate::found::FormatCollision;
use crate::search::Room;
use crate::{downlink, uplink};
use dch_bits::Bit;
use dch_frame::{DownlinkPlan, UplinkPlan};
use dch_types::{Downlink, Side, Uplink};

/// A direction of a configuration, with the plans of its rate matching.
#[derive(Clone, Copy)]
pub enum Direction<'a> {
    Up {
        config: &'a Uplink,
        plans: &'a [UplinkPlan],
    },
    Down {
        config: &'a Downlink,
        plan: &'a DownlinkPlan,
    },
}

impl<'a> Direction<'a> {
    /// Its channels and combinations.
    pub(crate) fn side(self) -> &'a Side
        requires { IsPlanned self }
        ensures value { result.now ≡ side_in self.entry }
        ensures good { IsSide result.now }
    {
        match self {
            Direction::Up { config, .. } => &config.side,
            Direction::Down { config, .. } => &config.side,
        }
    }

    /// The first collision in a format of a channel. Its sequence is left in `sequence`.
    pub(crate) fn first_in_format(
        self,
        room: &mut Room,
        i: u8,
        f: u8,
        sequence: &mut [u16],
        block: &mut [Bit],
    ) -> Option<FormatCollision>
        requires planned { IsPlanned self }
        requires channel { i < length (side_in self).channels }
        requires format { f < length (channel_at (side_in self) i).formats }
        requires room { length sequence.old ≡ frames_of (side_in self) i }
        requires fits { Holds room.old (format_room (channel_at (side_in self) i)
            (format_at (channel_at (side_in self) i) f)) }
        requires block { length block.old ≡ room.old.bits }
        ensures some { IfSome result (λ hit. IsCollisionInFormat (side_in self.entry)
            (copies_in self.entry) i f sequence.new block.new hit) }
        ensures none { result ≡ None → IsClearFormat (side_in self.entry) (copies_in self.entry) i f }
        ensures kept { room.new ≡ room.old }
    {
        match self {
            Direction::Up { config, plans } => {
                uplink::first_in_format(room, config, plans, i, f, sequence, block)
            }
            Direction::Down { config, plan } => {
                downlink::first_in_format(room, config, plan, i, f, sequence, block)
            }
        }
    }
}
