ghost use Rattle.std.specs.Prelude.{◌≡◌, ◌<◌, ◌≤◌, None, length, IfOk, IfSome};
ghost use Rattle.dch_coding.specs.Rooms.{HoldsSide};
ghost use Rattle.dch_collision.specs.Sequences.{frames_of};
ghost use Rattle.dch_collision.specs.Clear.{IsClearChannel};
ghost use Rattle.dch_collision.specs.Directions.{IsPlanned, copies_in, side_in};
ghost use Rattle.dch_collision.specs.Found.{Finds};
ghost use Rattle.dch_collision.specs.Shapes.{IsCollisionInChannel};

use crate::collider::Collider;
use crate::direction::Direction;
use crate::found::{FormatCollision, Found, found_collision};
use dch_bits::{Bit, NoMemory};
use dch_coding::CodingRoom;
use std::alloc::Global;
use std::marker::Model;

/// The memory of a search for collisions of code blocks. Contracts see for how large TTIs there is room.
#[derive(Drop)]
pub struct Search {
    room: Room,
    block: Vec<Bit>,
}

impl Model for Search {
    ghost use Rattle.std.specs.Prelude.{◌≡◌, length};
    ghost use Rattle.dch_coding.specs.declared.room.CodingRoom.{CodingRoom};

    ghost Value = { CodingRoom };

    ghost view = { λ s. s.room };

    ghost invariant = { λ s. length s.block.items ≡ s.room.bits };
}

/// Room for the flags of the coded bits that are sent, in a radio frame and in a TTI.
#[derive(Drop)]
pub(crate) struct Room {
    pub collider: Collider,
    pub segment: Vec<bool>,
    pub sent_flags: Vec<bool>,
}

impl Model for Room {
    ghost use Rattle.std.specs.Prelude.{◌≡◌, length};
    ghost use Rattle.dch_coding.specs.declared.room.CodingRoom.{CodingRoom};

    ghost Value = { CodingRoom };

    ghost view = { λ r. record { bits = length r.sent_flags.items; code_block = r.collider } };

    ghost invariant = { λ r. length r.segment.items ≡ length r.sent_flags.items };
}

impl Search {
    /// Takes the memory to search in TTIs of that size. Nothing more is taken later, but for an answer.
    pub fn open(alloc: Global, room: CodingRoom) -> Result<Search, NoMemory>
        requires { room.code_block ≤ 504 }
        ensures { IfOk result (λ search. search ≡ room) }
    {
        let block = bits(alloc, room.bits)?;
        let room = Room {
            collider: Collider::open(alloc, room.code_block)?,
            segment: flags(alloc, room.bits)?,
            sent_flags: flags(alloc, room.bits)?,
        };
        Ok(Search { room, block })
    }

    /// The first collision in a direction: by channel, format, legal sequence of combinations, and code block. `None`
    /// where no two code blocks collide under any legal sequence. In the downlink all legal sequences of a format
    /// remove the same bits.
    pub fn find(
        &mut self,
        alloc: Global,
        direction: Direction<'_>,
    ) -> Result<Option<Found>, NoMemory>
        requires planned { IsPlanned direction }
        requires fits { HoldsSide self.old (side_in direction) }
        ensures found { IfOk result (Finds (side_in direction.entry) (copies_in direction.entry)) }
        ensures kept { self.new ≡ self.old }
    {
        find(alloc, &mut self.room, direction, &mut self.block)
    }
}

fn find(
    alloc: Global,
    room: &mut Room,
    direction: Direction<'_>,
    block: &mut [Bit],
) -> Result<Option<Found>, NoMemory>
    requires planned { IsPlanned direction }
    requires fits { HoldsSide room.old (side_in direction) }
    requires block { length block.old ≡ room.old.bits }
    ensures found { IfOk result (Finds (side_in direction.entry) (copies_in direction.entry)) }
    ensures kept { room.new ≡ room.old }
{
    let side = direction.side();
    let mut places = [0; 8];
    for i in 0..side.channels.len() {
        let sequence = &mut places[..usize::from(side.frames_of(i))];
        let i = i as u8;
        if let Some(hit) = first_in_channel(room, direction, i, sequence, block) {
            return Ok(Some(found_collision(alloc, i, &hit, sequence, block)?));
        }
    }
    Ok(None)
}

/// The first collision in a channel. Its sequence is left in `sequence`.
fn first_in_channel(
    room: &mut Room,
    direction: Direction<'_>,
    i: u8,
    sequence: &mut [u16],
    block: &mut [Bit],
) -> Option<FormatCollision>
    requires planned { IsPlanned direction }
    requires fits { HoldsSide room.old (side_in direction) }
    requires channel { i < length (side_in direction).channels }
    requires room { length sequence.old ≡ frames_of (side_in direction) i }
    requires block { length block.old ≡ room.old.bits }
    ensures some { IfSome result (λ hit. IsCollisionInChannel (side_in direction.entry)
        (copies_in direction.entry) i sequence.new block.new hit) }
    ensures none { result ≡ None → IsClearChannel (side_in direction.entry) (copies_in direction.entry) i }
    ensures kept { room.new ≡ room.old }
{
    let side = direction.side();
    for f in 0..side.channel(usize::from(i)).formats.len() {
        let f = f as u8;
        if let Some(hit) = direction.first_in_format(room, i, f, sequence, block) {
            return Some(hit);
        }
    }
    None
}

fn flags(alloc: Global, count: usize) -> Result<Vec<bool>, NoMemory>
    ensures { IfOk result (λ flags. length flags.items ≡ count) }
{
    match vec![in alloc; false; count] {
        Ok(flags) => Ok(flags),
        Err(_) => Err(NoMemory),
    }
}

fn bits(alloc: Global, count: usize) -> Result<Vec<Bit>, NoMemory>
    ensures { IfOk result (λ bits. length bits.items ≡ count) }
{
    match vec![in alloc; Bit::Zero; count] {
        Ok(bits) => Ok(bits),
        Err(_) => Err(NoMemory),
    }
}
