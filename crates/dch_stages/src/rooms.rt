ghost use Rattle.std.specs.Prelude.{◌≡◌, IfOk, length};
ghost use Rattle.dch_stages.specs.Handlers.{HaveRooms};

use crate::frame_room::FrameRoom;
use dch_accept::Accepted;
use dch_bits::{Bit, NoMemory, Trit};
use dch_types::Dir;
use std::alloc::Global;

/// The most bits of a TTI, also after coding.
pub const MOST_BITS: usize = 131_072;

/// The most cells of a TTI.
pub const MOST_CELLS: usize = 460_800;

/// Room for what is shown on its way, which is taken once.
#[derive(Drop)]
pub struct Rooms {
    /// The bits of the transport blocks of a line.
    pub bits: Vec<Bit>,
    /// The coded bits of a TTI as cells.
    pub space: Vec<Trit>,
    /// The cells of a TTI.
    pub cells: Vec<Trit>,
    pub up: FrameRoom,
    pub down: FrameRoom,
}

impl Rooms {
    /// Takes the memory.
    pub fn open(alloc: Global, accepted: &Accepted) -> Result<Rooms, NoMemory>
        ensures { IfOk result (HaveRooms accepted.now.config) }
    {
        Ok(Rooms {
            bits: room_for_bits(alloc, MOST_BITS)?,
            space: room_for_cells(alloc, MOST_BITS)?,
            cells: room_for_cells(alloc, MOST_CELLS)?,
            up: FrameRoom::open(alloc, accepted, Dir::Up)?,
            down: FrameRoom::open(alloc, accepted, Dir::Down)?,
        })
    }
}

fn room_for_bits(alloc: Global, len: usize) -> Result<Vec<Bit>, NoMemory>
    ensures { IfOk result (λ room. length room.items ≡ len) }
{
    Ok(vec![in alloc; Bit::Zero; len]?)
}

fn room_for_cells(alloc: Global, len: usize) -> Result<Vec<Trit>, NoMemory>
    ensures { IfOk result (λ room. length room.items ≡ len) }
{
    Ok(vec![in alloc; Trit::Off; len]?)
}
