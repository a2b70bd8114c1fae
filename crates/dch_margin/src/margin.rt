ghost use Rattle.std.specs.Prelude.{◌≡◌, ◌<◌, ◌≤◌, ◌-◌, ◌/◌, length, IfOk};
ghost use Rattle.dch_types.specs.Parts.{channel_at};
ghost use Rattle.dch_collision.specs.Directions.{IsPlanned, copies_in, side_in};
ghost use Rattle.dch_margin.specs.Margins.{IsMargin};

use crate::format::{Finding, find, side_of};
use dch_bits::NoMemory;
use dch_collision::Direction;
use dch_trellis::Trellis;
use std::alloc::Global;

/// How many cells of a code block may be wrong, of a format of a channel.
#[derive(Clone, Copy)]
pub enum Margin {
    /// So many may be wrong, or missing, under every legal sequence of combinations, and the block is read as it was
    /// sent.
    Cells(u32),
    /// No code block is sent in the format: it has no bits, or it stands in no combination.
    Unsent,
    /// There are so many legal sequences, and more than 2,048 code blocks to look at under them. So many cells may be
    /// wrong or missing under each, and maybe more.
    AtLeast { cells: u32, sequences: u64 },
}

/// How many cells of a code block of format `f` of channel `i` may be wrong.
pub fn margin_of(
    alloc: Global,
    trellis: &mut Trellis,
    direction: Direction<'_>,
    i: u8,
    f: u8,
) -> Result<Margin, NoMemory>
    requires room { 504 ≤ trellis.old }
    requires planned { IsPlanned direction }
    requires channel { i < length (side_in direction).channels }
    requires format { f < length (channel_at (side_in direction) i).formats }
    ensures margin { IfOk result (IsMargin (side_in direction.entry) (copies_in direction.entry) i f) }
    ensures kept { trellis.new ≡ trellis.old }
{
    let mut places = [0; 8];
    let best = &mut places[..usize::from(side_of(direction).frames_of(usize::from(i)))];
    match find(alloc, trellis, direction, i, f, best)? {
        Finding::Found(least) => Ok(Margin::Cells(less_than_half(least.cells))),
        Finding::Unsent => Ok(Margin::Unsent),
        Finding::Many {
            distance,
            sequences,
        } => Ok(Margin::AtLeast {
            cells: less_than_half(distance),
            sequences,
        }),
    }
}

/// So many cells are less than half of a distance, and one more is not; none of the distance 0.
pub fn less_than_half(distance: u32) -> u32
    ensures { result ≡ (distance - 1) / 2 }
{
    distance.saturating_sub(1) / 2
}
