ghost use Rattle.std.specs.Prelude.{◌≡◌, ◌<◌, ◌≤◌, ◌^◌, length, IfOk};
ghost use Rattle.dch_collision.specs.Shapes.{block_of};

use crate::shape::Shape;
use dch_bits::{Bit, NoMemory};
use dch_types::Sequence;
use std::alloc::Global;

/// A collision of code blocks: that of the block of zeros and `second`, in a format of a channel, under a legal
/// sequence of combinations, in the place of a code block of the TTI.
#[derive(Drop)]
pub struct Found {
    pub channel: u8,
    pub format: u8,
    pub sequence: Sequence<u16>,
    pub block: u16,
    pub second: Sequence<Bit>,
}

/// A format, the number of a code block, and the bits of a block.
#[derive(Clone, Copy)]
pub(crate) struct FormatCollision {
    pub format: u8,
    pub block: u16,
    pub size: usize,
}

/// Code block `r` of a format.
pub(crate) fn format_collision(f: u8, r: usize, shape: &Shape) -> FormatCollision
    requires { r < 65536 }
    ensures { result ≡ record { format = f; block = r; size = shape.now.plan.size } }
{
    FormatCollision {
        format: f,
        block: r as u16,
        size: shape.plan.size,
    }
}

/// A collision with lists of its own.
pub(crate) fn found_collision(
    alloc: Global,
    channel: u8,
    hit: &FormatCollision,
    sequence: &[u16],
    block: &[Bit],
) -> Result<Found, NoMemory>
    requires { hit.now.size ≤ length block.now }
    ensures { IfOk result (λ found. found ≡ record {
      channel = channel;
      format = hit.now.format;
      sequence = sequence.now;
      block = hit.now.block;
      second = block_of hit.now block.now;
    }) }
{
    Ok(Found {
        channel,
        format: hit.format,
        sequence: Sequence::from(Vec::from_slice(alloc, sequence)?),
        block: hit.block,
        second: Sequence::from(Vec::from_slice(alloc, &block[..hit.size])?),
    })
}
