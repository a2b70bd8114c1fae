ghost use Rattle.std.specs.Prelude.{◌≡◌, ◌<◌, ◌≤◌, length};
ghost use Rattle.dch_types.specs.Limits.{IsChannel, IsFormat, IsSide};
ghost use Rattle.dch_coding.specs.Rooms.{Holds, HoldsSide, channel_room, format_room, searched_bits, side_room, wider};

use dch_types::{Coding, Format, Side, Trch, block_size};

/// For how large TTIs there is room in the memory of coding and decoding.
#[derive(Clone, Copy)]
pub struct CodingRoom {
    /// The coded bits of a TTI, padded to whole radio frames (TS 25.212 4.2.4).
    pub bits: usize,
    /// The bits of a code block that is coded, at most 504. None where the channels are uncoded.
    pub code_block: usize,
}

impl CodingRoom {
    /// No room at all.
    pub const NONE: CodingRoom = CodingRoom {
        bits: 0,
        code_block: 0,
    };

    /// Room for the greatest TTI of the channels of a direction.
    pub fn of_side(side: &Side) -> CodingRoom
        requires { IsSide side.now }
        ensures value { result ≡ side_room side.now }
        ensures holds { HoldsSide result side.now }
        ensures short { result.code_block ≤ 504 }
    {
        let mut room = CodingRoom::NONE;
        for i in 0..side.channels.len() {
            room = room.wider(CodingRoom::of_channel(side.channel(i)));
        }
        room
    }

    /// Room for the greatest TTI of a channel.
    pub fn of_channel(channel: &Trch) -> CodingRoom
        requires { IsChannel channel.now }
        ensures { result ≡ channel_room channel.now }
    {
        let mut room = CodingRoom::NONE;
        for f in 0..channel.formats.len() {
            room = room.wider(CodingRoom::of_format(channel, channel.format(f)));
        }
        room
    }

    /// Room for a TTI of a channel in a format.
    fn of_format(channel: &Trch, format: &Format) -> CodingRoom
        requires channel { IsChannel channel.now }
        requires format { IsFormat channel.now format.now }
        ensures { result ≡ format_room channel.now format.now }
    {
        let frames = u64::from(channel.frames);
        let bits = channel.tti_bits(format).div_ceil(frames) * frames;
        CodingRoom {
            bits: bits as usize,
            code_block: searched_bits(channel.coding, channel.joined_bits(format)),
        }
    }

    /// Room for what either holds.
    pub fn wider(self, other: CodingRoom) -> CodingRoom
        ensures { result ≡ wider self other }
    {
        CodingRoom {
            bits: self.bits.max(other.bits),
            code_block: self.code_block.max(other.code_block),
        }
    }
}

/// The bits of a code block of so many joined bits, where they are coded.
fn searched_bits(coding: Coding, joined: u64) -> usize
    ensures { result ≡ searched_bits coding joined }
{
    match coding {
        Coding::Uncoded => 0,
        Coding::Half | Coding::Third => { block_size(joined, coding.block_count(joined)) as usize }
    }
}
