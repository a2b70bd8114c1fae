ghost use Rattle.std.specs.Prelude.{◌≡◌, ◌<◌, ◌≤◌, ◌^◌, length};
ghost use Rattle.dch_types.specs.Parts.{side_of};
ghost use Rattle.dch_accept.specs.Rooms.{most_places, most_room, tti_room, wider_tti};

use crate::accepted::Accepted;
use dch_coding::CodingRoom;
use dch_types::Dir;

/// For how large TTIs of a channel, or of all channels of a direction, there is room.
#[derive(Clone, Copy)]
pub struct TtiRoom {
    /// What coding and decoding want.
    pub coding: CodingRoom,
    /// The coded bits of a radio frame before rate matching (TS 25.212 4.2.6).
    pub frame_bits: usize,
    /// The cells of a TTI, all of its radio frames together: in the uplink those before rate matching, and in the
    /// downlink its places, also those in which nothing is sent (TS 25.212 4.2.9.1).
    pub cells: usize,
}

impl TtiRoom {
    /// No room at all.
    const NONE: TtiRoom = TtiRoom {
        coding: CodingRoom::NONE,
        frame_bits: 0,
        cells: 0,
    };

    /// Room for what either holds.
    fn wider(self, other: TtiRoom) -> TtiRoom
        ensures { result ≡ wider_tti self other }
    {
        TtiRoom {
            coding: self.coding.wider(other.coding),
            frame_bits: self.frame_bits.max(other.frame_bits),
            cells: self.cells.max(other.cells),
        }
    }
}

impl Accepted {
    /// Room for the greatest TTI of the channels of a direction.
    pub fn most_room(&self, dir: Dir) -> TtiRoom
        ensures value { result ≡ most_room self.now dir }
        ensures short { result.coding.code_block ≤ 504 }
    {
        let mut room = TtiRoom::NONE;
        for i in 0..self.side(dir).channels.len() {
            room = room.wider(self.tti_room(dir, i as u8));
        }
        room
    }

    /// Room for the greatest TTI of a channel.
    pub fn tti_room(&self, dir: Dir, channel: u8) -> TtiRoom
        requires { channel < length (side_of self.now.config dir).channels }
        ensures { result ≡ tti_room self.now dir channel }
    {
        let coding = CodingRoom::of_channel(self.channel(dir, channel));
        let frames = usize::from(self.frames_of(dir, channel));
        let cells = match dir {
            Dir::Up => coding.bits,
            Dir::Down => frames * self.most_places(channel),
        };
        TtiRoom {
            coding,
            frame_bits: coding.bits / frames,
            cells,
        }
    }

    /// The most places of a channel in a radio frame of the downlink.
    fn most_places(&self, channel: u8) -> usize
        requires { channel < length self.now.config.downlink.side.channels }
        ensures value { result ≡ most_places self.now channel }
        ensures small { result < 2 ^ 32 }
    {
        let formats = self.channel(Dir::Down, channel).formats.len();
        let mut most: u32 = 0;
        for f in 0..formats {
            most = most.max(self.downlink_plan().cells(channel, f as u8));
        }
        most as usize
    }
}
