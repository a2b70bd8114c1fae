ghost use Rattle.std.specs.Prelude.{◌≡◌, ◌<◌, ◌≤◌, ◌%◌, length};
ghost use Rattle.dch_types.specs.Parts.{side_of};
ghost use Rattle.dch_accept.specs.Cells.{code_cells, frame_cells};
ghost use Rattle.dch_accept.specs.Frames.{most_cells, tfci_bits};

use crate::accepted::Accepted;
use dch_frame::Interleaver;
use dch_types::Dir;

impl Accepted {
    /// The most cells of a radio frame of a direction.
    pub fn most_cells(&self, dir: Dir) -> usize
        ensures value { result ≡ most_cells self.now.config dir }
        ensures small { result ≤ 57600 }
    {
        let config = self.config();
        match dir {
            Dir::Up => config.uplink.largest as usize,
            Dir::Down => config.downlink.frame_bits(),
        }
    }

    /// The TFCI bits of a radio frame of a direction (TS 25.212 4.3.5).
    pub fn tfci_bits(&self, dir: Dir) -> usize
        ensures value { result ≡ tfci_bits self.now.config dir }
        ensures small { result ≤ 120 }
    {
        match dir {
            Dir::Down if self.config().downlink.sf < 128 => 120,
            Dir::Down | Dir::Up => 30,
        }
    }

    /// Ndata: the cells of a radio frame of a direction in a combination (TS 25.212 4.2.7).
    pub fn frame_cells(&self, dir: Dir, combination: u16) -> usize
        requires { combination < length (side_of self.now.config dir).combinations }
        ensures value { result ≡ frame_cells self.now dir combination }
        ensures fits { result ≤ most_cells self.now.config dir }
    {
        match dir {
            Dir::Up => self.uplink_plan(combination).ndata as usize,
            Dir::Down => self.config().downlink.frame_bits(),
        }
    }

    /// The second interleaver for the codes of a radio frame in a combination (TS 25.212 4.2.11).
    pub fn interleaver(&self, dir: Dir, combination: u16) -> &Interleaver
        requires { combination < length (side_of self.now.config dir).combinations }
        ensures some { 0 < result.now }
        ensures codes { frame_cells self.now dir combination % result.now ≡ 0 }
        ensures value { 0 < frame_cells self.now dir combination →
            result.now ≡ code_cells self.now dir (frame_cells self.now dir combination) }
    {
        match dir {
            Dir::Up => {
                let cells = self.uplink_plan(combination).ndata as usize;
                self.uplink_interleavers.of_frame(cells)
            }
            Dir::Down => &self.downlink_interleaver,
        }
    }
}
