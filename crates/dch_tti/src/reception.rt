ghost use Rattle.std.specs.Prelude.{◌≡◌, ◌≢◌, ◌≤◌, ◌<◌, ◌%◌, ℕ, Some, length};
ghost use Rattle.dch_types.specs.Parts.{side_of};
ghost use Rattle.dch_accept.specs.Cells.{frame_cells};
ghost use Rattle.dch_accept.specs.Frames.{most_cells, tfci_bits};
ghost use Rattle.dch_tti.specs.Pushed.{IsPushed};
ghost use Rattle.dch_tti.specs.RxFrames.{Finds, HasTfci, IsKept, IsReaderOf, rx_frame_at};

use crate::received_frames::ReceivedFrames;
use dch_accept::{Accepted, FrameView};
use dch_bits::{Bit, Trit};
use dch_tfci::find;
use dch_types::Dir;

impl ReceivedFrames {
    /// Takes the radio frame of the next CFN, or that it is missing. A frame is kept where its TFCI names a combination
    /// of the list, and it is as long as the frames of that one (TS 25.212 4.3.3, 4.3.5); otherwise it counts as
    /// missing.
    pub fn push(&mut self, accepted: &Accepted, dir: Dir, cfn: u8, frame: Option<FrameView<'_>>)
        requires opened { IsReaderOf accepted.now dir self.old }
        requires tfci { HasTfci accepted.now dir frame }
        ensures pushed { IsPushed accepted.now dir cfn frame.entry self.old self.new }
        ensures opened { IsReaderOf accepted.now dir self.new }
    {
        match frame {
            Some(frame) => self.receive(accepted, dir, cfn, frame.tfci, frame.cells),
            None => self.miss(cfn),
        }
    }

    /// Keeps a frame in the combination that is found in it.
    fn receive(&mut self, accepted: &Accepted, dir: Dir, cfn: u8, tfci: &[Bit], cells: &[Trit])
        requires opened { IsReaderOf accepted.now dir self.old }
        requires tfci { length tfci.now ≡ tfci_bits accepted.now.config dir }
        ensures kept { IsKept accepted.now dir tfci.now cells.now (rx_frame_at self.new.frames (cfn % 8)) }
        ensures others { (k : ℕ) → k ≢ cfn % 8 → rx_frame_at self.new.frames k ≡ rx_frame_at self.old.frames k }
        ensures last { self.new.cfn ≡ cfn }
        ensures opened { IsReaderOf accepted.now dir self.new }
    {
        match combination_of(accepted, dir, tfci, cells.len()) {
            Some(combination) => {
                let interleaver = accepted.interleaver(dir, combination);
                self.keep(cfn, combination, interleaver, cells);
            }
            None => self.miss(cfn),
        }
    }
}

/// The combination of a frame of so many cells, if its TFCI names one of the list, whose frames are as long.
fn combination_of(accepted: &Accepted, dir: Dir, tfci: &[Bit], cells: usize) -> Option<u16>
    requires { length tfci.now ≡ tfci_bits accepted.now.config dir }
    ensures found { Finds accepted.now dir tfci.now cells result }
    ensures listed { (c : ℕ) → result ≡ Some c → c < length (side_of accepted.now.config dir).combinations }
    ensures long { (c : ℕ) → result ≡ Some c → cells ≡ frame_cells accepted.now dir c }
    ensures room { (c : ℕ) → result ≡ Some c → cells ≤ most_cells accepted.now.config dir }
{
    let index = find(tfci).index;
    let listed = (index as usize) < accepted.side(dir).combinations.len();
    if listed && cells == accepted.frame_cells(dir, index) {
        Some(index)
    } else {
        None
    }
}
