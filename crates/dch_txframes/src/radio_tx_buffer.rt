ghost use Rattle.std.specs.Prelude.{◌≡◌, false, IfOk};
ghost use Rattle.dch_txframes.specs.Lending.{radio_of};
ghost use Rattle.dch_txframes.specs.Opened.{IsRadioTxOf};
ghost use Rattle.dch_txframes.specs.Values.{radio_sent};

use dch_accept::{Accepted, FrameView, PhyFrame};
use dch_bits::NoMemory;
use dch_types::Dir;
use std::alloc::Global;

/// The radio frame of a direction, in memory for the longest one, and whether the last step of the node sent it.
#[derive(Drop)]
pub struct RadioTxBuffer {
    pub frame: PhyFrame,
    pub sent: bool,
}

impl RadioTxBuffer {
    /// Takes the memory for the radio frames of a direction. None is sent.
    pub fn open(alloc: Global, accepted: &Accepted, dir: Dir) -> Result<RadioTxBuffer, NoMemory>
        ensures opened { IfOk result (IsRadioTxOf accepted.now dir) }
        ensures quiet { IfOk result (λ buffer. buffer.sent ≡ false) }
    {
        Ok(RadioTxBuffer {
            frame: PhyFrame::open(alloc, accepted, dir)?,
            sent: false,
        })
    }

    /// The radio frame that was sent last, unless it is hidden.
    pub fn view(&self) -> Option<FrameView<'_>>
        ensures { radio_of result ≡ radio_sent self.now }
    {
        if self.sent {
            Some(self.frame.view())
        } else {
            None
        }
    }

    /// Hides the last radio frame.
    pub fn clear_sent(&mut self)
        ensures { self.new ≡ record self.old { sent = false } }
    {
        self.sent = false;
    }
}
