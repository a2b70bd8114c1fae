ghost use Rattle.std.specs.Prelude.{IfOk};
ghost use Rattle.dch_stages.specs.Handlers.{HasRoom};

use dch_accept::{Accepted, PhyFrame};
use dch_bits::{NoMemory, Trit};
use dch_types::Dir;
use std::alloc::Global;

/// Which radio frame is shown: that of a CFN, in a combination.
#[derive(Clone, Copy)]
pub struct FrameAt {
    pub cfn: u8,
    pub combination: u16,
}

/// Room for the cells of a radio frame, multiplexed and as it is sent.
#[derive(Drop)]
pub struct FrameRoom {
    pub cells: Vec<Trit>,
    pub frame: PhyFrame,
}

impl FrameRoom {
    /// Takes the memory for the greatest radio frame of a direction.
    pub fn open(alloc: Global, accepted: &Accepted, dir: Dir) -> Result<FrameRoom, NoMemory>
        ensures { IfOk result (HasRoom accepted.now.config dir) }
    {
        Ok(FrameRoom {
            cells: vec![in alloc; Trit::Off; accepted.most_cells(dir)]?,
            frame: PhyFrame::open(alloc, accepted, dir)?,
        })
    }
}
