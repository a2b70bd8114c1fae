ghost use Rattle.std.specs.Prelude.{◌≡◌, ◌≢◌, ◌<◌, ◌≤◌, ◌%◌, ℕ, None, length, IfOk};
ghost use Rattle.dch_types.specs.declared.channel.Dir.{Dir};
ghost use Rattle.dch_types.specs.Parts.{side_of};
ghost use Rattle.dch_accept.specs.Cells.{frame_cells};
ghost use Rattle.dch_accept.specs.Plans.{Planned};
ghost use Rattle.dch_tti.specs.RxFrames.{AreMissing, IsHeld, IsReaderOf, rx_frame_at, tti_place};

use crate::received_frame::ReceivedFrame;
use dch_accept::TtiRoom;
use dch_bits::{NoMemory, Trit};
use dch_frame::Interleaver;
use std::alloc::Global;
use std::marker::Model;

/// How many frames are kept: those of the longest TTI.
const FRAMES: usize = 8;

/// The radio frames of the last 8 CFNs, and for how large TTIs there is room where they are read.
#[derive(Drop)]
pub struct ReceivedFrames {
    cfn: u8,
    frames: Vec<ReceivedFrame>,
    room: TtiRoom,
}

impl Model for ReceivedFrames {
    ghost use Rattle.std.specs.Prelude.{◌≡◌, length};
    ghost use Rattle.dch_tti.specs.RxFrames.{RxFrames};

    ghost Value = { RxFrames };

    ghost view = { λ h. record { cfn = h.cfn; frames = h.frames.items; room = h.room } };

    ghost invariant = { λ h. length h.frames.items ≡ 8 };
}

impl ReceivedFrames {
    /// Takes the memory for frames of at most so many cells, and notes the room for their TTIs. No frame is there.
    pub fn open(alloc: Global, cells: usize, room: TtiRoom) -> Result<ReceivedFrames, NoMemory>
        ensures missing { IfOk result (λ rx_frames. AreMissing cells 8 rx_frames.frames) }
        ensures room { IfOk result (λ rx_frames. rx_frames.room ≡ room) }
    {
        Ok(ReceivedFrames {
            cfn: 0,
            frames: frames(alloc, cells, FRAMES)?,
            room,
        })
    }

    /// Keeps the frame of a CFN in a combination, in place of the one of 8 frames before. The interleaver is the second
    /// one for its codes.
    pub fn keep(&mut self, cfn: u8, combination: u16, interleaver: &Interleaver, cells: &[Trit])
        requires room { length cells.now ≤ (rx_frame_at self.old.frames (cfn % 8)).room }
        requires codes { length cells.now % interleaver.now ≡ 0 }
        ensures held { IsHeld combination interleaver.now cells.now (rx_frame_at self.new.frames (cfn % 8)) }
        ensures others { (k : ℕ) → k ≢ cfn % 8 → rx_frame_at self.new.frames k ≡ rx_frame_at self.old.frames k }
        ensures last { self.new.cfn ≡ cfn }
        ensures opened { (planned : Planned) (dir : Dir) → IsReaderOf planned dir self.old →
            combination < length (side_of planned.config dir).combinations →
            length cells.now ≡ frame_cells planned dir combination → IsReaderOf planned dir self.new }
    {
        self.frames[cfn as usize % FRAMES].keep(combination, interleaver, cells);
        self.cfn = cfn;
    }

    /// Keeps that the frame of a CFN is missing.
    pub fn miss(&mut self, cfn: u8)
        ensures missing { (rx_frame_at self.new.frames (cfn % 8)).combination ≡ None }
        ensures others { (k : ℕ) → k ≢ cfn % 8 → rx_frame_at self.new.frames k ≡ rx_frame_at self.old.frames k }
        ensures last { self.new.cfn ≡ cfn }
        ensures opened { (planned : Planned) (dir : Dir) → IsReaderOf planned dir self.old →
            IsReaderOf planned dir self.new }
    {
        self.frames[cfn as usize % FRAMES].miss();
        self.cfn = cfn;
    }

    /// Frame `n` of the TTI of so many frames to which the last frame belongs.
    pub fn frame(&self, frames: u8, n: u8) -> &ReceivedFrame
        requires { 0 < frames }
        ensures { result.now ≡ rx_frame_at self.now.frames (tti_place self.now.cfn frames n) }
    {
        &self.frames[place(self.cfn, frames, n)]
    }
}

/// Where frame `n` of a TTI of so many frames is kept.
fn place(cfn: u8, frames: u8, n: u8) -> usize
    requires { 0 < frames }
    ensures value { result ≡ tti_place cfn frames n }
    ensures inside { result < 8 }
{
    let first = (cfn / frames) as usize * frames as usize;
    (first + n as usize) % FRAMES
}

/// Takes the memory for so many frames.
fn frames(alloc: Global, room: usize, count: usize) -> Result<Vec<ReceivedFrame>, NoMemory>
    ensures { IfOk result (λ frames. AreMissing room count frames.items) }
{
    let mut frames = Vec::new(alloc);
    for _n in 0..count {
        frames.push(ReceivedFrame::open(alloc, room)?)?;
    }
    Ok(frames)
}
