ghost use Rattle.std.specs.Prelude.{◌≡◌, ◌<◌, ◌≤◌, ℕ, None, length, IfErr, IfOk, OnErr, OnOk};
ghost use Rattle.dch_accept.specs.Blocks.{HoldsTtis};
ghost use Rattle.dch_combine.specs.Opened.{HoldsLongest, IsSetCombinerOf};
ghost use Rattle.dch_combine.specs.Steps.{AreEmptied, AreNewLegs};
ghost use Rattle.dch_combine.specs.Taken.{Gives, IsRefusal, TakesLeg};
ghost use Rattle.dch_combine.specs.Values.{frames_in};

use crate::channel::combine;
use crate::error::CombineError;
use crate::leg::LegBuffer;
use crate::legs::best_qe;
use crate::write::write_frame;
use dch_accept::{Accepted, SetBlocks, TtiBlocks};
use dch_bits::NoMemory;
use dch_iub::read_ul;
use dch_types::Dir;
use std::alloc::Global;
use std::marker::Model;

/// The frames of the legs for a set, with room for one more: there a frame is read, and the combined blocks are made.
#[derive(Drop)]
pub struct SetCombiner {
    legs: Vec<LegBuffer>,
    spare: SetBlocks,
}

impl Model for SetCombiner {
    ghost use Rattle.dch_combine.specs.Values.{SetCombiner};

    ghost Value = { SetCombiner };

    ghost view = { λ c. record { legs = c.legs.items; spare = c.spare } };
}

impl SetCombiner {
    /// Takes the memory for the frames of so many legs for a set. None is there.
    pub fn open(
        alloc: Global,
        accepted: &Accepted,
        set: u8,
        legs: u8,
    ) -> Result<SetCombiner, NoMemory>
        ensures empty { IfOk result (λ combiner. (k : ℕ) → frames_in combiner.legs k ≡ None) }
        ensures opened { IfOk result (IsSetCombinerOf accepted.now.config set legs) }
    {
        Ok(SetCombiner {
            legs: leg_buffers(alloc, accepted, set, legs)?,
            spare: SetBlocks::open(alloc, accepted, Dir::Up, set)?,
        })
    }

    /// Takes the frame of a leg with a CFN, in place of the one before. One that is refused changes nothing.
    pub fn take(
        &mut self,
        accepted: &Accepted,
        set: u8,
        leg: u8,
        cfn: u8,
        frame: &[u8],
    ) -> Result<(), CombineError>
        requires opened { IsSetCombinerOf accepted.now.config set (length self.old.legs) self.old }
        requires leg { leg < length self.old.legs }
        ensures ok { OnOk result (TakesLeg accepted.now.config set leg cfn frame.now (frames_in self.old.legs)
            (frames_in self.new.legs)) }
        ensures err { IfErr result (IsRefusal accepted.now.config set cfn frame.now) }
        ensures same { OnErr result (self.new.legs ≡ self.old.legs) }
        ensures opened { IsSetCombinerOf accepted.now.config set (length self.old.legs) self.new }
    {
        let read = match read_ul(accepted, set, frame, &mut self.spare) {
            Ok(read) => read,
            Err(error) => return Err(CombineError::Frame(error)),
        };
        if read.cfn != cfn {
            return Err(CombineError::Cfn(read.cfn));
        }
        self.legs[leg as usize].replace(read.qe, &mut self.spare);
        Ok(())
    }

    /// Writes the frame that the legs' frames become to the front of `out`, with a CFN, and answers how many octets it
    /// has, or that no leg has a frame. No leg has one any more.
    pub fn give(
        &mut self,
        accepted: &Accepted,
        set: u8,
        cfn: u8,
        tti: &mut TtiBlocks,
        out: &mut [u8],
    ) -> Option<usize>
        requires opened { IsSetCombinerOf accepted.now.config set (length self.old.legs) self.old }
        requires tti { HoldsTtis accepted.now.config.uplink.side tti.old.room }
        requires room { HoldsLongest accepted.now.config set (length out.old) }
        ensures gives { Gives accepted.now.config set cfn (frames_in self.old.legs) out.old out.new result }
        ensures empty { (k : ℕ) → frames_in self.new.legs k ≡ None }
        ensures opened { IsSetCombinerOf accepted.now.config set (length self.old.legs) self.new }
        ensures room { tti.new.room ≡ tti.old.room }
    {
        match best_qe(&self.legs) {
            Some(qe) => {
                combine(accepted, set, &self.legs, tti, &mut self.spare);
                clear(&mut self.legs);
                Some(write_frame(accepted, set, cfn, qe, &self.spare, out))
            }
            None => None,
        }
    }
}

/// Takes the memory for the frames of so many legs for a set.
fn leg_buffers(
    alloc: Global,
    accepted: &Accepted,
    set: u8,
    legs: u8,
) -> Result<Vec<LegBuffer>, NoMemory>
    ensures { IfOk result (λ buffers. AreNewLegs accepted.now.config set legs buffers.items) }
{
    let mut buffers = Vec::new(alloc);
    for _leg in 0..legs {
        buffers.push(LegBuffer::open(alloc, accepted, set)?)?;
    }
    Ok(buffers)
}

/// Drops the frames of all legs.
fn clear(legs: &mut [LegBuffer])
    ensures { AreEmptied (length legs.old) legs.old legs.new }
{
    for k in 0..legs.len() {
        legs[k].qe = None;
    }
}
