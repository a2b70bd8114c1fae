ghost use Rattle.std.specs.Prelude.{◌≡◌, ◌≢◌, ◌<◌, ◌≤◌, ℕ, None, length, IfErr, IfOk, OnErr, OnOk, true};
ghost use Rattle.dch_types.specs.Timing.{has_set};
ghost use Rattle.dch_combine.specs.Opened.{HoldsLongest, IsCombinerOf};
ghost use Rattle.dch_combine.specs.Steps.{AreNewSets};
ghost use Rattle.dch_combine.specs.Taken.{Gives, IsRefusal, TakesLeg};
ghost use Rattle.dch_combine.specs.Values.{frames_of};

use crate::error::CombineError;
use crate::set::SetCombiner;
use dch_accept::{Accepted, TtiBlocks};
use dch_bits::NoMemory;
use dch_types::{Dir, SETS};
use std::alloc::Global;
use std::marker::Model;

/// What combines the uplink Iub frames of the legs of a soft handover, its Node Bs, to one frame of each set and TTI.
/// All its memory is taken at opening.
#[derive(Drop)]
pub struct Combiner {
    legs: u8,
    sets: Vec<SetCombiner>,
    tti: TtiBlocks,
}

impl Model for Combiner {
    ghost use Rattle.dch_combine.specs.Values.{Combiner};

    ghost Value = { Combiner };

    ghost view = { λ c. record { legs = c.legs; sets = c.sets.items; room = c.tti.room } };
}

impl Combiner {
    /// Takes all memory for the frames of so many legs, of which there are 1 to 6. No frame is there.
    pub fn open(alloc: Global, accepted: &Accepted, legs: u8) -> Result<Combiner, NoMemory>
        requires some { 1 ≤ legs }
        requires few { legs ≤ 6 }
        ensures legs { IfOk result (λ combiner. combiner.legs ≡ legs) }
        ensures empty { IfOk result (λ combiner. (s k : ℕ) → frames_of combiner s k ≡ None) }
        ensures opened { IfOk result (IsCombinerOf accepted.now) }
    {
        Ok(Combiner {
            legs,
            sets: set_combiners(alloc, accepted, legs)?,
            tti: TtiBlocks::open(alloc, accepted, Dir::Up)?,
        })
    }

    /// Takes the frame of a leg for a set, in the TTI that starts at a CFN. A later frame of the leg replaces the
    /// earlier one. One that is refused changes nothing (TS 25.427 6.2).
    pub fn take(
        &mut self,
        accepted: &Accepted,
        set: u8,
        leg: u8,
        cfn: u8,
        frame: &[u8],
    ) -> Result<(), CombineError>
        requires opened { IsCombinerOf accepted.now self.old }
        requires set { has_set accepted.now.config.uplink.side set ≡ true }
        requires leg { leg < self.old.legs }
        ensures ok { OnOk result (TakesLeg accepted.now.config set leg cfn frame.now (frames_of self.old set)
            (frames_of self.new set)) }
        ensures err { IfErr result (IsRefusal accepted.now.config set cfn frame.now) }
        ensures same { OnErr result ((k : ℕ) → frames_of self.new set k ≡ frames_of self.old set k) }
        ensures others { (s k : ℕ) → s ≢ set → frames_of self.new s k ≡ frames_of self.old s k }
        ensures legs { self.new.legs ≡ self.old.legs }
        ensures opened { IsCombinerOf accepted.now self.new }
    {
        self.sets[index_of(accepted, set)].take(accepted, set, leg, cfn, frame)
    }

    /// Writes the frame that the frames taken for a set become to the front of `out`, with the CFN at which their TTI
    /// starts, and answers how many octets it has. It is none where no frame was taken since the set was given the last
    /// time. No leg has a frame of the set any more (TS 25.427 6.2).
    pub fn give(&mut self, accepted: &Accepted, set: u8, cfn: u8, out: &mut [u8]) -> Option<usize>
        requires opened { IsCombinerOf accepted.now self.old }
        requires set { has_set accepted.now.config.uplink.side set ≡ true }
        requires room { HoldsLongest accepted.now.config set (length out.old) }
        ensures gives { Gives accepted.now.config set cfn (frames_of self.old set) out.old out.new result }
        ensures empty { (k : ℕ) → frames_of self.new set k ≡ None }
        ensures others { (s k : ℕ) → s ≢ set → frames_of self.new s k ≡ frames_of self.old s k }
        ensures legs { self.new.legs ≡ self.old.legs }
        ensures opened { IsCombinerOf accepted.now self.new }
    {
        self.sets[index_of(accepted, set)].give(accepted, set, cfn, &mut self.tti, out)
    }
}

/// The place of a set that the uplink has.
fn index_of(accepted: &Accepted, set: u8) -> usize
    requires { has_set accepted.now.config.uplink.side set ≡ true }
    ensures value { result ≡ set }
    ensures inside { result < 8 }
{
    // A set's number is at most 7 in a good configuration.
    let _few = accepted.side(Dir::Up).has_set(set);
    set as usize
}

/// Takes the memory for the frames of so many legs for each set.
fn set_combiners(alloc: Global, accepted: &Accepted, legs: u8) -> Result<Vec<SetCombiner>, NoMemory>
    ensures { IfOk result (λ sets. AreNewSets accepted.now.config legs 8 sets.items) }
{
    let mut sets = Vec::new(alloc);
    for set in 0..SETS {
        sets.push(SetCombiner::open(alloc, accepted, set, legs)?)?;
    }
    Ok(sets)
}
