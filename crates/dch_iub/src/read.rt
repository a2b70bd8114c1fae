ghost use Rattle.std.specs.Prelude.{◌≡◌, ◌+◌, ◌<◌, ℕ, length, IfErr, IfOk, OnErr, OnOk};
ghost use Rattle.dch_types.specs.declared.channel.Dir.TheVariants.{Up, Down};
ghost use Rattle.dch_types.specs.Limits.{IsSide};
ghost use Rattle.dch_types.specs.Parts.{side_of};
ghost use Rattle.dch_accept.specs.HeldSets.{AreRooms, HeldSet, IsSetOf, held_at};
ghost use Rattle.dch_iub.specs.Answers.{IsCause, IsFault};
ghost use Rattle.dch_iub.specs.Forms.{IsReadForm};
ghost use Rattle.dch_iub.specs.Shape.{ForSet};
ghost use Rattle.dch_iub.specs.Taken.{AreAllGood, AreGood, IsKept, IsReceived};

use crate::error::IubError;
use crate::judge::judge;
use crate::shape::shape_of;
use crate::take::{take_blocks, take_marks};
use dch_accept::{Accepted, SetBlocks};
use dch_types::{Dir, Side};

/// What an uplink frame carries beside the blocks.
#[derive(Clone, Copy, Debug, PartialEq, Eq)]
pub struct IubUl {
    /// The CFN of the TTI's first radio frame.
    pub cfn: u8,
    /// The quality estimate.
    pub qe: u8,
}

/// Takes a downlink frame if it is good.
fn receive_dl(
    side: &Side,
    on: bool,
    set: u8,
    frame: &[u8],
    out: &mut SetBlocks,
) -> Result<u8, IubError>
    requires side { IsSide side.now }
    requires all { length out.old.blocks ≡ length side.now.channels }
    requires fits { AreRooms side.now set (length side.now.channels) out.old.blocks }
    ensures ok { IfOk result (λ cfn. IsReceived Down side.now on set frame.now cfn 0 out.new) }
    ensures good { OnOk result (AreAllGood side.now set out.new (length side.now.channels)) }
    ensures kept { IsKept out.old out.new }
    ensures refused { IfErr result (IsFault Down side.now on set frame.now) }
    ensures same { OnErr result (out.new ≡ out.old) }
{
    let numbers = judge(Dir::Down, side, on, set, frame)?;
    let shape = shape_of(side, set, &numbers);
    take_blocks(side, set, &numbers, shape.header, frame, out);
    Ok(frame[1])
}

/// Takes an uplink frame if it is good.
fn receive_ul(
    side: &Side,
    on: bool,
    set: u8,
    frame: &[u8],
    out: &mut SetBlocks,
) -> Result<IubUl, IubError>
    requires side { IsSide side.now }
    requires all { length out.old.blocks ≡ length side.now.channels }
    requires fits { AreRooms side.now set (length side.now.channels) out.old.blocks }
    ensures ok { IfOk result (λ read. IsReceived Up side.now on set frame.now read.cfn read.qe out.new) }
    ensures kept { IsKept out.old out.new }
    ensures refused { IfErr result (IsFault Up side.now on set frame.now) }
    ensures same { OnErr result (out.new ≡ out.old) }
{
    let numbers = judge(Dir::Up, side, on, set, frame)?;
    let shape = shape_of(side, set, &numbers);
    let end = shape.header + shape.octets;
    take_blocks(side, set, &numbers, shape.header, frame, out);
    take_marks(side, set, &numbers, frame, 8 * (end + 1), out);
    Ok(IubUl {
        cfn: frame[1],
        qe: frame[end],
    })
}

/// Reads a downlink data frame of a set: answers its CFN, and takes its blocks, all good. An error leaves the blocks as
/// they were (TS 25.427 6.2).
pub fn read_dl(
    accepted: &Accepted,
    set: u8,
    frame: &[u8],
    out: &mut SetBlocks,
) -> Result<u8, IubError>
    requires { IsSetOf accepted.now.config Down set out.old }
    ensures ok { IfOk result (λ cfn. IsReadForm accepted.now.config Down set frame.now cfn 0 out.new) }
    ensures good { OnOk result (ForSet (side_of accepted.now.config Down) set
        (λ i. AreGood (held_at out.new.blocks i))) }
    ensures opened { OnOk result (IsSetOf accepted.now.config Down set out.new) }
    ensures refused { IfErr result (IsCause accepted.now.config Down set frame.now) }
    ensures no_form { OnErr result ((cfn qe : ℕ) (held : HeldSet) →
        ¬ IsReadForm accepted.now.config Down set frame.now cfn qe held) }
    ensures same { OnErr result (out.new ≡ out.old) }
{
    let side = accepted.side(Dir::Down);
    let on = accepted.config().payload_check;
    receive_dl(side, on, set, frame, out)
}

/// Reads an uplink data frame of a set: answers its CFN and quality estimate, and takes its blocks with their marks. An
/// error leaves the blocks as they were (TS 25.427 6.2).
pub fn read_ul(
    accepted: &Accepted,
    set: u8,
    frame: &[u8],
    out: &mut SetBlocks,
) -> Result<IubUl, IubError>
    requires { IsSetOf accepted.now.config Up set out.old }
    ensures ok { IfOk result (λ read. IsReadForm accepted.now.config Up set frame.now read.cfn read.qe out.new) }
    ensures opened { OnOk result (IsSetOf accepted.now.config Up set out.new) }
    ensures refused { IfErr result (IsCause accepted.now.config Up set frame.now) }
    ensures no_form { OnErr result ((cfn qe : ℕ) (held : HeldSet) →
        ¬ IsReadForm accepted.now.config Up set frame.now cfn qe held) }
    ensures same { OnErr result (out.new ≡ out.old) }
{
    let side = accepted.side(Dir::Up);
    let on = accepted.config().payload_check;
    receive_ul(side, on, set, frame, out)
}
