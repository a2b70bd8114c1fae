// The session of a node behind a handle: what nodes of all kinds have in common, and the tests of their events.
ghost use Rattle.std.specs.Prelude.{◌≡◌, ◌%◌, ◌≤◌, ◌<◌, length, slice_get, take, Some, true, IfErr, IfOk, IfSome, OnOk};
ghost use Rattle.dch_types.specs.Parts.{side_of};
ghost use Rattle.dch_types.specs.Timing.{has_set};
ghost use Rattle.dch_accept.specs.Frames.{tfci_bits};
ghost use Rattle.dch_handle.specs.Letters.{bits_of, cells_of};
ghost use Rattle.dch_handle.specs.Runs.{CanFollow, Changes, IsOpened, StartsTtis, block_status, change_status, if_idle, is_idle, iub_status, phy_status, sends_bits, sends_octets, unit_bits_status, unit_status};
ghost use Rattle.dch_handle.specs.Statuses.{IsRefused, done, nothing, short};
ghost use Rattle.dch_handle.specs.Telling.{IsPulled};
ghost use Rattle.dch_handle.specs.declared.told.Told.{Told as TheTold};

use crate::letters::{read_cells, read_into};
use crate::node::SessionNode;
use crate::node_run::NodeRun;
use crate::run::{sends_bits, sends_octets};
use crate::status::{BAD_CODE, BAD_SIZE, DONE, NOT_DUE, QUEUE_FULL};
use crate::told::Told;
use dch_bits::{Bit, NoMemory, Trit};
use dch_check::Configurations;
use dch_types::Dir;
use std::alloc::Global;
use std::marker::Model;

/// A node, with room for the bits of a unit, and for the cells of a radio frame.
#[derive(Drop)]
pub struct Session<N: SessionNode> {
    pub(crate) run: NodeRun<N>,
    pub(crate) bits: Vec<Bit>,
    pub(crate) cells: Vec<Trit>,
}

impl<N: SessionNode> Model for Session<N> {
    ghost use Rattle.std.specs.Prelude.{◌≡◌, length};
    ghost use Rattle.dch_handle.specs.Runs.{Run};

    ghost Value = { Run N };

    ghost view = { λ s. s.run };

    ghost invariant = { λ s. (length s.bits.items ≡ 5000) × (length s.cells.items ≡ 57600) };
}

impl<N: SessionNode + Drop> Session<N> {
    /// Opens a node at a CFN, for one configuration or two. Nothing more is taken later.
    pub fn open(
        alloc: Global,
        configurations: Configurations,
        first_cfn: u8,
    ) -> Result<Session<N>, NoMemory>
        requires eighth { first_cfn % 8 ≡ 0 }
        requires follows { CanFollow configurations }
        requires whole { IfSome configurations.second StartsTtis }
        ensures { IfOk result (IsOpened N.rules configurations first_cfn) }
    {
        Ok(Session {
            run: NodeRun::open(alloc, configurations, first_cfn)?,
            bits: vec![in alloc; Bit::Zero; 5000]?,
            cells: vec![in alloc; Trit::Off; 57_600]?,
        })
    }
}

impl<N: SessionNode> Session<N> {
    /// The second configuration becomes active.
    pub fn change(&mut self) -> u8
        ensures status { result ≡ change_status self.old.waiting self.old.later self.old.frames }
        ensures done { result ≡ done → Changes N.rules self.old self.new }
        ensures same { IsRefused result → self.new ≡ self.old }
    {
        if !self.run.is_idle() {
            return QUEUE_FULL;
        }
        if !self.run.is_due() {
            return NOT_DUE;
        }
        self.run.change();
        DONE
    }

    /// Pulls the next value, and copies its octets to the front of `out`.
    pub fn next(&mut self, told: &mut Told, out: &mut [u8]) -> u8
        ensures nothing { is_idle self.old.waiting ≡ true → (result ≡ nothing) × (told.new ≡ told.old) }
        ensures short { (first : TheTold) → slice_get self.old.waiting.told 0 ≡ Some first →
            length out.old < first.length → (result ≡ short) × (told.new ≡ first) }
        ensures done { (first : TheTold) → slice_get self.old.waiting.told 0 ≡ Some first →
            first.length ≤ length out.old →
            (result ≡ done) × IsPulled self.old.waiting self.new.waiting told.new out.old out.new }
        ensures others { self.new ≡ record self.old { waiting = self.new.waiting } }
        ensures same { IsRefused result → (self.new ≡ self.old) × (out.new ≡ out.old) }
    {
        self.run.next(told, out)
    }
}

/// All that was told was pulled, as before any event.
pub fn test_idle<N: SessionNode>(run: &NodeRun<N>) -> Result<(), u8>
    ensures ok { OnOk result (if_idle run.now.waiting done ≡ done) }
    ensures err { IfErr result (λ status. (status ≡ if_idle run.now.waiting done) × IsRefused status) }
{
    if run.is_idle() {
        Ok(())
    } else {
        Err(QUEUE_FULL)
    }
}

/// A unit of octets can be offered to a bearer that sends in a direction.
pub fn test_unit<N: SessionNode>(run: &NodeRun<N>, dir: Dir, bearer: u8) -> Result<(), u8>
    ensures ok { OnOk result (unit_status run.now.planned run.now.waiting dir bearer ≡ done) }
    ensures sends { OnOk result (sends_octets run.now.planned.config dir bearer ≡ true) }
    ensures err { IfErr result (λ status.
        (status ≡ unit_status run.now.planned run.now.waiting dir bearer) × IsRefused status) }
{
    if !run.is_idle() {
        return Err(QUEUE_FULL);
    }
    if !sends_octets(run.accepted().config(), dir, bearer) {
        return Err(BAD_CODE);
    }
    Ok(())
}

/// Reads a unit of bits that can be offered to a bearer that sends in a direction.
pub fn read_unit<N: SessionNode>(
    run: &NodeRun<N>,
    dir: Dir,
    bearer: u8,
    letters: &[u8],
    bits: &mut [Bit],
) -> Result<(), u8>
    requires { length bits.old ≡ 5000 }
    ensures ok { OnOk result (unit_bits_status run.now.planned run.now.waiting dir bearer letters.now ≡ done) }
    ensures sends { OnOk result (sends_bits run.now.planned.config dir bearer ≡ true) }
    ensures few { OnOk result (length letters.now ≤ 5000) }
    ensures bits { OnOk result (take (length letters.now) bits.new ≡ bits_of letters.now) }
    ensures length { length bits.new ≡ 5000 }
    ensures err { IfErr result (λ status.
        (status ≡ unit_bits_status run.now.planned run.now.waiting dir bearer letters.now) × IsRefused status) }
{
    if !run.is_idle() {
        return Err(QUEUE_FULL);
    }
    if !sends_bits(run.accepted().config(), dir, bearer) {
        return Err(BAD_CODE);
    }
    if 5000 < letters.len() {
        return Err(BAD_SIZE);
    }
    read_into(letters, &mut bits[..letters.len()])
}

/// A combination of a direction can be blocked (1), or free again (0).
pub fn test_block<N: SessionNode>(
    run: &NodeRun<N>,
    dir: Dir,
    combination: u16,
    on: u8,
) -> Result<(), u8>
    ensures ok { OnOk result (block_status run.now.planned run.now.waiting dir combination on ≡ done) }
    ensures there { OnOk result (combination < length (side_of run.now.planned.config dir).combinations) }
    ensures err { IfErr result (λ status.
        (status ≡ block_status run.now.planned run.now.waiting dir combination on) × IsRefused status) }
{
    if !run.is_idle() {
        return Err(QUEUE_FULL);
    }
    let combinations = &run.accepted().side(dir).combinations;
    if combinations.len() <= usize::from(combination) || 2 <= on {
        return Err(BAD_CODE);
    }
    Ok(())
}

/// An Iub frame of a set of a direction can come.
pub fn test_iub<N: SessionNode>(run: &NodeRun<N>, dir: Dir, set: u8) -> Result<(), u8>
    ensures ok { OnOk result (iub_status run.now.planned run.now.waiting dir set ≡ done) }
    ensures there { OnOk result (has_set (side_of run.now.planned.config dir) set ≡ true) }
    ensures err { IfErr result (λ status.
        (status ≡ iub_status run.now.planned run.now.waiting dir set) × IsRefused status) }
{
    if !run.is_idle() {
        return Err(QUEUE_FULL);
    }
    if !run.accepted().side(dir).has_set(set) {
        return Err(BAD_CODE);
    }
    Ok(())
}

/// Reads a radio frame that can come in a direction.
pub fn read_frame<N: SessionNode>(
    run: &NodeRun<N>,
    dir: Dir,
    tfci: &[u8],
    cells: &[u8],
    bits: &mut [Bit],
    trits: &mut [Trit],
) -> Result<(), u8>
    requires bits { length bits.old ≡ 5000 }
    requires trits { length trits.old ≡ 57600 }
    ensures ok { OnOk result (phy_status run.now.planned run.now.waiting dir tfci.now cells.now ≡ done) }
    ensures fits { OnOk result (length tfci.now ≡ tfci_bits run.now.planned.config dir) }
    ensures few { OnOk result ((length tfci.now ≤ 5000) × (length cells.now ≤ 57600)) }
    ensures bits { OnOk result (take (length tfci.now) bits.new ≡ bits_of tfci.now) }
    ensures trits { OnOk result (take (length cells.now) trits.new ≡ cells_of cells.now) }
    ensures lengths { (length bits.new ≡ 5000) × (length trits.new ≡ 57600) }
    ensures err { IfErr result (λ status.
        (status ≡ phy_status run.now.planned run.now.waiting dir tfci.now cells.now) × IsRefused status) }
{
    if !run.is_idle() {
        return Err(QUEUE_FULL);
    }
    if tfci.len() != run.accepted().tfci_bits(dir) || 57_600 < cells.len() {
        return Err(BAD_SIZE);
    }
    read_into(tfci, &mut bits[..tfci.len()])?;
    read_cells(cells, &mut trits[..cells.len()])
}
