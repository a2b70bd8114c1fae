ghost use Rattle.std.specs.Prelude.{◌≤◌, ℕ, All, IfOk, take};
ghost use Rattle.dch_pair.specs.Running.{rules_in};
ghost use Rattle.dch_reset.specs.Law.{IsSafe};
ghost use Rattle.dch_reset.specs.Running.{AreDelivered, IsInside, IsOutcome, history, pair_after};

use crate::outcome::ResetRun;
use crate::running::Running;
use crate::setup::ResetEvent;
use dch_bits::NoMemory;
use dch_pair::PairSetup;
use std::alloc::Global;

/// Runs two ends of a bearer that can be reset over a list of events. The units that are offered are parts of `octets`.
/// Blocks in flight and units that are handed up are stored, and want of memory for them ends the run.
pub fn run_reset(
    alloc: Global,
    setup: &PairSetup,
    octets: &[u8],
    events: &[ResetEvent],
) -> Result<ResetRun, NoMemory>
    requires first { (6 ≤ setup.now.first_pdu) × (setup.now.first_pdu ≤ 126) }
    requires second { (6 ≤ setup.now.second_pdu) × (setup.now.second_pdu ≤ 126) }
    requires window { setup.now.rules.window ≤ 2048 }
    requires inside { All (IsInside octets.now) events.now }
    ensures outcome { IfOk result (λ e. IsOutcome e (pair_after setup.now (history octets.now events.now))) }
    // in order and each at most once, and a unit that is passed over was begun before a restart or discarded
    ensures delivered { IfOk result (λ e. AreDelivered e (pair_after setup.now (history octets.now events.now))) }
    // after each front of the history
    ensures safe { (k : ℕ) → IsSafe (rules_in setup.now)
        (pair_after setup.now (take k (history octets.now events.now))) }
{
    run(alloc, setup, octets, events)
}

fn run(
    alloc: Global,
    setup: &PairSetup,
    octets: &[u8],
    events: &[ResetEvent],
) -> Result<ResetRun, NoMemory>
    requires first { (6 ≤ setup.now.first_pdu) × (setup.now.first_pdu ≤ 126) }
    requires second { (6 ≤ setup.now.second_pdu) × (setup.now.second_pdu ≤ 126) }
    requires window { setup.now.rules.window ≤ 2048 }
    requires inside { All (IsInside octets.now) events.now }
    ensures { IfOk result (λ e. IsOutcome e (pair_after setup.now (history octets.now events.now))) }
{
    let mut pair = Running::open(alloc, setup)?;
    for event in events {
        pair.happen(octets, *event)?;
    }
    Ok(ResetRun::new(pair.first.close(), pair.second.close()))
}
