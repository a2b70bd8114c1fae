ghost use Rattle.std.specs.Prelude.{◌≡◌, ◌%◌, ℕ, Option, length, IfOk};
ghost use Rattle.dch_accept.specs.Plans.{Planned};
ghost use Rattle.dch_node.specs.Values.{Radio};
ghost use Rattle.dch_txframes.specs.Lending.{radio_of};
ghost use Rattle.dch_link.specs.Hearing.{Arrive, HaveRadioRooms, IsHeard};
ghost use Rattle.dch_link.specs.Legs.{LegState, radio_from, undamaged};
ghost use Rattle.dch_link.specs.SoftNodes.{AreLegsOf, AreNewLegs, RepresentLegs};

use crate::leg::Leg;
use dch_accept::{Accepted, FrameView};
use dch_bits::NoMemory;
use std::alloc::Global;

/// Opens so many legs for a configuration. The first radio frame has this CFN, and no damage waits.
pub fn open_legs(
    alloc: Global,
    accepted: &Accepted,
    first_cfn: u8,
    count: u8,
) -> Result<Vec<Leg>, NoMemory>
    requires { first_cfn % 8 ≡ 0 }
    ensures { IfOk result (λ legs. AreNewLegs accepted.now first_cfn count legs.items) }
{
    let mut legs = Vec::new(alloc);
    for _ in 0..count {
        legs.push(Leg::open(alloc, accepted, first_cfn)?)?;
    }
    Ok(legs)
}

/// Hits the downlink radio frame of each leg with the damage that waits there.
pub fn hit_radios(legs: &mut [Leg])
    requires { HaveRadioRooms legs.old }
    ensures opened { (planned : Planned) → AreLegsOf planned legs.old → AreLegsOf planned legs.new }
    ensures arrive { (planned : Planned) (first : ℕ) (states : ℕ → LegState) →
        RepresentLegs planned first states legs.old →
        RepresentLegs planned first states legs.new × Arrive (λ k. radio_from (states k)) legs.new }
    ensures all { length legs.new ≡ length legs.old }
{
    for k in 0..legs.len() {
        legs[k].hit_radio();
    }
}

/// The downlink radio frame of the lowest leg of which one arrives, if one does.
pub fn lowest_radio(legs: &[Leg]) -> Option<FrameView<'_>>
    ensures { (arrives : ℕ → Option Radio) → Arrive arrives legs.now →
        IsHeard arrives (length legs.now) (radio_of result) }
{
    for k in 0..legs.len() {
        if let Some(frame) = legs[k].radio() {
            return Some(frame);
        }
    }
    None
}

/// The radio frame is over: no damage waits on any leg.
pub fn clear_damage(legs: &mut [Leg])
    ensures opened { (planned : Planned) → AreLegsOf planned legs.old → AreLegsOf planned legs.new }
    ensures clear { (planned : Planned) (first : ℕ) (states : ℕ → LegState) →
        RepresentLegs planned first states legs.old → RepresentLegs planned first (λ k. undamaged (states k)) legs.new }
    ensures all { length legs.new ≡ length legs.old }
{
    for k in 0..legs.len() {
        legs[k].clear();
    }
}
