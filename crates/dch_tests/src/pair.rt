ghost use Rattle.std.specs.Prelude.{◌≡◌, ◌≤◌};

use dch_bits::NoMemory;
use dch_pair::{End, PairEnd, PairEvent, PairSetup, are_inside, run_pair};
use dch_types::AmRules;
use std::alloc::Global;
use std::test::Fail;

// PDUs of 18 octets, which have room for a unit of 15 octets and its indicator.
pub fn setup(discard_age: u16) -> PairSetup
    ensures first { result.first_pdu ≡ 18 }
    ensures second { result.second_pdu ≡ 18 }
    ensures window { result.rules.window ≤ 2048 }
{
    let rules = AmRules {
        window: 128,
        poll_timer: 10,
        poll_pdus: 0,
        poll_units: 0,
        poll_window: 0,
        status_period: 0,
        status_prohibit: 0,
        missing: true,
        discard_age,
        discard_sent: 0,
        discard_repeat: 10,
    };
    PairSetup {
        first_pdu: 18,
        second_pdu: 18,
        buffer: 64,
        rules,
    }
}

// Units of 15 octets, each of which begins with its number.
pub fn numbered(alloc: Global, count: u16) -> Result<Vec<u8>, NoMemory> {
    let mut octets = Vec::new(alloc);
    for number in 0..count {
        octets.push((number / 256) as u8)?;
        octets.push((number % 256) as u8)?;
        octets.extend_from_slice(&[0x5a; 13])?;
    }
    Ok(octets)
}

fn offer(events: &mut Vec<PairEvent>, unit: u16) -> Result<(), NoMemory> {
    events.push(PairEvent::Offer {
        end: End::First,
        from: 15 * unit as usize,
        len: 15,
    })?;
    Ok(())
}

// Both ends build, and then both tick. Blocks of rounds that 3 divides are lost.
fn round(events: &mut Vec<PairEvent>, round: u16) -> Result<(), NoMemory> {
    let arrives = round % 3 != 0;
    events.push(PairEvent::Build {
        end: End::First,
        arrives,
    })?;
    events.push(PairEvent::Build {
        end: End::Second,
        arrives,
    })?;
    events.push(PairEvent::Tick { end: End::First })?;
    events.push(PairEvent::Tick { end: End::Second })?;
    Ok(())
}

// So many rounds, counted from 1, in each of which the first end is offered a unit up to some round.
fn offered_up_to(alloc: Global, last: u16, rounds: u16) -> Result<Vec<PairEvent>, NoMemory> {
    let mut events = Vec::new(alloc);
    for number in 0..rounds {
        if number < last {
            offer(&mut events, number)?;
        }
        round(&mut events, number + 1)?;
    }
    Ok(events)
}

// Such a run, where units are discarded at an age of so many ticks, 0 for never.
fn ran(
    alloc: Global,
    discard_age: u16,
    last: u16,
    rounds: u16,
) -> Result<Option<PairEnd>, NoMemory> {
    let octets = numbered(alloc, last)?;
    let events = offered_up_to(alloc, last, rounds)?;
    if !are_inside(&octets, &events) {
        return Ok(None);
    }
    let ended = run_pair(alloc, &setup(discard_age), &octets, &events)?;
    Ok(Some(ended))
}

// The number with which a unit begins, where the unit is whole.
pub fn number(unit: &[u8]) -> Option<u32> {
    let [high, low, rest @ ..] = unit else {
        return None;
    };
    if rest != [0x5a; 13].as_slice() {
        return None;
    }
    Some(256 * u32::from(*high) + u32::from(*low))
}

// The units that are handed up at the second end are whole, and their numbers rise.
fn rises(ended: &PairEnd) -> bool {
    let mut least = 0;
    for i in 0..ended.handed(End::Second) {
        match number(ended.unit(End::Second, i)) {
            Some(number) if number >= least => least = number.saturating_add(1),
            _ => return false,
        }
    }
    true
}

// So many units are accepted and handed up in order, each once, and none is discarded.
fn delivers(ended: &PairEnd, count: usize) -> bool {
    ended.accepted(End::First) == count
        && ended.handed(End::Second) == count
        && ended.handed(End::First) == 0
        && ended.discarded(End::First) == 0
        && rises(ended)
}

// A unit is offered in each round until 5,000 were accepted, which takes 7,405 rounds: the others find the buffer full.
#[test]
fn offered_until_enough_are_accepted(rt: HostRuntime) -> Result<(), Fail> {
    for (last, count) in [(7404, 4999), (7405, 5000)] {
        let ended = ran(rt.alloc(), 0, last, 20000)?;
        assert!(rt; ended.is_some_and(|ended| delivers(&ended, count)));
    }
    Ok(())
}

// More than 4,096 units are handed up, which is more than there are numbers, and others are discarded.
fn discards(ended: &PairEnd) -> bool {
    let accepted = ended.accepted(End::First) as u64;
    let discarded = ended.discarded(End::First);
    let handed = ended.handed(End::Second) as u64;
    handed > 4096
        && discarded > 0
        && discarded < accepted
        && accepted - discarded <= handed
        && rises(ended)
}

// Units are discarded at an age of five ticks.
#[test]
fn units_are_handed_up_or_discarded(rt: HostRuntime) -> Result<(), Fail> {
    let ended = ran(rt.alloc(), 5, 12000, 13000)?;
    assert!(rt; ended.is_some_and(|ended| discards(&ended)));
    Ok(())
}
