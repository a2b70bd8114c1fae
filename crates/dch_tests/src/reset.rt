use crate::pair::{number, numbered, setup};
use dch_bits::NoMemory;
use dch_pair::End;
use dch_reset::{ResetEvent, ResetRun, are_inside, run_reset};
use std::alloc::Global;
use std::test::Fail;

// A run over units of 15 octets, each of which begins with its number.
fn ran(alloc: Global, units: u16, events: &[ResetEvent]) -> Result<Option<ResetRun>, NoMemory> {
    let octets = numbered(alloc, units)?;
    if !are_inside(&octets, events) {
        return Ok(None);
    }
    let ended = run_reset(alloc, &setup(0), &octets, events)?;
    Ok(Some(ended))
}

// Both ends reset before either RESET arrives, and the first one was offered a unit.
const BOTH_RESET: [ResetEvent; 13] = [
    ResetEvent::Offer {
        end: End::First,
        from: 0,
        len: 15,
    },
    ResetEvent::Reset { end: End::First },
    ResetEvent::Build { end: End::First },
    ResetEvent::Reset { end: End::Second },
    ResetEvent::Build { end: End::Second },
    ResetEvent::Arrive { to: End::Second },
    ResetEvent::Arrive { to: End::First },
    ResetEvent::Build { end: End::First },
    ResetEvent::Arrive { to: End::Second },
    ResetEvent::Build { end: End::Second },
    ResetEvent::Arrive { to: End::First },
    ResetEvent::Build { end: End::First },
    ResetEvent::Arrive { to: End::Second },
];

// Each end restarted twice, and the unit was handed up.
fn hands_one_up(ended: &ResetRun) -> bool {
    ended.restarts(End::First) == 2
        && ended.restarts(End::Second) == 2
        && ended.accepted(End::First) == 1
        && ended.accepted(End::Second) == 0
        && ended.handed(End::First) == 0
        && ended.handed(End::Second) == 1
        && number(ended.unit(End::Second, 0)) == Some(0)
}

#[test]
fn a_run_in_which_both_ends_reset(rt: HostRuntime) -> Result<(), Fail> {
    let ended = ran(rt.alloc(), 1, &BOTH_RESET)?;
    assert!(rt; ended.is_some_and(|ended| hands_one_up(&ended)));
    Ok(())
}

// A unit is offered at an end, what is due is built, and four ticks pass.
fn work(events: &mut Vec<ResetEvent>, end: End, unit: u16) -> Result<(), NoMemory> {
    events.push(ResetEvent::Offer {
        end,
        from: 15 * unit as usize,
        len: 15,
    })?;
    events.push(ResetEvent::Build { end })?;
    for _ in 0..4 {
        events.push(ResetEvent::Tick { end })?;
    }
    Ok(())
}

// A block arrives at an end. Every fifth one is lost.
fn arrive(events: &mut Vec<ResetEvent>, to: End, block: u32) -> Result<(), NoMemory> {
    let event = if block % 5 == 0 {
        ResetEvent::Lose { to }
    } else {
        ResetEvent::Arrive { to }
    };
    events.push(event)?;
    Ok(())
}

// Both ends work, and what they have built arrives. The first end resets in every seventh round, and so does the second
// one.
fn round(events: &mut Vec<ResetEvent>, number: u16) -> Result<(), NoMemory> {
    if number % 7 == 0 {
        events.push(ResetEvent::Reset { end: End::First })?;
    }
    if number % 7 == 3 {
        events.push(ResetEvent::Reset { end: End::Second })?;
    }
    work(events, End::First, number)?;
    work(events, End::Second, number)?;
    arrive(events, End::Second, 2 * u32::from(number))?;
    arrive(events, End::First, 2 * u32::from(number) + 1)
}

fn rounds(alloc: Global, count: u16) -> Result<Vec<ResetEvent>, NoMemory> {
    let mut events = Vec::new(alloc);
    for number in 0..count {
        round(&mut events, number)?;
    }
    Ok(events)
}

// The units that are handed up at an end are whole, and their numbers rise.
fn rises(ended: &ResetRun, end: End) -> bool {
    let mut least = 0;
    for i in 0..ended.handed(end) {
        match number(ended.unit(end, i)) {
            Some(number) if number >= least => least = number.saturating_add(1),
            _ => return false,
        }
    }
    true
}

// 500 units or more come through in each direction, and both ends have restarted as often, or one of them once more.
fn delivers(ended: &ResetRun) -> bool {
    let (first, second) = (ended.restarts(End::First), ended.restarts(End::Second));
    first >= 1000
        && first.abs_diff(second) <= 1
        && ended.handed(End::First) >= 500
        && ended.handed(End::Second) >= 500
        && rises(ended, End::First)
        && rises(ended, End::Second)
}

// 100,000 events, of which 1,000 are resets of the first end and 1,000 of the second one.
#[test]
fn units_stay_in_order_across_resets(rt: HostRuntime) -> Result<(), Fail> {
    let events = rounds(rt.alloc(), 7000)?;
    let ended = ran(rt.alloc(), 7000, &events)?;
    assert!(rt; events.len() == 100000);
    assert!(rt; ended.is_some_and(|ended| delivers(&ended)));
    Ok(())
}
