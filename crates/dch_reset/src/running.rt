ghost use Rattle.std.specs.Prelude.{◌≡◌, ◌+◌, ◌<◌, ◌≤◌, ◌^◌, [], IfOk, List, ℕ};
ghost use Rattle.dch_am.specs.Rules.{Rules};
ghost use Rattle.dch_pair.specs.Running.{rules_in};
ghost use Rattle.dch_reset.specs.Ends.{Arrive, Build, ResetPair, happens, happens_near};
ghost use Rattle.dch_reset.specs.Running.{IsInside, end_of, event_of, pair_after, seen};
ghost use Rattle.dch_reset.specs.RunStanding.{AreRunning, AreSame, Fit, Peer as PeerValue, size_in, size_of};

use crate::line::Line;
use crate::peer::Peer;
use crate::setup::ResetEvent;
use dch_bits::NoMemory;
use dch_pair::{End, PairSetup};
use std::alloc::Global;
use std::marker::Model;

/// Two ends that can be reset, and the blocks in flight to each.
#[derive(Drop)]
pub struct Running {
    pub first: Peer,
    pub second: Peer,
    pub to_first: Line,
    pub to_second: Line,
}

impl Model for Running {
    ghost use Rattle.std.specs.Prelude.{◌≡◌};
    ghost use Rattle.dch_reset.specs.RunStanding.{Fit, Running, size_in, size_of};

    ghost Value = { Running };

    ghost view = { λ v. record { first = v.first; second = v.second; to_first = v.to_first; to_second = v.to_second } };

    ghost invariant = { λ v. (size_in v.second ≡ size_of v.first) × (size_in v.first ≡ size_of v.second) ×
        Fit (size_in v.first) v.to_first × Fit (size_in v.second) v.to_second };
}

impl Running {
    /// At opening. No block is in flight.
    pub fn open(alloc: Global, setup: &PairSetup) -> Result<Running, NoMemory>
        requires first { (6 ≤ setup.now.first_pdu) × (setup.now.first_pdu ≤ 126) }
        requires second { (6 ≤ setup.now.second_pdu) × (setup.now.second_pdu ≤ 126) }
        requires window { setup.now.rules.window ≤ 2048 }
        ensures first { IfOk result (λ v. v.first.accepted ≡ 0) }
        ensures second { IfOk result (λ v. v.second.accepted ≡ 0) }
        ensures history { IfOk result (λ v. AreRunning (rules_in setup.now) v.first v.second v.to_second v.to_first
            (pair_after setup.now [])) }
    {
        let (one, other) = (setup.first_pdu, setup.second_pdu);
        let first = Peer::open(alloc, one, other, setup.buffer, setup.rules)?;
        let second = Peer::open(alloc, other, one, setup.buffer, setup.rules)?;
        Ok(Running {
            first,
            second,
            to_first: Line::new(alloc),
            to_second: Line::new(alloc),
        })
    }

    /// One event.
    pub fn happen(&mut self, octets: &[u8], event: ResetEvent) -> Result<(), NoMemory>
        requires inside { IsInside octets.now event }
        requires first { self.old.first.accepted + 1 < 2 ^ 64 }
        requires second { self.old.second.accepted + 1 < 2 ^ 64 }
        ensures first { self.new.first.accepted ≤ self.old.first.accepted + 1 }
        ensures second { self.new.second.accepted ≤ self.old.second.accepted + 1 }
        ensures history { IfOk result (λ _. (rules : Rules) (p : ResetPair) →
            AreRunning rules self.old.first self.old.second self.old.to_second self.old.to_first p →
            AreRunning rules self.new.first self.new.second self.new.to_second self.new.to_first
            (happens rules p (seen octets.now event))) }
    {
        match side(event) {
            End::First => happen_at(
                &mut self.first,
                &mut self.to_second,
                &mut self.to_first,
                octets,
                event,
            ),
            End::Second => happen_at(
                &mut self.second,
                &mut self.to_first,
                &mut self.to_second,
                octets,
                event,
            ),
        }
    }
}

/// The end at which it is done.
fn side(event: ResetEvent) -> End
    ensures { result ≡ end_of event }
{
    match event {
        ResetEvent::Offer { end, .. } => end,
        ResetEvent::Build { end } => end,
        ResetEvent::Arrive { to } => to,
        ResetEvent::Lose { to } => to,
        ResetEvent::Tick { end } => end,
        ResetEvent::Reset { end } => end,
    }
}

/// What is done at one of two ends, with the blocks in flight from it and to it.
fn happen_at(
    near: &mut Peer,
    out: &mut Line,
    back: &mut Line,
    octets: &[u8],
    event: ResetEvent,
) -> Result<(), NoMemory>
    requires inside { IsInside octets.now event }
    requires room { near.old.accepted + 1 < 2 ^ 64 }
    requires out { Fit (size_of near.old) out.old }
    requires back { Fit (size_in near.old) back.old }
    ensures same { AreSame near.old near.new }
    ensures count { near.new.accepted ≤ near.old.accepted + 1 }
    ensures out { Fit (size_of near.old) out.new }
    ensures back { Fit (size_in near.old) back.new }
    ensures history { IfOk result (λ _. (rules : Rules) (far : PeerValue) (p : ResetPair) →
        AreRunning rules near.old far out.old back.old p →
        AreRunning rules near.new far out.new back.new (happens_near rules p (event_of octets.now event))) }
{
    match event {
        ResetEvent::Offer { from, len, .. } => near.offer(&octets[from..from + len]),
        ResetEvent::Build { .. } => return build(near, out),
        ResetEvent::Arrive { .. } => return arrive(near, back),
        ResetEvent::Lose { .. } => {
            back.pop();
        }
        ResetEvent::Tick { .. } => near.tick(),
        ResetEvent::Reset { .. } => near.reset(),
    }
    Ok(())
}

/// What is due is built, and is in flight behind the others.
fn build(near: &mut Peer, out: &mut Line) -> Result<(), NoMemory>
    requires fit { Fit (size_of near.old) out.old }
    ensures fit { Fit (size_of near.old) out.new }
    ensures same { AreSame near.old near.new }
    ensures count { near.new.accepted ≡ near.old.accepted }
    ensures history { IfOk result (λ _. (rules : Rules) (far : PeerValue) (back : List (List ℕ)) (p : ResetPair) →
        AreRunning rules near.old far out.old back p →
        AreRunning rules near.new far out.new back (happens_near rules p Build)) }
{
    let mut room = [0; 126];
    let block = &mut room[..near.size()];
    if near.build(block) {
        return out.push(block);
    }
    Ok(())
}

/// The first block in flight to an end arrives.
fn arrive(near: &mut Peer, back: &mut Line) -> Result<(), NoMemory>
    requires fit { Fit (size_in near.old) back.old }
    ensures fit { Fit (size_in near.old) back.new }
    ensures same { AreSame near.old near.new }
    ensures count { near.new.accepted ≡ near.old.accepted }
    ensures history { IfOk result (λ _. (rules : Rules) (far : PeerValue) (out : List (List ℕ)) (p : ResetPair) →
        AreRunning rules near.old far out back.old p →
        AreRunning rules near.new far out back.new (happens_near rules p Arrive)) }
{
    match back.pop() {
        Some(block) => near.receive(&block),
        None => Ok(()),
    }
}
