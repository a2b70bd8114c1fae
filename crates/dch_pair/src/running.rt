ghost use Rattle.std.specs.Prelude.{◌≡◌, ◌+◌, ◌<◌, ◌≤◌, ◌^◌, ◌∷◌, [], IfOk};
ghost use Rattle.dch_am.specs.Rules.{Rules};
ghost use Rattle.dch_amlaw.specs.Pair.{Build, Far, Near, Pair, after};
ghost use Rattle.dch_pair.specs.Running.{IsInside, by_first, end_of, fate, pair_after, rules_in, seen};
ghost use Rattle.dch_pair.specs.Standing.{AreRunning, AreSame, size_in, size_of};

use crate::peer::Peer;
use crate::setup::{End, PairEvent, PairSetup};
use dch_bits::NoMemory;
use std::alloc::Global;
use std::marker::Model;

/// The most octets of a PDU.
const LONGEST_PDU: usize = 126;

/// Two entities, of which each takes the PDUs of the other.
#[derive(Drop)]
pub struct Running {
    pub first: Peer,
    pub second: Peer,
}

impl Model for Running {
    ghost use Rattle.std.specs.Prelude.{◌≡◌};
    ghost use Rattle.dch_pair.specs.Standing.{Running, size_in, size_of};

    ghost Value = { Running };

    ghost view = { λ v. record { first = v.first; second = v.second } };

    ghost invariant = { λ v. (size_in v.second ≡ size_of v.first) × (size_in v.first ≡ size_of v.second) };
}

impl Running {
    /// At opening.
    pub fn open(alloc: Global, setup: &PairSetup) -> Result<Running, NoMemory>
        requires first { (6 ≤ setup.now.first_pdu) × (setup.now.first_pdu ≤ 126) }
        requires second { (6 ≤ setup.now.second_pdu) × (setup.now.second_pdu ≤ 126) }
        requires window { setup.now.rules.window ≤ 2048 }
        ensures first { IfOk result (λ v. v.first.accepted ≡ 0) }
        ensures second { IfOk result (λ v. v.second.accepted ≡ 0) }
        ensures history { IfOk result (λ v. AreRunning (rules_in setup.now) v.first v.second
            (pair_after setup.now [])) }
    {
        let (one, other) = (setup.first_pdu, setup.second_pdu);
        let first = Peer::open(alloc, one, other, setup.buffer, setup.rules)?;
        let second = Peer::open(alloc, other, one, setup.buffer, setup.rules)?;
        Ok(Running { first, second })
    }

    /// One event.
    pub fn happen(&mut self, octets: &[u8], event: PairEvent) -> Result<(), NoMemory>
        requires inside { IsInside octets.now event }
        requires first { self.old.first.accepted + 1 < 2 ^ 64 }
        requires second { self.old.second.accepted + 1 < 2 ^ 64 }
        ensures first { self.new.first.accepted ≤ self.old.first.accepted + 1 }
        ensures second { self.new.second.accepted ≤ self.old.second.accepted + 1 }
        ensures history { IfOk result (λ _. (rules : Rules) (p : Pair) →
            AreRunning rules self.old.first self.old.second p →
            AreRunning rules self.new.first self.new.second (after rules p (by_first (end_of event)
            (seen octets.now event)))) }
    {
        match side(event) {
            End::First => happen_at(&mut self.first, &mut self.second, octets, event),
            End::Second => happen_at(&mut self.second, &mut self.first, octets, event),
        }
    }
}

/// The end at which it is done.
fn side(event: PairEvent) -> End
    ensures { result ≡ end_of event }
{
    match event {
        PairEvent::Offer { end, .. } => end,
        PairEvent::Build { end, .. } => end,
        PairEvent::Tick { end } => end,
    }
}

/// What is done at one of two ends.
fn happen_at(
    near: &mut Peer,
    far: &mut Peer,
    octets: &[u8],
    event: PairEvent,
) -> Result<(), NoMemory>
    requires inside { IsInside octets.now event }
    requires room { near.old.accepted + 1 < 2 ^ 64 }
    requires fits { size_in far.old ≡ size_of near.old }
    ensures near_same { AreSame near.old near.new }
    ensures far_same { AreSame far.old far.new }
    ensures near_count { near.new.accepted ≤ near.old.accepted + 1 }
    ensures far_count { far.new.accepted ≡ far.old.accepted }
    ensures history { IfOk result (λ _. (rules : Rules) (p : Pair) → AreRunning rules near.old far.old p →
        AreRunning rules near.new far.new (after rules p (seen octets.now event))) }
{
    match event {
        PairEvent::Offer { from, len, .. } => {
            near.offer(&octets[from..from + len]);
            Ok(())
        }
        PairEvent::Build { arrives, .. } => build(near, far, arrives),
        PairEvent::Tick { .. } => {
            near.tick();
            Ok(())
        }
    }
}

/// What is due is built, and arrives at once or is lost.
fn build(near: &mut Peer, far: &mut Peer, arrives: bool) -> Result<(), NoMemory>
    requires fits { size_in far.old ≡ size_of near.old }
    ensures near_same { AreSame near.old near.new }
    ensures far_same { AreSame far.old far.new }
    ensures near_count { near.new.accepted ≡ near.old.accepted }
    ensures far_count { far.new.accepted ≡ far.old.accepted }
    ensures history { IfOk result (λ _. (rules : Rules) (p : Pair) → AreRunning rules near.old far.old p →
        AreRunning rules near.new far.new (after rules p (Near Build ∷ Far (fate arrives) ∷ []))) }
{
    let mut room = [0; LONGEST_PDU];
    let out = &mut room[..near.size()];
    if near.build(out) && arrives {
        return far.receive(out);
    }
    Ok(())
}
