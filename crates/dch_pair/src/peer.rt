ghost use Rattle.std.specs.Prelude.{◌≡◌, ◌+◌, ◌<◌, ◌≤◌, ◌^◌, ◌++◌, IfOk, drop, false, length, take, true};
ghost use Rattle.dch_am.specs.Entities.{Build, Entity, HandUp, IsWritten, Offer as Offers, Tick, opened_entity, step, turn, writes};
ghost use Rattle.dch_am.specs.Rules.{Rules, rules_of};
ghost use Rattle.dch_am.specs.Sender.{discarded};
ghost use Rattle.dch_amsend.specs.SduDiscard.{capped};
ghost use Rattle.dch_rlcpdu.specs.Am.{am_reading};
ghost use Rattle.dch_amlaw.specs.Pair.{all_handed};
ghost use Rattle.dch_pair.specs.EntityStanding.{AreSizes, Represents, is_settled, waiting_in};
ghost use Rattle.dch_pair.specs.Standing.{AreSame, Earlier, IsPeer, hears, nothing_earlier, size_in, size_of, whole};

use crate::entity::AmEntity;
use crate::store::Store;
use dch_bits::{NoMemory, Offer};
use dch_rlcpdu::{Handed, read_am};
use dch_txbuf::LONGEST_SDU;
use dch_types::AmRules;
use std::alloc::Global;
use std::marker::Model;

/// An entity, the count of the units that it has accepted, and the units that it has handed up.
#[derive(Drop)]
pub struct Peer {
    entity: AmEntity,
    accepted: usize,
    units: Store,
}

impl Model for Peer {
    ghost use Rattle.std.specs.Prelude.{◌≡◌, true};
    ghost use Rattle.dch_pair.specs.EntityStanding.{is_settled};
    ghost use Rattle.dch_pair.specs.Standing.{Peer};

    ghost Value = { Peer };

    ghost view = { λ v. record { entity = v.entity; accepted = v.accepted; units = v.units } };

    ghost invariant = { λ v. is_settled v.entity ≡ true };
}

/// What an entity has done with units: how many it accepted and discarded, and those that it handed up.
#[derive(Drop)]
pub struct Record {
    pub accepted: usize,
    pub discarded: u64,
    pub units: Store,
}

impl Peer {
    /// At opening. It writes PDUs of `size` octets, and PDUs of `comes` octets come to it, each 6 to 126.
    pub fn open(
        alloc: Global,
        size: usize,
        comes: usize,
        buffer: u16,
        rules: AmRules,
    ) -> Result<Peer, NoMemory>
        requires least { 6 ≤ size }
        requires most { size ≤ 126 }
        requires comes { comes ≤ 126 }
        requires window { rules.window ≤ 2048 }
        ensures size { IfOk result (λ v. size_of v ≡ size) }
        ensures comes { IfOk result (λ v. size_in v ≡ comes) }
        ensures count { IfOk result (λ v. v.accepted ≡ 0) }
        ensures history { IfOk result (λ v. IsPeer (rules_of buffer rules) v nothing_earlier
            (opened_entity (rules_of buffer rules))) }
    {
        let entity = AmEntity::open(alloc, size, comes, buffer, rules)?;
        Ok(Peer {
            entity,
            accepted: 0,
            units: Store::new(alloc),
        })
    }

    /// How many octets the PDUs have that it writes, 6 to 126.
    pub fn size(&self) -> usize
        ensures value { result ≡ size_of self.now }
        ensures least { 6 ≤ result }
        ensures most { result ≤ 126 }
    {
        self.entity.size()
    }

    /// Offers a unit.
    pub fn offer(&mut self, unit: &[u8])
        requires room { self.old.accepted + 1 < 2 ^ 64 }
        ensures same { AreSame self.old self.new }
        ensures count { self.new.accepted ≤ self.old.accepted + 1 }
        ensures history { (rules : Rules) (earlier : Earlier) (e : Entity) → IsPeer rules self.old earlier e →
            IsPeer rules self.new earlier (step rules (size_of self.old) e (Offers unit.now)) }
    {
        match self.entity.offer(unit) {
            Offer::Accepted => self.accepted += 1,
            Offer::Full | Offer::WrongSize => {}
        }
    }

    /// Writes what is due, and tells whether there was something to write.
    pub fn build(&mut self, out: &mut [u8]) -> bool
        requires size { length out.old ≡ size_of self.old }
        ensures same { AreSame self.old self.new }
        ensures count { self.new.accepted ≡ self.old.accepted }
        ensures history { (rules : Rules) (earlier : Earlier) (e : Entity) → IsPeer rules self.old earlier e →
            (result ≡ writes (turn rules e.sender e.receiver)) ×
            IsWritten (turn rules e.sender e.receiver) rules (size_of self.old) out.new e.sender e.receiver
            × IsPeer rules self.new earlier (step rules (size_of self.old) e Build) }
    {
        if !self.entity.is_due() {
            return false;
        }
        self.entity.build(out);
        true
    }

    /// Takes a PDU of the other end. Units that end are handed up.
    pub fn receive(&mut self, p: &[u8]) -> Result<(), NoMemory>
        requires size { length p.now ≤ size_in self.old }
        ensures same { AreSame self.old self.new }
        ensures count { self.new.accepted ≡ self.old.accepted }
        ensures history { IfOk result (λ _. (rules : Rules) (earlier : Earlier) (e : Entity) →
            IsPeer rules self.old earlier e → IsPeer rules self.new earlier (hears rules (size_of self.old)
            (am_reading p.now) e)) }
    {
        match read_am(p) {
            Ok(view) => {
                self.entity.receive(&view);
                hand_up(&mut self.entity, &mut self.units)
            }
            Err(_) => Ok(()),
        }
    }

    /// One tick of 10 ms.
    pub fn tick(&mut self)
        ensures same { AreSame self.old self.new }
        ensures count { self.new.accepted ≡ self.old.accepted }
        ensures history { (rules : Rules) (earlier : Earlier) (e : Entity) → IsPeer rules self.old earlier e →
            IsPeer rules self.new earlier (step rules (size_of self.old) e Tick) }
    {
        self.entity.tick()
    }

    /// What it has done. All other memory is given back.
    pub fn close(self) -> Record
        ensures accepted { (rules : Rules) (earlier : Earlier) (e : Entity) → IsPeer rules self earlier e →
            result.accepted ≡ earlier.accepted + length e.sender.accepted }
        ensures discarded { (rules : Rules) (earlier : Earlier) (e : Entity) → IsPeer rules self earlier e →
            result.discarded ≡ capped (discarded e.sender) }
        // those of at most 1,500 octets
        ensures units { (rules : Rules) (earlier : Earlier) (e : Entity) → IsPeer rules self earlier e →
            result.units ≡ earlier.units ++ whole e.receiver.reading.units }
    {
        Record {
            accepted: self.accepted,
            discarded: self.entity.discarded(),
            units: self.units,
        }
    }
}

/// Hands up all units that wait, of at most 1,500 octets each. They are no longer there even where memory is short.
pub fn hand_up(entity: &mut AmEntity, units: &mut Store) -> Result<(), NoMemory>
    ensures units { IfOk result (λ _. units.new ≡ units.old ++ whole (waiting_in entity.old)) }
    ensures settled { is_settled entity.new ≡ true }
    ensures sizes { AreSizes entity.old entity.new }
    ensures history { (rules : Rules) (e : Entity) → Represents rules entity.old e →
        Represents rules entity.new (all_handed e) }
{
    let mut room = [0; LONGEST_SDU];
    let mut stored = Ok(());
    while !entity.settled() {
        let now = hand_one(entity, units, &mut room);
        if stored.is_ok() {
            stored = now;
        }
    }
    stored
}

/// Hands up the first unit that waits, by a room of 1,500 octets.
fn hand_one(entity: &mut AmEntity, units: &mut Store, room: &mut [u8]) -> Result<(), NoMemory>
    requires some { is_settled entity.old ≡ false }
    requires room { length room.old ≡ 1500 }
    ensures room { length room.new ≡ 1500 }
    ensures unit { IfOk result (λ _. units.new ≡ units.old ++ whole (take 1 (waiting_in entity.old))) }
    ensures rest { waiting_in entity.new ≡ drop 1 (waiting_in entity.old) }
    ensures sizes { AreSizes entity.old entity.new }
    ensures history { (rules : Rules) (e : Entity) → Represents rules entity.old e →
        Represents rules entity.new (step rules 0 e HandUp) }
{
    match entity.next_unit(room) {
        Some(Handed::Whole(size)) => units.push(&room[..size]),
        _ => Ok(()),
    }
}
