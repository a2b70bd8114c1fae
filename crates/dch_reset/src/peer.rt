ghost use Rattle.std.specs.Prelude.{◌≡◌, ◌+◌, ◌<◌, ◌≤◌, ◌^◌, IfOk, is_some, length, true};
ghost use Rattle.dch_am.specs.Rules.{Rules, rules_of};
ghost use Rattle.dch_amsend.specs.SduDiscard.{capped};
ghost use Rattle.dch_pair.specs.Standing.{whole};
ghost use Rattle.dch_reset.specs.Ends.{ResetEnd as End, Sent, builds, hears, offers, opened_reset_end, resets, ticks};
ghost use Rattle.dch_reset.specs.Law.{handed};
ghost use Rattle.dch_reset.specs.RunStanding.{AreSame, IsPeer, IsRead, IsSent, size_in, size_of};

use crate::end::ResetEnd;
use dch_bits::{NoMemory, Offer};
use dch_pair::Store;
use dch_types::AmRules;
use std::alloc::Global;
use std::marker::Model;

/// An end that can be reset, the count of the units that it has accepted, and the units that it has handed up.
#[derive(Drop)]
pub struct Peer {
    end: ResetEnd,
    accepted: usize,
    units: Store,
}

impl Model for Peer {
    ghost use Rattle.std.specs.Prelude.{◌≡◌, true};
    ghost use Rattle.dch_reset.specs.Standing.{is_settled};
    ghost use Rattle.dch_reset.specs.RunStanding.{Peer};

    ghost Value = { Peer };

    ghost view = { λ v. record { end = v.end; accepted = v.accepted; units = v.units } };

    ghost invariant = { λ v. is_settled v.end ≡ true };
}

/// What an end has done: how many units it accepted, how often it restarted, and the units that it handed up.
#[derive(Drop)]
pub struct Record {
    pub accepted: usize,
    pub restarts: u64,
    pub units: Store,
}

impl Peer {
    /// At opening. It writes PDUs of `size` octets, and PDUs of `comes` octets come to it, each 6 to 126.
    pub fn open(
        alloc: Global,
        size: usize,
        comes: usize,
        buffer: u16,
        rules: AmRules,
    ) -> Result<Peer, NoMemory>
        requires least { 6 ≤ size }
        requires most { size ≤ 126 }
        requires comes { comes ≤ 126 }
        requires window { rules.window ≤ 2048 }
        ensures size { IfOk result (λ v. size_of v ≡ size) }
        ensures comes { IfOk result (λ v. size_in v ≡ comes) }
        ensures count { IfOk result (λ v. v.accepted ≡ 0) }
        ensures history { IfOk result (λ v. IsPeer (rules_of buffer rules) v
            (opened_reset_end (rules_of buffer rules) size)) }
    {
        let end = ResetEnd::open(alloc, size, comes, buffer, rules)?;
        Ok(Peer {
            end,
            accepted: 0,
            units: Store::new(alloc),
        })
    }

    /// How many octets the PDUs have that it writes, 6 to 126.
    pub fn size(&self) -> usize
        ensures value { result ≡ size_of self.now }
        ensures least { 6 ≤ result }
        ensures most { result ≤ 126 }
    {
        self.end.size()
    }

    /// Offers a unit.
    pub fn offer(&mut self, unit: &[u8])
        requires room { self.old.accepted + 1 < 2 ^ 64 }
        ensures same { AreSame self.old self.new }
        ensures count { self.new.accepted ≤ self.old.accepted + 1 }
        ensures history { (rules : Rules) (e : End) → IsPeer rules self.old e →
            IsPeer rules self.new (offers rules e unit.now) }
    {
        match self.end.offer(unit) {
            Offer::Accepted => self.accepted += 1,
            Offer::Full | Offer::WrongSize => {}
        }
    }

    /// Begins a reset, unless it is pending.
    pub fn reset(&mut self)
        ensures same { AreSame self.old self.new }
        ensures count { self.new.accepted ≡ self.old.accepted }
        ensures history { (rules : Rules) (e : End) → IsPeer rules self.old e → IsPeer rules self.new (resets e) }
    {
        self.end.reset()
    }

    /// Writes what is due, and tells whether there was something to write.
    pub fn build(&mut self, out: &mut [u8]) -> bool
        requires size { length out.old ≡ size_of self.old }
        ensures size { length out.new ≡ size_of self.old }
        ensures same { AreSame self.old self.new }
        ensures count { self.new.accepted ≡ self.old.accepted }
        ensures due { (rules : Rules) (e : End) → IsPeer rules self.old e → result ≡ is_some (builds rules e).sent }
        ensures sent { (rules : Rules) (e : End) → IsPeer rules self.old e → result ≡ true →
            IsSent out.new (builds rules e).sent }
        ensures history { (rules : Rules) (e : End) → IsPeer rules self.old e →
            IsPeer rules self.new (builds rules e).after }
    {
        if !self.end.due() {
            return false;
        }
        self.end.build(out);
        true
    }

    /// Takes a PDU of the other end. Units that end are handed up.
    pub fn receive(&mut self, p: &[u8]) -> Result<(), NoMemory>
        requires size { length p.now ≤ size_in self.old }
        ensures same { AreSame self.old self.new }
        ensures count { self.new.accepted ≡ self.old.accepted }
        ensures history { IfOk result (λ _. (rules : Rules) (e : End) (s : Sent) → IsPeer rules self.old e →
            IsRead p.now s → IsPeer rules self.new (hears rules e s)) }
    {
        self.end.pdu(p);
        self.end.hand_up(&mut self.units)
    }

    /// One tick of 10 ms.
    pub fn tick(&mut self)
        ensures same { AreSame self.old self.new }
        ensures count { self.new.accepted ≡ self.old.accepted }
        ensures history { (rules : Rules) (e : End) → IsPeer rules self.old e → IsPeer rules self.new (ticks rules e) }
    {
        self.end.tick()
    }

    /// What it has done. All other memory is given back.
    pub fn close(self) -> Record
        ensures accepted { (rules : Rules) (e : End) → IsPeer rules self e → result.accepted ≡ length e.accepted }
        ensures restarts { (rules : Rules) (e : End) → IsPeer rules self e → result.restarts ≡ capped e.restarts }
        // those of at most 1,500 octets
        ensures units { (rules : Rules) (e : End) → IsPeer rules self e → result.units ≡ whole (handed e) }
    {
        Record {
            accepted: self.accepted,
            restarts: self.end.restarts(),
            units: self.units,
        }
    }
}
