ghost use Rattle.std.specs.Prelude.{◌≡◌, ◌≢◌, ◌≤◌, ◌==◌, IfNone, IfOk, Some, drop, length, nat_lt, true};
ghost use Rattle.dch_bits.specs.declared.offer.Offer.TheVariants.{Accepted};
ghost use Rattle.dch_am.specs.Entities.{Build, Come, Entity, HandUp, IsSmall, IsWritten, Offer as Offers, Tick, after_riding, offers_to_send, opened_entity, pdu_of, step, turn, writes};
ghost use Rattle.dch_am.specs.Restart.{restarted_entity};
ghost use Rattle.dch_am.specs.Rules.{Rules, rules_of};
ghost use Rattle.dch_am.specs.Sender.{Sender, discarded, offered};
ghost use Rattle.dch_amsend.specs.Standing.{IsSame as IsSameSide, Stands};
ghost use Rattle.dch_amsend.specs.SduDiscard.{capped};
ghost use Rattle.dch_sar.specs.Taking.{handed_of, written};
ghost use Rattle.dch_pair.specs.Answers.{built_at, is_refused, is_refused_riding, received, riding_answer, waiting};
ghost use Rattle.dch_pair.specs.EntityStanding.{AreSizes, IsSame, Represents, available_in, is_due, is_settled, size_in, size_of, waiting_in};

use crate::answers::{Built, Received};
use dch_am::StatusTaken;
use dch_amrecv::AmRecv;
use dch_amsend::AmSend;
use dch_bits::{NoMemory, Offer};
use dch_rlcpdu::{AmView, Handed, StatusView};
use dch_types::AmRules;
use std::alloc::Global;
use std::marker::Model;

/// An entity of the acknowledged mode. All memory is taken when it is opened.
pub struct AmEntity {
    sender: AmSend,
    receiver: AmRecv,
    size: usize,
}

// By hand, so that whoever holds one drops it by one call.
impl Drop for AmEntity {
    fn drop(self) {
        let AmEntity {
            sender: _sender,
            receiver: _receiver,
            size: _size,
        } = self;
    }
}

impl Model for AmEntity {
    ghost use Rattle.std.specs.Prelude.{◌≡◌, ◌≤◌};
    ghost use Rattle.dch_pair.specs.EntityStanding.{Running};

    ghost Value = { Running };

    ghost view = { λ v. record { sender = v.sender; receiver = v.receiver } };

    ghost invariant = { λ v. (v.receiver.reply ≡ v.sender.outgoing.size) × (v.size ≡ v.sender.outgoing.size) ×
        (6 ≤ v.size) × (v.size ≤ 126) };
}

impl AmEntity {
    /// An entity that has accepted no unit and that no PDU has come to. It writes PDUs of `pdu` octets, 6 to 126, and
    /// PDUs of at most `comes` octets come to it, at most 126. Units hold at most `buffer` blocks of 64 octets, 1 to
    /// 4,096.
    pub fn open(
        alloc: Global,
        pdu: usize,
        comes: usize,
        buffer: u16,
        rules: AmRules,
    ) -> Result<AmEntity, NoMemory>
        requires least { 6 ≤ pdu }
        requires most { pdu ≤ 126 }
        requires comes { comes ≤ 126 }
        requires window { rules.window ≤ 2048 }
        ensures size { IfOk result (λ v. size_of v ≡ pdu) }
        ensures comes { IfOk result (λ v. size_in v ≡ comes) }
        ensures settled { IfOk result (λ v. is_settled v ≡ true) }
        ensures stands { IfOk result (λ v. Represents (rules_of buffer rules) v
            (opened_entity (rules_of buffer rules))) }
    {
        let sender = AmSend::open(alloc, pdu, buffer, rules)?;
        let receiver = AmRecv::open(alloc, comes, pdu, rules)?;
        Ok(AmEntity {
            sender,
            receiver,
            size: pdu,
        })
    }

    /// How many octets the PDUs have that it writes, 6 to 126.
    pub fn size(&self) -> usize
        ensures value { result ≡ size_of self.now }
        ensures least { 6 ≤ result }
        ensures most { result ≤ 126 }
    {
        self.size
    }

    /// Offers a unit (TS 25.322 11.3.2).
    pub fn offer(&mut self, unit: &[u8]) -> Offer
        ensures answer { (rules : Rules) (e : Entity) → Represents rules self.old e →
            result ≡ offered rules e.sender unit.now }
        ensures refused { result ≢ Accepted → self.new ≡ self.old }
        ensures stands { (rules : Rules) (e : Entity) → Represents rules self.old e →
            Represents rules self.new (step rules (size_of self.old) e (Offers unit.now)) }
        ensures same { IsSame self.old self.new }
    {
        self.sender.offer(unit)
    }

    /// One tick of 10 ms.
    pub fn tick(&mut self)
        ensures stands { (rules : Rules) (e : Entity) → Represents rules self.old e →
            Represents rules self.new (step rules (size_of self.old) e Tick) }
        ensures same { IsSame self.old self.new }
    {
        self.sender.tick();
        self.receiver.tick();
    }

    /// How many PDUs it offers to send: one each for a due status and a due MRW, and the data PDUs that could be built
    /// one after another, with no other event between, at most 64.
    pub fn available(&self) -> u16
        ensures value { result ≡ available_in self.now }
        ensures due { nat_lt 0 result ≡ is_due self.now }
        ensures answer { (rules : Rules) (e : Entity) → Represents rules self.now e →
            result ≡ offers_to_send rules (size_of self.now) e }
    {
        u16::from(self.receiver.status_due())
            + u16::from(self.sender.control_due())
            + self.sender.available()
    }

    /// There is something to build.
    pub fn is_due(&self) -> bool
        ensures value { result ≡ is_due self.now }
        ensures answer { (rules : Rules) (e : Entity) → Represents rules self.now e →
            result ≡ writes (turn rules e.sender e.receiver) }
    {
        self.receiver.status_due() || self.sender.control_due() || self.sender.is_due()
    }

    /// Builds what is due: a status, else an MRW, else a data PDU.
    pub fn build(&mut self, out: &mut [u8]) -> Built
        requires due { is_due self.old ≡ true }
        requires size { length out.old ≡ size_of self.old }
        ensures answer { (rules : Rules) (e : Entity) → Represents rules self.old e →
            Some result ≡ built_at (turn rules e.sender e.receiver) }
        ensures written { (rules : Rules) (e : Entity) → Represents rules self.old e →
            IsWritten (turn rules e.sender e.receiver) rules (size_of self.old) out.new e.sender e.receiver }
        ensures stands { (rules : Rules) (e : Entity) → Represents rules self.old e →
            Represents rules self.new (step rules (size_of self.old) e Build) }
        ensures same { IsSame self.old self.new }
    {
        self.write(out)
    }

    fn write(&mut self, out: &mut [u8]) -> Built
        requires due { is_due self.old ≡ true }
        requires size { length out.old ≡ size_of self.old }
        ensures history { (rules : Rules) (e : Entity) → Represents rules self.old e →
            (Some result ≡ built_at (turn rules e.sender e.receiver)) ×
            IsWritten (turn rules e.sender e.receiver) rules (size_of self.old) out.new e.sender e.receiver
            × Represents rules self.new (step rules (size_of self.old) e Build) }
        ensures same { IsSame self.old self.new }
    {
        if self.receiver.status_due() {
            self.receiver.write_status(out);
            return Built::Status;
        }
        if self.sender.control_due() {
            self.sender.write_control(out);
            return Built::Mrw;
        }
        self.sender.build(out);
        Built::Data
    }

    /// Takes a PDU that was read: a data PDU, and then the status behind its units, or a status, of which the sending
    /// side hears first. All units that ended before it have been handed up.
    pub fn receive(&mut self, view: &AmView<'_>) -> Received
        requires settled { is_settled self.old ≡ true }
        requires small { IsSmall (size_in self.old) view.now }
        ensures answer { (rules : Rules) (e : Entity) → Represents rules self.old e →
            result ≡ received rules e (pdu_of view.now) }
        ensures refused { is_refused result ≡ true → self.new ≡ self.old }
        ensures stands { (rules : Rules) (e : Entity) → Represents rules self.old e →
            Represents rules self.new (step rules (size_of self.old) e (Come (pdu_of view.now))) }
        ensures sizes { AreSizes self.old self.new }
    {
        match view {
            AmView::Payload {
                sn,
                poll,
                body,
                piggyback,
            } => {
                let taken = self.receiver.pdu(*sn, *poll, body);
                let piggyback = hear(&mut self.sender, piggyback);
                Received::Data { taken, piggyback }
            }
            AmView::Status(status) => {
                let heard = self.sender.status(status);
                let mrw = self.receiver.control(status);
                Received::Control { status: heard, mrw }
            }
            AmView::Reset { rsn, .. } => Received::Reset { rsn: *rsn },
            AmView::ResetAck { rsn, .. } => Received::ResetAck { rsn: *rsn },
        }
    }

    /// No unit that ended waits.
    pub fn settled(&self) -> bool
        ensures value { result ≡ is_settled self.now }
        ensures answer { (rules : Rules) (e : Entity) → Represents rules self.now e →
            result ≡ (length (waiting e) == 0) }
    {
        self.receiver.settled()
    }

    /// Hands up the first unit that waits, at the front of `out`, which has 1,500 octets. A unit of more octets is
    /// overlong.
    pub fn next_unit(&mut self, out: &mut [u8]) -> Option<Handed>
        requires { length out.old ≡ 1500 }
        ensures first { result ≡ handed_of (waiting_in self.old) }
        ensures written { out.new ≡ written (waiting_in self.old) out.old }
        ensures rest { waiting_in self.new ≡ drop 1 (waiting_in self.old) }
        ensures none { IfNone result (self.new ≡ self.old) }
        ensures answer { (rules : Rules) (e : Entity) → Represents rules self.old e → result ≡ handed_of (waiting e) }
        ensures unit { (rules : Rules) (e : Entity) → Represents rules self.old e →
            out.new ≡ written (waiting e) out.old }
        ensures stands { (rules : Rules) (e : Entity) → Represents rules self.old e →
            Represents rules self.new (step rules (size_of self.old) e HandUp) }
        ensures sizes { AreSizes self.old self.new }
    {
        self.receiver.next_unit(out)
    }

    /// Both sides begin anew, as after a reset (TS 25.322 11.4): the sending side with the units of which no octet was
    /// built, the receiving side as at opening. All units that ended have been handed up.
    pub fn restart(&mut self)
        requires settled { is_settled self.old ≡ true }
        ensures stands { (rules : Rules) (e : Entity) → Represents rules self.old e →
            Represents rules self.new (restarted_entity rules e) }
        ensures same { IsSame self.old self.new }
    {
        self.sender.restart();
        self.receiver.restart();
    }

    /// How many units were discarded since opening. The count ends at the greatest number.
    pub fn discarded(&self) -> u64
        ensures { (rules : Rules) (e : Entity) → Represents rules self.now e → result ≡ capped (discarded e.sender) }
    {
        self.sender.discarded()
    }

    /// Gives all memory back.
    pub fn close(self) {}
}

/// A sender hears the status that rides on a data PDU, where there is one.
fn hear(sender: &mut AmSend, piggyback: &Option<StatusView<'_>>) -> Option<StatusTaken>
    ensures answer { (rules : Rules) (s : Sender) → Stands rules sender.old s →
        result ≡ riding_answer rules piggyback.now s }
    ensures refused { is_refused_riding result ≡ true → sender.new ≡ sender.old }
    ensures stands { (rules : Rules) (s : Sender) → Stands rules sender.old s →
        Stands rules sender.new (after_riding rules piggyback.now s) }
    ensures same { IsSameSide sender.old sender.new }
{
    match piggyback {
        Some(status) => Some(sender.status(status)),
        None => None,
    }
}
