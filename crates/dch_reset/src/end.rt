ghost use Rattle.std.specs.Prelude.{◌≡◌, ◌≢◌, ◌≤◌, ◌++◌, ◌==◌, IfNone, IfOk, drop, if◌then◌else◌, is_some, length, true};
ghost use Rattle.dch_bits.specs.declared.offer.Offer.TheVariants.{Accepted};
ghost use Rattle.dch_am.specs.Entities.{IsSmall, ResetAckPdu, ResetPdu, pdu_of};
ghost use Rattle.dch_am.specs.Rules.{Rules, rules_of};
ghost use Rattle.dch_am.specs.Sender.{offered};
ghost use Rattle.dch_pair.specs.Answers.{received, waiting};
ghost use Rattle.dch_pair.specs.Standing.{whole};
ghost use Rattle.dch_amsend.specs.SduDiscard.{capped};
ghost use Rattle.dch_rlcpdu.specs.Am.{am_reading};
ghost use Rattle.dch_sar.specs.Taking.{handed_of, written};
ghost use Rattle.dch_reset.specs.Ends.{is_asked, is_heard};
ghost use Rattle.dch_reset.specs.History.{handed_up};
ghost use Rattle.dch_reset.specs.Answers.{answer, answer_read, came_read, data_answer, entity_answer, is_unread, unless_pending};
ghost use Rattle.dch_reset.specs.Standing.{AreSizes, IsSame, Represents, is_due, is_settled, size_in, size_of, waiting_in};
ghost use Rattle.dch_reset.specs.State.{Build, Come, HandUp, IsWritten, Offer as Offers, Reset, State, Tick, came, opened_state, restarted, step, taken_by, turn, writes};
ghost use Rattle.dch_reset.specs.declared.answers.Got.TheVariants.{Ignored, Repeated, Restarted};

use crate::answers::Got;
use crate::pending::{Pending, REPEAT, is_asked, is_heard};
use dch_am::{MrwTaken, StatusTaken, Taken};
use dch_bits::{NoMemory, Offer};
use dch_pair::{AmEntity, Received, Store, hand_up};
use dch_rlcpdu::{AmView, Handed, read_am, write_reset};
use dch_types::AmRules;
use std::alloc::Global;
use std::marker::Model;

/// One end of a bearer in acknowledged mode that can be reset: an entity since the last restart, the reset that the end
/// has begun, and the last RESET that came. All memory is taken when it is opened.
pub struct ResetEnd {
    entity: AmEntity,
    pending: Option<Pending>,
    next_rsn: bool,
    heard: Option<bool>,
    owes: bool,
    restarts: u64,
    hfni: u32,
}

// By hand, so that whoever holds one drops it by one call.
impl Drop for ResetEnd {
    fn drop(self) {
        let ResetEnd {
            entity: _entity,
            pending: _pending,
            next_rsn: _next_rsn,
            heard: _heard,
            owes: _owes,
            restarts: _restarts,
            hfni: _hfni,
        } = self;
    }
}

impl Model for ResetEnd {
    ghost use Rattle.std.specs.Prelude.{◌<◌, ◌^◌, ◌≤◌};
    ghost use Rattle.dch_pair.specs.EntityStanding.{size_of};
    ghost use Rattle.dch_reset.specs.Standing.{Running, pending_of};

    ghost Value = { Running };

    ghost view = { λ v. record {
      entity = v.entity;
      pending = pending_of v.pending;
      next_rsn = v.next_rsn;
      heard = v.heard;
      owes = v.owes;
      restarts = v.restarts;
      hfni = v.hfni;
    } };

    ghost invariant = { λ v. (v.hfni < 2 ^ 20) × (6 ≤ size_of v.entity) };
}

impl ResetEnd {
    /// An end that has accepted no unit, that no PDU has come to, and that isn't pending. It writes PDUs of `pdu`
    /// octets, 6 to 126, and PDUs of at most `reply` octets come to it, at most 126. Units hold at most `buffer` blocks
    /// of 64 octets, 1 to 4,096. The window has at most 2,048 PDUs.
    pub fn open(
        alloc: Global,
        pdu: usize,
        reply: usize,
        buffer: u16,
        rules: AmRules,
    ) -> Result<ResetEnd, NoMemory>
        requires least { 6 ≤ pdu }
        requires most { pdu ≤ 126 }
        requires reply { reply ≤ 126 }
        requires window { rules.window ≤ 2048 }
        ensures size { IfOk result (λ v. size_of v ≡ pdu) }
        ensures reply { IfOk result (λ v. size_in v ≡ reply) }
        ensures settled { IfOk result (λ v. is_settled v ≡ true) }
        ensures stands { IfOk result (λ v. Represents (rules_of buffer rules) v
            (opened_state (rules_of buffer rules))) }
    {
        let entity = AmEntity::open(alloc, pdu, reply, buffer, rules)?;
        Ok(ResetEnd {
            entity,
            pending: None,
            next_rsn: false,
            heard: None,
            owes: false,
            restarts: 0,
            hfni: 0,
        })
    }

    /// How many octets the PDUs have that it writes, 6 to 126.
    pub fn size(&self) -> usize
        ensures value { result ≡ size_of self.now }
        ensures least { 6 ≤ result }
        ensures most { result ≤ 126 }
    {
        self.entity.size()
    }

    /// Offers a unit of octets (TS 25.322 11.3.2). A pending end accepts units too, and sends them once the reset is
    /// answered.
    pub fn offer(&mut self, unit: &[u8]) -> Offer
        ensures answer { (rules : Rules) (e : State) → Represents rules self.old e →
            result ≡ offered rules e.entity.sender unit.now }
        ensures refused { result ≢ Accepted → self.new ≡ self.old }
        ensures stands { (rules : Rules) (e : State) → Represents rules self.old e →
            Represents rules self.new (step rules (size_of self.old) e (Offers unit.now)) }
        ensures same { IsSame self.old self.new }
    {
        self.entity.offer(unit)
    }

    /// Begins a reset, with the other RSN each time, 0 first (TS 25.322 11.4.2). Nothing changes where the end is
    /// pending.
    pub fn reset(&mut self)
        ensures stands { (rules : Rules) (e : State) → Represents rules self.old e →
            Represents rules self.new (step rules (size_of self.old) e Reset) }
        ensures same { IsSame self.old self.new }
    {
        if self.pending.is_none() {
            self.pending = Some(Pending {
                rsn: self.next_rsn,
                rst_timer: 0,
            });
            self.next_rsn = !self.next_rsn;
        }
    }

    /// It has begun a reset that isn't answered yet.
    pub fn pending(&self) -> bool
        ensures value { result ≡ is_some self.now.pending }
        ensures answer { (rules : Rules) (e : State) → Represents rules self.now e → result ≡ is_some e.pending }
    {
        self.pending.is_some()
    }

    /// How often both sides began anew since opening. The count ends at the greatest number.
    pub fn restarts(&self) -> u64
        ensures { (rules : Rules) (e : State) → Represents rules self.now e → result ≡ capped e.restarts }
    {
        self.restarts
    }

    /// There is something to build.
    pub fn due(&self) -> bool
        ensures value { result ≡ is_due self.now }
        ensures answer { (rules : Rules) (e : State) → Represents rules self.now e → result ≡ writes (turn rules e) }
    {
        if self.owes {
            return true;
        }
        match self.pending {
            Some(pending) => pending.rst_timer == 0,
            None => self.entity.is_due(),
        }
    }

    /// Builds what is due: an owed RESET ACK (TS 25.322 11.4.3), else the RESET of a pending end, at once and again 30
    /// ticks after each (11.4.2,
    /// 11.4.5.1), else, where the end isn't pending, a status, an MRW or a data PDU. A RESET and a RESET ACK have the
    /// number of restarts, in 20 bits, as HFNI, and zeros behind it.
    pub fn build(&mut self, out: &mut [u8])
        requires due { is_due self.old ≡ true }
        requires size { length out.old ≡ size_of self.old }
        ensures written { (rules : Rules) (e : State) → Represents rules self.old e →
            IsWritten (turn rules e) rules (size_of self.old) out.new e }
        ensures stands { (rules : Rules) (e : State) → Represents rules self.old e →
            Represents rules self.new (step rules (size_of self.old) e Build) }
        ensures same { IsSame self.old self.new }
    {
        if self.owes {
            write_reset(true, self.heard.unwrap_or(false), self.hfni, out);
            self.owes = false;
            return;
        }
        match self.pending {
            Some(pending) => {
                write_reset(false, pending.rsn, self.hfni, out);
                self.pending = Some(Pending {
                    rsn: pending.rsn,
                    rst_timer: REPEAT,
                });
            }
            None => {
                self.entity.build(out);
            }
        }
    }

    /// Takes a PDU of octets as they came. All units that ended before it have been handed up.
    pub fn pdu(&mut self, p: &[u8]) -> Got
        requires settled { is_settled self.old ≡ true }
        requires size { length p.now ≤ size_in self.old }
        ensures answer { (rules : Rules) (e : State) → Represents rules self.old e →
            result ≡ answer_read rules e (am_reading p.now) }
        ensures unread { is_unread result ≡ true → self.new ≡ self.old }
        ensures stands { (rules : Rules) (e : State) → Represents rules self.old e →
            Represents rules self.new (came_read rules (size_of self.old) e (am_reading p.now)) }
        ensures sizes { AreSizes self.old self.new }
    {
        match read_am(p) {
            Ok(view) => self.receive(&view),
            Err(error) => Got::Bad(error),
        }
    }

    /// Hands up the first unit that waits, at the front of `out`, which has 1,500 octets. A unit of more octets is
    /// overlong.
    pub fn next_unit(&mut self, out: &mut [u8]) -> Option<Handed>
        requires { length out.old ≡ 1500 }
        ensures first { result ≡ handed_of (waiting_in self.old) }
        ensures written { out.new ≡ written (waiting_in self.old) out.old }
        ensures rest { waiting_in self.new ≡ drop 1 (waiting_in self.old) }
        ensures none { IfNone result (self.new ≡ self.old) }
        ensures answer { (rules : Rules) (e : State) → Represents rules self.old e →
            result ≡ handed_of (waiting e.entity) }
        ensures unit { (rules : Rules) (e : State) → Represents rules self.old e →
            out.new ≡ written (waiting e.entity) out.old }
        ensures stands { (rules : Rules) (e : State) → Represents rules self.old e →
            Represents rules self.new (step rules (size_of self.old) e HandUp) }
        ensures sizes { AreSizes self.old self.new }
    {
        self.entity.next_unit(out)
    }

    /// No unit that ended waits.
    pub fn settled(&self) -> bool
        ensures value { result ≡ is_settled self.now }
        ensures answer { (rules : Rules) (e : State) → Represents rules self.now e →
            result ≡ (length (waiting e.entity) == 0) }
    {
        self.entity.settled()
    }

    /// Hands up all units that wait. They are no longer there even where memory is short.
    pub(crate) fn hand_up(&mut self, units: &mut Store) -> Result<(), NoMemory>
        ensures units { IfOk result (λ _. units.new ≡ units.old ++ whole (waiting_in self.old)) }
        ensures settled { is_settled self.new ≡ true }
        ensures sizes { AreSizes self.old self.new }
        ensures history { (rules : Rules) (e : State) → Represents rules self.old e →
            Represents rules self.new (handed_up e) }
    {
        hand_up(&mut self.entity, units)
    }

    /// One tick of 10 ms.
    pub fn tick(&mut self)
        ensures stands { (rules : Rules) (e : State) → Represents rules self.old e →
            Represents rules self.new (step rules (size_of self.old) e Tick) }
        ensures same { IsSame self.old self.new }
    {
        self.entity.tick();
        if let Some(pending) = self.pending {
            self.pending = Some(Pending {
                rsn: pending.rsn,
                rst_timer: pending.rst_timer.saturating_sub(1),
            });
        }
    }

    /// Gives all memory back.
    pub fn close(self) {}

    /// Takes a PDU that was read.
    fn receive(&mut self, view: &AmView<'_>) -> Got
        requires settled { is_settled self.old ≡ true }
        requires small { IsSmall (size_in self.old) view.now }
        ensures answer { (rules : Rules) (e : State) → Represents rules self.old e →
            result ≡ answer rules e (pdu_of view.now) }
        ensures unread { is_unread result ≡ true → self.new ≡ self.old }
        ensures stands { (rules : Rules) (e : State) → Represents rules self.old e →
            Represents rules self.new (step rules (size_of self.old) e (Come (pdu_of view.now))) }
        ensures sizes { AreSizes self.old self.new }
    {
        match view {
            AmView::Reset { rsn, .. } => self.receive_reset(*rsn),
            AmView::ResetAck { rsn, .. } => self.receive_reset_ack(*rsn),
            AmView::Payload { .. } | AmView::Status(_) => self.receive_data(view),
        }
    }

    /// Takes a data PDU or a status, unless it is pending.
    fn receive_data(&mut self, view: &AmView<'_>) -> Got
        requires settled { is_settled self.old ≡ true }
        requires small { IsSmall (size_in self.old) view.now }
        ensures answer { (rules : Rules) (e : State) → Represents rules self.old e →
            result ≡ unless_pending e.pending (entity_answer (received rules e.entity (pdu_of view.now))) }
        ensures unread { is_unread result ≡ true → self.new ≡ self.old }
        ensures stands { (rules : Rules) (e : State) → Represents rules self.old e →
            Represents rules self.new (taken_by rules (size_of self.old) e e.pending (pdu_of view.now)) }
        ensures sizes { AreSizes self.old self.new }
    {
        if self.pending.is_some() {
            return Got::Ignored;
        }
        entity_answer(self.entity.receive(view))
    }

    /// Takes a RESET, which is answered in any case. One with the RSN of the last one restarts nothing.
    fn receive_reset(&mut self, rsn: bool) -> Got
        requires settled { is_settled self.old ≡ true }
        ensures answer { (rules : Rules) (e : State) → Represents rules self.old e →
            result ≡ (if is_heard e.heard rsn then Repeated else Restarted) }
        ensures unread { is_unread result ≡ true → self.new ≡ self.old }
        ensures stands { (rules : Rules) (e : State) → Represents rules self.old e →
            Represents rules self.new (came rules (size_of self.old) e (ResetPdu rsn)) }
        ensures sizes { AreSizes self.old self.new }
    {
        self.owes = true;
        if is_heard(self.heard, rsn) {
            return Got::Repeated;
        }
        self.heard = Some(rsn);
        self.restart();
        Got::Restarted
    }

    /// Takes a RESET ACK. One with the RSN of the RESET that the end has begun ends the reset, and any other is
    /// ignored.
    fn receive_reset_ack(&mut self, rsn: bool) -> Got
        requires settled { is_settled self.old ≡ true }
        ensures answer { (rules : Rules) (e : State) → Represents rules self.old e →
            result ≡ (if is_asked e.pending rsn then Restarted else Ignored) }
        ensures unread { is_unread result ≡ true → self.new ≡ self.old }
        ensures stands { (rules : Rules) (e : State) → Represents rules self.old e →
            Represents rules self.new (came rules (size_of self.old) e (ResetAckPdu rsn)) }
        ensures sizes { AreSizes self.old self.new }
    {
        if !is_asked(self.pending, rsn) {
            return Got::Ignored;
        }
        self.pending = None;
        self.restart();
        Got::Restarted
    }

    /// Both sides begin anew.
    fn restart(&mut self)
        requires settled { is_settled self.old ≡ true }
        ensures stands { (rules : Rules) (e : State) → Represents rules self.old e →
            Represents rules self.new (restarted rules e) }
        ensures sizes { AreSizes self.old self.new }
    {
        self.entity.restart();
        self.restarts = self.restarts.saturating_add(1);
        self.hfni = (self.hfni + 1) % (1 << 20);
    }
}

/// The answer of the entity to a data PDU or a status, as that of the end.
fn entity_answer(received: Received) -> Got
    ensures { result ≡ entity_answer received }
{
    match received {
        Received::Data { taken, piggyback } => data_answer(taken, piggyback),
        Received::Control { status, mrw } => match (status, mrw) {
            (StatusTaken::Outside(_), _) | (_, MrwTaken::Outside(_)) => Got::Outside,
            _ => Got::Taken,
        },
        Received::Reset { .. } | Received::ResetAck { .. } => Got::Ignored,
    }
}

fn data_answer(taken: Taken, piggyback: Option<StatusTaken>) -> Got
    ensures { result ≡ data_answer taken piggyback }
{
    match (taken, piggyback) {
        (Taken::Outside, _) | (_, Some(StatusTaken::Outside(_))) => Got::Outside,
        (Taken::Kept, _) => Got::Taken,
        (Taken::Duplicate, _) => Got::Duplicate,
    }
}
