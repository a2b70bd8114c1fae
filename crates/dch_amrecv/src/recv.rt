ghost use Rattle.std.specs.Prelude.{◌≡◌, ◌≢◌, ◌+◌, ◌*◌, ◌<◌, ◌≤◌, ◌==◌, ◌++◌, ℕ, List, [], ◌∷◌, IfNone, IfOk, Some, drop, length, true};
ghost use Rattle.dch_am.specs.declared.answers.MrwTaken.TheVariants.{Obeyed, Old};
ghost use Rattle.dch_am.specs.declared.answers.Taken.TheVariants.{Duplicate, Outside};
ghost use Rattle.dch_am.specs.Moves.{after_control as after_moves, control_answer as moves_answer};
ghost use Rattle.dch_am.specs.Receiver.{Receiver, after_pdu, opened_receiver, taken};
ghost use Rattle.dch_am.specs.ReceiverHistory.{Arrive, HandUp, Obey, ReceiverEvent, Restart, Tell, Tick};
ghost use Rattle.dch_am.specs.Telling.{after_telling as after_told, is_due as is_told, tells_now, tick_receiver};
ghost use Rattle.dch_am.specs.Contents.{body_in};
ghost use Rattle.dch_sar.specs.Taking.{handed_of, written};
ghost use Rattle.dch_rlcpdu.specs.Reading.{status_of};
ghost use Rattle.dch_am.specs.Rules.{Rules, rules_of};
ghost use Rattle.dch_am.specs.Texts.{IsHeard, IsTold};
ghost use Rattle.dch_amrecv.specs.History.{IsReceiverOf};
ghost use Rattle.dch_amrecv.specs.Holding.{after_unit, is_due, is_settled, opened, with_mrw_ack, with_owed};
ghost use Rattle.dch_amrecv.specs.Standing.{IsSame, Stands, given_after, said};

use crate::holder::Holder;
use crate::mrw::last_move;
use dch_am::{MrwTaken, Taken};
use dch_bits::NoMemory;
use dch_rlcpdu::{Body, Handed, StatusView};
use dch_types::AmRules;
use std::alloc::Global;
use std::marker::Model;

/// The receiving side of an acknowledged bearer. All memory is taken when it is opened.
pub struct AmRecv {
    holder: Holder,
}

// By hand, so that whoever holds one drops it by one call.
impl Drop for AmRecv {
    fn drop(self) {
        let AmRecv { holder: _holder } = self;
    }
}

impl Model for AmRecv {
    ghost use Rattle.dch_amrecv.specs.Holding.{Holding};

    ghost Value = { Holding };

    ghost view = { λ r. r.holder };
}

impl AmRecv {
    /// A receiver before its first PDU. PDUs of `pdu` octets come, and statuses go in PDUs of `reply` octets.
    pub fn open(alloc: Global, pdu: usize, reply: usize, rules: AmRules) -> Result<AmRecv, NoMemory>
        requires pdu { pdu ≤ 126 }
        requires least { 6 ≤ reply }
        requires most { reply ≤ 126 }
        requires window { rules.window ≤ 2048 }
        ensures value { IfOk result (λ r. r ≡ opened rules pdu reply) }
        ensures stands { IfOk result (λ r. (buffer : ℕ) → Stands r 0 (opened_receiver (rules_of buffer rules))) }
        ensures history { IfOk result (λ r. (buffer : ℕ) → IsReceiverOf (rules_of buffer rules) [] r) }
    {
        let holder = Holder::open(alloc, pdu, reply, rules)?;
        Ok(AmRecv { holder })
    }

    /// Takes a PDU (TS 25.322 11.3.3). All units that ended before it have been handed up. Indicators and octets of the
    /// body are together at most two fewer than the octets of a PDU.
    pub fn pdu(&mut self, sn: u16, poll: bool, body: &Body<'_>) -> Taken
        requires settled { is_settled self.old ≡ true }
        requires number { sn < 4096 }
        requires small { length body.now.indicators + length body.now.octets + 2 ≤ self.old.pdu }
        ensures answer { (buffer given : ℕ) (r : Receiver) → Stands self.old given r →
            result ≡ taken (rules_of buffer self.old.rules) r sn }
        ensures stands { (buffer given : ℕ) (r : Receiver) → Stands self.old given r →
            Stands self.new given (after_pdu (rules_of buffer self.old.rules)
            (taken (rules_of buffer self.old.rules) r sn) r sn poll (body_in body.now)) }
        ensures history { (rules : Rules) (events : List ReceiverEvent) → IsReceiverOf rules events self.old →
            IsReceiverOf rules (events ++ Arrive sn poll (body_in body.now) ∷ []) self.new }
        // a duplicate with the poll bit has a status owed, and nothing else
        ensures duplicate { result ≡ Duplicate → self.new ≡ with_owed poll self.old }
        ensures outside { result ≡ Outside → self.new ≡ self.old }
        ensures same { IsSame self.old self.new }
    {
        self.holder.pdu(sn, poll, body)
    }

    /// No unit that ended waits.
    pub fn settled(&self) -> bool
        ensures value { result ≡ is_settled self.now }
        ensures history { (given : ℕ) (r : Receiver) → Stands self.now given r →
            result ≡ (given == length r.reading.units) }
    {
        self.holder.settled()
    }

    /// Hands up the first unit that waits, at the front of `out`, which has 1,500 octets. A unit of more octets is
    /// overlong.
    pub fn next_unit(&mut self, out: &mut [u8]) -> Option<Handed>
        requires { length out.old ≡ 1500 }
        ensures answer { result ≡ handed_of self.old.kept.units.waiting }
        ensures unit { out.new ≡ written self.old.kept.units.waiting out.old }
        ensures rest { self.new ≡ after_unit self.old }
        ensures none { IfNone result (self.new ≡ self.old) }
        // it is the next of the receiver's units
        ensures next { (given : ℕ) (r : Receiver) → Stands self.old given r →
            result ≡ handed_of (drop given r.reading.units) }
        ensures octets { (given : ℕ) (r : Receiver) → Stands self.old given r →
            out.new ≡ written (drop given r.reading.units) out.old }
        ensures stands { (given : ℕ) (r : Receiver) → Stands self.old given r →
            Stands self.new (given_after result given) r }
        ensures history { (rules : Rules) (events : List ReceiverEvent) → IsReceiverOf rules events self.old →
            IsReceiverOf rules (events ++ HandUp ∷ []) self.new }
        ensures same { IsSame self.old self.new }
    {
        self.holder.next_unit(out)
    }

    /// A status, or an MRW_ACK, is due (TS 25.322 9.7.2).
    pub fn status_due(&self) -> bool
        ensures value { result ≡ is_due self.now }
        ensures due { (given : ℕ) (r : Receiver) → Stands self.now given r → result ≡ is_told r }
    {
        self.holder.is_due()
    }

    /// Writes what is due: an MRW_ACK, a status, or both. With `reply` octets.
    pub fn write_status(&mut self, out: &mut [u8])
        requires due { is_due self.old ≡ true }
        requires size { length out.old ≡ self.old.reply }
        ensures fields { (given : ℕ) (r : Receiver) → Stands self.old given r →
            status_of out.new ≡ said (tells_now (8 * self.old.reply) r) }
        // just that, and zeros behind it
        ensures text { (given : ℕ) (r : Receiver) → Stands self.old given r →
            IsTold out.new (tells_now (8 * self.old.reply) r) }
        // the other end reads that
        ensures read { (given : ℕ) (r : Receiver) → Stands self.old given r →
            IsHeard out.new (tells_now (8 * self.old.reply) r) }
        ensures stands { (buffer given : ℕ) (r : Receiver) → Stands self.old given r →
            Stands self.new given (after_told (rules_of buffer self.old.rules) r) }
        ensures history { (rules : Rules) (events : List ReceiverEvent) → IsReceiverOf rules events self.old →
            IsReceiverOf rules (events ++ Tell ∷ []) self.new }
        ensures same { IsSame self.old self.new }
        ensures kept { self.new.kept ≡ self.old.kept }
    {
        self.holder.tell(out)
    }

    /// Obeys the last MRW of a status (TS 25.322 11.6.3). All units that ended before it have been handed up.
    pub fn control(&mut self, status: &StatusView<'_>) -> MrwTaken
        requires settled { is_settled self.old ≡ true }
        ensures answer { (buffer given : ℕ) (r : Receiver) → Stands self.old given r →
            result ≡ moves_answer (rules_of buffer self.old.rules) r status.now }
        ensures stands { (buffer given : ℕ) (r : Receiver) → Stands self.old given r →
            Stands self.new given (after_moves (rules_of buffer self.old.rules) r status.now) }
        ensures history { (rules : Rules) (events : List ReceiverEvent) → IsReceiverOf rules events self.old →
            IsReceiverOf rules (events ++ Obey status.now ∷ []) self.new }
        // an old MRW is answered, and nothing else
        ensures old { result ≡ Old → self.new ≡ with_mrw_ack self.new.ack self.old }
        ensures unchanged { result ≢ Obeyed → result ≢ Old → self.new ≡ self.old }
        ensures same { IsSame self.old self.new }
    {
        match last_move(status) {
            Some(place) => self.holder.obey(place.sn, place.n),
            None => MrwTaken::Nothing,
        }
    }

    /// Begins anew, as after a reset (TS 25.322 11.4): the state is that at opening, and what was kept of PDUs and of
    /// the unit in progress is dropped. All units that ended have been handed up.
    pub fn restart(&mut self)
        requires settled { is_settled self.old ≡ true }
        ensures value { self.new ≡ opened self.old.rules self.old.pdu self.old.reply }
        ensures stands { (buffer : ℕ) → Stands self.new 0 (opened_receiver (rules_of buffer self.old.rules)) }
        ensures history { (rules : Rules) (events : List ReceiverEvent) → IsReceiverOf rules events self.old →
            IsReceiverOf rules (events ++ Restart ∷ []) self.new }
        ensures same { IsSame self.old self.new }
    {
        self.holder.restart();
    }

    /// One tick of the timers.
    pub fn tick(&mut self)
        ensures stands { (buffer given : ℕ) (r : Receiver) → Stands self.old given r →
            Stands self.new given (tick_receiver (rules_of buffer self.old.rules) r) }
        ensures history { (rules : Rules) (events : List ReceiverEvent) → IsReceiverOf rules events self.old →
            IsReceiverOf rules (events ++ Tick ∷ []) self.new }
        ensures same { IsSame self.old self.new }
        ensures kept { self.new.kept ≡ self.old.kept }
    {
        self.holder.tick()
    }

    /// Gives all memory back.
    pub fn close(self) {}
}
