ghost use Rattle.std.specs.Prelude.{◌≡◌, ◌≢◌, ◌<◌, ◌≤◌, ◌&&◌, ◌||◌, ◌++◌, not, ℕ, List, [], ◌∷◌, true, IfOk, is_some, length, nat_lt};
ghost use Rattle.dch_bits.specs.declared.offer.Offer.TheVariants.{Accepted};
ghost use Rattle.dch_am.specs.declared.answers.StatusTaken.TheVariants.{Taken};
ghost use Rattle.dch_am.specs.Acknowledging.{after_fields, status_answer};
ghost use Rattle.dch_am.specs.Building.{after_build, available, body_of_choice, choice, gives, number_of, polls_at};
ghost use Rattle.dch_am.specs.Discards.{after_moving, discards, mrw_due, tick_sender};
ghost use Rattle.dch_am.specs.Listed.{IsListed, listed_text};
ghost use Rattle.dch_am.specs.Restart.{restarted_sender};
ghost use Rattle.dch_am.specs.Rules.{Rules, rules_of};
ghost use Rattle.dch_am.specs.Sender.{Sender, after_offer, discarded, offered, opened_sender};
ghost use Rattle.dch_am.specs.SenderHistory.{Build, Hear, Move, Offer as Offers, Restart, SenderEvent, Tick};
ghost use Rattle.dch_am.specs.Short.{IsShort};
ghost use Rattle.dch_am.specs.Texts.{IsMrw, next_pdu};
ghost use Rattle.dch_retx.specs.Standing.{timed};
ghost use Rattle.dch_amsend.specs.SduDiscard.{capped};
ghost use Rattle.dch_amsend.specs.History.{IsSenderOf};
ghost use Rattle.dch_amsend.specs.Outgoing.{available_of};
ghost use Rattle.dch_amsend.specs.Standing.{IsSame, Stands, is_control_due, is_due, pdu_octets, room_in};

use crate::discard::SduDiscard;
use crate::outgoing::Outgoing;
use crate::pass::overdue;
use dch_am::StatusTaken;
use dch_bits::{NoMemory, Offer};
use dch_rlcpdu::StatusView;
use dch_types::AmRules;
use std::alloc::Global;
use std::marker::Model;

/// The sending side of an acknowledged bearer (TS 25.322 4.2.1.3). All memory is taken when it is opened.
pub struct AmSend {
    outgoing: Outgoing,
    discard: SduDiscard,
    rules: AmRules,
}

// By hand, so that whoever holds one drops it by one call.
impl Drop for AmSend {
    fn drop(self) {
        let AmSend {
            outgoing: _outgoing,
            discard: _discard,
            rules: _rules,
        } = self;
    }
}

impl Model for AmSend {
    ghost use Rattle.std.specs.Prelude.{◌≡◌, length};
    ghost use Rattle.dch_amsend.specs.Standing.{Sending};

    ghost Value = { Sending };

    ghost view = { λ v. record { outgoing = v.outgoing; sdu_discard = v.discard; rules = v.rules } };

    ghost invariant = { λ v. (length v.discard.ages ≡ length v.outgoing.tx_buffer.sdus) ×
        (v.discard.most ≡ v.outgoing.tx_buffer.blocks) };
}

impl AmSend {
    /// A sender that has accepted no unit. PDUs have `pdu` octets, 6 to 126, and units hold at most `buffer` blocks of
    /// 64 octets, 1 to 4,096.
    pub fn open(alloc: Global, pdu: usize, buffer: u16, rules: AmRules) -> Result<AmSend, NoMemory>
        requires from { 6 ≤ pdu }
        requires most { pdu ≤ 126 }
        requires window { rules.window ≤ 2048 }
        ensures size { IfOk result (λ v. pdu_octets v ≡ pdu) }
        ensures stands { IfOk result (λ v. Stands (rules_of buffer rules) v opened_sender) }
        ensures history { IfOk result (λ v. IsSenderOf (rules_of buffer rules) [] v) }
    {
        let outgoing = Outgoing::open(alloc, pdu, buffer, rules)?;
        let discard = SduDiscard::open(alloc, buffer)?;
        Ok(AmSend {
            outgoing,
            discard,
            rules,
        })
    }

    /// Offers a unit. One that hasn't 1 to 1,500 octets has a wrong size; otherwise it is accepted where its blocks of
    /// 64 octets find room beside those of the units that are held, which are all units that aren't acknowledged with
    /// all PDUs before their ends.
    pub fn offer(&mut self, unit: &[u8]) -> Offer
        ensures answer { (rules : Rules) (s : Sender) → Stands rules self.old s → result ≡ offered rules s unit.now }
        ensures refused { result ≢ Accepted → self.new ≡ self.old }
        ensures stands { (rules : Rules) (s : Sender) → Stands rules self.old s →
            Stands rules self.new (after_offer (offered rules s unit.now) s unit.now) }
        ensures history { (rules : Rules) (events : List SenderEvent) → IsSenderOf rules events self.old →
            IsSenderOf rules (events ++ Offers unit.now ∷ []) self.new }
        ensures same { IsSame self.old self.new }
    {
        match self.outgoing.offer(unit) {
            Offer::Accepted => {
                self.discard.accept();
                Offer::Accepted
            }
            answer => answer,
        }
    }

    /// A PDU can be built.
    pub fn is_due(&self) -> bool
        ensures value { result ≡ is_due self.now }
        ensures due { (rules : Rules) (s : Sender) → Stands rules self.now s → result ≡ gives rules s }
    {
        self.outgoing.is_due()
    }

    /// How many PDUs could be built one after another, with no other event between, at most 64 (TS 25.322 11.3.2).
    pub fn available(&self) -> u16
        ensures value { result ≡ available_of self.now.outgoing }
        ensures due { nat_lt 0 result ≡ is_due self.now }
        ensures available { (rules : Rules) (s : Sender) → Stands rules self.now s →
            result ≡ available rules (room_in self.now) s }
    {
        self.outgoing.available()
    }

    /// Builds the next PDU: the lowest requested one, else a new one, else the last one again for an owed poll.
    pub fn build(&mut self, out: &mut [u8])
        requires due { is_due self.old ≡ true }
        requires size { length out.old ≡ pdu_octets self.old }
        ensures pdu { (rules : Rules) (s : Sender) → Stands rules self.old s →
            out.new ≡ next_pdu rules (room_in self.old) s }
        // it says all that it holds
        ensures short { (rules : Rules) (s : Sender) → Stands rules self.old s →
            IsShort (room_in self.old) (body_of_choice (choice rules s) (room_in self.old) s) }
        ensures stands { (rules : Rules) (s : Sender) → Stands rules self.old s →
            Stands rules self.new (after_build rules (room_in self.old) s) }
        // it is the PDU of its number in the list of PDUs of the accepted units, for the first time or again
        ensures listed { (rules : Rules) (s : Sender) → Stands rules self.old s → IsListed (room_in self.old) s →
            out.new ≡ listed_text (room_in self.old) (after_build rules (room_in self.old) s)
            (number_of (choice rules s) s) (polls_at (choice rules s) rules (room_in self.old) s) }
        ensures history { (rules : Rules) (events : List SenderEvent) → IsSenderOf rules events self.old →
            IsSenderOf rules (events ++ Build ∷ []) self.new }
        ensures same { IsSame self.old self.new }
    {
        self.outgoing.build(out)
    }

    /// Hears a status (TS 25.322 11.5.3): its MRW_ACKs act first; then the first number that isn't in the window
    /// refuses it whole.
    pub fn status(&mut self, status: &StatusView<'_>) -> StatusTaken
        ensures answer { (rules : Rules) (s : Sender) → Stands rules self.old s →
            result ≡ status_answer rules s status.now }
        ensures outside { result ≢ Taken → self.new ≡ self.old }
        ensures stands { (rules : Rules) (s : Sender) → Stands rules self.old s →
            Stands rules self.new (after_fields rules s status.now) }
        ensures history { (rules : Rules) (events : List SenderEvent) → IsSenderOf rules events self.old →
            IsSenderOf rules (events ++ Hear status.now ∷ []) self.new }
        ensures same { IsSame self.old self.new }
    {
        let before = self.outgoing.sdus();
        let taken = self.outgoing.status(status);
        self.discard.release(before - self.outgoing.sdus());
        taken
    }

    /// One tick of 10 ms: of the poll timer, the ages of units and a running discard's timer. Where no discard runs,
    /// the last unit that is due is discarded with all before it.
    pub fn tick(&mut self)
        ensures stands { (rules : Rules) (s : Sender) → Stands rules self.old s →
            Stands rules self.new (tick_sender rules s) }
        ensures history { (rules : Rules) (events : List SenderEvent) → IsSenderOf rules events self.old →
            IsSenderOf rules (events ++ Tick ∷ []) self.new }
        ensures same { IsSame self.old self.new }
    {
        self.count();
        if self.may_discard() {
            self.discard();
        }
    }

    /// Units may be discarded now: a rule for it is on, and no discard runs.
    fn may_discard(&self) -> bool
        ensures { result ≡ ((nat_lt 0 self.now.rules.discard_age || nat_lt 0 self.now.rules.discard_sent) &&
            not (is_some self.now.outgoing.line.running)) }
    {
        (self.rules.discard_age > 0 || self.rules.discard_sent > 0)
            && !self.outgoing.is_discarding()
    }

    /// The timers and the ages.
    fn count(&mut self)
        ensures stands { (rules : Rules) (s : Sender) → Stands rules self.old s → Stands rules self.new (timed s) }
        ensures same { IsSame self.old self.new }
    {
        self.outgoing.tick();
        if self.rules.discard_age > 0 {
            self.discard.tick();
        }
    }

    /// The last unit that is due is discarded with all before it.
    fn discard(&mut self)
        ensures stands { (rules : Rules) (s : Sender) → Stands rules self.old s →
            Stands rules self.new (discards rules s (length s.accepted)) }
        ensures same { IsSame self.old self.new }
    {
        if let Some(found) = overdue(&self.outgoing, &self.discard, &self.rules) {
            self.outgoing.discard(found.place, found.indicator);
            self.discard.discard(found.sdu as usize + 1);
        }
    }

    /// How many units were discarded since opening. The count ends at the greatest number.
    pub fn discarded(&self) -> u64
        ensures { (rules : Rules) (s : Sender) → Stands rules self.now s → result ≡ capped (discarded s) }
    {
        self.discard.discarded()
    }

    /// An MRW is due, which tells the receiver of discarded units (TS 25.322 11.6.2).
    pub fn control_due(&self) -> bool
        ensures value { result ≡ is_control_due self.now }
        ensures due { (rules : Rules) (s : Sender) → Stands rules self.now s → result ≡ mrw_due s.discard }
    {
        self.outgoing.mrw_due()
    }

    /// Writes the MRW that is due.
    pub fn write_control(&mut self, out: &mut [u8])
        requires due { is_control_due self.old ≡ true }
        requires size { length out.old ≡ pdu_octets self.old }
        ensures mrw { (rules : Rules) (s : Sender) → Stands rules self.old s → IsMrw out.new s.discard }
        ensures stands { (rules : Rules) (s : Sender) → Stands rules self.old s →
            Stands rules self.new (after_moving rules s s.discard) }
        ensures history { (rules : Rules) (events : List SenderEvent) → IsSenderOf rules events self.old →
            IsSenderOf rules (events ++ Move ∷ []) self.new }
        ensures same { IsSame self.old self.new }
    {
        self.outgoing.write_mrw(out)
    }

    /// Begins anew, as after a reset (TS 25.322 11.4): every unit of which an octet was built is dropped, with all
    /// numbers, timers and discards. The others stay in order, with their ages, and begin with PDU 0. How many units
    /// were discarded since opening stays.
    pub fn restart(&mut self)
        ensures stands { (rules : Rules) (s : Sender) → Stands rules self.old s →
            Stands rules self.new (restarted_sender s) }
        ensures history { (rules : Rules) (events : List SenderEvent) → IsSenderOf rules events self.old →
            IsSenderOf rules (events ++ Restart ∷ []) self.new }
        ensures same { IsSame self.old self.new }
    {
        let kept = self.outgoing.restart();
        self.discard.restart(kept);
    }

    /// Gives all memory back.
    pub fn close(self) {}
}
