ghost use Rattle.std.specs.Prelude.{ℕ, Some, true, ◌≡◌, ◌≢◌, ◌+◌, ◌-◌, ◌<◌, ◌≤◌, ◌++◌, ◌∷◌, false, IfOk, drop, is_some, length, min, nat_lt, slice_set};
ghost use Rattle.dch_am.specs.declared.answers.StatusTaken.TheVariants.{Taken};
ghost use Rattle.dch_am.specs.Acknowledging.{after_fields, status_answer};
ghost use Rattle.dch_am.specs.Discards.{after_mrw, discards_at, mrw_due};
ghost use Rattle.dch_am.specs.Rules.{Rules, rules_of};
ghost use Rattle.dch_am.specs.Numbers.{has, wrapped};
ghost use Rattle.dch_am.specs.Bodies.{after_body, ends_of, is_left, next_body};
ghost use Rattle.dch_am.specs.Building.{Again, New, Last, after_choice, again_polls, anew_polls, choice, once_more_polls};
ghost use Rattle.dch_am.specs.Restart.{restarted_sender};
ghost use Rattle.dch_am.specs.Sender.{Discard, Sender, vt_a, vt_s, opened_sender};
ghost use Rattle.dch_retx.specs.Flights.{at, built, first_requested, front_acked, requested_in};
ghost use Rattle.dch_retx.specs.StatusItems.{said_by};
ghost use Rattle.dch_retx.specs.Standing.{AreKept, chosen, IsNew, Sends, Stands, timed};
ghost use Rattle.dch_retx.specs.Polling.{again_line, again_poll, counted, crosses, is_far, last_line, last_poll, new_line, new_poll, picked, poll_of, sent_line};
ghost use Rattle.dch_retx.specs.Telling.{IsTold};
ghost use Rattle.dch_retx.specs.RetxBuffer.{after_ending, after_hearing, after_told, answer_of, first_number, number_at, outside_from, base_after, floor_of, freed, left_front, listened, opened_line, run_on, run_timer, repeating, ticked, discarding, is_due, moving, place_in, n_length_in};

use crate::flight::Flight;
use crate::hear::{SentNumbers, outside};
use crate::names::{Naming, name};
use crate::sent_pdu::SentPdu;
use crate::tell::{Told, tell};
use dch_am::StatusTaken;
use dch_bits::NoMemory;
use dch_rlcpdu::{MrwPlace, NUMBERS, StatusView};
use dch_types::AmRules;
use std::alloc::Global;
use std::marker::Model;

/// A discard that runs: its PDU's place among those in flight, the place of its indicator in it, and when an MRW is
/// due.
#[derive(Clone, Copy)]
pub struct Running {
    pub at: u16,
    pub n: u8,
    pub due: bool,
    pub mrw_timer: u16,
}

/// Which PDU a build gives: the one at a place again, a new one, the last one again for an owed poll, or none.
#[derive(Clone, Copy)]
pub enum Pick {
    Again(u16),
    New,
    Last(u16),
    NoPdu,
}

/// What a sender keeps of the PDUs that it has sent: those in flight, the poll that is out and the discard that runs.
#[derive(Drop)]
pub struct RetxBuffer {
    flight: Flight,
    rules: AmRules,
    buffer: u16,
    next: u16,
    poll_timer: u16,
    polled: u16,
    owed: bool,
    running: Option<Running>,
    built: u16,
    ended: u16,
}

impl Model for RetxBuffer {
    ghost use Rattle.dch_am.specs.Rules.{rules_of};
    ghost use Rattle.dch_retx.specs.RetxBuffer.{RetxBuffer, IsLine};

    ghost Value = { RetxBuffer };

    ghost view = { λ l. record {
      in_flight = l.flight.items;
      window = l.rules.window;
      next = l.next;
      poll_timer = l.poll_timer;
      polled = l.polled;
      owed = l.owed;
      running = l.running;
      rules = rules_of l.buffer l.rules;
      built = l.built;
      ended = l.ended;
    } };

    ghost invariant = { λ l. IsLine l.flight.items l.flight.capacity l.rules.window l.next l.running };
}

impl RetxBuffer {
    /// Nothing is sent yet. At most a window of 1 to 2048 PDUs is in flight. All memory is taken here.
    pub fn open(alloc: Global, buffer: u16, rules: AmRules) -> Result<RetxBuffer, NoMemory>
        requires { rules.window ≤ 2048 }
        ensures empty { IfOk result (λ l. l ≡ opened_line (rules_of buffer rules)) }
        ensures history { IfOk result (λ l. Stands (rules_of buffer rules) l opened_sender) }
    {
        let flight = Flight::open(alloc, rules.window)?;
        Ok(RetxBuffer {
            flight,
            rules,
            buffer,
            next: 0,
            poll_timer: 0,
            polled: 0,
            owed: false,
            running: None,
            built: 0,
            ended: 0,
        })
    }

    /// The PDU in flight at a place.
    pub fn at(&self, place: u16) -> SentPdu
        requires { place < length self.now.in_flight }
        ensures { result ≡ at self.now.in_flight place }
    {
        self.flight.at(place as usize)
    }

    /// The place of the first requested PDU from a place on; their number where none is.
    pub fn requested_from(&self, place: u16) -> u16
        requires { place ≤ length self.now.in_flight }
        ensures place { result ≡ place + first_requested (drop place self.now.in_flight) }
        ensures within { result ≤ length self.now.in_flight }
    {
        self.flight.requested_from(place as usize) as u16
    }

    /// How many PDUs are requested, at most so many.
    pub fn requested(&self, most: usize) -> usize
        ensures { result ≡ min most (requested_in self.now.in_flight) }
    {
        self.flight.requested(most)
    }

    /// A PDU is requested.
    pub fn is_requested(&self) -> bool
        ensures { result ≡ nat_lt 0 (requested_in self.now.in_flight) }
    {
        self.flight.is_requested()
    }

    /// How many PDUs may be in flight.
    pub fn window(&self) -> usize
        ensures count { result ≡ self.now.window }
        ensures few { length self.now.in_flight ≤ result }
    {
        self.rules.window as usize
    }

    /// A poll is owed.
    pub fn is_owed(&self) -> bool
        ensures { result ≡ self.now.owed }
    {
        self.owed
    }

    /// A discard runs.
    pub fn is_discarding(&self) -> bool
        ensures { result ≡ is_some self.now.running }
    {
        self.running.is_some()
    }

    /// How many PDUs are in flight.
    pub fn len(&self) -> usize
        ensures count { result ≡ length self.now.in_flight }
        ensures few { result ≤ 2048 }
    {
        self.flight.len()
    }

    /// Hears a status.
    pub fn hear(&mut self, status: &StatusView<'_>) -> StatusTaken
        ensures answer { result ≡ answer_of (said_by status.now) self.old }
        ensures after { self.new ≡ after_hearing (said_by status.now) self.old }
        ensures outside { result ≢ Taken → self.new ≡ self.old }
        ensures kept { AreKept self.old.in_flight self.new.in_flight }
        // the same over numbers without wrap
        ensures history { (rules : Rules) (s : Sender) → Stands rules self.old s →
            (result ≡ status_answer rules s status.now) × Stands rules self.new (after_fields rules s status.now) }
    {
        self.answer(status)
    }

    /// Hears a status, place by place.
    fn answer(&mut self, status: &StatusView<'_>) -> StatusTaken
        ensures answer { result ≡ answer_of (said_by status.now) self.old }
        ensures after { self.new ≡ after_hearing (said_by status.now) self.old }
    {
        let told = self.told(status);
        let base = self.base_after(told.ending);
        if let Some(number) = self.outside(status, told, base) {
            return StatusTaken::Outside(number);
        }
        self.end(told.ending);
        if told.reports {
            self.listen(status, told.below.unwrap_or(0).saturating_sub(base));
        }
        StatusTaken::Taken
    }

    /// Which PDU a build gives, where unsent matter is left or not.
    pub fn pick(&self, left: bool) -> Pick
        ensures place { result ≡ picked left self.now }
        ensures history { (rules : Rules) (s : Sender) → Stands rules self.now s → left ≡ is_left s.unsent →
            chosen (vt_a s) result ≡ choice rules s }
    {
        self.picks(left)
    }

    /// The same, by places.
    fn picks(&self, left: bool) -> Pick
        ensures place { result ≡ picked left self.now }
    {
        let count = self.flight.len();
        let lowest = self.flight.lowest();
        if lowest < count {
            return Pick::Again(lowest as u16);
        }
        if count < self.rules.window as usize && left {
            return Pick::New;
        }
        if self.owed && count > 0 {
            return Pick::Last((count - 1) as u16);
        }
        Pick::NoPdu
    }

    /// The PDU at a place, which is requested, is built again. Answers its poll bit.
    pub fn again(&mut self, place: u16) -> bool
        requires { place < length self.old.in_flight }
        ensures poll { result ≡ again_poll place self.old }
        ensures after { self.new ≡ again_line place self.old }
        ensures history { (rules : Rules) (s : Sender) (d : ℕ) → Stands rules self.old s →
            Sends rules result self.new (again_polls rules s (vt_a s + place))
            (after_choice (Again (vt_a s + place)) rules d s) }
    {
        self.sends_again(place)
    }

    /// The same, by places.
    fn sends_again(&mut self, place: u16) -> bool
        requires { place < length self.old.in_flight }
        ensures poll { result ≡ again_poll place self.old }
        ensures after { self.new ≡ again_line place self.old }
    {
        self.flight.build(place as usize);
        let none = !self.flight.is_requested();
        self.sent(none)
    }

    /// The PDU at a place is built again for an owed poll. Answers its poll bit.
    pub fn last(&mut self, place: u16) -> bool
        requires { place < length self.old.in_flight }
        ensures poll { result ≡ last_poll place self.old }
        ensures after { self.new ≡ last_line place self.old }
        ensures history { (rules : Rules) (s : Sender) (d : ℕ) → Stands rules self.old s → vt_a s + place ≡ vt_s s - 1 →
            has (vt_a s + place) s.requested ≡ false → Sends rules result self.new (once_more_polls rules s)
            (after_choice (Last (vt_a s + place)) rules d s) }
    {
        self.sends_last(place)
    }

    /// The same, by places.
    fn sends_last(&mut self, place: u16) -> bool
        requires { place < length self.old.in_flight }
        ensures poll { result ≡ last_poll place self.old }
        ensures after { self.new ≡ last_line place self.old }
    {
        self.flight.build(place as usize);
        self.sent(false)
    }

    /// A new PDU is built, behind which unsent matter is left or not. Answers its poll bit.
    pub fn push(&mut self, pdu: SentPdu, left: bool) -> bool
        requires room { length self.old.in_flight < self.old.window }
        requires new { pdu.requested ≡ false }
        requires is_open { pdu.acked ≡ false }
        ensures poll { result ≡ new_poll pdu left self.old }
        ensures after { self.new ≡ new_line pdu left self.old }
        ensures history { (rules : Rules) (s : Sender) (d : ℕ) → Stands rules self.old s →
            IsNew pdu (ends_of (next_body d s.unsent)) → left ≡ is_left (after_body d s.unsent) →
            Sends rules result self.new (anew_polls rules d s) (after_choice New rules d s) }
    {
        self.sends_new(pdu, left)
    }

    /// The same, by places.
    fn sends_new(&mut self, pdu: SentPdu, left: bool) -> bool
        requires room { length self.old.in_flight < self.old.window }
        requires new { pdu.requested ≡ false }
        requires is_open { pdu.acked ≡ false }
        ensures poll { result ≡ new_poll pdu left self.old }
        ensures after { self.new ≡ new_line pdu left self.old }
    {
        let ends = pdu.ends();
        let due = crosses(self.rules.poll_units, self.ended, ends);
        self.ended = counted(self.rules.poll_units, self.ended, ends);
        self.next = (self.next + 1) % NUMBERS;
        self.flight.push(pdu);
        self.sent(!left || due)
    }

    /// A PDU was built. It polls for a reason of its own or for those of every PDU.
    fn sent(&mut self, reason: bool) -> bool
        ensures poll { result ≡ poll_of reason self.old }
        ensures after { self.new ≡ sent_line reason self.old }
    {
        let due = crosses(self.rules.poll_pdus, self.built, 1);
        let far = is_far(&self.rules, self.flight.len());
        let poll = reason || self.owed || due || far;
        self.built = counted(self.rules.poll_pdus, self.built, 1);
        if poll {
            self.owed = false;
            if self.rules.poll_timer > 0 {
                self.poll_timer = self.rules.poll_timer;
                self.polled = self.flight.len().saturating_sub(1) as u16;
            }
        }
        poll
    }

    /// One tick of the poll timer and of a running discard's.
    pub fn tick(&mut self)
        ensures after { self.new ≡ ticked self.old }
        ensures history { (rules : Rules) (s : Sender) → Stands rules self.old s → Stands rules self.new (timed s) }
    {
        self.ticks();
    }

    fn ticks(&mut self)
        ensures after { self.new ≡ ticked self.old }
    {
        self.owed = self.owed || self.poll_timer == 1;
        self.poll_timer = self.poll_timer.saturating_sub(1);
        self.running = run_timer(self.running);
    }

    /// A discard begins with the PDU at a place and its indicator `n`.
    pub fn discard(&mut self, place: u16, n: u8)
        requires inside { place < length self.old.in_flight }
        requires indicator { n < 16 }
        ensures after { self.new ≡ discarding place n self.old }
        ensures history { (rules : Rules) (s : Sender) (i : ℕ) → Stands rules self.old s →
            Stands rules self.new (discards_at s i (Some (vt_a s + place, n))) }
    {
        self.begins(place, n);
    }

    fn begins(&mut self, place: u16, n: u8)
        requires inside { place < length self.old.in_flight }
        requires indicator { n < 16 }
        ensures after { self.new ≡ discarding place n self.old }
    {
        self.flight.clear_request(place as usize);
        self.running = Some(Running {
            at: place,
            n,
            due: true,
            mrw_timer: 0,
        });
    }

    /// An MRW is due.
    pub fn mrw_due(&self) -> bool
        ensures due { result ≡ is_due self.now.running }
        ensures history { (rules : Rules) (s : Sender) → Stands rules self.now s → result ≡ mrw_due s.discard }
    {
        self.is_due()
    }

    fn is_due(&self) -> bool
        ensures due { result ≡ is_due self.now.running }
    {
        match self.running {
            None => false,
            Some(running) => running.due,
        }
    }

    /// The 12-bit number and the indicator of the running discard, which an MRW tells of.
    pub fn mrw(&self) -> MrwPlace
        requires { is_due self.now.running ≡ true }
        ensures number { result ≡ (number_at (place_in self.now.running) self.now, n_length_in self.now.running) }
        ensures small { (result.0 < 4096) × (result.1 < 16) }
        ensures history { (rules : Rules) (s : Sender) (d : Discard) → Stands rules self.now s → s.discard ≡ Some d →
            (result.0 ≡ wrapped d.k) × (result.1 ≡ d.n) }
    {
        self.moved_to()
    }

    fn moved_to(&self) -> MrwPlace
        requires { is_due self.now.running ≡ true }
        ensures number { result ≡ (number_at (place_in self.now.running) self.now, n_length_in self.now.running) }
        ensures small { (result.0 < 4096) × (result.1 < 16) }
    {
        match self.running {
            None => MrwPlace {
                sn: self.number_at(0),
                n: 0,
            },
            Some(running) => MrwPlace {
                sn: self.number_at(running.at),
                n: running.n,
            },
        }
    }

    /// The MRW is written.
    pub fn write_mrw(&mut self)
        ensures after { self.new ≡ moving self.old }
        ensures history { (rules : Rules) (s : Sender) (d : Discard) → Stands rules self.old s → s.discard ≡ Some d →
            Stands rules self.new (after_mrw rules s d) }
    {
        self.repeats();
    }

    fn repeats(&mut self)
        ensures after { self.new ≡ moving self.old }
    {
        self.running = repeating(self.running, self.rules.discard_repeat);
    }

    /// The 12-bit number of the PDU at a place, or of the next new one.
    pub fn number_at(&self, place: u16) -> u16
        requires { place ≤ length self.now.in_flight }
        ensures number { result ≡ number_at place self.now }
        ensures small { result < 4096 }
        ensures history { (rules : Rules) (s : Sender) → Stands rules self.now s → result ≡ wrapped (vt_a s + place) }
    {
        self.number_of(place)
    }

    fn number_of(&self, place: u16) -> u16
        requires { place ≤ length self.now.in_flight }
        ensures number { result ≡ number_at place self.now }
        ensures small { result < 4096 }
    {
        let ahead = self.flight.len() as u16 - place;
        (self.next + NUMBERS - ahead) % NUMBERS
    }

    /// Begins anew: no PDU is in flight, no poll is out or owed, and no discard runs.
    pub fn restart(&mut self)
        ensures after { self.new ≡ opened_line self.old.rules }
        ensures window { self.new.window ≡ self.old.window }
        ensures history { (rules : Rules) (s : Sender) → Stands rules self.old s →
            Stands rules self.new (restarted_sender s) }
    {
        self.flight.clear();
        self.next = 0;
        self.poll_timer = 0;
        self.polled = 0;
        self.owed = false;
        self.running = None;
        self.built = 0;
        self.ended = 0;
    }

    /// The PDUs in flight from a place on.
    fn sent_numbers(&self, base: u16) -> SentNumbers
        requires { base ≤ length self.now.in_flight }
        ensures window { result.window ≡ self.now.window }
        ensures first { result.first ≡ number_at base self.now }
        ensures count { result.count ≡ length self.now.in_flight - base }
        ensures range { (result.window ≤ 2048) × (result.first < 4096) × (result.count ≤ 2048) }
        ensures few { length self.now.in_flight ≤ result.window }
    {
        SentNumbers {
            window: self.rules.window,
            first: self.number_of(base),
            count: self.flight.len() as u16 - base,
        }
    }

    /// What the status tells as a whole.
    fn told(&self, status: &StatusView<'_>) -> Told
        ensures told { IsTold result self.now.window (first_number self.now)
            (length self.now.in_flight) self.now.running (said_by status.now) }
        ensures few { (length self.now.in_flight ≤ self.now.window) × (self.now.window ≤ 2048) }
    {
        tell(status, self.sent_numbers(0), self.running)
    }

    /// The first number of the status that is outside, where the PDU at a place is the lowest open one. The status is
    /// walked only where there is one.
    fn outside(&self, status: &StatusView<'_>, told: Told, base: u16) -> Option<u16>
        requires base { base ≤ length self.now.in_flight }
        requires told { IsTold told self.now.window (first_number self.now)
            (length self.now.in_flight) self.now.running (said_by status.now) }
        ensures { result ≡ outside_from base (said_by status.now) self.now }
    {
        let sent_numbers = self.sent_numbers(base);
        if told.limit > base {
            return None;
        }
        outside(status, sent_numbers)
    }

    /// The place of the lowest open PDU, where an MRW_ACK acknowledges those below a place.
    fn base_after(&self, found: Option<u16>) -> u16
        ensures base { result ≡ base_after found self.now }
        ensures within { result ≤ length self.now.in_flight }
    {
        match found {
            None => 0,
            Some(below) => {
                let from = (below as usize).min(self.flight.len());
                (from + self.flight.acked_from(from)) as u16
            }
        }
    }

    /// Where the discard ends, the PDUs below a place are acknowledged.
    fn end(&mut self, ending: Option<u16>)
        ensures { self.new ≡ after_ending ending self.old }
    {
        if let Some(below) = ending {
            self.free(below);
        }
    }

    /// The PDUs below a place are acknowledged, and the discard ends.
    fn free(&mut self, below: u16)
        ensures { self.new ≡ freed below self.old }
    {
        let to = (below as usize).min(self.flight.len());
        self.flight.acknowledge(to);
        self.running = None;
        self.leave(false);
    }

    /// What the status says of numbers is heard, where its LSN stands at a place.
    fn listen(&mut self, status: &StatusView<'_>, below: u16)
        ensures { self.new ≡ listened below (said_by status.now) self.old }
    {
        let first = self.number_at(0);
        let from = floor_of(self.running);
        let to = (below as usize).min(self.flight.len());
        let naming = Naming {
            first,
            from,
            to,
            polled: self.polled,
        };
        let named = name(&mut self.flight, status, naming);
        self.flight.acknowledge(to);
        self.leave(named);
    }

    /// The PDUs in front that are acknowledged leave. The poll is told where the polled one does, or was named.
    fn leave(&mut self, named: bool)
        ensures { self.new ≡ left_front (front_acked self.old.in_flight) named self.old.in_flight self.old }
    {
        let leaving = self.flight.acked_from(0);
        self.flight.leave(leaving);
        if named || (self.polled as usize) < leaving {
            self.poll_timer = 0;
            self.owed = false;
        }
        self.polled = self.polled.saturating_sub(leaving as u16);
        self.running = run_on(self.running, leaving as u16);
    }
}

/// A count comes to the rule.
fn crosses(rule: u16, count: u16, more: u16) -> bool
    ensures { result ≡ crosses rule count more }
{
    rule > 0 && count as u32 + more as u32 >= rule as u32
}

/// The count since it last came to the rule.
fn counted(rule: u16, count: u16, more: u16) -> u16
    ensures { result ≡ counted rule count more }
{
    if rule > 0 {
        ((count as u32 + more as u32) % rule as u32) as u16
    } else {
        0
    }
}

/// So many PDUs in flight are as many hundredths of the window as polls are due at.
fn is_far(rules: &AmRules, count: usize) -> bool
    requires { count ≤ 2048 }
    ensures { result ≡ is_far (rules_of 0 rules.now) count }
{
    rules.poll_window > 0 && 100 * count >= rules.poll_window as usize * rules.window as usize
}

/// A tick of a discard's timer.
fn run_timer(running: Option<Running>) -> Option<Running>
    ensures { result ≡ run_timer running }
{
    let running = running?;
    Some(Running {
        at: running.at,
        n: running.n,
        due: running.due || running.mrw_timer == 1,
        mrw_timer: running.mrw_timer.saturating_sub(1),
    })
}

/// The MRW is due again after so many ticks.
fn repeating(running: Option<Running>, ticks: u16) -> Option<Running>
    ensures { result ≡ repeating ticks running }
{
    let running = running?;
    Some(Running {
        at: running.at,
        n: running.n,
        due: false,
        mrw_timer: ticks,
    })
}

/// Nothing is requested below this place while a discard runs.
fn floor_of(running: Option<Running>) -> u16
    ensures { result ≡ floor_of running }
{
    match running {
        None => 0,
        Some(running) => running.at,
    }
}

/// A discard once so many PDUs have left: it ends where its own has.
fn run_on(running: Option<Running>, leaving: u16) -> Option<Running>
    ensures { result ≡ run_on leaving running }
{
    let running = running?;
    if running.at < leaving {
        return None;
    }
    Some(Running {
        at: running.at - leaving,
        n: running.n,
        due: running.due,
        mrw_timer: running.mrw_timer,
    })
}
