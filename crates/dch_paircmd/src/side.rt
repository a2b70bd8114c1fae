ghost use Rattle.std.specs.Prelude.{◌≡◌, ◌<◌, ◌≤◌, ◌+◌, ◌++◌, [], ◌∷◌, IfOk, drop, length, true};
ghost use Rattle.dch_am.specs.Rules.{Rules, rules_of};
ghost use Rattle.dch_am.specs.Sender.{offered};
ghost use Rattle.dch_reset.specs.History.{handed_up};
ghost use Rattle.dch_reset.specs.Standing.{AreSizes, Represents, is_due, is_settled, size_in, waiting_in};
ghost use Rattle.dch_reset.specs.State.{Build, IsWritten, Offer as Offers, Reset, State, Tick, step, turn, writes};
ghost use Rattle.dch_paircmd.specs.Ends.{PairEnd, opened_end};
ghost use Rattle.dch_paircmd.specs.Handlers.{Arrives, IsSide, StaysSide};
ghost use Rattle.dch_paircmd.specs.Texts.{units_text};

use crate::queue::PduQueue;
use crate::texts::{put_got, put_handed};
use dch_bits::{NoMemory, Offer};
use dch_lines::Page;
use dch_reset::ResetEnd;
use dch_types::AmRules;
use std::alloc::Global;
use std::marker::Model;

/// An end that runs, the PDUs in flight to it, and how many octets the PDUs have that it builds.
#[derive(Drop)]
pub struct Side {
    end: ResetEnd,
    coming: PduQueue,
    size: usize,
}

impl Model for Side {
    ghost use Rattle.dch_paircmd.specs.Handlers.{IsKept, SideValue};

    ghost Value = { SideValue };

    ghost view = { λ s. record { end = s.end; coming = s.coming; size = s.size } };

    ghost invariant = { λ s. IsKept s.end s.coming s.size };
}

impl Side {
    /// At opening. It builds PDUs of `size` octets, and PDUs of at most `comes` octets come to it, each 6 to 126. All
    /// memory is taken here.
    pub fn open(
        alloc: Global,
        size: usize,
        comes: usize,
        buffer: u16,
        rules: AmRules,
    ) -> Result<Side, NoMemory>
        requires least { 6 ≤ size }
        requires most { size ≤ 126 }
        requires comes { comes ≤ 126 }
        requires window { rules.window ≤ 2048 }
        ensures size { IfOk result (λ side. (side.size ≡ size) × (size_in side.end ≡ comes)) }
        ensures stands { IfOk result (λ side.
            IsSide (rules_of buffer rules) side (opened_end (rules_of buffer rules) size)) }
    {
        let end = ResetEnd::open(alloc, size, comes, buffer, rules)?;
        let coming = PduQueue::open(alloc)?;
        Ok(Side { end, coming, size })
    }

    /// How many octets the PDUs have that it builds, 6 to 126.
    pub fn size(&self) -> usize
        ensures value { result ≡ self.now.size }
        ensures most { result ≤ 126 }
    {
        self.size
    }

    /// How many PDUs are in flight to it, at most 1,024.
    pub fn coming(&self) -> usize
        ensures value { result ≡ length self.now.coming }
        ensures most { result ≤ 1024 }
    {
        self.coming.len()
    }

    /// Offers a unit.
    pub fn offer(&mut self, unit: &[u8]) -> Offer
        ensures answer { (rules : Rules) (s : PairEnd) → IsSide rules self.old s →
            result ≡ offered rules s.state.entity.sender unit.now }
        ensures stands { (rules : Rules) (s : PairEnd) → IsSide rules self.old s →
            IsSide rules self.new (record s { state = step rules s.size s.state (Offers unit.now) }) }
        ensures same { StaysSide self.old self.new }
    {
        self.end.offer(unit)
    }

    /// One tick of 10 ms.
    pub fn tick(&mut self)
        ensures stands { (rules : Rules) (s : PairEnd) → IsSide rules self.old s →
            IsSide rules self.new (record s { state = step rules s.size s.state Tick }) }
        ensures same { StaysSide self.old self.new }
    {
        self.end.tick();
    }

    /// Begins a reset where none is pending.
    pub fn reset(&mut self)
        ensures stands { (rules : Rules) (s : PairEnd) → IsSide rules self.old s →
            IsSide rules self.new (record s { state = step rules s.size s.state Reset }) }
        ensures same { StaysSide self.old self.new }
    {
        self.end.reset();
    }

    /// There is something to build.
    pub fn due(&self) -> bool
        ensures value { result ≡ is_due self.now.end }
        ensures answer { (rules : Rules) (s : PairEnd) → IsSide rules self.now s →
            result ≡ writes (turn rules s.state) }
    {
        self.end.due()
    }

    /// Builds the PDU that is due, of just so many octets as its PDUs have.
    pub fn build(&mut self, out: &mut [u8])
        requires due { is_due self.old.end ≡ true }
        requires size { length out.old ≡ self.old.size }
        ensures long { length out.new ≡ self.old.size }
        ensures written { (rules : Rules) (s : PairEnd) → IsSide rules self.old s →
            IsWritten (turn rules s.state) rules s.size out.new s.state }
        ensures stands { (rules : Rules) (s : PairEnd) → IsSide rules self.old s →
            IsSide rules self.new (record s { state = step rules s.size s.state Build }) }
        ensures same { StaysSide self.old self.new }
    {
        self.end.build(out);
    }

    /// A PDU is in flight to it, behind the others. There are fewer than 1,024.
    pub fn send(&mut self, pdu: &[u8])
        requires room { length self.old.coming < 1024 }
        requires size { length pdu.now ≤ size_in self.old.end }
        ensures { self.new ≡ record self.old { coming = self.old.coming ++ pdu.now ∷ [] } }
    {
        self.coming.push(pdu);
    }

    /// The first PDU in flight to it is lost.
    pub fn lose(&mut self)
        ensures { self.new ≡ record self.old { coming = drop 1 self.old.coming } }
    {
        self.coming.pop();
    }

    /// The first PDU in flight to it arrives, if there is one: the answer is written, and then each unit that is
    /// handed up, by way of `unit`, which has 1,500 octets. The lines have this end's number.
    pub fn arrive<P: Page>(&mut self, number: u8, unit: &mut [u8], page: &mut P)
        requires { length unit.old ≡ 1500 }
        ensures arrives { (rules : Rules) (s : PairEnd) → IsSide rules self.old s →
            Arrives P.writes rules number s self.new page.old page.new }
        ensures same { StaysSide self.old self.new }
    {
        if let Some(pdu) = self.coming.pop() {
            let got = self.end.pdu(pdu.octets());
            put_got(page, number, got);
            hand_up(&mut self.end, number, unit, page);
        }
    }
}

/// Hands up all units that wait, and tells of each.
fn hand_up<P: Page>(end: &mut ResetEnd, number: u8, unit: &mut [u8], page: &mut P)
    requires { length unit.old ≡ 1500 }
    ensures told { P.writes page.old (units_text number (waiting_in end.old)) page.new }
    ensures settled { is_settled end.new ≡ true }
    ensures sizes { AreSizes end.old end.new }
    ensures history { (rules : Rules) (e : State) → Represents rules end.old e →
        Represents rules end.new (handed_up e) }
{
    while let Some(handed) = end.next_unit(unit) {
        put_handed(page, number, handed, unit);
    }
}
