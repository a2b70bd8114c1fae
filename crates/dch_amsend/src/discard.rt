ghost use Rattle.std.specs.Prelude.{◌≡◌, ◌+◌, ◌<◌, ◌≤◌, ℕ, List, IfOk, Some, length};
ghost use Rattle.dch_bits.specs.declared.offer.Offer.TheVariants.{Accepted};
ghost use Rattle.dch_am.specs.Rules.{Rules};
ghost use Rattle.dch_am.specs.Cuts.{IsCut};
ghost use Rattle.dch_am.specs.Discards.{discards_at};
ghost use Rattle.dch_am.specs.Restart.{restarted_sender};
ghost use Rattle.dch_am.specs.Sender.{Sender, after_offer, opened_sender};
ghost use Rattle.dch_amsend.specs.SduDiscard.{age_at, capped, discarded_to, without_front, no_sdu_held, restarted_discards, one_tick_older, with_sdu};
ghost use Rattle.dch_amsend.specs.DiscardStanding.{AreReleased, DiscardStands, IsTicked, released};

use crate::ages::Ages;
use dch_bits::NoMemory;
use std::alloc::Global;
use std::marker::Model;

/// Of the SDUs that a sender holds, the oldest first: their ages, how many in front are discarded, and how many were
/// since opening.
#[derive(Drop)]
pub struct SduDiscard {
    ages: Ages,
    passed: usize,
    discarded: u64,
}

impl Model for SduDiscard {
    ghost use Rattle.std.specs.Prelude.{◌≤◌};
    ghost use Rattle.dch_amsend.specs.SduDiscard.{SduDiscard};

    ghost Value = { SduDiscard };

    ghost view = { λ h. record {
      ages = h.ages.items;
      most = h.ages.capacity;
      passed = h.passed;
      discarded = h.discarded;
    } };

    ghost invariant = { λ h. h.ages.capacity ≤ 65535 };
}

impl SduDiscard {
    /// No SDU is held, and there may be `most`. All memory is taken here.
    pub fn open(alloc: Global, most: u16) -> Result<SduDiscard, NoMemory>
        ensures empty { IfOk result (λ h. h ≡ no_sdu_held most) }
        ensures history { IfOk result (λ h. (rules : Rules) → DiscardStands rules h opened_sender) }
    {
        SduDiscard::empty(alloc, most)
    }

    /// The same, by places.
    fn empty(alloc: Global, most: u16) -> Result<SduDiscard, NoMemory>
        ensures empty { IfOk result (λ h. h ≡ no_sdu_held most) }
    {
        let ages = Ages::open(alloc, most)?;
        Ok(SduDiscard {
            ages,
            passed: 0,
            discarded: 0,
        })
    }

    /// One more SDU is accepted.
    pub fn accept(&mut self)
        requires room { length self.old.ages < self.old.most }
        ensures after { self.new ≡ with_sdu self.old }
        ensures history { (rules : Rules) (s : Sender) (unit : List ℕ) → IsCut s.accepted s.unsent s.bodies →
            DiscardStands rules self.old s → DiscardStands rules self.new (after_offer Accepted s unit) }
    {
        self.push();
    }

    /// The same, by places.
    fn push(&mut self)
        requires room { length self.old.ages < self.old.most }
        ensures after { self.new ≡ with_sdu self.old }
    {
        self.ages.push();
    }

    /// So many SDUs in front are released: they are acknowledged with all PDUs before their ends.
    pub fn release(&mut self, sdus: usize)
        requires { sdus ≤ length self.old.ages }
        ensures after { self.new ≡ without_front sdus self.old }
        ensures history { (rules : Rules) (s now : Sender) → AreReleased sdus s now → DiscardStands rules self.old s →
            DiscardStands rules self.new now }
    {
        self.leave(sdus);
    }

    /// The same, by places.
    fn leave(&mut self, sdus: usize)
        requires { sdus ≤ length self.old.ages }
        ensures after { self.new ≡ without_front sdus self.old }
    {
        let held = self.ages.len() - sdus;
        self.ages.truncate_front(held);
        self.passed = self.passed.saturating_sub(sdus);
    }

    /// Every SDU is one tick older.
    pub fn tick(&mut self)
        ensures after { self.new ≡ one_tick_older self.old }
        ensures history { (rules : Rules) (s now : Sender) → IsTicked s now → DiscardStands rules self.old s →
            DiscardStands rules self.new now }
    {
        self.grow_older();
    }

    /// The same, by places.
    fn grow_older(&mut self)
        ensures after { self.new ≡ one_tick_older self.old }
    {
        self.ages.tick();
    }

    /// The SDUs in front, up to a place, are discarded. They are held until their PDUs are acknowledged.
    pub fn discard(&mut self, to: usize)
        requires held { to ≤ length self.old.ages }
        requires forward { self.old.passed ≤ to }
        ensures after { self.new ≡ discarded_to to self.old }
        ensures history { (rules : Rules) (s : Sender) (r : ℕ) (p : ℕ × ℕ) → to ≡ r + 1 →
            DiscardStands rules self.old s → DiscardStands rules self.new (discards_at s (released s + r) (Some p)) }
    {
        self.pass(to);
    }

    /// The same, by places.
    fn pass(&mut self, to: usize)
        requires forward { self.old.passed ≤ to }
        ensures after { self.new ≡ discarded_to to self.old }
    {
        self.discarded = capped_sum(self.discarded, to - self.passed);
        self.passed = to;
    }

    /// The sender begins anew: the last SDUs stay, so many, and none of them is discarded. Their ages go on.
    pub fn restart(&mut self, kept: usize)
        ensures after { self.new ≡ restarted_discards kept self.old }
        ensures history { (rules : Rules) (s : Sender) → kept ≡ length (restarted_sender s).accepted →
            IsCut s.accepted s.unsent s.bodies → DiscardStands rules self.old s →
            DiscardStands rules self.new (restarted_sender s) }
    {
        self.keep(kept);
    }

    /// The same, by places.
    fn keep(&mut self, kept: usize)
        ensures after { self.new ≡ restarted_discards kept self.old }
    {
        self.ages.truncate_front(kept);
        self.passed = 0;
    }

    /// How many SDUs are held.
    pub fn len(&self) -> usize
        ensures count { result ≡ length self.now.ages }
        ensures small { result ≤ 65535 }
    {
        self.ages.len()
    }

    /// The age of the SDU at a place, in ticks, at most 65,535. Those behind it are no older.
    pub fn age(&self, i: usize) -> u16
        requires { i < length self.now.ages }
        ensures value { result ≡ age_at self.now i }
        ensures oldest { (j : ℕ) → i ≤ j → age_at self.now j ≤ result }
    {
        self.ages.at(i)
    }

    /// How many SDUs in front are discarded.
    pub fn passed(&self) -> usize
        ensures { result ≡ self.now.passed }
    {
        self.passed
    }

    /// How many SDUs were discarded since opening. The count ends at the greatest number.
    pub fn discarded(&self) -> u64
        ensures { result ≡ self.now.discarded }
    {
        self.discarded
    }
}

/// So many more, up to the greatest number.
fn capped_sum(count: u64, more: usize) -> u64
    ensures { result ≡ capped (count + more) }
{
    count.saturating_add(more as u64)
}
