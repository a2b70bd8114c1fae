ghost use Rattle.std.specs.Prelude.{◌≡◌, ◌≢◌, ◌+◌, ◌*◌, ◌^◌, ◌<◌, ◌≤◌, ℕ, List, length, take, slice_index_or, IfOk};
ghost use Rattle.dch_bits.specs.declared.bit.Bit.{Bit};
ghost use Rattle.dch_bits.specs.declared.bit.Vote.{Vote};
ghost use Rattle.dch_types.specs.declared.channel.Coding.TheVariants.{Uncoded};
ghost use Rattle.dch_types.specs.Lengths.{coded_block, coded_bits};
ghost use Rattle.dch_coding.specs.Segments.{plan_of, filler_of};
ghost use Rattle.dch_coding.specs.Rooms.{searched_bits};
ghost use Rattle.dch_coding.specs.Ttis.{part};
ghost use Rattle.dch_trellis.specs.Distance.{HaveCopies};
ghost use Rattle.dch_tti.specs.JoinedBits.{IsRead, AreRead};
ghost use Rattle.dch_tti.specs.Corrected.{AreCorrectable, AreFewWrong};

use crate::block::read_block;
use dch_bits::{Bit, NoMemory, Vote};
use dch_coding::{CodingRoom, Plan, join, plan};
use dch_trellis::Trellis;
use dch_types::Coding;
use std::alloc::Global;
use std::marker::Model;

/// The room to decode one TTI at a time. Contracts see for how large ones.
#[derive(Drop)]
pub struct Decoder {
    pub(crate) trellis: Trellis,
    pub(crate) blocks: Vec<Bit>,
    pub(crate) joined: Vec<Bit>,
}

impl Model for Decoder {
    ghost use Rattle.std.specs.Prelude.{◌≡◌, length};
    ghost use Rattle.dch_coding.specs.declared.room.CodingRoom.{CodingRoom};

    ghost Value = { CodingRoom };

    ghost view = { λ d. record { bits = length d.joined.items; code_block = d.trellis } };

    ghost invariant = { λ d. length d.blocks.items ≡ length d.joined.items };
}

impl Decoder {
    /// Takes the memory to decode TTIs of that size. Nothing more is taken later.
    pub fn open(alloc: Global, room: CodingRoom) -> Result<Decoder, NoMemory>
        requires { room.code_block ≤ 504 }
        ensures { IfOk result (λ decoder. decoder ≡ room) }
    {
        Ok(Decoder {
            trellis: Trellis::open(alloc, room.code_block)?,
            blocks: vec![in alloc; Bit::Zero; room.bits]?,
            joined: vec![in alloc; Bit::Zero; room.bits]?,
        })
    }

    /// Reads the joined bits of a TTI from the votes for its coded bits (TS 25.212 4.2.2 and 4.2.3): each code block is
    /// the one that the fewest received copies speak against, and a bit that is not coded is One where more ones than
    /// zeros were received. A bit has no more copies than eight radio frames have cells, 460,800. With a copy of each
    /// coded bit, a code block of which at most five copies are wrong at rate 1/2, or eight at rate 1/3, is read as it
    /// was sent. In general it is where the wrong copies twice and the missing ones once are less than the copies in
    /// which two blocks differ.
    pub fn decode(&mut self, coding: Coding, votes: &[Vote], joined: &mut [Bit])
        requires coded { length votes.now ≡ coded_bits coding (length joined.old) }
        requires short { length votes.now ≤ 131072 }
        requires fits { length votes.now ≤ self.old.bits }
        requires block { searched_bits coding (length joined.old) ≤ self.old.code_block }
        requires few { (j : ℕ) (v : Vote) → j < length votes.now →
            (slice_index_or votes.now j v).zeros + (slice_index_or votes.now j v).ones ≤ 460800 }
        ensures read { AreRead coding votes.now joined.new }
        ensures corrected { (bits : List Bit) (least : ℕ) → length bits ≡ length joined.new →
            HaveCopies least votes.now → AreFewWrong coding least votes.now bits → joined.new ≡ bits }
        ensures told_apart { (bits : List Bit) (sent : ℕ → ℕ) → length bits ≡ length joined.new →
            AreCorrectable coding sent votes.now bits → joined.new ≡ bits }
        ensures kept { self.new ≡ self.old }
    {
        decode_with(&mut self.trellis, &mut self.blocks, coding, votes, joined);
    }
}

/// Reads so many joined bits to the front of `out`.
pub(crate) fn decode_front(
    trellis: &mut Trellis,
    blocks: &mut [Bit],
    coding: Coding,
    votes: &[Vote],
    len: usize,
    out: &mut [Bit],
)
    requires longest { searched_bits coding len ≤ trellis.old }
    requires blocks { length votes.now ≤ length blocks.old }
    requires room { length votes.now ≤ length out.old }
    requires coded { length votes.now ≡ coded_bits coding len }
    requires short { length votes.now ≤ 131072 }
    requires few { (j : ℕ) (v : Vote) → j < length votes.now →
        (slice_index_or votes.now j v).zeros + (slice_index_or votes.now j v).ones ≤ 460800 }
    ensures fits { len ≤ length out.new }
    ensures read { AreRead coding votes.now (take len out.new) }
    ensures kept { trellis.new ≡ trellis.old }
{
    decode_with(trellis, blocks, coding, votes, &mut out[..len]);
}

fn decode_with(
    trellis: &mut Trellis,
    blocks: &mut [Bit],
    coding: Coding,
    votes: &[Vote],
    joined: &mut [Bit],
)
    requires longest { searched_bits coding (length joined.old) ≤ trellis.old }
    requires room { length votes.now ≤ length blocks.old }
    requires coded { length votes.now ≡ coded_bits coding (length joined.old) }
    requires short { length votes.now ≤ 131072 }
    requires few { (j : ℕ) (v : Vote) → j < length votes.now →
        (slice_index_or votes.now j v).zeros + (slice_index_or votes.now j v).ones ≤ 460800 }
    ensures read { AreRead coding votes.now joined.new }
    ensures kept { trellis.new ≡ trellis.old }
{
    let plan = plan(joined.len(), coding);
    let blocks = &mut blocks[..plan.blocks * plan.size];
    read_blocks(trellis, coding, &plan, votes, blocks);
    join(&plan, blocks, joined);
}

/// Reads the code blocks one after another.
fn read_blocks(
    trellis: &mut Trellis,
    coding: Coding,
    plan: &Plan,
    votes: &[Vote],
    blocks: &mut [Bit],
)
    requires room { coding ≢ Uncoded → plan.now.size ≤ trellis.old }
    requires short { plan.now.size ≤ 131072 }
    requires coded { coding ≢ Uncoded → plan.now.size ≤ 504 }
    requires some { 0 < plan.now.blocks → 1 ≤ plan.now.size }
    requires filler { 0 < plan.now.blocks → plan.now.filler ≤ plan.now.size }
    requires votes { length votes.now ≡ plan.now.blocks * coded_block coding plan.now.size }
    requires few { (j : ℕ) (v : Vote) → j < length votes.now →
        (slice_index_or votes.now j v).zeros + (slice_index_or votes.now j v).ones ≤ 460800 }
    requires blocks { length blocks.old ≡ plan.now.blocks * plan.now.size }
    ensures read { (r : ℕ) → r < plan.now.blocks →
        IsRead coding (part r (coded_block coding plan.now.size) votes.now) (filler_of plan.now r)
        (part r plan.now.size blocks.new) }
    ensures kept { trellis.new ≡ trellis.old }
{
    let size = plan.size;
    let coded = coding.coded_block(size as u64) as usize;
    for r in 0..plan.blocks {
        let from = r * coded;
        let to = r * size;
        read_block(
            trellis,
            coding,
            &votes[from..from + coded],
            plan.filler_of(r),
            &mut blocks[to..to + size],
        );
    }
}
