ghost use Rattle.std.specs.Prelude.{◌≡◌, ◌≢◌, ◌<◌, ◌≤◌, ◌*◌, length, IfOk};
ghost use Rattle.dch_types.specs.declared.channel.Coding.TheVariants.{Uncoded};
ghost use Rattle.dch_types.specs.Lengths.{coded_block};
ghost use Rattle.dch_types.specs.Parts.{channel_at};
ghost use Rattle.dch_collision.specs.Directions.{IsPlanned, copies_in, side_in};
ghost use Rattle.dch_collision.specs.Sequences.{IsLegal};
ghost use Rattle.dch_margin.specs.Counts.{AreCounts};
ghost use Rattle.dch_margin.specs.Differ.{IsLeastInFormat, plan_in};
ghost use Rattle.dch_margin.specs.Sizes.{AreSizes};
ghost use Rattle.dch_margin.specs.Worst.{IsNear, IsWorst, IsWorstCase, carriers_in};

use crate::counting::{count_downlink, count_uplink};
use crate::distance::Least;
use crate::format::{Finding, find, no_votes, side_of};
use crate::margin::less_than_half;
use crate::nearest::nearest_code;
use crate::places::{Place, places_of};
use crate::sizes::{Sizes, sizes_of};
use dch_bits::{Bit, NoMemory, Vote};
use dch_collision::Direction;
use dch_trellis::Trellis;
use dch_types::Sequence;
use std::alloc::Global;

/// A case in which the fewest wrong cells spoil a code block: two that differ in as few cells as any.
#[derive(Drop)]
pub struct WorstCase {
    /// How many cells may be wrong in any case.
    pub cells: u32,
    /// The code block of the TTI.
    pub block: usize,
    /// The combination of each radio frame of the TTI.
    pub combinations: Sequence<u16>,
    /// The cells in which the two differ.
    pub places: Sequence<Place>,
}

/// A worst case of a format of a channel.
#[derive(Drop)]
pub enum Worst {
    /// This one.
    Case(WorstCase),
    /// No code block is sent in the format: it has no bits, or it stands in no combination.
    Unsent,
    /// There are so many legal sequences, and more than 2,048 code blocks to look at under them.
    Sequences(u64),
}

/// A worst case of format `f` of channel `i`.
pub fn worst_of(
    alloc: Global,
    trellis: &mut Trellis,
    direction: Direction<'_>,
    i: u8,
    f: u8,
) -> Result<Worst, NoMemory>
    requires room { 504 ≤ trellis.old }
    requires planned { IsPlanned direction }
    requires channel { i < length (side_in direction).channels }
    requires format { f < length (channel_at (side_in direction) i).formats }
    ensures worst { IfOk result
        (IsWorst (side_in direction.entry) (copies_in direction.entry) (carriers_in direction.entry) i f) }
    ensures kept { trellis.new ≡ trellis.old }
{
    let mut places = [0; 8];
    let best = &mut places[..usize::from(side_of(direction).frames_of(usize::from(i)))];
    match find(alloc, trellis, direction, i, f, best)? {
        Finding::Found(least) => {
            let worst = worst_case(alloc, trellis, direction, i, f, best, least)?;
            Ok(Worst::Case(worst))
        }
        Finding::Unsent => Ok(Worst::Unsent),
        Finding::Many { sequences, .. } => Ok(Worst::Sequences(sequences)),
    }
}

/// The worst case under a sequence of combinations, where the least cells are known.
fn worst_case(
    alloc: Global,
    trellis: &mut Trellis,
    direction: Direction<'_>,
    i: u8,
    f: u8,
    sequence: &[u16],
    least: Least,
) -> Result<WorstCase, NoMemory>
    requires room { 504 ≤ trellis.old }
    requires planned { IsPlanned direction }
    requires channel { i < length (side_in direction).channels }
    requires format { f < length (channel_at (side_in direction) i).formats }
    requires least { IsLeastInFormat (side_in direction) (copies_in direction) i f sequence.now least }
    ensures worst { IfOk result
        (IsWorstCase (side_in direction.entry) (copies_in direction.entry) (carriers_in direction.entry) i f) }
    ensures kept { trellis.new ≡ trellis.old }
{
    let sizes = sizes_of(side_of(direction), i, f);
    let code = near_code(alloc, trellis, direction, i, f, &sizes, sequence, least)?;
    let from = least.block * code.len();
    let places = places_of(alloc, direction, i, f, &sizes, sequence, &code, from)?;
    Ok(WorstCase {
        cells: less_than_half(least.cells),
        block: least.block,
        combinations: copied(alloc, sequence)?,
        places,
    })
}

/// The code of a block that differs from zeros in just the least cells, under a sequence of combinations and in the
/// place of a code block.
fn near_code(
    alloc: Global,
    trellis: &mut Trellis,
    direction: Direction<'_>,
    i: u8,
    f: u8,
    sizes: &Sizes,
    sequence: &[u16],
    least: Least,
) -> Result<Vec<Bit>, NoMemory>
    requires room { 504 ≤ trellis.old }
    requires planned { IsPlanned direction }
    requires channel { i < length (side_in direction).channels }
    requires format { f < length (channel_at (side_in direction) i).formats }
    requires sizes { AreSizes (side_in direction) i f sizes.now }
    requires least { IsLeastInFormat (side_in direction) (copies_in direction) i f sequence.now least }
    ensures near { IfOk result (λ code. IsNear (channel_at (side_in direction.entry) i).coding
        (plan_in (side_in direction.entry) i f) (copies_in direction.entry i f sequence.now) least.block least.cells
        code.items) }
    ensures long { IfOk result (λ code. length code.items ≡ coded_block sizes.now.coding sizes.now.plan.size) }
    ensures kept { trellis.new ≡ trellis.old }
{
    let mut votes = count_cells(alloc, direction, i, f, sizes, sequence)?;
    let mut block = no_bits(alloc, sizes.plan.size)?;
    let coded = sizes.coding.coded_block(sizes.plan.size as u64) as usize;
    let mut code = no_bits(alloc, coded)?;
    nearest_code(
        trellis,
        sizes.coding,
        &sizes.plan,
        least.block,
        &mut votes,
        least.cells,
        &mut block,
        &mut code,
    );
    Ok(code)
}

/// Counts the cells of each coded bit of a TTI under a sequence of combinations.
fn count_cells(
    alloc: Global,
    direction: Direction<'_>,
    i: u8,
    f: u8,
    sizes: &Sizes,
    sequence: &[u16],
) -> Result<Vec<Vote>, NoMemory>
    requires planned { IsPlanned direction }
    requires channel { i < length (side_in direction).channels }
    requires format { f < length (channel_at (side_in direction) i).formats }
    requires sizes { AreSizes (side_in direction) i f sizes.now }
    requires legal { IsLegal (side_in direction) i f sequence.now }
    ensures counts { IfOk result (λ votes. AreCounts (copies_in direction.entry i f sequence.now) votes.items) }
    ensures long { IfOk result (λ votes. sizes.now.bits ≤ length votes.items) }
{
    match direction {
        Direction::Up { config, plans } => {
            let mut segment = no_votes(alloc, sizes.padded)?;
            let mut votes = no_votes(alloc, sizes.padded)?;
            count_uplink(config, plans, i, f, sequence, &mut segment, &mut votes);
            Ok(votes)
        }
        Direction::Down { config, plan } => {
            let mut votes = no_votes(alloc, sizes.bits)?;
            count_downlink(config, plan, i, f, &mut votes);
            Ok(votes)
        }
    }
}

fn no_bits(alloc: Global, count: usize) -> Result<Vec<Bit>, NoMemory>
    ensures { IfOk result (λ bits. length bits.items ≡ count) }
{
    match vec![in alloc; Bit::Zero; count] {
        Ok(bits) => Ok(bits),
        Err(_) => Err(NoMemory),
    }
}

fn copied(alloc: Global, numbers: &[u16]) -> Result<Sequence<u16>, NoMemory>
    ensures { IfOk result (λ copy. copy ≡ numbers.now) }
{
    let mut copy = Sequence::new(alloc);
    for number in numbers {
        copy.push(*number)?;
    }
    Ok(copy)
}
