ghost use Rattle.std.specs.Prelude.{◌≡◌, ◌<◌, ◌≤◌, ℕ, List, length, nat_lt, if◌then◌else◌, IfOk};
ghost use Rattle.dch_types.specs.Limits.{IsDownlink, IsSide, IsUplink};
ghost use Rattle.dch_types.specs.Parts.{channel_at, format_number};
ghost use Rattle.dch_frame.specs.Downlinks.{IsDownlinkPlan};
ghost use Rattle.dch_collision.specs.Copies.{downlink_copies, uplink_copies};
ghost use Rattle.dch_collision.specs.Directions.{IsPlanned, copies_in, side_in};
ghost use Rattle.dch_collision.specs.Plans.{AreAllPlans};
ghost use Rattle.dch_collision.specs.Sequences.{IsFirst, IsLegal, frames_of};
ghost use Rattle.dch_margin.specs.Differ.{IsLeastInFormat, IsLeastUnder};
ghost use Rattle.dch_margin.specs.Fewest.{IsSureDistance};
ghost use Rattle.dch_margin.specs.Margins.{IsFinding};
ghost use Rattle.dch_margin.specs.Sizes.{AreSizes};

use crate::counting::{count_downlink, count_uplink};
use crate::distance::{Least, least_in_tti};
use crate::fewest::count_fewest;
use crate::sizes::{Sizes, sizes_of};
use dch_bits::{NoMemory, Vote};
use dch_collision::Direction;
use dch_collision::legal_counting::count;
use dch_collision::legal_sequences::{first, next};
use dch_frame::{DownlinkPlan, UplinkPlan};
use dch_trellis::Trellis;
use dch_types::{Downlink, Side, Uplink};
use std::alloc::Global;

/// What is found of a format of a channel.
#[derive(Clone, Copy)]
pub enum Finding {
    /// The least cells in which two code blocks differ under any legal sequence of combinations.
    Found(Least),
    /// No code block is sent in the format: it has no bits, or it stands in no combination.
    Unsent,
    /// There are so many legal sequences, and more than 2,048 code blocks to look at under them. Two code blocks differ
    /// in so many cells at least under any of them.
    Many { distance: u32, sequences: u64 },
}

/// The most code blocks of a format that are looked at, each under all legal sequences.
const MOST_SEARCHES: u128 = 2048;

/// The channels of a direction.
pub fn side_of<'a>(direction: Direction<'a>) -> &'a Side
    requires { IsPlanned direction }
    ensures value { result.now ≡ side_in direction.entry }
    ensures good { IsSide result.now }
{
    match direction {
        Direction::Up { config, .. } => &config.side,
        Direction::Down { config, .. } => &config.side,
    }
}

/// Finds the least cells in which two code blocks of format `f` of channel `i` differ, and leaves in `best` the first
/// legal sequence of combinations under which two do.
pub fn find(
    alloc: Global,
    trellis: &mut Trellis,
    direction: Direction<'_>,
    i: u8,
    f: u8,
    best: &mut [u16],
) -> Result<Finding, NoMemory>
    requires room { 504 ≤ trellis.old }
    requires planned { IsPlanned direction }
    requires channel { i < length (side_in direction).channels }
    requires format { f < length (channel_at (side_in direction) i).formats }
    requires best { length best.old ≡ frames_of (side_in direction) i }
    ensures finding { IfOk result (IsFinding (side_in direction.entry) (copies_in direction.entry) i f best.new) }
    ensures kept { trellis.new ≡ trellis.old }
{
    match direction {
        Direction::Up { config, plans } => find_up(alloc, trellis, config, plans, i, f, best),
        Direction::Down { config, plan } => find_down(alloc, trellis, config, plan, i, f, best),
    }
}

/// Of an uplink format: over all legal sequences, since the rate matching of each radio frame is that of its own
/// combination.
fn find_up(
    alloc: Global,
    trellis: &mut Trellis,
    config: &Uplink,
    plans: &[UplinkPlan],
    i: u8,
    f: u8,
    best: &mut [u16],
) -> Result<Finding, NoMemory>
    requires room { 504 ≤ trellis.old }
    requires good { IsUplink config.now }
    requires plans { AreAllPlans config.now plans.now }
    requires channel { i < length config.now.side.channels }
    requires format { f < length (channel_at config.now.side i).formats }
    requires best { length best.old ≡ frames_of config.now.side i }
    ensures finding { IfOk result (IsFinding config.now.side (uplink_copies config.now) i f best.new) }
    ensures kept { trellis.new ≡ trellis.old }
{
    let side = &config.side;
    let sizes = sizes_of(side, i, f);
    let mut places = [0; 8];
    let sequence = &mut places[..usize::from(side.frames_of(usize::from(i)))];
    if sizes.plan.blocks == 0 || !first(side, i, f, sequence) {
        return Ok(Finding::Unsent);
    }
    let sequences = count(side, i, f);
    let mut segment = no_votes(alloc, sizes.padded)?;
    let mut votes = no_votes(alloc, sizes.padded)?;
    if u128::from(sequences) * sizes.plan.blocks as u128 > MOST_SEARCHES {
        let mut fewest = no_votes(alloc, sizes.padded)?;
        let distance = sure_distance(
            trellis,
            config,
            plans,
            i,
            f,
            &sizes,
            sequence[0],
            &mut segment,
            &mut fewest,
            &mut votes,
        );
        return Ok(Finding::Many {
            distance,
            sequences,
        });
    }
    let least = least_up(
        trellis,
        config,
        plans,
        i,
        f,
        &sizes,
        sequence,
        best,
        &mut segment,
        &mut votes,
    );
    Ok(Finding::Found(least))
}

/// In so many cells two blocks would differ at least if each coded bit were sent in as few cells as under any legal
/// sequence.
fn sure_distance(
    trellis: &mut Trellis,
    config: &Uplink,
    plans: &[UplinkPlan],
    i: u8,
    f: u8,
    sizes: &Sizes,
    first: u16,
    counted: &mut [Vote],
    fewest: &mut [Vote],
    votes: &mut [Vote],
) -> u32
    requires room { 504 ≤ trellis.old }
    requires good { IsUplink config.now }
    requires plans { AreAllPlans config.now plans.now }
    requires channel { i < length config.now.side.channels }
    requires sizes { AreSizes config.now.side i f sizes.now }
    requires some { 1 ≤ sizes.now.plan.blocks }
    requires there { first < length config.now.side.combinations }
    requires has { format_number config.now.side first i ≡ f }
    requires counted { length counted.old ≡ sizes.now.padded }
    requires fewest { length fewest.old ≡ sizes.now.padded }
    requires votes { length votes.old ≡ sizes.now.padded }
    ensures sure { IsSureDistance config.now.side (uplink_copies config.now) i f result }
    ensures kept { trellis.new ≡ trellis.old }
{
    count_fewest(config, plans, i, f, first, counted, fewest, votes);
    least_in_tti(trellis, sizes.coding, &sizes.plan, votes).cells
}

/// Of a downlink format: all legal sequences send the same cells.
fn find_down(
    alloc: Global,
    trellis: &mut Trellis,
    config: &Downlink,
    plan: &DownlinkPlan,
    i: u8,
    f: u8,
    best: &mut [u16],
) -> Result<Finding, NoMemory>
    requires room { 504 ≤ trellis.old }
    requires good { IsDownlink config.now }
    requires plan { IsDownlinkPlan config.now plan.now }
    requires channel { i < length config.now.side.channels }
    requires format { f < length (channel_at config.now.side i).formats }
    requires best { length best.old ≡ frames_of config.now.side i }
    ensures finding { IfOk result (IsFinding config.now.side (downlink_copies config.now) i f best.new) }
    ensures kept { trellis.new ≡ trellis.old }
{
    let side = &config.side;
    let sizes = sizes_of(side, i, f);
    if sizes.plan.blocks == 0 || !first(side, i, f, best) {
        return Ok(Finding::Unsent);
    }
    let mut votes = no_votes(alloc, sizes.bits)?;
    let least = least_down(trellis, config, plan, i, f, &sizes, &mut votes);
    Ok(Finding::Found(least))
}

/// The least cells in which two blocks differ, from the first legal sequence to the last, and the first one under which
/// two do.
fn least_up(
    trellis: &mut Trellis,
    config: &Uplink,
    plans: &[UplinkPlan],
    i: u8,
    f: u8,
    sizes: &Sizes,
    sequence: &mut [u16],
    best: &mut [u16],
    segment: &mut [Vote],
    votes: &mut [Vote],
) -> Least
    requires room { 504 ≤ trellis.old }
    requires good { IsUplink config.now }
    requires plans { AreAllPlans config.now plans.now }
    requires channel { i < length config.now.side.channels }
    requires sizes { AreSizes config.now.side i f sizes.now }
    requires some { 1 ≤ sizes.now.plan.blocks }
    requires first { IsFirst config.now.side i f sequence.old }
    requires best { length best.old ≡ frames_of config.now.side i }
    requires segment { length segment.old ≡ sizes.now.padded }
    requires votes { length votes.old ≡ sizes.now.padded }
    ensures least { IsLeastInFormat config.now.side (uplink_copies config.now) i f best.new result }
    ensures kept { trellis.new ≡ trellis.old }
{
    let side = &config.side;
    let mut least = least_under(
        trellis, config, plans, i, f, sizes, sequence, segment, votes,
    );
    best.copy_from_slice(sequence);
    'sequences: loop {
        if !next(side, i, f, sequence) {
            return least;
        }
        let here = least_under(
            trellis, config, plans, i, f, sizes, sequence, segment, votes,
        );
        least = keep_lesser(here, sequence, least, best);
    }
}

/// The lesser of two, with its sequence in `best`; of two that are as little the first.
fn keep_lesser(here: Least, sequence: &[u16], least: Least, best: &mut [u16]) -> Least
    requires { length best.old ≡ length sequence.now }
    ensures least { result ≡ (if nat_lt here.cells least.cells then here else least) }
    ensures best { best.new ≡ (if nat_lt here.cells least.cells then sequence.now else best.old) }
{
    if here.cells < least.cells {
        best.copy_from_slice(sequence);
        here
    } else {
        least
    }
}

/// The least cells in which two blocks differ under a legal sequence.
fn least_under(
    trellis: &mut Trellis,
    config: &Uplink,
    plans: &[UplinkPlan],
    i: u8,
    f: u8,
    sizes: &Sizes,
    sequence: &[u16],
    segment: &mut [Vote],
    votes: &mut [Vote],
) -> Least
    requires room { 504 ≤ trellis.old }
    requires good { IsUplink config.now }
    requires plans { AreAllPlans config.now plans.now }
    requires channel { i < length config.now.side.channels }
    requires sizes { AreSizes config.now.side i f sizes.now }
    requires some { 1 ≤ sizes.now.plan.blocks }
    requires legal { IsLegal config.now.side i f sequence.now }
    requires segment { length segment.old ≡ sizes.now.padded }
    requires votes { length votes.old ≡ sizes.now.padded }
    ensures least { IsLeastUnder config.now.side (uplink_copies config.now) i f sequence.now result }
    ensures kept { trellis.new ≡ trellis.old }
{
    count_uplink(config, plans, i, f, sequence, segment, votes);
    least_in_tti(trellis, sizes.coding, &sizes.plan, votes)
}

/// The least cells in which two blocks differ, whatever the sequence.
fn least_down(
    trellis: &mut Trellis,
    config: &Downlink,
    plan: &DownlinkPlan,
    i: u8,
    f: u8,
    sizes: &Sizes,
    votes: &mut [Vote],
) -> Least
    requires room { 504 ≤ trellis.old }
    requires good { IsDownlink config.now }
    requires plan { IsDownlinkPlan config.now plan.now }
    requires channel { i < length config.now.side.channels }
    requires format { f < length (channel_at config.now.side i).formats }
    requires sizes { AreSizes config.now.side i f sizes.now }
    requires some { 1 ≤ sizes.now.plan.blocks }
    requires votes { length votes.old ≡ sizes.now.bits }
    ensures least { (sequence : List ℕ) →
        IsLeastUnder config.now.side (downlink_copies config.now) i f sequence result }
    ensures kept { trellis.new ≡ trellis.old }
{
    count_downlink(config, plan, i, f, votes);
    least_in_tti(trellis, sizes.coding, &sizes.plan, votes)
}

/// Room to count the cells of so many bits.
pub fn no_votes(alloc: Global, count: usize) -> Result<Vec<Vote>, NoMemory>
    ensures { IfOk result (λ votes. length votes.items ≡ count) }
{
    match vec![in alloc; Vote { zeros: 0, ones: 0 }; count] {
        Ok(votes) => Ok(votes),
        Err(_) => Err(NoMemory),
    }
}
