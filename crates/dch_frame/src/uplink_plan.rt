ghost use Rattle.std.specs.Prelude.{◌≡◌, ◌<◌, ◌≤◌, ◌*◌, ◌^◌, ◌↔◌, length, slice_index, find, filter, ℕ, [], IfOk, IfErr, IsErr};
ghost use Rattle.dch_types.specs.Limits.{IsSide, IsUplink, frame_sizes};
ghost use Rattle.dch_types.specs.Parts.{channel_at};
ghost use Rattle.dch_types.specs.Sums.{total};
ghost use Rattle.dch_frame.specs.Patterns.{IsWellFormed, copies_below};
ghost use Rattle.dch_frame.specs.Uplinks.{before_of, weight_of, sent_of, uplink_pattern, least_rm, codes, in_set1, in_set2, needs_more, set2, first_raised, chosen, demand_of, IsPlan};

use crate::matched::frame_pattern;
use crate::pattern::Pattern;
use crate::shares::share;
use dch_types::{Side, Uplink};

/// The data bits of an uplink radio frame on one code, and on 2 to 6 codes.
const SIZES: [u32; 12] = [
    150, 300, 600, 1200, 2400, 4800, 9600, 19200, 28800, 38400, 48000, 57600,
];

/// Why a combination has no plan.
#[derive(Clone, Copy, Debug, PartialEq, Eq)]
pub enum MatchError {
    /// At no frame size does the puncturing of this combination keep to its limit.
    NoRate(u16),
}

/// The amounts of an uplink radio frame in a combination.
#[derive(Clone, Copy, Debug, PartialEq, Eq)]
pub struct UplinkPlan {
    /// The data bits of the frame, over all codes.
    pub ndata: u32,
    /// The bits of each channel in a frame before rate matching; 0 past the last channel.
    pub before: [u32; 8],
    /// And after it.
    pub sent: [u32; 8],
}

/// What a combination asks of a frame: the sum of RM*N, the least RM, the largest size that is allowed, and the
/// puncturing limit in hundredths.
#[derive(Clone, Copy)]
pub struct Demand {
    pub weight: u64,
    pub least: u64,
    pub largest: u32,
    pub pl: u8,
}

/// The bits of a channel in a radio frame of a combination, before rate matching.
fn before_of(side: &Side, c: usize, i: usize) -> u64
    requires good { IsSide side.now }
    requires combination { c < length side.now.combinations }
    requires channel { i < length side.now.channels }
    ensures value { result ≡ before_of side.now c i }
    ensures small { result ≤ 131072 }
{
    let channel = side.channel(i);
    let format = channel.format(side.tfi(c, i) as usize);
    channel.tti_bits(format).div_ceil(channel.frames as u64)
}

/// RM*N of a channel.
fn weight_of(side: &Side, c: usize, i: usize) -> u64
    requires good { IsSide side.now }
    requires combination { c < length side.now.combinations }
    requires channel { i < length side.now.channels }
    ensures value { result ≡ weight_of side.now c i }
    ensures small { result ≤ 33554432 }
{
    side.channel(i).rm as u64 * before_of(side, c, i)
}

/// The sum of RM*N over all channels.
fn whole_weight(side: &Side, c: usize) -> u64
    requires good { IsSide side.now }
    requires combination { c < length side.now.combinations }
    ensures value { result ≡ total (weight_of side.now c) (length side.now.channels) }
    ensures small { result < 2 ^ 32 }
{
    let mut weight = 0;
    for i in 0..side.channels.len() {
        weight += weight_of(side, c, i);
    }
    weight
}

/// The least RM of all channels.
fn least_rm(side: &Side) -> u64
    requires { IsSide side.now }
    ensures value { result ≡ least_rm side.now (length side.now.channels) }
    ensures small { result ≤ 256 }
{
    let mut least = side.channel(0).rm;
    for i in 0..side.channels.len() {
        least = least.min(side.channel(i).rm);
    }
    least as u64
}

/// The codes that a frame of so many data bits needs.
fn codes(size: u32) -> u32
    ensures { result ≡ codes size }
{
    size.div_ceil(9600)
}

/// Whether a frame of this size punctures no channel.
fn in_set1(demand: &Demand, size: u32) -> bool
    requires small { demand.now.least ≤ 256 }
    ensures { result ≡ in_set1 demand.now size }
{
    size <= demand.largest && demand.weight <= demand.least * size as u64
}

/// Whether puncturing keeps to its limit in a frame of this size.
fn in_set2(demand: &Demand, size: u32) -> bool
    requires small { demand.now.least ≤ 256 }
    requires weight { demand.now.weight < 2 ^ 32 }
    ensures { result ≡ in_set2 demand.now size }
{
    size <= demand.largest && demand.pl as u64 * demand.weight <= 100 * (demand.least * size as u64)
}

/// The least size that punctures no channel.
fn least_of_set1(demand: &Demand) -> Option<u32>
    requires small { demand.now.least ≤ 256 }
    ensures { result ≡ find (in_set1 demand.now) frame_sizes }
{
    SIZES.iter().copied().find(|size| in_set1(demand, *size))
}

/// Whether a size needs more codes than the one that is held.
fn needs_more(held: Option<u32>, size: u32) -> bool
    ensures { result ≡ needs_more held size }
{
    match held {
        None => false,
        Some(before) => codes(before) < codes(size),
    }
}

/// The least of these sizes at which puncturing keeps to its limit, raised while the next one needs no more codes.
fn raised_of_set2(demand: &Demand, sizes: &[u32]) -> Option<u32>
    requires small { demand.now.least ≤ 256 }
    requires weight { demand.now.weight < 2 ^ 32 }
    ensures { result ≡ first_raised (filter (in_set2 demand.now) sizes.now) }
{
    let mut held: Option<u32> = None;
    for size in sizes {
        if in_set2(demand, *size) {
            if needs_more(held, *size) {
                return held;
            }
            held = Some(*size);
        }
    }
    held
}

/// The size of a frame (TS 25.212 4.2.7.1.1).
#[tactic(auto, unfolding(crate::specs::Uplinks::chosen, crate::specs::Uplinks::set2))]
fn chosen(demand: &Demand) -> Option<u32>
    requires small { demand.now.least ≤ 256 }
    requires weight { demand.now.weight < 2 ^ 32 }
    ensures { result ≡ chosen demand.now }
{
    if demand.weight == 0 {
        return Some(0);
    }
    if let Some(size) = least_of_set1(demand)
        && codes(size) <= 1
    {
        return Some(size);
    }
    raised_of_set2(demand, &SIZES)
}

/// The bits of each channel before and after rate matching, in a frame of `ndata` bits.
fn amounts(side: &Side, c: usize, ndata: u32, weight: u64) -> ([u32; 8], [u32; 8])
    requires good { IsSide side.now }
    requires combination { c < length side.now.combinations }
    requires small { weight < 2 ^ 32 }
    requires weight { weight ≡ total (weight_of side.now c) (length side.now.channels) }
    ensures before { (i : ℕ) → i < length side.now.channels → slice_index result.0 i ≡ before_of side.now c i }
    ensures sent { (i : ℕ) → i < length side.now.channels → slice_index result.1 i ≡ sent_of side.now c ndata i }
    ensures no_more { (i : ℕ) → length side.now.channels ≤ i → (slice_index result.0 i ≡ 0) ×
        (slice_index result.1 i ≡ 0) }
{
    let mut before = [0; 8];
    let mut sent = [0; 8];
    let mut held = 0;
    for i in 0..side.channels.len() {
        let part = weight_of(side, c, i);
        before[i] = before_of(side, c, i) as u32;
        sent[i] = share(held, part, ndata as u64, weight) as u32;
        held += part;
    }
    (before, sent)
}

/// The frame size and the amounts of a combination (TS 25.212 4.2.7.1). Fails where no frame size is large enough for
/// the puncturing limit.
pub fn uplink(config: &Uplink, combination: u16) -> Result<UplinkPlan, MatchError>
    requires good { IsUplink config.now }
    requires combination { combination < length config.now.side.combinations }
    ensures planned { IfOk result (IsPlan config.now combination) }
    ensures refused { IsErr result ↔ (set2 (demand_of config.now combination) ≡ []) }
    ensures cause { IfErr result (λ error. error ≡ MatchError.NoRate combination) }
{
    let side = &config.side;
    let c = combination as usize;
    let weight = whole_weight(side, c);
    let demand = Demand {
        weight,
        least: least_rm(side),
        largest: config.largest,
        pl: config.pl,
    };
    match chosen(&demand) {
        None => Err(MatchError::NoRate(combination)),
        Some(ndata) => {
            let (before, sent) = amounts(side, c, ndata, weight);
            Ok(UplinkPlan {
                ndata,
                before,
                sent,
            })
        }
    }
}

/// The rate matching of radio frame `n`, from 0, of a TTI of a channel. The plan is that of the combination
/// (TS 25.212 4.2.7.1.2).
pub fn frame(config: &Uplink, combination: u16, plan: &UplinkPlan, channel: u8, n: u8) -> Pattern
    requires good { IsUplink config.now }
    requires combination { combination < length config.now.side.combinations }
    requires plan { IsPlan config.now combination plan.now }
    requires channel { channel < length config.now.side.channels }
    requires frame { n < (channel_at config.now.side channel).frames }
    ensures value { result ≡ uplink_pattern config.now.side combination plan.now.ndata channel n }
    ensures formed { IsWellFormed result }
    ensures len { result.len ≡ before_of config.now.side combination channel }
    ensures kept { copies_below result.kind result.len ≡ sent_of config.now.side combination plan.now.ndata channel }
{
    let i = channel as usize;
    let frames = config.side.channel(i).frames as u64;
    frame_pattern(plan.before[i], plan.sent[i], frames, n as u64)
}
