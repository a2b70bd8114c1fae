ghost use Rattle.std.specs.Prelude.{◌≡◌, ◌<◌, length, replicate, IfOk};
ghost use Rattle.dch_bits.specs.declared.bit.Bit.TheVariants.{Zero};
ghost use Rattle.dch_types.specs.Limits.{IsChannel, IsFrames, IsSide, IsUplink};
ghost use Rattle.dch_types.specs.Parts.{channel_at, side_of};
ghost use Rattle.dch_config.specs.Good.{IsGood};
ghost use Rattle.dch_config.specs.Bearers.{has_ct};
ghost use Rattle.dch_frame.specs.Uplinks.{IsPlan};
ghost use Rattle.dch_frame.specs.Downlinks.{IsDownlinkPlan};
ghost use Rattle.dch_collision.specs.Clear.{IsClear};
ghost use Rattle.dch_collision.specs.Plans.{plan_at, AreAllPlans};
ghost use Rattle.dch_accept.specs.Answers.{Accepts, IsSearched, Plans, count_of};
ghost use Rattle.dch_accept.specs.Plans.{IsPlanned};
ghost use Rattle.dch_accept.specs.Reports.{step_bytes};

use crate::refusal::Refusal;
use dch_bits::{Bit, NoMemory};
use dch_coding::CodingRoom;
use dch_collision::{Direction, Found, Search, count};
use dch_frame::{
    DownlinkPlan, Interleaver, MatchError, UplinkInterleavers, UplinkPlan, downlink, uplink,
};
use dch_types::{Config, Dir, Sequence, Side, Trch, Uplink};
use std::alloc::Global;
use std::marker::Model;

/// A configuration that was accepted, with the plans of its rate matching and the tables of its second interleavers.
pub struct Accepted {
    config: Config,
    uplink: Sequence<UplinkPlan>,
    downlink: DownlinkPlan,
    pub(crate) uplink_interleavers: UplinkInterleavers,
    pub(crate) downlink_interleaver: Interleaver,
    count: u128,
}

// By hand, so that whoever holds one drops it by one call.
impl Drop for Accepted {
    fn drop(self) {
        let Accepted {
            config: _config,
            uplink: _uplink,
            downlink: _downlink,
            uplink_interleavers: _uplink_interleavers,
            downlink_interleaver: _downlink_interleaver,
            count: _count,
        } = self;
    }
}

impl Model for Accepted {
    ghost use Rattle.std.specs.Prelude.{◌≡◌};
    ghost use Rattle.dch_types.specs.Lengths.{code_bits};
    ghost use Rattle.dch_accept.specs.Plans.{Planned, IsPlanned};
    ghost use Rattle.dch_accept.specs.Answers.{count_of};

    ghost Value = { Planned };

    ghost view = { λ a. record { config = a.config; uplink = a.uplink; downlink = a.downlink } };

    ghost invariant = { λ a. IsPlanned (record { config = a.config; uplink = a.uplink; downlink = a.downlink }) ×
        (a.downlink_interleaver ≡ code_bits a.config.downlink) × (a.count ≡ count_of a.config) };
}

/// The most code blocks that are looked at for collisions, each under all legal sequences.
const MOST_SEARCHES: u128 = 2048;

/// Plans the rate matching of a configuration, and keeps it. Refuses it where an uplink combination has no rate, where
/// too many code blocks may lose bits to be looked at, or where two of them are made one under a legal sequence of
/// combinations.
pub fn accept(alloc: Global, config: Config) -> Result<Accepted, Refusal>
    requires { IsGood config }
    ensures { Accepts config result }
{
    let uplink = plans(alloc, &config.uplink)?;
    let downlink = downlink(alloc, &config.downlink)?;
    let count = count(
        &config.uplink,
        uplink.as_slice(),
        &config.downlink,
        &downlink,
    );
    if count > MOST_SEARCHES {
        return Err(Refusal::Sequences(count));
    }
    look_for_collisions(alloc, &config, uplink.as_slice(), &downlink, count)?;
    let uplink_interleavers = UplinkInterleavers::open(alloc)?;
    let downlink_interleaver = Interleaver::open(alloc, config.downlink.code_bits())?;
    Ok(Accepted {
        config,
        uplink,
        downlink,
        uplink_interleavers,
        downlink_interleaver,
        count,
    })
}

/// The plan of each uplink combination.
fn plans(alloc: Global, config: &Uplink) -> Result<Sequence<UplinkPlan>, Refusal>
    requires { IsUplink config.now }
    ensures { Plans config.now result }
{
    let mut plans = Sequence::new(alloc);
    for c in 0..config.side.combinations.len() {
        match uplink(config, c as u16) {
            Ok(plan) => plans.push(plan)?,
            Err(MatchError::NoRate(c)) => return Err(Refusal::NoRate(c)),
        }
    }
    Ok(plans)
}

/// Looks for the first collision. Where no code block may lose bits there is none, and no memory is taken.
fn look_for_collisions(
    alloc: Global,
    config: &Config,
    plans: &[UplinkPlan],
    plan: &DownlinkPlan,
    count: u128,
) -> Result<(), Refusal>
    requires good { IsGood config.now }
    requires plans { AreAllPlans config.now.uplink plans.now }
    requires plan { IsDownlinkPlan config.now.downlink plan.now }
    requires count { count ≡ count_of config.now }
    ensures { IsSearched config.now result }
{
    if count == 0 {
        return Ok(());
    }
    let room = CodingRoom::of_side(&config.uplink.side).wider(CodingRoom::of_side(
        &config.downlink.side,
    ));
    let mut search = Search::open(alloc, room)?;
    let uplink = Direction::Up {
        config: &config.uplink,
        plans,
    };
    if let Some(found) = search.find(alloc, uplink)? {
        return Err(collision(alloc, Dir::Up, found)?);
    }
    let downlink = Direction::Down {
        config: &config.downlink,
        plan,
    };
    if let Some(found) = search.find(alloc, downlink)? {
        return Err(collision(alloc, Dir::Down, found)?);
    }
    Ok(())
}

/// A collision as a refusal: `first` is the block of zeros.
fn collision(alloc: Global, dir: Dir, found: Found) -> Result<Refusal, NoMemory>
    ensures { IfOk result (λ refusal. refusal ≡
        Refusal.Collision dir found.channel found.format found.block found.sequence
        (replicate (length found.second) Zero) found.second) }
{
    let first = zeros(alloc, found.second.len())?;
    Ok(Refusal::Collision {
        dir,
        channel: found.channel,
        format: found.format,
        block: found.block,
        sequence: found.sequence,
        first,
        second: found.second,
    })
}

/// A block of zeros.
fn zeros(alloc: Global, size: usize) -> Result<Sequence<Bit>, NoMemory>
    ensures { IfOk result (λ bits. bits ≡ replicate size Zero) }
{
    match vec![in alloc; Bit::Zero; size] {
        Ok(bits) => Ok(Sequence::from(bits)),
        Err(_) => Err(NoMemory),
    }
}

impl Accepted {
    /// The configuration as it was read.
    pub fn config(&self) -> &Config
        ensures value { result.now ≡ self.now.config }
        ensures planned { IsPlanned self.now }
        ensures good { IsGood result.now }
        ensures clear { IsClear result.now }
    {
        &self.config
    }

    /// The channels and combinations of a direction, which keep all limits.
    pub fn side(&self, dir: Dir) -> &Side
        ensures value { result.now ≡ side_of self.now.config dir }
        ensures good { IsSide result.now }
    {
        self.config().side(dir)
    }

    /// A channel of a direction.
    pub fn channel(&self, dir: Dir, channel: u8) -> &Trch
        requires { channel < length (side_of self.now.config dir).channels }
        ensures value { result.now ≡ channel_at (side_of self.now.config dir) channel }
        ensures good { IsChannel result.now }
    {
        self.side(dir).channel(channel as usize)
    }

    /// The radio frames of a channel's TTI: 1, 2, 4 or 8.
    pub fn frames_of(&self, dir: Dir, channel: u8) -> u8
        requires { channel < length (side_of self.now.config dir).channels }
        ensures value { result ≡ (channel_at (side_of self.now.config dir) channel).frames }
        ensures some { 0 < result }
        ensures frames { IsFrames result }
    {
        self.side(dir).frames_of(channel as usize)
    }

    /// The amounts of a radio frame in an uplink combination.
    pub fn uplink_plan(&self, combination: u16) -> &UplinkPlan
        requires { combination < length self.now.config.uplink.side.combinations }
        ensures value { result.now ≡ plan_at self.now.uplink combination }
        ensures plan { IsPlan self.now.config.uplink combination result.now }
    {
        &self.uplink.as_slice()[combination as usize]
    }

    /// The rate matching of the downlink, for each channel and format.
    pub fn downlink_plan(&self) -> &DownlinkPlan
        ensures value { result.now ≡ self.now.downlink }
        ensures plan { IsDownlinkPlan self.now.config.downlink result.now }
    {
        &self.downlink
    }

    /// How many code blocks were looked at for collisions: those that may lose bits, each as often as there are legal
    /// sequences of combinations for its channel and format, and in the downlink once.
    pub fn count(&self) -> u128
        ensures { result ≡ count_of self.now.config }
    {
        self.count
    }

    /// Whether the blocks of a channel begin with the C/T field: exactly where two or more bearers name it
    /// (TS 25.321 9.2.1).
    pub fn has_ct(&self, dir: Dir, channel: u8) -> bool
        ensures { result ≡ has_ct self.now.config dir channel }
    {
        dch_config::has_ct(&self.config, dir, channel)
    }

    /// How many bytes of report one step of a node writes at most.
    pub fn step_bytes(&self) -> usize
        ensures { result ≡ step_bytes self.now.config }
    {
        4_000_000 + 2_500_000 * self.config.bearers.len()
    }
}
