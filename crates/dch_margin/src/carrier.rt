ghost use Rattle.std.specs.Prelude.{◌≡◌, ◌<◌, ◌≤◌, ◌+◌, ◌*◌, ◌/◌, ◌^◌, IfSome, length};
ghost use Rattle.dch_types.specs.Limits.{IsDownlink, IsUplink};
ghost use Rattle.dch_types.specs.Parts.{channel_at, format_number};
ghost use Rattle.dch_frame.specs.Downlinks.{IsDownlinkPlan, pattern_of, places_of};
ghost use Rattle.dch_frame.specs.Patterns.{IsWellFormed};
ghost use Rattle.dch_frame.specs.Stages.{code_place};
ghost use Rattle.dch_frame.specs.Uplinks.{IsPlan};
ghost use Rattle.dch_margin.specs.Carriers.{Fits, before_down, before_up, bit_at, carried, downlink_carrier, kept_bit, own_place, tti_place, uplink_carrier};
ghost use Rattle.dch_margin.specs.Sizes.{AreSizes};

use crate::sizes::Sizes;
use dch_frame::{DownlinkPlan, Pattern, UplinkPlan, frame, kept, origin};
use dch_inter::{first, second};
use dch_types::{Downlink, Uplink};

/// How a radio frame of a TTI carries the coded bits of a channel.
#[derive(Clone, Copy)]
pub struct Carrier {
    /// Which radio frame of the TTI it is, from 0.
    pub number: usize,
    /// The radio frames of the TTI.
    pub frames: usize,
    /// The places of the TTI, as many in each radio frame.
    pub len: usize,
    /// The cells of the radio frame.
    pub cells: usize,
    /// The cells of each of its codes.
    pub code: usize,
    /// The cells of the channels in front.
    pub before: usize,
    /// The cells of the channel.
    pub count: usize,
    /// The rate matching of the channel.
    pub matching: Matching,
}

/// Where rate matching stands.
#[derive(Clone, Copy)]
pub enum Matching {
    /// Behind the first interleaver, for each radio frame by itself: the uplink's.
    Frame(Pattern),
    /// In front of it, for the whole TTI: the downlink's.
    Tti(Pattern),
}

impl Carrier {
    /// The coded bit of the TTI that cell `k` carries, if any. Past the last coded bit stands padding (TS 25.212 4.2.4
    /// to 4.2.11).
    pub fn carried(&self, k: usize) -> Option<usize>
        requires fits { Fits self.now }
        requires inside { k < self.now.cells }
        ensures { result ≡ carried self.now k }
    {
        match self.own_place(k) {
            None => None,
            Some(q) => self.bit_at(q),
        }
    }

    /// The place of the channel that cell `k` shows, if any.
    fn own_place(&self, k: usize) -> Option<usize>
        requires fits { Fits self.now }
        requires inside { k < self.now.cells }
        ensures value { result ≡ own_place self.now k }
        ensures inside { IfSome result (λ q. q < self.now.count) }
    {
        let place = code_place(self.code, k);
        if place < self.before {
            return None;
        }
        if place - self.before < self.count {
            Some(place - self.before)
        } else {
            None
        }
    }

    /// The coded bit that place `q` of the channel shows, if any.
    #[tactic(auto, unfolding(dch_frame::specs::Stages::origin_of))]
    fn bit_at(&self, q: usize) -> Option<usize>
        requires fits { Fits self.now }
        requires inside { q < self.now.count }
        ensures { result ≡ bit_at self.now.matching self.now q }
    {
        match &self.matching {
            Matching::Frame(pattern) => { Some(self.tti_place(origin(pattern, q as u32) as usize)) }
            Matching::Tti(pattern) => kept_bit(pattern, self.tti_place(q)),
        }
    }

    /// The place of the TTI that place `m` of the radio frame shows.
    #[tactic(auto, unfolding(dch_frame::specs::Stages::segment_place))]
    fn tti_place(&self, m: usize) -> usize
        requires fits { Fits self.now }
        requires inside { m < self.now.len / self.now.frames }
        ensures value { result ≡ tti_place self.now m }
        ensures inside { result < self.now.len }
    {
        first(
            self.frames,
            self.len,
            self.number * (self.len / self.frames) + m,
        )
    }
}

/// The coded bit that rate matching keeps at a place of a TTI. Past the last one nothing is sent.
#[tactic(auto, unfolding(dch_frame::specs::Stages::origin_of))]
fn kept_bit(pattern: &Pattern, place: usize) -> Option<usize>
    requires formed { IsWellFormed pattern.now }
    ensures { result ≡ kept_bit pattern.now place }
{
    if place < kept(pattern) as usize {
        Some(origin(pattern, place as u32) as usize)
    } else {
        None
    }
}

/// The multiplexed place that cell `k` of a radio frame shows, whose codes have so many cells each.
#[tactic(auto, unfolding(dch_frame::specs::Stages::code_place))]
fn code_place(code: usize, k: usize) -> usize
    requires some { 0 < code }
    requires short { code ≤ 2 ^ 31 }
    requires few { k ≤ 57600 }
    ensures { result ≡ code_place code k }
{
    k / code * code + second(code, k % code)
}

/// How radio frame `n` carries a channel of the uplink in a combination.
pub fn uplink_carrier(
    config: &Uplink,
    plan: &UplinkPlan,
    c: u16,
    i: u8,
    n: u8,
    sizes: &Sizes,
) -> Carrier
    requires good { IsUplink config.now }
    requires combination { c < length config.now.side.combinations }
    requires plan { IsPlan config.now c plan.now }
    requires channel { i < length config.now.side.channels }
    requires frame { n < (channel_at config.now.side i).frames }
    requires sizes { AreSizes config.now.side i (format_number config.now.side c i) sizes.now }
    ensures value { result ≡ uplink_carrier config.now i (format_number config.now.side c i) n c }
    ensures fits { Fits result }
{
    let cells = plan.ndata as usize;
    Carrier {
        number: usize::from(n),
        frames: usize::from(config.side.frames_of(usize::from(i))),
        len: sizes.padded,
        cells,
        code: cells.min(9600),
        before: before_up(config, plan, c, i),
        count: plan.sent[usize::from(i)] as usize,
        matching: Matching::Frame(frame(config, c, plan, i, n)),
    }
}

/// The cells of the channels in front of channel `i` in an uplink radio frame.
fn before_up(config: &Uplink, plan: &UplinkPlan, c: u16, i: u8) -> usize
    requires plan { IsPlan config.now c plan.now }
    requires good { IsUplink config.now }
    requires channel { i < length config.now.side.channels }
    ensures { result ≡ before_up config.now i c }
{
    let _side = &config.side;
    let mut before = 0;
    for j in 0..usize::from(i) {
        before += plan.sent[j] as usize;
    }
    before
}

/// How radio frame `n` carries format `f` of a channel of the downlink in a combination.
pub fn downlink_carrier(
    config: &Downlink,
    plan: &DownlinkPlan,
    c: u16,
    i: u8,
    f: u8,
    n: u8,
) -> Carrier
    requires good { IsDownlink config.now }
    requires combination { c < length config.now.side.combinations }
    requires plan { IsDownlinkPlan config.now plan.now }
    requires channel { i < length config.now.side.channels }
    requires format { f < length (channel_at config.now.side i).formats }
    requires frame { n < (channel_at config.now.side i).frames }
    ensures value { result ≡ downlink_carrier config.now i f n c }
    ensures fits { Fits result }
{
    let frames = usize::from(config.side.frames_of(usize::from(i)));
    let count = places_down(config, plan, i, f);
    Carrier {
        number: usize::from(n),
        frames,
        len: frames * count,
        cells: config.frame_bits(),
        code: config.code_bits(),
        before: before_down(config, plan, c, i),
        count,
        matching: Matching::Tti(pattern_down(config, plan, i, f)),
    }
}

/// The cells of a channel in a downlink radio frame in a format.
fn places_down(config: &Downlink, plan: &DownlinkPlan, i: u8, f: u8) -> usize
    requires good { IsDownlink config.now }
    requires plan { IsDownlinkPlan config.now plan.now }
    requires channel { i < length config.now.side.channels }
    requires format { f < length (channel_at config.now.side i).formats }
    ensures value { result ≡ places_of config.now i f }
    ensures room { (channel_at config.now.side i).frames * result ≤ 457920 }
    ensures few { result ≤ 457920 }
{
    let _side = &config.side;
    plan.cells(i, f) as usize
}

/// The rate matching of a TTI of a downlink channel in a format.
fn pattern_down(config: &Downlink, plan: &DownlinkPlan, i: u8, f: u8) -> Pattern
    requires plan { IsDownlinkPlan config.now plan.now }
    requires channel { i < length config.now.side.channels }
    requires format { f < length (channel_at config.now.side i).formats }
    ensures value { result ≡ pattern_of config.now i f }
    ensures formed { IsWellFormed result }
{
    let _side = &config.side;
    plan.pattern(i, f)
}

/// The cells of the channels in front of channel `i` in a downlink radio frame.
fn before_down(config: &Downlink, plan: &DownlinkPlan, c: u16, i: u8) -> usize
    requires good { IsDownlink config.now }
    requires combination { c < length config.now.side.combinations }
    requires plan { IsDownlinkPlan config.now plan.now }
    requires channel { i < length config.now.side.channels }
    ensures { result ≡ before_down config.now i c }
{
    let mut before = 0;
    for j in 0..i {
        let format = config.side.tfi(usize::from(c), usize::from(j));
        before += places_down(config, plan, j, format);
    }
    before
}
