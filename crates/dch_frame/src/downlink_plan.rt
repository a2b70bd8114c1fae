ghost use Rattle.std.specs.Prelude.{◌≡◌, ◌<◌, ◌≤◌, ℕ, length, slice_index_or, IfOk};
ghost use Rattle.dch_types.specs.Limits.{IsDownlink};
ghost use Rattle.dch_types.specs.Parts.{channel_at, format_at};
ghost use Rattle.dch_types.specs.Lengths.{frame_bits, tti_bits};
ghost use Rattle.dch_frame.specs.Downlinks.{bits_of, places_of, matching_at, IsMatching, IsRow, IsDownlinkPlan};
ghost use Rattle.dch_frame.specs.Places.{IsTable};

use crate::fixed::{fixed_table, most_of};
use crate::flexible::flexible_table;
use crate::matched::matched;
use crate::pattern::Pattern;
use crate::places::Places;
use dch_bits::NoMemory;
use dch_types::{Downlink, Sequence};
use std::alloc::Global;
use std::marker::Model;

/// The rate matching of a channel in one format: its pattern over a TTI, and its places in a radio frame.
#[derive(Clone, Copy)]
pub struct RateMatching {
    pub pattern: Pattern,
    pub cells: u32,
}

/// The rate matching of the downlink, for each channel and format.
#[derive(Drop)]
pub struct DownlinkPlan {
    rows: Sequence<Sequence<RateMatching>>,
}

impl Model for DownlinkPlan {
    ghost use Rattle.std.specs.Prelude.{List};
    ghost use Rattle.dch_frame.specs.declared.downlink_plan.RateMatching.{RateMatching};

    ghost Value = { List (List RateMatching) };

    ghost view = { λ plan. plan.rows };
}

/// How many bits the pattern of a format is made for.
fn bits_of(config: &Downlink, i: usize, f: usize) -> u64
    requires good { IsDownlink config.now }
    requires channel { i < length config.now.side.channels }
    requires format { f < length (channel_at config.now.side i).formats }
    ensures value { result ≡ bits_of config.now i f }
    ensures small { result ≤ 131072 }
{
    let channel = config.side.channel(i);
    if config.fixed {
        most_of(channel)
    } else {
        channel.tti_bits(channel.format(f))
    }
}

/// The matching of a format, by the table of places.
fn match_format(config: &Downlink, table: &Places, i: usize, f: usize) -> RateMatching
    requires good { IsDownlink config.now }
    requires table { IsTable config.now.side (places_of config.now) table.now }
    requires channel { i < length config.now.side.channels }
    requires format { f < length (channel_at config.now.side i).formats }
    ensures { IsMatching config.now i f result }
{
    let channel = config.side.channel(i);
    let len = channel.tti_bits(channel.format(f));
    let cells = table.at(i, f);
    let kind = matched(bits_of(config, i, f), channel.frames as u64 * cells, 1);
    RateMatching {
        pattern: Pattern {
            len: len as u32,
            kind,
        },
        cells: cells as u32,
    }
}

/// The matchings of a channel, one for each format.
fn row(
    alloc: Global,
    config: &Downlink,
    table: &Places,
    i: usize,
) -> Result<Sequence<RateMatching>, NoMemory>
    requires good { IsDownlink config.now }
    requires table { IsTable config.now.side (places_of config.now) table.now }
    requires channel { i < length config.now.side.channels }
    ensures { IfOk result (IsRow config.now i (length (channel_at config.now.side i).formats)) }
{
    let mut row = Sequence::new(alloc);
    for f in 0..config.side.channel(i).formats.len() {
        row.push(match_format(config, table, i, f))?;
    }
    Ok(row)
}

/// The places of each format of each channel.
fn table_of(config: &Downlink) -> Places
    requires { IsDownlink config.now }
    ensures { IsTable config.now.side (places_of config.now) result }
{
    let ndata = config.frame_bits() as u64;
    if config.fixed {
        fixed_table(&config.side, ndata)
    } else {
        flexible_table(&config.side, ndata)
    }
}

/// The rate matching of the downlink (TS 25.212 4.2.7.2).
pub fn downlink(alloc: Global, config: &Downlink) -> Result<DownlinkPlan, NoMemory>
    requires { IsDownlink config.now }
    ensures { IfOk result (IsDownlinkPlan config.now) }
{
    let table = table_of(config);
    let mut rows = Sequence::new(alloc);
    for i in 0..config.side.channels.len() {
        rows.push(row(alloc, config, &table, i)?)?;
    }
    Ok(DownlinkPlan { rows })
}

impl DownlinkPlan {
    ghost use Rattle.dch_frame.specs.Downlinks.{row_at};

    /// The rate matching of a TTI of a channel in a format.
    pub fn pattern(&self, channel: u8, format: u8) -> Pattern
        requires channel { channel < length self.now }
        requires format { format < length (row_at self.now channel) }
        ensures { result ≡ (matching_at self.now channel format).pattern }
    {
        self.rows.as_slice()[channel as usize].as_slice()[format as usize].pattern
    }

    /// The places of a channel in each radio frame of a TTI in a format, where places that the bits leave free are not
    /// sent (the first insertion of DTX indications, TS 25.212 4.2.9.1).
    pub fn cells(&self, channel: u8, format: u8) -> u32
        requires channel { channel < length self.now }
        requires format { format < length (row_at self.now channel) }
        ensures { result ≡ (matching_at self.now channel format).cells }
    {
        self.rows.as_slice()[channel as usize].as_slice()[format as usize].cells
    }
}
