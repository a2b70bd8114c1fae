ghost use Rattle.std.specs.Prelude.{◌≡◌, ◌||◌, ◌&&◌, ◌==◌, map, not, false, Bool, Option, Some, None, length, codes, OnOk, IfOk};
ghost use Rattle.std.specs.List.{list_any};
ghost use Rattle.toml.specs.View.{view, items_view, table_view};
ghost use Rattle.dch_tree.specs.declared.side.SetTti.{SetTti};
ghost use Rattle.dch_tree.specs.Faults.{first_found};
ghost use Rattle.dch_tree.specs.Tables.{item_faults, items_faults, items_values, item_value, indexed};
ghost use Rattle.dch_tree.specs.Channels.{channel_faults, channel_of};
ghost use Rattle.dch_tree.specs.Sides.{set_and_tti, sets_and_ttis, clashes, set_faults, set_fault, side_faults, side_from, uplink_faults, uplink_of, downlink_faults, downlink_of};

use crate::fault::Faults;
use crate::path::element;
use crate::table::{combinations_at, fixed_at, frames_at, number_among_at, number_at, octet_at};
use dch_bits::NoMemory;
use dch_types::{Coding, Crc, Downlink, Sequence, Side, Trch, Uplink};
use std::alloc::{AllocError, Global};
use toml::{Table, Value};

/// The data bits of an uplink radio frame on one to six codes.
const FRAME_SIZES: [u32; 12] = [
    150, 300, 600, 1200, 2400, 4800, 9600, 19200, 28800, 38400, 48000, 57600,
];

/// The spreading factors of the downlink.
const SPREADING_FACTORS: [u32; 8] = [4, 8, 16, 32, 64, 128, 256, 512];

/// A channel's set, and the radio frames of its TTI.
#[derive(Clone, Copy)]
pub(crate) struct SetTti {
    pub set: u8,
    pub frames: u8,
}

/// The set and the TTI of a channel, where both keys keep their rules.
fn set_and_tti(value: &Value) -> Option<SetTti>
    ensures { result ≡ set_and_tti (view value.now) }
{
    let table = value.as_table()?;
    let set = octet_at(table, "set", 0, 7)??;
    let frames = frames_at(table, "tti")??;
    Some(SetTti { set, frames })
}

fn clashes(found: Option<SetTti>, seen: &[SetTti]) -> bool
    ensures { result ≡ clashes found (map (λ other. Some other) seen.now) }
{
    match found {
        None => false,
        Some(pair) => has_another(seen, pair),
    }
}

fn has_another(seen: &[SetTti], pair: SetTti) -> bool
    ensures { result ≡ list_any (λ other. pair.set == other.set && not (pair.frames == other.frames)) seen.now }
{
    seen.iter().any(|other| pair.set == other.set && pair.frames != other.frames)
}

/// Keeps a pair once.
fn remember(seen: &mut Vec<SetTti>, found: Option<SetTti>) -> Result<(), AllocError>
    ensures { OnOk result ((test : Option SetTti → Bool) → test None ≡ false
        → list_any test (map (λ other. Some other) seen.new.items) ≡
        (list_any test (map (λ other. Some other) seen.old.items) || test found)) }
{
    if let Some(pair) = found {
        if !has(seen, pair) {
            seen.push(pair)?;
        }
    }
    Ok(())
}

fn has(seen: &[SetTti], pair: SetTti) -> bool
    ensures { result ≡ list_any (λ other. other.set == pair.set && other.frames == pair.frames) seen.now }
{
    seen.iter().any(|other| other.set == pair.set && other.frames == pair.frames)
}

impl Faults {
    fn channels(&mut self, path: &str, items: &[Value]) -> Result<Sequence<Trch>, NoMemory>
        ensures first { OnOk result (self.new.first ≡
            first_found self.old.first (items_faults channel_faults path.now (codes "channel") 0
            (items_view items.now))) }
        ensures value { IfOk result (λ channels. channels ≡ items_values channel_of (items_view items.now)) }
    {
        let mut channels = Sequence::new(self.alloc);
        for (i, item) in items.iter().enumerate() {
            let channel = self.channel_item(path, i, item)?;
            channels.push(channel)?;
        }
        Ok(channels)
    }

    #[tactic(auto, unfolding(crate::specs::Faults::first_found, crate::specs::Channels::channel_of))]
    fn channel_item(&mut self, path: &str, i: usize, item: &Value) -> Result<Trch, NoMemory>
        ensures first { OnOk result (self.new.first ≡
            first_found self.old.first (item_faults channel_faults path.now (codes "channel") i (view item.now))) }
        ensures value { IfOk result (λ channel. channel ≡ item_value channel_of (view item.now)) }
    {
        match item.as_table() {
            Some(table) => {
                let inner = element(self.alloc, path, "channel", i)?;
                self.channel(inner.as_str(), table)
            }
            None => {
                self.add_range(path, "channel")?;
                Ok(Trch {
                    frames: 1,
                    coding: Coding::Uncoded,
                    crc: Crc::C0,
                    rm: 1,
                    set: 0,
                    formats: Sequence::new(self.alloc),
                })
            }
        }
    }

    /// Each channel whose TTI is another than that of an earlier channel in its set.
    fn sets(&mut self, path: &str, items: &[Value]) -> Result<(), NoMemory>
        ensures { OnOk result (self.new.first ≡
            first_found self.old.first (indexed (set_faults path.now (sets_and_ttis (items_view items.now)))
            (length items.now))) }
    {
        let mut seen = Vec::new(self.alloc);
        for (i, item) in items.iter().enumerate() {
            let found = set_and_tti(item);
            self.set(path, i, clashes(found, &seen))?;
            remember(&mut seen, found)?;
        }
        Ok(())
    }

    #[tactic(auto, unfolding(crate::specs::Faults::first_found))]
    fn set(&mut self, path: &str, i: usize, clash: bool) -> Result<(), NoMemory>
        ensures { OnOk result (self.new.first ≡ first_found self.old.first (set_fault path.now i clash)) }
    {
        if clash {
            let inner = element(self.alloc, path, "channel", i)?;
            self.add_range(inner.as_str(), "set")?;
        }
        Ok(())
    }

    #[tactic(auto, unfolding(crate::specs::Sides::side_from))]
    fn side(&mut self, path: &str, table: &Table) -> Result<Side, NoMemory>
        ensures first { OnOk result (self.new.first ≡
            first_found self.old.first (side_faults path.now (table_view table.now))) }
        ensures value { IfOk result (λ side. side ≡ side_from (table_view table.now)) }
    {
        let combinations = combinations_at(self.alloc, table, "combinations")?;
        let combinations = self.required(
            path,
            "combinations",
            combinations,
            Sequence::new(self.alloc),
        )?;
        let items = self.list(path, table, "channel")?;
        let channels = self.channels(path, items)?;
        self.sets(path, items)?;
        Ok(Side {
            channels,
            combinations,
        })
    }

    /// The uplink of a table.
    #[tactic(auto, unfolding(crate::specs::Sides::uplink_of))]
    pub fn uplink(&mut self, path: &str, table: &Table) -> Result<Uplink, NoMemory>
        ensures first { OnOk result (self.new.first ≡
            first_found self.old.first (uplink_faults path.now (table_view table.now))) }
        ensures value { IfOk result (λ uplink. uplink ≡ uplink_of (table_view table.now)) }
    {
        self.unknown(path, table, &["largest", "pl", "combinations", "channel"])?;
        let largest = self.required(
            path,
            "largest",
            number_among_at(table, "largest", &FRAME_SIZES),
            150,
        )?;
        let pl = self.required(path, "pl", octet_at(table, "pl", 40, 100), 100)?;
        let side = self.side(path, table)?;
        Ok(Uplink { side, largest, pl })
    }

    /// The downlink of a table.
    #[tactic(auto, unfolding(crate::specs::Sides::downlink_of))]
    pub fn downlink(&mut self, path: &str, table: &Table) -> Result<Downlink, NoMemory>
        ensures first { OnOk result (self.new.first ≡
            first_found self.old.first (downlink_faults path.now (table_view table.now))) }
        ensures value { IfOk result (λ downlink. downlink ≡ downlink_of (table_view table.now)) }
    {
        self.unknown(
            path,
            table,
            &[
                "slot_bits",
                "codes",
                "sf",
                "positions",
                "combinations",
                "channel",
            ],
        )?;
        let slot_bits = self.required(
            path,
            "slot_bits",
            number_at(table, "slot_bits", 1, 1272),
            1,
        )?;
        let codes = self.required(path, "codes", octet_at(table, "codes", 1, 3), 1)?;
        let sf = self.required(
            path,
            "sf",
            number_among_at(table, "sf", &SPREADING_FACTORS),
            4,
        )?;
        let fixed = self.required(path, "positions", fixed_at(table, "positions"), true)?;
        let side = self.side(path, table)?;
        Ok(Downlink {
            side,
            slot_bits,
            codes,
            sf: sf as u16,
            fixed,
        })
    }
}
