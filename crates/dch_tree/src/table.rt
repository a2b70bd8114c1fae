ghost use Rattle.std.specs.Prelude.{◌≡◌, ◌++◌, option_map, map, IfOk, OnOk};
ghost use Rattle.std.specs.List.{list_any};
ghost use Rattle.toml.specs.Data.{get_member, as_bool, as_array, as_table};
ghost use Rattle.toml.specs.View.{view, items_view, table_view};
ghost use Rattle.dch_tree.specs.Faults.{first_found};
ghost use Rattle.dch_tree.specs.Tables.{reading, required, optional, list_at, table_at, unknown, unknown_key};
ghost use Rattle.dch_tree.specs.Rules.{number_within, number_among, frames_of_tti, crc_of, coding_of, fixed_of, mode_of, window_of, is_word, channel_of, formats_of, combinations_of};

use crate::fault::Faults;
use crate::rule::{
    channel, coding, combinations, crc, fixed, formats, frames, is_word, mode, number_among,
    number_within, octet_within, window,
};
use dch_bits::NoMemory;
use dch_types::{Coding, Combination, Crc, Format, Mode, Sequence};
use std::alloc::Global;
use toml::{Table, Value};

/// The value at a key.
pub(crate) fn member<'a>(table: &'a Table, key: &str) -> Option<&'a Value>
    ensures { option_map (λ v. view v.now) result ≡ get_member key.now (table_view table.now) }
{
    table.get(key)
}

pub(crate) fn truth_at(table: &Table, key: &str) -> Option<Option<bool>>
    ensures { result ≡ reading as_bool key.now (table_view table.now) }
{
    member(table, key).map(Value::as_bool)
}

pub(crate) fn number_at(table: &Table, key: &str, least: u16, most: u16) -> Option<Option<u16>>
    ensures { result ≡ reading (number_within least most) key.now (table_view table.now) }
{
    member(table, key).map(|value| number_within(value, least, most))
}

pub(crate) fn octet_at(table: &Table, key: &str, least: u8, most: u8) -> Option<Option<u8>>
    ensures { result ≡ reading (number_within least most) key.now (table_view table.now) }
{
    member(table, key).map(|value| octet_within(value, least, most))
}

pub(crate) fn number_among_at(table: &Table, key: &str, allowed: &[u32]) -> Option<Option<u32>>
    ensures { result ≡ reading (number_among allowed.now) key.now (table_view table.now) }
{
    member(table, key).map(|value| number_among(value, allowed))
}

pub(crate) fn frames_at(table: &Table, key: &str) -> Option<Option<u8>>
    ensures { result ≡ reading frames_of_tti key.now (table_view table.now) }
{
    member(table, key).map(frames)
}

pub(crate) fn formats_at(
    alloc: Global,
    table: &Table,
    key: &str,
) -> Result<Option<Option<Sequence<Format>>>, NoMemory>
    ensures { IfOk result (λ found. found ≡ reading formats_of key.now (table_view table.now)) }
{
    match member(table, key) {
        None => Ok(None),
        Some(value) => Ok(Some(formats(alloc, value)?)),
    }
}

pub(crate) fn coding_at(table: &Table, key: &str) -> Option<Option<Coding>>
    ensures { result ≡ reading coding_of key.now (table_view table.now) }
{
    member(table, key).map(coding)
}

pub(crate) fn crc_at(table: &Table, key: &str) -> Option<Option<Crc>>
    ensures { result ≡ reading crc_of key.now (table_view table.now) }
{
    member(table, key).map(crc)
}

pub(crate) fn fixed_at(table: &Table, key: &str) -> Option<Option<bool>>
    ensures { result ≡ reading fixed_of key.now (table_view table.now) }
{
    member(table, key).map(fixed)
}

pub(crate) fn mode_at(table: &Table, key: &str) -> Option<Option<Mode>>
    ensures { result ≡ reading mode_of key.now (table_view table.now) }
{
    member(table, key).map(mode)
}

pub(crate) fn window_at(table: &Table, key: &str) -> Option<Option<u16>>
    ensures { result ≡ reading window_of key.now (table_view table.now) }
{
    member(table, key).map(window)
}

/// The channel that a key names, of so many.
pub(crate) fn channel_at(table: &Table, key: &str, count: usize) -> Option<Option<Option<u8>>>
    ensures { result ≡ reading (channel_of count) key.now (table_view table.now) }
{
    member(table, key).map(|value| channel(value, count))
}

pub(crate) fn combinations_at(
    alloc: Global,
    table: &Table,
    key: &str,
) -> Result<Option<Option<Sequence<Combination>>>, NoMemory>
    ensures { IfOk result (λ found. found ≡ reading combinations_of key.now (table_view table.now)) }
{
    match member(table, key) {
        None => Ok(None),
        Some(value) => Ok(Some(combinations(alloc, value)?)),
    }
}

/// The items of a list at a key.
fn items_at<'a>(table: &'a Table, key: &str) -> Option<Option<&'a [Value]>>
    ensures { option_map (λ found. option_map (λ items. items_view items.now) found) result ≡
        reading as_array key.now (table_view table.now) }
{
    let value = member(table, key)?;
    Some(value.as_array().map(Vec::as_slice))
}

impl Faults {
    /// Each key of a table that is none of these.
    pub fn unknown(&mut self, path: &str, table: &Table, known: &[&str]) -> Result<(), NoMemory>
        ensures { OnOk result (self.new.first ≡
            first_found self.old.first (unknown path.now (map (λ k. k.now) known.now) (table_view table.now))) }
    {
        for (key, _value) in table.iter() {
            self.unless_known(path, key.as_str(), known)?;
        }
        Ok(())
    }

    /// The items of a list that may be missing.
    pub fn optional_list<'a>(
        &mut self,
        path: &str,
        table: &'a Table,
        key: &str,
    ) -> Result<&'a [Value], NoMemory>
        ensures first { OnOk result (self.new.first ≡
            first_found self.old.first (optional (path.now ++ key.now)
            (reading as_array key.now (table_view table.now)))) }
        ensures value { IfOk result (λ items. items_view items.now ≡ list_at key.now (table_view table.now)) }
    {
        self.optional(path, key, items_at(table, key), &[])
    }

    /// A table that must be there.
    #[tactic(auto, unfolding(crate::specs::Faults::first_found))]
    pub fn table<'a>(
        &mut self,
        path: &str,
        table: &'a Table,
        key: &str,
    ) -> Result<Option<&'a Table>, NoMemory>
        ensures first { OnOk result (self.new.first ≡
            first_found self.old.first (required (path.now ++ key.now)
            (reading as_table key.now (table_view table.now)))) }
        ensures value { IfOk result (λ found. option_map (λ t. table_view t.now) found ≡
            table_at key.now (table_view table.now)) }
    {
        let Some(value) = member(table, key) else {
            self.add_key(path, key)?;
            return Ok(None);
        };
        let found = value.as_table();
        if found.is_none() {
            self.add_range(path, key)?;
        }
        Ok(found)
    }

    /// The items of a list that must be there.
    pub fn list<'a>(
        &mut self,
        path: &str,
        table: &'a Table,
        key: &str,
    ) -> Result<&'a [Value], NoMemory>
        ensures first { OnOk result (self.new.first ≡
            first_found self.old.first (required (path.now ++ key.now)
            (reading as_array key.now (table_view table.now)))) }
        ensures value { IfOk result (λ items. items_view items.now ≡ list_at key.now (table_view table.now)) }
    {
        self.required(path, key, items_at(table, key), &[])
    }

    #[tactic(auto, using(crate::proofs::FirstFound::known_by_reference), unfolding(crate::specs::Faults::first_found))]
    fn unless_known(&mut self, path: &str, key: &str, known: &[&str]) -> Result<(), NoMemory>
        ensures { OnOk result (self.new.first ≡
            first_found self.old.first (unknown_key path.now (map (λ k. k.now) known.now) key.now)) }
    {
        if is_known(key, known) {
            return Ok(());
        }
        self.add_key(path, key)
    }
}

fn is_known(key: &str, known: &[&str]) -> bool
    ensures { result ≡ list_any (λ k. is_word key.now k.now) known.now }
{
    known.iter().any(|word| is_word(key, word))
}
