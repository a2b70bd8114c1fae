ghost use Rattle.std.specs.Prelude.{◌≡◌, length, codes, [], OnOk, IfOk};
ghost use Rattle.toml.specs.Data.{as_bool};
ghost use Rattle.toml.specs.View.{view, items_view, table_view};
ghost use Rattle.dch_tree.specs.Faults.{first_found};
ghost use Rattle.dch_tree.specs.Rules.{channel_of};
ghost use Rattle.dch_tree.specs.Tables.{field, item_faults, items_faults, items_values, item_value};
ghost use Rattle.dch_tree.specs.Bearers.{unknown_faults, up_faults, down_faults, am_faults, am_rules, rules_faults, rules_of, bearer_faults, bearer_of};
ghost use Rattle.dch_types.specs.Parts.{default_rules};

use crate::fault::Faults;
use crate::path::element;
use crate::table::{channel_at, member, mode_at, number_at, octet_at, truth_at, window_at};
use dch_bits::NoMemory;
use dch_types::{AmRules, Bearer, Mode, Sequence};
use std::alloc::Global;
use toml::{Table, Value};

impl Faults {
    /// The members of the list of bearers, where the directions have so many channels.
    pub fn bearer_items(
        &mut self,
        ups: usize,
        downs: usize,
        items: &[Value],
    ) -> Result<Sequence<Bearer>, NoMemory>
        ensures first { OnOk result (self.new.first ≡
            first_found self.old.first (items_faults (bearer_faults ups downs)
            [] (codes "bearer") 0 (items_view items.now))) }
        ensures value { IfOk result (λ bearers. bearers ≡ items_values (bearer_of ups downs) (items_view items.now)) }
    {
        let mut bearers = Sequence::new(self.alloc);
        for (i, item) in items.iter().enumerate() {
            let bearer = self.bearer_item(ups, downs, i, item)?;
            bearers.push(bearer)?;
        }
        Ok(bearers)
    }

    #[tactic(auto, unfolding(crate::specs::Faults::first_found, crate::specs::Bearers::bearer_of, crate::specs::Bearers::am_rules))]
    fn bearer_item(
        &mut self,
        ups: usize,
        downs: usize,
        i: usize,
        item: &Value,
    ) -> Result<Bearer, NoMemory>
        ensures first { OnOk result (self.new.first ≡
            first_found self.old.first (item_faults (bearer_faults ups downs) [] (codes "bearer") i (view item.now))) }
        ensures value { IfOk result (λ bearer. bearer ≡ item_value (bearer_of ups downs) (view item.now)) }
    {
        match item.as_table() {
            Some(table) => {
                let path = element(self.alloc, "", "bearer", i)?;
                self.bearer(ups, downs, path.as_str(), table)
            }
            None => {
                self.add_range("", "bearer")?;
                Ok(Bearer {
                    mode: Mode::Am,
                    up: None,
                    down: None,
                    logical: 0,
                    priority: 1,
                    buffer: 1,
                    rules: AmRules::standard(),
                })
            }
        }
    }

    #[tactic(auto, unfolding(crate::specs::Bearers::bearer_of))]
    fn bearer(
        &mut self,
        ups: usize,
        downs: usize,
        path: &str,
        table: &Table,
    ) -> Result<Bearer, NoMemory>
        ensures first { OnOk result (self.new.first ≡
            first_found self.old.first (bearer_faults ups downs path.now (table_view table.now))) }
        ensures value { IfOk result (λ bearer. bearer ≡ bearer_of ups downs (table_view table.now)) }
    {
        let mode = self.required(path, "mode", mode_at(table, "mode"), Mode::Am)?;
        self.unknown_of_bearer(mode, path, table)?;
        let up = self.up(mode, ups, path, table)?;
        let down = self.down(mode, member(table, "up").is_some(), downs, path, table)?;
        let logical = self.optional(path, "logical", octet_at(table, "logical", 1, 15), 0)?;
        let priority = self.required(path, "priority", octet_at(table, "priority", 1, 8), 1)?;
        let buffer = self.required(path, "buffer", number_at(table, "buffer", 1, 4096), 1)?;
        let rules = self.rules(mode, path, table)?;
        Ok(Bearer {
            mode,
            up,
            down,
            logical,
            priority,
            buffer,
            rules,
        })
    }

    fn unknown_of_bearer(&mut self, mode: Mode, path: &str, table: &Table) -> Result<(), NoMemory>
        ensures { OnOk result (self.new.first ≡
            first_found self.old.first (unknown_faults mode path.now (table_view table.now))) }
    {
        match mode {
            Mode::Tm | Mode::Um => self.unknown(
                path,
                table,
                &["mode", "up", "down", "logical", "priority", "buffer"],
            ),
            Mode::Am => self.unknown(
                path,
                table,
                &[
                    "mode",
                    "up",
                    "down",
                    "logical",
                    "priority",
                    "buffer",
                    "window",
                    "poll_timer",
                    "poll_pdus",
                    "poll_units",
                    "poll_window",
                    "status_period",
                    "status_prohibit",
                    "missing",
                    "discard_age",
                    "discard_sent",
                    "discard_repeat",
                ],
            ),
        }
    }

    fn up(
        &mut self,
        mode: Mode,
        channels: usize,
        path: &str,
        table: &Table,
    ) -> Result<Option<u8>, NoMemory>
        ensures first { OnOk result (self.new.first ≡
            first_found self.old.first (up_faults mode channels path.now (table_view table.now))) }
        ensures value { IfOk result (λ up. up ≡ field None (channel_of channels) (codes "up") (table_view table.now)) }
    {
        match mode {
            Mode::Tm | Mode::Um => self.optional(
                path,
                "up",
                channel_at(table, "up", channels),
                None,
            ),
            Mode::Am => self.required(path, "up", channel_at(table, "up", channels), None),
        }
    }

    fn down(
        &mut self,
        mode: Mode,
        has_up: bool,
        channels: usize,
        path: &str,
        table: &Table,
    ) -> Result<Option<u8>, NoMemory>
        ensures first { OnOk result (self.new.first ≡
            first_found self.old.first (down_faults mode has_up channels path.now (table_view table.now))) }
        ensures value { IfOk result (λ down. down ≡ field None (channel_of channels) (codes "down")
            (table_view table.now)) }
    {
        match mode {
            Mode::Tm | Mode::Um if has_up => self.optional(
                path,
                "down",
                channel_at(table, "down", channels),
                None,
            ),
            _ => self.required(path, "down", channel_at(table, "down", channels), None),
        }
    }

    #[tactic(auto, unfolding(crate::specs::Faults::first_found))]
    fn rules(&mut self, mode: Mode, path: &str, table: &Table) -> Result<AmRules, NoMemory>
        ensures first { OnOk result (self.new.first ≡
            first_found self.old.first (rules_faults mode path.now (table_view table.now))) }
        ensures value { IfOk result (λ rules. rules ≡ rules_of mode (table_view table.now)) }
    {
        match mode {
            Mode::Tm | Mode::Um => Ok(AmRules::standard()),
            Mode::Am => self.am_rules(path, table),
        }
    }

    #[tactic(auto, unfolding(crate::specs::Bearers::am_rules))]
    fn am_rules(&mut self, path: &str, table: &Table) -> Result<AmRules, NoMemory>
        ensures first { OnOk result (self.new.first ≡
            first_found self.old.first (am_faults path.now (table_view table.now))) }
        ensures value { IfOk result (λ rules. rules ≡ am_rules (table_view table.now)) }
    {
        let window = self.optional(path, "window", window_at(table, "window"), 128)?;
        let poll_timer = self.optional(
            path,
            "poll_timer",
            number_at(table, "poll_timer", 0, 1000),
            30,
        )?;
        let poll_pdus = self.optional(
            path,
            "poll_pdus",
            number_at(table, "poll_pdus", 0, 1000),
            0,
        )?;
        let poll_units = self.optional(
            path,
            "poll_units",
            number_at(table, "poll_units", 0, 1000),
            0,
        )?;
        let poll_window = self.optional(
            path,
            "poll_window",
            octet_at(table, "poll_window", 0, 100),
            0,
        )?;
        let status_period = self.optional(
            path,
            "status_period",
            number_at(table, "status_period", 0, 1000),
            0,
        )?;
        let status_prohibit = self.optional(
            path,
            "status_prohibit",
            number_at(table, "status_prohibit", 0, 1000),
            0,
        )?;
        let missing = self.optional(path, "missing", truth_at(table, "missing"), true)?;
        let discard_age = self.optional(
            path,
            "discard_age",
            number_at(table, "discard_age", 0, 1000),
            0,
        )?;
        let discard_sent = self.optional(
            path,
            "discard_sent",
            octet_at(table, "discard_sent", 0, 40),
            0,
        )?;
        let discard_repeat = self.optional(
            path,
            "discard_repeat",
            number_at(table, "discard_repeat", 1, 1000),
            30,
        )?;
        Ok(AmRules {
            window,
            poll_timer,
            poll_pdus,
            poll_units,
            poll_window,
            status_period,
            status_prohibit,
            missing,
            discard_age,
            discard_sent,
            discard_repeat,
        })
    }
}
