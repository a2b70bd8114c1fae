ghost use Rattle.std.specs.Prelude.{◌≡◌, ◌++◌, [], codes, option_map, IfOk, IfErr, OnOk};
ghost use Rattle.toml.specs.View.{table_view};
ghost use Rattle.dch_tree.specs.Faults.{first_found};
ghost use Rattle.dch_tree.specs.Tables.{members_at, table_faults};
ghost use Rattle.dch_tree.specs.Sides.{uplink_faults, uplink_of, downlink_faults, downlink_of};
ghost use Rattle.dch_tree.specs.Bearers.{bearers_faults, bearers_of};
ghost use Rattle.dch_tree.specs.Documents.{iub_faults, iub_of, document_faults, config_of, unless, Reads};

use crate::fault::{Fault, Faults};
use crate::table::{octet_at, truth_at};
use dch_bits::NoMemory;
use dch_types::{Bearer, Config, Downlink, Sequence, Side, Uplink};
use std::alloc::Global;
use toml::Table;

/// Why a document is no configuration.
#[derive(Drop)]
pub enum TreeError {
    /// Memory was wanted and not found.
    NoMemory,
    /// The first fault of its keys.
    Fault(Fault),
}

/// The keys of the Iub.
#[derive(Clone, Copy)]
pub(crate) struct Iub {
    pub payload_check: bool,
    pub qe: u8,
}

/// The configuration that a document says. Its counts, formats and windows are as they are written: later limits judge
/// them, and a number that a field cannot hold stands there as the greatest that it can.
pub fn configuration(alloc: Global, document: &Table) -> Result<Config, TreeError>
    ensures { Reads (table_view document.now) result }
{
    let mut faults = Faults { alloc, first: None };
    let Ok(config) = faults.document(document) else {
        return Err(TreeError::NoMemory);
    };
    let Faults { first, .. } = faults;
    unless(first, config)
}

/// The configuration, unless there is a fault.
fn unless(first: Option<Fault>, config: Config) -> Result<Config, TreeError>
    ensures { result ≡ unless first config }
{
    match first {
        None => Ok(config),
        Some(fault) => Err(TreeError::Fault(fault)),
    }
}

fn empty_side(alloc: Global) -> Side
    ensures { result ≡ record { channels = []; combinations = [] } }
{
    Side {
        channels: Sequence::new(alloc),
        combinations: Sequence::new(alloc),
    }
}

impl Faults {
    fn document(&mut self, tree: &Table) -> Result<Config, NoMemory>
        ensures first { OnOk result (self.new.first ≡
            first_found self.old.first (document_faults (table_view tree.now))) }
        ensures value { IfOk result (λ config. config ≡ config_of (table_view tree.now)) }
    {
        self.unknown("", tree, &["iub", "uplink", "downlink", "bearer"])?;
        let iub = self.iub_at(tree)?;
        let uplink = self.uplink_at(tree)?;
        let downlink = self.downlink_at(tree)?;
        let ups = uplink.side.channels.len();
        let downs = downlink.side.channels.len();
        let bearers = self.bearers(ups, downs, tree)?;
        Ok(Config {
            uplink,
            downlink,
            bearers,
            payload_check: iub.payload_check,
            qe: iub.qe,
        })
    }

    #[tactic(auto, unfolding(crate::specs::Documents::iub_of))]
    fn iub(&mut self, path: &str, table: &Table) -> Result<Iub, NoMemory>
        ensures first { OnOk result (self.new.first ≡
            first_found self.old.first (iub_faults path.now (table_view table.now))) }
        ensures value { IfOk result (λ iub. iub ≡ iub_of (table_view table.now)) }
    {
        self.unknown(path, table, &["payload_check", "qe"])?;
        let payload_check = self.required(
            path,
            "payload_check",
            truth_at(table, "payload_check"),
            false,
        )?;
        let qe = self.required(path, "qe", octet_at(table, "qe", 0, 255), 0)?;
        Ok(Iub { payload_check, qe })
    }

    fn iub_at(&mut self, tree: &Table) -> Result<Iub, NoMemory>
        ensures first { OnOk result (self.new.first ≡
            first_found self.old.first (table_faults iub_faults (codes "iub") (table_view tree.now))) }
        ensures value { IfOk result (λ iub. iub ≡ iub_of (members_at (codes "iub") (table_view tree.now))) }
    {
        let found = self.table("", tree, "iub")?;
        match found {
            Some(table) => self.iub("iub.", table),
            None => Ok(Iub {
                payload_check: false,
                qe: 0,
            }),
        }
    }

    fn uplink_at(&mut self, tree: &Table) -> Result<Uplink, NoMemory>
        ensures first { OnOk result (self.new.first ≡
            first_found self.old.first (table_faults uplink_faults (codes "uplink") (table_view tree.now))) }
        ensures value { IfOk result (λ uplink. uplink ≡ uplink_of (members_at (codes "uplink") (table_view tree.now))) }
    {
        let found = self.table("", tree, "uplink")?;
        match found {
            Some(table) => self.uplink("uplink.", table),
            None => Ok(Uplink {
                side: empty_side(self.alloc),
                largest: 150,
                pl: 100,
            }),
        }
    }

    fn downlink_at(&mut self, tree: &Table) -> Result<Downlink, NoMemory>
        ensures first { OnOk result (self.new.first ≡
            first_found self.old.first (table_faults downlink_faults (codes "downlink") (table_view tree.now))) }
        ensures value { IfOk result (λ downlink. downlink ≡
            downlink_of (members_at (codes "downlink") (table_view tree.now))) }
    {
        let found = self.table("", tree, "downlink")?;
        match found {
            Some(table) => self.downlink("downlink.", table),
            None => Ok(Downlink {
                side: empty_side(self.alloc),
                slot_bits: 1,
                codes: 1,
                sf: 4,
                fixed: true,
            }),
        }
    }

    fn bearers(
        &mut self,
        ups: usize,
        downs: usize,
        tree: &Table,
    ) -> Result<Sequence<Bearer>, NoMemory>
        ensures first { OnOk result (self.new.first ≡
            first_found self.old.first (bearers_faults ups downs (table_view tree.now))) }
        ensures value { IfOk result (λ bearers. bearers ≡ bearers_of ups downs (table_view tree.now)) }
    {
        let items = self.optional_list("", tree, "bearer")?;
        let bearers = self.bearer_items(ups, downs, items)?;
        self.together(bearers.as_slice())?;
        Ok(bearers)
    }
}
