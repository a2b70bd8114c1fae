ghost use Rattle.std.specs.Prelude.{◌≤◌, length, IfOk};
ghost use Rattle.toml.specs.View.{table_view};
ghost use Rattle.dch_config.specs.Reading.{ReadsTable, ReadsTree, Reads, KeepsLimits};
ghost use Rattle.dch_config.specs.Good.{IsGood};

use crate::error::ConfigError;
use crate::limits::limits;
use dch_tree::{Fault, TreeError, configuration};
use dch_types::Config;
use std::alloc::Global;
use toml::Table;

/// Reads the text of a configuration: TOML with the tables `iub`, `uplink` and `downlink`, and the list `bearer`.
pub fn read(alloc: Global, text: &[u8]) -> Result<Config, ConfigError>
    // Which configuration, and when each error comes.
    ensures reads { Reads text.now result }
    ensures good { IfOk result IsGood }
{
    match read_table(alloc, text) {
        Ok(table) => read_tree(alloc, &table),
        Err(error) => Err(error),
    }
}

fn read_table(alloc: Global, text: &[u8]) -> Result<Table, ConfigError>
    ensures { ReadsTable text.now result }
{
    match toml::table_from_slice(alloc, text) {
        Ok(table) => Ok(table),
        Err(error) if error.is_memory() => Err(ConfigError::NoMemory),
        Err(_) => Err(ConfigError::NotToml),
    }
}

fn read_tree(alloc: Global, table: &Table) -> Result<Config, ConfigError>
    ensures reads { ReadsTree (table_view table.now) result }
    ensures good { IfOk result IsGood }
{
    match configuration(alloc, table) {
        Ok(config) => within_limits(config),
        Err(TreeError::NoMemory) => Err(ConfigError::NoMemory),
        Err(TreeError::Fault(Fault::Key(path))) => Err(ConfigError::Key(path)),
        Err(TreeError::Fault(Fault::Range(path))) => Err(ConfigError::Range(path)),
    }
}

fn within_limits(config: Config) -> Result<Config, ConfigError>
    requires { length config.bearers ≤ 16 }
    ensures { KeepsLimits config result }
{
    match limits(&config) {
        Ok(()) => Ok(config),
        Err(error) => Err(error),
    }
}
