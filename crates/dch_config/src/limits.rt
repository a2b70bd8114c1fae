ghost use Rattle.std.specs.Prelude.{◌≤◌, length, OnOk};
ghost use Rattle.dch_config.specs.Refusals.{Judges};
ghost use Rattle.dch_config.specs.Limits.{first_count_refusal, first_combination_refusal, first_bearer_refusal, first_bits_refusal, limit_refusal};

use crate::error::ConfigError;
use crate::{bearer, side};
use dch_types::{Config, Dir, Side};

/// The limits of a configuration after the rules of its keys, in the order of the variants of the error.
#[tactic(auto, unfolding(crate::specs::Limits::limit_refusal))]
pub(crate) fn limits(config: &Config) -> Result<(), ConfigError>
    requires { length config.now.bearers ≤ 16 }
    ensures { Judges (limit_refusal config.now) result }
{
    let up = &config.uplink.side;
    let down = &config.downlink.side;
    counts(up, down)?;
    combinations(up, down)?;
    bearers(config)?;
    bits(up, down)?;
    Ok(())
}

#[tactic(auto, unfolding(crate::specs::Limits::first_count_refusal))]
fn counts(up: &Side, down: &Side) -> Result<(), ConfigError>
    ensures judges { Judges (first_count_refusal up.now down.now) result }
    ensures few_up { OnOk result (length up.now.channels ≤ 8) }
    ensures few_down { OnOk result (length down.now.channels ≤ 8) }
    ensures some_up { OnOk result (length up.now.combinations ≤ 128) }
    ensures some_down { OnOk result (length down.now.combinations ≤ 128) }
{
    side::channel_count(Dir::Up, up)?;
    side::channel_count(Dir::Down, down)?;
    side::format_count(Dir::Up, up)?;
    side::format_count(Dir::Down, down)?;
    side::idle(Dir::Up, up)?;
    side::idle(Dir::Down, down)?;
    side::combination_count(Dir::Up, up)?;
    side::combination_count(Dir::Down, down)?;
    Ok(())
}

#[tactic(auto, unfolding(crate::specs::Limits::first_combination_refusal))]
fn combinations(up: &Side, down: &Side) -> Result<(), ConfigError>
    requires few_up { length up.now.channels ≤ 8 }
    requires few_down { length down.now.channels ≤ 8 }
    requires some_up { length up.now.combinations ≤ 128 }
    requires some_down { length down.now.combinations ≤ 128 }
    ensures { Judges (first_combination_refusal up.now down.now) result }
{
    side::combinations(Dir::Up, up)?;
    side::combinations(Dir::Down, down)?;
    side::closure(Dir::Up, up)?;
    side::closure(Dir::Down, down)?;
    side::block_size(Dir::Up, up)?;
    side::block_size(Dir::Down, down)?;
    Ok(())
}

#[tactic(auto, unfolding(crate::specs::Limits::first_bearer_refusal))]
fn bearers(config: &Config) -> Result<(), ConfigError>
    requires { length config.now.bearers ≤ 16 }
    ensures { Judges (first_bearer_refusal config.now) result }
{
    bearer::check(config)?;
    bearer::pdus(config)?;
    bearer::windows(config)?;
    Ok(())
}

#[tactic(auto, unfolding(crate::specs::Limits::first_bits_refusal))]
fn bits(up: &Side, down: &Side) -> Result<(), ConfigError>
    requires few_up { length up.now.channels ≤ 8 }
    requires few_down { length down.now.channels ≤ 8 }
    ensures { Judges (first_bits_refusal up.now down.now) result }
{
    side::tti_bits(Dir::Up, up)?;
    side::tti_bits(Dir::Down, down)?;
    Ok(())
}
