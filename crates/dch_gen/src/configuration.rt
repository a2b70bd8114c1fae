ghost use Rattle.std.specs.Prelude.{◌≡◌, IfOk};
ghost use Rattle.dch_config.specs.Good.{IsGood};
ghost use Rattle.dch_gen.specs.Configuration.{gen_side, gen_config};

use crate::bearers::gen_bearers;
use crate::channels::gen_channels;
use crate::combinations::gen_combinations;
use dch_bits::NoMemory;
use dch_types::{Config, Downlink, Side, Uplink};
use std::alloc::Global;

/// The configuration that `gen` runs on: both directions carry speech in three classes, signalling, and packet data of
/// up to 12 PDUs in a radio frame. It keeps every rule of a configuration.
#[tactic(auto, unfolding(crate::specs::Configuration::gen_config))]
pub fn gen_config(alloc: Global) -> Result<Config, NoMemory>
    ensures value { IfOk result (λ config. config ≡ gen_config) }
    ensures good { IfOk result IsGood }
{
    let uplink = Uplink {
        side: side(alloc)?,
        largest: 9600,
        pl: 100,
    };
    let downlink = Downlink {
        side: side(alloc)?,
        slot_bits: 608,
        codes: 1,
        sf: 8,
        fixed: true,
    };
    let bearers = gen_bearers(alloc)?;
    Ok(Config {
        uplink,
        downlink,
        bearers,
        payload_check: true,
        qe: 0,
    })
}

/// A law: the configuration that `gen` runs on keeps every rule of a configuration.
pub fn gen_is_good()
    ensures { IsGood gen_config }
{}

/// The channels and combinations of a direction.
#[tactic(auto, unfolding(crate::specs::Configuration::gen_side))]
fn side(alloc: Global) -> Result<Side, NoMemory>
    ensures { IfOk result (λ side. side ≡ gen_side) }
{
    let channels = gen_channels(alloc)?;
    let combinations = gen_combinations(alloc)?;
    Ok(Side {
        channels,
        combinations,
    })
}
