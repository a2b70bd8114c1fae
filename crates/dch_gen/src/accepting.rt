ghost use Rattle.std.specs.Prelude.{IfOk};
ghost use Rattle.dch_accept.specs.Answers.{IsAccepted};
ghost use Rattle.dch_gen.specs.Configuration.{gen_config};
ghost use Rattle.dch_gen.specs.Refused.{IsNeverRefused};

use crate::configuration::gen_config;
use dch_accept::{Accepted, Refusal, accept};
use dch_bits::NoMemory;
use std::alloc::Global;

/// The configuration that `gen` runs on, accepted. Nothing but want of memory can refuse it.
pub fn accept_gen(alloc: Global) -> Result<Accepted, NoMemory>
    ensures { IfOk result (IsAccepted gen_config) }
{
    let config = gen_config(alloc)?;
    match accept(alloc, config) {
        Ok(accepted) => Ok(accepted),
        Err(Refusal::NoMemory) => Err(NoMemory),
        Err(Refusal::NoRate(_)) => unreachable!(),
        Err(Refusal::Sequences(_)) => unreachable!(),
        Err(Refusal::Collision { .. }) => unreachable!(),
    }
}

/// A law: in the configuration of `gen` each uplink combination has a rate, at most 2,048 code blocks may lose bits,
/// and no two of them collide under any legal sequence of combinations, so no refusal but want of memory has a cause.
pub fn never_refused()
    ensures { IsNeverRefused gen_config }
{}
