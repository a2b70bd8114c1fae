ghost use Rattle.std.specs.Prelude.{◌≡◌, ◌<◌, IfOk, length, position};
ghost use Rattle.dch_types.specs.Limits.{IsChannel, idle_format, is_idle};
ghost use Rattle.dch_types.specs.Parts.{side_of};
ghost use Rattle.dch_layer2.specs.Opening.{AreIdle, AreOpened, IsIdle};

use crate::bearer::Bearer;
use dch_accept::{Accepted, TtiBlocks};
use dch_bits::NoMemory;
use dch_mac::Head;
use dch_types::{Dir, Format, Trch};
use std::alloc::Global;

/// Takes the memory of all bearers.
pub fn open_bearers(
    alloc: Global,
    accepted: &Accepted,
    out: Dir,
    into: Dir,
) -> Result<Vec<Bearer>, NoMemory>
    ensures { IfOk result (λ bearers. AreOpened accepted.now.config out into (length accepted.now.config.bearers)
        bearers.items) }
{
    // There are at most 16.
    let config = accepted.config();
    let mut bearers = Vec::new(alloc);
    for b in 0..config.bearers.len() {
        bearers.push(Bearer::open(alloc, accepted, out, into, b as u8)?)?;
    }
    Ok(bearers)
}

/// Takes the memory for the blocks of a TTI of each channel of a direction. Each channel has its idle format.
pub fn open_given(alloc: Global, accepted: &Accepted, out: Dir) -> Result<Vec<TtiBlocks>, NoMemory>
    ensures { IfOk result (λ given. AreIdle accepted.now.config out (length (side_of accepted.now.config out).channels)
        given.items) }
{
    // There are at most 8 channels.
    let side = accepted.side(out);
    let mut given = Vec::new(alloc);
    for i in 0..side.channels.len() {
        given.push(idle_blocks(alloc, accepted, out, i as u8)?)?;
    }
    Ok(given)
}

/// Takes the memory for what each bearer offers.
pub fn open_heads(alloc: Global, accepted: &Accepted) -> Result<Vec<Head>, NoMemory>
    ensures { IfOk result (λ heads. length heads.items ≡ length accepted.now.config.bearers) }
{
    let none = Head { size: 0, count: 0 };
    Ok(vec![in alloc; none; accepted.config().bearers.len()]?)
}

/// Takes the memory for a unit of at most 1,500 octets.
pub fn open_unit(alloc: Global) -> Result<Vec<u8>, NoMemory>
    ensures { IfOk result (λ unit. length unit.items ≡ 1500) }
{
    Ok(vec![in alloc; 0; 1500]?)
}

/// The blocks of the idle format of a channel, which are none or have no bits.
fn idle_blocks(
    alloc: Global,
    accepted: &Accepted,
    out: Dir,
    channel: u8,
) -> Result<TtiBlocks, NoMemory>
    requires { channel < length (side_of accepted.now.config out).channels }
    ensures { IfOk result (IsIdle accepted.now.config out channel) }
{
    let mut blocks = TtiBlocks::open(alloc, accepted, out)?;
    let idle = idle_format(accepted.channel(out, channel));
    blocks.shape(accepted, out, channel, idle);
    Ok(blocks)
}

/// The number of the idle format of a channel.
fn idle_format(channel: &Trch) -> u8
    requires { IsChannel channel.now }
    ensures value { result ≡ idle_format channel.now }
    ensures there { result < length channel.now.formats }
{
    match channel.first_idle() {
        Some(at) => at as u8,
        None => 0,
    }
}
