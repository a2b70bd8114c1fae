ghost use Rattle.std.specs.Prelude.{◌≡◌, ◌+◌, ◌≤◌, ◌<◌, length, MatchOption};
ghost use Rattle.dch_pool.specs.Blocks.{spare_of};
ghost use Rattle.dch_amrecv.specs.Stored.{IsStored, Stores, content_of};

use dch_pool::{Block, Pool};
use dch_rlcpdu::Body;

/// Copies the indicators and octets of a PDU to a block of a pool, behind their two numbers. There is none where no
/// block is spare.
pub fn store(pool: &mut Pool, body: &Body<'_>) -> Option<Block>
    requires room { length body.now.indicators + length body.now.octets + 2 ≤ pool.old.size }
    requires small { length body.now.indicators + length body.now.octets ≤ 124 }
    ensures { MatchOption result ((spare_of pool.old ≡ 0) × (pool.new ≡ pool.old)) (Stores pool.old pool.new body.now) }
{
    let indicators = body.indicators();
    let octets = body.octets();
    let block = pool.take()?;
    pool.write(&block, 0, &[indicators.len() as u8, octets.len() as u8]);
    pool.write(&block, 2, indicators);
    pool.write(&block, 2 + indicators.len(), octets);
    Some(block)
}

/// The PDU that stands in a block.
pub fn stored(text: &[u8]) -> Body<'_>
    requires { IsStored text.now }
    ensures content { result ≡ content_of text.now }
    ensures small { length result.indicators + length result.octets ≤ 124 }
{
    let (header, rest) = text.split_at(2);
    let (indicators, octets) = rest.split_at(header[0] as usize);
    Body::new(indicators, &octets[..header[1] as usize])
}
