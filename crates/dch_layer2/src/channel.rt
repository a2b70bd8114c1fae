ghost use Rattle.std.specs.Prelude.{◌≡◌, ◌<◌, ◌≤◌, All, IfOk, length};
ghost use Rattle.dch_types.specs.Limits.{is_idle};
ghost use Rattle.dch_types.specs.Parts.{channel_number};
ghost use Rattle.dch_config.specs.Good.{IsGood};
ghost use Rattle.dch_layer2.specs.Bearings.{bearer_in, size_in, sizes_in};
ghost use Rattle.dch_layer2.specs.Shapes.{shape_of};

use crate::shape::Shape;
use dch_accept::Accepted;
use dch_bits::NoMemory;
use dch_types::{Bearer, Dir, Format, Sequence};
use std::alloc::Global;

/// A bearer of a configuration.
pub fn bearer_of(accepted: &Accepted, bearer: u8) -> &Bearer
    requires { bearer < length accepted.now.config.bearers }
    ensures value { result.now ≡ bearer_in accepted.now.config bearer }
    ensures good { IsGood accepted.now.config }
{
    &accepted.config().bearers.as_slice()[bearer as usize]
}

/// The shape of the blocks of a bearer in a direction.
pub fn shape_on(accepted: &Accepted, dir: Dir, bearer: u8) -> Shape
    requires { bearer < length accepted.now.config.bearers }
    ensures { result ≡ shape_of accepted.now.config dir bearer }
{
    let it = bearer_of(accepted, bearer);
    match it.channel(dir) {
        None => Shape {
            ct: None,
            bits: 0,
            octets: 0,
        },
        Some(channel) => {
            let bits = block_size(accepted.channel(dir, channel).formats.as_slice());
            if accepted.has_ct(dir, channel) {
                Shape {
                    ct: Some(it.logical),
                    bits,
                    octets: bits.saturating_sub(4) / 8,
                }
            } else {
                Shape {
                    ct: None,
                    bits,
                    octets: bits / 8,
                }
            }
        }
    }
}

/// The size of the first blocks that some formats send, 0 where they send none.
fn block_size(formats: &[Format]) -> u16
    ensures { result ≡ size_in formats.now }
{
    for format in formats {
        if !format.is_idle() {
            return format.size;
        }
    }
    0
}

/// The sizes of the blocks that formats send.
pub fn sizes_of(alloc: Global, formats: &[Format]) -> Result<Sequence<u16>, NoMemory>
    ensures { IfOk result (λ sizes. sizes ≡ sizes_in formats.now) }
{
    let mut sizes = Sequence::new(alloc);
    for format in formats {
        if !format.is_idle() {
            sizes.push(format.size)?;
        }
    }
    Ok(sizes)
}

/// The greatest of some sizes, 0 where there is none.
pub fn greatest(sizes: &[u16]) -> u16
    ensures { All (λ size. size ≤ result) sizes.now }
{
    let mut most = 0;
    for size in sizes {
        most = most.max(*size);
    }
    most
}
