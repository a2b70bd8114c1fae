ghost use Rattle.std.specs.Prelude.{◌≡◌, length, IfOk};

use dch_bits::{Bit, NoMemory};
use std::alloc::Global;

/// Memory for so many bits.
pub fn zeros(alloc: Global, count: usize) -> Result<Vec<Bit>, NoMemory>
    ensures { IfOk result (λ bits. length bits.items ≡ count) }
{
    match vec![in alloc; Bit::Zero; count] {
        Ok(bits) => Ok(bits),
        Err(_) => Err(NoMemory),
    }
}
