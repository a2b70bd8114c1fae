//! The transparent mode of RLC: units leave in the order in which they came, each as one block (TS 25.322 4.2.1.1).
#![tactic(auto)]

ghost use Rattle.std.specs.Prelude.{◌≡◌};

mod send;

use dch_bits::Bit;
pub use send::TmSend;

/// Hands a good block up: the block is the unit.
pub fn take(block: &[Bit]) -> &[Bit]
    ensures { result.now ≡ block.now }
{
    block
}
