use dch_bits::{Bit, NoMemory};
use dch_types::{Dir, Sequence};
use std::alloc::AllocFailed;

/// Why a configuration is not accepted.
#[derive(Drop)]
pub enum Refusal {
    /// Memory was wanted and not found.
    NoMemory,
    /// The first uplink combination for which no frame size keeps to the puncturing limit (TS 25.212 4.2.7.1.1).
    NoRate(u16),
    /// More pairs of a code block and a legal sequence of combinations than are looked at for collisions.
    Sequences(u128),
    /// Two code blocks that rate matching makes one under a legal sequence of combinations.
    Collision {
        dir: Dir,
        channel: u8,
        format: u8,
        block: u16,
        sequence: Sequence<u16>,
        first: Sequence<Bit>,
        second: Sequence<Bit>,
    },
}

impl From<NoMemory> for Refusal {
    ghost use Rattle.std.specs.Prelude.{◌≡◌};
    ghost use Rattle.dch_accept.specs.declared.refusal.Refusal.{Refusal};

    ghost from_gives = { λ _ refusal. refusal ≡ Refusal.NoMemory };

    fn from(_: NoMemory) -> Self {
        Refusal::NoMemory
    }
}

impl<T: Drop> From<AllocFailed<T>> for Refusal {
    ghost use Rattle.std.specs.Prelude.{◌≡◌};
    ghost use Rattle.dch_accept.specs.declared.refusal.Refusal.{Refusal};

    ghost from_gives = { λ _ refusal. refusal ≡ Refusal.NoMemory };

    fn from(_: AllocFailed<T>) -> Self {
        Refusal::NoMemory
    }
}
