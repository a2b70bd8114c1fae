ghost use Rattle.std.specs.Prelude.{◌≡◌, ◌<◌, ℕ, IfOk};
ghost use Rattle.dch_gen.specs.Combinations.{gen_combination, gen_combinations};

use dch_bits::NoMemory;
use dch_types::{Combination, Sequence};
use std::alloc::Global;

/// How many combinations there are: six of packet data with each of six of speech and signalling.
const COMBINATIONS: u8 = 36;

/// The combinations of a direction.
pub(crate) fn gen_combinations(alloc: Global) -> Result<Sequence<Combination>, NoMemory>
    ensures { IfOk result (λ combinations. combinations ≡ gen_combinations 36) }
{
    let mut combinations = Sequence::new(alloc);
    for c in 0..COMBINATIONS {
        combinations.push(combination(alloc, c)?)?;
    }
    Ok(combinations)
}

/// Combination `c`. With speech go classes B and C, with a frame that describes silence only class A.
fn combination(alloc: Global, c: u8) -> Result<Combination, NoMemory>
    ensures { IfOk result (λ combination. combination ≡ gen_combination c) }
{
    let voice = c % 3;
    let formats = [voice, voice / 2, voice / 2, c / 3 % 2, c / 6];
    Ok(Combination {
        formats: Sequence::from(Vec::from_slice(alloc, &formats)?),
    })
}
