ghost use Rattle.std.specs.Prelude.{◌≡◌, ◌%◌, ℕ, IfOk};
ghost use Rattle.dch_gen.specs.Generators.{HasPassed, IsReady, MayCount};
ghost use Rattle.dch_gen.specs.GenRuns.{IsConfigured};

use crate::accepting::accept_gen;
use crate::generator::Generator;
use dch_bits::NoMemory;
use std::alloc::Global;

/// Opens three nodes for the configuration of `gen`. The first radio frame has this CFN.
#[tactic(auto, using(crate::proofs::SendingBearers::gen_sends))]
pub fn open_gen(alloc: Global, first_cfn: u8) -> Result<Generator, NoMemory>
    requires cfn { first_cfn % 8 ≡ 0 }
    ensures ready { IfOk result IsReady }
    ensures room { IfOk result (λ generator. MayCount generator 3200000) }
    ensures stands { IfOk result (λ generator. (n : ℕ) → HasPassed first_cfn n 0 generator) }
    ensures configured { IfOk result (λ generator. IsConfigured generator.accepted) }
{
    let accepted = accept_gen(alloc)?;
    Generator::open(alloc, accepted, first_cfn)
}
