ghost use Rattle.std.specs.Prelude.{◌≡◌, ◌^◌, ◌≤◌};
ghost use Rattle.dch_coding.specs.Conv.{coded_length};

/// How many coded bits stand for each bit of a block: two or three (TS 25.212 4.2.3.1).
#[derive(Clone, Copy, Debug, PartialEq, Eq)]
pub enum Rate {
    Half,
    Third,
}

/// The number of coded bits of a block of `k` bits, which eight tail bits follow (TS 25.212 4.2.3.1).
pub fn coded_len(rate: Rate, k: usize) -> usize
    requires { k ≤ 2 ^ 31 }
    ensures { result ≡ coded_length rate k }
{
    match rate {
        Rate::Half => 2 * (k + 8),
        Rate::Third => 3 * (k + 8),
    }
}
