ghost use Rattle.std.specs.Prelude.{◌≡◌, ◌<◌, ◌≤◌, ◌+◌, ◌-◌, ◌*◌, ◌/◌, ◌^◌};

/// The places of a frame of `ndata` places that a part of the weight gets, where the parts before it weigh `held`: the
/// difference of two floors, so that all parts together get every place (TS 25.212 4.2.7).
pub fn share(held: u64, part: u64, ndata: u64, weight: u64) -> u64
    requires part { held + part ≤ weight }
    requires weight { weight < 2 ^ 32 }
    requires size { ndata < 2 ^ 32 }
    ensures value { result ≡ (held + part) * ndata / weight - held * ndata / weight }
    ensures small { result ≤ ndata }
{
    if weight == 0 {
        0
    } else {
        (held + part) * ndata / weight - held * ndata / weight
    }
}
