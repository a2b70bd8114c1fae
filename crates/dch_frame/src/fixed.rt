ghost use Rattle.std.specs.Prelude.{◌≡◌, ◌≢◌, ◌<◌, ◌≤◌, ◌*◌, ◌^◌, ℕ, length};
ghost use Rattle.dch_types.specs.Limits.{IsSide, IsChannel};
ghost use Rattle.dch_types.specs.Sums.{total};
ghost use Rattle.dch_frame.specs.Downlinks.{most_of, fixed_weight, fixed_places};
ghost use Rattle.dch_frame.specs.Places.{place_at, IsTable};

use crate::places::Places;
use crate::shares::share;
use dch_types::{Side, Trch};

/// The coded bits of the greatest TTI of a channel.
pub fn most_of(channel: &Trch) -> u64
    requires { IsChannel channel.now }
    ensures value { result ≡ most_of channel.now }
    ensures small { result ≤ 131072 }
{
    let mut most = 0;
    for f in 0..channel.formats.len() {
        most = most.max(channel.tti_bits(channel.format(f)));
    }
    most
}

/// RM*N of a channel in eighths, where N is its greatest TTI over the frames of a TTI.
fn fixed_weight(side: &Side, i: usize) -> u64
    requires good { IsSide side.now }
    requires channel { i < length side.now.channels }
    ensures value { result ≡ fixed_weight side.now i }
    ensures small { result ≤ 268435456 }
{
    let channel = side.channel(i);
    channel.rm as u64 * (8 * most_of(channel) / channel.frames as u64)
}

/// The sum of RM*N over all channels, in eighths.
fn whole_fixed(side: &Side) -> u64
    requires { IsSide side.now }
    ensures value { result ≡ total (fixed_weight side.now) (length side.now.channels) }
    ensures small { result < 2 ^ 32 }
{
    let mut weight = 0;
    for i in 0..side.channels.len() {
        weight += fixed_weight(side, i);
    }
    weight
}

/// Writes the same places for the first formats of a channel.
fn fill_row(table: &mut Places, i: usize, formats: usize, places: u64)
    requires channel { i < 8 }
    requires formats { formats ≤ 32 }
    requires small { places < 2 ^ 32 }
    ensures here { (f : ℕ) → f < formats → place_at table.new i f ≡ places }
    ensures same { (j f : ℕ) → j ≢ i → place_at table.new j f ≡ place_at table.old j f }
{
    for f in 0..formats {
        table.put(i, f, places);
    }
}

/// The places of each channel at fixed positions, which are those of all its formats (TS 25.212 4.2.7.2.1).
pub fn fixed_table(side: &Side, ndata: u64) -> Places
    requires good { IsSide side.now }
    requires size { ndata ≤ 65536 }
    ensures { IsTable side.now (λ i f. fixed_places side.now ndata i) result }
{
    let weight = whole_fixed(side);
    let mut table = Places::none();
    let mut held = 0;
    for i in 0..side.channels.len() {
        let part = fixed_weight(side, i);
        let formats = side.channel(i).formats.len();
        fill_row(&mut table, i, formats, share(held, part, ndata, weight));
        held += part;
    }
    table
}
