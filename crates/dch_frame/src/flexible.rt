ghost use Rattle.std.specs.Prelude.{◌≡◌, ◌≢◌, ◌<◌, ◌≤◌, ◌+◌, ◌*◌, ◌^◌, ℕ, length};
ghost use Rattle.dch_types.specs.Limits.{IsSide, IsChannel};
ghost use Rattle.dch_types.specs.Parts.{channel_at, format_number};
ghost use Rattle.dch_types.specs.Sums.{total};
ghost use Rattle.dch_frame.specs.Downlinks.{eighths, flexible_weight, combined, greatest, stands_below, first_places, places_after};
ghost use Rattle.dch_frame.specs.Places.{place_at, IsTable};

use crate::places::Places;
use crate::shares::share;
use dch_types::{Side, Trch};

/// The bits of a format in a radio frame, in eighths.
fn eighths(channel: &Trch, f: usize) -> u64
    requires channel { IsChannel channel.now }
    requires format { f < length channel.now.formats }
    ensures value { result ≡ eighths channel.now f }
    ensures small { result ≤ 1048576 }
{
    8 * channel.tti_bits(channel.format(f)) / channel.frames as u64
}

/// RM*N of a format of a channel, in eighths.
fn flexible_weight(side: &Side, i: usize, f: usize) -> u64
    requires good { IsSide side.now }
    requires channel { i < length side.now.channels }
    requires format { f < length (channel_at side.now i).formats }
    ensures value { result ≡ flexible_weight side.now i f }
    ensures small { result ≤ 268435456 }
{
    let channel = side.channel(i);
    channel.rm as u64 * eighths(channel, f)
}

/// RM*N of a channel in a combination, in eighths.
fn combined(side: &Side, c: usize, i: usize) -> u64
    requires good { IsSide side.now }
    requires combination { c < length side.now.combinations }
    requires channel { i < length side.now.channels }
    ensures value { result ≡ combined side.now c i }
    ensures small { result ≤ 268435456 }
{
    flexible_weight(side, i, side.tfi(c, i) as usize)
}

/// The sum of RM*N over all channels in a combination, in eighths.
fn whole_combined(side: &Side, c: usize) -> u64
    requires good { IsSide side.now }
    requires combination { c < length side.now.combinations }
    ensures value { result ≡ total (combined side.now c) (length side.now.channels) }
    ensures small { result < 2 ^ 32 }
{
    let mut weight = 0;
    for i in 0..side.channels.len() {
        weight += combined(side, c, i);
    }
    weight
}

/// The greatest of these sums.
fn greatest(side: &Side) -> u64
    requires { IsSide side.now }
    ensures value { result ≡ greatest side.now }
    ensures small { result < 2 ^ 32 }
{
    let mut most = 0;
    for c in 0..side.combinations.len() {
        most = most.max(whole_combined(side, c));
    }
    most
}

/// Whether a format of a channel stands in a combination.
pub fn is_used(side: &Side, i: usize, f: usize) -> bool
    requires good { IsSide side.now }
    requires channel { i < length side.now.channels }
    ensures { result ≡ stands_below side.now i f (length side.now.combinations) }
{
    let mut found = false;
    for c in 0..side.combinations.len() {
        found = side.tfi(c, i) as usize == f || found;
    }
    found
}

/// The places of a format in a radio frame before any is lowered.
fn first_places(side: &Side, ndata: u64, most: u64, i: usize, f: usize) -> u64
    requires good { IsSide side.now }
    requires size { ndata ≤ 65536 }
    requires most { most ≡ greatest side.now }
    requires channel { i < length side.now.channels }
    requires format { f < length (channel_at side.now i).formats }
    ensures value { result ≡ first_places side.now ndata i f }
    ensures small { result ≤ 131072 }
{
    if !is_used(side, i, f) {
        eighths(side.channel(i), f).div_ceil(8)
    } else if most == 0 {
        0
    } else {
        (ndata * flexible_weight(side, i, f)).div_ceil(most)
    }
}

/// Writes the places of a channel's formats before any is lowered.
fn first_row(table: &mut Places, side: &Side, ndata: u64, most: u64, i: usize)
    requires good { IsSide side.now }
    requires size { ndata ≤ 65536 }
    requires most { most ≡ greatest side.now }
    requires channel { i < length side.now.channels }
    ensures here { (f : ℕ) → f < length (channel_at side.now i).formats →
        place_at table.new i f ≡ first_places side.now ndata i f }
    ensures same { (j f : ℕ) → j ≢ i → place_at table.new j f ≡ place_at table.old j f }
{
    for f in 0..side.channel(i).formats.len() {
        table.put(i, f, first_places(side, ndata, most, i, f));
    }
}

/// The places before any is lowered.
fn first_table(side: &Side, ndata: u64) -> Places
    requires good { IsSide side.now }
    requires size { ndata ≤ 65536 }
    ensures { IsTable side.now (first_places side.now ndata) result }
{
    let most = greatest(side);
    let mut table = Places::none();
    for i in 0..side.channels.len() {
        first_row(&mut table, side, ndata, most, i);
    }
    table
}

/// The places of a combination in a radio frame.
fn placed(table: &Places, side: &Side, c: usize) -> u64
    requires good { IsSide side.now }
    requires combination { c < length side.now.combinations }
    ensures { result ≡ total (λ i. place_at table.now i (format_number side.now c i)) (length side.now.channels) }
{
    let mut places = 0;
    for i in 0..side.channels.len() {
        places += table.at(i, side.tfi(c, i) as usize);
    }
    places
}

/// Lowers the places of a combination to their shares of a radio frame, where together they exceed it.
fn lower(table: &mut Places, side: &Side, ndata: u64, c: usize)
    requires good { IsSide side.now }
    requires size { ndata ≤ 65536 }
    requires combination { c < length side.now.combinations }
    requires before { IsTable side.now (places_after side.now ndata c) table.old }
    ensures { IsTable side.now (places_after side.now ndata (c + 1)) table.new }
{
    if placed(table, side, c) <= ndata {
        return;
    }
    let weight = whole_combined(side, c);
    let mut held = 0;
    for i in 0..side.channels.len() {
        let part = combined(side, c, i);
        let f = side.tfi(c, i) as usize;
        let most = share(held, part, ndata, weight);
        let places = table.at(i, f).min(most);
        table.put(i, f, places);
        held += part;
    }
}

/// The places of each format at flexible positions (TS 25.212 4.2.7.2.2). Combinations are lowered in their order, and
/// a later one sees the places that earlier ones lowered.
pub fn flexible_table(side: &Side, ndata: u64) -> Places
    requires good { IsSide side.now }
    requires size { ndata ≤ 65536 }
    ensures { IsTable side.now (places_after side.now ndata (length side.now.combinations)) result }
{
    let mut table = first_table(side, ndata);
    for c in 0..side.combinations.len() {
        lower(&mut table, side, ndata, c);
    }
    table
}
