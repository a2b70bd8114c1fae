ghost use Rattle.std.specs.Prelude.{◌≡◌, ◌+◌, ◌<◌, ◌≤◌, ◌++◌, [], All, drop, length, slice_index_or, take};
ghost use Rattle.dch_rlcpdu.specs.Body.{body_text, padded};
ghost use Rattle.dch_rlcpdu.specs.Indicators.{indicator_octets, more};
ghost use Rattle.dch_txbuf.specs.Cuts.{IsStart, IsThere, is_padded, led_by, left_at, indicators_with, octets_of, with_lead, with_indicator};

use crate::store::SduBuffer;
use crate::taken::{Cut, Start};
use dch_rlcpdu::PADDING;

/// Writes what stands behind the header of a PDU: length indicators, octets of SDUs, and zeros for padding. Answers the
/// bit of the header that tells whether a length indicator follows.
pub fn write_body(
    sdus: &SduBuffer,
    start: &Start,
    cut: &Cut,
    lead: Option<u8>,
    out: &mut [u8],
) -> u8
    requires start { IsStart sdus.now.items start.now }
    requires there { IsThere cut.now (left_at start.now sdus.now.items) }
    requires few { length (led_by lead) + length (octets_of cut.now (left_at start.now sdus.now.items)) +
        cut.now.pieces ≤ length out.old }
    requires small { length out.old ≤ 126 }
    requires lead { All (λ m. m < 128) (led_by lead) }
    requires padded { cut.now.padded ≡ is_padded (length out.old) lead cut.now (left_at start.now sdus.now.items) }
    ensures text { out.new ≡ body_text (indicators_with lead (length out.old) cut.now
        (left_at start.now sdus.now.items)) (octets_of cut.now (left_at start.now sdus.now.items)) (length out.old) }
    ensures more { result ≡ more (indicators_with lead (length out.old) cut.now (left_at start.now sdus.now.items)) }
{
    let ends = count_ends(cut, lead);
    let count = ends + usize::from(cut.padded);
    let (indicators, octets) = out.split_at_mut(count);
    write_parts(sdus, start, cut, lead, indicators, octets);
    u8::from(count > 0)
}

/// How many length indicators a PDU has but for that of padding.
fn count_ends(cut: &Cut, lead: Option<u8>) -> usize
    ensures { result ≡ length (led_by lead) + cut.now.pieces }
{
    match lead {
        Some(_) => 1 + cut.pieces as usize,
        None => cut.pieces as usize,
    }
}

/// Writes the length indicators, all of them, and the octets with zeros behind them.
fn write_parts(
    sdus: &SduBuffer,
    start: &Start,
    cut: &Cut,
    lead: Option<u8>,
    indicators: &mut [u8],
    octets: &mut [u8],
)
    requires start { IsStart sdus.now.items start.now }
    requires there { IsThere cut.now (left_at start.now sdus.now.items) }
    requires count { length indicators.old ≡
        length (indicators_with lead (length indicators.old + length octets.old) cut.now
        (left_at start.now sdus.now.items)) }
    requires room { length (octets_of cut.now (left_at start.now sdus.now.items)) ≤ length octets.old }
    requires small { length indicators.old + length octets.old ≤ 126 }
    requires lead { All (λ m. m < 128) (led_by lead) }
    requires padded { cut.now.padded ≡
        is_padded (length indicators.old + length octets.old) lead cut.now (left_at start.now sdus.now.items) }
    ensures indicators { indicators.new ≡
        indicator_octets (indicators_with lead (length indicators.old + length octets.old) cut.now
        (left_at start.now sdus.now.items)) }
    ensures octets { octets.new ≡ padded (length octets.old) (octets_of cut.now (left_at start.now sdus.now.items)) }
{
    let carried = write_pieces(sdus, start, cut, lead, indicators, octets);
    octets[carried..].fill(0);
    if cut.padded {
        write_indicator(PADDING, indicators.len() - 1, indicators);
    }
}

/// Writes the length indicators but for that of padding, and the octets. Answers how many octets they are.
fn write_pieces(
    sdus: &SduBuffer,
    start: &Start,
    cut: &Cut,
    lead: Option<u8>,
    indicators: &mut [u8],
    octets: &mut [u8],
) -> usize
    requires start { IsStart sdus.now.items start.now }
    requires there { IsThere cut.now (left_at start.now sdus.now.items) }
    requires count { length indicators.old ≡
        length (indicators_with lead (length indicators.old + length octets.old) cut.now
        (left_at start.now sdus.now.items)) }
    requires room { length (octets_of cut.now (left_at start.now sdus.now.items)) ≤ length octets.old }
    requires small { length indicators.old + length octets.old ≤ 126 }
    requires lead { All (λ m. m < 128) (led_by lead) }
    ensures octets { take result octets.new ≡ octets_of cut.now (left_at start.now sdus.now.items) }
    ensures count { result ≡ length (octets_of cut.now (left_at start.now sdus.now.items)) }
    ensures same { length octets.new ≡ length octets.old }
    ensures indicators { take (length (led_by lead) + cut.now.pieces) indicators.new ≡
        take (length (led_by lead) + cut.now.pieces)
        (indicator_octets (indicators_with lead (length indicators.old + length octets.old) cut.now
        (left_at start.now sdus.now.items))) }
    ensures number { length indicators.new ≡ length indicators.old }
{
    let first = start.sdu as usize;
    let pieces = cut.pieces as usize;
    let rest = cut.rest as usize;
    let before = write_lead(lead, indicators);
    let mut at = 0;
    let mut used = start.used as usize;
    for i in first..first + pieces {
        let count = sdus.octets(i) as usize - used;
        copy_part(sdus, i, used, count, at, octets);
        at += count;
        write_indicator(at as u8, before + (i - first), indicators);
        used = 0;
    }
    if rest > 0 {
        copy_part(sdus, first + pieces, used, rest, at, octets);
    }
    at + rest
}

/// Writes the length indicator that stands first, where there is one. Answers how many they are.
fn write_lead(lead: Option<u8>, indicators: &mut [u8]) -> usize
    requires room { length (led_by lead) ≤ length indicators.old }
    requires small { All (λ m. m < 128) (led_by lead) }
    ensures count { result ≡ length (led_by lead) }
    ensures indicator { indicators.new ≡ with_lead lead indicators.old }
{
    match lead {
        Some(indicator) => {
            write_indicator(indicator, 0, indicators);
            1
        }
        None => 0,
    }
}

/// Writes a length indicator at its place among all of them.
fn write_indicator(indicator: u8, at: usize, indicators: &mut [u8])
    requires small { indicator < 128 }
    requires inside { at < length indicators.old }
    ensures { indicators.new ≡ with_indicator indicator at indicators.old }
{
    indicators[at] = 2 * indicator + u8::from(at + 1 < indicators.len());
}

/// Copies so many octets of an SDU, from one of them on, to a place of `octets`.
fn copy_part(sdus: &SduBuffer, i: usize, from: usize, count: usize, at: usize, octets: &mut [u8])
    requires there { i < length sdus.now.items }
    requires inside { from + count ≤ length (slice_index_or sdus.now.items i []) }
    requires room { at + count ≤ length octets.old }
    ensures { octets.new ≡ take at octets.old ++ (take count (drop from (slice_index_or sdus.now.items i [])) ++
        drop (at + count) octets.old) }
{
    sdus.copy(i, from, &mut octets[at..at + count]);
}
