ghost use Rattle.std.specs.Prelude.{◌≡◌, ◌<◌, [], ◌∷◌, ◌++◌, length, if◌then◌else◌, slice_index_or, IfOk, OnOk};
ghost use Rattle.dch_bits.specs.declared.bit.Bit.TheVariants.{Zero};
ghost use Rattle.dch_types.specs.Parts.{channel_at, format_number};
ghost use Rattle.dch_collision.specs.Directions.{IsPlanned, side_in};
ghost use Rattle.dch_collision.specs.Sequences.{IsLegal, frames_of};
ghost use Rattle.dch_margin.specs.Carriers.{Fits};
ghost use Rattle.dch_margin.specs.Sizes.{AreSizes};
ghost use Rattle.dch_margin.specs.Worst.{carriers_in, carriers_under, frame_places, is_one, tti_places};

use crate::carrier::{Carrier, downlink_carrier, uplink_carrier};
use crate::sizes::Sizes;
use dch_bits::{Bit, NoMemory, number};
use dch_collision::Direction;
use dch_types::Sequence;
use std::alloc::Global;

/// A cell of a TTI: its radio frame of the TTI, and its place in that radio frame, both from 0.
#[derive(Clone, Copy)]
pub struct Place {
    pub frame: usize,
    pub cell: usize,
}

/// The cells of a TTI of format `f` of channel `i`, sent in a sequence of combinations, that carry a One, where all
/// code blocks are zeros but one, whose code begins at coded bit `from`.
pub fn places_of(
    alloc: Global,
    direction: Direction<'_>,
    i: u8,
    f: u8,
    sizes: &Sizes,
    sequence: &[u16],
    code: &[Bit],
    from: usize,
) -> Result<Sequence<Place>, NoMemory>
    requires planned { IsPlanned direction }
    requires channel { i < length (side_in direction).channels }
    requires format { f < length (channel_at (side_in direction) i).formats }
    requires sizes { AreSizes (side_in direction) i f sizes.now }
    requires legal { IsLegal (side_in direction) i f sequence.now }
    ensures { IfOk result (λ places. places ≡ tti_places (carriers_under (carriers_in direction.entry) i f sequence.now)
        code.now from (length sequence.now)) }
{
    let mut places = Sequence::new(alloc);
    for n in 0..sequence.len() {
        let carrier = carrier_of(direction, i, f, sizes, sequence[n], n as u8);
        push_places(&carrier, code, from, &mut places)?;
    }
    Ok(places)
}

/// How radio frame `n` carries format `f` of channel `i` in a combination.
fn carrier_of(direction: Direction<'_>, i: u8, f: u8, sizes: &Sizes, c: u16, n: u8) -> Carrier
    requires planned { IsPlanned direction }
    requires channel { i < length (side_in direction).channels }
    requires format { f < length (channel_at (side_in direction) i).formats }
    requires sizes { AreSizes (side_in direction) i f sizes.now }
    requires combination { c < length (side_in direction).combinations }
    requires has { format_number (side_in direction) c i ≡ f }
    requires frame { n < frames_of (side_in direction) i }
    ensures value { result ≡ carriers_in direction.entry i f n c }
    ensures fits { Fits result }
{
    match direction {
        Direction::Up { config, plans } => {
            uplink_carrier(config, &plans[usize::from(c)], c, i, n, sizes)
        }
        Direction::Down { config, plan } => downlink_carrier(config, plan, c, i, f, n),
    }
}

/// Appends the cells of a radio frame that carry a One.
fn push_places(
    carrier: &Carrier,
    code: &[Bit],
    from: usize,
    places: &mut Sequence<Place>,
) -> Result<(), NoMemory>
    requires { Fits carrier.now }
    ensures { OnOk result (places.new ≡ places.old ++ frame_places carrier.now code.now from) }
{
    for k in 0..carrier.cells {
        let bit = carrier.carried(k);
        push_place(is_one(code, from, bit), carrier.number, k, places)?;
    }
    Ok(())
}

/// Appends a cell, where it is wanted.
fn push_place(
    wanted: bool,
    frame: usize,
    cell: usize,
    places: &mut Sequence<Place>,
) -> Result<(), NoMemory>
    ensures { OnOk result (places.new ≡
        (if wanted then places.old ++ record { frame = frame; cell = cell } ∷ [] else places.old)) }
{
    if wanted {
        places.push(Place { frame, cell })?;
    }
    Ok(())
}

/// Whether a coded bit is a One, where all code blocks are zeros but one, whose code begins at coded bit `from`.
fn is_one(code: &[Bit], from: usize, bit: Option<usize>) -> bool
    ensures { result ≡ is_one code.now from bit }
{
    match bit {
        None => false,
        Some(j) => from <= j && number(bit_of(code, j - from)) == 1,
    }
}

/// Bit `k` of a code, and Zero past its end.
fn bit_of(code: &[Bit], k: usize) -> Bit
    ensures { result ≡ slice_index_or code.now k Zero }
{
    if k < code.len() { code[k] } else { Bit::Zero }
}
