ghost use Rattle.std.specs.Prelude.{◌≡◌, ◌+◌, ◌<◌, ◌≤◌, length, map};
ghost use Rattle.circular_buffer.specs.Buffer.{buffer};
ghost use Rattle.dch_rlcpdu.specs.Fields.{BitmapField, ListField, bits_of, pairs_of};
ghost use Rattle.dch_am.specs.Numbers.{range};
ghost use Rattle.dch_retx.specs.StatusItems.{Missing, bit_item, first_of, missing_of, said_by, said_in};
ghost use Rattle.dch_retx.specs.StatusItem.{is_named, names_place, with_name, with_names};

use crate::flight::Flight;
use crate::hear::place_of;
use dch_rlcpdu::{Cursor, NUMBERS, StatusView, Sufi};

/// What names do: the number of the first PDU in flight, the place from which named PDUs are requested, the place
/// before which they are marked, and the place of the PDU that is asked for.
#[derive(Clone, Copy)]
pub struct Naming {
    pub first: u16,
    pub from: u16,
    pub to: usize,
    pub polled: u16,
}

/// Names the PDUs that are said to be missing. Answers whether the PDU that is asked for is one of them.
pub fn name(flight: &mut Flight, status: &StatusView<'_>, naming: Naming) -> bool
    requires { naming.first < 4096 }
    ensures named { result ≡ is_named naming.first naming.polled (said_by status.now) }
    ensures after { flight.new ≡ buffer (with_names naming.first naming.from naming.to (said_by status.now)
        flight.old.items) flight.old.capacity }
{
    let mut named = false;
    let mut cursor = status.cursor();
    while !cursor.is_done() {
        let here = name_field(flight, &cursor, naming);
        named = named || here;
        cursor.advance();
    }
    named
}

/// The same for one field.
fn name_field(flight: &mut Flight, cursor: &Cursor<'_>, naming: Naming) -> bool
    requires some { 0 < length cursor.now }
    requires first { naming.first < 4096 }
    ensures named { result ≡ is_named naming.first naming.polled (said_in (first_of cursor.now)) }
    ensures after { flight.new ≡ buffer (with_names naming.first naming.from naming.to (said_in (first_of cursor.now))
        flight.old.items) flight.old.capacity }
{
    match cursor.field() {
        Sufi::List { pairs } => name_list(flight, cursor, pairs, naming),
        Sufi::Bitmap { first, bits } => name_bits(flight, cursor, first, bits, naming),
        Sufi::NoMore => false,
        Sufi::Window(_) => false,
        Sufi::Ack(_) => false,
        Sufi::Mrw { last: _, n: _ } => false,
        Sufi::MrwAck { n: _, sn: _ } => false,
    }
}

/// The numbers of a LIST.
fn name_list(flight: &mut Flight, cursor: &Cursor<'_>, pairs: u8, naming: Naming) -> bool
    requires pairs { pairs ≡ length (pairs_of (first_of cursor.now)) }
    requires first { naming.first < 4096 }
    ensures named { result ≡ is_named naming.first naming.polled
        (said_in (ListField (pairs_of (first_of cursor.now)))) }
    ensures after { flight.new ≡ buffer (with_names naming.first naming.from naming.to
        (said_in (ListField (pairs_of (first_of cursor.now)))) flight.old.items) flight.old.capacity }
{
    let mut named = false;
    for j in 0..pairs as usize {
        let run = cursor.pair(j);
        let here = name_run(flight, run, naming);
        named = named || here;
    }
    named
}

/// The numbers of a run.
fn name_run(flight: &mut Flight, run: (u16, u8), naming: Naming) -> bool
    requires number { run.0 < 4096 }
    requires first { naming.first < 4096 }
    ensures named { result ≡ is_named naming.first naming.polled (map missing_of (range run.0 (run.1 + 1))) }
    ensures after { flight.new ≡ buffer (with_names naming.first naming.from naming.to
        (map missing_of (range run.0 (run.1 + 1))) flight.old.items) flight.old.capacity }
{
    let (first, more) = run;
    let mut named = false;
    for k in 0..more as u16 + 1 {
        let here = name_one(flight, (first + k) % NUMBERS, naming);
        named = named || here;
    }
    named
}

/// The numbers of a BITMAP that have the bit 0.
fn name_bits(
    flight: &mut Flight,
    cursor: &Cursor<'_>,
    first: u16,
    bits: u16,
    naming: Naming,
) -> bool
    requires bits { bits ≡ length (bits_of (first_of cursor.now)) }
    requires number { first < 4096 }
    requires most { bits ≤ 128 }
    requires first { naming.first < 4096 }
    ensures named { result ≡ is_named naming.first naming.polled
        (said_in (BitmapField first (bits_of (first_of cursor.now)))) }
    ensures after { flight.new ≡ buffer (with_names naming.first naming.from naming.to
        (said_in (BitmapField first (bits_of (first_of cursor.now)))) flight.old.items) flight.old.capacity }
{
    let mut named = false;
    for j in 0..bits {
        let bit = cursor.bit(j as usize);
        let here = name_bit(flight, bit, (first + j) % NUMBERS, naming);
        named = named || here;
    }
    named
}

/// One bit.
fn name_bit(flight: &mut Flight, bit: bool, number: u16, naming: Naming) -> bool
    requires { naming.first < 4096 }
    ensures named { result ≡ names_place naming.first naming.polled (bit_item bit number) }
    ensures after { flight.new ≡ buffer (with_name naming.first naming.from naming.to (bit_item bit number)
        flight.old.items) flight.old.capacity }
{
    if bit {
        return false;
    }
    name_one(flight, number, naming)
}

/// One number.
fn name_one(flight: &mut Flight, number: u16, naming: Naming) -> bool
    requires { naming.first < 4096 }
    ensures named { result ≡ names_place naming.first naming.polled (Missing number) }
    ensures after { flight.new ≡ buffer (with_name naming.first naming.from naming.to (Missing number) flight.old.items)
        flight.old.capacity }
{
    let place = place_of(naming.first, number);
    if (place as usize) < flight.len() {
        flight.name(place as usize, naming.from as usize, naming.to);
    }
    place == naming.polled
}
