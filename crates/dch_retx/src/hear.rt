ghost use Rattle.std.specs.Prelude.{◌≡◌, ◌+◌, ◌<◌, ◌≤◌, length, map};
ghost use Rattle.dch_rlcpdu.specs.Fields.{AckField, BitmapField, ListField, bits_of, pairs_of};
ghost use Rattle.dch_am.specs.Numbers.{range};
ghost use Rattle.dch_retx.specs.StatusItems.{first_of, missing_of, said_by, said_in};
ghost use Rattle.dch_retx.specs.StatusItem.{first_outside, is_unknown, place_of};

use dch_rlcpdu::{Cursor, NUMBERS, StatusView, Sufi};

/// Where a number stands among PDUs in flight, the first of which has another one.
pub fn place_of(first: u16, number: u16) -> u16
    requires { first < 4096 }
    ensures place { result ≡ place_of first number }
    ensures small { result < 4096 }
{
    (number % NUMBERS + NUMBERS - first) % NUMBERS
}

/// The numbers of the PDUs in flight, by which a status is judged: the window, the number of the first one, and how
/// many there are.
#[derive(Clone, Copy)]
pub struct SentNumbers {
    pub window: u16,
    pub first: u16,
    pub count: u16,
}

/// The first number of a status that is outside.
pub fn outside(status: &StatusView<'_>, sent: SentNumbers) -> Option<u16>
    requires sent { (sent.window ≤ 2048) × (sent.first < 4096) × (sent.count ≤ 2048) }
    ensures { result ≡ first_outside sent.window sent.first sent.count (said_by status.now) }
{
    let mut cursor = status.cursor();
    while !cursor.is_done() {
        let found = outside_field(&cursor, sent);
        if found.is_some() {
            return found;
        }
        cursor.advance();
    }
    None
}

/// The first number of a field that is outside.
fn outside_field(cursor: &Cursor<'_>, sent: SentNumbers) -> Option<u16>
    requires some { 0 < length cursor.now }
    requires sent { (sent.window ≤ 2048) × (sent.first < 4096) × (sent.count ≤ 2048) }
    ensures { result ≡ first_outside sent.window sent.first sent.count (said_in (first_of cursor.now)) }
{
    match cursor.field() {
        Sufi::List { pairs } => outside_list(cursor, pairs, sent),
        Sufi::Bitmap { first, bits } => outside_bits(cursor, first, bits, sent),
        Sufi::Ack(lsn) => outside_ack(lsn, sent),
        Sufi::MrwAck { n: _, sn: _ } => None,
        Sufi::NoMore => None,
        Sufi::Window(_) => None,
        Sufi::Mrw { last: _, n: _ } => None,
    }
}

/// An LSN that is neither the number of a PDU in flight nor that of the next one.
fn outside_ack(lsn: u16, sent: SentNumbers) -> Option<u16>
    requires sent { (sent.window ≤ 2048) × (sent.first < 4096) × (sent.count ≤ 2048) }
    ensures { result ≡ first_outside sent.window sent.first sent.count (said_in (AckField lsn)) }
{
    if place_of(sent.first, lsn) > sent.count {
        Some(lsn % NUMBERS)
    } else {
        None
    }
}

/// The first number of a LIST that is outside.
fn outside_list(cursor: &Cursor<'_>, pairs: u8, sent: SentNumbers) -> Option<u16>
    requires pairs { pairs ≡ length (pairs_of (first_of cursor.now)) }
    requires sent { (sent.window ≤ 2048) × (sent.first < 4096) × (sent.count ≤ 2048) }
    ensures { result ≡ first_outside sent.window sent.first sent.count
        (said_in (ListField (pairs_of (first_of cursor.now)))) }
{
    for j in 0..pairs as usize {
        let run = cursor.pair(j);
        let found = outside_run(run, sent);
        if found.is_some() {
            return found;
        }
    }
    None
}

/// The first number of a run that is outside.
fn outside_run(run: (u16, u8), sent: SentNumbers) -> Option<u16>
    requires number { run.0 < 4096 }
    requires more { run.1 < 16 }
    requires sent { (sent.window ≤ 2048) × (sent.first < 4096) × (sent.count ≤ 2048) }
    ensures { result ≡ first_outside sent.window sent.first sent.count (map missing_of (range run.0 (run.1 + 1))) }
{
    let (first, more) = run;
    let place = place_of(sent.first, first);
    if place >= sent.count {
        return Some(first);
    }
    if place + (more as u16) < sent.count {
        return None;
    }
    Some((first + (sent.count - place)) % NUMBERS)
}

/// The first number of a BITMAP that is outside.
fn outside_bits(cursor: &Cursor<'_>, first: u16, bits: u16, sent: SentNumbers) -> Option<u16>
    requires bits { bits ≡ length (bits_of (first_of cursor.now)) }
    requires number { first < 4096 }
    requires most { bits ≤ 128 }
    requires sent { (sent.window ≤ 2048) × (sent.first < 4096) × (sent.count ≤ 2048) }
    ensures { result ≡ first_outside sent.window sent.first sent.count
        (said_in (BitmapField first (bits_of (first_of cursor.now)))) }
{
    for j in 0..bits {
        let number = (first + j) % NUMBERS;
        if cursor.bit(j as usize) && is_unknown(number, sent) {
            return Some(number);
        }
    }
    None
}

/// A number that is acknowledged is neither that of a PDU in flight nor of one in the window below.
fn is_unknown(number: u16, sent: SentNumbers) -> bool
    requires sent { (sent.window ≤ 2048) × (sent.first < 4096) × (sent.count ≤ 2048) }
    ensures { result ≡ is_unknown sent.window sent.first sent.count number }
{
    let place = place_of(sent.first, number);
    place >= sent.count && place < NUMBERS - sent.window
}
