ghost use Rattle.std.specs.Prelude.{◌≡◌, ◌+◌, ◌<◌, ◌≤◌, IfSome, length, map};
ghost use Rattle.dch_rlcpdu.specs.Fields.{AckField, BitmapField, ListField, bits_of, pairs_of};
ghost use Rattle.dch_rlcpdu.specs.Sufis.{bits_in, pairs_in, sufi_of, IsInRange};
ghost use Rattle.dch_am.specs.Numbers.{range};
ghost use Rattle.dch_retx.specs.StatusItems.{bit_item, first_of, missing_of, said_by, said_in};
ghost use Rattle.dch_retx.specs.StatusItem.{ends_at, limit_in, limit_of};
ghost use Rattle.dch_retx.specs.Telling.{ends_by, told_more, IsPassed, IsTold};

use crate::buffer::Running;
use crate::hear::{SentNumbers, place_of};
use dch_rlcpdu::{Cursor, NUMBERS, StatusView, Sufi};

/// Nothing is outside, wherever the lowest open PDU stands.
const NO_LIMIT: u16 = NUMBERS + 1;

/// What a status tells as a whole.
#[derive(Clone, Copy)]
pub struct Told {
    /// The place of its LSN.
    pub below: Option<u16>,
    /// It says something besides an MRW_ACK.
    pub reports: bool,
    /// The place below which it acknowledges all PDUs since it ends the discard.
    pub ending: Option<u16>,
    /// Something is outside where the lowest open PDU stands at this place or behind.
    pub limit: u16,
}

/// What a status tells of PDUs in flight and of the discard that runs.
pub fn tell(status: &StatusView<'_>, sent: SentNumbers, running: Option<Running>) -> Told
    requires sent { (sent.window ≤ 2048) × (sent.first < 4096) × (sent.count ≤ 2048) }
    requires running { IfSome running (λ r. r.at < sent.count) }
    ensures { IsTold result sent.window sent.first sent.count running (said_by status.now) }
{
    let mut told = Told {
        below: None,
        reports: false,
        ending: None,
        limit: NO_LIMIT,
    };
    let mut cursor = status.cursor();
    while !cursor.is_done() {
        let field = cursor.field();
        let ending = ends_by(field, sent, running);
        told = tell_field(&cursor, field, told, sent);
        told.ending = told.ending.or(ending);
        cursor.advance();
    }
    told
}

/// The same with the numbers of one field more.
fn tell_field(cursor: &Cursor<'_>, field: Sufi, told: Told, sent: SentNumbers) -> Told
    requires field { field ≡ sufi_of (first_of cursor.now) }
    requires range { IsInRange field }
    requires pairs { pairs_in field ≡ length (pairs_of (first_of cursor.now)) }
    requires bits { bits_in field ≡ length (bits_of (first_of cursor.now)) }
    requires sent { (sent.window ≤ 2048) × (sent.first < 4096) × (sent.count ≤ 2048) }
    ensures { IsPassed result told sent.window sent.first sent.count (said_in (first_of cursor.now)) }
{
    match field {
        Sufi::List { pairs } => tell_list(cursor, pairs, told, sent),
        Sufi::Bitmap { first, bits } => tell_bits(cursor, first, bits, told, sent),
        Sufi::Ack(lsn) => tell_ack(lsn, told, sent),
        Sufi::MrwAck { n: _, sn: _ } => told,
        Sufi::NoMore => told,
        Sufi::Window(_) => told,
        Sufi::Mrw { last: _, n: _ } => told,
    }
}

/// The same with an LSN more. It is the number of a PDU in flight or of the next one.
fn tell_ack(lsn: u16, told: Told, sent: SentNumbers) -> Told
    requires sent { (sent.window ≤ 2048) × (sent.first < 4096) × (sent.count ≤ 2048) }
    ensures { IsPassed result told sent.window sent.first sent.count (said_in (AckField lsn)) }
{
    let place = place_of(sent.first, lsn);
    let limit = if place <= sent.count { place + 1 } else { 0 };
    Told {
        below: told.below.or(Some(place)),
        reports: true,
        ending: told.ending,
        limit: told.limit.min(limit),
    }
}

/// The same with a LIST more, which names PDUs in flight.
fn tell_list(cursor: &Cursor<'_>, pairs: u8, told: Told, sent: SentNumbers) -> Told
    requires pairs { pairs ≡ length (pairs_of (first_of cursor.now)) }
    requires sent { (sent.window ≤ 2048) × (sent.first < 4096) × (sent.count ≤ 2048) }
    ensures { IsPassed result told sent.window sent.first sent.count
        (said_in (ListField (pairs_of (first_of cursor.now)))) }
{
    let limit = limit_list(cursor, pairs, sent);
    tell_more(told, pairs > 0, limit)
}

/// The same with a BITMAP more, which acknowledges PDUs in flight or ones in the window below.
fn tell_bits(cursor: &Cursor<'_>, first: u16, bits: u16, told: Told, sent: SentNumbers) -> Told
    requires bits { bits ≡ length (bits_of (first_of cursor.now)) }
    requires number { first < 4096 }
    requires most { bits ≤ 128 }
    requires sent { (sent.window ≤ 2048) × (sent.first < 4096) × (sent.count ≤ 2048) }
    ensures { IsPassed result told sent.window sent.first sent.count
        (said_in (BitmapField first (bits_of (first_of cursor.now)))) }
{
    let limit = limit_bits(cursor, first, bits, sent);
    tell_more(told, bits > 0, limit)
}

/// The same with a field more that has no LSN.
fn tell_more(told: Told, reports: bool, limit: u16) -> Told
    ensures { result ≡ told_more told reports limit }
{
    Told {
        below: told.below,
        reports: told.reports || reports,
        ending: told.ending,
        limit: told.limit.min(limit),
    }
}

/// From which place on the lowest open PDU leaves a number of a LIST outside.
fn limit_list(cursor: &Cursor<'_>, pairs: u8, sent: SentNumbers) -> u16
    requires pairs { pairs ≡ length (pairs_of (first_of cursor.now)) }
    requires sent { (sent.window ≤ 2048) × (sent.first < 4096) × (sent.count ≤ 2048) }
    ensures { result ≡ limit_in sent.window sent.first sent.count
        (said_in (ListField (pairs_of (first_of cursor.now)))) }
{
    let mut limit = NO_LIMIT;
    for j in 0..pairs as usize {
        let run = cursor.pair(j);
        limit = limit.min(limit_run(run, sent));
    }
    limit
}

/// The same for a run.
fn limit_run(run: (u16, u8), sent: SentNumbers) -> u16
    requires number { run.0 < 4096 }
    requires more { run.1 < 16 }
    requires sent { (sent.window ≤ 2048) × (sent.first < 4096) × (sent.count ≤ 2048) }
    ensures { result ≡ limit_in sent.window sent.first sent.count (map missing_of (range run.0 (run.1 + 1))) }
{
    let (first, more) = run;
    let place = place_of(sent.first, first);
    if place + (more as u16) < sent.count {
        place + 1
    } else {
        0
    }
}

/// The same for a BITMAP.
fn limit_bits(cursor: &Cursor<'_>, first: u16, bits: u16, sent: SentNumbers) -> u16
    requires bits { bits ≡ length (bits_of (first_of cursor.now)) }
    requires number { first < 4096 }
    requires most { bits ≤ 128 }
    requires sent { (sent.window ≤ 2048) × (sent.first < 4096) × (sent.count ≤ 2048) }
    ensures { result ≡ limit_in sent.window sent.first sent.count
        (said_in (BitmapField first (bits_of (first_of cursor.now)))) }
{
    let mut limit = NO_LIMIT;
    for j in 0..bits {
        let bit = cursor.bit(j as usize);
        limit = limit.min(limit_bit(bit, (first + j) % NUMBERS, sent));
    }
    limit
}

/// The same for one bit. A number that is acknowledged is in flight, or in the window below.
fn limit_bit(bit: bool, number: u16, sent: SentNumbers) -> u16
    requires sent { (sent.window ≤ 2048) × (sent.first < 4096) × (sent.count ≤ 2048) }
    ensures { result ≡ limit_of sent.window sent.first sent.count (bit_item bit number) }
{
    if !bit {
        return NO_LIMIT;
    }
    let place = place_of(sent.first, number);
    if place < sent.count {
        NO_LIMIT
    } else {
        (place + 1).saturating_sub(NUMBERS - sent.window)
    }
}

/// The place below which a field acknowledges all PDUs, where it ends the discard.
fn ends_by(field: Sufi, sent: SentNumbers, running: Option<Running>) -> Option<u16>
    requires sent { (sent.window ≤ 2048) × (sent.first < 4096) × (sent.count ≤ 2048) }
    requires running { IfSome running (λ r. r.at < sent.count) }
    ensures { result ≡ ends_by sent.first sent.count running field }
{
    let running = running?;
    match field {
        Sufi::MrwAck { n, sn } => ends_at(sent, running, n, sn),
        Sufi::NoMore => None,
        Sufi::Window(_) => None,
        Sufi::Ack(_) => None,
        Sufi::List { pairs: _ } => None,
        Sufi::Bitmap { first: _, bits: _ } => None,
        Sufi::Mrw { last: _, n: _ } => None,
    }
}

/// An MRW_ACK with the discard's own number and indicator ends it, and one with a number behind and the indicator 0.
fn ends_at(sent: SentNumbers, running: Running, n: u8, sn: u16) -> Option<u16>
    requires sent { (sent.window ≤ 2048) × (sent.first < 4096) × (sent.count ≤ 2048) }
    requires place { running.at < sent.count }
    ensures place { result ≡ ends_at sent.first sent.count running.at running.n n sn }
{
    let at = running.at;
    let place = place_of((sent.first + at) % NUMBERS, sn);
    if place == 0 && n == running.n {
        return Some(at);
    }
    if place > 0 && at + place <= sent.count && n == 0 {
        return Some(at + place);
    }
    None
}
