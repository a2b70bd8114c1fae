ghost use Rattle.std.specs.Prelude.{◌≡◌, ◌<◌, ◌≤◌, IfSome, IsTrue, length, drop, slice_index_or, false};
ghost use Rattle.dch_rlcpdu.specs.Fields.{NoMoreField, bits_of, pairs_of};
ghost use Rattle.dch_rlcpdu.specs.Halves.{halves};
ghost use Rattle.dch_rlcpdu.specs.Reading.{are_whole, counted, status_of};
ghost use Rattle.dch_rlcpdu.specs.Sufis.{bits_in, pairs_in, sufi_of, IsInRange};

use crate::cursor::Cursor;
use crate::field::{ends_at, whole_size_at};
use crate::sufi::Sufi;
use std::marker::Model;

/// A status that was read: its fields, up to and with the one that ends the list.
#[derive(Drop)]
pub struct StatusView<'a> {
    octets: &'a [u8],
    fields: usize,
}

impl<'a> Model for StatusView<'a> {
    ghost use Rattle.std.specs.Prelude.{List, IsTrue, drop};
    ghost use Rattle.dch_rlcpdu.specs.Fields.{Field};
    ghost use Rattle.dch_rlcpdu.specs.Halves.{halves};
    ghost use Rattle.dch_rlcpdu.specs.Reading.{are_whole, listed};

    ghost Value = { List Field };

    ghost view = { λ s. listed s.fields (drop 1 (halves s.octets.now)) };

    ghost invariant = { λ s. IsTrue (are_whole s.fields (drop 1 (halves s.octets.now))) };
}

impl<'a> StatusView<'a> {
    /// Reads a list of fields behind the first half octet. None where a field is unknown or empty, or the octets end
    /// before NO_MORE or ACK.
    pub fn read(octets: &'a [u8]) -> Option<StatusView<'a>>
        ensures { result ≡ status_of octets.now }
    {
        let fields = count_fields(octets)?;
        Some(StatusView { octets, fields })
    }
}

impl StatusView<'_> {
    /// The number of fields. The one that ends the list is counted too.
    pub fn fields(&self) -> usize
        ensures { result ≡ length self.now }
    {
        self.fields
    }

    /// Field `i`. A cursor goes over many of them in less time.
    pub fn field(&self, i: usize) -> Sufi
        requires { i < length self.now }
        ensures value { result ≡ sufi_of (slice_index_or self.now i NoMoreField) }
        ensures range { IsInRange result }
        ensures pairs { pairs_in result ≡ length (pairs_of (slice_index_or self.now i NoMoreField)) }
        ensures bits { bits_in result ≡ length (bits_of (slice_index_or self.now i NoMoreField)) }
    {
        self.cursor_at(i).field()
    }

    /// Pair `j` of field `i`, a LIST: the first missing number, and how many follow it.
    pub fn pair(&self, i: usize, j: usize) -> (u16, u8)
        requires field { i < length self.now }
        requires pair { j < length (pairs_of (slice_index_or self.now i NoMoreField)) }
        ensures value { result ≡ slice_index_or (pairs_of (slice_index_or self.now i NoMoreField)) j (0, 0) }
        ensures number { result.0 < 4096 }
        ensures more { result.1 < 16 }
    {
        self.cursor_at(i).pair(j)
    }

    /// Bit `j` of field `i`, a BITMAP: true where that number has arrived.
    pub fn bit(&self, i: usize, j: usize) -> bool
        requires field { i < length self.now }
        requires bit { j < length (bits_of (slice_index_or self.now i NoMoreField)) }
        ensures { result ≡ slice_index_or (bits_of (slice_index_or self.now i NoMoreField)) j false }
    {
        self.cursor_at(i).bit(j)
    }

    /// All fields, to go over them once.
    pub fn cursor(&self) -> Cursor<'_>
        ensures { result ≡ self.now }
    {
        Cursor {
            octets: self.octets,
            at: 1,
            left: self.fields,
        }
    }

    fn cursor_at(&self, i: usize) -> Cursor<'_>
        requires { i ≤ length self.now }
        ensures { result ≡ drop i self.now }
    {
        let mut cursor = self.cursor();
        for _ in 0..i {
            cursor.advance();
        }
        cursor
    }
}

/// How many fields there are, if the list has an end.
fn count_fields(octets: &[u8]) -> Option<usize>
    ensures fields { status_of octets.now ≡ counted octets.now result }
    ensures whole { IfSome result (λ n. IsTrue (are_whole n (drop 1 (halves octets.now)))) }
{
    let mut at = 1;
    let mut fields = 0;
    while at < 2 * octets.len() {
        let Some(size) = whole_size_at(octets, at) else {
            return None;
        };
        if ends_at(octets, at) {
            return Some(fields + 1);
        }
        fields += 1;
        at += size;
    }
    None
}
