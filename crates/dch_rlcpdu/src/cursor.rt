ghost use Rattle.std.specs.Prelude.{◌≡◌, ◌<◌, ◌==◌, length, drop, slice_index_or, false};
ghost use Rattle.dch_rlcpdu.specs.Fields.{NoMoreField, bits_of, pairs_of};
ghost use Rattle.dch_rlcpdu.specs.Sufis.{bits_in, pairs_in, sufi_of, IsInRange};

use crate::field::{bit_at, pair_at, size_at, sufi_at};
use crate::sufi::Sufi;
use std::marker::Model;

/// The fields of a status that are still to come, to go over them once. No call goes over the fields before.
#[derive(Drop)]
pub struct Cursor<'a> {
    pub(crate) octets: &'a [u8],
    pub(crate) at: usize,
    pub(crate) left: usize,
}

impl<'a> Model for Cursor<'a> {
    ghost use Rattle.std.specs.Prelude.{List, IsTrue, drop};
    ghost use Rattle.dch_rlcpdu.specs.Fields.{Field};
    ghost use Rattle.dch_rlcpdu.specs.Halves.{halves};
    ghost use Rattle.dch_rlcpdu.specs.Reading.{are_whole, listed};

    ghost Value = { List Field };

    ghost view = { λ c. listed c.left (drop c.at (halves c.octets.now)) };

    ghost invariant = { λ c. IsTrue (are_whole c.left (drop c.at (halves c.octets.now))) };
}

impl Cursor<'_> {
    /// No field is left.
    pub fn is_done(&self) -> bool
        ensures { result ≡ (length self.now == 0) }
    {
        self.left == 0
    }

    /// The first field that is left.
    pub fn field(&self) -> Sufi
        requires { 0 < length self.now }
        ensures value { result ≡ sufi_of (slice_index_or self.now 0 NoMoreField) }
        ensures range { IsInRange result }
        ensures pairs { pairs_in result ≡ length (pairs_of (slice_index_or self.now 0 NoMoreField)) }
        ensures bits { bits_in result ≡ length (bits_of (slice_index_or self.now 0 NoMoreField)) }
    {
        sufi_at(self.octets, self.at)
    }

    /// Pair `j` of the first field that is left, a LIST: the first missing number, and how many follow it.
    pub fn pair(&self, j: usize) -> (u16, u8)
        requires { j < length (pairs_of (slice_index_or self.now 0 NoMoreField)) }
        ensures value { result ≡ slice_index_or (pairs_of (slice_index_or self.now 0 NoMoreField)) j (0, 0) }
        ensures number { result.0 < 4096 }
        ensures more { result.1 < 16 }
    {
        pair_at(self.octets, self.at, j)
    }

    /// Bit `j` of the first field that is left, a BITMAP.
    pub fn bit(&self, j: usize) -> bool
        requires { j < length (bits_of (slice_index_or self.now 0 NoMoreField)) }
        ensures { result ≡ slice_index_or (bits_of (slice_index_or self.now 0 NoMoreField)) j false }
    {
        bit_at(self.octets, self.at, j)
    }

    /// Goes on to the next field.
    pub fn advance(&mut self)
        requires { 0 < length self.old }
        ensures { self.new ≡ drop 1 self.old }
    {
        self.at += size_at(self.octets, self.at);
        self.left -= 1;
    }
}
