ghost use Rattle.std.specs.Prelude.{◌≡◌, ◌+◌, ◌<◌, ◌≤◌, ◌==◌, [], IfOk, drop, length};
ghost use Rattle.dch_rlcpdu.specs.Parts.{ends_of, parts_of};
ghost use Rattle.dch_sar.specs.Taking.{added, after_unit, dropped, ended, handed_of, held, no_units, took_full, took_parts, written};

use circular_buffer::HeapCircularBuffer;
use dch_bits::NoMemory;
use dch_rlcpdu::{Body, Handed};
use std::alloc::Global;
use std::marker::Model;

/// The most octets of an SDU.
pub const LONGEST_SDU: usize = 1500;

/// Room for a unit that is just too long, and for the octets of a PDU.
const OCTETS: usize = LONGEST_SDU + 1 + 124;

/// Room for the units that a PDU ends.
const UNITS: usize = 128;

/// Units of which all octets so far have come in order. The octets of those that ended and wait, and of the one in
/// progress behind them, stand in one ring and the sizes of those that wait in another. Both are taken when it is
/// opened.
#[derive(Drop)]
pub struct Reassembler {
    part: usize,
    sizes: HeapCircularBuffer<u16>,
    octets: HeapCircularBuffer<u8>,
}

impl Model for Reassembler {
    ghost use Rattle.std.specs.Prelude.{◌≡◌};
    ghost use Rattle.dch_sar.specs.Taking.{Waiting};
    ghost use Rattle.dch_sar.specs.Stored.{IsStored, stored};

    ghost Value = { Waiting };

    ghost view = { λ u. stored u.sizes.items u.octets.items };

    ghost invariant = { λ u. IsStored u.sizes.items u.octets.items u.part × (u.octets.capacity ≡ 1625) ×
        (u.sizes.capacity ≡ 128) };
}

impl Reassembler {
    /// Room for a unit in progress and the units that a PDU ends.
    pub fn open(alloc: Global) -> Result<Reassembler, NoMemory>
        ensures { IfOk result (λ units. units ≡ no_units) }
    {
        let octets = HeapCircularBuffer::with_capacity(alloc, OCTETS)?;
        let sizes = HeapCircularBuffer::with_capacity(alloc, UNITS)?;
        Ok(Reassembler {
            part: 0,
            sizes,
            octets,
        })
    }

    /// No unit that ended waits.
    pub fn settled(&self) -> bool
        ensures { result ≡ (length self.now.waiting == 0) }
    {
        self.sizes.is_empty()
    }

    /// Reads the next PDU, which has at most 124 indicators and octets. Where `full`, the unit in progress has ended
    /// with the PDU before. The octets up to so many ends are left out.
    pub fn take(&mut self, full: bool, dead: usize, body: &Body<'_>)
        requires settled { self.old.waiting ≡ [] }
        requires dead { dead ≤ length (ends_of body.now.indicators) }
        requires small { length body.now.indicators + length body.now.octets ≤ 124 }
        ensures { self.new ≡ took_parts (drop dead (parts_of body.now)) (took_full full self.old) }
    {
        let _ = &self.part;
        if full {
            self.end();
        }
        self.take_parts(dead, body);
    }

    /// Drops the unit in progress.
    pub fn abandon(&mut self)
        ensures { self.new ≡ dropped self.old }
    {
        let kept = self.octets.len() - self.part;
        self.octets.truncate_back(kept);
        self.part = 0;
    }

    /// Drops all units.
    pub fn clear(&mut self)
        ensures { self.new ≡ no_units }
    {
        self.sizes.clear();
        self.octets.clear();
        self.part = 0;
    }

    /// Hands up the first unit that waits, at the front of `out`, which has 1,500 octets.
    pub fn next_unit(&mut self, out: &mut [u8]) -> Option<Handed>
        requires { length out.old ≡ 1500 }
        ensures answer { result ≡ handed_of self.old.waiting }
        ensures unit { out.new ≡ written self.old.waiting out.old }
        ensures rest { self.new ≡ after_unit self.old }
    {
        let size = self.sizes.pop_front()? as usize;
        if size > LONGEST_SDU {
            let kept = self.octets.len() - size;
            self.octets.truncate_front(kept);
            return Some(Handed::Overlong);
        }
        let _ = self.octets.read_into(&mut out[..size]);
        Some(Handed::Whole(size))
    }

    /// Reads the pieces behind so many ends, each of which ends a unit, and the rest.
    fn take_parts(&mut self, dead: usize, body: &Body<'_>)
        requires dead { dead ≤ length (ends_of body.now.indicators) }
        requires octets { held self.old + length body.now.octets ≤ 1625 }
        requires units { length self.old.waiting + length body.now.indicators < 128 }
        ensures { self.new ≡ took_parts (drop dead (parts_of body.now)) self.old }
    {
        let ends = body.ends();
        for i in dead..ends {
            self.add(body.piece(i));
            self.end();
        }
        self.add(body.piece(ends));
    }

    /// Adds octets to the unit in progress.
    fn add(&mut self, octets: &[u8])
        requires { held self.old + length octets.now ≤ 1625 }
        ensures { self.new ≡ added octets.now self.old }
    {
        let count = octets.len().min(LONGEST_SDU + 1 - self.part);
        let _ = self.octets.fill_from_slice(&octets[..count]);
        self.part += count;
    }

    /// The unit in progress ends, and waits if it has octets.
    fn end(&mut self)
        requires { length self.old.waiting < 128 }
        ensures { self.new ≡ ended self.old }
    {
        if self.part > 0 {
            let _ = self.sizes.push_back(self.part as u16);
            self.part = 0;
        }
    }
}
