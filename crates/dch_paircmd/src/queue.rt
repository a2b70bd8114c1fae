ghost use Rattle.std.specs.Prelude.{◌≡◌, ◌<◌, ◌≤◌, ◌++◌, [], ◌∷◌, IfOk, MatchOption, drop, length};
ghost use Rattle.dch_paircmd.specs.Queues.{octets_of};

use circular_buffer::HeapCircularBuffer;
use dch_bits::NoMemory;
use std::alloc::Global;
use std::marker::Model;

/// How many PDUs may be in flight to an end.
pub const MOST_PDUS: usize = 1024;

/// The most octets of a PDU in flight.
pub const MOST_OCTETS: usize = 126;

/// A PDU in flight: its octets stand in front, and it has `size` of them, at most 126.
#[derive(Clone, Copy)]
pub struct QueuedPdu {
    pub octets: [u8; MOST_OCTETS],
    pub size: usize,
}

/// The PDUs in flight to an end, at most 1,024. The first one arrives first.
#[derive(Drop)]
pub struct PduQueue {
    pdus: HeapCircularBuffer<QueuedPdu>,
}

impl Model for PduQueue {
    ghost use Rattle.std.specs.Prelude.{List, ℕ};
    ghost use Rattle.dch_paircmd.specs.Queues.{IsQueue, queued};

    ghost Value = { List (List ℕ) };

    ghost view = { λ q. queued q.pdus.items };

    ghost invariant = { λ q. IsQueue q.pdus };
}

impl PduQueue {
    /// No PDU. All memory is taken here.
    pub fn open(alloc: Global) -> Result<PduQueue, NoMemory>
        ensures { IfOk result (λ queue. queue ≡ []) }
    {
        let pdus = HeapCircularBuffer::with_capacity(alloc, MOST_PDUS)?;
        Ok(PduQueue { pdus })
    }

    /// How many PDUs are in flight.
    pub fn len(&self) -> usize
        ensures count { result ≡ length self.now }
        ensures few { result ≤ 1024 }
    {
        self.pdus.len()
    }

    /// One PDU more, of at most 126 octets.
    pub fn push(&mut self, pdu: &[u8])
        requires room { length self.old < 1024 }
        requires size { length pdu.now ≤ 126 }
        ensures { self.new ≡ self.old ++ pdu.now ∷ [] }
    {
        self.pdus.push_back(QueuedPdu::new(pdu));
    }

    /// Takes the first PDU away.
    pub fn pop(&mut self) -> Option<QueuedPdu>
        ensures first { MatchOption result (self.old ≡ []) (λ pdu. (self.old ≡ octets_of pdu ∷ self.new) ×
            (pdu.size ≤ 126)) }
        ensures rest { self.new ≡ drop 1 self.old }
    {
        self.pdus.pop_front()
    }
}

impl QueuedPdu {
    /// A copy of a PDU of at most 126 octets.
    fn new(pdu: &[u8]) -> QueuedPdu
        requires { length pdu.now ≤ 126 }
        ensures octets { octets_of result ≡ pdu.now }
        ensures size { result.size ≤ 126 }
    {
        let mut octets = [0; MOST_OCTETS];
        octets[..pdu.len()].copy_from_slice(pdu);
        QueuedPdu {
            octets,
            size: pdu.len(),
        }
    }

    /// Its octets.
    pub fn octets(&self) -> &[u8]
        requires { self.now.size ≤ 126 }
        ensures { result.now ≡ octets_of self.now }
    {
        &self.octets[..self.size]
    }
}
