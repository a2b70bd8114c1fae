ghost use Rattle.std.specs.Prelude.{◌≡◌, ◌⊎◌, ◌+◌, ◌-◌, ◌<◌, ◌≤◌, ◌↔◌, ◌^◌, [], min, max, length, take, drop, Some, IfOk, IsErr, OnErr, Contains};
ghost use Rattle.std.specs.Io.{ReadsAtMost, WritesAtMost};
ghost use Rattle.std.specs.Io.KnownBytes.{ReadConsumes, WriteAppends};
ghost use Rattle.dch_io.specs.Causes.{HasCause, TakesSome, faults_after};

use crate::{Failed, Sink, Source};
use std::marker::Model;

/// A source over bytes in memory, for tests. A call gives at most `step` bytes (at least 1), and fails exactly where
/// its number, counted from 0, stands in `failing`.
#[derive(Drop)]
pub struct MemorySource {
    bytes: Vec<u8>,
    at: usize,
    step: usize,
    failing: Vec<u64>,
    calls: u64,
    faults: u64,
}

impl Model for MemorySource {
    ghost use Rattle.std.specs.Prelude.{◌≤◌, drop, length};
    ghost use Rattle.dch_io.specs.MemoryInput.{MemoryInput};

    ghost Value = { MemoryInput };

    ghost view = { λ s. record {
      left = drop s.at s.bytes.items;
      step = s.step;
      failing = s.failing.items;
      calls = s.calls;
      faults = s.faults;
    } };

    ghost invariant = { λ s. s.at ≤ length s.bytes.items };
}

impl MemorySource {
    /// A source of these octets, which gives at most `step` of them a call, and whose calls with these numbers, from 0
    /// on, fail.
    pub fn new(bytes: Vec<u8>, step: usize, failing: Vec<u64>) -> Self
        ensures { result ≡ record { left = bytes.items; step = step; failing = failing.items; calls = 0; faults = 0 } }
    {
        MemorySource {
            bytes,
            at: 0,
            step,
            failing,
            calls: 0,
            faults: 0,
        }
    }
}

// Copies the front of `rest` to the front of `into`: at most so many bytes, and as many as both have.
fn give(rest: &[u8], into: &mut [u8], most: usize) -> usize
    ensures count { result ≡ min most (min (length into.old) (length rest.now)) }
    ensures front { take result into.new ≡ take result rest.now }
{
    let count = most.min(into.len().min(rest.len()));
    into[..count].copy_from_slice(&rest[..count]);
    count
}

impl Source for MemorySource {
    ghost left = { λ s. Some s.left };

    ghost faults = { λ s. s.faults };

    fn read(&mut self, into: &mut [u8]) -> Result<usize, Failed>
        ensures bound { ReadsAtMost result into.new }
        ensures bytes { ReadConsumes (Some self.old.left) (Some self.new.left) result into.new }
        ensures cause { HasCause self.old.faults self.new.faults result }
        ensures fails { IsErr result ↔ Contains self.old.failing self.old.calls }
        ensures count { IfOk result (λ n. n ≡ min (max self.old.step 1)
            (min (length into.old) (length self.old.left))) }
        ensures rest { self.new ≡ record self.old {
          left = self.new.left;
          calls = min (self.old.calls + 1) (2 ^ 64 - 1);
          faults = faults_after self.old.faults result;
        } }
    {
        let fails = self.failing.contains(&self.calls);
        self.calls = self.calls.saturating_add(1);
        if fails {
            self.faults = self.faults.saturating_add(1);
            return Err(Failed);
        }
        let count = give(&self.bytes[self.at..], into, self.step.max(1));
        self.at += count;
        Ok(count)
    }
}

/// A sink that writes over a room in memory, for tests. A call takes at most `step` bytes (at least 1), and fails
/// exactly where its number, counted from 0, stands in `failing`, or where no room is left for a piece that isn't
/// empty.
#[derive(Drop)]
pub struct MemorySink {
    room: Vec<u8>,
    at: usize,
    step: usize,
    failing: Vec<u64>,
    calls: u64,
    faults: u64,
}

impl Model for MemorySink {
    ghost use Rattle.std.specs.Prelude.{◌≤◌, ◌-◌, take, length};
    ghost use Rattle.dch_io.specs.MemoryOutput.{MemoryOutput};

    ghost Value = { MemoryOutput };

    ghost view = { λ s. record {
      taken = take s.at s.room.items;
      room = length s.room.items - s.at;
      step = s.step;
      failing = s.failing.items;
      calls = s.calls;
      faults = s.faults;
    } };

    ghost invariant = { λ s. s.at ≤ length s.room.items };
}

impl MemorySink {
    /// A sink with room for as many octets as `room` has, which takes at most `step` of them a call, and whose calls
    /// with these numbers, from 0 on, fail.
    pub fn new(room: Vec<u8>, step: usize, failing: Vec<u64>) -> Self
        ensures { result ≡ record {
          taken = [];
          room = length room.items;
          step = step;
          failing = failing.items;
          calls = 0;
          faults = 0;
        } }
    {
        MemorySink {
            room,
            at: 0,
            step,
            failing,
            calls: 0,
            faults: 0,
        }
    }

    /// The bytes taken so far.
    pub fn bytes(&self) -> &[u8]
        ensures { result.now ≡ self.now.taken }
    {
        &self.room[..self.at]
    }
}

impl Sink for MemorySink {
    ghost taken = { λ s. Some s.taken };

    ghost faults = { λ s. s.faults };

    fn write(&mut self, piece: &[u8]) -> Result<usize, Failed>
        ensures bound { WritesAtMost result piece.now }
        ensures some { TakesSome result piece.now }
        ensures bytes { WriteAppends (Some self.old.taken) (Some self.new.taken) result piece.now }
        ensures cause { HasCause self.old.faults self.new.faults result }
        ensures fails { IsErr result ↔ (Contains self.old.failing self.old.calls ⊎
            ((0 < length piece.now) × (self.old.room ≡ 0))) }
        ensures count { IfOk result (λ n. n ≡ min (max self.old.step 1) (min (length piece.now) self.old.room)) }
        ensures room { length self.new.taken + self.new.room ≡ length self.old.taken + self.old.room }
        ensures rest { self.new ≡ record self.old {
          taken = self.new.taken;
          room = self.new.room;
          calls = min (self.old.calls + 1) (2 ^ 64 - 1);
          faults = faults_after self.old.faults result;
        } }
    {
        let room = self.room.len() - self.at;
        let fails = self.failing.contains(&self.calls) || (!piece.is_empty() && room == 0);
        self.calls = self.calls.saturating_add(1);
        if fails {
            self.faults = self.faults.saturating_add(1);
            return Err(Failed);
        }
        let count = self.step.max(1).min(piece.len().min(room));
        let end = self.at + count;
        self.room[self.at..end].copy_from_slice(&piece[..count]);
        self.at = end;
        Ok(count)
    }
}
