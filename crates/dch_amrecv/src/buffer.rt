ghost use Rattle.std.specs.Prelude.{◌≡◌, ◌+◌, ◌<◌, ◌≤◌, ◌==◌, [], IfOk, false, length};
ghost use Rattle.dch_am.specs.Status.{runs};
ghost use Rattle.dch_sar.specs.Taking.{handed_of, written};
ghost use Rattle.dch_am.specs.Contents.{body_in};
ghost use Rattle.dch_amrecv.specs.Lines.{handed, nothing, passed, run_on, with_body, with_kept};
ghost use Rattle.dch_amrecv.specs.Places.{front, is_kept, laid, put, vacant};

use crate::reading::{greater_trim, read, read_on, run_on};
use crate::window::RxWindow;
use dch_bits::NoMemory;
use dch_rlcpdu::{Body, Handed};
use dch_sar::Reassembler;
use std::alloc::Global;
use std::marker::Model;

/// The PDUs that are kept from the expected one on, and the units of those before it. Of these, `todo` are still to be
/// read, and stand in front of the window.
#[derive(Drop)]
pub struct RxBuffer {
    todo: usize,
    trim: Option<u8>,
    window: RxWindow,
    units: Reassembler,
}

impl Model for RxBuffer {
    ghost use Rattle.std.specs.Prelude.{◌≡◌, ◌≤◌, [], drop};
    ghost use Rattle.dch_amrecv.specs.Lines.{Reception, line, read_front};
    ghost use Rattle.dch_amrecv.specs.Places.{front};

    ghost Value = { Reception };

    ghost view = { λ l. record { kept = read_front l.todo (line l.window.ring l.trim l.units); pdu = l.window.pdu } };

    ghost invariant = { λ l. (l.todo ≤ front l.window.ring.items) × (l.units.waiting ≡ [] → l.todo ≡ 0) ×
        (front (drop l.todo l.window.ring.items) ≡ 0) };
}

impl RxBuffer {
    /// Room for so many PDUs of `pdu` octets. All memory is taken here.
    pub fn open(alloc: Global, window: usize, pdu: usize) -> Result<RxBuffer, NoMemory>
        ensures { IfOk result (λ l. l ≡ record { kept = nothing window; pdu = pdu }) }
    {
        let window = RxWindow::open(alloc, window, pdu)?;
        let units = Reassembler::open(alloc)?;
        Ok(RxBuffer {
            todo: 0,
            trim: None,
            window,
            units,
        })
    }

    /// No unit waits.
    pub fn settled(&self) -> bool
        ensures { result ≡ (length self.now.kept.units.waiting == 0) }
    {
        self.units.settled()
    }

    /// How many places there are, up to the last PDU that came.
    pub fn len(&self) -> usize
        ensures { result ≡ length self.now.kept.places }
    {
        self.window.len() - self.todo
    }

    /// The PDU of a place has come. No unit waits.
    pub fn has(&self, i: usize) -> bool
        requires { self.now.kept.units.waiting ≡ [] }
        ensures { result ≡ is_kept self.now.kept.places i }
    {
        self.window.has(i)
    }

    /// Takes the PDU of a place that has none, and reads the PDUs before the first gap. Answers how many they are. With
    /// its header the PDU has at most `pdu` octets.
    pub fn keep(&mut self, i: usize, body: &Body<'_>) -> usize
        requires settled { self.old.kept.units.waiting ≡ [] }
        requires place { i < self.old.kept.capacity }
        requires vacant { is_kept self.old.kept.places i ≡ false }
        requires room { length body.now.indicators + length body.now.octets + 2 ≤ self.old.pdu }
        requires small { length body.now.indicators + length body.now.octets ≤ 124 }
        ensures count { result ≡ front (put i (body_in body.now) self.old.kept.places) }
        ensures after { self.new ≡ with_kept (run_on (with_body i (body_in body.now) self.old.kept)) self.old }
    {
        if i > 0 {
            self.window.keep(i, body);
            return 0;
        }
        read(&mut self.units, self.trim, body);
        self.window.leave(self.window.len().min(1));
        let (run, todo, trim) = run_on(&mut self.window, &mut self.units, None);
        self.todo = todo;
        self.trim = trim;
        run + 1
    }

    /// Passes so many places, drops the unit in progress, and reads the PDUs before the first gap, of which the first
    /// has indicators up to a place that end no unit. Answers how many they are.
    pub fn pass(&mut self, count: usize, n: u8) -> usize
        requires settled { self.old.kept.units.waiting ≡ [] }
        ensures count { result ≡ front (passed count n self.old.kept).places }
        ensures after { self.new ≡ with_kept (run_on (passed count n self.old.kept)) self.old }
    {
        let n = greater_trim(self.trim, count, n);
        self.units.abandon();
        self.window.leave(count.min(self.window.len()));
        let (run, todo, trim) = run_on(&mut self.window, &mut self.units, Some(n));
        self.todo = todo;
        self.trim = trim;
        run
    }

    /// Drops all PDUs and all units.
    pub fn clear(&mut self)
        ensures { self.new ≡ with_kept (nothing self.old.kept.capacity) self.old }
    {
        self.todo = 0;
        self.trim = None;
        self.window.clear();
        self.units.clear();
    }

    /// Hands up the first unit that waits, at the front of `out`, which has 1,500 octets.
    pub fn next_unit(&mut self, out: &mut [u8]) -> Option<Handed>
        requires { length out.old ≡ 1500 }
        ensures answer { result ≡ handed_of self.old.kept.units.waiting }
        ensures unit { out.new ≡ written self.old.kept.units.waiting out.old }
        ensures rest { self.new ≡ with_kept (handed self.old.kept) self.old }
    {
        let handed = self.units.next_unit(out);
        let (todo, trim) = read_on(&mut self.window, &mut self.units, self.trim, self.todo);
        self.todo = todo;
        self.trim = trim;
        handed
    }

    /// The missing PDUs as runs of at most 16: the place of the first of each run, and how many follow it. As many are
    /// written as find room. Answers how many runs there are.
    pub fn missing_runs(&self, out: &mut [(u16, u8)]) -> usize
        requires { self.now.kept.capacity ≤ 2048 }
        ensures count { result ≡ length (runs (vacant 0 self.now.kept.places)) }
        ensures runs { out.new ≡ laid (runs (vacant 0 self.now.kept.places)) out.old }
    {
        self.window.missing_runs(self.todo, out)
    }
}
