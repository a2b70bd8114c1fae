ghost use Rattle.dch_bench.specs.Trips.{IsTripOf};

use crate::downlink::DownlinkEnds;
use crate::ends::Ends;
use crate::fault::Fault;
use crate::round_trip::RoundTrip;
use crate::uplink::UplinkEnds;
use crate::work::{Mode, Speed, Unit, nanos_of};
use dch_accept::Accepted;
use dch_bits::NoMemory;
use dch_gen::accept_gen;
use dch_types::Dir;
use std::alloc::Global;
use std::io;
use std::rt::Clock;
use std::time::{Duration, Instant};

/// The combination of the configuration of `gen` in which each channel sends the most.
const GREATEST: u16 = 35;

/// How many radio frames are sent once, and how many to measure: as many as whole TTIs have.
const FEW: u32 = 8;

const MANY: u32 = 400;

/// Of how many cells one is inverted in the frames that are sent once.
const DAMAGED: usize = 37;

/// Prints lines about the radio frames of both directions, in the configuration of `gen`.
pub fn run_frames<R: Print + Clock>(rt: &R, alloc: Global, mode: Mode) -> Result<(), Fault> {
    match accept_gen(alloc) {
        Ok(accepted) => {
            let done = run_directions(rt, alloc, mode, &accepted);
            drop(accepted);
            done
        }
        Err(NoMemory) => Err(Fault::NoMemory),
    }
}

fn run_directions<R: Print + Clock>(
    rt: &R,
    alloc: Global,
    mode: Mode,
    accepted: &Accepted,
) -> Result<(), Fault> {
    run_downlink(rt, alloc, mode, accepted)?;
    run_uplink(rt, alloc, mode, accepted)
}

fn run_downlink<R: Print + Clock>(
    rt: &R,
    alloc: Global,
    mode: Mode,
    accepted: &Accepted,
) -> Result<(), Fault> {
    let ends = DownlinkEnds::open(alloc, accepted)?;
    run_direction(rt, alloc, mode, accepted, ends)
}

fn run_uplink<R: Print + Clock>(
    rt: &R,
    alloc: Global,
    mode: Mode,
    accepted: &Accepted,
) -> Result<(), Fault> {
    let ends = UplinkEnds::open(alloc, accepted)?;
    run_direction(rt, alloc, mode, accepted, ends)
}

/// Sends radio frames of a direction, and prints how many came, or how fast they are sent and read.
fn run_direction<R: Print + Clock, E: Ends + Drop>(
    rt: &R,
    alloc: Global,
    mode: Mode,
    accepted: &Accepted,
    ends: E,
) -> Result<(), Fault>
    requires { E.opened accepted.now ends }
{
    let name = match E::dir() {
        Dir::Down => "frames down",
        Dir::Up => "frames up",
    };
    match RoundTrip::open(alloc, accepted, ends) {
        Ok(mut trip) => {
            let done = report_trip(rt, mode, accepted, &mut trip, name);
            drop(trip);
            done
        }
        Err(NoMemory) => Err(Fault::NoMemory),
    }
}

fn report_trip<R: Print + Clock, E: Ends + Drop>(
    rt: &R,
    mode: Mode,
    accepted: &Accepted,
    trip: &mut RoundTrip<E>,
    name: &str,
) -> Result<(), Fault>
    requires { IsTripOf E.dir E.opened E.loaded accepted.now trip.old }
{
    let once = pass(rt, accepted, trip, FEW, DAMAGED)?;
    match mode {
        Mode::Once => once.report(rt, name)?,
        Mode::Measure => pass(rt, accepted, trip, MANY, 0)?.report_speeds(rt, name)?,
    }
    Ok(())
}

/// Sends so many radio frames from one end to the other, with one cell in so many inverted (none for 0), and reads each
/// TTI that ends.
fn pass<C: Clock, E: Ends + Drop>(
    clock: &C,
    accepted: &Accepted,
    trip: &mut RoundTrip<E>,
    frames: u32,
    every: usize,
) -> io::Result<Passed>
    requires { IsTripOf E.dir E.opened E.loaded accepted.now trip.old }
    ensures { IsTripOf E.dir E.opened E.loaded accepted.now trip.new }
{
    let mut passed = Passed::new();
    for n in 0..frames {
        let cfn = (n % 256) as u8;
        let start = Instant::now(clock)?;
        let sent = trip.send(accepted, cfn, GREATEST);
        let between = Instant::now(clock)?;
        trip.arrive(accepted, cfn, every);
        let is_back = trip.is_back(accepted, cfn);
        let end = Instant::now(clock)?;
        if let Some(cells) = sent
            && is_back
        {
            let sending = between.duration_since(start);
            passed.add(cells, sending, end.duration_since(between));
        }
    }
    Ok(passed)
}

/// The radio frames with which each TTI that ended was read as it was sent: how many there are and how many cells they
/// have, and how long they took to send and to read, in nanoseconds.
#[derive(Clone, Copy)]
struct Passed {
    frames: u64,
    cells: u64,
    sending: u64,
    reading: u64,
}

impl Passed {
    fn new() -> Self {
        Passed {
            frames: 0,
            cells: 0,
            sending: 0,
            reading: 0,
        }
    }

    fn add(&mut self, cells: usize, sending: Duration, reading: Duration) {
        self.frames = self.frames.saturating_add(1);
        self.cells = self.cells.saturating_add(cells as u64);
        self.sending = self.sending.saturating_add(nanos_of(sending));
        self.reading = self.reading.saturating_add(nanos_of(reading));
    }

    fn report<R: Print>(&self, rt: &R, name: &str) -> io::Result<()> {
        let frames = self.frames;
        let cells = self.cells;
        println!(rt; "{name} frames={frames} cells={cells}")
    }

    fn report_speeds<R: Print>(&self, rt: &R, name: &str) -> io::Result<()> {
        self.report_speed(rt, name, "send", self.sending)?;
        self.report_speed(rt, name, "read", self.reading)
    }

    fn report_speed<R: Print>(&self, rt: &R, name: &str, part: &str, nanos: u64) -> io::Result<()> {
        let frames = Speed::new(Unit::Frames, self.frames, nanos);
        let cells = Speed::new(Unit::Cells, self.cells, nanos);
        println!(rt; "{name} {part} {frames} {cells}")
    }
}
