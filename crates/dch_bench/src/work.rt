use crate::fault::Fault;
use dch_bits::NoMemory;
use std::rt::Clock;
use std::time::{Duration, Instant};
use std::{fmt, io};

/// What is counted of a piece of work.
#[derive(Clone, Copy)]
pub enum Unit {
    /// Code blocks, of 504 bits.
    Blocks,
    /// Words of a TFCI.
    Words,
    /// Bits that go in.
    Bits,
    /// PDUs of the acknowledged mode.
    Pdus,
    /// Radio frames, of 10 ms.
    Frames,
    /// Cells of radio frames.
    Cells,
}

impl fmt::Display for Unit {
    fn fmt<W: fmt::Write>(&self, f: &mut fmt::Formatter<W>) -> fmt::Result {
        match self {
            Unit::Blocks => f.write_str("blocks"),
            Unit::Words => f.write_str("words"),
            Unit::Bits => f.write_str("bits"),
            Unit::Pdus => f.write_str("pdus"),
            Unit::Frames => f.write_str("frames"),
            Unit::Cells => f.write_str("cells"),
        }
    }
}

/// A piece of work that can be done again and again.
pub trait Work {
    /// What is counted of it.
    fn unit(&self) -> Unit;

    /// How much of that is done at once.
    fn amount(&self) -> u64;

    /// Does it once.
    fn run(&mut self);

    /// A checksum over what was made.
    fn sum(&self) -> u32;
}

/// What the program does.
#[derive(Clone, Copy)]
pub enum Mode {
    /// Each piece of work once, and what came out.
    Once,
    /// Each piece of work for some time, and how fast it is.
    Measure,
}

/// How much is done in a second.
#[derive(Clone, Copy)]
pub struct Speed {
    unit: Unit,
    in_a_second: u64,
}

impl Speed {
    pub fn new(unit: Unit, amount: u64, nanos: u64) -> Self {
        Speed {
            unit,
            in_a_second: amount.saturating_mul(1_000_000_000) / nanos.max(1),
        }
    }

    /// The higher one of two speeds.
    fn or_higher(self, other: Speed) -> Speed {
        if other.in_a_second > self.in_a_second {
            other
        } else {
            self
        }
    }
}

impl fmt::Display for Speed {
    fn fmt<W: fmt::Write>(&self, f: &mut fmt::Formatter<W>) -> fmt::Result {
        let unit = self.unit;
        match unit {
            Unit::Bits => {
                let tenths = self.in_a_second / 100_000;
                write!(f, "{}.{} Mbit/s", tenths / 10, tenths % 10)
            }
            _ => write!(f, "{} {unit}/s", self.in_a_second),
        }
    }
}

/// How long a piece of work is repeated, in nanoseconds.
const LONG: u64 = 300_000_000;

/// The most times that a piece of work is repeated.
const MOST: u64 = 1 << 32;

/// Does a piece of work that was opened, and prints a line about it.
pub fn report<R: Print + Clock, W: Work + Drop>(
    rt: &R,
    mode: Mode,
    name: &str,
    opened: Result<W, NoMemory>,
) -> Result<(), Fault> {
    let mut work = opened?;
    work.run();
    match mode {
        Mode::Once => {
            let unit = work.unit();
            let amount = work.amount();
            let sum = work.sum();
            println!(rt; "{name} {unit}={amount} sum={sum:08x}")?;
        }
        Mode::Measure => {
            let speed = highest(rt, &mut work)?;
            println!(rt; "{name} {speed}")?;
        }
    }
    Ok(())
}

/// The highest speed of three measurements.
fn highest<C: Clock, W: Work>(clock: &C, work: &mut W) -> io::Result<Speed> {
    let first = measure(clock, work)?;
    let second = measure(clock, work)?;
    let third = measure(clock, work)?;
    Ok(first.or_higher(second).or_higher(third))
}

/// Repeats a piece of work until the time is up.
fn measure<C: Clock, W: Work>(clock: &C, work: &mut W) -> io::Result<Speed> {
    let start = Instant::now(clock)?;
    let mut amount = 0u64;
    let mut nanos = 0u64;
    for _ in 0..MOST {
        work.run();
        amount = amount.saturating_add(work.amount());
        nanos = nanos_of(start.elapsed(clock)?);
        if nanos >= LONG {
            break;
        }
    }
    Ok(Speed::new(work.unit(), amount, nanos))
}

/// A time in nanoseconds.
pub fn nanos_of(time: Duration) -> u64 {
    time.as_nanos().min(u128::from(u64::MAX)) as u64
}
