ghost use Rattle.std.specs.Prelude.{◌≡◌, ◌<◌, ◌%◌, min};
ghost use Rattle.dch_frame.specs.Sizes.{IsCodeLength, IsFrameSize};

use crate::interleaver::Interleaver;
use dch_bits::NoMemory;
use std::alloc::Global;

/// The most cells of a code.
const LONGEST: usize = 9600;

/// The second interleaver for each length that an uplink code can have.
#[derive(Drop)]
pub struct UplinkInterleavers {
    of_150: Interleaver,
    of_300: Interleaver,
    of_600: Interleaver,
    of_1200: Interleaver,
    of_2400: Interleaver,
    of_4800: Interleaver,
    of_9600: Interleaver,
    ghost len_150: { of_150 ≡ 150 },
    ghost len_300: { of_300 ≡ 300 },
    ghost len_600: { of_600 ≡ 600 },
    ghost len_1200: { of_1200 ≡ 1200 },
    ghost len_2400: { of_2400 ≡ 2400 },
    ghost len_4800: { of_4800 ≡ 4800 },
    ghost len_9600: { of_9600 ≡ 9600 },
}

impl UplinkInterleavers {
    /// Takes the memory for all of them.
    pub fn open(alloc: Global) -> Result<UplinkInterleavers, NoMemory> {
        Ok(UplinkInterleavers {
            of_150: Interleaver::open(alloc, 150)?,
            of_300: Interleaver::open(alloc, 300)?,
            of_600: Interleaver::open(alloc, 600)?,
            of_1200: Interleaver::open(alloc, 1200)?,
            of_2400: Interleaver::open(alloc, 2400)?,
            of_4800: Interleaver::open(alloc, 4800)?,
            of_9600: Interleaver::open(alloc, LONGEST)?,
        })
    }

    /// The interleaver for codes of so many cells.
    fn of(&self, cells: usize) -> &Interleaver
        requires { IsCodeLength cells }
        ensures { result.now ≡ cells }
    {
        match cells {
            150 => &self.of_150,
            300 => &self.of_300,
            600 => &self.of_600,
            1200 => &self.of_1200,
            2400 => &self.of_2400,
            4800 => &self.of_4800,
            _ => &self.of_9600,
        }
    }

    /// The interleaver for radio frames of so many cells.
    pub fn of_frame(&self, cells: usize) -> &Interleaver
        requires { IsFrameSize cells }
        ensures some { 0 < result.now }
        ensures codes { cells % result.now ≡ 0 }
        ensures value { 0 < cells → result.now ≡ min cells 9600 }
    {
        if cells > 0 {
            self.of(cells.min(LONGEST))
        } else {
            &self.of_9600
        }
    }
}
