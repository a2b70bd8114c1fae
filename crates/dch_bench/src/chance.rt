ghost use Rattle.std.specs.Prelude.{◌≡◌, ◌<◌, ◌^◌, length};

use dch_bits::Bit;

/// Numbers that look like chance, the same ones for the same start.
#[derive(Clone, Copy)]
pub struct Chance {
    state: u32,
}

impl Chance {
    pub fn new(start: u32) -> Self {
        Chance { state: start }
    }

    /// The next number of 16 bits.
    pub fn number(&mut self) -> u32
        ensures { result < 2 ^ 16 }
    {
        self.state = self
            .state
            .wrapping_mul(1_664_525)
            .wrapping_add(1_013_904_223);
        self.state / 65_536
    }

    pub fn bit(&mut self) -> Bit {
        if self.number() < 32_768 {
            Bit::Zero
        } else {
            Bit::One
        }
    }

    /// Writes the next bits.
    pub fn fill(&mut self, bits: &mut [Bit])
        ensures { length bits.new ≡ length bits.old }
    {
        for k in 0..bits.len() {
            bits[k] = self.bit();
        }
    }
}
