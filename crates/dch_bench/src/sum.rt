use dch_bits::{Bit, number};

/// A checksum over what a piece of work made (FNV-1a of 32 bits).
#[derive(Clone, Copy)]
pub struct Sum {
    value: u32,
}

impl Sum {
    pub fn new() -> Self {
        Sum { value: 0x811c_9dc5 }
    }

    pub fn value(&self) -> u32 {
        self.value
    }

    pub fn octet(&mut self, octet: u8) {
        self.value = (self.value ^ u32::from(octet)).wrapping_mul(0x0100_0193);
    }

    pub fn octets(&mut self, octets: &[u8]) {
        for octet in octets {
            self.octet(*octet);
        }
    }

    /// Adds a number, the lowest octet first.
    pub fn number(&mut self, number: u32) {
        self.octets(&number.to_le_bytes());
    }

    pub fn bits(&mut self, bits: &[Bit]) {
        for bit in bits {
            self.octet(number(*bit));
        }
    }
}
