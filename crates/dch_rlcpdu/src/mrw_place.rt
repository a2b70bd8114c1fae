use std::marker::Model;

/// PDUs of the acknowledged mode are numbered modulo this.
pub const NUMBERS: u16 = 4096;

/// Where a discard ends: the number of a PDU, modulo 4096, and the place of a length indicator in it, below 16.
#[derive(Clone, Copy)]
pub struct MrwPlace {
    pub sn: u16,
    pub n: u8,
}

impl Model for MrwPlace {
    ghost use Rattle.std.specs.Prelude.{ℕ};

    ghost Value = { ℕ × ℕ };

    ghost view = { λ p. (p.sn, p.n) };

    ghost inverse = { λ p. record { sn = p.0; n = p.1 } };
}
