ghost use Rattle.std.specs.Prelude.{◌≡◌, ◌<◌, ◌≤◌, ◌+◌, ◌-◌, ◌*◌, ◌/◌, ◌^◌, length, slice_index};
ghost use Rattle.dch_frame.specs.Patterns.{IsWellFormed, InRange, copies, copies_below, kept_list, changes};

/// The three numbers of the error counter. It starts at `e_ini`, each bit takes `e_minus` off, and where it is then 0
/// or below a bit is removed or repeated and `e_plus` is added (TS 25.212 4.2.7.5).
#[derive(Clone, Copy)]
pub struct Steps {
    pub e_ini: u64,
    pub e_plus: u64,
    pub e_minus: u64,
}

/// What is done with a stream of bits: it is left as it is, or bits of it are repeated or removed.
#[derive(Clone, Copy)]
pub enum Kind {
    Same,
    Repeat(Steps),
    Puncture(Steps),
}

/// The rate matching of a stream of `len` bits.
#[derive(Clone, Copy)]
pub struct Pattern {
    pub len: u32,
    pub kind: Kind,
}

impl Steps {
    /// How many bits were removed, or copies added, over the first `m` bits.
    fn changes(&self, m: u32) -> u64
        requires steps { InRange self.now }
        requires short { m ≤ 131072 }
        ensures { result ≡ changes self.now m }
    {
        (m as u64 * self.e_minus + self.e_plus - self.e_ini) / self.e_plus
    }
}

/// The number of copies of bit `m`, counted from 0, that rate matching leaves (TS 25.212 4.2.7.5).
pub fn keeps(pattern: &Pattern, m: u32) -> u32
    requires formed { IsWellFormed pattern.now }
    requires inside { m < pattern.now.len }
    ensures { result ≡ copies pattern.now.kind m }
{
    match &pattern.kind {
        Kind::Same => 1,
        Kind::Repeat(steps) => (1 + (steps.changes(m + 1) - steps.changes(m))) as u32,
        Kind::Puncture(steps) => (1 - (steps.changes(m + 1) - steps.changes(m))) as u32,
    }
}

/// The number of bits after rate matching: the copies of all bits together.
pub fn kept(pattern: &Pattern) -> u32
    requires { IsWellFormed pattern.now }
    ensures sum { result ≡ copies_below pattern.now.kind pattern.now.len }
    ensures all { result ≡ length (kept_list pattern.now.kind pattern.now.len) }
{
    match &pattern.kind {
        Kind::Same => pattern.len,
        Kind::Repeat(steps) => (pattern.len as u64 + steps.changes(pattern.len)) as u32,
        Kind::Puncture(steps) => (pattern.len as u64 - steps.changes(pattern.len)) as u32,
    }
}

/// The bit that is shown at place `k` after rate matching. Bits and places count from 0.
pub fn origin(pattern: &Pattern, k: u32) -> u32
    requires formed { IsWellFormed pattern.now }
    requires inside { k < copies_below pattern.now.kind pattern.now.len }
    ensures shown { slice_index (kept_list pattern.now.kind pattern.now.len) k ≡ result }
    ensures inside { result < pattern.now.len }
{
    match &pattern.kind {
        Kind::Same => k,
        Kind::Repeat(steps) => ((k as u64 * steps.e_plus + (steps.e_ini - 1))
            / (steps.e_plus + steps.e_minus)) as u32,
        Kind::Puncture(steps) => {
            ((k as u64 * steps.e_plus + (steps.e_plus - steps.e_ini))
                / (steps.e_plus - steps.e_minus)) as u32
        }
    }
}
