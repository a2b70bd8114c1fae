ghost use Rattle.std.specs.Prelude.{◌≡◌};
ghost use Rattle.dch_coding.specs.Segments.{filler_of};

/// How joined bits are cut: into `blocks` code blocks of `size` bits each, with `filler` zeros before the first bit.
#[derive(Clone, Copy)]
pub struct Plan {
    pub bits: usize,
    pub blocks: usize,
    pub size: usize,
    pub filler: usize,
}

impl Plan {
    /// The filler bits of code block `r`: all of them stand in the first (TS 25.212 4.2.2.2).
    pub fn filler_of(&self, r: usize) -> usize
        ensures { result ≡ filler_of self.now r }
    {
        if r == 0 { self.filler } else { 0 }
    }
}
