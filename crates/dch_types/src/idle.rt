ghost use Rattle.std.specs.Prelude.{◌≡◌, position};
ghost use Rattle.dch_types.specs.Limits.{is_idle, idle_format};

use crate::channel::{Format, Trch};

impl Format {
    /// Whether no bit is sent in the format.
    pub fn is_idle(&self) -> bool
        ensures { result ≡ is_idle self.now }
    {
        u32::from(self.number) * u32::from(self.size) == 0
    }
}

impl Trch {
    /// The number of the first format in which no bit is sent, if there is one.
    pub fn first_idle(&self) -> Option<usize>
        ensures { result ≡ position is_idle self.now.formats }
    {
        self.formats
            .as_slice()
            .iter()
            .position(|format| format.is_idle())
    }

    /// The number of the idle format: of the first one in which no bit is sent, or 0 where there is none.
    pub fn idle_format(&self) -> usize
        ensures { result ≡ idle_format self.now }
    {
        self.first_idle().unwrap_or(0)
    }
}
