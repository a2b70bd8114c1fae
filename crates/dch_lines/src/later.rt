ghost use Rattle.std.specs.Prelude.{◌≡◌};

use dch_accept::Accepted;

/// A second configuration that is still to come.
pub struct Later {
    /// The radio frame from which it is active, counted from 0.
    pub frame: u32,
    pub accepted: Accepted,
}

// By hand, so that whoever holds one drops it by one call.
impl Drop for Later {
    fn drop(self) {
        let Later {
            frame: _frame,
            accepted: _accepted,
        } = self;
    }
}

impl Later {
    /// The configuration, from now on.
    pub fn into_accepted(self) -> Accepted
        ensures { result ≡ self.accepted }
    {
        let Later {
            frame: _frame,
            accepted,
        } = self;
        accepted
    }
}
