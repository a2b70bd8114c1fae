ghost use Rattle.std.specs.Prelude.{◌≡◌, ◌==◌, ◌-◌, Some};
ghost use Rattle.dch_reset.specs.Ends.{is_asked, is_heard, rsn_of};
ghost use Rattle.dch_reset.specs.Standing.{pending_of};

/// How many ticks of 10 ms pass before a RESET is sent again.
pub const REPEAT: u8 = 30;

/// A reset that an end has begun and that isn't answered yet (TS 25.322 11.4.2).
#[derive(Clone, Copy)]
pub struct Pending {
    pub rsn: bool,
    /// Ticks until the RESET is due, 0 where it is due.
    pub rst_timer: u8,
}

/// The last RESET that came has this RSN.
pub fn is_heard(heard: Option<bool>, rsn: bool) -> bool
    ensures { result ≡ is_heard heard rsn }
{
    match heard {
        Some(last) => last == rsn,
        None => false,
    }
}

/// An end is pending with this RSN.
pub fn is_asked(pending: Option<Pending>, rsn: bool) -> bool
    ensures { result ≡ is_asked (pending_of pending) rsn }
{
    match pending {
        Some(p) => p.rsn == rsn,
        None => false,
    }
}
