use dch_pair::End;

/// What is done at an end that can be reset.
#[derive(Clone, Copy)]
pub enum ResetEvent {
    /// A unit is offered: so many octets from this place on.
    Offer { end: End, from: usize, len: usize },
    /// What is due is built, and is in flight behind all that was built before. Where nothing is due nothing is done.
    Build { end: End },
    /// The first block in flight to this end arrives, and the units that it ends are handed up. Where none is in flight
    /// nothing is done.
    Arrive { to: End },
    /// The first block in flight to this end is lost. Where none is in flight nothing is done.
    Lose { to: End },
    /// A tick of 10 ms.
    Tick { end: End },
    /// A reset begins, unless one that the end has begun isn't answered yet.
    Reset { end: End },
}
