use dch_types::AmRules;

/// Two ends of an acknowledged bearer: the octets of the PDUs that the first end and the second end build, each 6 to
/// 126, and for both the blocks of 64 octets that units may hold and the rules.
#[derive(Clone, Copy)]
pub struct PairSetup {
    pub first_pdu: usize,
    pub second_pdu: usize,
    pub buffer: u16,
    pub rules: AmRules,
}

/// An end of a bearer.
#[derive(Clone, Copy)]
pub enum End {
    First,
    Second,
}

/// What is done at an end.
#[derive(Clone, Copy)]
pub enum PairEvent {
    /// A unit is offered: so many octets from this place on.
    Offer { end: End, from: usize, len: usize },
    /// What is due is built: a status, else an MRW, else a data PDU. It arrives at the other end at once, or is lost.
    Build { end: End, arrives: bool },
    /// A tick of 10 ms.
    Tick { end: End },
}
