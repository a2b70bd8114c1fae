use dch_am::{MrwTaken, StatusTaken, Taken};

/// What an entity has built.
#[derive(Clone, Copy)]
pub enum Built {
    /// A status of its receiving side: of PDUs that came and are missing, or of an MRW that was obeyed.
    Status,
    /// The command of its sending side to pass PDUs of discarded units.
    Mrw,
    /// A data PDU.
    Data,
}

/// What an entity answers to a PDU.
#[derive(Clone, Copy)]
pub enum Received {
    /// A data PDU, and the status behind its units: each is judged by itself.
    Data {
        taken: Taken,
        piggyback: Option<StatusTaken>,
    },
    /// A status: what the sending side answers to its numbers, and the receiving side to its MRW.
    Control {
        status: StatusTaken,
        mrw: MrwTaken,
    },
    /// The peer starts anew. Nothing changed.
    Reset {
        rsn: bool,
    },
    /// The peer has started anew. Nothing changed.
    ResetAck {
        rsn: bool,
    },
}
