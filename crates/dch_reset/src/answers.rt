use dch_rlcpdu::PduError;

/// What an end that can be reset answers to a PDU (TS 25.322 11.3.3, 11.3.4, 11.4.3, 11.4.4).
#[derive(Clone, Copy)]
pub enum Got {
    /// The octets read as no PDU, for this reason. Nothing changed.
    Bad(PduError),
    /// A RESET that is the first or has another RSN than the last one, or a RESET ACK with the RSN of the RESET that
    /// the end has begun. Both sides began anew.
    Restarted,
    /// A RESET with the RSN of the last one. It is answered again, and nothing begins anew.
    Repeated,
    /// Any other RESET ACK, or a data PDU or a status while the end is pending. Nothing changed.
    Ignored,
    /// A data PDU that is kept, or a status inside the windows.
    Taken,
    /// A data PDU that came before, with no status behind its units that is outside.
    Duplicate,
    /// A data PDU or a status with a number outside the window. What else is in the PDU is taken.
    Outside,
}
