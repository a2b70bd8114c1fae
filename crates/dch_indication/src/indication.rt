use dch_bits::{Bit, Trit};
use dch_types::Dir;

/// What a node tells its user. A direction is that in which the data travels. A bearer is its place in the
/// configuration, 0 to 15; a channel is a transport channel of its direction, 0 to 7; a set is a set of coordinated
/// channels of an Iub frame, 0 to 7. Octets are whole bytes, and bits stand one to an element.
#[derive(Clone, Copy)]
pub enum Indication<'a> {
    /// An SDU that was offered was accepted (TS 25.322 8.1).
    Took {
        dir: Dir,
        bearer: u8,
    },
    /// An SDU was not accepted, since the buffer has no room for it.
    Full {
        dir: Dir,
        bearer: u8,
    },
    /// An SDU was not accepted: no format has its bits (transparent mode), or it has no octet or more than 1,500.
    Wrong {
        dir: Dir,
        bearer: u8,
    },
    /// A transport block of a TTI came with a CRC error, and isn't taken. Blocks count from 0.
    Bad {
        dir: Dir,
        channel: u8,
        block: u8,
    },
    /// The C/T field of a transport block is 15, which is reserved (TS 25.321 9.2.1).
    Reserved {
        dir: Dir,
        channel: u8,
    },
    /// No bearer of the channel has the logical channel of this C/T field, 0 to 14 (TS 25.321 9.2.1).
    NoBearer {
        dir: Dir,
        channel: u8,
        ct: u8,
    },
    /// A transport block came on a channel that has no bearer.
    Nobody {
        dir: Dir,
        channel: u8,
    },
    /// A PDU is refused: too short (1), a reserved value (2), a length indicator (3) or a status field (4) that is no
    /// good (TS 25.322 9.2).
    PduBad {
        dir: Dir,
        bearer: u8,
        number: u8,
    },
    /// A PDU, or a number in a status, is outside the window (TS 25.322 11.3).
    Outside {
        dir: Dir,
        bearer: u8,
    },
    /// An SDU of more than 1,500 octets ended, and is dropped.
    Overlong {
        dir: Dir,
        bearer: u8,
    },
    /// An SDU of 1 to 1,500 octets is delivered (RLC-AM-DATA-IND and RLC-UM-DATA-IND of TS 25.322 8.1).
    Got {
        dir: Dir,
        bearer: u8,
        octets: &'a [u8],
    },
    /// An SDU of a transparent bearer is delivered (RLC-TM-DATA-IND of TS 25.322 8.1), at most 5,000 bits.
    GotBits {
        dir: Dir,
        bearer: u8,
        bits: &'a [Bit],
    },
    /// An Iub data frame of a set is sent (TS 25.427 6.2), in octets.
    Iub {
        dir: Dir,
        set: u8,
        frame: &'a [u8],
    },
    /// An Iub frame is refused by the cause with this number, 1 to 6 (TS 25.427 6.2).
    IubBad {
        dir: Dir,
        set: u8,
        number: u8,
    },
    /// A radio frame of 10 ms is sent: its TFCI bits, 30 or 120, and its channel bits, Off where nothing is sent
    /// (TS 25.212 4.2.11, 4.3.3).
    Phy {
        dir: Dir,
        tfci: &'a [Bit],
        cells: &'a [Trit],
    },
    /// No radio frame is sent in these 10 ms.
    PhyNone,
    /// A TTI can't be read, since this radio frame of it, from 0 on, is missing or has no valid TFCI.
    BadTti {
        dir: Dir,
        channel: u8,
        frame: u8,
    },
    /// Transport blocks of a channel were taken as good that were not given so at the far end. No node tells this.
    Differs {
        dir: Dir,
        channel: u8,
    },
}
