use dch_types::{Coding, Crc, Dir};

/// A command whose script has event lines.
#[derive(Clone, Copy)]
pub enum Command {
    Encode,
    Link,
    Ue,
    NodeB,
    Rnc,
}

/// What an event line says. Texts are lent as they stand in the line, an empty one as `.`.
#[derive(Clone, Copy)]
pub enum Event<'a> {
    /// Code one transport block: `bits` is the text of its bits.
    Code {
        coding: Coding,
        crc: Crc,
        bits: &'a [u8],
    },
    /// Offer a unit to a bearer: `text` is bit text for a transparent bearer, otherwise hexadecimal.
    Unit {
        dir: Dir,
        bearer: u8,
        text: &'a [u8],
    },
    /// Choose this combination no more.
    Block {
        dir: Dir,
        combination: u16,
    },
    /// Choose this combination again.
    Free {
        dir: Dir,
        combination: u16,
    },
    /// Turn one place of the next radio frame over: a TFCI bit, or a cell.
    Flip {
        dir: Dir,
        tfci: bool,
        place: u16,
    },
    /// Lose the next radio frame.
    Lose {
        dir: Dir,
    },
    /// Lose the next Iub frame of a set.
    LoseIub {
        dir: Dir,
        set: u8,
    },
    /// Change one octet of the next Iub frame of a set by exclusive or.
    Spoil {
        dir: Dir,
        set: u8,
        octet: u16,
        mask: u8,
    },
    /// Run so many radio frames of 10 ms, 1 to 100,000.
    Frame(u32),
    /// An Iub frame of a set came in: `hex` is its hexadecimal text.
    Iub {
        set: u8,
        hex: &'a [u8],
    },
    /// Send the downlink radio frame.
    Down,
    /// A radio frame came in: the text of its TFCI bits, and that of its cells.
    Phy {
        tfci: &'a [u8],
        cells: &'a [u8],
    },
    /// No radio frame came in.
    PhyNone,
    /// A radio frame of 10 ms has passed.
    Tick,
    /// Go on with the second configuration.
    Change,
}

/// Why a line is malformed. The first kind that applies is answered.
#[derive(Clone, Copy, Debug, PartialEq, Eq)]
pub enum LineError {
    /// It has more than 1,048,576 bytes before its line feed.
    Long,
    /// It has no line feed.
    Cut,
    /// Its first word is none of the command's.
    Word,
    /// No form of its first word has this number of words.
    Count,
    /// A word is no number, or out of range.
    Number,
    /// A word is another one than allowed, or no such text.
    Text,
    /// There is no such bearer in that direction.
    Bearer,
    /// It comes at a wrong time. The caller judges this, after all other kinds.
    When,
}
