use dch_bits::Bit;
use dch_types::Dir;

/// What a script does between two radio frames.
#[derive(Clone, Copy)]
pub enum LinkEvent<'a> {
    /// A unit is offered to a bearer, at the end that sends in a direction: bits to a transparent one, octets to the
    /// others (TS 25.322).
    Unit {
        dir: Dir,
        bearer: u8,
        octets: &'a [u8],
        bits: &'a [Bit],
    },
    /// A combination of a direction is blocked, or free again (TS 25.321).
    Block {
        dir: Dir,
        combination: u16,
        on: bool,
    },
    /// A place of the next radio frame is turned over: a TFCI bit, or a cell.
    Flip {
        dir: Dir,
        tfci: bool,
        place: u16,
    },
    /// The next radio frame is lost.
    Lose {
        dir: Dir,
    },
    /// The Iub frame of a set is lost in the next radio frame.
    LoseIub {
        dir: Dir,
        set: u8,
    },
    /// An octet of the Iub frame of a set is changed by exclusive or in the next radio frame.
    Spoil {
        dir: Dir,
        set: u8,
        octet: u16,
        mask: u8,
    },
}
