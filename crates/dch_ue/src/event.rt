use dch_accept::FrameView;
use dch_bits::Bit;

/// What happens at a terminal.
#[derive(Clone, Copy)]
pub enum UeEvent<'a> {
    /// A unit is offered to a bearer: bits to a transparent one, octets to the others (TS 25.322).
    Unit {
        bearer: u8,
        octets: &'a [u8],
        bits: &'a [Bit],
    },
    /// An uplink combination is blocked, or free again (TS 25.321).
    Block {
        combination: u16,
        on: bool,
    },
    /// The downlink radio frame of the current CFN comes, or is missing (TS 25.212). A later one replaces it.
    Phy {
        frame: Option<FrameView<'a>>,
    },
    /// 10 ms have passed.
    Tick,
    /// The second configuration becomes active, with the radio frames of the current CFN (TS 25.331 8.2.2).
    Change,
}
