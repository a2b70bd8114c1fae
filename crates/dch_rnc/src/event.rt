use dch_bits::Bit;

/// What happens at a network controller.
#[derive(Clone, Copy)]
pub enum RncEvent<'a> {
    /// A unit is offered to a bearer: bits to a transparent one, octets to the others (TS 25.322).
    Unit {
        bearer: u8,
        octets: &'a [u8],
        bits: &'a [Bit],
    },
    /// A downlink combination is blocked, or free again (TS 25.321).
    Block {
        combination: u16,
        on: bool,
    },
    /// An Iub frame arrives for a set of uplink channels (TS 25.427).
    Iub {
        set: u8,
        frame: &'a [u8],
    },
    /// 10 ms have passed.
    Tick,
    /// The second configuration becomes active.
    Change,
}
