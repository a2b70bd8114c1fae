/// What reading the TTI of a channel gave.
#[derive(Clone, Copy, Debug, PartialEq, Eq)]
pub enum TtiOutcome {
    /// The blocks of the TTI.
    Blocks,
    /// The first radio frame of the TTI, from 0, that is missing or gives the channel another format than frame 0 does.
    /// A frame counts as missing where its TFCI names no combination of the list, or where it is not as long as the
    /// radio frames of that combination.
    BadFrame(u8),
}
