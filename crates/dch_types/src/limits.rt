/// The most bits of a transport block.
pub const MAX_BLOCK_BITS: usize = 5000;

/// The most bits of a code block that is coded (TS 25.212 4.2.2.2).
pub const MAX_CODE_BLOCK_BITS: usize = 504;

/// The most coded bits of a TTI of a channel.
pub const MAX_TTI_BITS: usize = 131_072;

/// The most cells of a TTI of a channel: eight downlink radio frames, each on three codes of 15 slots of 1272 bits.
pub const MAX_TTI_CELLS: usize = 457_920;

/// The most cells of an uplink radio frame: six codes of 9600 bits.
pub const MAX_UPLINK_CELLS: usize = 57_600;

/// How many sets of channels, each in Iub frames of its own, a direction may have.
pub const SETS: u8 = 8;
