/// A format of a channel, as C has it: the radio frames of a TTI, how many blocks it has, and the bits of each of them.
#[repr(C)]
#[derive(Clone, Copy, Debug, PartialEq, Eq)]
pub struct TtiFormat {
    pub frames: u8,
    pub blocks: u16,
    pub size: u16,
}

/// What was read of a TTI, as C has it: its format, how many blocks it has and how many bits each of them; or its first
/// radio frame, from 0, that is missing or gives the channel another format than frame 0 does.
#[repr(C)]
#[derive(Clone, Copy, Debug, PartialEq, Eq)]
pub struct Tti {
    pub format: u8,
    pub bad_frame: u8,
    pub blocks: usize,
    pub size: usize,
}
