/// What a node tells, as C has it. `kind` is its number, 0 to 17. `direction` is 0 for up and 1 for down. `number` is
/// the bearer, the channel or the set, and `more` what else is told: a block, a C/T field, a cause or a radio frame.
/// Behind stand so many octets or letters, of which so many are TFCI bits.
#[repr(C)]
#[derive(Clone, Copy, Debug, PartialEq, Eq)]
pub struct Told {
    pub kind: u8,
    pub direction: u8,
    pub number: u8,
    pub more: u8,
    pub tfci: usize,
    pub length: usize,
}
