/// An SDU that is stored: its octets, 1 to 1,500, and its first block, by the count of all blocks since opening, up to
/// 65,536.
#[derive(Clone, Copy)]
pub struct Sdu {
    pub first: u16,
    pub octets: u16,
}
