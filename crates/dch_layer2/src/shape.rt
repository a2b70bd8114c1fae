/// The transport blocks that a bearer sends, of one size: the logical channel of their C/T field, where the channel has
/// one; their bits; and the octets of the PDU in each. All are 0 where it sends none, or blocks of several sizes.
#[derive(Clone, Copy)]
pub struct Shape {
    pub ct: Option<u8>,
    pub bits: u16,
    pub octets: u16,
}
