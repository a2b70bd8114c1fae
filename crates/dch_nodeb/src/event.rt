use dch_accept::FrameView;

/// What happens at a Node B.
#[derive(Clone, Copy)]
pub enum NodeBEvent<'a> {
    /// An Iub frame arrives for a set of downlink channels (TS 25.427).
    Iub { set: u8, frame: &'a [u8] },
    /// The downlink radio frame of the CFN is due.
    Down,
    /// The uplink radio frame of the CFN came, or is missing.
    Phy { frame: Option<FrameView<'a>> },
    /// The second configuration becomes active.
    Change,
}
