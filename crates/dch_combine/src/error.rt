use dch_iub::IubError;

/// Why the frame of a leg isn't taken.
#[derive(Clone, Copy, Debug, PartialEq, Eq)]
pub enum CombineError {
    /// It is no data frame of its set (TS 25.427 6.2).
    Frame(IubError),
    /// It is one, of another TTI than was asked for: of that which starts at this CFN.
    Cfn(u8),
}
