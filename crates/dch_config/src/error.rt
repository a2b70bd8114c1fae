use dch_tree::KeyPath;
use dch_types::Dir;
use thiserror::Error;

/// Why a text is no configuration. Of several causes the first variant counts. Of several keys the one of the least
/// path counts, and of other causes of one kind that of the uplink, then that of the least channel, combination or
/// bearer.
#[derive(Debug, Drop, PartialEq, Error)]
pub enum ConfigError {
    #[error("out of memory")]
    NoMemory,
    /// The text is not UTF-8, or no TOML.
    #[error("the text is no TOML")]
    NotToml,
    /// A required key is missing, or an unknown key is there.
    #[error("a key is missing or unknown")]
    Key(KeyPath),
    /// A value has the wrong kind or breaks the rule of its key.
    #[error("a value is out of range")]
    Range(KeyPath),
    /// Not 1 to 8 channels.
    #[error("not 1 to 8 channels")]
    TrchCount(Dir),
    /// A channel has not 1 to 32 formats.
    #[error("not 1 to 32 formats")]
    FormatCount(Dir, u8),
    /// A channel has no format in which no bit is sent.
    #[error("no idle format")]
    NoIdleFormat(Dir, u8),
    /// Not 1 to 128 combinations.
    #[error("not 1 to 128 combinations")]
    CombinationCount(Dir),
    /// A combination has not a format for each channel, or equals an earlier one.
    #[error("a combination is wrong")]
    NoSuchFormat(Dir, u16),
    /// A combination with the channels of short TTIs set to idle is not in the list.
    #[error("a combination is missing")]
    NotClosed(Dir, u16),
    /// A channel has a format of blocks above 5,000 bits, or of more than 64 blocks.
    #[error("a block is too large")]
    BlockSize(Dir, u8),
    /// A bearer that is not transparent stands on a channel without parity bits.
    #[error("a channel has no check")]
    NoCheck(u8),
    /// The blocks of a bearer's channel are no PDUs of its mode.
    #[error("a block is no PDU")]
    PduSize(u8),
    /// A bearer's window is not 1 to 2048.
    #[error("a window is out of range")]
    Window(u8),
    /// A channel has a format of more than 131,072 coded bits in a TTI.
    #[error("too many bits in a TTI")]
    TtiBits(Dir, u8),
}

/// Why a configuration can't follow another one while the channel runs.
#[derive(Clone, Copy, Debug, PartialEq, Eq, Error)]
pub enum ChangeError {
    /// A bearer doesn't go on as it is; this is the first one.
    #[error("a bearer changes")]
    Change(u8),
}
