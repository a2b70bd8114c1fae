/// What a node makes of a good line.
#[derive(Clone, Copy, Debug, PartialEq, Eq)]
pub enum Taken {
    /// The line is an event, which stands for so many radio frames of 10 ms.
    Event(u64),
    /// The line asks for a change of the configuration. Nothing is done.
    Change,
}
