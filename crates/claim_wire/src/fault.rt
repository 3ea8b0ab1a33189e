// Why an event or a line is refused.

/// Why an event doesn't happen.
#[derive(Clone, Copy)]
pub enum WireFault {
    /// A customer asks that isn't idle.
    NotIdle,
    /// A customer leaves that is idle or leaves already.
    NothingToLeave,
    /// A customer sends again that is idle or holds its claim.
    NothingToSend,
    /// No message has the number.
    NoMessage,
    /// More than 999,998 messages were sent.
    TooMany,
    /// The system gave no memory.
    OutOfMemory,
}

/// Why a line names no event.
#[derive(Clone, Copy)]
pub enum LineFault {
    /// The first word is none that a line may begin with.
    Unknown,
    /// The other words are wrong.
    Words,
}
