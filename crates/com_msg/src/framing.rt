//! How bytes from a terminal are messages, and what is wrong with bytes that are not.

/// How a terminal marks the ends of its segments and messages.
#[derive(Clone, Copy, Debug, PartialEq, Eq)]
pub enum Framing {
    /// A message is its segments one after another. Byte 17 hexadecimal, ESI, comes after each
    /// segment but the last, and after the last stands 03, EMI, or 04, EGI.
    Marks,
    /// Each line is one message of one segment.
    Lines,
}

/// What is wrong with bytes from a terminal.
#[derive(Clone, Copy, Debug, PartialEq, Eq)]
pub enum FrameKind {
    /// A byte that the framing does not allow at its place.
    BadByte,
    /// The 2,001st character of a segment.
    LongSegment,
    /// The 10,000th character of a message, or the ESI that would begin its 10,000th segment.
    LongMessage,
    /// The 65,537th message.
    TooMany,
    /// The bytes end inside a message.
    Truncated,
}

/// Where bytes from a terminal cease to be messages, and why.
#[derive(Clone, Copy, Debug, PartialEq, Eq)]
pub struct FrameFault {
    /// The place of the first byte that is at fault, counted in bytes from 0. Where the bytes end
    /// too early, it is how many there are.
    pub at: u64,
    /// What is wrong there.
    pub kind: FrameKind,
}
