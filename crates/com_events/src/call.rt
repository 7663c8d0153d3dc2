//! Who calls, and what for.
use com_cd::{InArea, OutArea};
use com_msg::{FrameFault, Kind, Part, RawMessage, Stamp};
use com_text::{Name, Text};

/// How many characters the key of an ENABLE or a DISABLE has at most.
pub const MAX_KEY_LENGTH: usize = 10;

/// Who makes a call.
#[derive(Clone, Copy, Debug, PartialEq, Eq)]
pub enum Party {
    Unit(Name),
    Terminal(Name),
}

/// Why a run unit stops.
#[derive(Clone, Copy, Debug, PartialEq, Eq)]
pub enum StopReason {
    /// STOP RUN, or the end of its text.
    Run,
    /// It has executed or communicated as often as it may.
    Limit,
    /// An item used as a number holds another character than a digit, or a number is out of range.
    DataFault,
    /// Nothing can happen any more in the whole system.
    Idle,
}

/// Why a terminal ends.
#[derive(Clone, Copy, Debug, PartialEq, Eq)]
pub enum EndReason {
    /// Its input ended, each message whole.
    End,
    /// Its input ceased to be messages.
    Frame(FrameFault),
    /// A read of its input failed.
    Fault,
    /// Its input is longer than an input may be.
    Long,
    /// Nothing can happen any more in the whole system, and its next message cannot come in.
    Idle,
}

/// A call on the system.
#[derive(Debug, Drop)]
pub enum Call {
    /// A run unit begins.
    Start,
    /// RECEIVE of a message or a segment, for at most `size` characters, which is 1 to
    /// [`MAX_SIZE`](com_msg::MAX_SIZE).
    Receive {
        area: InArea,
        kind: Kind,
        size: u32,
        /// Whether NO DATA is written.
        no_data: bool,
    },
    /// ACCEPT MESSAGE COUNT.
    Count {
        area: InArea,
    },
    /// SEND of the characters `from`, one to [`MAX_ITEM_LENGTH`](com_msg::MAX_ITEM_LENGTH) of
    /// them, or of an indicator alone.
    Send {
        area: OutArea,
        part: Part,
        from: Option<Text>,
    },
    /// ENABLE (`on`) or DISABLE of INPUT, or of INPUT TERMINAL. A key has at most
    /// [`MAX_KEY_LENGTH`] characters.
    SwitchInput {
        on: bool,
        terminal: bool,
        area: InArea,
        key: Text,
    },
    /// ENABLE (`on`) or DISABLE of OUTPUT. A key has at most [`MAX_KEY_LENGTH`] characters.
    SwitchOutput {
        on: bool,
        area: OutArea,
        key: Text,
    },
    /// A terminal's message is whole.
    Arrive {
        stamp: Stamp,
        message: RawMessage,
    },
    /// A terminal's next message cannot come in.
    Held,
    /// A run unit stops.
    Stop {
        reason: StopReason,
    },
    /// A terminal ends.
    Finish {
        reason: EndReason,
    },
}
