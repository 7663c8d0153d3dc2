//! The PERFORMs that a unit has begun.
use com_events::StopReason;

/// Which turns of a PERFORM are still to come.
#[derive(Clone, Copy, Debug, PartialEq, Eq)]
pub enum Further {
    Times(u64),
    Until,
}

/// A PERFORM that was begun: its range, the turns that are still to come, and where the run goes on
/// after them. The call is the place of its instruction.
#[derive(Clone, Copy, Debug, PartialEq, Eq)]
pub struct Return {
    pub first: usize,
    pub last: usize,
    pub further: Further,
    pub call: usize,
    pub paragraph: usize,
    pub back: usize,
}

/// Whether a unit runs.
#[derive(Clone, Copy, Debug, PartialEq, Eq)]
pub enum Mode {
    NotBegun,
    Running,
    Waiting,
    Stopped(StopReason),
}
