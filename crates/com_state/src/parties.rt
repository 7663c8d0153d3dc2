//! What units and terminals do, and how often they have called.
use com_cd::InArea;
use com_msg::Kind;

/// How many verbs a unit does at most.
pub const MAX_VERBS: u32 = 10_000;

/// How many messages arrive from a terminal at most.
pub const MAX_ARRIVALS: u32 = 65_536;

/// What a unit does.
#[derive(Clone, Copy, Debug)]
pub enum UnitMode {
    /// It has not started.
    Dormant,
    Running,
    /// It waits for this RECEIVE to go on, which has no NO DATA.
    WaitingFor { area: InArea, kind: Kind, size: u32 },
    Stopped,
}

/// A unit.
#[derive(Clone, Copy, Debug)]
pub struct UnitState {
    pub mode: UnitMode,
    /// How many of its verbs were done.
    pub verbs: u32,
}

/// What a terminal does.
#[derive(Clone, Copy, Debug)]
pub enum TerminalMode {
    /// Its messages come in.
    Feeding,
    /// It holds a message that cannot come in.
    Holding,
    Ended,
}

/// A terminal.
#[derive(Clone, Copy, Debug)]
pub struct TerminalState {
    pub mode: TerminalMode,
    /// How many of its messages have arrived.
    pub arrivals: u32,
}
