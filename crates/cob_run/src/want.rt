//! What a unit comes to.
use com_events::{Call, StopReason};

/// The verb that a unit wants to be answered, or the reason for which it has stopped.
#[derive(Debug, Drop)]
pub enum Want {
    Verb(Call),
    Stop(StopReason),
}
