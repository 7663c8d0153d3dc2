//! The system's clock.
ghost use Rattle.std.specs.Prelude.{◌↔◌, ◌/◌, ◌%◌, IsSome, IfSome};
ghost use Rattle.std.specs.Duration.{as_nanos};
ghost use Rattle.com_io.specs.Civil.{HasDay, IsStampOf};

use crate::Clock;
use crate::civil::stamp_of;
use com_msg::Stamp;
use std::rt;
use std::time::{Duration, SystemTime, UNIX_EPOCH};

/// The system's clock, in UTC. It promises nothing of the moments that it says.
#[derive(Drop)]
pub struct UtcClock<R> {
    rt: R,
}

impl<R> UtcClock<R> {
    /// Returns the clock that a runtime reaches.
    pub fn new(rt: R) -> Self {
        UtcClock { rt }
    }
}

impl<R: rt::Clock> Clock for UtcClock<R> {
    ghost says = { λ clock moment. Unit {0} };

    /// Answers 1970-01-01 00:00:00.00 if the system's clock cannot be read, is set before 1970, or
    /// is set after 9999-12-31.
    fn now(&self) -> Stamp {
        system_stamp(&self.rt).unwrap_or(first_stamp())
    }
}

/// Returns what the system's clock shows: None if it cannot be read, or shows no date of a stamp.
fn system_stamp(clock: &impl rt::Clock) -> Option<Stamp> {
    let now = SystemTime::now(clock).ok()?;
    let elapsed = now.duration_since(UNIX_EPOCH).ok()?;
    stamp_since(elapsed)
}

/// Returns the stamp at a time after 1970-01-01: None exactly if it is after 9999-12-31.
fn stamp_since(elapsed: Duration) -> Option<Stamp>
    ensures some { IsSome result ↔ HasDay (as_nanos elapsed / 1_000_000_000) }
    ensures stamp { IfSome result
        (IsStampOf (as_nanos elapsed / 1_000_000_000) (as_nanos elapsed / 10_000_000 % 100)) }
{
    stamp_of(elapsed.as_secs(), (elapsed.subsec_millis() / 10) as u8)
}

/// Returns the stamp of 1970-01-01 00:00:00.00.
fn first_stamp() -> Stamp
    ensures { IsStampOf 0 0 result }
{
    stamp_of(0, 0).unwrap()
}
