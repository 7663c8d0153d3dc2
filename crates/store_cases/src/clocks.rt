//! What time it is.
use case_lines::{Quoted, Words};
use com_io::{Clock, FixedClock, UtcClock, stamp_of};
use com_msg::Stamp;
use std::alloc::{AllocError, Global};
use std::io::{self, ErrorKind};
use std::rt;
use std::time::Duration;

/// A system's clock that stands still, or that cannot be read.
#[derive(Drop)]
struct StillSystem {
    since_1970: Option<Duration>,
}

impl rt::Clock for StillSystem {
    fn monotonic(&self) -> io::Result<Duration> {
        self.since_1970()
    }

    fn since_1970(&self) -> io::Result<Duration> {
        self.since_1970
            .ok_or(io::Error::from(ErrorKind::Unsupported))
    }
}

/// The stamp of a second and its hundredths.
pub fn stamp(alloc: Global, words: &mut Words<'_>) -> Result<String, AllocError> {
    let (second, hundredth) = (words.number(), words.number().min(255) as u8);
    match stamp_of(second, hundredth) {
        Some(stamp) => digits(alloc, stamp),
        None => String::from_str(alloc, "None"),
    }
}

/// What `UtcClock` says where the system's clock shows so many milliseconds, or cannot be read.
pub fn utc(alloc: Global, words: &mut Words<'_>) -> Result<String, AllocError> {
    let since_1970 = if words.is_empty() {
        None
    } else {
        Some(Duration::from_millis(words.number()))
    };
    now_of(alloc, &UtcClock::new(StillSystem { since_1970 }))
}

/// The moment of a clock: its date and time.
pub fn moment(alloc: Global, words: &mut Words<'_>) -> Result<String, AllocError> {
    let (date, time) = (words.bytes(), words.bytes());
    let (Some(date), Some(time)) = (date.first_chunk(), time.first_chunk()) else {
        return String::from_str(alloc, "too short");
    };
    match Stamp::new(date, time) {
        Some(stamp) => now_of(alloc, &FixedClock { stamp }),
        None => String::from_str(alloc, "no stamp"),
    }
}

/// The date and time of a moment of any clock.
fn now_of<C: Clock>(alloc: Global, clock: &C) -> Result<String, AllocError> {
    digits(alloc, clock.now())
}

/// The date and time of a stamp.
fn digits(alloc: Global, stamp: Stamp) -> Result<String, AllocError> {
    format!(in alloc; "{} {}", Quoted(stamp.date()), Quoted(stamp.time()))
}
