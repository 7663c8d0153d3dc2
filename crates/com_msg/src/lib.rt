//! Messages between terminals and run units.
//!
//! ```rust
//! use com_msg::{Advance, End, Kind, Open, Rest};
//!
//! let mut rest = Rest::of(message);
//! let portion = rest.take(Kind::Message, 5)?;
//! let mut open = Open::new(alloc);
//! open.room(5)?;
//! open.add(portion.text.as_bytes())?;
//! let sent = open.finish(Advance::After(1), End::Emi)?;
//! ```
//!
//! - [`Stamp::new`] makes a stamp exactly of the digits of a date and a time.
//! - A [`RawMessage`] is what a terminal's framing finds, a [`Message`] one that has arrived.
//!   `copy` is an equal message, and `is_within_limits` says whether it has a segment and is within
//!   the limits.
//! - [`Rest::take`] hands out exactly the portion that RECEIVE MESSAGE or RECEIVE SEGMENT gives,
//!   text and end key, and leaves exactly the rest.
//! - [`Open`] is a message to a terminal that has not ended: `add`, `end_segment` and `finish` do
//!   exactly what SEND does for one destination. After `room` a text that is no longer, and the end
//!   of a segment or of the message, cannot want memory. A [`SharedMessage`] is a message of one
//!   text, which is kept once for all terminals that are sent it.
//!
//! If memory runs out, nothing changes.
#![tactic(auto)]

mod begun;
mod framing;
pub mod limits;
mod message;
mod rest;
mod segments;
mod sending;
mod shared;
mod stamp;

pub use begun::Open;
pub use framing::{FrameFault, FrameKind, Framing};
pub use message::{End, MAX_MESSAGE_LENGTH, MAX_SEGMENT_LENGTH, MAX_SEGMENTS, Message, RawMessage};
pub use rest::{Kind, MAX_SIZE, Portion, Rest, is_longer};
pub use segments::Segments;
pub use sending::{Advance, MAX_ITEM_LENGTH, MAX_LINES, OutMessage, OutSegment, Part};
pub use shared::SharedMessage;
pub use stamp::Stamp;
