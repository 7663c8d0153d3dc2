//! Framing of terminal input, and what a terminal is sent.
//!
//! ```rust
//! use com_lines::{Framer, render};
//! use com_msg::Framing;
//!
//! let mut framer = Framer::new(alloc, Framing::Marks);
//! let mut messages = Rows::new(alloc);
//! framer.feed(b"HEL", &mut messages)?;
//! framer.feed(b"LO\x03", &mut messages)?;
//! framer.finish(&mut messages)?;
//! assert!(rt; messages.len() == 1);
//! ```
//!
//! - [`Framer`] finds the messages of a terminal's input, whatever pieces it comes in: over any
//!   list of pieces, what `feed` has added is what the bytes so far finish. It answers a fault
//!   exactly if one is settled in them, the first, and answers it again at every later call. After
//!   `finish` the messages and the verdict are those of all bytes by `Frames`, which speaks of
//!   places in the whole list of bytes. After out of memory a framer answers it always.
//! - Bytes have one such reading ([`one_reading`]), so the messages that a framer finds in what
//!   [`encode`] writes are the messages that were written, where there are at most
//!   [`MAX_MESSAGES`].
//! - [`render`] adds exactly the bytes that a message is to a terminal. If memory runs out, nothing
//!   changes.
#![tactic(auto)]

mod encoding;
mod framer;
mod laws;
pub mod limits;
mod reading;
mod rendering;

pub use encoding::{are_within_limits, encode};
pub use framer::Framer;
pub use laws::one_reading;
pub use reading::{FeedError, MAX_MESSAGES};
pub use rendering::render;
