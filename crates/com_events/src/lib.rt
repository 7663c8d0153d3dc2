//! Calls on the message control system, and what they are answered.
//!
//! ```rust
//! use com_events::{Call, Entry, Party, Reply};
//!
//! let entry = Entry {
//!     party: Party::Unit(name),
//!     call: Call::Start,
//!     reply: Reply::Started { names: None },
//! };
//! ```
//!
//! These are plain types. `specs/Calls.antt` says which parts of a call are within their ranges
//! (`IsWellFormed`), which replies a call may have (`IsReplyTo`), and which entries a journal can
//! write (`HasText`).
#![tactic(auto)]

mod call;
mod entry;
pub mod limits;
mod reply;

pub use call::{Call, EndReason, MAX_KEY_LENGTH, Party, StopReason};
pub use entry::Entry;
pub use reply::Reply;
