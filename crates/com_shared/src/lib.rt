//! One message control system that several threads share.
//!
//! [`Shared::open`] gives the system and a pass for each party: the units in the network's order, and
//! then the terminals. A thread makes its party's calls with the party's pass. Each call takes the
//! turn, makes at most one entry, and gives the turn back, so the calls of all threads stand in one
//! history. What a pass has seen is a legal history, and its own entries are those of its party.
//!
//! ```rust
//! use com_shared::Shared;
//! use std::thread::join;
//!
//! let (shared, passes) = Shared::open(&net)?;
//! // each pass goes to a thread, where its party makes its calls:
//! let (one, other) = join(
//!     rt,
//!     || shared.entries(rt, &mut first),
//!     || shared.entries(rt, &mut second),
//! );
//! // with all passes, the whole history and the state that it leaves:
//! let Ok((state, history)) = shared.close(passes) else { .. };
//! ```
//!
//! - COUNT, SEND, ENABLE, DISABLE, STOP and END wait for nothing but the turn. If one answers Ok, its
//!   entry is the last that the pass has seen, and the pass's own entries have grown by it alone.
//! - A call asks for a pass whose own entries leave its party in a mode, and within the counts, where
//!   the call is allowed.
//! - `close` hands out a legal history with a text for each entry, whole and in order.
//!
//! A call that waits may never return: nothing is proved of wakes, of fairness, or of getting on.
#![tactic(auto)]

mod activity;
mod arrive;
mod book;
mod commit;
mod ends;
mod plain;
mod receive;
mod shared;
mod start;
mod verbs;
mod waits;

pub use arrive::Arrived;
pub use book::Book;
pub use receive::Received;
pub use shared::{Pass, Shared};
pub use start::Started;
