//! A value that several threads share, each in its turn, with a log that only grows.
//!
//! A `Turn` is made with the value and a `Pass` for each party. `take` waits until the pass is served, in the order in
//! which tickets were drawn, and hands the value out; `give` takes it back. In between, `commit` says which entry the
//! party adds to the value's log. Each pass has seen the log as it was in its last turn: all that any party has seen is
//! a front of one log, and the entries of its own in it are exactly those that it committed. With all passes, `close`
//! hands the value out for good. A party can also say that it is active (`enter`, `leave`), and `active` answers how
//! many are.
//!
//! A call that waits may never return: nothing is proved of wakes, of fairness, or of getting on.
//!
//! ```rust
//! use com_turn::Turn;
//!
//! // `diary` is a value of a type that is `Logged`, with two writers
//! let Ok((turn, passes)) = Turn::open(alloc, diary, 2) else { .. };
//! // then each thread with its pass:
//! let mut diary = turn.take(rt, &mut pass);
//! if diary.push(&entry).is_ok() {
//!     turn.commit(&mut pass, &entry);
//! }
//! turn.give(&mut pass, diary);
//! ```
#![tactic(auto)]

mod board;
mod logged;
mod pass;
mod passes;
mod steps;
mod turn;
mod view;

pub use logged::Logged;
pub use pass::Pass;
pub use turn::{CloseRefused, Turn};
pub use view::Toggle;
