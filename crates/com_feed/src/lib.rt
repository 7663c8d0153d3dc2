//! What the entries of a terminal tell of its input.
//!
//! `specs/Fed.antt` says which messages have arrived when a terminal has ended, by the reason of
//! END: all of its input, those before a fault, those that its source gave before it failed, or the
//! first ones if it was held until the end (`Fed`); and which have arrived before (`FedSoFar`). The
//! entries are the terminal's own, so of a history those of this party.
//!
//! ```rust
//! ghost use Rattle.com_feed.specs.Fed.{Fed};
//!
//! /// Does all calls of a terminal whose input is these bytes, line by line.
//! fn play(terminal: Party, bytes: &[u8]) -> Rows<Entry>
//!     ensures { Fed terminal Framing.Lines bytes.now None result }
//! ```
//!
//! These are definitions with their [`laws`]: every input has one end, what a prefix of it has
//! finished comes first, and how a terminal goes on being fed from entry to entry.
#![tactic(auto)]

pub mod laws;
