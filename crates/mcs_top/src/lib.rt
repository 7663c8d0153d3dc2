//! The commands of the program, over any store of files.
//!
//! [`tool`] does the command of some words and answers its exit status. So far these are
//!
//! - `replay NET SCRIPT`, which reads the description of a network and a script, does the script's calls on
//!   one thread, and writes the journal, the terminals' transcripts and a summary;
//! - `check NET`, which reads the description of a network and each COBOL program that it names, and writes
//!   `ok` or the first fault;
//! - `show MODE FILE`, which reads a file of terminal input and writes the messages that its framing finds.
//!
//! [`mcs`] does the same and is handed what commands with threads and a clock need.
//!
//! ```rust
//! use com_io::MemoryStore;
//! use mcs_top::tool;
//!
//! let mut store = MemoryStore::new(alloc);
//! store.put("net.toml", NET)?;
//! store.put("script.txt", b"MCS-SCRIPT 1\nU ECHO START\n")?;
//! assert_eq!(rt; tool(alloc, &replay_words, &mut store), 0);
//! let journal = b"MCS-JOURNAL 1\nU ECHO START = 0:\n".as_slice();
//! assert_eq!(rt; store.out("journal.txt"), Some(journal));
//! ```
//!
//! The contract of both, `IsOutcome` of `specs/Outcome.antt`, says for each command and each of its statuses what
//! brought it about, what was written, and every call that was made on the store. With status 0 or 6 of a
//! replay the history that was written is a legal run of the script's calls, in which each message goes to one
//! unit with nothing left out, and the messages of one queue are taken up in order. `IsComplete` says when a
//! command is done.
#![tactic(auto)]

mod check;
mod command;
mod ends;
mod files;
pub mod laws;
pub mod limits;
mod outputs;
mod replay;
mod report;
mod run;
mod script;
mod show;
mod summary;

pub use command::{mcs, tool};
