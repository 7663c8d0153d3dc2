//! The text of journals and scripts, written and read.
//!
//! A journal is what people keep of a run: a header, and a line for each entry with its call and
//! its reply. [`write`] gives the journal of entries that have a text. [`read`] gives the entries
//! of a journal, and answers a fault exactly if bytes are none: the first line that is refused, and
//! why. A script is a header, and a call's text on each line; [`read_calls`] gives its calls or its
//! fault likewise, and [`call_line`] the call of one line, None exactly if it is not the text of a
//! call. An entry has one line and a line one entry, and no line begins another, so bytes are the
//! journal of one history at most ([`a_journal_is_of_one_history`] and the laws beside it).
//!
//! For texts that are too long to be kept as values, [`write_entry`] adds one line to a journal,
//! and [`script_lines`] gives the lines of a script one by one. [`write_stop`] and [`write_finish`]
//! add why a unit stopped and why a terminal ended, as the lines of STOP and END have it.
//!
//! ```rust
//! use com_journal::{call_line, read, write};
//!
//! let bytes = write(alloc, entries.as_slice())?;
//! let again = read(alloc, bytes.as_slice())?; // the same entries
//! let call = call_line(alloc, b"U ECHO START")?; // the unit ECHO begins
//! ```
#![tactic(auto)]

mod arrive;
mod call;
mod entry;
mod fault;
mod finish;
mod journal;
mod laws;
mod line;
mod put;
mod reasons;
mod receive;
mod reply;
mod script;
mod send;
mod single;
mod split;
mod switch;
mod words;

pub use fault::{JournalError, JournalFault, JournalKind};
pub use journal::{read, write, write_entry};
pub use laws::{
    a_journal_has_no_fault, a_journal_is_of_one_history, a_line_is_of_one_entry, a_line_is_short,
    a_text_is_of_one_call, an_entry_has_one_line, each_entry_has_a_line, no_line_begins_another,
    one_fault_is_told,
};
pub use reasons::{write_finish, write_stop};
pub use script::{call_line, read_calls, script_lines};
pub use single::{entry_line, read_line};
pub use split::{Lines, TextLine};
pub use words::{end_word, frame_word};
