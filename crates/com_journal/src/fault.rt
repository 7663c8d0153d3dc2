//! Why bytes are not a journal or a script.
use std::alloc::AllocError;
use thiserror::Error;

/// What is wrong with a line.
#[derive(Clone, Copy, Debug, PartialEq, Eq)]
pub enum JournalKind {
    /// The first line is not the header, or no line is there.
    BadHeader,
    /// The line is not the text of an entry, or, in a script, of a call.
    BadLine,
    /// No line feed ends the last line, and in a journal each line has one.
    NoLineEnd,
}

/// The first line that is refused, and why.
#[derive(Clone, Copy, Debug, PartialEq, Eq)]
pub struct JournalFault {
    /// Its number, from 1.
    pub line: u64,
    /// What is wrong with it.
    pub kind: JournalKind,
}

/// Why nothing was read.
#[derive(Clone, Copy, Debug, Error)]
pub enum JournalError {
    /// A line is refused.
    #[error("line {} is refused: {:?}", .0.line, .0.kind)]
    Refused(JournalFault),
    /// Memory ran out.
    #[error("memory ran out")]
    Memory(AllocError),
}
