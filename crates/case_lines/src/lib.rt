//! What a program of cases needs. It reads a table from standard input, a call with its arguments
//! on each line, and prints each line again with what the call answered after it, without spaces at
//! its end.
//!
//! ```rust
//! use case_lines::{Cases, Quoted, Words, answer_cases};
//!
//! #[derive(Drop)]
//! struct Texts {
//!     alloc: Global,
//! }
//!
//! impl Cases for Texts {
//!     fn answer(&mut self, call: &[u8], words: &mut Words<'_>) -> Result<String, AllocError> {
//!         match call {
//!             b"take_counted" => format!(in self.alloc; "{:?}", take_counted(words.bytes())),
//!             _ => unknown_call(self.alloc),
//!         }
//!     }
//! }
//!
//! fn main(rt: HostRuntime) -> io::Result<()> {
//!     answer_cases(&rt, &mut Texts { alloc: rt.alloc() })
//! }
//! ```
//!
//! The line `take_counted "3:a\n\"rest"` is then printed as `take_counted "3:a\n\"rest" = Some((2,
//! 5))`. Empty lines and those that begin with `#` are printed as they are.
//!
//! No function here has a clause: a table is compared with what was worked out by hand, so a word
//! that is read wrong shows there.
#![tactic(auto)]

mod quoted;
mod words;

pub use quoted::Quoted;
use std::alloc::{AllocError, Global};
use std::io;
pub use words::{Words, words_of};

/// What answers the cases of a table, one after another. What it keeps from one case to the next is
/// its own.
pub trait Cases {
    /// Returns what the call of this name answers to the words after it.
    fn answer(&mut self, call: &[u8], words: &mut Words<'_>) -> Result<String, AllocError>;
}

/// Returns what stands for a call that a program does not know.
pub fn unknown_call(alloc: Global) -> Result<String, AllocError> {
    String::from_str(alloc, "?")
}

/// Reads the cases of standard input, and prints each with its answer.
pub fn answer_cases<R, C>(rt: &R, cases: &mut C) -> io::Result<()>
where
    R: Input + Print + AllocGlobal,
    C: Cases,
{
    for line in rt.lines(rt.alloc()) {
        let line = line?;
        if line.is_empty() || line.starts_with('#') {
            println!(rt; "{line}")?;
            continue;
        }
        let words = words_of(rt.alloc(), line.as_str())?;
        let mut words = Words::new(&words);
        let call = words.bytes();
        let answer = cases.answer(call, &mut words)?;
        let answer = answer.trim_end();
        println!(rt; "{line} = {answer}")?;
    }
    Ok(())
}
