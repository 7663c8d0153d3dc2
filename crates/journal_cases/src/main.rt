//! Cases of the text of calls, scripts and journals. Each line of `stdin` is a call with its
//! arguments, and `stdout` has what it is to answer.
#![tactic(auto)]

mod calls;
mod journals;
mod mutations;

use case_lines::{Cases, Words, answer_cases, unknown_call};
use std::alloc::{AllocError, Global};
use std::io;

/// The cases, which keep nothing from one to the next.
#[derive(Drop)]
struct JournalCases {
    alloc: Global,
}

impl Cases for JournalCases {
    fn answer(&mut self, call: &[u8], words: &mut Words<'_>) -> Result<String, AllocError> {
        match call {
            b"call_line" => calls::call_line(self.alloc, words.bytes()),
            b"read_calls" => journals::read_calls(self.alloc, words.bytes()),
            b"read" => journals::read(self.alloc, words.bytes()),
            b"read_entry" => journals::read_entry(self.alloc, words.bytes()),
            b"mutations" => mutations::mutations(self.alloc, words.bytes()),
            b"write" => journals::read_and_write(self.alloc, words.bytes()),
            _ => unknown_call(self.alloc),
        }
    }
}

fn main(rt: HostRuntime) -> io::Result<()> {
    answer_cases(&rt, &mut JournalCases { alloc: rt.alloc() })
}
