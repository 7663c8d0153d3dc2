//! Cases of the one-thread system. Each line of `stdin` is a network and calls on its system, as a
//! script writes them, and `stdout` has what they are to be answered, up to the first that is not
//! allowed.
#![tactic(auto)]

mod nets;
mod replies;
mod system;

use case_lines::{Cases, Words, answer_cases, unknown_call};
use std::alloc::{AllocError, Global};
use std::io;
use system::{Asked, outcome};

/// The cases: each line has a system of its own.
#[derive(Drop)]
struct Systems {
    alloc: Global,
}

impl Cases for Systems {
    fn answer(&mut self, call: &[u8], words: &mut Words<'_>) -> Result<String, AllocError> {
        let description = nets::description(words.bytes());
        match call {
            b"calls" => outcome(self.alloc, description, Asked::Replies, words),
            b"times" => outcome(self.alloc, description, Asked::Times, words),
            _ => unknown_call(self.alloc),
        }
    }
}

fn main(rt: HostRuntime) -> io::Result<()> {
    answer_cases(&rt, &mut Systems { alloc: rt.alloc() })
}
