//! Cases of messages and of framing. Each line of `stdin` is a call with its arguments, and
//! `stdout` has what it is to answer.
#![tactic(auto)]

mod lines;
mod messages;
mod sendings;

use case_lines::{Cases, Words, answer_cases, unknown_call};
use std::alloc::{AllocError, Global};
use std::io;

/// The cases: each line stands by itself.
#[derive(Drop)]
struct Calls {
    alloc: Global,
}

impl Cases for Calls {
    fn answer(&mut self, call: &[u8], words: &mut Words<'_>) -> Result<String, AllocError> {
        if let Some(answer) = messages::answer(self.alloc, call, words)? {
            return Ok(answer);
        }
        if let Some(answer) = sendings::answer(self.alloc, call, words)? {
            return Ok(answer);
        }
        if let Some(answer) = lines::answer(self.alloc, call, words)? {
            return Ok(answer);
        }
        unknown_call(self.alloc)
    }
}

fn main(rt: HostRuntime) -> io::Result<()> {
    answer_cases(&rt, &mut Calls { alloc: rt.alloc() })
}
