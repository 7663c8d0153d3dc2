//! Cases of queues. Each line of `stdin` is a call with its arguments, and `stdout` has what it is
//! to answer.
#![tactic(auto)]

mod queues;

use case_lines::{Cases, Words, answer_cases, unknown_call};
use std::alloc::{AllocError, Global};
use std::io;

/// The cases: each line has queues of its own.
#[derive(Drop)]
struct Calls {
    alloc: Global,
}

impl Cases for Calls {
    fn answer(&mut self, call: &[u8], words: &mut Words<'_>) -> Result<String, AllocError> {
        match call {
            b"queues" => queues::answer(self.alloc, words),
            _ => unknown_call(self.alloc),
        }
    }
}

fn main(rt: HostRuntime) -> io::Result<()> {
    answer_cases(&rt, &mut Calls { alloc: rt.alloc() })
}
