//! Cases of stores, sources and clocks. Each line of `stdin` is a call with its
//! arguments, and `stdout` has what it is to answer. `store` begins anew with an empty store.
#![tactic(auto)]

mod calls;
mod clocks;
mod sources;

use calls::{fail_open, fail_read, fail_write, out, put, write};
use case_lines::{Cases, Words, answer_cases, unknown_call};
use clocks::{moment, stamp, utc};
use com_io::MemoryStore;
use sources::{open, read, source};
use std::alloc::{AllocError, Global};
use std::io;

/// The cases, and the store that the lines so far have left.
#[derive(Drop)]
struct Storing {
    alloc: Global,
    store: MemoryStore,
}

impl Cases for Storing {
    fn answer(&mut self, call: &[u8], words: &mut Words<'_>) -> Result<String, AllocError> {
        match call {
            b"store" => {
                self.store = MemoryStore::new(self.alloc);
                String::from_str(self.alloc, "begun")
            }
            b"put" => put(self.alloc, &mut self.store, words),
            b"fail_open" => fail_open(self.alloc, &mut self.store, words),
            b"fail_read" => fail_read(self.alloc, &mut self.store, words),
            b"fail_write" => fail_write(self.alloc, &mut self.store, words),
            _ => self.outcome(call, words),
        }
    }
}

impl Storing {
    /// What the calls answer that read and write.
    fn outcome(&mut self, call: &[u8], words: &mut Words<'_>) -> Result<String, AllocError> {
        match call {
            b"open" => open(self.alloc, &mut self.store, words),
            b"read_file" => read(self.alloc, &mut self.store, words),
            b"write" => write(self.alloc, &mut self.store, words),
            b"out" => out(self.alloc, &self.store, words),
            b"source" => source(self.alloc, words),
            b"FixedClock" => moment(self.alloc, words),
            b"stamp_of" => stamp(self.alloc, words),
            b"UtcClock" => utc(self.alloc, words),
            _ => unknown_call(self.alloc),
        }
    }
}

fn main(rt: HostRuntime) -> io::Result<()> {
    let alloc = rt.alloc();
    let store = MemoryStore::new(alloc);
    answer_cases(&rt, &mut Storing { alloc, store })
}
