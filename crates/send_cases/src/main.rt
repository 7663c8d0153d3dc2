//! Cases of SEND, ENABLE OUTPUT and DISABLE OUTPUT. Each line of `stdin` is a call with its
//! arguments, and `stdout` has what it is to answer. `outs` begins anew with so many units, and
//! with destinations by their names, passwords and whether they are enabled.
#![tactic(auto)]

mod calls;
mod parts;

use crate::calls::{new, send, stop, switch, transmitted};
use case_lines::{Cases, Words, answer_cases, unknown_call};
use com_send::Outs;
use com_text::Rows;
use std::alloc::{AllocError, Global};
use std::io;

/// What the cases so far have left.
#[derive(Drop)]
struct Sending {
    alloc: Global,
    outs: Outs,
}

impl Cases for Sending {
    fn answer(&mut self, call: &[u8], words: &mut Words<'_>) -> Result<String, AllocError> {
        let alloc = self.alloc;
        match call {
            b"outs" => {
                self.outs = new(alloc, words)?;
                String::from_str(alloc, "begun")
            }
            b"send" => send(alloc, &mut self.outs, words),
            b"enable" => switch(alloc, &mut self.outs, true, words),
            b"disable" => switch(alloc, &mut self.outs, false, words),
            b"stop" => stop(alloc, &mut self.outs, words.number()),
            b"transmitted" => transmitted(alloc, &self.outs, words.number()),
            _ => unknown_call(alloc),
        }
    }
}

fn main(rt: HostRuntime) -> anyhow::Result<()> {
    let alloc = rt.alloc();
    let outs = Outs::new(alloc, Rows::new(alloc), 0)?;
    answer_cases(&rt, &mut Sending { alloc, outs })?;
    Ok(())
}
