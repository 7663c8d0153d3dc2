//! Cases of the program's commands, and of its files. Each line of `stdin` is a call with its
//! words, and `stdout` has what it is to answer, behind what the call itself wrote to standard
//! output.
//!
//! `tool` does a command over a store in memory that has the files which the command names: those
//! that were `put`, and else those of `data/`. `check` does that command, where the words after the
//! description name its programs, and `line` a replay of the lines after the description. `put_file`
//! puts a file of `data/` under another name. `text`, `bytes` and `totals` show what a command wrote
//! under a name.
#![tactic(auto)]

mod commands;
mod files;
mod runs;
mod written;

use case_lines::{Cases, Words, answer_cases, unknown_call};
use com_io::MemoryStore;
use commands::Files;
use std::alloc::AllocError;
use std::io;

/// The cases: the files of the current folder, those that were put, and what the last command
/// wrote.
#[derive(Drop)]
struct Desk<'a> {
    rt: &'a HostRuntime,
    files: Files,
    store: MemoryStore,
}

impl Cases for Desk<'_> {
    fn answer(&mut self, call: &[u8], words: &mut Words<'_>) -> Result<String, AllocError> {
        match call {
            b"put" => self.files.put(words),
            b"tool" => self.tool(words.rest()),
            b"line" => self.line(words),
            b"check" => self.check(words),
            b"put_file" => self.put_file(words),
            b"text" => written::text(self.rt.alloc(), &self.store, words.bytes()),
            b"bytes" => written::bytes(self.rt.alloc(), &self.store, words.bytes()),
            b"totals" => written::totals(self.rt.alloc(), &self.store, words.bytes()),
            _ => of_folder(self.rt, call, words),
        }
    }
}

impl Desk<'_> {
    /// The exit status of a command.
    fn tool(&mut self, words: &[Vec<u8>]) -> Result<String, AllocError> {
        self.store = self.files.store_of(self.rt, words)?;
        let status = commands::tool_of(self.rt.alloc(), words, &mut self.store)?;
        format!(in self.rt.alloc(); "{status}")
    }

    /// The exit status of the check of the first file, whose programs are the others, and what it wrote to
    /// standard output.
    fn check(&mut self, words: &mut Words<'_>) -> Result<String, AllocError> {
        let alloc = self.rt.alloc();
        let names = words.rest();
        self.store = self.files.store_of(self.rt, names)?;
        let command = commands::check_of(alloc, names)?;
        let status = commands::tool_of(alloc, &command, &mut self.store)?;
        let report = written::bytes(alloc, &self.store, b"-")?;
        format!(in alloc; "{status} {report}")
    }

    /// Puts a file of the folder under another name.
    fn put_file(&mut self, words: &mut Words<'_>) -> Result<String, AllocError> {
        let name = words.bytes();
        self.files.put_file(self.rt, name, words.bytes())
    }

    /// The exit status of the replay of a script of these lines over a description, and what it
    /// wrote to standard output.
    fn line(&mut self, words: &mut Words<'_>) -> Result<String, AllocError> {
        let alloc = self.rt.alloc();
        let description = words.bytes();
        self.files.put_script(words.rest())?;
        let command = commands::replay_of(alloc, description)?;
        let status = self.tool(&command)?;
        let report = written::bytes(alloc, &self.store, b"-")?;
        format!(in alloc; "{status} {report}")
    }
}

/// What the calls answer that work on the files of the current folder.
fn of_folder(rt: &HostRuntime, call: &[u8], words: &mut Words<'_>) -> Result<String, AllocError> {
    match call {
        b"on_disk" => runs::run(rt, words.rest()),
        b"write" => files::write(rt, words.bytes(), words.bytes(), words.number()),
        b"read" => files::read(rt, words.bytes()),
        b"read_by_four" => files::read_by_four(rt, words.bytes()),
        _ => unknown_call(rt.alloc()),
    }
}

fn main(rt: HostRuntime) -> io::Result<()> {
    let alloc = rt.alloc();
    let mut desk = Desk {
        rt: &rt,
        files: Files::new(alloc),
        store: MemoryStore::new(alloc),
    };
    answer_cases(&rt, &mut desk)
}
