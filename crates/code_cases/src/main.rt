//! Cases of whole sources. Each line of `stdin` names a file of `data/`: `program` has it as it is,
//! and `filled` with a comment line behind it that makes it as long as the number says. `stdout` has
//! `ok` for a source that is a program, and otherwise its fault with its line and column.
#![tactic(auto)]

use case_lines::{Cases, Words, answer_cases, unknown_call};
use cob_code::read_program;
use cob_lex::{MAX_SOURCE, SourceError, SourceFault};
use com_io::{DirStore, ReadFault, read_file};
use std::alloc::{AllocError, Global};
use std::{io, str};

/// The cases of sources.
#[derive(Drop)]
struct Sources<'a> {
    rt: &'a HostRuntime,
}

impl Cases for Sources<'_> {
    fn answer(&mut self, call: &[u8], words: &mut Words<'_>) -> Result<String, AllocError> {
        match call {
            b"program" => answer_to(self.rt, words.bytes(), 0),
            b"filled" => answer_to(self.rt, words.bytes(), words.number() as usize),
            _ => unknown_call(self.rt.alloc()),
        }
    }
}

/// Says what the source in a file is, filled up to a length.
fn answer_to(rt: &HostRuntime, name: &[u8], length: usize) -> Result<String, AllocError> {
    let alloc = rt.alloc();
    let name = str::from_utf8(name).unwrap_or("");
    match read_file(alloc, &mut DirStore::new(rt), name, MAX_SOURCE) {
        Ok(mut source) => {
            fill(&mut source, length)?;
            program_of(alloc, &source)
        }
        Err(fault) => fault_of_file(alloc, fault),
    }
}

/// Fills a source with a comment line up to a length.
fn fill(source: &mut Vec<u8>, length: usize) -> Result<(), AllocError> {
    if source.len() < length {
        source.extend_from_slice(b"      *")?;
    }
    for _star in source.len()..length {
        source.push(b'*')?;
    }
    Ok(())
}

/// Says why a file was not read.
fn fault_of_file(alloc: Global, fault: ReadFault) -> Result<String, AllocError> {
    format!(in alloc; "{fault:?}")
}

/// Says what a source is.
fn program_of(alloc: Global, source: &[u8]) -> Result<String, AllocError> {
    match read_program(alloc, source) {
        Ok(_) => String::from_str(alloc, "ok"),
        Err(SourceError::Refused(fault)) => fault_text(alloc, fault),
        Err(SourceError::Memory(error)) => Err(error),
    }
}

/// Writes a fault with its line and column.
fn fault_text(alloc: Global, fault: SourceFault) -> Result<String, AllocError> {
    let (kind, line, column) = (fault.kind, fault.line, fault.column);
    format!(in alloc; "{kind:?} {line}:{column}")
}

fn main(rt: HostRuntime) -> io::Result<()> {
    answer_cases(&rt, &mut Sources { rt: &rt })
}
