//! Cases of Procedure Divisions. Each line of `stdin` is a division: `division` has its source, and
//! `sentences` the lines of its one paragraph in area B. `repeated` and `paragraphs` make long
//! ones: they have a line, how many lines of a kind come after it, and the lines at the end, each
//! from column 8. `stdout` has the first fault, or `ok`.
#![tactic(auto)]

use case_lines::{Cases, Words, answer_cases, unknown_call};
use cob_lex::{MAX_SOURCE, SourceError, SourceFault, lex};
use cob_proc::procedure_division;
use std::alloc::{AllocError, Global};
use std::io;

/// The cases of divisions.
#[derive(Drop)]
struct Divisions {
    alloc: Global,
}

impl Cases for Divisions {
    fn answer(&mut self, call: &[u8], words: &mut Words<'_>) -> Result<String, AllocError> {
        match call {
            b"division" => first_fault(self.alloc, words.bytes()),
            b"sentences" => {
                let source = paragraph(self.alloc, words)?;
                first_fault(self.alloc, &source)
            }
            b"repeated" => {
                let source = repeated_line(self.alloc, words)?;
                first_fault(self.alloc, &source)
            }
            b"paragraphs" => {
                let source = many_paragraphs(self.alloc, words)?;
                first_fault(self.alloc, &source)
            }
            _ => unknown_call(self.alloc),
        }
    }
}

/// Returns the source of a division with one paragraph, whose lines stand in area B from line 3.
fn paragraph(alloc: Global, words: &mut Words<'_>) -> Result<Vec<u8>, AllocError> {
    let mut source = Vec::new(alloc);
    source.extend_from_slice(b"       PROCEDURE DIVISION.\n       MAIN.\n")?;
    for _ in 0..words.len() {
        source.extend_from_slice(b"           ")?;
        source.extend_from_slice(words.bytes())?;
        source.push(b'\n')?;
    }
    Ok(source)
}

/// Adds a line from column 8.
fn push_line(source: &mut Vec<u8>, line: &[u8]) -> Result<(), AllocError> {
    source.extend_from_slice(b"       ")?;
    source.extend_from_slice(line)?;
    source.push(b'\n')?;
    Ok(())
}

/// Returns the source of a division with one paragraph: from line 3 on a line, the next one as many
/// times as the number between them says, and the others.
fn repeated_line(alloc: Global, words: &mut Words<'_>) -> Result<Vec<u8>, AllocError> {
    let mut source = Vec::new(alloc);
    push_line(&mut source, b"PROCEDURE DIVISION.")?;
    push_line(&mut source, b"MAIN.")?;
    push_line(&mut source, words.bytes())?;
    let count = words.number();
    let line = words.bytes();
    for _ in 0..count {
        push_line(&mut source, line)?;
    }
    for _ in 0..words.len() {
        push_line(&mut source, words.bytes())?;
    }
    Ok(source)
}

/// Returns the source of a division: from line 2 on a line, as many paragraphs P0, P1 .. as the
/// number says, and the other lines.
fn many_paragraphs(alloc: Global, words: &mut Words<'_>) -> Result<Vec<u8>, AllocError> {
    let mut source = Vec::new(alloc);
    push_line(&mut source, b"PROCEDURE DIVISION.")?;
    push_line(&mut source, words.bytes())?;
    for number in 0..words.number() {
        let paragraph = format!(in alloc; "P{number}. EXIT.")?;
        push_line(&mut source, paragraph.as_bytes())?;
    }
    for _ in 0..words.len() {
        push_line(&mut source, words.bytes())?;
    }
    Ok(source)
}

/// Returns the first fault of a source, of its tokens or else of its division.
fn first_fault(alloc: Global, source: &[u8]) -> Result<String, AllocError> {
    if source.len() > MAX_SOURCE {
        return String::from_str(alloc, "a source that is too long");
    }
    let tokens = match lex(alloc, source) {
        Ok(tokens) => tokens,
        Err(SourceError::Refused(fault)) => return fault_text(alloc, fault),
        Err(SourceError::Memory(error)) => return Err(error),
    };
    match procedure_division(alloc, tokens.as_slice()) {
        Ok(_) => String::from_str(alloc, "ok"),
        Err(SourceError::Refused(fault)) => fault_text(alloc, fault),
        Err(SourceError::Memory(error)) => Err(error),
    }
}

/// Returns a fault with its line and column.
fn fault_text(alloc: Global, fault: SourceFault) -> Result<String, AllocError> {
    let (kind, line, column) = (fault.kind, fault.line, fault.column);
    format!(in alloc; "{kind:?} {line}:{column}")
}

fn main(rt: HostRuntime) -> io::Result<()> {
    answer_cases(&rt, &mut Divisions { alloc: rt.alloc() })
}
