//! Cases of the tokens of COBOL sources. Each line of `stdin` is a source, and `stdout` has its
//! tokens, each with line and column, span and text, or its fault.
#![tactic(auto)]

use case_lines::{Cases, Quoted, Words, answer_cases, unknown_call};
use cob_lex::{MAX_SOURCE, SourceError, Token, lex};
use std::alloc::{AllocError, Global};
use std::io;

/// The cases of sources.
#[derive(Drop)]
struct Sources {
    alloc: Global,
}

impl Cases for Sources {
    fn answer(&mut self, call: &[u8], words: &mut Words<'_>) -> Result<String, AllocError> {
        match call {
            b"lex" => tokens_of(self.alloc, words.bytes()),
            _ => unknown_call(self.alloc),
        }
    }
}

/// Returns the tokens of a source, or its fault.
fn tokens_of(alloc: Global, source: &[u8]) -> Result<String, AllocError> {
    if source.len() > MAX_SOURCE {
        return String::from_str(alloc, "a source that is too long");
    }
    match lex(alloc, source) {
        Ok(tokens) => list_of(alloc, tokens.as_slice()),
        Err(SourceError::Refused(fault)) => {
            let (kind, line, column) = (fault.kind, fault.line, fault.column);
            format!(in alloc; "{kind:?} {line}:{column}")
        }
        Err(SourceError::Memory(error)) => Err(error),
    }
}

/// Tokens one after another.
fn list_of(alloc: Global, tokens: &[Token]) -> Result<String, AllocError> {
    if tokens.is_empty() {
        return String::from_str(alloc, "no tokens");
    }
    let mut list = String::new(alloc);
    for token in tokens {
        if !list.is_empty() {
            list.push_str(", ")?;
        }
        let one = text_of(alloc, token)?;
        list.push_str(one.as_str())?;
    }
    Ok(list)
}

/// Returns a token with its line and column, its span and its text.
fn text_of(alloc: Global, token: &Token) -> Result<String, AllocError> {
    let (kind, line, column) = (token.kind, token.line, token.column);
    let (start, past) = (token.start, token.past);
    let text = Quoted(token.text.as_bytes());
    format!(in alloc; "{kind:?} {line}:{column} {start}..{past} {text}")
}

fn main(rt: HostRuntime) -> io::Result<()> {
    answer_cases(&rt, &mut Sources { alloc: rt.alloc() })
}
