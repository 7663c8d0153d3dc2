//! Framing of terminal input.
ghost use Rattle.com_lines.specs.Framers.{IsUnfinished};

use crate::messages::{messages_of, show};
use case_lines::{Quoted, Words};
use com_lines::{FeedError, Framer, are_within_limits, encode};
use com_msg::{Framing, RawMessage};
use com_text::Rows;
use std::alloc::{AllocError, Global};

/// Returns what a call on the framing of input answers: None for any other call.
pub fn answer(
    alloc: Global,
    call: &[u8],
    words: &mut Words<'_>,
) -> Result<Option<String>, AllocError> {
    let answer = match call {
        b"Framer" => framed(alloc, words)?,
        b"Framer::count" => counted(alloc, words)?,
        b"Framer::feed" => fed_again(alloc, words)?,
        b"encode" => encoded(alloc, words.rest())?,
        _ => return Ok(None),
    };
    Ok(Some(answer))
}

/// Returns the framing that a word names.
fn framing_of(word: &[u8]) -> Framing {
    match word {
        b"Marks" => Framing::Marks,
        _ => Framing::Lines,
    }
}

/// Feeds bytes in pieces of a size.
fn feed(
    framer: &mut Framer,
    bytes: &[u8],
    size: usize,
    messages: &mut Rows<RawMessage>,
) -> Result<(), FeedError>
    requires { IsUnfinished framer.old }
    ensures { IsUnfinished framer.new }
{
    for piece in bytes.chunks(size.max(1)) {
        framer.feed(piece, messages)?;
    }
    Ok(())
}

/// Returns what bytes are that come in pieces of a size: their messages, and the answer at the end.
fn read(
    framing: Framing,
    bytes: &[u8],
    size: usize,
    messages: &mut Rows<RawMessage>,
) -> Result<(), FeedError> {
    let mut framer = Framer::new(messages.allocator(), framing);
    feed(&mut framer, bytes, size, messages)?;
    framer.finish(messages)
}

/// Adds an answer: the fault, where there is one.
fn show_answer(answer: Result<(), FeedError>, into: &mut String) -> Result<(), AllocError> {
    match answer {
        Ok(()) => write!(into, "Ok"),
        Err(FeedError::Fault(fault)) => write!(into, "{:?} at {}", fault.kind, fault.at),
        Err(FeedError::Memory(error)) => Err(error),
    }
}

/// Returns the messages of some input, and its fault.
fn framed(alloc: Global, words: &mut Words<'_>) -> Result<String, AllocError> {
    let framing = framing_of(words.bytes());
    let size = words.number() as usize;
    let mut messages = Rows::new(alloc);
    let outcome = read(framing, words.bytes(), size, &mut messages);
    let mut answer = String::new(alloc);
    for message in messages.as_slice() {
        show(message, &mut answer)?;
    }
    show_answer(outcome, &mut answer)?;
    Ok(answer)
}

/// Returns how many messages some input has, and its fault. The input is runs of bytes: what is
/// repeated, and how often.
fn counted(alloc: Global, words: &mut Words<'_>) -> Result<String, AllocError> {
    let framing = framing_of(words.bytes());
    let mut bytes = Vec::new(alloc);
    for _run in 0..words.len() / 2 {
        let run = words.bytes();
        for _time in 0..words.number() {
            bytes.extend_from_slice(run)?;
        }
    }
    let mut messages = Rows::new(alloc);
    let outcome = read(framing, &bytes, 1000, &mut messages);
    let mut answer = format!(in alloc; "{} messages, ", messages.len())?;
    show_answer(outcome, &mut answer)?;
    Ok(answer)
}

/// Returns what a framer answers to each piece.
fn fed_again(alloc: Global, words: &mut Words<'_>) -> Result<String, AllocError> {
    let mut framer = Framer::new(alloc, framing_of(words.bytes()));
    let mut messages = Rows::new(alloc);
    let mut answer = String::new(alloc);
    for piece in words.rest() {
        show_answer(framer.feed(piece, &mut messages), &mut answer)?;
        answer.push_str(", ")?;
    }
    write!(&mut answer, "{} messages", messages.len())?;
    Ok(answer)
}

/// Returns the bytes that frame some messages.
fn encoded(alloc: Global, words: &[Vec<u8>]) -> Result<String, AllocError> {
    let messages = messages_of(alloc, words)?;
    if !are_within_limits(&messages) {
        return String::from_str(alloc, "over the limits");
    }
    let bytes = encode(alloc, &messages)?;
    format!(in alloc; "{}", Quoted(bytes.as_slice()))
}
