//! Messages to terminals: building them, and what the terminal is sent.
use crate::messages::text_of;
use case_lines::{Quoted, Words};
use com_lines::render;
use com_msg::{Advance, End, Open, OutMessage};
use com_text::Rows;
use std::alloc::{AllocError, Global};

/// Returns what a call on messages to terminals answers: None for any other call.
pub fn answer(
    alloc: Global,
    call: &[u8],
    words: &mut Words<'_>,
) -> Result<Option<String>, AllocError> {
    let answer = match call {
        b"Open" => build_all(alloc, words)?,
        b"render" => render_all(alloc, words)?,
        _ => return Ok(None),
    };
    Ok(Some(answer))
}

/// Returns the advance that two words name.
fn advance_of(words: &mut Words<'_>) -> Advance {
    let word = words.bytes();
    let lines = words.number().min(255) as u8;
    match word {
        b"Before" => Advance::Before(lines),
        b"After" => Advance::After(lines),
        b"BeforePage" => Advance::BeforePage,
        _ => Advance::AfterPage,
    }
}

/// One SEND: its text is added, and its indicator ends what it ends. The message, where it ends.
fn send(
    alloc: Global,
    open: &mut Open,
    words: &mut Words<'_>,
) -> Result<Option<OutMessage>, AllocError> {
    let text = text_of(alloc, words.bytes())?;
    let indicator = words.bytes();
    let advance = advance_of(words);
    open.room(text.as_bytes().len())?;
    open.add(text.as_bytes())?;
    match indicator {
        b"Esi" => {
            open.end_segment(advance)?;
            Ok(None)
        }
        b"Emi" => Ok(Some(open.finish(advance, End::Emi)?)),
        b"Egi" => Ok(Some(open.finish(advance, End::Egi)?)),
        _ => Ok(None),
    }
}

/// Returns the messages that SENDs build, each SEND a text, an indicator and an advance.
fn build_all(alloc: Global, words: &mut Words<'_>) -> Result<String, AllocError> {
    let mut answer = String::new(alloc);
    let mut open = Open::new(alloc);
    for _send in 0..words.len() / 4 {
        if let Some(message) = send(alloc, &mut open, words)? {
            show(&message, &mut answer)?;
        }
    }
    if answer.is_empty() {
        answer.push_str("no message")?;
    }
    Ok(answer)
}

/// Adds a message: each segment with its advance, and the end.
fn show(message: &OutMessage, into: &mut String) -> Result<(), AllocError> {
    for segment in message.segments.as_slice() {
        let text = Quoted(segment.text.as_bytes());
        write!(into, "{text} {:?} ", segment.advance)?;
    }
    write!(into, "{:?} ", message.end)
}

/// Returns what a terminal is sent after some bytes, for the messages that SENDs build.
fn render_all(alloc: Global, words: &mut Words<'_>) -> Result<String, AllocError> {
    let mut sent = Rows::new(alloc);
    sent.extend_from_slice(words.bytes())?;
    let mut open = Open::new(alloc);
    for _send in 0..words.len() / 4 {
        if let Some(message) = send(alloc, &mut open, words)? {
            if message.is_renderable() {
                render(&message, &mut sent)?;
            }
        }
    }
    format!(in alloc; "{}", Quoted(sent.as_slice()))
}
