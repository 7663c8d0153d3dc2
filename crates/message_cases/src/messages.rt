//! Messages from terminals, their stamps and their rests.
use case_lines::{Quoted, Words};
use com_msg::{End, Kind, Message, RawMessage, Rest, Stamp};
use com_text::{Name, Rows, Text, TextError};
use std::alloc::{AllocError, Global};
use std::mem;

/// Returns what a call on messages answers: None for any other call.
pub fn answer(
    alloc: Global,
    call: &[u8],
    words: &mut Words<'_>,
) -> Result<Option<String>, AllocError> {
    let answer = match call {
        b"Stamp::new" => stamp(alloc, words)?,
        b"RawMessage::copy" => copies(alloc, words.rest())?,
        b"RawMessage::is_within_limits" => are_within_limits(alloc, words.rest())?,
        b"Rest::take" => takes(alloc, words)?,
        _ => return Ok(None),
    };
    Ok(Some(answer))
}

/// Returns the text of a word, and an empty one where it is none.
pub fn text_of(alloc: Global, word: &[u8]) -> Result<Text, AllocError> {
    match Text::read(alloc, word) {
        Ok(text) => Ok(text),
        Err(TextError::BadByte { .. }) => Ok(Text::of_vec(Vec::new(alloc))),
        Err(TextError::Memory(error)) => Err(error),
    }
}

/// Returns the end that a word names: None where it names none.
pub fn end_of(word: &[u8]) -> Option<End> {
    match word {
        b"Emi" => Some(End::Emi),
        b"Egi" => Some(End::Egi),
        _ => None,
    }
}

/// Returns the messages of some words: the segments of each, and then its end.
pub fn messages_of(alloc: Global, words: &[Vec<u8>]) -> Result<Vec<RawMessage>, AllocError> {
    let mut messages = Vec::new(alloc);
    let mut segments = Rows::new(alloc);
    for word in words {
        match end_of(word) {
            Some(end) => {
                let segments = mem::replace(&mut segments, Rows::new(alloc));
                messages.push(RawMessage { segments, end })?;
            }
            None => {
                let text = text_of(alloc, word)?;
                segments.push(text).map_err(|(_, error)| error)?;
            }
        }
    }
    Ok(messages)
}

/// Adds a message as words.
pub fn show(message: &RawMessage, into: &mut String) -> Result<(), AllocError> {
    for segment in message.segments.as_slice() {
        write!(into, "{} ", Quoted(segment.as_bytes()))?;
    }
    write!(into, "{:?} ", message.end)
}

fn stamp(alloc: Global, words: &mut Words<'_>) -> Result<String, AllocError> {
    let (date, time) = (words.bytes(), words.bytes());
    let (Some(date), Some(time)) = (date.first_chunk(), time.first_chunk()) else {
        return String::from_str(alloc, "too short");
    };
    match Stamp::new(date, time) {
        Some(stamp) => { format!(in alloc; "{} {}", Quoted(stamp.date()), Quoted(stamp.time())) }
        None => String::from_str(alloc, "None"),
    }
}

fn copies(alloc: Global, words: &[Vec<u8>]) -> Result<String, AllocError> {
    let mut answer = String::new(alloc);
    for message in messages_of(alloc, words)?.as_slice() {
        show(&message.copy()?, &mut answer)?;
    }
    Ok(answer)
}

fn are_within_limits(alloc: Global, words: &[Vec<u8>]) -> Result<String, AllocError> {
    let mut answer = String::new(alloc);
    for message in messages_of(alloc, words)?.as_slice() {
        write!(&mut answer, "{} ", message.is_within_limits())?;
    }
    Ok(answer)
}

/// Returns what takes of one kind and size give until nothing is left of a message: of each its
/// text and its END KEY.
fn takes(alloc: Global, words: &mut Words<'_>) -> Result<String, AllocError> {
    let kind = match words.bytes() {
        b"Message" => Kind::Message,
        _ => Kind::Segment,
    };
    let size = words.number();
    let mut answer = String::new(alloc);
    for message in messages_of(alloc, words.rest())? {
        if let Some(rest) = rest_of(message) {
            take_all(rest, kind, size, &mut answer)?;
        }
    }
    Ok(answer)
}

/// Returns the rest of a message of which nothing is taken: None of one without a segment.
fn rest_of(message: RawMessage) -> Option<Rest> {
    if message.segments.is_empty() {
        return None;
    }
    let source = Name::new(b"T1")?;
    let stamp = Stamp::new(b"740131", b"12345678")?;
    let RawMessage { segments, end } = message;
    Some(Rest::of(Message {
        source,
        arrival: 1,
        stamp,
        segments,
        end,
    }))
}

/// Adds what takes give until nothing is left, or nine of them.
fn take_all(mut rest: Rest, kind: Kind, size: u64, into: &mut String) -> Result<(), AllocError> {
    for _take in 0..9 {
        if rest.is_spent() || size == 0 || size > 2000 {
            break;
        }
        let portion = rest.take(kind, size as u32)?;
        let key = portion.end_key as char;
        write!(into, "{} {key} ", Quoted(portion.text.as_bytes()))?;
    }
    Ok(())
}
