//! Texts.
use case_lines::{Quoted, Words};
use com_text::{Text, TextError, is_text};
use std::alloc::{AllocError, Global};

/// Returns what a call on texts answers: None for any other call.
pub fn answer(
    alloc: Global,
    call: &[u8],
    words: &mut Words<'_>,
) -> Result<Option<String>, AllocError> {
    let answer = match call {
        b"Text::read" => read(alloc, words.bytes())?,
        b"is_text" => format!(in alloc; "{}", is_text(words.bytes()))?,
        _ => return Ok(None),
    };
    Ok(Some(answer))
}

fn read(alloc: Global, bytes: &[u8]) -> Result<String, AllocError> {
    match Text::read(alloc, bytes) {
        Ok(text) => format!(in alloc; "{}", Quoted(text.copy()?.as_str().as_bytes())),
        Err(TextError::BadByte { at }) => format!(in alloc; "BadByte at {at}"),
        Err(TextError::Memory(error)) => Err(error),
    }
}
