//! Numbers in digits, and counted fields.
use case_lines::{Quoted, Words};
use com_text::{
    MAX_COUNTED, Rows, digits_of, has_leading_zero, number_of, put_counted, put_number,
    take_counted,
};
use std::alloc::{AllocError, Global};

/// Returns what a call on numbers and counted fields answers: None for any other call.
pub fn answer(
    alloc: Global,
    call: &[u8],
    words: &mut Words<'_>,
) -> Result<Option<String>, AllocError> {
    let answer = match call {
        b"digits_of::<6>" => six_digits(alloc, words.number())?,
        b"number_of" => format!(in alloc; "{:?}", number_of(words.bytes()))?,
        b"put_number" => put_numbers(alloc, words)?,
        b"put_counted" => put_fields(alloc, words.rest())?,
        b"take_counted" => format!(in alloc; "{:?}", take_counted(words.bytes()))?,
        b"has_leading_zero" => format!(in alloc; "{}", has_leading_zero(words.bytes()))?,
        _ => return Ok(None),
    };
    Ok(Some(answer))
}

fn six_digits(alloc: Global, n: u64) -> Result<String, AllocError> {
    if n >= 1_000_000 {
        return String::from_str(alloc, "too long");
    }
    format!(in alloc; "{}", Quoted(&digits_of::<6>(n)))
}

fn put_numbers(alloc: Global, words: &mut Words<'_>) -> Result<String, AllocError> {
    let mut out = Rows::new(alloc);
    put_number(&mut out, words.number())?;
    put_number(&mut out, words.number())?;
    format!(in alloc; "{}", Quoted(out.as_slice()))
}

fn put_fields(alloc: Global, contents: &[Vec<u8>]) -> Result<String, AllocError> {
    let mut out = Rows::new(alloc);
    for content in contents {
        if content.len() > MAX_COUNTED {
            return String::from_str(alloc, "too long");
        }
        put_counted(&mut out, content)?;
    }
    format!(in alloc; "{}", Quoted(out.as_slice()))
}
