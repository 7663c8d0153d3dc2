//! Lists that own their items.
use case_lines::Words;
use com_text::Rows;
use std::alloc::{AllocError, Global};

/// Returns what a call on lists of numbers answers: None for any other call.
pub fn answer(
    alloc: Global,
    call: &[u8],
    words: &mut Words<'_>,
) -> Result<Option<String>, AllocError> {
    let answer = match call {
        b"Rows::push" => {
            let rows = rows_of(alloc, words)?;
            format!(in alloc; "{:?}", rows.as_slice())?
        }
        b"Rows::truncate" => truncated(alloc, words)?,
        b"Rows::of_vec" => back(alloc, words)?,
        _ => return Ok(None),
    };
    Ok(Some(answer))
}

/// Returns the numbers that are left, one pushed after the other.
fn rows_of(alloc: Global, words: &mut Words<'_>) -> Result<Rows<u64>, AllocError> {
    let mut rows = Rows::new(alloc);
    for _number in 0..words.len() {
        rows.push(words.number()).map_err(|(_, error)| error)?;
    }
    Ok(rows)
}

/// Returns how many numbers stay, and which.
fn truncated(alloc: Global, words: &mut Words<'_>) -> Result<String, AllocError> {
    let count = words.number() as usize;
    let mut rows = rows_of(alloc, words)?;
    rows.truncate(count);
    format!(in alloc; "{}: {:?}", rows.len(), rows.as_slice())
}

/// Returns the numbers, which go from a list to a `Vec`, to a list and back.
fn back(alloc: Global, words: &mut Words<'_>) -> Result<String, AllocError> {
    let numbers = rows_of(alloc, words)?.into_vec();
    let numbers = Rows::of_vec(numbers).into_vec();
    format!(in alloc; "{:?}", numbers.as_slice())
}
