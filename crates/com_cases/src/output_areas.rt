//! The area of an output CD.
ghost use Rattle.std.specs.Prelude.{◌<◌, ℕ, IfSome};
ghost use Rattle.com_cd.specs.OutputArea.{IsFieldOf, occurrences_of};

use case_lines::{Quoted, Words};
use com_cd::{MAX_OCCURRENCES, OutArea, OutField};
use com_text::is_text;
use std::alloc::{AllocError, Global};

/// Returns what a call on an output area answers: None for any other call.
pub fn answer(
    alloc: Global,
    area: &mut OutArea,
    call: &[u8],
    words: &mut Words<'_>,
) -> Result<Option<String>, AllocError> {
    let answer = match call {
        b"OutArea::opening" => opening(alloc, area, words.number())?,
        b"OutArea::read" => read(alloc, area, words.bytes())?,
        b"OutArea::get" => get(alloc, area, words)?,
        b"OutArea::set" => set(alloc, area, words)?,
        b"OutArea::count" => format!(in alloc; "{:?}", area.count())?,
        _ => return Ok(None),
    };
    Ok(Some(answer))
}

fn opening(alloc: Global, area: &mut OutArea, occurrences: u64) -> Result<String, AllocError> {
    if occurrences == 0 || occurrences > u64::from(MAX_OCCURRENCES) {
        return String::from_str(alloc, "no such area");
    }
    *area = OutArea::opening(occurrences as u32);
    format!(in alloc; "{}", Quoted(area.as_bytes()))
}

fn read(alloc: Global, area: &mut OutArea, bytes: &[u8]) -> Result<String, AllocError> {
    match OutArea::read(bytes) {
        Some(read) => {
            *area = read;
            format!(in alloc; "{} occurrences", area.occurrences())
        }
        None => String::from_str(alloc, "None"),
    }
}

/// Returns the field that a word names, at this occurrence where it has one: None where it names
/// none.
fn field_of(word: &[u8], occurrence: u32) -> Option<OutField>
    ensures { (n : ℕ) → occurrence < n → IfSome result (IsFieldOf n) }
{
    match word {
        b"Count" => Some(OutField::Count),
        b"Length" => Some(OutField::Length),
        b"Status" => Some(OutField::Status),
        b"Error" => Some(OutField::Error(occurrence)),
        b"Destination" => Some(OutField::Destination(occurrence)),
        _ => None,
    }
}

/// Returns the field that two words name: None where the area has no such field.
fn field_in(area: &OutArea, words: &mut Words<'_>) -> Option<OutField>
    ensures { IfSome result (IsFieldOf (occurrences_of area.now)) }
{
    let word = words.bytes();
    let occurrence = words.number();
    if occurrence >= u64::from(area.occurrences()) {
        return None;
    }
    field_of(word, occurrence as u32)
}

fn get(alloc: Global, area: &OutArea, words: &mut Words<'_>) -> Result<String, AllocError> {
    match field_in(area, words) {
        Some(field) => format!(in alloc; "{}", Quoted(area.get(field))),
        None => String::from_str(alloc, "no field"),
    }
}

fn set(alloc: Global, area: &mut OutArea, words: &mut Words<'_>) -> Result<String, AllocError> {
    let Some(field) = field_in(area, words) else {
        return String::from_str(alloc, "no field");
    };
    let value = words.bytes();
    if value.len() != field.width() || !is_text(value) {
        return String::from_str(alloc, "no value");
    }
    area.set(field, value);
    format!(in alloc; "{}", Quoted(area.as_bytes()))
}
