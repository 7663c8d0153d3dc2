//! The area of an input CD.
use case_lines::{Quoted, Words};
use com_cd::{Designation, InArea, InField, Status};
use com_text::is_text;
use std::alloc::{AllocError, Global};

/// Returns what a call on an input area answers: None for any other call.
pub fn answer(
    alloc: Global,
    area: &mut InArea,
    call: &[u8],
    words: &mut Words<'_>,
) -> Result<Option<String>, AllocError> {
    let answer = match call {
        b"InArea::opening" => opening(alloc, area)?,
        b"InArea::read" => read(alloc, area, words.bytes())?,
        b"InArea::get" => get(alloc, area, words.bytes())?,
        b"InArea::set" => set(alloc, area, words)?,
        b"InArea::designation" => designation(alloc, area)?,
        b"Status::bytes" => statuses(alloc)?,
        _ => return Ok(None),
    };
    Ok(Some(answer))
}

fn opening(alloc: Global, area: &mut InArea) -> Result<String, AllocError> {
    *area = InArea::opening();
    format!(in alloc; "{}", Quoted(area.as_bytes()))
}

fn read(alloc: Global, area: &mut InArea, bytes: &[u8]) -> Result<String, AllocError> {
    match InArea::read(bytes) {
        Some(read) => {
            *area = read;
            String::from_str(alloc, "Some")
        }
        None => String::from_str(alloc, "None"),
    }
}

/// Returns the field that a word names: None where it names none.
fn field_of(word: &[u8]) -> Option<InField> {
    match word {
        b"Queue" => Some(InField::Queue),
        b"Sub1" => Some(InField::Sub1),
        b"Sub2" => Some(InField::Sub2),
        b"Sub3" => Some(InField::Sub3),
        b"Date" => Some(InField::Date),
        b"Time" => Some(InField::Time),
        b"Source" => Some(InField::Source),
        b"Length" => Some(InField::Length),
        b"EndKey" => Some(InField::EndKey),
        b"Status" => Some(InField::Status),
        b"Count" => Some(InField::Count),
        _ => None,
    }
}

fn get(alloc: Global, area: &InArea, word: &[u8]) -> Result<String, AllocError> {
    match field_of(word) {
        Some(field) => format!(in alloc; "{}", Quoted(area.get(field))),
        None => String::from_str(alloc, "no field"),
    }
}

fn set(alloc: Global, area: &mut InArea, words: &mut Words<'_>) -> Result<String, AllocError> {
    let Some(field) = field_of(words.bytes()) else {
        return String::from_str(alloc, "no field");
    };
    let value = words.bytes();
    if value.len() != field.width() || !is_text(value) {
        return String::from_str(alloc, "no value");
    }
    area.set(field, value);
    format!(in alloc; "{}", Quoted(area.as_bytes()))
}

fn designation(alloc: Global, area: &InArea) -> Result<String, AllocError> {
    let mut answer = String::new(alloc);
    match area.designation() {
        Designation::Path(path) => {
            for name in path.names() {
                answer.push('/')?;
                answer.push_str(name.as_str())?;
            }
        }
        Designation::Malformed => answer.push_str("Malformed")?,
    }
    Ok(answer)
}

fn statuses(alloc: Global) -> Result<String, AllocError> {
    let mut answer = String::new(alloc);
    for status in [
        Status::S00,
        Status::S10,
        Status::S20,
        Status::S30,
        Status::S40,
        Status::S50,
        Status::S60,
    ] {
        write!(&mut answer, "{} ", Quoted(&status.bytes()))?;
    }
    Ok(answer)
}
